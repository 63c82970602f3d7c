// An exploration by the library and one by the slow simulator, side by side.
ghost use Rattle.std.specs.Prelude.{◌≡◌, ◌++◌, ◌↔◌, ℕ, is_some, IsTrue, IsOk, IfOk, take, vec_len};
ghost use Rattle.design.specs.Views.{core};
ghost use Rattle.explore.specs.Calls.{Starts, Walks, Peaks, Windows, Figured};
ghost use Rattle.beside.specs.declared.answer.Answer.{Answer};
ghost use Rattle.beside.specs.declared.answer.Answer.TheVariants.{Value};
ghost use Rattle.beside.specs.declared.answer.Answer.TheVariants as answer;
ghost use Rattle.beside.specs.declared.memory.Rows.{Rows};
ghost use Rattle.beside.specs.Answer.{refusal_of};
ghost use Rattle.beside.specs.Lent.{held, Unlent, answer_of, walk_answer, Answers, taken};
ghost use Rattle.beside.specs.Memory.{RowsOf};
ghost use Rattle.beside.specs.Sides.{SamePoints, Alike};
ghost use Rattle.beside.specs.Rules.{rule_of, meaning_of};

use crate::answer::{Answer, Ending, answered, level_of, point_of};
use crate::bench::Bench;
use crate::memory::Rows;
use crate::rule::Rule;
use crate::stop::Stop;
use crate::tally::{Case, Tally};
use design::Design;
use explore::Figures;
use levels::Tri;
use slow::{Level, Record};
use slow_tag::{Question, Tag, refuse};
use std::alloc::{AllocError, Global};

// A start that was taken, and its point.
#[derive(Clone, Copy)]
pub struct Taken {
    pub start: usize,
    pub point: usize,
}

// Both, with the tag that they explore as each has read it.
#[derive(Drop)]
pub struct Pair<'a> {
    pub design: &'a Design,
    pub tag: &'a Tag,
    pub bench: Bench,
    pub record: Record,
    pub starts: Vec<Taken>,
    // Whether the last walk was refused.
    pub refused: bool,
    pub heap: Global,
}

// Why a function: what `==` on points of another crate says is not known of a closure.
fn same_point(point: slow::Point, other: &slow::Point) -> bool
    ensures { IsTrue result ↔ (point ≡ other.now) }
{
    point == *other
}

// Are these levels, from a place on, those of a state?
fn is_state(levels: &[Tri], first: usize, state: &[Level]) -> bool {
    let end = first.saturating_add(state.len());
    levels.get(first..end).is_some_and(|levels| {
        levels
            .iter()
            .zip(state)
            .all(|(level, other)| level_of(*level) == *other)
    })
}

impl Pair<'_> {
    // Do both records have the same points, in the same number?
    fn same_points(&self) -> bool
        ensures { IsTrue result ↔ SamePoints self.now.bench.exploration.point_count self.now.bench.memory.points.items self.now.record.points.items }
    {
        let count = self.bench.exploration.point_count();
        let Some(points) = self.bench.memory.points.get(..count) else {
            return false;
        };
        let others = &self.record.points;
        count == others.len()
            && points
                .iter()
                .map(|point| point_of(point))
                .zip(others.iter())
                .all(|(point, other)| same_point(point, other))
    }

    // Is each kept state in its entry's stretch?
    fn same_kept(&self) -> bool {
        let places = self.tag.places();
        let kept = &self.bench.memory.kept;
        (0..self.record.entry_count()).all(|entry| {
            let first = entry.saturating_mul(places);
            is_state(kept, first, self.record.kept_state(entry))
        })
    }

    // Is each open state in one of the first stretches, as many as are open?
    fn same_opened(&self) -> bool {
        let places = self.tag.places();
        let opened = &self.bench.memory.opened;
        let count = self.record.open_count();
        let found = (0..count).all(|slot| {
            let state = self.record.open_state(slot);
            (0..count).any(|stretch| is_state(opened, stretch.saturating_mul(places), state))
        });
        found && self.bench.exploration.open_count() == count
    }

    // Holds all that is recorded side by side.
    pub fn compare(&self, tally: &mut Tally) -> Result<(), Stop>
        ensures { IsOk result → Alike self.now.bench self.now.record }
    {
        tally.agree(Case::Points, self.same_points(), "the record")?;
        let same = self.same_kept() && self.same_opened();
        tally.agree(Case::States, same, "the states")?;
        tally.agree(Case::States, self.bench.scratch_is_clear(), "the scratch")
    }

    // Takes a start in both.
    pub fn start(&mut self, number: usize, tally: &mut Tally) -> Result<(), Stop>
        ensures library { IfOk result (λ _. (library : Answer)
            × Answers (answer_of (λ point. Value point)) (Starts (core self.old.design.now) number (held self.old.bench) (held self.new.bench)) library
            × (self.new.starts.items ≡ self.old.starts.items ++ taken number library)) }
        ensures alike { IsOk result → Alike self.new.bench self.new.record }
        ensures unlent { Unlent self.old.bench.memory self.new.bench.memory }
        ensures earlier { take (vec_len self.old.starts) self.new.starts.items ≡ self.old.starts.items }
        ensures stays { (self.new.refused ≡ self.old.refused) × (self.new.design ≡ self.old.design) × (self.new.tag ≡ self.old.tag) }
    {
        let library = self.bench.start(self.design, number);
        let slow = answered(self.record.start(self.tag, number, self.heap))?;
        if let Ok(point) = slow {
            self.starts.push(Taken {
                start: number,
                point,
            })?;
        }
        let slow = Answer::from(slow.map(|point| point as u64));
        tally.note(library);
        tally.agree_on(Case::Starts, "start", library, slow)?;
        self.compare(tally)
    }

    // Walks both, under a rule that is given as such or by its number.
    pub fn walk<N: Into<usize>>(
        &mut self,
        rule: N,
        budget: u16,
        tally: &mut Tally,
    ) -> Result<Answer, Stop>
        ensures library { (number : ℕ) × N.Into.converts rule number × IfOk result (Answers walk_answer
            (Walks (core self.old.design.now) (meaning_of (rule_of number)) budget (held self.old.bench) (held self.new.bench))) }
        ensures refused { IfOk result (λ answer. self.new.refused ≡ is_some (refusal_of answer)) }
        ensures alike { IsOk result → Alike self.new.bench self.new.record }
        ensures unlent { Unlent self.old.bench.memory self.new.bench.memory }
        ensures stays { (self.new.starts ≡ self.old.starts) × (self.new.design ≡ self.old.design) × (self.new.tag ≡ self.old.tag) }
    {
        let number: usize = rule.into();
        let rule = Rule::from(number);
        let library = self.bench.walk(self.design, rule, budget);
        let slow = self
            .record
            .walk(self.tag, rule.into(), budget as usize, self.heap)?;
        tally.note(library);
        tally.ruled(number);
        if let Answer::Walked(count, ending) = library {
            tally.taken = tally.taken.saturating_add(count);
            self.refused = matches!(ending, Ending::Refused(_));
        }
        tally.agree_on(Case::Walks, "walk", library, slow.into())?;
        self.compare(tally)?;
        Ok(library)
    }

    // The peak of both.
    pub fn peak(&mut self, tally: &mut Tally) -> Result<Answer, Stop>
        ensures library { IfOk result (Answers (answer_of (λ most. Value most))
            (Peaks (core self.old.design.now) (held self.old.bench) (held self.new.bench))) }
        ensures alike { IsOk result → Alike self.new.bench self.new.record }
        ensures unlent { Unlent self.old.bench.memory self.new.bench.memory }
        ensures stays { (self.new.record ≡ self.old.record) × (self.new.starts ≡ self.old.starts) × (self.new.refused ≡ self.old.refused)
            × (self.new.design ≡ self.old.design) × (self.new.tag ≡ self.old.tag) }
    {
        let library = self.bench.peak(self.design);
        let slow = Answer::from(self.record.peak().map(u64::from));
        tally.note(library);
        tally.agree_on(Case::Peaks, "peak", library, slow)?;
        self.compare(tally)?;
        Ok(library)
    }

    // Rows that have `more` places than points in use.
    fn rows(&self, more: usize) -> Result<Rows, AllocError>
        ensures { IfOk result (RowsOf self.now.record more) }
    {
        let length = self.record.points.len().saturating_add(more);
        Rows::new(length, length, self.heap)
    }

    // The window of both, over rows that have `more` places than points in use.
    pub fn window(&mut self, width: u16, more: usize, tally: &mut Tally) -> Result<Answer, Stop>
        ensures library { IfOk result (Answers (answer_of (λ most. Value most))
            (λ most. (rows : Rows) × (after : Rows) × RowsOf self.old.record more rows × Windows (core self.old.design.now) width
            (held self.old.bench) rows.row.items rows.other.items (held self.new.bench) after.row.items after.other.items most)) }
        ensures alike { IsOk result → Alike self.new.bench self.new.record }
        ensures unlent { Unlent self.old.bench.memory self.new.bench.memory }
        ensures stays { (self.new.record ≡ self.old.record) × (self.new.starts ≡ self.old.starts) × (self.new.refused ≡ self.old.refused)
            × (self.new.design ≡ self.old.design) × (self.new.tag ≡ self.old.tag) }
    {
        let mut rows = self.rows(more)?;
        let library = self.bench.window(self.design, width, &mut rows);
        let slow = answered(self.record.window(width as usize, self.heap))?;
        tally.note(library);
        tally.agree_on(Case::Windows, "window", library, slow.into())?;
        tally.agree(Case::Windows, rows.are_clear(), "the rows")?;
        if width <= 4 {
            self.window_by_paths(width, library, tally)?;
        }
        self.compare(tally)?;
        Ok(library)
    }

    // Peak and window of both together.
    pub fn figures(&mut self, width: u16, tally: &mut Tally) -> Result<(), Stop>
        ensures library { IfOk result (λ _. (library : Answer) × (rows : Rows) × (after : Rows) × RowsOf self.old.record 0 rows
            × Answers (answer_of (λ both. answer.Figures both.peak both.window)) (Figured (core self.old.design.now) width
            (held self.old.bench) rows.row.items rows.other.items (held self.new.bench) after.row.items after.other.items) library) }
        ensures alike { IsOk result → Alike self.new.bench self.new.record }
        ensures unlent { Unlent self.old.bench.memory self.new.bench.memory }
        ensures stays { (self.new.record ≡ self.old.record) × (self.new.starts ≡ self.old.starts) × (self.new.refused ≡ self.old.refused)
            × (self.new.design ≡ self.old.design) × (self.new.tag ≡ self.old.tag) }
    {
        let mut rows = self.rows(0)?;
        let library = self.bench.figures(self.design, width, &mut rows);
        let window = answered(self.record.window(width as usize, self.heap))?;
        let slow = window.and_then(|window| {
            Ok(Figures {
                peak: self.record.peak()?,
                window,
            })
        });
        tally.agree_on(Case::Figures, "peak and window", library, slow.into())?;
        self.compare(tally)
    }

    // The same window by going through all paths, if they are not too many.
    fn window_by_paths(&self, width: u16, library: Answer, tally: &mut Tally) -> Result<(), Stop> {
        let sum = self.record.window_by_paths(width as usize, 400, self.heap);
        match answered(sum)?.transpose() {
            Some(slow) => tally.agree_on(
                Case::WindowsByPaths,
                "window by paths",
                library,
                slow.into(),
            ),
            None => Ok(()),
        }
    }

    // Asks the library with memory that is not as long as at the making: every call is refused.
    pub fn ask_all(&mut self, tally: &mut Tally) -> Result<(), Stop> {
        let memory = refuse(Question::Memory, 0);
        let mut rows = self.rows(0)?;
        let started = self.bench.start(self.design, 0);
        let walked = self.bench.walk(self.design, Rule::Plain, 5);
        let peak = self.bench.peak(self.design);
        let window = self.bench.window(self.design, 2, &mut rows);
        for answer in [started, peak, window] {
            tally.note(answer);
            tally.agree_on(Case::Lengths, "a changed length", answer, memory.into())?;
        }
        let none = Answer::Walked(0, Ending::Refused(memory.into()));
        tally.agree_on(Case::Lengths, "a walk at a changed length", walked, none)
    }
}
