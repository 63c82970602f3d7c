// The library's exploration, with the memory that is lent to it.
ghost use Rattle.std.specs.Prelude.{◌≡◌, ◌↔◌, IsTrue, IfOk, All};
ghost use Rattle.levels.specs.declared.Tri.TheVariants.{X};
ghost use Rattle.design.specs.Views.{core};
ghost use Rattle.explore.specs.Calls.{Empty, Makes, Starts, Walks, Peaks, Windows, Figured, cleared};
ghost use Rattle.beside.specs.declared.answer.Answer.TheVariants.{Value};
ghost use Rattle.beside.specs.declared.answer.Answer.TheVariants as answer;
ghost use Rattle.beside.specs.declared.rule.Rule.{Rule};
ghost use Rattle.beside.specs.Memory.{Fresh};
ghost use Rattle.beside.specs.Rules.{meaning_of};
ghost use Rattle.beside.specs.Lent.{held, Unlent, answer_of, walk_answer, Answers};

use crate::answer::Answer;
use crate::lent;
use crate::memory::{Lengths, Memory, Rows};
use crate::rule::Rule;
use design::Design;
use explore::{Ending, Exploration};
use levels::Tri;
use rules::{Eager, Plain, WholeWords};
use std::alloc::{AllocError, Global};

#[derive(Drop)]
pub struct Bench {
    pub exploration: Exploration,
    pub memory: Memory,
}

impl Bench {
    // An exploration not yet made, and memory of these lengths.
    pub fn new(lengths: Lengths, heap: Global) -> Result<Bench, AllocError>
        ensures exploration { IfOk result (λ bench. Empty 1 0 0 0 1026 bench.exploration) }
        ensures memory { IfOk result (λ bench. Fresh lengths bench.memory) }
    {
        Ok(Bench {
            exploration: Exploration::new(),
            memory: Memory::new(lengths, heap)?,
        })
    }

    // Makes the exploration over what is lent. What is not lent stays as it was, here and in the other calls.
    pub fn make(&mut self, design: &Design) -> Answer
        ensures made { Answers (answer_of (λ _. Value 0))
            (Makes (core design.now) (held self.old).lent self.old.exploration self.new.exploration) result }
        ensures cleared { (held self.new).lent ≡ (cleared (held self.old)).lent }
        ensures unlent { Unlent self.old.memory self.new.memory }
    {
        let made = lent::make(
            &mut self.exploration,
            design,
            self.memory.short,
            &self.memory.points,
            &self.memory.opened,
            &self.memory.kept,
            &mut self.memory.scratch,
        );
        Answer::from(made.map(|()| 0u64))
    }

    // Takes a start: the number of its point.
    pub fn start(&mut self, design: &Design, number: usize) -> Answer
        ensures started { Answers (answer_of (λ point. Value point)) (Starts (core design.now) number (held self.old) (held self.new)) result }
        ensures unlent { Unlent self.old.memory self.new.memory }
    {
        let started = lent::start(
            &mut self.exploration,
            design,
            number,
            self.memory.short,
            &mut self.memory.points,
            &mut self.memory.opened,
            &self.memory.kept,
            &mut self.memory.scratch,
        );
        Answer::from(started.map(|point| point as u64))
    }

    // Walks under a rule of the library.
    fn walk_by<R: rules::Rule>(&mut self, design: &Design, rule: &R, budget: u16) -> (usize, Ending)
        ensures walked { Walks (core design.now) (R.Rule.meaning rule.now) budget (held self.old) (held self.new) result }
        ensures unlent { Unlent self.old.memory self.new.memory }
    {
        lent::walk(
            &mut self.exploration,
            design,
            rule,
            budget,
            self.memory.short,
            &mut self.memory.points,
            &mut self.memory.opened,
            &mut self.memory.kept,
            &mut self.memory.scratch,
        )
    }

    // Walks under one of the five rules, which is given as such or by its number.
    pub fn walk<N: Into<Rule>>(&mut self, design: &Design, rule: N, budget: u16) -> Answer
        ensures walked { (of : Rule) × N.Into.converts rule of
            × Answers walk_answer (Walks (core design.now) (meaning_of of) budget (held self.old) (held self.new)) result }
        ensures unlent { Unlent self.old.memory self.new.memory }
    {
        let eager_words = WholeWords { rule: Eager };
        Answer::from(match rule.into() {
            Rule::Plain => self.walk_by(design, &Plain, budget),
            Rule::Eager => self.walk_by(design, &Eager, budget),
            Rule::Words => self.walk_by(design, &WholeWords { rule: Plain }, budget),
            Rule::EagerWords => self.walk_by(design, &eager_words, budget),
            Rule::EagerWordsTwice => {
                self.walk_by(design, &WholeWords { rule: eager_words }, budget)
            }
        })
    }

    pub fn peak(&mut self, design: &Design) -> Answer
        ensures peak { Answers (answer_of (λ most. Value most)) (Peaks (core design.now) (held self.old) (held self.new)) result }
        ensures unlent { Unlent self.old.memory self.new.memory }
    {
        let peak = lent::peak(
            &self.exploration,
            design,
            self.memory.short,
            &self.memory.points,
            &self.memory.opened,
            &self.memory.kept,
            &mut self.memory.scratch,
        );
        Answer::from(peak.map(u64::from))
    }

    // The window over these rows.
    pub fn window(&mut self, design: &Design, width: u16, rows: &mut Rows) -> Answer
        ensures window { Answers (answer_of (λ most. Value most))
            (Windows (core design.now) width (held self.old) rows.old.row.items rows.old.other.items
            (held self.new) rows.new.row.items rows.new.other.items) result }
        ensures unlent { Unlent self.old.memory self.new.memory }
    {
        let window = lent::window(
            &self.exploration,
            design,
            width,
            self.memory.short,
            &self.memory.points,
            &self.memory.opened,
            &self.memory.kept,
            &mut self.memory.scratch,
            &mut rows.row,
            &mut rows.other,
        );
        Answer::from(window)
    }

    // Peak and window together, over these rows.
    pub fn figures(&mut self, design: &Design, width: u16, rows: &mut Rows) -> Answer
        ensures figures { Answers (answer_of (λ both. answer.Figures both.peak both.window))
            (Figured (core design.now) width (held self.old) rows.old.row.items rows.old.other.items
            (held self.new) rows.new.row.items rows.new.other.items) result }
        ensures unlent { Unlent self.old.memory self.new.memory }
    {
        let figures = lent::figures(
            &self.exploration,
            design,
            width,
            self.memory.short,
            &self.memory.points,
            &self.memory.opened,
            &self.memory.kept,
            &mut self.memory.scratch,
            &mut rows.row,
            &mut rows.other,
        );
        Answer::from(figures)
    }

    // Is all scratch unknown?
    pub fn scratch_is_clear(&self) -> bool
        ensures { IsTrue result ↔ All (λ level. level ≡ X) self.now.memory.scratch.items }
    {
        self.memory.scratch.iter().all(|level| *level == Tri::X)
    }
}
