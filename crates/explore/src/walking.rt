// Open points taken one after the other, the highest number first.
ghost use Rattle.std.specs.Prelude.{◌≡◌, [], length};
ghost use Rattle.std.specs.Result.{result_err};
ghost use Rattle.design.specs.Views.{core};
ghost use Rattle.explore.specs.Memory.{memory_of, view};
ghost use Rattle.explore.specs.Fitting.{Fitting};
ghost use Rattle.explore.specs.Holding.{held_memory, SameHeld};
ghost use Rattle.explore.specs.Calls.{Takes, Walks, walk_refusal};
ghost use Rattle.explore.specs.Moves.{Holds};

use crate::answers::Ending;
use crate::exploration::Exploration;
use crate::held::Held;
use bundle::{Fault, Refusal, ask};
use design::Design;
use levels::Tri;
use record::Point;
use rules::Rule;

impl Held<'_> {
    // Takes open points until none is open, so many are taken, or one is refused.
    fn take_all<R: Rule>(&mut self, rule: &R, budget: usize, scratch: &mut [Tri]) -> (usize, Ending)
        requires { length scratch.old ≡ self.old.exploration.now.scratch_length }
        ensures takes { Takes (core self.old.design.now) (R.Rule.meaning rule.now) self.old.exploration.now budget
            (view (held_memory self.old)) result.0 result.1 (view (held_memory self.new)) }
        ensures holds { Holds (held_memory self.old) (held_memory self.new) }
        ensures same { SameHeld self.old self.new }
    {
        for taken in 0..budget {
            if self.exploration.open_count == 0 {
                return (taken, Ending::Done);
            }
            if let Err(refusal) = self.take(rule, scratch) {
                return (taken, Ending::Refused(refusal));
            }
        }
        if self.exploration.open_count == 0 {
            return (budget, Ending::Done);
        }
        (budget, Ending::Spent)
    }
}

impl Exploration {
    // Refusal 13 if the memory is not that of the making, or the design has another number of places; 18 if no start was taken.
    fn ask_walk(
        &self,
        design: &Design,
        points: &[Point],
        opened: &[Tri],
        kept: &[Tri],
        scratch: &[Tri],
    ) -> Result<(), Refusal>
        ensures { result_err result ≡ walk_refusal (core design.now)
            (memory_of self.now points.now opened.now kept.now scratch.now) }
    {
        ask(
            self.fits(design, points, opened, kept, scratch),
            Fault::Memory,
        )?;
        ask(0 < self.point_count, Fault::NotStarted)
    }

    // Takes open points until none is open, so many are taken, or one is refused.
    fn take_held<R: Rule>(
        &mut self,
        design: &Design,
        rule: &R,
        budget: usize,
        points: &mut [Point],
        opened: &mut [Tri],
        kept: &mut [Tri],
        scratch: &mut [Tri],
    ) -> (usize, Ending)
        requires { Fitting (core design.now) (memory_of self.old points.old opened.old kept.old scratch.old) }
        ensures takes { Takes (core design.now) (R.Rule.meaning rule.now) self.old budget
            (view (memory_of self.old points.old opened.old kept.old [])) result.0 result.1
            (view (memory_of self.new points.new opened.new kept.new [])) }
        ensures holds { Holds (memory_of self.old points.old opened.old kept.old [])
            (memory_of self.new points.new opened.new kept.new []) }
    {
        let mut held = Held {
            design,
            exploration: self,
            points,
            opened,
            kept,
        };
        held.take_all(rule, budget, scratch)
    }

    // Takes the open point with the highest number, as the rule says, up to `budget` times: how many were taken, and whether the
    // budget is spent, no point is open, or one is refused. A refused point stays open, and whatever has room enough goes on
    // from there. Scratch is all X in the end. Refusal 13 if the memory is not that of the making, or the design has another
    // number of places, and 18 if no start was taken; refusals 15, 16 and 17, at a point, if there is no room for an entry, for
    // its successors or for open slots.
    pub fn walk<R: Rule>(
        &mut self,
        design: &Design,
        rule: &R,
        budget: u16,
        points: &mut [Point],
        opened: &mut [Tri],
        kept: &mut [Tri],
        scratch: &mut [Tri],
    ) -> (usize, Ending)
        ensures { Walks (core design.now) (R.Rule.meaning rule.now) budget
            (memory_of self.old points.old opened.old kept.old scratch.old)
            (memory_of self.new points.new opened.new kept.new scratch.new) result }
    {
        if let Err(refusal) = self.ask_walk(design, points, opened, kept, scratch) {
            scratch.fill(Tri::X);
            return (0, Ending::Refused(refusal));
        }
        let answer = self.take_held(design, rule, budget as usize, points, opened, kept, scratch);
        scratch.fill(Tri::X);
        answer
    }
}
