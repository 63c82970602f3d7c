// A start taken into an exploration.
ghost use Rattle.std.specs.Prelude.{◌≡◌, ◌+◌, ◌*◌, ◌<◌, ◌≤◌, length, MatchResult, slice_set};
ghost use Rattle.std.specs.Result.{result_err};
ghost use Rattle.levels.specs.Tris.{tri_kind};
ghost use Rattle.model.specs.Core.{places};
ghost use Rattle.model.specs.Cycle.{start_state, key_of};
ghost use Rattle.design.specs.Views.{core};
ghost use Rattle.record.specs.Record.{start_count};
ghost use Rattle.explore.specs.Memory.{memory_of, Adds, HasRoom};
ghost use Rattle.explore.specs.Calls.{Starts, start_refusal};

use crate::exploration::Exploration;
use bundle::{Fault, Refusal, ask};
use design::Design;
use levels::Tri;
use record::{Fate, Origin, Point};

// Writes the state of a start and answers its key.
fn write_start(design: &Design, number: usize, state: &mut [Tri]) -> Result<u16, Refusal>
    ensures { MatchResult result
        (λ key. (key ≡ key_of tri_kind (core design.now) (start_state tri_kind (core design.now) number))
        × (state.new ≡ start_state tri_kind (core design.now) number))
        (λ _. length state.old ≡ places (core design.now) → number < start_count (core design.now) → ⊥) }
{
    engine::start(design, number, state)?;
    engine::key(design, state)
}

impl Exploration {
    // The questions of a start in their order.
    fn ask_start(
        &self,
        design: &Design,
        number: usize,
        points: &[Point],
        opened: &[Tri],
        kept: &[Tri],
        scratch: &[Tri],
    ) -> Result<(), Refusal>
        ensures { result_err result ≡ start_refusal (core design.now) number
            (memory_of self.now points.now opened.now kept.now scratch.now) }
    {
        ask(
            self.fits(design, points, opened, kept, scratch),
            Fault::Memory,
        )?;
        ask(number < design.start_count(), Fault::NoStart)?;
        ask(self.point_count < self.point_room(), Fault::NoPoint)?;
        ask(self.open_count < self.open_room(), Fault::NoSlot)
    }

    // Counts one more point, which is open and has the next number.
    pub(crate) fn add_open(&mut self)
        requires { HasRoom 1 self.old }
        ensures adds { Adds 1 self.old self.new }
        ensures slot { self.old.open_count < length self.old.numbers }
        ensures number { self.new.numbers ≡ slice_set self.old.numbers self.old.open_count self.old.point_count }
    {
        self.numbers[self.open_count] = self.point_count as u16;
        self.open_count += 1;
        self.point_count += 1;
    }

    // Takes start `number`: one more point, which is open, and whose number is the answer. Refused if the lent memory is not as
    // long as at the making, if there is no such start, and if there is no room for a point or for an open state. The scratch is
    // all X in the end either way.
    pub fn start(
        &mut self,
        design: &Design,
        number: usize,
        points: &mut [Point],
        opened: &mut [Tri],
        kept: &[Tri],
        scratch: &mut [Tri],
    ) -> Result<usize, Refusal>
        ensures { Starts (core design.now) number
            (memory_of self.old points.old opened.old kept.now scratch.old)
            (memory_of self.new points.new opened.new kept.now scratch.new) result }
    {
        let allowed = self.ask_start(design, number, points, opened, kept, scratch);
        scratch.fill(Tri::X);
        allowed?;
        let first = self.open_count * self.places;
        let key = write_start(design, number, &mut opened[first..first + self.places])?;
        let point = self.point_count;
        points[point] = Point {
            origin: Origin::Start,
            key,
            charge: 0,
            fate: Fate::Open,
        };
        self.add_open();
        Ok(point)
    }
}
