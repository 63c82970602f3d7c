// An exploration made over lent memory.
ghost use Rattle.std.specs.Prelude.{◌≡◌, ◌+◌, ◌*◌, ◌<◌, ◌≤◌};
ghost use Rattle.std.specs.Result.{result_err};
ghost use Rattle.design.specs.Views.{core};
ghost use Rattle.explore.specs.Memory.{lent_of};
ghost use Rattle.explore.specs.Calls.{make_refusal, Makes, Empty, unknown};

use crate::exploration::{Entry, Exploration};
use bundle::{Fault, Refusal, ask};
use design::Design;
use levels::Tri;
use record::Point;

// An exploration without points over memory of these lengths.
fn over(
    places: usize,
    point_length: usize,
    open_length: usize,
    kept_length: usize,
    scratch_length: usize,
) -> Exploration
    requires places { 0 < places }
    requires scratch { 2 * places + 1024 ≤ scratch_length }
    ensures { Empty places point_length open_length kept_length scratch_length result }
{
    let entry = Entry {
        key: 0,
        point: 0,
        count: 0,
    };
    Exploration {
        places,
        point_length,
        open_length,
        kept_length,
        scratch_length,
        point_count: 0,
        open_count: 0,
        numbers: [0; 64],
        entry_count: 0,
        entries: [entry; 256],
    }
}

// Is there memory for a point, for an open state and a kept one, and scratch for two states and 1,024 more?
fn ask_make(
    design: &Design,
    points: &[Point],
    opened: &[Tri],
    kept: &[Tri],
    scratch: &[Tri],
) -> Result<(), Refusal>
    ensures { result_err result ≡ make_refusal (core design.now) (lent_of points.now opened.now kept.now scratch.now) }
{
    let places = design.places();
    ask(
        1 <= points.len()
            && places <= opened.len()
            && places <= kept.len()
            && 2 * places + 1024 <= scratch.len(),
        Fault::Memory,
    )
}

impl Exploration {
    // An exploration not yet made: it has no room for a point, so every call but `make` is refused.
    pub fn new() -> Exploration
        ensures { Empty 1 0 0 0 1026 result }
    {
        over(1, 0, 0, 0, 1026)
    }

    // Why apart: here and in the other calls, a slice is lent by `&` or `&mut` as the call reads or writes it; a struct of the four would
    // hold all by `&mut`, and ask more of a caller.
    //
    // Makes an exploration of the design over the lent memory. Refused if there is less than a point, a state's places open and
    // kept, or twice as many and 1,024 more of scratch; a refused making leaves the exploration as it was. The scratch is all X
    // in the end either way.
    pub fn make(
        &mut self,
        design: &Design,
        points: &[Point],
        opened: &[Tri],
        kept: &[Tri],
        scratch: &mut [Tri],
    ) -> Result<(), Refusal>
        ensures made { Makes (core design.now) (lent_of points.now opened.now kept.now scratch.old) self.old self.new result }
        ensures cleared { scratch.new ≡ unknown scratch.old }
    {
        let allowed = ask_make(design, points, opened, kept, scratch);
        scratch.fill(Tri::X);
        allowed?;
        *self = over(
            design.places(),
            points.len(),
            opened.len(),
            kept.len(),
            scratch.len(),
        );
        Ok(())
    }
}
