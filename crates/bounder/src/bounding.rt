// A tag explored from all of its starts.
ghost use Rattle.std.specs.Prelude.{◌≡◌, IfOk};
ghost use Rattle.design.specs.Views.{core};
ghost use Rattle.figures.specs.Rows.{SameRows};
ghost use Rattle.explore.specs.Memory.{memory_of, lent_of};
ghost use Rattle.bounder.specs.Bound.{StartsAll, head_of, Bounds, NoRunDrawsMore};

use crate::head::Head;
use bundle::Refusal;
use design::Design;
use explore::{Ending, Exploration, Figures};
use figures::Rows;
use levels::Tri;
use record::Point;
use rules::Plain;

// The most points that the walk takes.
const BUDGET: u16 = 65535;

// Takes all starts of the design, in their order, until one is refused.
fn start_all(
    design: &Design,
    exploration: &mut Exploration,
    points: &mut [Point],
    opened: &mut [Tri],
    kept: &[Tri],
    scratch: &mut [Tri],
) -> Result<(), Refusal>
    ensures { StartsAll (core design.now)
        (memory_of exploration.old points.old opened.old kept.now scratch.old)
        (memory_of exploration.new points.new opened.new kept.now scratch.new) result }
{
    for number in 0..design.start_count() {
        exploration.start(design, number, points, opened, kept, scratch)?;
    }
    Ok(())
}

// What a listing of the exploration begins with.
fn head(design: &Design, exploration: &Exploration, figures: Figures) -> Head
    ensures { result ≡ head_of (core design.now) exploration.now figures }
{
    Head {
        points: exploration.point_count(),
        open: exploration.open_count(),
        peak: figures.peak,
        power: u64::from(figures.peak) * u64::from(design.clock()),
        window: design.window(),
        energy: figures.window,
    }
}

// Explores the design over the lent memory: makes the exploration, takes all starts in order, walks under the plain rule until no
// point is open, and answers the figures. The first call that is refused refuses it all, and leaves the memory as that call does;
// the rows are all 0 once the window is asked for, and as they were before.
//
// No run of the tag draws more than what is answered: whatever the start, whatever its unknown bits and whatever the inputs, no
// cycle draws more than the peak, and no so many successive cycles as the window has, or fewer, draw together more than its energy.
pub fn bound(
    design: &Design,
    exploration: &mut Exploration,
    points: &mut [Point],
    opened: &mut [Tri],
    kept: &mut [Tri],
    scratch: &mut [Tri],
    rows: &mut Rows,
) -> Result<Head, Refusal>
    ensures bounds { Bounds (core design.now) exploration.old
        (lent_of points.old opened.old kept.old scratch.old) rows.old.row.now rows.old.other.now
        (memory_of exploration.new points.new opened.new kept.new scratch.new)
        rows.new.row.now rows.new.other.now result }
    ensures no_run_draws_more { IfOk result (NoRunDrawsMore (core design.now)) }
    ensures same { SameRows rows.old rows.new }
{
    exploration.make(design, points, opened, kept, scratch)?;
    start_all(design, exploration, points, opened, kept, scratch)?;
    let (_, ending) = exploration.walk(design, &Plain, BUDGET, points, opened, kept, scratch);
    if let Ending::Refused(refusal) = ending {
        return Err(refusal);
    }
    let figures = exploration.figures(
        design,
        design.window(),
        points,
        opened,
        kept,
        scratch,
        rows,
    )?;
    Ok(head(design, exploration, figures))
}
