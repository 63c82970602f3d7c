// The library's calls over what of the memory is lent.
// Why apart: what a call leaves in a slice is known to a proof where the slice is cut out of another, and not where out of a vector.
ghost use Rattle.std.specs.Prelude.{◌≡◌, length};
ghost use Rattle.design.specs.Views.{core};
ghost use Rattle.explore.specs.Calls.{Makes, Starts, Walks, Peaks, Windows, Figured, unknown};
ghost use Rattle.beside.specs.declared.memory.Part.TheVariants.{Points, Opened, Kept, Scratch};
ghost use Rattle.beside.specs.Lent.{lent_count, lent_places, lent_to, KeepsRest};

use crate::memory::Part;
use bundle::Refusal;
use design::Design;
use explore::{Ending, Exploration, Figures};
use figures::Rows;
use levels::Tri;
use record::Point;
use rules::Rule;

// How many of so many places of a part are lent: all, but for the last of the part that is lent too short.
fn lent_count(short: Option<Part>, part: Part, count: usize) -> usize
    ensures { result ≡ lent_count short part count }
{
    count.saturating_sub(usize::from(short == Some(part)))
}

pub(crate) fn make(
    exploration: &mut Exploration,
    design: &Design,
    short: Option<Part>,
    points: &[Point],
    opened: &[Tri],
    kept: &[Tri],
    scratch: &mut [Tri],
) -> Result<(), Refusal>
    ensures made { Makes (core design.now)
        (lent_to exploration.old short points.now opened.now kept.now scratch.old).lent exploration.old exploration.new result }
    ensures cleared { lent_places short Scratch scratch.new ≡ unknown (lent_places short Scratch scratch.old) }
    ensures rest { KeepsRest short Scratch scratch.old scratch.new }
{
    let scratch_count = lent_count(short, Part::Scratch, scratch.len());
    exploration.make(
        design,
        &points[..lent_count(short, Part::Points, points.len())],
        &opened[..lent_count(short, Part::Opened, opened.len())],
        &kept[..lent_count(short, Part::Kept, kept.len())],
        &mut scratch[..scratch_count],
    )
}

pub(crate) fn start(
    exploration: &mut Exploration,
    design: &Design,
    number: usize,
    short: Option<Part>,
    points: &mut [Point],
    opened: &mut [Tri],
    kept: &[Tri],
    scratch: &mut [Tri],
) -> Result<usize, Refusal>
    ensures started { Starts (core design.now) number
        (lent_to exploration.old short points.old opened.old kept.now scratch.old)
        (lent_to exploration.new short points.new opened.new kept.now scratch.new) result }
    ensures points { KeepsRest short Points points.old points.new }
    ensures opened { KeepsRest short Opened opened.old opened.new }
    ensures scratch { KeepsRest short Scratch scratch.old scratch.new }
{
    let point_count = lent_count(short, Part::Points, points.len());
    let opened_count = lent_count(short, Part::Opened, opened.len());
    let scratch_count = lent_count(short, Part::Scratch, scratch.len());
    exploration.start(
        design,
        number,
        &mut points[..point_count],
        &mut opened[..opened_count],
        &kept[..lent_count(short, Part::Kept, kept.len())],
        &mut scratch[..scratch_count],
    )
}

pub(crate) fn walk<R: Rule>(
    exploration: &mut Exploration,
    design: &Design,
    rule: &R,
    budget: u16,
    short: Option<Part>,
    points: &mut [Point],
    opened: &mut [Tri],
    kept: &mut [Tri],
    scratch: &mut [Tri],
) -> (usize, Ending)
    ensures walked { Walks (core design.now) (R.Rule.meaning rule.now) budget
        (lent_to exploration.old short points.old opened.old kept.old scratch.old)
        (lent_to exploration.new short points.new opened.new kept.new scratch.new) result }
    ensures points { KeepsRest short Points points.old points.new }
    ensures opened { KeepsRest short Opened opened.old opened.new }
    ensures kept { KeepsRest short Kept kept.old kept.new }
    ensures scratch { KeepsRest short Scratch scratch.old scratch.new }
{
    let point_count = lent_count(short, Part::Points, points.len());
    let opened_count = lent_count(short, Part::Opened, opened.len());
    let kept_count = lent_count(short, Part::Kept, kept.len());
    let scratch_count = lent_count(short, Part::Scratch, scratch.len());
    exploration.walk(
        design,
        rule,
        budget,
        &mut points[..point_count],
        &mut opened[..opened_count],
        &mut kept[..kept_count],
        &mut scratch[..scratch_count],
    )
}

pub(crate) fn peak(
    exploration: &Exploration,
    design: &Design,
    short: Option<Part>,
    points: &[Point],
    opened: &[Tri],
    kept: &[Tri],
    scratch: &mut [Tri],
) -> Result<u32, Refusal>
    ensures peak { Peaks (core design.now)
        (lent_to exploration.now short points.now opened.now kept.now scratch.old)
        (lent_to exploration.now short points.now opened.now kept.now scratch.new) result }
    ensures rest { KeepsRest short Scratch scratch.old scratch.new }
{
    let scratch_count = lent_count(short, Part::Scratch, scratch.len());
    exploration.peak(
        design,
        &points[..lent_count(short, Part::Points, points.len())],
        &opened[..lent_count(short, Part::Opened, opened.len())],
        &kept[..lent_count(short, Part::Kept, kept.len())],
        &mut scratch[..scratch_count],
    )
}

pub(crate) fn window(
    exploration: &Exploration,
    design: &Design,
    width: u16,
    short: Option<Part>,
    points: &[Point],
    opened: &[Tri],
    kept: &[Tri],
    scratch: &mut [Tri],
    row: &mut [u64],
    other: &mut [u64],
) -> Result<u64, Refusal>
    ensures window { Windows (core design.now) width
        (lent_to exploration.now short points.now opened.now kept.now scratch.old) row.old other.old
        (lent_to exploration.now short points.now opened.now kept.now scratch.new) row.new other.new result }
    ensures rest { KeepsRest short Scratch scratch.old scratch.new }
{
    let scratch_count = lent_count(short, Part::Scratch, scratch.len());
    exploration.window(
        design,
        width,
        &points[..lent_count(short, Part::Points, points.len())],
        &opened[..lent_count(short, Part::Opened, opened.len())],
        &kept[..lent_count(short, Part::Kept, kept.len())],
        &mut scratch[..scratch_count],
        &mut Rows { row, other },
    )
}

pub(crate) fn figures(
    exploration: &Exploration,
    design: &Design,
    width: u16,
    short: Option<Part>,
    points: &[Point],
    opened: &[Tri],
    kept: &[Tri],
    scratch: &mut [Tri],
    row: &mut [u64],
    other: &mut [u64],
) -> Result<Figures, Refusal>
    ensures figures { Figured (core design.now) width
        (lent_to exploration.now short points.now opened.now kept.now scratch.old) row.old other.old
        (lent_to exploration.now short points.now opened.now kept.now scratch.new) row.new other.new result }
    ensures rest { KeepsRest short Scratch scratch.old scratch.new }
{
    let scratch_count = lent_count(short, Part::Scratch, scratch.len());
    exploration.figures(
        design,
        width,
        &points[..lent_count(short, Part::Points, points.len())],
        &opened[..lent_count(short, Part::Opened, opened.len())],
        &kept[..lent_count(short, Part::Kept, kept.len())],
        &mut scratch[..scratch_count],
        &mut Rows { row, other },
    )
}
