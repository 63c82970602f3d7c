// Which points the records name.
ghost use Rattle.std.specs.Prelude.{◌≡◌, ◌&&◌, length};
ghost use Rattle.std.specs.Result.{result_err};
ghost use Rattle.bundle.specs.declared.refusal.Fault.TheVariants as fault;
ghost use Rattle.bundle.specs.Format.{ask_each};
ghost use Rattle.figures.specs.Figures.{from_used, to_used, names_used};

use bundle::{Fault, Refusal, ask_at};
use record::{Fate, Origin, Point};

// Does a record name only points below the count?
fn names_used(point: &Point, count: usize) -> bool
    ensures { result ≡ (from_used count point.now.origin && to_used count point.now.fate) }
{
    let from = match point.origin {
        Origin::Start => true,
        Origin::From { point } => (point as usize) < count,
    };
    let to = match point.fate {
        Fate::Open | Fate::Walked | Fate::Halted => true,
        Fate::Cut { to } => (to as usize) < count,
    };
    from && to
}

// Does each record name only these points? The place is the first that does not.
pub(crate) fn ask_records(points: &[Point]) -> Result<(), Refusal>
    ensures { result_err result ≡ ask_each (names_used points.now) fault.Damaged 0 (length points.now) }
{
    for (place, point) in points.iter().enumerate() {
        ask_at(names_used(point, points.len()), Fault::Damaged, place)?;
    }
    Ok(())
}
