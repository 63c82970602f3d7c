// The largest charge of recorded points.
ghost use Rattle.std.specs.Prelude.{◌≡◌};
ghost use Rattle.record.specs.Bounds.{peak as peak_of};

use record::Point;

// The largest charge, 0 with no point.
pub fn peak(points: &[Point]) -> u32
    ensures { result ≡ peak_of points.now }
{
    points.iter().map(|point| point.charge).max().unwrap_or(0)
}
