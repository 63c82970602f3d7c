// Rows that have for each point the most that so many steps draw of which the first goes to a successor of it.
ghost use Rattle.std.specs.Prelude.{◌≡◌, ℕ, suc, ◌+◌, ◌^◌, ◌<◌, true, length, slice_index};
ghost use Rattle.record.specs.Bounds.{window as window_of, by_fate};
ghost use Rattle.figures.specs.Figures.{to_used, AllNamed, Best};

use record::{Fate, Origin, Point};

// What a path draws on from point p of the fate, where `best` has for each point what it draws by its successors.
fn onward(fate: Fate, p: usize, best: &[u64]) -> u64
    requires point { p < length best.now }
    requires named { to_used (length best.now) fate ≡ true }
    ensures { result ≡ by_fate (λ t. slice_index best.now t) p fate }
{
    match fate {
        Fate::Open | Fate::Halted => 0,
        Fate::Walked => best[p],
        Fate::Cut { to } => best[to as usize],
    }
}

// What a path draws by a step to point q, and on from there.
fn drawn(point: &Point, q: usize, best: &[u64]) -> u64
    requires point { q < length best.now }
    requires named { to_used (length best.now) point.now.fate ≡ true }
    requires small { (t : ℕ) → t < length best.now → slice_index best.now t < 2 ^ 63 }
    ensures value { result ≡ point.now.charge + by_fate (λ t. slice_index best.now t) q point.now.fate }
    ensures bound { result < 2 ^ 32 + by_fate (λ t. slice_index best.now t) q point.now.fate }
{
    u64::from(point.charge) + onward(point.fate, q, best)
}

// The row for one step more: each point counts for the point that it comes from.
// Why apart: that the points name only one another is asked of three functions; a struct for it would hold one slice and be made once.
fn lengthen(points: &[Point], best: &[u64], longer: &mut [u64])
    requires named { AllNamed points.now }
    requires best { length best.now ≡ length points.now }
    requires longer { length longer.old ≡ length points.now }
    requires small { (t : ℕ) → t < length best.now → slice_index best.now t < 2 ^ 63 }
    ensures { (w : ℕ) → Best points.now w best.now → Best points.now (suc w) longer.new }
{
    longer.fill(0);
    // Why by index: each point writes the place of the point that it comes from.
    for (q, point) in points.iter().enumerate() {
        if let Origin::From { point: from } = point.origin {
            let from = from as usize;
            longer[from] = longer[from].max(drawn(point, q, best));
        }
    }
}

// The row for `width` steps, through a second row. Two steps a turn go from one row into the other and back, so that only the
// last row of an odd width is copied.
// Why apart: the rows are no `Rows` here, since one made of two stretches of another gets no generated proof.
pub(crate) fn best_row(points: &[Point], width: u16, row: &mut [u64], other: &mut [u64])
    requires named { AllNamed points.now }
    requires row { length row.old ≡ length points.now }
    requires other { length other.old ≡ length points.now }
    ensures { Best points.now width row.new }
{
    row.fill(0);
    for _pair in 0..width / 2 {
        lengthen(points, row, other);
        lengthen(points, other, row);
    }
    if width % 2 == 1 {
        lengthen(points, row, other);
        row.copy_from_slice(other);
    }
}

// The most that a path draws from any point.
pub(crate) fn most_drawn(points: &[Point], best: &[u64]) -> u64
    requires named { AllNamed points.now }
    requires best { length best.now ≡ length points.now }
    ensures { (w : ℕ) → Best points.now w best.now → result ≡ window_of points.now w }
{
    points
        .iter()
        .enumerate()
        .map(|(p, point)| onward(point.fate, p, best))
        .max()
        .unwrap_or(0)
}
