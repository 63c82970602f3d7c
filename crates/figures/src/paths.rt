// The most that so many steps from one recorded point to the next draw.
ghost use Rattle.std.specs.Prelude.{◌≡◌, length, replicate, Some, None, MatchResult};
ghost use Rattle.std.specs.Result.{result_err};
ghost use Rattle.record.specs.Bounds.{window as window_of};
ghost use Rattle.figures.specs.Rows.{SameRows, refusal_with};

use crate::best::{best_row, most_drawn};
use crate::naming::ask_records;
use crate::rows::Rows;
use bundle::{Fault, Refusal, ask};
use record::Point;

// The questions of a window in their order.
fn ask_window(points: &[Point], width: u16, rows: &Rows) -> Result<(), Refusal>
    ensures { result_err result ≡ refusal_with points.now width rows.now }
{
    let count = points.len();
    ask(
        count <= rows.row.len() && count <= rows.other.len(),
        Fault::Memory,
    )?;
    ask(width != 0, Fault::NoWindow)?;
    ask_records(points)
}

// The window or what it is refused with; any numbers are left in the rows.
fn answer_window(points: &[Point], width: u16, rows: &mut Rows) -> Result<u64, Refusal>
    ensures answer { MatchResult result
        (λ n. (refusal_with points.now width rows.old ≡ None) × (n ≡ window_of points.now width))
        (λ e. refusal_with points.now width rows.old ≡ Some e) }
    ensures same { SameRows rows.old rows.new }
{
    ask_window(points, width, rows)?;
    let row = &mut rows.row[0..points.len()];
    let other = &mut rows.other[0..points.len()];
    best_row(points, width, row, other);
    Ok(most_drawn(points, row))
}

// The most that a path of at most `width` steps from any point draws, through two lent rows, which may hold anything and are all 0
// in the end. Refusal 13 if a row is shorter than the points, 20 if the width is 0, and 21 if a record names a point that is not
// among these: its place is the first such record's.
pub fn window(points: &[Point], width: u16, rows: &mut Rows) -> Result<u64, Refusal>
    ensures answer { MatchResult result
        (λ n. (refusal_with points.now width rows.old ≡ None) × (n ≡ window_of points.now width))
        (λ e. refusal_with points.now width rows.old ≡ Some e) }
    ensures same { SameRows rows.old rows.new }
    ensures row_cleared { rows.new.row.now ≡ replicate (length rows.old.row.now) 0 }
    ensures other_cleared { rows.new.other.now ≡ replicate (length rows.old.other.now) 0 }
{
    let answer = answer_window(points, width, rows);
    rows.row.fill(0);
    rows.other.fill(0);
    answer
}
