ghost use Rattle.std.specs.Prelude.{◌≡◌, None};
ghost use Rattle.std.specs.Result.{result_err};
ghost use Rattle.bundle.specs.declared.refusal.Fault.TheVariants as fault;
ghost use Rattle.bundle.specs.Format.{ask as asked, ask_at as asked_at, ask_each, row_inside, row_right, row_placed, rows as row_number};

use crate::refusal::{Fault, Refusal};
use crate::row::Row;

// A question about one place of many: where it is answered no, that place is refused.
pub fn ask_at(holds: bool, fault: Fault, place: usize) -> Result<(), Refusal>
    ensures { result_err result ≡ asked_at holds fault place }
{
    if holds {
        Ok(())
    } else {
        Err(Refusal { fault, place })
    }
}

// A question with one place.
pub fn ask(holds: bool, fault: Fault) -> Result<(), Refusal>
    ensures { result_err result ≡ asked holds fault }
{
    ask_at(holds, fault, 0)
}

// Does each row lie inside the bundle?
pub(crate) fn ask_rows(bytes: &[u8], rows: usize) -> Result<(), Refusal>
    ensures { result_err result ≡ ask_each (row_inside bytes.now) fault.Rows 0 rows }
{
    // Why by index: a row is read by its number, which is the place of the refusal.
    for i in 0..rows {
        ask_at(Row::read(bytes, i).is_some(), Fault::Rows, i)?;
    }
    Ok(())
}

// Has each row the kind that it must have, and a zero byte of 0?
pub(crate) fn ask_kinds(bytes: &[u8], rows: usize) -> Result<(), Refusal>
    requires { ask_each (row_inside bytes.now) fault.Rows 0 rows ≡ None }
    ensures { result_err result ≡ ask_each (row_right bytes.now) fault.Kinds 0 rows }
{
    // Why by index: a row is read by its number, which is the place of the refusal.
    for i in 0..rows {
        ask_at(Row::at(bytes, i).is_right(i), Fault::Kinds, i)?;
    }
    Ok(())
}

// Does each body begin where the part before it ends, and the last end with the bundle?
pub(crate) fn ask_bodies(bytes: &[u8], rows: usize) -> Result<(), Refusal>
    requires { (ask_each (row_inside bytes.now) fault.Rows 0 rows ≡ None) × (rows ≡ row_number bytes.now) }
    ensures { result_err result ≡ ask_each (row_placed bytes.now) fault.Bodies 0 rows }
{
    let mut part_end = 18 + 8 * rows;
    // Why by index: a row is read by its number, which is the place of the refusal.
    for i in 0..rows {
        let row = Row::at(bytes, i);
        let placed = row.is_placed(part_end, i + 1 == rows, bytes.len());
        ask_at(placed, Fault::Bodies, i)?;
        part_end = row.end();
    }
    Ok(())
}
