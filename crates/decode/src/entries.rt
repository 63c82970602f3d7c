ghost use Rattle.std.specs.Prelude.{◌≡◌, ℕ, ◌<◌, ◌≤◌, Option, IfOk};
ghost use Rattle.std.specs.Result.{result_err};
ghost use Rattle.design.specs.Table.{items};
ghost use Rattle.decode.specs.Entries.{Reads, first_unread, entries};

use bundle::{Fault, Refusal};
use design::Table;

// Fills the table with so many entries, each read by its number, or refuses at the first that cannot be read: what the table then
// holds is not said.
pub(crate) fn read_all<T: Copy, const N: usize, F: Fn(usize) -> Option<T>>(
    table: &mut Table<T, N>,
    count: usize,
    fault: Fault,
    read: F,
) -> Result<(), Refusal>
    requires room { count ≤ N }
    requires readable { (i : ℕ) → i < count → F.pre read i }
    ensures refusal { (reads : ℕ → Option T) → Reads F.post read reads count → result_err result ≡ first_unread reads fault count }
    ensures items { (reads : ℕ → Option T) (d : T) → Reads F.post read reads count → IfOk result (λ _. items table.new ≡ entries reads d count) }
{
    for (i, value) in table.values[..count].iter_mut().enumerate() {
        *value = read(i).ok_or(Refusal { fault, place: i })?;
    }
    table.count = count;
    Ok(())
}
