ghost use Rattle.std.specs.Prelude.{◌≡◌, ℕ, ◌<◌, ◌≤◌, length, slice_index};
ghost use Rattle.model.specs.Core.{among};
ghost use Rattle.design.specs.Table.{items};
ghost use Rattle.decode.specs.Pilots.{flop_places, start_level, start_read};

use crate::pilots::count_flops;
use design::Table;
use levels::Tri;
use model::Net;

fn among(x: usize, list: &[usize]) -> bool
    ensures { result ≡ among x list.now }
{
    list.contains(&x)
}

// Where the pilots stand among the flops.
pub(crate) fn flop_places(nets: &[Net], pilots: &[u16]) -> Table<usize, 16>
    requires few { length pilots.now ≤ 16 }
    requires named { (k : ℕ) → k < length pilots.now → slice_index pilots.now k < length nets.now }
    ensures { items result ≡ flop_places nets.now pilots.now }
{
    let mut values = [0; 16];
    // Why by index: a proof knows only the length of what is written through `values.iter_mut().zip(pilots)`.
    for (k, pilot) in pilots.iter().enumerate() {
        values[k] = count_flops(&nets[..*pilot as usize]);
    }
    Table {
        values,
        count: pilots.len(),
    }
}

fn start_level(pilot: bool, byte: u8) -> Option<Tri>
    ensures { result ≡ start_level pilot byte }
{
    match byte {
        0 => Some(Tri::Zero),
        1 => Some(Tri::One),
        2 => (!pilot).then_some(Tri::X),
        _ => None,
    }
}

// A level of the starts, which stand one after the other, each with a level for each flop. `pilots` has the places of the
// pilots among the flops.
pub(crate) fn start(flops: usize, pilots: &[usize], bytes: &[u8], i: usize) -> Option<Tri>
    requires { (0 < flops) × (i < length bytes.now) }
    ensures { result ≡ start_read flops pilots.now bytes.now i }
{
    start_level(among(i % flops, pilots), bytes[i])
}
