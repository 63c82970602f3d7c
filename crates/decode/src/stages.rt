ghost use Rattle.std.specs.Prelude.{◌≡◌, ℕ, ◌+◌, ◌<◌, ◌≤◌, [], ◌∷◌, true, length, IfOk, Some, slice_index};
ghost use Rattle.std.specs.Result.{result_err};
ghost use Rattle.bundle.specs.Format.{first_refusal};
ghost use Rattle.design.specs.Table.{items};
ghost use Rattle.decode.specs.Decode.{figures_refusal, cells_of, cells_refusal, nets_refusal, nets_of, words_refusal, rom_bits, ram_bits, rom_of, ram_of, wires_refusal, wires_of, pilots_refusal, pilots_of, whole_starts, starts_refusal, starts_of};

use crate::cells::{Cell, Use, read_cell};
use crate::entries::read_all;
use crate::nets::NetBody;
use crate::pilots::{count_flops, pilot};
use crate::starts::{flop_places, start};
use crate::words::{address_bits, ram_word, wire, word};
use bundle::{Fault, Refusal, ask};
use design::Table;
use levels::Tri;
use model::{Net, RamWord};

// What stands for an entry that is not read yet.
const NO_CELL: Cell = Cell {
    usage: Use::Constant(false),
    pins: 0,
    truth: 0,
    rise: 0,
    fall: 0,
    idle: 0,
};

// Asks whether the clock and the window are in range.
pub(crate) fn ask_figures(clock: u16, window: u16) -> Result<(), Refusal>
    ensures { result_err result ≡ figures_refusal clock window }
{
    ask((1..=200).contains(&clock) && window != 0, Fault::Figures)
}

// The cells that nets are outputs of.
fn read_cells(table: &mut Table<Cell, 64>, bytes: &[u8]) -> Result<(), Refusal>
    ensures refusal { result_err result ≡ cells_refusal bytes.now }
    ensures items { IfOk result (λ _. items table.new ≡ cells_of bytes.now) }
{
    let count = bytes.len() / 10;
    ask(1 <= count && count <= 64, Fault::Cells)?;
    read_all(table, count, Fault::Cells, |i| read_cell(bytes, i))
}

// The nets, by the cells that they are outputs of.
pub(crate) fn read_nets(
    table: &mut Table<Net, 4096>,
    cells: &[u8],
    nets: &[u8],
) -> Result<(), Refusal>
    ensures refusal { result_err result ≡ first_refusal (cells_refusal cells.now ∷ (nets_refusal cells.now nets.now ∷ [])) }
    ensures items { IfOk result (λ _. items table.new ≡ nets_of cells.now nets.now) }
{
    let mut known = Table {
        values: [NO_CELL; 64],
        count: 0,
    };
    read_cells(&mut known, cells)?;
    let count = nets.len() / 10;
    ask(1 <= count && count <= 4096, Fault::Nets)?;
    let body = NetBody {
        cells: known.as_slice(),
        bytes: nets,
    };
    read_all(table, count, Fault::Nets, |i| body.read(i))
}

// How many address bits each of the memories has.
#[derive(Clone, Copy)]
pub(crate) struct AddressBits {
    pub rom: usize,
    pub ram: usize,
}

// The words of both memories, and how many address bits they have.
pub(crate) fn read_memories(
    rom_table: &mut Table<u16, 1024>,
    ram_table: &mut Table<RamWord, 256>,
    rom: &[u8],
    ram: &[u8],
) -> Result<AddressBits, Refusal>
    ensures refusal { result_err result ≡ words_refusal rom.now ram.now }
    ensures bits { IfOk result (λ bits. (rom_bits rom.now ≡ Some bits.rom) × (ram_bits ram.now ≡ Some bits.ram)) }
    ensures items { IfOk result (λ _. (items rom_table.new ≡ rom_of rom.now) × (items ram_table.new ≡ ram_of ram.now)) }
{
    let refusal = Refusal {
        fault: Fault::Words,
        place: 0,
    };
    let rom_bits = address_bits(rom.len() / 2, 10).ok_or(refusal)?;
    let ram_bits = address_bits(ram.len() / 4, 8).ok_or(refusal)?;
    read_all(
        rom_table,
        rom.len() / 2,
        Fault::Words,
        |i| Some(word(rom, i)),
    )?;
    read_all(ram_table, ram.len() / 4, Fault::Words, |i| ram_word(ram, i))?;
    Ok(AddressBits {
        rom: rom_bits,
        ram: ram_bits,
    })
}

// The wires of memories with so many address bits, which name some of so many nets.
pub(crate) fn read_wires(
    table: &mut Table<u16, 35>,
    nets: usize,
    bits: usize,
    bytes: &[u8],
) -> Result<(), Refusal>
    requires { bits + 17 ≤ 35 }
    ensures refusal { result_err result ≡ wires_refusal nets bits bytes.now }
    ensures items { IfOk result (λ _. items table.new ≡ wires_of nets bytes.now) }
{
    let count = bytes.len() / 2;
    ask(bits + 17 <= count && count <= bits + 17, Fault::Wires)?;
    read_all(table, count, Fault::Wires, |i| wire(nets, bytes, i))
}

// The mark and the pilots.
pub(crate) fn read_pilots(
    table: &mut Table<u16, 17>,
    nets: &[Net],
    bytes: &[u8],
) -> Result<(), Refusal>
    ensures refusal { result_err result ≡ pilots_refusal nets.now bytes.now }
    ensures items { IfOk result (λ _. items table.new ≡ pilots_of nets.now bytes.now) }
    ensures mark { IfOk result (λ _. 0 < length (items table.new)) }
{
    let count = bytes.len() / 2;
    ask(2 <= count && count <= 17, Fault::Pilots)?;
    read_all(table, count, Fault::Pilots, |i| pilot(nets, bytes, i))
}

// Whether so many levels are one to eight whole starts.
fn whole_starts(flops: usize, levels: usize) -> bool
    ensures whole { result ≡ whole_starts flops levels }
    ensures some { result ≡ true → 0 < flops }
{
    flops != 0 && levels % flops == 0 && levels != 0 && levels / flops <= 8
}

// The starts, which have a byte for each of the flops.
pub(crate) fn read_starts(
    table: &mut Table<Tri, 32768>,
    nets: &[Net],
    pilots: &[u16],
    bytes: &[u8],
) -> Result<(), Refusal>
    requires few_nets { length nets.now ≤ 4096 }
    requires few_pilots { length pilots.now ≤ 16 }
    requires named { (k : ℕ) → k < length pilots.now → slice_index pilots.now k < length nets.now }
    ensures refusal { result_err result ≡ starts_refusal nets.now pilots.now bytes.now }
    ensures items { IfOk result (λ _. items table.new ≡ starts_of nets.now pilots.now bytes.now) }
{
    let flops = count_flops(nets);
    let count = bytes.len();
    ask(whole_starts(flops, count), Fault::Starts)?;
    let places = flop_places(nets, pilots);
    let places = places.as_slice();
    read_all(
        table,
        count,
        Fault::Starts,
        |i| start(flops, places, bytes, i),
    )
}
