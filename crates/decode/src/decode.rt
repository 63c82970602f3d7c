ghost use Rattle.std.specs.Prelude.{◌≡◌, IfOk};
ghost use Rattle.std.specs.Result.{result_err};
ghost use Rattle.decode.specs.Decode.{parts_refusal};
ghost use Rattle.decode.specs.Holds.{parts_in, Holds};

use crate::bodies::Bodies;
use crate::pilots::count_flops;
use crate::stages::{ask_figures, read_memories, read_nets, read_pilots, read_starts, read_wires};
use bundle::{Header, Refusal};
use design::Tables;

// Reads what a bundle's header and bodies stand for into the tables, or refuses: what they then hold is not said.
// Why into lent tables: each, up to 80 KB, would be copied out of its `Result` at every return.
pub(crate) fn read_tables(
    tables: &mut Tables,
    header: Header,
    bodies: Bodies,
) -> Result<(), Refusal>
    ensures refusal { result_err result ≡ parts_refusal (parts_in header bodies.entry) }
    ensures tables { IfOk result (λ _. Holds tables.new (parts_in header bodies.entry)) }
{
    ask_figures(header.clock, header.window)?;
    tables.clock = header.clock;
    tables.window = header.window;
    tables.rom_energy = header.rom_energy;
    tables.ram_energy = header.ram_energy;
    tables.write_energy = header.write_energy;
    read_nets(&mut tables.nets, bodies.cells, bodies.nets)?;
    let bits = read_memories(&mut tables.rom, &mut tables.ram, bodies.rom, bodies.ram)?;
    tables.rom_bits = bits.rom;
    tables.ram_bits = bits.ram;
    let count = bodies.nets.len() / 10;
    read_wires(&mut tables.wires, count, bits.rom + bits.ram, bodies.wires)?;
    let nets = tables.nets.as_slice();
    tables.flop_count = count_flops(nets);
    read_pilots(&mut tables.pilots, nets, bodies.pilots)?;
    let past = &tables.pilots.as_slice()[1..];
    read_starts(&mut tables.starts, nets, past, bodies.starts)
}
