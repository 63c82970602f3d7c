ghost use Rattle.std.specs.Prelude.{◌≡◌, ◌+◌, ◌<◌, ◌≤◌, true, length};
ghost use Rattle.model.specs.Core.{sound, flops};
ghost use Rattle.design.specs.Table.{items};
ghost use Rattle.design.specs.Tables.{core_of};

use crate::tables::Tables;

// A tag's core, sound by its type.
#[derive(Clone, Copy)]
pub struct Design {
    pub tables: Tables,
    ghost nets_length: { length (core_of tables).nets ≤ 4096 },
    ghost ram_length: { length (core_of tables).ram ≤ 256 },
    ghost wires_length: { length (items tables.wires) ≡ tables.rom_bits + tables.ram_bits + 17 },
    ghost mark: { 0 < length (items tables.pilots) },
    ghost starts_length: { length (core_of tables).starts ≤ 32768 },
    ghost flop_count: { tables.flop_count ≡ flops (core_of tables) },
    ghost some_flop: { 0 < tables.flop_count },
    ghost sound: { sound (core_of tables) ≡ true },
}
