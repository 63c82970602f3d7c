use crate::table::Table;
use levels::Tri;
use model::{Net, RamWord};

// The tables of a design, each with room for the most that a bundle may hold.
#[derive(Clone, Copy)]
pub struct Tables {
    pub clock: u16,
    pub window: u16,
    pub rom_energy: u16,
    pub ram_energy: u16,
    pub write_energy: u16,
    pub rom_bits: usize,
    pub ram_bits: usize,
    pub flop_count: usize,
    pub nets: Table<Net, 4096>,
    pub rom: Table<u16, 1024>,
    pub ram: Table<RamWord, 256>,
    // the ROM address nets, the RAM address nets, the write enable and 16 data nets
    pub wires: Table<u16, 35>,
    // the mark, then the pilots
    pub pilots: Table<u16, 17>,
    // one start after the other, each with a level for each flop
    pub starts: Table<Tri, 32768>,
}
