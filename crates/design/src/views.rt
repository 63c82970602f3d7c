ghost use Rattle.std.specs.Prelude.{◌≡◌, ◌/◌, length};
ghost use Rattle.model.specs.Core.{places, flops};
ghost use Rattle.design.specs.Views.{core, smallest};

use crate::design::Design;
use crate::table::Table;
use crate::tables::Tables;
use levels::Tri;
use model::{Driver, Net, RamWord};

impl Design {
    // The smallest design: a halt flop that holds 0, memories of one zero word, one start.
    pub fn new() -> Design
        ensures { core result ≡ smallest }
    {
        let halt = Net {
            driver: Driver::Flop { data: 0 },
            rise: 0,
            fall: 0,
            idle: 0,
        };
        let word = RamWord {
            value: 0,
            unknown: 0,
        };
        let tables = Tables {
            clock: 1,
            window: 1,
            rom_energy: 0,
            ram_energy: 0,
            write_energy: 0,
            nets: Table {
                values: [halt; 4096],
                count: 1,
            },
            rom_bits: 0,
            rom: Table {
                values: [0; 1024],
                count: 1,
            },
            ram_bits: 0,
            ram: Table {
                values: [word; 256],
                count: 1,
            },
            // 16 data nets and the write enable, no address net
            wires: Table {
                values: [0; 35],
                count: 17,
            },
            // the mark and one pilot
            pilots: Table {
                values: [0; 17],
                count: 2,
            },
            flop_count: 1,
            starts: Table {
                values: [Tri::Zero; 32768],
                count: 1,
            },
        };
        Design { tables }
    }

    pub fn clock(&self) -> u16
        ensures { result ≡ (core self.now).clock }
    {
        self.tables.clock
    }

    pub fn window(&self) -> u16
        ensures { result ≡ (core self.now).window }
    {
        self.tables.window
    }

    pub fn rom_energy(&self) -> u16
        ensures { result ≡ (core self.now).rom_energy }
    {
        self.tables.rom_energy
    }

    pub fn ram_energy(&self) -> u16
        ensures { result ≡ (core self.now).ram_energy }
    {
        self.tables.ram_energy
    }

    pub fn write_energy(&self) -> u16
        ensures { result ≡ (core self.now).write_energy }
    {
        self.tables.write_energy
    }

    pub fn nets(&self) -> &[Net]
        ensures { result.now ≡ (core self.now).nets }
    {
        self.tables.nets.as_slice()
    }

    pub fn rom(&self) -> &[u16]
        ensures { result.now ≡ (core self.now).rom }
    {
        self.tables.rom.as_slice()
    }

    pub fn ram(&self) -> &[RamWord]
        ensures { result.now ≡ (core self.now).ram }
    {
        self.tables.ram.as_slice()
    }

    pub fn rom_address(&self) -> &[u16]
        ensures { result.now ≡ (core self.now).rom_address }
    {
        let rom = self.tables.rom_bits;
        &self.tables.wires.as_slice()[..rom]
    }

    pub fn ram_address(&self) -> &[u16]
        ensures { result.now ≡ (core self.now).ram_address }
    {
        let rom = self.tables.rom_bits;
        let ram = self.tables.ram_bits;
        &self.tables.wires.as_slice()[rom..rom + ram]
    }

    pub fn write_enable(&self) -> u16
        ensures { result ≡ (core self.now).write_enable }
    {
        self.tables.wires.as_slice()[self.tables.rom_bits + self.tables.ram_bits]
    }

    pub fn write_data(&self) -> &[u16]
        ensures { result.now ≡ (core self.now).write_data }
    {
        let first = self.tables.rom_bits + self.tables.ram_bits + 1;
        &self.tables.wires.as_slice()[first..first + 16]
    }

    pub fn mark(&self) -> u16
        ensures { result ≡ (core self.now).mark }
    {
        self.tables.pilots.as_slice()[0]
    }

    pub fn pilots(&self) -> &[u16]
        ensures { result.now ≡ (core self.now).pilots }
    {
        &self.tables.pilots.as_slice()[1..]
    }

    // All starts, one after the other, each with a level for each flop.
    pub fn starts(&self) -> &[Tri]
        ensures { result.now ≡ (core self.now).starts }
    {
        self.tables.starts.as_slice()
    }

    pub fn start_count(&self) -> usize
        ensures { result ≡ length (core self.now).starts / flops (core self.now) }
    {
        self.starts().len() / self.flop_count()
    }

    pub fn flop_count(&self) -> usize
        ensures { result ≡ flops (core self.now) }
    {
        self.tables.flop_count
    }

    // How many places a state has: the nets, then 16 bits for each RAM word.
    pub fn places(&self) -> usize
        ensures { result ≡ places (core self.now) }
    {
        self.nets().len() + 16 * self.ram().len()
    }
}
