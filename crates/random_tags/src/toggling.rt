// The toggling tag.
ghost use Rattle.std.specs.Prelude.{◌≡◌, replicate, IfOk};

use crate::parts::Parts;
use std::alloc::{AllocError, Global};

// Its cells: constant 0, input, flop, XOR; each with pins, use, truth word, rise, fall and idle.
const CELLS: [u8; 40] = [
    0, 5, 0, 0, 0, 0, 0, 0, 0, 0, // constant 0
    0, 3, 0, 0, 2, 0, 1, 0, 0, 0, // input
    1, 1, 0, 0, 10, 0, 8, 0, 3, 0, // flop
    2, 0, 6, 0, 5, 0, 4, 0, 1, 0, // XOR
];

// Its nets: the constant, the input, the halt flop with data 0, the flop with data 4, XOR of 3 and 1.
const NETS: [u8; 50] = [
    0, 0, 0, 0, 0, 0, 0, 0, 0, 0, // 0
    1, 0, 0, 0, 0, 0, 0, 0, 0, 0, // 1
    2, 0, 0, 0, 0, 0, 0, 0, 0, 0, // 2
    2, 0, 4, 0, 0, 0, 0, 0, 0, 0, // 3
    3, 0, 3, 0, 1, 0, 0, 0, 0, 0, // 4
];

// Its mark, net 4, and its pilots, nets 2 and 3.
const PILOTS: [u8; 6] = [4, 0, 2, 0, 3, 0];

impl Parts {
    // The toggling tag: one zero word in each memory, all wires on net 0, one start 0 0.
    pub fn toggling(heap: Global) -> Result<Parts, AllocError>
        ensures figures { IfOk result (λ p. (p.clock ≡ 8) × (p.rom_energy ≡ 0) × (p.ram_energy ≡ 2)
            × (p.write_energy ≡ 7) × (p.window ≡ 2)) }
        ensures design { IfOk result (λ p. (p.cells.items ≡ CELLS) × (p.nets.items ≡ NETS) × (p.pilots.items ≡ PILOTS)) }
        ensures zeros { IfOk result (λ p. (p.rom.items ≡ replicate 2 0) × (p.ram.items ≡ replicate 4 0)
            × (p.wires.items ≡ replicate 34 0) × (p.starts.items ≡ replicate 2 0)) }
    {
        Ok(Parts {
            clock: 8,
            rom_energy: 0,
            ram_energy: 2,
            write_energy: 7,
            window: 2,
            cells: CELLS.to_vec(heap)?,
            nets: NETS.to_vec(heap)?,
            rom: [0; 2].to_vec(heap)?,
            ram: [0; 4].to_vec(heap)?,
            wires: [0; 34].to_vec(heap)?,
            pilots: PILOTS.to_vec(heap)?,
            starts: [0; 2].to_vec(heap)?,
            others: Vec::new(heap),
        })
    }
}
