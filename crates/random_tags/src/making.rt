// Random small tags.
use crate::parts::{Parts, push_two};
use crate::random::Random;
use std::alloc::{AllocError, Global};

// What a cell is used for, numbered as in the bundle.
#[derive(Clone, Copy, PartialEq, Eq, Default)]
enum Use {
    #[default]
    Gate,
    Flop,
    EnabledFlop,
    Input,
    MemoryBit,
    Zero,
    One,
}

impl Use {
    fn is_flop(self) -> bool {
        self == Use::Flop || self == Use::EnabledFlop
    }

    fn is_constant(self) -> bool {
        self == Use::Zero || self == Use::One
    }
}

// The uses that a cell is given, the more frequent ones more often.
const USES: [Use; 15] = [
    Use::Gate,
    Use::Gate,
    Use::Gate,
    Use::Gate,
    Use::Flop,
    Use::Flop,
    Use::EnabledFlop,
    Use::EnabledFlop,
    Use::Input,
    Use::Input,
    Use::Input,
    Use::MemoryBit,
    Use::MemoryBit,
    Use::Zero,
    Use::One,
];

// A cell: what it is used for, and how many pins it has.
#[derive(Clone, Copy)]
struct Cell {
    duty: Use,
    pins: usize,
}

// A tag as it is made: its cells, the use of each net, and which nets are flops.
#[derive(Drop)]
struct Draft {
    heap: Global,
    cells: Vec<Cell>,
    nets: Vec<Use>,
    flops: Vec<usize>,
}

fn energy(random: &mut Random) -> usize {
    if random.once_in(12) {
        random.below(65536)
    } else {
        random.below(30)
    }
}

// How many pins a cell of a use has, and the bits of a truth word that choices of so many pins reach.
fn choose_pins(random: &mut Random, duty: Use) -> (usize, usize) {
    match duty {
        Use::Gate => match random.between(1, 4) {
            1 => (1, 0x3),
            2 => (2, 0xf),
            3 => (3, 0xff),
            _ => (4, 0xffff),
        },
        Use::Flop => (1, 0),
        Use::EnabledFlop => (2, 0),
        _ => (0, 0),
    }
}

impl Draft {
    fn new(heap: Global) -> Draft {
        Draft {
            heap,
            cells: Vec::new(heap),
            nets: Vec::new(heap),
            flops: Vec::new(heap),
        }
    }

    // A cell of a use, with random energies and, for a gate, a random truth word.
    fn push_cell(
        &mut self,
        random: &mut Random,
        body: &mut Vec<u8>,
        duty: Use,
    ) -> Result<(), AllocError> {
        let (pins, reached) = choose_pins(random, duty);
        body.push((pins & 0xff) as u8)?;
        body.push(duty as u8)?;
        push_two(body, random.below(65536) & reached)?;
        for _ in 0..3 {
            push_two(body, energy(random))?;
        }
        self.cells.push(Cell { duty, pins })?;
        Ok(())
    }

    // Cells: the constant 0, a flop, and some more.
    fn make_cells(&mut self, random: &mut Random) -> Result<Vec<u8>, AllocError> {
        let mut body = Vec::new(self.heap);
        self.push_cell(random, &mut body, Use::Zero)?;
        self.push_cell(random, &mut body, Use::Flop)?;
        for _ in 0..random.between(3, 9) {
            let duty = random.pick(&USES);
            self.push_cell(random, &mut body, duty)?;
        }
        Ok(body)
    }

    // The cell of a number; the constant 0, if there is none.
    fn cell(&self, number: usize) -> Cell {
        self.cells.get(number).copied().unwrap_or(Cell {
            duty: Use::Zero,
            pins: 0,
        })
    }

    // Any net for a pin of net `number`, but seldom a constant, and for a gate's pin no gate of equal or higher number.
    fn try_pin(&self, random: &mut Random, number: usize, duty: Use) -> Option<usize> {
        let pin = random.below(self.nets.len());
        let other = self.nets.get(pin).copied().unwrap_or_default();
        let dull = other.is_constant() && !random.once_in(4);
        let fits = duty != Use::Gate || pin < number || other != Use::Gate;
        (!dull && fits).then_some(pin)
    }

    // A net for a pin of net `number`, found in eight tries; else net 0.
    fn pin(&self, random: &mut Random, number: usize, duty: Use) -> usize {
        (0..8)
            .find_map(|_| self.try_pin(random, number, duty))
            .unwrap_or(0)
    }

    // The four pin fields of a net of a cell.
    fn push_pins(
        &self,
        random: &mut Random,
        body: &mut Vec<u8>,
        number: usize,
        cell: Cell,
    ) -> Result<(), AllocError> {
        if cell.duty == Use::MemoryBit {
            push_two(body, random.below(2))?;
            push_two(body, random.pick(&[0, 0, 1, 1, 2, 3, 15]))?;
            push_two(body, 0)?;
            return push_two(body, 0);
        }
        for _ in 0..cell.pins {
            push_two(body, self.pin(random, number, cell.duty))?;
        }
        for _ in cell.pins..4 {
            push_two(body, 0)?;
        }
        Ok(())
    }

    // Nets: the constant 0, a flop, and some more of any cells.
    fn make_nets(&mut self, random: &mut Random) -> Result<Vec<u8>, AllocError> {
        let mut chosen = [0, 1].to_vec(self.heap)?;
        for _ in 0..random.between(2, 11) {
            chosen.push(random.below(self.cells.len()))?;
        }
        for (number, cell) in chosen.iter().enumerate() {
            let duty = self.cell(*cell).duty;
            self.nets.push(duty)?;
            if duty.is_flop() {
                self.flops.push(number)?;
            }
        }
        let mut body = Vec::new(self.heap);
        for (number, cell) in chosen.iter().enumerate() {
            push_two(&mut body, *cell)?;
            self.push_pins(random, &mut body, number, self.cell(*cell))?;
        }
        Ok(body)
    }

    // So many entries of two bytes, each below `most`.
    fn make_entries(
        &self,
        random: &mut Random,
        count: usize,
        most: usize,
    ) -> Result<Vec<u8>, AllocError> {
        let mut body = Vec::new(self.heap);
        for _ in 0..count {
            push_two(&mut body, random.below(most))?;
        }
        Ok(body)
    }

    // Words of the RAM, some of their bits unknown.
    fn make_ram(&self, random: &mut Random, words: usize) -> Result<Vec<u8>, AllocError> {
        let mut body = Vec::new(self.heap);
        for _ in 0..words {
            let value = random.below(65536);
            let mask = random.below(65536) & random.pick(&[0, 0, 0x3, 0xff0f, 0xffff]);
            push_two(&mut body, value & (0xffff ^ mask))?;
            push_two(&mut body, mask)?;
        }
        Ok(body)
    }

    // Up to three flops, all distinct.
    fn choose_pilots(&self, random: &mut Random) -> Result<Vec<usize>, AllocError> {
        let mut pilots: Vec<usize> = Vec::new(self.heap);
        for _ in 0..random.between(1, 4) {
            let flop = random.pick(&self.flops);
            if pilots.len() < 3 && !pilots.contains(&flop) {
                pilots.push(flop)?;
            }
        }
        Ok(pilots)
    }

    // The mark, which is any net, and then the pilots.
    fn make_pilots(&self, random: &mut Random, pilots: &[usize]) -> Result<Vec<u8>, AllocError> {
        let mut body = self.make_entries(random, 1, self.nets.len())?;
        for pilot in pilots {
            push_two(&mut body, *pilot)?;
        }
        Ok(body)
    }

    // One to three starts: the halt flop is mostly 0, the other pilots are known.
    fn make_starts(&self, random: &mut Random, pilots: &[usize]) -> Result<Vec<u8>, AllocError> {
        let mut body = Vec::new(self.heap);
        for _ in 0..random.between(1, 3) {
            for flop in self.flops.iter() {
                let level = if pilots.first() == Some(flop) {
                    usize::from(random.once_in(12))
                } else if pilots.contains(flop) {
                    random.below(2)
                } else {
                    random.below(3)
                };
                body.push((level & 0xff) as u8)?;
            }
        }
        Ok(body)
    }
}

// Ties the data of a net, and its enable if it has one, to the constant 0, so that it stays as it is.
fn hold(body: &mut [u8], net: usize) {
    let first = net.saturating_mul(10).saturating_add(2);
    for byte in body.iter_mut().skip(first).take(4) {
        *byte = 0;
    }
}

// A random small tag.
pub fn make_tag(random: &mut Random, heap: Global) -> Result<Parts, AllocError> {
    let mut draft = Draft::new(heap);
    let cells = draft.make_cells(random)?;
    let mut nets = draft.make_nets(random)?;
    let pilots = draft.choose_pilots(random)?;
    if random.once_in(2) {
        hold(&mut nets, pilots.first().copied().unwrap_or(0));
    }
    let (a, b) = (random.below(3), random.below(3));
    let wires = a.saturating_add(b).saturating_add(17);
    let mut others = Vec::new(heap);
    if random.once_in(8) {
        others.push(random.below(4))?;
        others.push(random.below(4))?;
    }
    Ok(Parts {
        clock: random.between(1, 200),
        rom_energy: energy(random),
        ram_energy: energy(random),
        write_energy: energy(random),
        window: random.between(1, 6),
        cells,
        nets,
        rom: draft.make_entries(random, 1 << a, 65536)?,
        ram: draft.make_ram(random, 1 << b)?,
        wires: draft.make_entries(random, wires, draft.nets.len())?,
        pilots: draft.make_pilots(random, &pilots)?,
        starts: draft.make_starts(random, &pilots)?,
        others,
    })
}
