// A tag in plain tables.
ghost use Rattle.std.specs.Prelude.{◌≡◌, true, false, min, take, IfOk};
ghost use Rattle.std.specs.Option.{option_and_then};
ghost use Rattle.std.specs.List.{slice_get};
ghost use Rattle.slow_tag.specs.Known.{start_bit, flop_or_constant, ram_bit, known_of};
ghost use Rattle.slow_tag.specs.Uses.{holds_a_bit, constant_of};

use crate::fields::bit;
use std::alloc::{AllocError, Global};

// What a cell is used for.
#[derive(Clone, Copy, PartialEq, Eq, Debug)]
pub enum Use {
    Gate,
    Flop,
    EnabledFlop,
    Input,
    MemoryBit,
    Zero,
    One,
}

impl Use {
    // The uses in the order of their numbers.
    pub(crate) const ALL: [Use; 7] = [
        Use::Gate,
        Use::Flop,
        Use::EnabledFlop,
        Use::Input,
        Use::MemoryBit,
        Use::Zero,
        Use::One,
    ];
}

#[derive(Clone, Copy, Debug)]
pub struct Cell {
    pub pins: usize,
    pub duty: Use,
    pub truth: usize,
    pub rise: u32,
    pub fall: u32,
    pub idle: u32,
}

// A net: its cell, and the nets at the cell's pins. A memory bit has 0 for ROM or 1 for RAM, then the bit.
// Why an array: a bundle has four pin fields for every net, and the unused ones are asked to be 0.
#[derive(Clone, Copy, Debug)]
pub struct Net {
    pub cell: Cell,
    // Why numbers: a memory bit keeps its pin fields as the bundle has them, the memory's number among them.
    pub pins: [usize; 4],
}

// A RAM word: its value, and the mask of the bits that are unknown.
#[derive(Clone, Copy, PartialEq, Eq, Debug)]
pub struct RamWord {
    pub value: usize,
    pub mask: usize,
}

#[derive(Drop)]
pub struct Tag {
    pub clock: usize,
    pub window: usize,
    pub rom_energy: u32,
    pub ram_energy: u32,
    pub write_energy: u32,
    pub nets: Vec<Net>,
    pub rom: Vec<usize>,
    pub ram: Vec<RamWord>,
    pub rom_address: Vec<usize>,
    pub ram_address: Vec<usize>,
    pub enable: usize,
    pub written: Vec<usize>,
    pub mark: usize,
    pub pilots: Vec<usize>,
    // The bit of each flop of each start, in net order; none where it is unknown.
    pub starts: Vec<Option<bool>>,
    pub flops: usize,
}

impl Cell {
    // What the cell draws when its net goes from one bit to another.
    pub fn toggle(&self, from: bool, to: bool) -> u32
        ensures rise { from ≡ false → to ≡ true → result ≡ self.now.rise }
        ensures fall { from ≡ true → to ≡ false → result ≡ self.now.fall }
        ensures same { from ≡ to → result ≡ 0 }
    {
        match (from, to) {
            (false, true) => self.rise,
            (true, false) => self.fall,
            _ => 0,
        }
    }
}

impl Net {
    pub fn is_flop(&self) -> bool
        ensures { result ≡ holds_a_bit self.now.cell.duty }
    {
        matches!(self.cell.duty, Use::Flop | Use::EnabledFlop)
    }

    // The nets at the pins that its cell uses.
    pub fn inputs(&self) -> &[usize]
        ensures { result.now ≡ take (min self.now.cell.pins 4) self.now.pins }
    {
        &self.pins[..self.cell.pins.min(4)]
    }

    // The bit of a constant.
    pub fn constant(&self) -> Option<bool>
        ensures { result ≡ constant_of self.now.cell.duty }
    {
        match self.cell.duty {
            Use::Zero => Some(false),
            Use::One => Some(true),
            _ => None,
        }
    }
}

impl RamWord {
    // A bit as the bundle has it; none if it is unknown.
    fn bit(&self, place: usize) -> Option<bool>
        ensures { result ≡ ram_bit self.now place }
    {
        (!bit(self.mask, place)).then_some(bit(self.value, place))
    }
}

impl Tag {
    // The place of a bit of a RAM word in a state.
    pub fn ram_place(&self, word: usize, place: usize) -> usize {
        self.nets
            .len()
            .saturating_add(word.saturating_mul(16))
            .saturating_add(place)
    }

    // How many places a state has.
    pub fn places(&self) -> usize {
        self.ram_place(self.ram.len(), 0)
    }

    // How many starts there are.
    pub fn start_count(&self) -> usize {
        self.starts.len().checked_div(self.flops).unwrap_or(0)
    }

    // How many inputs there are.
    pub fn input_count(&self) -> usize {
        let inputs = self.nets.iter().filter(|net| net.cell.duty == Use::Input);
        inputs.count()
    }

    // A RAM bit as the bundle has it; none if it is unknown.
    pub fn ram_bit(&self, word: usize, place: usize) -> Option<bool>
        ensures { result ≡ option_and_then (λ w. ram_bit w place) (slice_get self.now.ram.items word) }
    {
        self.ram.get(word).and_then(|word| word.bit(place))
    }

    // The bit of a start's flop, counted in net order; none if it is unknown.
    pub fn start_bit(&self, start: usize, flop: usize) -> Option<bool>
        ensures { result ≡ start_bit self.now start flop }
    {
        let first = start.saturating_mul(self.flops);
        let place = first.saturating_add(flop);
        self.starts.get(place).copied().flatten()
    }

    // The bit of a net at a start, none where it is unknown. So many flops come before the net.
    fn net_bit(&self, start: usize, flops: usize, net: &Net) -> Option<bool>
        ensures { result ≡ flop_or_constant self.now start flops net.now }
    {
        if net.is_flop() {
            self.start_bit(start, flops)
        } else {
            net.constant()
        }
    }

    // The bits of a start that are known before its gates settle, place by place: flops, constants and RAM as the bundle has them.
    pub fn known_bits(&self, start: usize, heap: Global) -> Result<Vec<Option<bool>>, AllocError>
        ensures { IfOk result (λ known. known.items ≡ known_of self.now start) }
    {
        let mut known: Vec<Option<bool>> = self
            .nets
            .iter()
            .scan(0usize, |flops, net| {
                let bit = self.net_bit(start, *flops, net);
                *flops = flops.saturating_add(net.is_flop() as usize);
                Some(bit)
            })
            .collect(heap)?;
        for word in &self.ram {
            known.extend((0..16).map(|place| word.bit(place)))?;
        }
        Ok(known)
    }
}
