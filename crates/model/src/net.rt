// A gate. Of its four pins the first `used` are wired to nets; the others read constant 0.
// Bit i of the truth word is the output for i = pin 0 + 2 * pin 1 + 4 * pin 2 + 8 * pin 3.
// Why an array: nothing is allocated, so the four pins stand in place, as a bundle has them, with the count of those that are wired.
#[derive(Clone, Copy)]
pub struct Gate {
    pub truth: u16,
    pub used: u8,
    pub pins: [u16; 4],
}

// What sets the level of a net. The numbers `data` and `enable` name nets.
#[derive(Clone, Copy)]
pub enum Driver {
    Gate(Gate),
    Flop { data: u16 },
    EnabledFlop { data: u16, enable: u16 },
    Input,
    RomBit { bit: u8 },
    RamBit { bit: u8 },
    Constant { bit: bool },
}

impl Driver {
    ghost use Rattle.std.specs.Prelude.{◌≡◌};
    ghost use Rattle.model.specs.Core.{is_flop, is_input};

    // Whether it is a flop, with an enable or without.
    pub fn is_flop(self) -> bool
        ensures { result ≡ is_flop self }
    {
        matches!(self, Driver::Flop { .. } | Driver::EnabledFlop { .. })
    }

    // Whether it is an input.
    pub fn is_input(self) -> bool
        ensures { result ≡ is_input self }
    {
        matches!(self, Driver::Input)
    }
}

// A net is the output of one cell. It costs `idle` in every cycle, and `rise` or `fall` as well when it changes, in femtojoules.
#[derive(Clone, Copy)]
pub struct Net {
    pub driver: Driver,
    pub rise: u16,
    pub fall: u16,
    pub idle: u16,
}

// A word of the RAM as the tag wakes: a bit under the mask `unknown` may be either, and is 0 in `value`.
#[derive(Clone, Copy)]
pub struct RamWord {
    pub value: u16,
    pub unknown: u16,
}
