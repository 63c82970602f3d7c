ghost use Rattle.std.specs.Prelude.{◌≡◌};
ghost use Rattle.bundle.specs.Faults.{fault_number, fault_layer};

// What is wrong, of a bundle, of a design or of a call.
#[derive(Clone, Copy, PartialEq, Eq, Debug)]
pub enum Fault {
    // of the bundle
    Header,
    Length,
    Rows,
    Kinds,
    Bodies,
    // of the design
    Figures,
    Cells,
    Nets,
    Words,
    Wires,
    Pilots,
    Starts,
    // of a call
    Memory,
    NoStart,
    NoEntry,
    NoPoint,
    NoSlot,
    NotStarted,
    StillOpen,
    NoWindow,
    Damaged,
    Lines,
}

// A refusal: what is wrong, and the place, from 0, of the first bad row, entry or line, else 0.
#[derive(Clone, Copy, PartialEq, Eq, Debug)]
pub struct Refusal {
    pub fault: Fault,
    pub place: usize,
}

impl Refusal {
    pub fn number(self) -> u8
        ensures { result ≡ fault_number self.fault }
    {
        match self.fault {
            Fault::Header => 1,
            Fault::Length => 2,
            Fault::Rows => 3,
            Fault::Kinds => 4,
            Fault::Bodies => 5,
            Fault::Figures => 6,
            Fault::Cells => 7,
            Fault::Nets => 8,
            Fault::Words => 9,
            Fault::Wires => 10,
            Fault::Pilots => 11,
            Fault::Starts => 12,
            Fault::Memory => 13,
            Fault::NoStart => 14,
            Fault::NoEntry => 15,
            Fault::NoPoint => 16,
            Fault::NoSlot => 17,
            Fault::NotStarted => 18,
            Fault::StillOpen => 19,
            Fault::NoWindow => 20,
            Fault::Damaged => 21,
            Fault::Lines => 22,
        }
    }

    // 1 for the bundle, 2 for the design, 3 for all after.
    pub fn layer(self) -> u8
        ensures { result ≡ fault_layer self.fault }
    {
        // Why numbers: the layers are ranges of numbers, as the pages give them.
        match self.number() {
            0..=5 => 1,
            6..=12 => 2,
            _ => 3,
        }
    }
}
