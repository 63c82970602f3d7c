ghost use Rattle.std.specs.Prelude.{◌≡◌};
ghost use Rattle.bundle.specs.Format.{entry_size};
ghost use Rattle.bundle.specs.Kinds.{number_of, IsKindOf};

// What a body is, by the number in its row.
#[derive(Clone, Copy)]
pub(crate) enum Kind {
    Cells,
    Nets,
    Rom,
    Ram,
    Wires,
    Pilots,
    Starts,
    Skipped,
}

impl From<u8> for Kind {
    ghost from_gives = { IsKindOf };

    fn from(number: u8) -> Kind {
        match number {
            1 => Kind::Cells,
            2 => Kind::Nets,
            3 => Kind::Rom,
            4 => Kind::Ram,
            5 => Kind::Wires,
            6 => Kind::Pilots,
            7 => Kind::Starts,
            _ => Kind::Skipped,
        }
    }
}

impl Kind {
    // How many bytes an entry of such a body has.
    pub(crate) fn entry_size(self) -> usize
        ensures { result ≡ entry_size (number_of self) }
    {
        match self {
            Kind::Cells | Kind::Nets => 10,
            Kind::Rom | Kind::Wires | Kind::Pilots => 2,
            Kind::Ram => 4,
            Kind::Starts | Kind::Skipped => 1,
        }
    }
}
