ghost use Rattle.std.specs.Prelude.{◌≡◌, ◌+◌, ◌<◌, length};
ghost use Rattle.std.specs.Result.{result_ok};
ghost use Rattle.bundle.specs.Format.{two_bytes};
ghost use Rattle.decode.specs.Cells.{use_of, cell_right, cell_count, cell_read};

// What a cell is for.
#[derive(Clone, Copy)]
pub enum Use {
    Gate,
    Flop,
    EnabledFlop,
    Input,
    MemoryBit,
    Constant(bool),
}

// A kind of cell that nets are the outputs of.
#[derive(Clone, Copy)]
pub struct Cell {
    pub usage: Use,
    pub pins: u8,
    pub truth: u16,
    pub rise: u16,
    pub fall: u16,
    pub idle: u16,
}

// The field of two bytes at a place.
pub(crate) fn two_bytes(bytes: &[u8], at: usize) -> u16
    requires { at + 1 < length bytes.now }
    ensures { result ≡ two_bytes bytes.now at }
{
    u16::from_le_bytes([bytes[at], bytes[at + 1]])
}

// A number that stands for no use.
#[derive(Clone, Copy)]
pub struct UnknownUse;

impl TryFrom<u8> for Use {
    type Error = UnknownUse;

    ghost try_from_gives = { λ number r. result_ok r ≡ use_of number };

    fn try_from(number: u8) -> Result<Use, UnknownUse> {
        match number {
            0 => Ok(Use::Gate),
            1 => Ok(Use::Flop),
            2 => Ok(Use::EnabledFlop),
            3 => Ok(Use::Input),
            4 => Ok(Use::MemoryBit),
            5 => Ok(Use::Constant(false)),
            6 => Ok(Use::Constant(true)),
            _ => Err(UnknownUse),
        }
    }
}

// Whether a cell of this use may have these pins and this truth word.
fn cell_right(usage: Use, pins: u8, truth: u16) -> bool
    ensures { result ≡ cell_right usage pins truth }
{
    match usage {
        Use::Gate => match pins {
            1 => truth < 4,
            2 => truth < 16,
            3 => truth < 256,
            4 => true,
            _ => false,
        },
        Use::Flop => pins == 1 && truth == 0,
        Use::EnabledFlop => pins == 2 && truth == 0,
        Use::Input | Use::MemoryBit | Use::Constant(_) => pins == 0 && truth == 0,
    }
}

// The cell with this number: ten bytes.
pub(crate) fn read_cell(bytes: &[u8], i: usize) -> Option<Cell>
    requires { i < cell_count bytes.now }
    ensures { result ≡ cell_read bytes.now i }
{
    let at = 10 * i;
    let usage = Use::try_from(bytes[at + 1]).ok()?;
    let pins = bytes[at];
    let truth = two_bytes(bytes, at + 2);
    let rise = two_bytes(bytes, at + 4);
    let fall = two_bytes(bytes, at + 6);
    let idle = two_bytes(bytes, at + 8);
    cell_right(usage, pins, truth).then_some(Cell {
        usage,
        pins,
        truth,
        rise,
        fall,
        idle,
    })
}
