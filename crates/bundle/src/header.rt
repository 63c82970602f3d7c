ghost use Rattle.std.specs.Prelude.{◌≡◌, if◌then◌else◌, Ok, Err};
ghost use Rattle.bundle.specs.declared.refusal.Fault.TheVariants as fault;
ghost use Rattle.bundle.specs.Format.{header_right, refused_at};
ghost use Rattle.bundle.specs.Contents.{the_header};

use crate::refusal::{Fault, Refusal};

// What the header says: how many rows the contents have, the clock in MHz, energies in fJ, the window in cycles and the
// bundle's length in bytes.
#[derive(Clone, Copy, PartialEq, Eq, Debug)]
pub struct Header {
    pub rows: u8,
    pub clock: u16,
    pub rom_energy: u16,
    pub ram_energy: u16,
    pub write_energy: u16,
    pub window: u16,
    pub length: u32,
}

impl Header {
    // The header that these bytes begin with.
    pub fn read(bytes: &[u8]) -> Result<Header, Refusal>
        ensures { result ≡ (if header_right bytes.now then Ok (the_header bytes.now) else Err (refused_at fault.Header 0)) }
    {
        match bytes {
            [
                0x54,
                0x42,
                1,
                rows,
                clock_0,
                clock_1,
                rom_0,
                rom_1,
                ram_0,
                ram_1,
                write_0,
                write_1,
                window_0,
                window_1,
                length_0,
                length_1,
                length_2,
                length_3,
                ..
            ] => Ok(Header {
                rows: *rows,
                clock: u16::from_le_bytes([*clock_0, *clock_1]),
                rom_energy: u16::from_le_bytes([*rom_0, *rom_1]),
                ram_energy: u16::from_le_bytes([*ram_0, *ram_1]),
                write_energy: u16::from_le_bytes([*write_0, *write_1]),
                window: u16::from_le_bytes([*window_0, *window_1]),
                length: u32::from_le_bytes([*length_0, *length_1, *length_2, *length_3]),
            }),
            // Why not asked: the pattern is the question, and `ask` takes a bool.
            _ => Err(Refusal {
                fault: Fault::Header,
                place: 0,
            }),
        }
    }
}
