ghost use Rattle.std.specs.Prelude.{◌≡◌, ◌<◌, slice_index};
ghost use Rattle.decode.specs.Nets.{gate_use, gate_cell, fields_right, memory_bit, net_count, pin_fields, cell_of, pin_right, driver_read, net_read};

use crate::cells::{Cell, Use, two_bytes};
use model::{Driver, Gate, Net};

// The nets of a bundle, ten bytes each, whose cells are known.
// Why by number: a pin names another net by its number, and that net's cell is then read, so nets are not read by `chunks_exact`.
#[derive(Clone, Copy)]
pub(crate) struct NetBody<'a> {
    pub cells: &'a [Cell],
    pub bytes: &'a [u8],
}

impl NetBody<'_> {
    pub(crate) fn read(&self, i: usize) -> Option<Net>
        requires { i < net_count self.now.bytes.now }
        ensures { result ≡ net_read self.now.cells.now self.now.bytes.now i }
    {
        let cell = self.cell_of(i)?;
        let driver = self.driver(i, cell)?;
        Some(Net {
            driver,
            rise: cell.rise,
            fall: cell.fall,
            idle: cell.idle,
        })
    }

    // The cell of net i.
    fn cell_of(&self, i: usize) -> Option<Cell>
        requires { i < net_count self.now.bytes.now }
        ensures { result ≡ cell_of self.now.cells.now self.now.bytes.now i }
    {
        let number = two_bytes(self.bytes, 10 * i) as usize;
        self.cells.get(number).copied()
    }

    fn pin_fields(&self, i: usize) -> [u16; 4]
        requires { i < net_count self.now.bytes.now }
        ensures { result ≡ pin_fields self.now.bytes.now i }
    {
        let at = 10 * i + 2;
        let a = two_bytes(self.bytes, at);
        let b = two_bytes(self.bytes, at + 2);
        let c = two_bytes(self.bytes, at + 4);
        let d = two_bytes(self.bytes, at + 6);
        [a, b, c, d]
    }

    // Whether a pin of net i, whose cell has this use, may name p.
    fn pin_right(&self, usage: Use, i: usize, p: u16) -> bool
        ensures { result ≡ pin_right self.now.cells.now self.now.bytes.now usage i p }
    {
        let p = p as usize;
        p < self.bytes.len() / 10 && (!gate_use(usage) || p < i || !gate_cell(self.cell_of(p)))
    }

    // Whether the pins of net i may name these nets: as many as its cell has, and 0 past them.
    fn fields_right(&self, i: usize, cell: Cell, fields: &[u16]) -> bool
        ensures { result ≡ fields_right (pin_right self.now.cells.now self.now.bytes.now cell.usage i) cell.pins fields.now }
    {
        let pins = cell.pins as usize;
        let used = fields
            .iter()
            .take(pins)
            .all(|p| self.pin_right(cell.usage, i, *p));
        used && fields.iter().skip(pins).all(|p| *p == 0)
    }

    fn driver(&self, i: usize, cell: Cell) -> Option<Driver>
        requires { i < net_count self.now.bytes.now }
        ensures { result ≡ driver_read self.now.cells.now self.now.bytes.now i cell cell.usage }
    {
        let fields = self.pin_fields(i);
        let driver = match cell.usage {
            Use::Gate => Driver::Gate(Gate {
                truth: cell.truth,
                used: cell.pins,
                pins: fields,
            }),
            Use::Flop => Driver::Flop { data: fields[0] },
            Use::EnabledFlop => Driver::EnabledFlop {
                data: fields[0],
                enable: fields[1],
            },
            Use::Input => Driver::Input,
            Use::MemoryBit => return memory_bit(fields),
            Use::Constant(bit) => Driver::Constant { bit },
        };
        self.fields_right(i, cell, &fields).then_some(driver)
    }
}

fn gate_use(usage: Use) -> bool
    ensures { result ≡ gate_use usage }
{
    matches!(usage, Use::Gate)
}

fn gate_cell(cell: Option<Cell>) -> bool
    ensures { result ≡ gate_cell cell }
{
    cell.is_some_and(|cell| gate_use(cell.usage))
}

fn memory_bit(fields: [u16; 4]) -> Option<Driver>
    ensures { result ≡ memory_bit (slice_index fields 0) (slice_index fields 1) (slice_index fields 2) (slice_index fields 3) }
{
    match fields {
        [0, bit @ 0..=15, 0, 0] => Some(Driver::RomBit { bit: bit as u8 }),
        [1, bit @ 0..=15, 0, 0] => Some(Driver::RamBit { bit: bit as u8 }),
        _ => None,
    }
}
