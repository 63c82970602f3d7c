// The bodies of a bundle, and the bundle that they make.
ghost use Rattle.std.specs.Prelude.{◌≡◌};
ghost use Rattle.random_tags.specs.Body.{entry_size, bytes_of};

use std::alloc::{AllocError, Global};

// A body that every bundle has, numbered by its kind.
#[derive(Clone, Copy, PartialEq, Eq, Default, Debug)]
pub enum Body {
    #[default]
    Cells = 1,
    Nets,
    Rom,
    Ram,
    Wires,
    Pilots,
    Starts,
}

impl Body {
    // All of them, in the order of the bundle.
    pub const ALL: [Body; 7] = [
        Body::Cells,
        Body::Nets,
        Body::Rom,
        Body::Ram,
        Body::Wires,
        Body::Pilots,
        Body::Starts,
    ];

    // How many bytes an entry has.
    pub fn entry_size(self) -> usize
        ensures { result ≡ entry_size self }
    {
        match self {
            Body::Cells | Body::Nets => 10,
            Body::Ram => 4,
            Body::Rom | Body::Wires | Body::Pilots => 2,
            Body::Starts => 1,
        }
    }
}

// The header's figures, and the bodies.
#[derive(Clone, Drop)]
pub struct Parts {
    pub clock: usize,
    pub rom_energy: usize,
    pub ram_energy: usize,
    pub write_energy: usize,
    pub window: usize,
    pub cells: Vec<u8>,
    pub nets: Vec<u8>,
    pub rom: Vec<u8>,
    pub ram: Vec<u8>,
    pub wires: Vec<u8>,
    pub pilots: Vec<u8>,
    pub starts: Vec<u8>,
    // Bodies of other kinds, of so many bytes each.
    pub others: Vec<usize>,
}

// A field of so many bytes, the lowest first.
fn push_field(bytes: &mut Vec<u8>, value: usize, size: usize) -> Result<(), AllocError> {
    let field = value.to_le_bytes();
    bytes.extend_from_slice(&field[..size.min(8)])
}

// A field of two bytes, the lower first.
pub fn push_two(bytes: &mut Vec<u8>, value: usize) -> Result<(), AllocError> {
    push_field(bytes, value, 2)
}

// What the table of contents says of a body, but for its place: its kind, how many entries it has and how many bytes.
#[derive(Clone, Copy)]
struct Row {
    // Why a number: the kinds from 128 on have no case.
    kind: usize,
    count: usize,
    length: usize,
}

impl Row {
    // The row of a body that begins at a place.
    fn push(self, bytes: &mut Vec<u8>, offset: usize) -> Result<(), AllocError> {
        push_field(bytes, self.kind, 1)?;
        push_field(bytes, 0, 1)?;
        push_field(bytes, self.count, 2)?;
        push_field(bytes, offset, 4)
    }
}

impl Parts {
    // The bytes of a body.
    fn body(&self, body: Body) -> &[u8]
        ensures { result.now ≡ bytes_of self.now body }
    {
        match body {
            Body::Cells => &self.cells,
            Body::Nets => &self.nets,
            Body::Rom => &self.rom,
            Body::Ram => &self.ram,
            Body::Wires => &self.wires,
            Body::Pilots => &self.pilots,
            Body::Starts => &self.starts,
        }
    }

    // The bytes of a body, to change them.
    pub fn body_mut(&mut self, body: Body) -> &mut Vec<u8>
        ensures { result.now.items ≡ bytes_of self.old body }
    {
        match body {
            Body::Cells => &mut self.cells,
            Body::Nets => &mut self.nets,
            Body::Rom => &mut self.rom,
            Body::Ram => &mut self.ram,
            Body::Wires => &mut self.wires,
            Body::Pilots => &mut self.pilots,
            Body::Starts => &mut self.starts,
        }
    }

    fn row(&self, body: Body) -> Row {
        let length = self.body(body).len();
        Row {
            kind: body as usize,
            count: length.checked_div(body.entry_size()).unwrap_or(0),
            length,
        }
    }

    // The rows of all bodies, the others having entries of a byte.
    fn rows(&self, heap: Global) -> Result<Vec<Row>, AllocError> {
        let others = self.others.iter().enumerate().map(|(i, length)| Row {
            kind: i.saturating_mul(40).saturating_add(128),
            count: *length,
            length: *length,
        });
        Body::ALL
            .iter()
            .map(|body| self.row(*body))
            .chain(others)
            .collect(heap)
    }

    // The header of a bundle of so many rows and bytes.
    fn header(&self, rows: usize, length: usize, heap: Global) -> Result<Vec<u8>, AllocError> {
        let mut bytes = [0x54, 0x42, 1].to_vec(heap)?;
        push_field(&mut bytes, rows, 1)?;
        for field in [
            self.clock,
            self.rom_energy,
            self.ram_energy,
            self.write_energy,
            self.window,
        ] {
            push_field(&mut bytes, field, 2)?;
        }
        push_field(&mut bytes, length, 4)?;
        Ok(bytes)
    }

    // The bundle of these bodies.
    pub fn bundle(&self, heap: Global) -> Result<Vec<u8>, AllocError> {
        let rows = self.rows(heap)?;
        let first = rows.len().saturating_mul(8).saturating_add(18);
        let length = rows
            .iter()
            .fold(first, |end, row| end.saturating_add(row.length));
        let mut bytes = self.header(rows.len(), length, heap)?;
        let mut offset = first;
        for row in rows.iter() {
            row.push(&mut bytes, offset)?;
            offset = offset.saturating_add(row.length);
        }
        for body in Body::ALL {
            bytes.extend_from_slice(self.body(body))?;
        }
        for length in self.others.iter() {
            bytes.extend((0..*length).map(|i| (i & 0xff) as u8))?;
        }
        Ok(bytes)
    }
}
