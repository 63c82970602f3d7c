// The table of contents, and what is asked of a bundle before its bodies are read.
ghost use Rattle.std.specs.Prelude.{◌<◌};

use crate::fields::{byte, four, two};
use crate::refusal::{Question, Refusal, Stop, ask};
use std::alloc::Global;

// What a row's body holds. The first seven rows of a bundle have the first seven kinds, and the rows after them are extra.
#[derive(Clone, Copy, PartialEq, Eq, Debug)]
pub(crate) enum Kind {
    Cells,
    Nets,
    Rom,
    Ram,
    Wires,
    Pilots,
    Starts,
    Extra,
    Unknown,
}

impl From<usize> for Kind {
    fn from(number: usize) -> Kind {
        match number {
            1 => Kind::Cells,
            2 => Kind::Nets,
            3 => Kind::Rom,
            4 => Kind::Ram,
            5 => Kind::Wires,
            6 => Kind::Pilots,
            7 => Kind::Starts,
            128.. => Kind::Extra,
            _ => Kind::Unknown,
        }
    }
}

impl Kind {
    // The kinds of the first rows, in order.
    const FIRST: [Kind; 7] = [
        Kind::Cells,
        Kind::Nets,
        Kind::Rom,
        Kind::Ram,
        Kind::Wires,
        Kind::Pilots,
        Kind::Starts,
    ];

    // How many bytes an entry has.
    fn entry_size(self) -> usize {
        match self {
            Kind::Cells | Kind::Nets => 10,
            Kind::Rom | Kind::Wires | Kind::Pilots => 2,
            Kind::Ram => 4,
            Kind::Starts | Kind::Extra | Kind::Unknown => 1,
        }
    }
}

// A row: its kind, the zero byte, how many entries, and where the body begins.
#[derive(Clone, Copy, Debug)]
struct Row {
    kind: Kind,
    zero: usize,
    count: usize,
    offset: usize,
}

impl Row {
    // Where an entry begins.
    fn entry(self, number: usize) -> usize {
        self.offset
            .saturating_add(number.saturating_mul(self.kind.entry_size()))
    }

    // Where the body ends.
    fn end(self) -> usize {
        self.entry(self.count)
    }
}

// A body: its row, and the bundle that it lies in.
#[derive(Clone, Copy)]
pub(crate) struct Body<'a> {
    bytes: &'a [u8],
    row: Row,
}

impl Body<'_> {
    // How many entries it has.
    pub(crate) fn count(&self) -> usize {
        self.row.count
    }

    // The byte at a place of an entry.
    pub(crate) fn byte(&self, number: usize, place: usize) -> usize
        ensures { result < 256 }
    {
        byte(self.bytes, self.row.entry(number).saturating_add(place))
    }

    // The two bytes at a place of an entry.
    pub(crate) fn two(&self, number: usize, place: usize) -> usize
        ensures { result < 65536 }
    {
        two(self.bytes, self.row.entry(number).saturating_add(place))
    }
}

// The rows of a bundle whose bodies all lie inside it.
#[derive(Drop)]
pub(crate) struct Contents<'a> {
    bytes: &'a [u8],
    rows: Vec<Row>,
}

impl<'a> Contents<'a> {
    // The first body of a kind; one with no entries if there is none.
    pub(crate) fn body(&self, kind: Kind) -> Body<'a> {
        let none = Row {
            kind,
            zero: 0,
            count: 0,
            offset: 0,
        };
        let found = self.rows.iter().find(|row| row.kind == kind);
        Body {
            bytes: self.bytes,
            row: found.copied().unwrap_or(none),
        }
    }
}

// A row that lies inside the bundle.
fn read_row(bytes: &[u8], number: usize) -> Result<Row, Refusal> {
    let at = 18usize.saturating_add(number.saturating_mul(8));
    ask(at.saturating_add(8) <= bytes.len(), Question::Rows, number)?;
    Ok(Row {
        kind: Kind::from(byte(bytes, at)),
        zero: byte(bytes, at.saturating_add(1)),
        count: two(bytes, at.saturating_add(2)),
        offset: four(bytes, at.saturating_add(4)),
    })
}

// The rows, each inside the bundle.
fn read_rows(bytes: &[u8], heap: Global) -> Result<Vec<Row>, Stop> {
    let count = byte(bytes, 3);
    ask(7 <= count && count <= 32, Question::Rows, 0)?;
    (0..count)
        .map(|number| -> Result<Row, Stop> { Ok(read_row(bytes, number)?) })
        .try_collect(heap)
}

// The first kinds come first, in order, then only extra ones.
fn ask_kinds(rows: &[Row]) -> Result<(), Refusal> {
    for (number, row) in rows.iter().enumerate() {
        let wanted = Kind::FIRST.get(number).copied().unwrap_or(Kind::Extra);
        ask(row.kind == wanted && row.zero == 0, Question::Kinds, number)?;
    }
    Ok(())
}

// Each body begins where the part before it ends, and the last ends with the bundle.
fn ask_bodies(rows: &[Row], length: usize) -> Result<(), Refusal> {
    let mut end = 18usize.saturating_add(rows.len().saturating_mul(8));
    for (number, row) in rows.iter().enumerate() {
        ask(row.offset == end, Question::Bodies, number)?;
        end = row.end();
    }
    ask(
        end == length,
        Question::Bodies,
        rows.len().saturating_sub(1),
    )
}

// The contents of a bundle.
pub(crate) fn read_contents(bytes: &[u8], heap: Global) -> Result<Contents<'_>, Stop> {
    let begins = byte(bytes, 0) == 0x54 && byte(bytes, 1) == 0x42 && byte(bytes, 2) == 1;
    ask(18 <= bytes.len() && begins, Question::Header, 0)?;
    ask(four(bytes, 14) == bytes.len(), Question::Length, 0)?;
    let rows = read_rows(bytes, heap)?;
    ask_kinds(&rows)?;
    ask_bodies(&rows, bytes.len())?;
    Ok(Contents { bytes, rows })
}
