ghost use Rattle.std.specs.Prelude.{◌≡◌, ◌+◌, ◌*◌, true, not, ◌&&◌, ◌||◌, ◌==◌};
ghost use Rattle.bundle.specs.Format.{row_inside, kind_right, entry_size};
ghost use Rattle.bundle.specs.Contents.{row_at, the_row};

use crate::kind::Kind;

// A row of the contents: the kind of its body, a zero byte, how many entries the body has and where it begins.
#[derive(Clone, Copy, PartialEq, Eq, Debug)]
pub struct Row {
    // Why a number: a row of the kinds 8 to 127 is read before it is refused, and `Kind` has no case for it.
    pub kind: u8,
    pub zero: u8,
    pub count: u16,
    pub offset: u32,
}

impl Row {
    // The row of this number, none where its eight bytes do not all lie inside.
    pub fn read(bytes: &[u8], index: usize) -> Option<Row>
        ensures { result ≡ row_at bytes.now index }
    {
        let start = index.checked_mul(8)?.checked_add(18)?;
        let end = start.checked_add(8)?;
        let [
            kind,
            zero,
            count_low,
            count_high,
            offset_0,
            offset_1,
            offset_2,
            offset_3,
        ] = bytes.get(start..end)?
        else {
            return None;
        };
        let count = u16::from_le_bytes([*count_low, *count_high]);
        let offset = u32::from_le_bytes([*offset_0, *offset_1, *offset_2, *offset_3]);
        Some(Row {
            kind: *kind,
            zero: *zero,
            count,
            offset,
        })
    }

    // The same of a row that lies inside.
    pub(crate) fn at(bytes: &[u8], index: usize) -> Row
        requires { row_inside bytes.now index ≡ true }
        ensures { result ≡ the_row bytes.now index }
    {
        Row::read(bytes, index).unwrap()
    }

    // Is this the kind that the row of this number must have, and the zero byte 0?
    pub(crate) fn is_right(self, index: usize) -> bool
        ensures { result ≡ (kind_right index self.kind && self.zero == 0) }
    {
        let kind_right = if index < 7 {
            self.kind as usize == index + 1
        } else {
            self.kind >= 128
        };
        kind_right && self.zero == 0
    }

    // Where the body ends.
    pub(crate) fn end(self) -> usize
        ensures { result ≡ self.offset + self.count * entry_size self.kind }
    {
        self.offset as usize + self.count as usize * Kind::from(self.kind).entry_size()
    }

    // Does the body begin at this place and, if it is the last, end with the bundle?
    pub(crate) fn is_placed(self, start: usize, last: bool, length: usize) -> bool
        ensures { result ≡ (self.offset == start && (not last || self.offset + self.count * entry_size self.kind == length)) }
    {
        self.offset as usize == start && (!last || self.end() == length)
    }
}
