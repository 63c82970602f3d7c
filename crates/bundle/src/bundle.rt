ghost use Rattle.std.specs.Prelude.{◌≡◌, None};
ghost use Rattle.bundle.specs.Format.{bundle_refusal};
ghost use Rattle.bundle.specs.Contents.{the_header};

use crate::body::Body;
use crate::header::Header;
use crate::kind::Kind;
use crate::questions::{ask, ask_bodies, ask_kinds, ask_rows};
use crate::refusal::{Fault, Refusal};
use crate::row::Row;

// A bundle that was opened, over the bytes that it was read from.
#[derive(Clone, Copy)]
pub struct Bundle<'a> {
    header: Header,
    bytes: &'a [u8],
    // no question refuses the bytes
    ghost accepted: { bundle_refusal bytes.now ≡ None },
    ghost headed: { header ≡ the_header bytes.now },
}

impl<'a> Bundle<'a> {
    ghost use Rattle.bundle.specs.Bodies.{bundle_bytes, bundle_header, Opened, HandedOut, InOrder};

    // The bundle that these bytes are, or what is wrong with them.
    pub fn open(bytes: &'a [u8]) -> Result<Bundle<'a>, Refusal>
        ensures { Opened bytes.now result }
    {
        let header = Header::read(bytes)?;
        let rows = header.rows as usize;
        ask(header.length as usize == bytes.len(), Fault::Length)?;
        ask(rows >= 7 && rows <= 32, Fault::Rows)?;
        ask_rows(bytes, rows)?;
        ask_kinds(bytes, rows)?;
        ask_bodies(bytes, rows)?;
        Ok(Bundle { header, bytes })
    }

    pub fn header(&self) -> Header
        ensures { result ≡ bundle_header self.now }
    {
        self.header
    }

    // The body of the row of this number, with its kind.
    pub fn body(&self, row: usize) -> Option<Body<'a>>
        ensures handed { HandedOut self.now row result }
        ensures in_order { InOrder (bundle_bytes self.now) row result }
    {
        if row >= self.header.rows as usize {
            return None;
        }
        let row = Row::read(self.bytes, row)?;
        let start = row.offset as usize;
        let stretch = self.bytes.get(start..row.end())?;
        Some(Body::of(Kind::from(row.kind), stretch))
    }
}
