ghost use Rattle.std.specs.Prelude.{◌≡◌};
ghost use Rattle.bundle.specs.Bodies.{body_kind, body_bytes};
ghost use Rattle.bundle.specs.Kinds.{number_of};

use crate::kind::Kind;

// A body with its kind, as the stretch of the bundle that it is.
#[derive(Clone, Copy, Debug)]
pub enum Body<'a> {
    Cells(&'a [u8]),
    Nets(&'a [u8]),
    Rom(&'a [u8]),
    Ram(&'a [u8]),
    Wires(&'a [u8]),
    Pilots(&'a [u8]),
    Starts(&'a [u8]),
    Skipped(&'a [u8]),
}

impl<'a> Body<'a> {
    // The body of this kind that this stretch is.
    pub(crate) fn of(kind: Kind, stretch: &'a [u8]) -> Body<'a>
        ensures kind { body_kind result ≡ number_of kind }
        ensures bytes { body_bytes result ≡ stretch.now }
    {
        match kind {
            Kind::Cells => Body::Cells(stretch),
            Kind::Nets => Body::Nets(stretch),
            Kind::Rom => Body::Rom(stretch),
            Kind::Ram => Body::Ram(stretch),
            Kind::Wires => Body::Wires(stretch),
            Kind::Pilots => Body::Pilots(stretch),
            Kind::Starts => Body::Starts(stretch),
            Kind::Skipped => Body::Skipped(stretch),
        }
    }
}
