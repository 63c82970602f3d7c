// Origins and fates as the programs print them.
ghost use Rattle.std.specs.Prelude.{Some};
ghost use Rattle.record.specs.Text.{origin_text, fate_text};

use crate::point::{Fate, Origin};
use std::fmt;

impl fmt::Display for Origin {
    ghost output = { λ x. Some (origin_text x) };

    fn fmt<W: fmt::Write>(&self, f: &mut fmt::Formatter<W>) -> fmt::Result {
        match *self {
            Origin::Start => write!(f, "-"),
            Origin::From { point } => write!(f, "{point}"),
        }
    }
}

impl fmt::Display for Fate {
    ghost output = { λ x. Some (fate_text x) };

    fn fmt<W: fmt::Write>(&self, f: &mut fmt::Formatter<W>) -> fmt::Result {
        match *self {
            Fate::Open => write!(f, "open"),
            Fate::Walked => write!(f, "walked"),
            Fate::Cut { to } => write!(f, "cut {to}"),
            Fate::Halted => write!(f, "halted"),
        }
    }
}
