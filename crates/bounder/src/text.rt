// A listing as the program prints it: the head, and a line for each point.
ghost use Rattle.std.specs.Prelude.{◌++◌, Some, codes, decimal};
ghost use Rattle.record.specs.Text.{origin_text, fate_text};

use crate::head::{Head, Listed};
use std::fmt;

// Each number behind what it is.
impl fmt::Display for Head {
    ghost output = { λ x. Some (codes "points " ++ (decimal x.points ++ (codes " open " ++ (decimal x.«open» ++ (codes " peak " ++ (decimal x.peak
        ++ (codes " power " ++ (decimal x.power ++ (codes " window " ++ (decimal x.window ++ (codes " energy " ++ decimal x.energy))))))))))) };

    fn fmt<W: fmt::Write>(&self, f: &mut fmt::Formatter<W>) -> fmt::Result {
        write!(
            f,
            "points {} open {} peak {} power {} window {} energy {}",
            self.points, self.open, self.peak, self.power, self.window, self.energy
        )
    }
}

// Number, origin, key, charge and fate.
impl fmt::Display for Listed {
    ghost output = { λ x. Some (decimal x.number ++ (codes " " ++ (origin_text x.point.origin ++ (codes " " ++ (decimal x.point.key
        ++ (codes " " ++ (decimal x.point.charge ++ (codes " " ++ fate_text x.point.fate)))))))) };

    fn fmt<W: fmt::Write>(&self, f: &mut fmt::Formatter<W>) -> fmt::Result {
        let point = self.point;
        write!(
            f,
            "{} {} {} {} {}",
            self.number, point.origin, point.key, point.charge, point.fate
        )
    }
}
