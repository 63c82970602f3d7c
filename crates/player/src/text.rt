// A cycle as the program prints it.
ghost use Rattle.std.specs.Prelude.{◌++◌, Some, codes, decimal};

use crate::run::Cycle;
use std::fmt;

// Key and energy.
impl fmt::Display for Cycle {
    ghost output = { λ x. Some (decimal x.key ++ (codes " " ++ decimal x.energy)) };

    fn fmt<W: fmt::Write>(&self, f: &mut fmt::Formatter<W>) -> fmt::Result {
        let key = self.key;
        let energy = self.energy;
        write!(f, "{key} {energy}")
    }
}
