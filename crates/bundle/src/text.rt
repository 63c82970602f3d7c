// A refusal as the programs print it.
ghost use Rattle.std.specs.Prelude.{◌++◌, Some, codes, decimal};
ghost use Rattle.bundle.specs.Faults.{fault_number, fault_layer};

use crate::refusal::Refusal;
use std::fmt;

// `refused`, then number, layer and place.
impl fmt::Display for Refusal {
    ghost output = { λ x. Some (codes "refused " ++ (decimal (fault_number x.fault) ++ (codes " " ++ (decimal (fault_layer x.fault) ++ (codes " " ++ decimal x.place))))) };

    fn fmt<W: fmt::Write>(&self, f: &mut fmt::Formatter<W>) -> fmt::Result {
        let number = self.number();
        let layer = self.layer();
        let place = self.place;
        write!(f, "refused {number} {layer} {place}")
    }
}
