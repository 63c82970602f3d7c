ghost use Rattle.std.specs.Prelude.{◌≡◌, ◌≤◌, IfOk, if◌then◌else◌, Ok, Err, nat_le};
ghost use Rattle.bundle.specs.declared.refusal.Fault.TheVariants as fault;
ghost use Rattle.bundle.specs.Format.{refused_at};
ghost use Rattle.model.specs.Core.{places};
ghost use Rattle.design.specs.Views.{core};

use bundle::{Fault, Refusal, ask};
use design::Design;

// The most places that a state of a core may have in a program.
const MOST_PLACES: usize = 1024;

// How many places a state of this design has, if there are few enough for a program.
pub fn places_within(design: &Design) -> Result<usize, Refusal>
    ensures value { result ≡ (if nat_le (places (core design.now)) 1024 then Ok (places (core design.now)) else Err (refused_at fault.Memory 0)) }
    ensures bound { IfOk result (λ n. n ≤ 1024) }
{
    let places = design.places();
    ask(places <= MOST_PLACES, Fault::Memory)?;
    Ok(places)
}
