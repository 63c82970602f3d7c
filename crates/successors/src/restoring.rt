// Pilots and constants set again in a state that a merge has made.
ghost use Rattle.std.specs.Prelude.{◌≡◌, ◌≤◌, length, MatchResult, ◌≢◌};
ghost use Rattle.model.specs.Core.{Core, places};
ghost use Rattle.design.specs.Views.{core};
ghost use Rattle.engine.specs.Refusals.{wrong_memory};
ghost use Rattle.record.specs.Record.{with_constants, restored};

use crate::pilots::set_pilots;
use bundle::{Fault, Refusal, ask};
use design::Design;
use levels::Level;
use model::{Driver, Net};

// Every constant net at its own bit.
fn set_constants<V: Level>(nets: &[Net], state: &mut [V])
    requires { length nets.now ≤ length state.old }
    ensures { (d : Core) → state.new ≡ with_constants V.kind d 0 nets.now state.old }
{
    // Why by index: a proof knows nothing of what is written through `zip`.
    for (i, net) in nets.iter().enumerate() {
        if let Driver::Constant { bit } = net.driver {
            state[i] = V::of_bit(bit);
        }
    }
}

// Sets the pilots to their bits of the key, and every constant to its own bit. Refusal 13 if the state has not as many places as
// the design says.
pub fn restore<V: Level>(design: &Design, key: u16, state: &mut [V]) -> Result<(), Refusal>
    ensures { MatchResult result
        (λ _. (length state.old ≡ places (core design.now))
        × (state.new ≡ restored V.kind (core design.now) key state.old))
        (λ e. (length state.old ≢ places (core design.now))
        × (e ≡ wrong_memory) × (state.new ≡ state.old)) }
{
    ask(state.len() == design.places(), Fault::Memory)?;
    set_pilots(design.pilots(), key, state);
    set_constants(design.nets(), state);
    Ok(())
}
