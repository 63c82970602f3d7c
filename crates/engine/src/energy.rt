// What a step costs, in femtojoules.
ghost use Rattle.std.specs.Prelude.{◌≡◌, ◌+◌, ◌≤◌, length, MatchResult};
ghost use Rattle.model.specs.Core.{places};
ghost use Rattle.model.specs.Energy.{change, charge as drawn};
ghost use Rattle.design.specs.Views.{core};
ghost use Rattle.engine.specs.Refusals.{wrong_memory};

use crate::state::State;
use bundle::{Fault, Refusal, ask};
use design::Design;
use levels::Level;
use model::Net;

// What a net costs in a step from one level to another: idle, and the dearest change that the two levels allow.
fn net_charge<V: Level>(net: &Net, before: V, after: V) -> u32
    ensures value { result ≡ net.now.idle + change net.now (V.kind.allows before) (V.kind.allows after) }
    ensures bound { result ≤ 131070 }
{
    let rise = u32::from(before.allows(false) & after.allows(true)) * u32::from(net.rise);
    let fall = u32::from(before.allows(true) & after.allows(false)) * u32::from(net.fall);
    u32::from(net.idle) + rise.max(fall)
}

impl<'a, V: Level> State<'a, V> {
    // What the step to the state after costs.
    pub(crate) fn step_charge(&self, after: &[V]) -> u32
        requires { length after.now ≡ places (core self.now.design.now) }
        ensures { result ≡ drawn V.kind (core self.now.design.now) self.now.levels.now after.now }
    {
        let design = self.design;
        let enable = self.at(design.write_enable());
        let write = u32::from(enable.allows(true)) * u32::from(design.write_energy());
        // Why by index: tried as `zip(..).map(..).sum()`, of which neither the bound nor the value of the sum was proved.
        let mut total = u32::from(design.rom_energy()) + u32::from(design.ram_energy()) + write;
        for (i, net) in design.nets().iter().enumerate() {
            total += net_charge(net, self.levels[i], after[i]);
        }
        total
    }
}

// What the step from one state to another costs, in femtojoules: the nets' changes, and the memories' energies.
pub fn charge<V: Level>(design: &Design, before: &[V], after: &[V]) -> Result<u32, Refusal>
    ensures { MatchResult result
        (λ energy. (length before.now ≡ places (core design.now))
        × (length after.now ≡ places (core design.now))
        × (energy ≡ drawn V.kind (core design.now) before.now after.now))
        (λ e. ((length before.now ≡ places (core design.now)) → (length after.now ≡ places (core design.now)) → ⊥)
        × (e ≡ wrong_memory)) }
{
    let state = State::of(design, before)?;
    ask(after.len() == before.len(), Fault::Memory)?;
    Ok(state.step_charge(after))
}
