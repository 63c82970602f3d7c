// Gates settle in net order.
ghost use Rattle.std.specs.Prelude.{◌≡◌, ℕ, ◌<◌, length, MatchResult, ◌≢◌, slice_index};
ghost use Rattle.model.specs.Core.{places};
ghost use Rattle.model.specs.Cycle.{pin, gate_output, settled};
ghost use Rattle.design.specs.Views.{core};
ghost use Rattle.engine.specs.Refusals.{wrong_memory};

use bundle::{Fault, Refusal, ask};
use design::Design;
use levels::Level;
use model::{Driver, Gate};

// Pin j of a gate: the level of its net, or constant 0 where the gate does not use the pin.
fn pin_level<V: Level>(state: &[V], gate: &Gate, j: usize) -> V
    requires j_bound { j < 4 }
    requires by_index { (p : ℕ) → slice_index gate.now.pins p < length state.now }
    ensures { result ≡ pin V.kind state.now gate.now j }
{
    if j < gate.used as usize {
        state[gate.pins[j] as usize]
    } else {
        V::of_bit(false)
    }
}

fn gate_level<V: Level>(state: &[V], gate: &Gate) -> V
    requires { (p : ℕ) → slice_index gate.now.pins p < length state.now }
    ensures { result ≡ gate_output V.kind state.now gate.now }
{
    let a = pin_level(state, gate, 0);
    let b = pin_level(state, gate, 1);
    let c = pin_level(state, gate, 2);
    let d = pin_level(state, gate, 3);
    V::cell(gate.truth, a, b, c, d)
}

pub(crate) fn settle_gates<V: Level>(design: &Design, state: &mut [V])
    requires { length state.old ≡ places (core design.now) }
    ensures { state.new ≡ settled V.kind (core design.now) state.old }
{
    // Why by index: a gate reads the whole state while its own net is written.
    for (i, net) in design.nets().iter().enumerate() {
        if let Driver::Gate(gate) = net.driver {
            state[i] = gate_level(state, &gate);
        }
    }
}

// The gates settle in net order, each from what its pins carry by then.
pub fn settle<V: Level>(design: &Design, state: &mut [V]) -> Result<(), Refusal>
    ensures { MatchResult result
        (λ _. (length state.old ≡ places (core design.now))
        × (state.new ≡ settled V.kind (core design.now) state.old))
        (λ e. (length state.old ≢ places (core design.now))
        × (e ≡ wrong_memory) × (state.new ≡ state.old)) }
{
    ask(state.len() == design.places(), Fault::Memory)?;
    settle_gates(design, state);
    Ok(())
}
