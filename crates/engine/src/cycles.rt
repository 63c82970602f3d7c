// One cycle of a tag.
ghost use Rattle.std.specs.Prelude.{◌≡◌, length, replicate};
ghost use Rattle.design.specs.Views.{core};
ghost use Rattle.engine.specs.Steps.{Cycles};

use crate::edges::{LEAVES, blank_all};
use crate::gates::settle_gates;
use crate::state::State;
use bundle::{Fault, Refusal, ask};
use design::Design;
use levels::Level;

// One cycle, which may leave any levels in the scratch.
fn step<V: Level>(
    design: &Design,
    state: &mut [V],
    line: &[V],
    scratch: &mut [V],
) -> Result<u32, Refusal>
    ensures { Cycles V.kind (core design.now) line.now scratch.old state.old state.new result }
{
    let places = design.places();
    let before = State::of(design, state)?;
    ask(places + LEAVES <= scratch.len(), Fault::Memory)?;
    let (next, leaves) = scratch.split_at_mut(places);
    before.edge(line, next, leaves);
    settle_gates(design, next);
    let energy = before.step_charge(next);
    state.copy_from_slice(next);
    Ok(energy)
}

// The state one cycle on, and what the cycle costs in femtojoules. `line` has the levels of the inputs in net order. The scratch
// holds the next state and the leaves of memory reads, and is blank in the end. Refusal 13 if the state has not as many places
// as the design says, or if the scratch has not 1,024 more.
pub fn cycle<V: Level>(
    design: &Design,
    state: &mut [V],
    line: &[V],
    scratch: &mut [V],
) -> Result<u32, Refusal>
    ensures cases { Cycles V.kind (core design.now) line.now scratch.old state.old state.new result }
    ensures scratch { scratch.new ≡ replicate (length scratch.old) V.kind.blank }
{
    let result = step(design, state, line, scratch);
    blank_all(scratch);
    result
}
