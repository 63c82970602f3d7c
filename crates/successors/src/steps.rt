// One cycle on with every input unknown: the edge, and then the successor of each choice for the unknown pilots.
ghost use Rattle.std.specs.Prelude.{◌≡◌, ◌<◌, ◌≤◌, length, replicate, IfOk, MatchResult, slice_index};
ghost use Rattle.model.specs.Cycle.{edge, settled};
ghost use Rattle.model.specs.Energy.{charge as drawn};
ghost use Rattle.design.specs.Views.{core};
ghost use Rattle.engine.specs.Lent.{EdgeMemory};
ghost use Rattle.engine.specs.Refusals.{wrong_memory};
ghost use Rattle.record.specs.Record.{keyed, choice_key, unknown_inputs, successor_keys, after_key};
ghost use Rattle.successors.specs.Lent.{SuccessorMemory};

use crate::pilots::{choice_key, count_unknown, set_pilots};
use bundle::{Fault, Refusal, ask};
use design::Design;
use levels::Level;

// The state after the edge with every input unknown, before the gates settle, into `next`; and how many successors the state
// has, one for each choice for the unknown pilots. Refusal 13 if a state has not as many places as the design says, or if there
// are fewer than 1,024 leaves, which are blank in the end either way.
pub fn advance<V: Level>(
    design: &Design,
    state: &[V],
    next: &mut [V],
    leaves: &mut [V],
) -> Result<u32, Refusal>
    ensures cases { MatchResult result
        (λ count. EdgeMemory (core design.now) state.now next.old leaves.old
        × (next.new ≡ edge V.kind (core design.now) state.now (unknown_inputs V.kind (core design.now)))
        × (count ≡ length (successor_keys V.kind (core design.now) state.now)))
        (λ e. (EdgeMemory (core design.now) state.now next.old leaves.old → ⊥)
        × (e ≡ wrong_memory) × (next.new ≡ next.old)) }
    ensures bound { IfOk result (λ count. count ≤ 65536) }
    ensures leaves { leaves.new ≡ replicate (length leaves.old) V.kind.blank }
{
    engine::edge(design, state, &[], next, leaves)?;
    Ok(1 << count_unknown(design.pilots(), next))
}

// The successor of a choice for the unknown pilots, into `slot`: its key, and what the step to it costs in femtojoules. `next`
// is the state after the edge, and the choices from 0 on give the keys that its pilots allow in ascending order. Refusal 13 if a
// state has not as many places as the design says.
pub fn successor<V: Level>(
    design: &Design,
    state: &[V],
    next: &[V],
    choice: u32,
    slot: &mut [V],
) -> Result<(u16, u32), Refusal>
    ensures cases { MatchResult result
        (λ answer. SuccessorMemory (core design.now) state.now next.now slot.old
        × (answer.0 ≡ choice_key V.kind (core design.now).pilots next.now choice)
        × (slot.new ≡ settled V.kind (core design.now) (keyed V.kind (core design.now).pilots answer.0 next.now))
        × (answer.1 ≡ drawn V.kind (core design.now) state.now slot.new))
        (λ e. (SuccessorMemory (core design.now) state.now next.now slot.old → ⊥)
        × (e ≡ wrong_memory) × (slot.new ≡ slot.old)) }
    ensures among { IfOk result
        (λ answer. next.now ≡ edge V.kind (core design.now) state.now (unknown_inputs V.kind (core design.now))
        → choice < length (successor_keys V.kind (core design.now) state.now)
        → (answer.0 ≡ slice_index (successor_keys V.kind (core design.now) state.now) choice)
        × (slot.new ≡ after_key V.kind (core design.now) state.now answer.0)) }
{
    let places = design.places();
    ask(state.len() == places, Fault::Memory)?;
    ask(next.len() == places, Fault::Memory)?;
    ask(slot.len() == places, Fault::Memory)?;
    let pilots = design.pilots();
    let key = choice_key(pilots, next, choice);
    slot.copy_from_slice(next);
    set_pilots(pilots, key, slot);
    engine::settle(design, slot)?;
    let energy = engine::charge(design, state, slot)?;
    Ok((key, energy))
}
