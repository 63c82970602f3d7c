// The successors of a state.
use crate::charge::charge;
use crate::edge::edge;
use crate::state::State;
use slow_tag::Tag;
use std::alloc::{AllocError, Global};

// A successor of a state: its key, the charge of the step to it, and its state.
#[derive(Drop)]
pub(crate) struct Successor {
    pub(crate) key: usize,
    pub(crate) charge: u32,
    pub(crate) state: State,
}

// The successor of a state with a key, from the state after the edge.
fn step_to(tag: &Tag, before: &State, edged: &State, key: usize) -> Result<Successor, AllocError> {
    let mut state = edged.clone()?;
    state.set_pilots(tag, key);
    state.settle(tag);
    Ok(Successor {
        key,
        charge: charge(tag, before, &state),
        state,
    })
}

// The successors of a state, in ascending key.
pub(crate) fn successors(
    tag: &Tag,
    state: &State,
    heap: Global,
) -> Result<Vec<Successor>, AllocError> {
    let edged = edge(tag, state, heap)?;
    edged
        .keys(tag, heap)?
        .iter()
        .map(|key| step_to(tag, state, &edged, *key))
        .try_collect(heap)
}
