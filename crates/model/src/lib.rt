// A tag's core: what its nets are, and what one cycle of it means.
#![tactic(auto)]

mod laws;
mod net;

pub use laws::{
    bits_are_the_tag, enables_are_exact, gates_are_exact, gates_settle, one_state_follows,
    reads_are_exact, steps_are_monotone, writes_are_exact,
};
pub use net::{Driver, Gate, Net, RamWord};
