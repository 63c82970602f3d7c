// A run of a tag in bits, written the slow way: an address is a number, and a line is a list.
// Why two: it shares no code with the engine and the player on purpose, so that what they answer can be held against it.
#![tactic(auto)]

mod bits;
mod lines;

pub use bits::{cycle, drawn, first_state, key_of};
pub use lines::{Cycle, play_lines};
