// A run in bits, cycle by cycle, over lines of inputs.
#![tactic(auto)]

mod buffers;
mod lines;
mod program;
mod run;
mod text;

pub use buffers::Buffers;
pub use program::{places_to_play, play_program};
pub use run::{Cycle, play};
