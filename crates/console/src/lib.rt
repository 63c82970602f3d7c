// What the programs share: how much they read, how large a core they take, and how they end.
#![tactic(auto)]

mod input;
mod limits;
mod stop;

pub use input::first_bytes;
pub use limits::places_within;
pub use stop::{Stop, finish};
