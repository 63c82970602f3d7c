// The successors of a state: the keys that its pilots may show after the edge, and the state and charge of each.
#![tactic(auto)]

mod covering;
mod pilots;
mod restoring;
mod steps;

pub use covering::covers;
pub use restoring::restore;
pub use steps::{advance, successor};
