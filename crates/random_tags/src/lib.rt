// Random small tags, as bundles, the same at every run.
#![tactic(auto)]

mod making;
mod parts;
mod random;
mod toggling;

pub use making::make_tag;
pub use parts::{Body, Parts, push_two};
pub use random::Random;
