// All runs of a tag bounded: every start taken, explored under the plain rule, and the two figures.
#![tactic(auto)]

mod bounding;
mod head;
mod program;
mod text;

pub use bounding::bound;
pub use head::{Head, Listed};
pub use program::bound_program;
