// The peak and the window of recorded points.
#![tactic(auto)]

mod best;
mod charges;
mod naming;
mod paths;
mod rows;

pub use charges::peak;
pub use paths::window;
pub use rows::Rows;
