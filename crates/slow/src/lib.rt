// A second simulator of tags, written the slow way: every rule is put as it is said, with lists and by going through every choice.
// Why two: it shares no code with the engine and its definitions on purpose, so that what they answer can be held against it.
#![tactic(auto)]

mod charge;
mod edge;
mod figures;
mod level;
mod record;
mod rule;
mod state;
mod steps;
mod walk;

pub use level::Level;
pub use record::{Fate, Limits, Point, Record, Seen};
pub use rule::{Base, Rule};
pub use walk::Ending;
