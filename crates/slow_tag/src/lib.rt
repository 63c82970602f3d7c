// A second reader of bundles, written the slow way: every question is put as it is said, to plain lists.
// Why two: it shares no code with the crates that read bundles for the library on purpose, so that what they answer can be held against it.
#![tactic(auto)]

mod bodies;
mod contents;
mod entries;
mod fields;
mod reader;
mod refusal;
mod tag;
#[cfg(test)]
mod tests;

pub use fields::{bit, choices};
pub use reader::read_tag;
pub use refusal::{Question, Refusal, Stop, ask, refuse};
pub use tag::{Cell, Net, RamWord, Tag, Use};
