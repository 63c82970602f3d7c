// A bundle's bytes: header, contents rows and bodies.
#![tactic(auto)]

mod body;
mod bundle;
mod header;
mod kind;
mod questions;
mod refusal;
mod row;
#[cfg(test)]
mod tests;
mod text;

pub use body::Body;
pub use bundle::Bundle;
pub use header::Header;
pub use questions::{ask, ask_at};
pub use refusal::{Fault, Refusal};
pub use row::Row;
