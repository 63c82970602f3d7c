// An exploration of every run at once, over lent memory.
#![tactic(auto)]

mod answers;
mod asking;
mod ending;
mod exploration;
mod figuring;
mod held;
mod keeping;
mod making;
mod plan;
mod planning;
mod pushing;
mod starting;
mod table;
mod taking;
mod walking;

pub use answers::{Ending, Figures};
pub use exploration::Exploration;
