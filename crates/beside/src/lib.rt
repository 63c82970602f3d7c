// The library and the slow simulator side by side: the same calls to both, what they answer in one form, and how often it agreed.
#![tactic(auto)]

mod answer;
mod bench;
mod lent;
mod memory;
mod pair;
mod rule;
mod stop;
mod tally;

pub use answer::{Answer, Ending, Refusal, answered};
pub use bench::Bench;
pub use memory::{Lengths, Memory, Part, Rows};
pub use pair::{Pair, Taken};
pub use rule::Rule;
pub use stop::{Difference, Stop};
pub use tally::{Case, Count, Tally};
