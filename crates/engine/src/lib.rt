// The one engine: start states, the edge, settling and the charge, written once for every kind of level.
#![tactic(auto)]

mod cycles;
mod edges;
mod energy;
mod gates;
mod keys;
mod memory;
mod starts;
mod state;

pub use cycles::cycle;
pub use edges::edge;
pub use energy::charge;
pub use gates::settle;
pub use keys::key;
pub use starts::start;
