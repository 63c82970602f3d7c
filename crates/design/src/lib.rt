// A tag's core in typed tables, sound by its type.
#![tactic(auto)]

mod design;
mod table;
mod tables;
mod views;

pub use design::Design;
pub use table::Table;
pub use tables::Tables;
