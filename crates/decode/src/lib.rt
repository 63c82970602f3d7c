// A bundle, decoded and checked once into the tables of a design.
#![tactic(auto)]

mod bodies;
mod cells;
mod decode;
mod entries;
mod nets;
mod pilots;
mod read;
mod stages;
mod starts;
mod words;

pub use read::read_design;
