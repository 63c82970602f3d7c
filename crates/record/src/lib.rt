// What an exploration records, and what no run of the tag escapes.
#![tactic(auto)]

mod laws;
mod point;
mod text;

pub use laws::{
    covering_is_tested, kinds_fit, no_run_draws_more, no_run_escapes, open_points_wait,
    pilots_are_split, window_is_most,
};
pub use point::{Fate, Origin, Point};
