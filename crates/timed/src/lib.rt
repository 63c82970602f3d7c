// The library's calls under names that C can call, for the benchmark. Each makes its own memory, so that a caller passes bytes and
// numbers alone, and repeats its work, so that reading the bundle weighs little.
#![tactic(auto)]

mod playing;
mod points;
mod rounds;
mod walking;

pub use playing::timed_play;
pub use points::timed_window;
pub use walking::timed_walk;
