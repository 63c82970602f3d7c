ghost use Rattle.std.specs.Prelude.{◌≡◌, length};
ghost use Rattle.model.specs.Core.{places};
ghost use Rattle.design.specs.Views.{core};

use crate::exploration::Exploration;
use design::Design;
use levels::Tri;
use record::Point;

// An exploration that fits its design and the memory lent to it, of which the scratch is elsewhere.
#[derive(Drop)]
pub(crate) struct Held<'a> {
    pub(crate) design: &'a Design,
    pub(crate) exploration: &'a mut Exploration,
    pub(crate) points: &'a mut [Point],
    pub(crate) opened: &'a mut [Tri],
    pub(crate) kept: &'a mut [Tri],
    ghost places_fit: { exploration.now.places ≡ places (core design.now) },
    ghost points_fit: { length points.now ≡ exploration.now.point_length },
    ghost opened_fit: { length opened.now ≡ exploration.now.open_length },
    ghost kept_fit: { length kept.now ≡ exploration.now.kept_length },
}

// A state to walk from, the state after the edge with all inputs unknown, and how many successors there are.
// Why apart: that these belong together is a fact about a design too; with one of its own, an edge would be asked to have that of `Held`.
#[derive(Clone, Copy)]
pub(crate) struct Edge<'a> {
    pub(crate) current: &'a [Tri],
    pub(crate) next: &'a [Tri],
    pub(crate) count: u32,
}
