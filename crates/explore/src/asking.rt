// What is asked before a call, how much is in use, and how much room there is.
ghost use Rattle.std.specs.Prelude.{◌≡◌};
ghost use Rattle.design.specs.Views.{core};
ghost use Rattle.explore.specs.Memory.{memory_of, fits, point_room, open_room, entry_room};

use crate::exploration::Exploration;
use design::Design;
use levels::Tri;
use record::Point;

// At most so many points, open points and entries.
const POINTS: usize = 65535;

const OPEN: usize = 64;

const ENTRIES: usize = 256;

impl Exploration {
    // Is the lent memory as long as at the making, and has the design states of as many places?
    pub(crate) fn fits(
        &self,
        design: &Design,
        points: &[Point],
        opened: &[Tri],
        kept: &[Tri],
        scratch: &[Tri],
    ) -> bool
        ensures { result ≡ fits (core design.now)
            (memory_of self.now points.now opened.now kept.now scratch.now) }
    {
        design.places() == self.places
            && points.len() == self.point_length
            && opened.len() == self.open_length
            && kept.len() == self.kept_length
            && scratch.len() == self.scratch_length
    }

    // How many points are recorded.
    pub fn point_count(&self) -> usize
        ensures { result ≡ self.now.point_count }
    {
        self.point_count
    }

    // How many of them are open.
    pub fn open_count(&self) -> usize
        ensures { result ≡ self.now.open_count }
    {
        self.open_count
    }

    // How many points there is room for.
    pub(crate) fn point_room(&self) -> usize
        ensures { result ≡ point_room self.now }
    {
        POINTS.min(self.point_length)
    }

    // How many open points there is room for.
    pub(crate) fn open_room(&self) -> usize
        ensures { result ≡ open_room self.now }
    {
        OPEN.min(self.open_length / self.places)
    }

    // How many entries there is room for.
    pub(crate) fn entry_room(&self) -> usize
        ensures { result ≡ entry_room self.now }
    {
        ENTRIES.min(self.kept_length / self.places)
    }
}
