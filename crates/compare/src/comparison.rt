// All tags, one after the other.
use beside::{Case, Difference, Stop, Tally};
use decode::read_design;
use design::Design;
use random_tags::{Random, make_tag};
use slow_tag::read_tag;
use std::alloc::Global;

// What the tags and the calls are drawn from, and what agreed so far.
#[derive(Drop)]
pub(crate) struct Comparison {
    pub(crate) random: Random,
    pub(crate) tally: Tally,
    // The bundle read last.
    pub(crate) shown: Vec<u8>,
    pub(crate) heap: Global,
}

impl Comparison {
    pub(crate) fn new(seed: u64, heap: Global) -> Comparison {
        Comparison {
            random: Random::new(seed),
            tally: Tally::default(),
            shown: Vec::new(heap),
            heap,
        }
    }

    // Makes a tag, and sets the library beside the slow simulator on it.
    fn try_tag(&mut self) -> Result<(), Stop> {
        let parts = make_tag(&mut self.random, self.heap)?;
        let bytes = parts.bundle(self.heap)?;
        self.shown = bytes.clone()?;
        self.tally.tags = self.tally.tags.saturating_add(1);
        let mut design = Design::new();
        let taken = read_design(&mut design, &bytes).is_ok();
        let Ok(tag) = read_tag(&bytes, self.heap) else {
            return Err(Stop::Differs(Difference::Fact("a made tag is refused")));
        };
        self.tally.agree(Case::Bundles, taken, "a made tag")?;
        self.explore_tag(&design, &tag)?;
        self.play_tag(&design, &tag)?;
        for _ in 0..6 {
            self.damage_bundle(&parts)?;
        }
        Ok(())
    }

    // Tries so many tags, and then those at their limits.
    pub(crate) fn try_all(&mut self, tags: usize) -> Result<(), Stop> {
        for _ in 0..tags {
            self.try_tag()?;
        }
        self.try_limits()
    }
}
