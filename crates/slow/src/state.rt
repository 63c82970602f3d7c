// The state of a tag in levels: one for each net, then one for each bit of each RAM word.
ghost use Rattle.std.specs.Prelude.{◌≡◌, get_or};

use crate::level::{BOTH, Level, NONE};
use slow_tag::{Tag, Use, bit, choices};
use std::alloc::{AllocError, Global};

#[derive(Clone, Drop)]
pub(crate) struct State {
    pub(crate) levels: Vec<Level>,
}

impl State {
    // The state of a start, all that is not known allowing both bits.
    pub(crate) fn start(tag: &Tag, start: usize, heap: Global) -> Result<State, AllocError> {
        let known = tag.known_bits(start, heap)?;
        let levels = known.iter().map(|bit| Level::from(*bit)).collect(heap)?;
        let mut state = State { levels };
        state.settle(tag);
        Ok(state)
    }

    // The level at a place; a place that is not there allows both bits.
    pub(crate) fn at(&self, place: usize) -> Level
        ensures { result ≡ get_or self.now.levels.items place BOTH }
    {
        self.levels.get(place).copied().unwrap_or(BOTH)
    }

    // Writes a place, if it is there.
    pub(crate) fn put(&mut self, place: usize, level: Level) {
        if let Some(old) = self.levels.get_mut(place) {
            *old = level;
        }
    }

    // Does each net allow its bit of a number, the first net the lowest bit?
    pub(crate) fn allows(&self, nets: &[usize], number: usize) -> bool {
        nets.iter()
            .enumerate()
            .all(|(place, net)| self.at(*net).allows(bit(number, place)))
    }

    // What is given for some number below `count` whose bits the nets allow, each net chosen by itself.
    pub(crate) fn over_choices<F: Fn(usize) -> Level>(
        &self,
        nets: &[usize],
        count: usize,
        given: F,
    ) -> Level
        requires { (f : _) (a : _) → F.FnMut.pre f a }
    {
        (0..count)
            .filter(|number| self.allows(nets, *number))
            .map(given)
            .fold(NONE, Level::or)
    }

    // Does it cover another state, place by place?
    pub(crate) fn covers(&self, other: &State) -> bool {
        let mut places = other.levels.iter().enumerate();
        places.all(|(place, level)| self.at(place).covers(*level))
    }

    // Settles the gates in net order: a gate gives its truth bit for some choice of bits at its pins.
    pub(crate) fn settle(&mut self, tag: &Tag) {
        for (number, net) in tag.nets.iter().enumerate() {
            if net.cell.duty == Use::Gate {
                let inputs = net.inputs();
                let level = self.over_choices(inputs, choices(inputs.len()), |choice| {
                    Level::from(bit(net.cell.truth, choice))
                });
                self.put(number, level);
            }
        }
    }

    // The keys that it allows, in ascending order.
    pub(crate) fn keys(&self, tag: &Tag, heap: Global) -> Result<Vec<usize>, AllocError> {
        (0..choices(tag.pilots.len()))
            .filter(|key| self.allows(&tag.pilots, *key))
            .collect(heap)
    }

    // Sets each pilot to its bit of the key.
    pub(crate) fn set_pilots(&mut self, tag: &Tag, key: usize) {
        for (place, pilot) in tag.pilots.iter().enumerate() {
            self.put(*pilot, Level::from(bit(key, place)));
        }
    }

    // Sets the constants to themselves.
    pub(crate) fn set_constants(&mut self, tag: &Tag) {
        for (number, net) in tag.nets.iter().enumerate() {
            if let Some(bit) = net.constant() {
                self.put(number, Level::from(bit));
            }
        }
    }
}
