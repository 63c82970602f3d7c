// Merge rules.
use crate::level::BOTH;
use crate::state::State;

#[derive(Clone, Copy, PartialEq, Eq, Debug)]
pub enum Base {
    Plain,
    Eager,
}

// A merge rule: plain or eager, with whole words so many times over it.
#[derive(Clone, Copy, PartialEq, Eq, Debug)]
pub struct Rule {
    pub base: Base,
    pub words: usize,
}

impl State {
    // Does any place from `nets` on differ?
    fn ram_differs(&self, kept: &State, nets: usize) -> bool {
        (nets..self.levels.len()).any(|place| kept.at(place) != self.at(place))
    }

    // Makes each place that differs allow both bits.
    fn merge_places(&mut self, kept: &State) {
        for (place, level) in self.levels.iter_mut().enumerate() {
            if kept.at(place) != *level {
                *level = BOTH;
            }
        }
    }

    // Makes every place from `nets` on allow both bits.
    fn forget_ram(&mut self, nets: usize) {
        if let Some(ram) = self.levels.as_mut_slice().get_mut(nets..) {
            ram.fill(BOTH);
        }
    }

    // Makes each RAM word with a place that allows both bits do so in every place.
    fn widen_words(&mut self, nets: usize) {
        if let Some(ram) = self.levels.as_mut_slice().get_mut(nets..) {
            for word in ram.chunks_mut(16) {
                if word.contains(&BOTH) {
                    word.fill(BOTH);
                }
            }
        }
    }
}

impl Rule {
    pub(crate) fn watches(self, marked: bool) -> bool {
        match self.base {
            Base::Plain => marked,
            Base::Eager => true,
        }
    }

    // Merges the kept state into a new one, which has `nets` nets, and RAM words after them.
    pub(crate) fn merge(self, kept: &State, state: &mut State, nets: usize) {
        let forget = self.base == Base::Eager && state.ram_differs(kept, nets);
        state.merge_places(kept);
        if forget {
            state.forget_ram(nets);
        }
        for _ in 0..self.words {
            state.widen_words(nets);
        }
    }
}
