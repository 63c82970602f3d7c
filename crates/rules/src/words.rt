ghost use Rattle.std.specs.Prelude.{◌≡◌};
ghost use Rattle.rules.specs.Merges.{whole_word, whole_words};
ghost use Rattle.rules.specs.Meanings.{whole_meaning};
ghost use Rattle.rules.specs.Covers.{whole_covering};

use crate::rule::Rule;
use levels::Tri;

// the bits of a RAM word
const WORD: usize = 16;

// Watches as the rule that it holds. After that rule's merge, a RAM word with any X becomes wholly X.
#[derive(Drop)]
pub struct WholeWords<R> {
    pub rule: R,
}

impl<R: Rule> Rule for WholeWords<R> {
    ghost meaning = { λ self. whole_meaning (R.Rule.meaning self.rule) };

    ghost covers = { λ rule. whole_covering (R.Rule.meaning rule.rule) (R.Rule.covers rule.rule) };

    fn watch(&self, key: u16, count: u32, marked: bool) -> bool {
        self.rule.watch(key, count, marked)
    }

    fn merge(&self, kept: &[Tri], state: &mut [Tri], nets: usize, count: u32) {
        self.rule.merge(kept, state, nets, count);
        make_whole(state, nets);
    }
}

// Makes each RAM word whole. Where the state ends within a word, the places that are there are a word too.
fn make_whole(state: &mut [Tri], nets: usize)
    ensures { state.new ≡ whole_words nets state.old }
{
    // Why by index: after `chunks_mut(WORD)` a proof knows how long the state is, and nothing of what was written.
    for first in (nets..state.len()).step_by(WORD) {
        let end = first + WORD.min(state.len() - first);
        make_word_whole(&mut state[first..end]);
    }
}

// A word with any X becomes wholly X.
fn make_word_whole(word: &mut [Tri])
    ensures { word.new ≡ whole_word word.old }
{
    if word.contains(&Tri::X) {
        word.fill(Tri::X);
    }
}
