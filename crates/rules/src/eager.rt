ghost use Rattle.std.specs.Prelude.{◌≡◌, drop};
ghost use Rattle.rules.specs.Merges.{differ, unknown_from};
ghost use Rattle.rules.specs.Meanings.{eager_meaning};
ghost use Rattle.rules.specs.Covers.{eager_covering};

use crate::plain::join;
use crate::rule::Rule;
use levels::Tri;

// Watches every point. Merges as plain, and if any RAM place differs, all RAM becomes X.
#[derive(Clone, Copy)]
pub struct Eager;

impl Rule for Eager {
    ghost meaning = { λ _. eager_meaning };

    ghost covers = { λ _. eager_covering };

    fn watch(&self, _key: u16, _count: u32, _marked: bool) -> bool {
        true
    }

    fn merge(&self, kept: &[Tri], state: &mut [Tri], nets: usize, _count: u32) {
        let ram_differs = differs_from(kept, state, nets);
        join(kept, state);
        if ram_differs {
            forget(state, nets);
        }
    }
}

// Whether two states differ at a place from `first` on that both have.
fn differs_from(kept: &[Tri], state: &[Tri], first: usize) -> bool
    ensures { result ≡ differ (drop first kept.now) (drop first state.now) }
{
    let places = kept.len().min(state.len());
    first < places && kept[first..places] != state[first..places]
}

// The places from `first` on become X.
fn forget(state: &mut [Tri], first: usize)
    ensures { state.new ≡ unknown_from first state.old }
{
    if first < state.len() {
        state[first..].fill(Tri::X);
    }
}
