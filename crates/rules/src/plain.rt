ghost use Rattle.std.specs.Prelude.{◌≡◌};
ghost use Rattle.rules.specs.Merges.{joined_level, plain_merge};
ghost use Rattle.rules.specs.Meanings.{plain_meaning};
ghost use Rattle.rules.specs.Covers.{plain_covering};

use crate::rule::Rule;
use levels::Tri;

// Watches marked points. Places that differ become X.
#[derive(Clone, Copy)]
pub struct Plain;

impl Rule for Plain {
    ghost meaning = { λ _. plain_meaning };

    ghost covers = { λ _. plain_covering };

    fn watch(&self, _key: u16, _count: u32, marked: bool) -> bool {
        marked
    }

    fn merge(&self, kept: &[Tri], state: &mut [Tri], _nets: usize, _count: u32) {
        join(kept, state);
    }
}

// The level of a place that is `kept` in the one state and `new` in the other.
fn joined(kept: Tri, new: Tri) -> Tri
    ensures { result ≡ joined_level kept new }
{
    if kept == new { new } else { Tri::X }
}

// Places that both states have and that differ become X.
pub fn join(kept: &[Tri], state: &mut [Tri])
    ensures { state.new ≡ plain_merge kept.now state.old }
{
    let places = kept.len().min(state.len());
    // Why by index: after `state.iter_mut().zip(kept)` a proof knows how long the state is, and nothing of what was written.
    for i in 0..places {
        state[i] = joined(kept[i], state[i]);
    }
}
