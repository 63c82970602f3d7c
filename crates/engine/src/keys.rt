// Keys: the pilots of a state, bit by bit.
ghost use Rattle.std.specs.Prelude.{◌≡◌, ◌^◌, ◌<◌, length, if◌then◌else◌, MatchResult, ◌≢◌};
ghost use Rattle.model.specs.Core.{places};
ghost use Rattle.model.specs.Cycle.{key_of};
ghost use Rattle.design.specs.Views.{core};
ghost use Rattle.engine.specs.Refusals.{wrong_memory};

use crate::state::State;
use bundle::Refusal;
use design::Design;
use levels::Level;

// A bit at its weight in a key.
fn at_weight(bit: bool, i: usize) -> u16
    requires { i < 16 }
    ensures { result ≡ (if bit then 2 ^ i else 0) }
{
    u16::from(bit) << i
}

impl<'a, V: Level> State<'a, V> {
    fn key(&self) -> u16
        ensures { result ≡ key_of V.kind (core self.now.design.now) self.now.levels.now }
    {
        let mut key = 0;
        for (i, pilot) in self.design.pilots().iter().enumerate() {
            key += at_weight(self.at(*pilot).allows(true), i);
        }
        key
    }
}

// Bit i of the key says whether pilot i allows 1.
pub fn key<V: Level>(design: &Design, state: &[V]) -> Result<u16, Refusal>
    ensures { MatchResult result
        (λ bits. (length state.now ≡ places (core design.now))
        × (bits ≡ key_of V.kind (core design.now) state.now))
        (λ e. (length state.now ≢ places (core design.now)) × (e ≡ wrong_memory)) }
{
    Ok(State::of(design, state)?.key())
}
