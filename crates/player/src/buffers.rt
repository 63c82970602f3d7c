ghost use Rattle.std.specs.Prelude.{◌≡◌, ◌≢◌, length, MatchResult};
ghost use Rattle.levels.specs.Bits.{bit_kind};
ghost use Rattle.model.specs.Core.{places};
ghost use Rattle.model.specs.Cycle.{key_of};
ghost use Rattle.design.specs.Views.{core};

use crate::run::Cycle;
use bundle::Refusal;
use design::Design;
use engine::key;
use levels::Bit;

// The memory that a run is lent: for a state, for scratch, and a cycle for each line.
#[derive(Drop)]
pub struct Buffers<'a> {
    pub state: &'a mut [Bit],
    pub scratch: &'a mut [Bit],
    pub cycles: &'a mut [Cycle],
}

impl Buffers<'_> {
    ghost use Rattle.player.specs.Buffers.{fits};

    // Whether the memory fits: a whole state, scratch for two states and the leaves of a memory, a cycle for each line.
    pub(crate) fn fits(&self, design: &Design, lines: usize) -> bool
        ensures { result ≡ fits (core design.now) lines self.now }
    {
        let places = design.places();
        self.state.len() == places
            && 2 * places + 1024 <= self.scratch.len()
            && lines <= self.cycles.len()
    }

    // The key of the state.
    pub(crate) fn key(&self, design: &Design) -> Result<u16, Refusal>
        ensures { MatchResult result (λ bits. bits ≡ key_of bit_kind (core design.now) self.now.state.now) (λ _. length self.now.state.now ≢ places (core design.now)) }
    {
        key(design, self.state)
    }
}
