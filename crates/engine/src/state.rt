// A whole state, which the engine reads.
ghost use Rattle.std.specs.Prelude.{◌≡◌, ◌<◌, length, MatchResult, ◌≢◌};
ghost use Rattle.model.specs.Core.{places};
ghost use Rattle.model.specs.Cycle.{at};
ghost use Rattle.design.specs.Views.{core};
ghost use Rattle.engine.specs.Refusals.{wrong_memory};

use bundle::{Fault, Refusal, ask};
use design::Design;
use levels::Level;

// A state of a design: a level for each of its places.
// Why apart: a state that is written stays a slice: in a struct, each writer would have to promise
// as well that the slice is the same one, as `SameRows` of figures does.
#[derive(Drop)]
pub(crate) struct State<'a, V> {
    pub(crate) design: &'a Design,
    pub(crate) levels: &'a [V],
    ghost whole: { length levels.now ≡ places (core design.now) },
}

impl<'a, V: Level> State<'a, V> {
    // Asks for as many levels as the design has places.
    pub(crate) fn of(design: &'a Design, levels: &'a [V]) -> Result<State<'a, V>, Refusal>
        ensures { MatchResult result
            (λ state. (state.design.now ≡ design.now) × (state.levels.now ≡ levels.now))
            (λ e. (length levels.now ≢ places (core design.now)) × (e ≡ wrong_memory)) }
    {
        ask(levels.len() == design.places(), Fault::Memory)?;
        Ok(State { design, levels })
    }

    // The level of a net.
    pub(crate) fn at(&self, net: u16) -> V
        requires { net < length (core self.now.design.now).nets }
        ensures { result ≡ at V.kind self.now.levels.now net }
    {
        self.levels[net as usize]
    }
}
