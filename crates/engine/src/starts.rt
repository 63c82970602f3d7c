// Start states.
ghost use Rattle.std.specs.Prelude.{◌≡◌, ℕ, ◌+◌, ◌*◌, ◌/◌, ◌%◌, ◌<◌, length, MatchResult, slice_index_or};
ghost use Rattle.levels.specs.Kinds.{bit_at};
ghost use Rattle.model.specs.Core.{Core, places, driver_at, no_word};
ghost use Rattle.model.specs.Cycle.{at, of_start, begun, ram_begun, start_state};
ghost use Rattle.design.specs.Views.{core};
ghost use Rattle.engine.specs.Refusals.{start_count, start_refusal};

use crate::gates::settle_gates;
use crate::memory::{bit_of, ram_place};
use bundle::{Fault, Refusal, ask};
use design::Design;
use levels::{Level, Tri};
use model::{Driver, RamWord};

// A flop's level in a start, blank where the start does not know it.
fn flop_level<V: Level>(level: Tri) -> V
    ensures { (d : Core) → result ≡ of_start V.kind d level }
{
    match level {
        Tri::Zero => V::of_bit(false),
        Tri::One => V::of_bit(true),
        Tri::X => V::blank(),
    }
}

// A bit of a RAM word as the tag wakes, blank where the word does not know it.
fn ram_level<V: Level>(word: &RamWord, bit: usize) -> V
    requires { bit < 16 }
    ensures { (d : Core) → result ≡ ram_begun V.kind d word.now bit }
{
    if bit_of(word.unknown, bit) {
        V::blank()
    } else {
        V::of_bit(bit_of(word.value, bit))
    }
}

// The nets of a start before the gates settle: flops from the start in net order, constants themselves, all else blank.
fn start_nets<V: Level>(design: &Design, number: usize, state: &mut [V])
    requires state_len { length state.old ≡ places (core design.now) }
    requires number_bound { number < start_count (core design.now) }
    ensures { (i : ℕ) → i < length (core design.now).nets
        → at V.kind state.new i ≡ begun V.kind (core design.now) number i (driver_at (core design.now) i) }
{
    let starts = design.starts();
    // Why by index: an iterator over the levels answers an `Option`, and its `None` would be a branch that never runs.
    let mut flop = number * design.flop_count();
    for (i, net) in design.nets().iter().enumerate() {
        state[i] = match net.driver {
            Driver::Flop { .. } | Driver::EnabledFlop { .. } => {
                let level = flop_level(starts[flop]);
                flop += 1;
                level
            }
            Driver::Constant { bit } => V::of_bit(bit),
            _ => V::blank(),
        };
    }
}

// The bits of a RAM word as the tag wakes.
fn start_word<V: Level>(word: &RamWord, levels: &mut [V])
    requires { length levels.old ≡ 16 }
    ensures { (d : Core) (bit : ℕ) → bit < 16 → at V.kind levels.new bit ≡ ram_begun V.kind d word.now bit }
{
    for (bit, level) in levels.iter_mut().enumerate() {
        *level = ram_level(word, bit);
    }
}

// The RAM's bits as the tag wakes, behind the nets.
fn start_ram<V: Level>(design: &Design, state: &mut [V])
    requires { length state.old ≡ places (core design.now) }
    ensures nets { (i : ℕ) → i < length (core design.now).nets → at V.kind state.new i ≡ at V.kind state.old i }
    ensures words { (q : ℕ) → q < 16 * length (core design.now).ram
        → at V.kind state.new (length (core design.now).nets + q)
        ≡ ram_begun V.kind (core design.now) (slice_index_or (core design.now).ram (q / 16) no_word) (q % 16) }
{
    for (number, word) in design.ram().iter().enumerate() {
        let first = ram_place(design, number, 0);
        start_word(word, &mut state[first..first + 16]);
    }
}

// The state of a start: its flops, the RAM's words and the constants, with the gates settled.
pub fn start<V: Level>(design: &Design, number: usize, state: &mut [V]) -> Result<(), Refusal>
    ensures { MatchResult result
        (λ _. (length state.old ≡ places (core design.now))
        × (number < start_count (core design.now))
        × (state.new ≡ start_state V.kind (core design.now) number))
        (λ e. (length state.old ≡ places (core design.now) → number < start_count (core design.now) → ⊥)
        × (e ≡ start_refusal (core design.now) state.old)
        × (state.new ≡ state.old)) }
{
    ask(state.len() == design.places(), Fault::Memory)?;
    ask(number < design.start_count(), Fault::NoStart)?;
    start_nets(design, number, state);
    start_ram(design, state);
    settle_gates(design, state);
    Ok(())
}
