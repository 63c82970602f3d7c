ghost use Rattle.std.specs.Prelude.{◌≡◌, ℕ, ◌+◌, ◌*◌, ◌<◌, ◌≤◌, true, length, replicate, MatchResult};
ghost use Rattle.levels.specs.declared.Bit.TheVariants.{Zero};
ghost use Rattle.model.specs.Core.{tally, is_input, places, inputs as input_count};
ghost use Rattle.design.specs.Views.{core};
ghost use Rattle.player.specs.Run.{shown_cycle, cycle_of, Ran, Plays};
ghost use Rattle.player.specs.Buffers.{fits, SameBuffers};

use crate::buffers::Buffers;
use crate::lines::{check_lines, count_lines, line_of, read_levels};
use bundle::{Fault, Refusal, ask};
use design::Design;
use engine::{cycle, key, start};
use levels::Bit;
use model::Net;

// One cycle of a run: the key of the state that it comes to, and what it draws in femtojoules.
#[derive(Clone, Copy, PartialEq, Eq, Debug)]
pub struct Cycle {
    pub key: u16,
    pub energy: u32,
}

fn count_inputs(nets: &[Net]) -> usize
    ensures { result ≡ tally is_input nets.now }
{
    nets.iter().filter(|net| net.driver.is_input()).count()
}

// One cycle: the line's characters are the levels of the inputs.
fn step(
    design: &Design,
    line: &[u8],
    state: &mut [Bit],
    scratch: &mut [Bit],
) -> Result<Cycle, Refusal>
    requires state { length state.old ≡ places (core design.now) }
    requires line { length line.now ≡ input_count (core design.now) }
    requires scratch { 2 * places (core design.now) + 1024 ≤ length scratch.old }
    ensures { MatchResult result (λ c. (state.new ≡ cycle_of (core design.now) line.now state.old) × (c ≡ shown_cycle (core design.now) state.old state.new)) (λ _. ⊥) }
{
    let (given, rest) = scratch.split_at_mut(design.places());
    let given = &mut given[0..line.len()];
    read_levels(line, given);
    let energy = cycle(design, state, given, rest)?;
    let key = key(design, state)?;
    Ok(Cycle { key, energy })
}

// The lines in turn, until they end or the tag halts: how many cycles were played.
// Why by index: a proof knows nothing of writes through `zip(cycles.iter_mut())`, and the line at which the tag halts is the answer.
fn run_lines(
    design: &Design,
    text: &[u8],
    lines: usize,
    buffers: &mut Buffers,
) -> Result<usize, Refusal>
    requires fits { fits (core design.now) lines buffers.old ≡ true }
    requires text { lines * (input_count (core design.now) + 1) ≤ length text.now }
    ensures ran { MatchResult result (λ n. Ran (core design.now) text.now lines buffers.old.state.now n buffers.new.state.now buffers.old.cycles.now buffers.new.cycles.now) (λ _. ⊥) }
    ensures same { SameBuffers buffers.old buffers.new }
{
    let inputs = count_inputs(design.nets());
    let mut shown = buffers.key(design)?;
    for line in 0..lines {
        if shown % 2 == 1 {
            return Ok(line);
        }
        let cycle = step(
            design,
            line_of(text, inputs, line),
            buffers.state,
            buffers.scratch,
        )?;
        shown = cycle.key;
        buffers.cycles[line] = cycle;
    }
    Ok(lines)
}

fn play_lines(design: &Design, text: &[u8], buffers: &mut Buffers) -> Result<usize, Refusal>
    ensures run { Plays (core design.now) text.now (length buffers.old.scratch.now) buffers.old.state.now buffers.new.state.now buffers.old.cycles.now buffers.new.cycles.now result }
    ensures same { SameBuffers buffers.old buffers.new }
{
    let inputs = count_inputs(design.nets());
    let lines = count_lines(text, inputs);
    ask(buffers.fits(design, lines), Fault::Memory)?;
    check_lines(text, inputs)?;
    start(design, 0, buffers.state)?;
    run_lines(design, text, lines, buffers)
}

// Plays a run in bits from start 0, unknowns at 0, over the lines of `text`, one a cycle, until they end or the tag halts. The
// cycles that were played stand in the first of `cycles`, and their number is answered.
pub fn play(design: &Design, text: &[u8], buffers: &mut Buffers) -> Result<usize, Refusal>
    ensures run { Plays (core design.now) text.now (length buffers.old.scratch.now) buffers.old.state.now buffers.new.state.now buffers.old.cycles.now buffers.new.cycles.now result }
    ensures scratch { buffers.new.scratch.now ≡ replicate (length buffers.old.scratch.now) Zero }
    ensures same { SameBuffers buffers.old buffers.new }
{
    let played = play_lines(design, text, buffers);
    buffers.scratch.fill(Bit::Zero);
    played
}
