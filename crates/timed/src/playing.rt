use crate::rounds::repeat;
use decode::read_design;
use design::Design;
use levels::Bit;
use player::{Buffers, Cycle, play};
use std::alloc::{AllocError, Global};

// The cycles of a run over the lines, played so often.
fn play_rounds(
    heap: Global,
    design: &Design,
    lines: &[u8],
    rounds: u32,
) -> Result<Vec<Cycle>, AllocError> {
    let places = design.places();
    let mut state = vec![in heap; Bit::Zero; places]?;
    let mut scratch = vec![in heap; Bit::Zero; 2 * places + 1024]?;
    let mut cycles = vec![in heap; Cycle { key: 0, energy: 0 }; lines.len()]?;
    repeat(rounds, &mut cycles, |cycles| {
        let mut lent = Buffers {
            state: &mut state,
            scratch: &mut scratch,
            cycles,
        };
        play(design, lines, &mut lent)
    });
    Ok(cycles)
}

// Plays the lines `rounds` times, and answers the sum of the energies of the last round; 0 if something is refused.
#[unsafe(no_mangle)]
pub extern "C" fn timed_play(heap: Global, tag: &[u8], lines: &[u8], rounds: u32) -> u64 {
    let mut design = Design::new();
    if read_design(&mut design, tag).is_err() {
        return 0;
    }
    play_rounds(heap, &design, lines, rounds).map_or(0, |cycles| {
        cycles
            .iter()
            .map(|cycle| u64::from(cycle.energy))
            .fold(0, u64::wrapping_add)
    })
}
