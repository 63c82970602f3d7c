// Lines of inputs played by both.
use crate::comparison::Comparison;
use beside::{Case, Refusal, Stop, answered};
use design::Design;
use levels::Bit;
use player::{Buffers, Cycle, play};
use random_tags::Random;
use slow_bits::play_lines;
use slow_tag::Tag;
use std::alloc::{AllocError, Global};

// Up to eight lines, mostly whole, sometimes with a character too many, one too few or another one.
fn make_text(random: &mut Random, inputs: usize, heap: Global) -> Result<Vec<u8>, AllocError> {
    let mut text = Vec::new(heap);
    for _ in 0..random.below(9) {
        for _ in 0..inputs {
            text.push(if random.once_in(2) { b'0' } else { b'1' })?;
        }
        text.push(b'\n')?;
    }
    if random.once_in(3) {
        let place = random.below(text.len());
        match random.below(3) {
            0 => {
                let _ = text.pop();
            }
            1 => text.push(b'0')?,
            _ => {
                if let Some(character) = text.get_mut(place) {
                    *character = random.pick(b"0\n2\r");
                }
            }
        }
    }
    Ok(text)
}

// The memory that is lent to the library's player.
#[derive(Drop)]
struct Memory {
    state: Vec<Bit>,
    scratch: Vec<Bit>,
    cycles: Vec<Cycle>,
}

impl Memory {
    // Memory for a text of so many bytes, in which anything may stand.
    fn new(design: &Design, length: usize, heap: Global) -> Result<Memory, AllocError> {
        let places = design.places();
        let room = places.saturating_mul(2).saturating_add(1024);
        Ok(Memory {
            state: vec![in heap; Bit::One; places]?,
            scratch: vec![in heap; Bit::One; room]?,
            cycles: vec![in heap; Cycle { key: 0, energy: 0 }; length]?,
        })
    }

    // The cycles that the library plays.
    fn play(&mut self, design: &Design, text: &[u8]) -> Result<(), bundle::Refusal> {
        let mut lent = Buffers {
            state: &mut self.state,
            scratch: &mut self.scratch,
            cycles: &mut self.cycles,
        };
        let count = play(design, text, &mut lent)?;
        self.cycles.truncate(count);
        Ok(())
    }

    // Is all scratch 0?
    fn scratch_is_clear(&self) -> bool {
        self.scratch.iter().all(|bit| *bit == Bit::Zero)
    }
}

impl Comparison {
    // Are the cycles those of the slow simulator?
    fn same_cycles(&mut self, library: &[Cycle], slow: &[slow_bits::Cycle]) -> bool {
        let mut same = library.len() == slow.len();
        for (cycle, other) in library.iter().zip(slow.iter()) {
            let agreed = cycle.key as usize == other.key && cycle.energy == other.energy;
            self.tally.count(Case::PlayedCycles, agreed);
            same = same && agreed;
        }
        same
    }

    // Plays random lines by both.
    pub(crate) fn play_tag(&mut self, design: &Design, tag: &Tag) -> Result<(), Stop> {
        let text = make_text(&mut self.random, tag.input_count(), self.heap)?;
        let mut memory = Memory::new(design, text.len(), self.heap)?;
        let library = memory.play(design, &text);
        let slow = answered(play_lines(tag, &text, self.heap))?;
        let same = match (library, slow) {
            (Ok(()), Ok(cycles)) => self.same_cycles(&memory.cycles, &cycles),
            (Err(refusal), Err(other)) => {
                let other = Refusal::from(other);
                self.tally.refused(other.number);
                Refusal::from(refusal) == other
            }
            _ => false,
        };
        self.tally
            .agree(Case::Plays, same && memory.scratch_is_clear(), "a play")
    }
}
