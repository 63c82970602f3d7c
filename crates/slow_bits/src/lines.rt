// Lines of inputs, and a run over them.
use crate::bits::{cycle, drawn, first_state, key_of};
use slow_tag::{Question, Stop, Tag, ask, bit};
use std::alloc::Global;

// A cycle of a run: the key of the state that it comes to, and what it draws.
#[derive(Clone, Copy, PartialEq, Eq, Debug)]
pub struct Cycle {
    pub key: usize,
    pub energy: u32,
}

// A line: a character for each input, and then a newline.
fn read_line(line: &[u8], number: usize, inputs: usize, heap: Global) -> Result<Vec<bool>, Stop> {
    let (ended, bits) = match line.split_last() {
        Some((b'\n', bits)) => (true, bits),
        _ => (false, line),
    };
    let of_bits = bits.iter().all(|bit| *bit == b'0' || *bit == b'1');
    let fits = ended && of_bits && bits.len() == inputs;
    ask(fits, Question::Lines, number)?;
    Ok(bits.iter().map(|bit| *bit == b'1').collect(heap)?)
}

fn read_lines(text: &[u8], inputs: usize, heap: Global) -> Result<Vec<Vec<bool>>, Stop> {
    text.split_inclusive(|character| *character == b'\n')
        .enumerate()
        .map(|(number, line)| read_line(line, number, inputs, heap))
        .try_collect(heap)
}

// The cycles of a run from start 0, all unknown bits being 0, one for each line, until the tag halts.
pub fn play_lines(tag: &Tag, text: &[u8], heap: Global) -> Result<Vec<Cycle>, Stop> {
    let lines = read_lines(text, tag.input_count(), heap)?;
    let mut cycles = Vec::new(heap);
    let mut state = first_state(tag, 0, &[], heap)?;
    for line in &lines {
        if bit(key_of(tag, &state), 0) {
            break;
        }
        let next = cycle(tag, &state, line, heap)?;
        cycles.push(Cycle {
            key: key_of(tag, &next),
            energy: drawn(tag, &state, &next),
        })?;
        state = next;
    }
    Ok(cycles)
}
