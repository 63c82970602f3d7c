// Memory words, wires, pilots and starts.
use crate::contents::Body;
use crate::fields::choices;
use crate::refusal::{Question, Refusal, Stop, ask};
use crate::tag::{Net, RamWord};
use std::alloc::{AllocError, Global};

// How many address bits a memory of so many words has, if there is a number of them up to `most`.
pub(crate) fn address_bits(words: usize, most: usize) -> Option<usize> {
    (0..=most).find(|bits| choices(*bits) == words)
}

// The entries of two bytes of a body.
pub(crate) fn read_twos(body: Body, heap: Global) -> Result<Vec<usize>, AllocError> {
    (0..body.count())
        .map(|number| body.two(number, 0))
        .collect(heap)
}

// A RAM word: no value bit is 1 under the mask.
fn read_ram_word(body: Body, number: usize) -> Result<RamWord, Refusal> {
    let word = RamWord {
        value: body.two(number, 0),
        mask: body.two(number, 2),
    };
    ask(word.value & word.mask == 0, Question::Words, number)?;
    Ok(word)
}

pub(crate) fn read_ram(body: Body, heap: Global) -> Result<Vec<RamWord>, Stop> {
    (0..body.count())
        .map(|number| -> Result<RamWord, Stop> { Ok(read_ram_word(body, number)?) })
        .try_collect(heap)
}

// Each entry names a net.
pub(crate) fn ask_named(entries: &[usize], nets: usize, question: Question) -> Result<(), Refusal> {
    for (place, net) in entries.iter().enumerate() {
        ask(*net < nets, question, place)?;
    }
    Ok(())
}

// Is the pilot entry at a place a flop that no pilot entry before it names? The entry at 0 is the mark, which may be any net.
fn is_pilot(entries: &[usize], nets: &[Net], place: usize, named: usize) -> bool {
    if place == 0 {
        return named < nets.len();
    }
    let mut before = entries.iter().take(place).skip(1);
    before.all(|other| *other != named) && nets.get(named).is_some_and(|net| net.is_flop())
}

pub(crate) fn ask_pilots(entries: &[usize], nets: &[Net]) -> Result<(), Refusal> {
    let count = entries.len();
    ask(2 <= count && count <= 17, Question::Pilots, 0)?;
    for (place, named) in entries.iter().enumerate() {
        let fits = is_pilot(entries, nets, place, *named);
        ask(fits, Question::Pilots, place)?;
    }
    Ok(())
}

// The numbers of the flops, in net order.
pub(crate) fn flops(nets: &[Net], heap: Global) -> Result<Vec<usize>, AllocError> {
    nets.iter()
        .enumerate()
        .filter(|(_, net)| net.is_flop())
        .map(|(number, _)| number)
        .collect(heap)
}

// A start's bit for a flop, from its byte: 0, 1 or, for what is no pilot, 2.
fn read_start(body: Body, number: usize, piloted: bool) -> Result<Option<bool>, Refusal> {
    match body.byte(number, 0) {
        0 => Ok(Some(false)),
        1 => Ok(Some(true)),
        level => {
            ask(level == 2 && !piloted, Question::Starts, number)?;
            Ok(None)
        }
    }
}

// The bits of all starts, one for each flop; none where a bit is unknown.
pub(crate) fn read_starts(
    body: Body,
    flops: &[usize],
    pilots: &[usize],
    heap: Global,
) -> Result<Vec<Option<bool>>, Stop> {
    let rest = body.count().checked_rem(flops.len()).unwrap_or(1);
    let starts = body.count().checked_div(flops.len()).unwrap_or(0);
    ask(rest == 0 && 1 <= starts && starts <= 8, Question::Starts, 0)?;
    (0..body.count())
        .zip(flops.iter().cycle())
        .map(|(number, flop)| -> Result<Option<bool>, Stop> {
            Ok(read_start(body, number, pilots.contains(flop))?)
        })
        .try_collect(heap)
}
