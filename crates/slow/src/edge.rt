// The edge: flops, memory bits, inputs and RAM after it, from the state before it alone.
use crate::level::{BOTH, Level};
use crate::state::State;
use slow_tag::{Net, Tag, Use, bit};
use std::alloc::{AllocError, Global};

// What bit `place` of some word at an allowed address of the ROM allows.
fn rom_read(tag: &Tag, state: &State, place: usize) -> Level {
    state.over_choices(&tag.rom_address, tag.rom.len(), |address| {
        let word = tag.rom.get(address).copied().unwrap_or(0);
        Level::from(bit(word, place))
    })
}

// What bit `place` of some word at an allowed address of the RAM allows, as it stands before the write.
fn ram_read(tag: &Tag, state: &State, place: usize) -> Level {
    state.over_choices(&tag.ram_address, tag.ram.len(), |address| {
        state.at(tag.ram_place(address, place))
    })
}

// Whether a RAM word is written, over every choice of address and enable: 1 where it is, 0 where it is left.
fn written(tag: &Tag, state: &State, word: usize) -> Level {
    let enable = state.at(tag.enable);
    state.over_choices(&tag.ram_address, tag.ram.len(), |address| {
        enable.choose(Level::from(address == word), Level::from(false))
    })
}

// A bit of a RAM word after the edge, by whether the word is written.
fn ram_after(tag: &Tag, state: &State, written: Level, word: usize, place: usize) -> Level {
    let held = state.at(tag.ram_place(word, place));
    if written.allows(true) {
        let offered = state.at(tag.written.get(place).copied().unwrap_or(0));
        written.choose(offered, held)
    } else {
        held
    }
}

// A net after the edge; a gate is still as it was, and settles later.
fn net_after(tag: &Tag, state: &State, number: usize, net: &Net) -> Level {
    let [first, second, _, _] = net.pins;
    match net.cell.duty {
        Use::Gate => state.at(number),
        Use::Flop => state.at(first),
        Use::EnabledFlop => state.at(second).choose(state.at(first), state.at(number)),
        Use::Input => BOTH,
        Use::MemoryBit if first == 0 => rom_read(tag, state, second),
        Use::MemoryBit => ram_read(tag, state, second),
        Use::Zero => Level::from(false),
        Use::One => Level::from(true),
    }
}

// The state after the edge, gates not settled.
pub(crate) fn edge(tag: &Tag, state: &State, heap: Global) -> Result<State, AllocError> {
    let nets = tag.nets.iter().enumerate();
    let mut levels = Vec::with_capacity(heap, tag.places())?;
    levels.extend(nets.map(|(number, net)| net_after(tag, state, number, net)))?;
    for word in 0..tag.ram.len() {
        let written = written(tag, state, word);
        levels.extend((0..16).map(|place| ram_after(tag, state, written, word, place)))?;
    }
    Ok(State { levels })
}
