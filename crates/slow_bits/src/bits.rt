// A run in bits: every place of a state is a bool, and an address is a number.
use slow_tag::{Net, Tag, Use, bit};
use std::alloc::{AllocError, Global};
use std::slice::Iter;

// The bit at a place of a state, 0 past the end.
fn get(state: &[bool], place: usize) -> bool {
    state.get(place).copied().unwrap_or(false)
}

// The number that some nets show, the lowest bit first.
fn number(state: &[bool], nets: &[usize]) -> usize {
    nets.iter().rev().fold(0usize, |number, net| {
        let bit = get(state, *net) as usize;
        number.wrapping_mul(2).wrapping_add(bit)
    })
}

// The key of a state.
pub fn key_of(tag: &Tag, state: &[bool]) -> usize {
    number(state, &tag.pilots)
}

// Settles the gates in net order.
fn settle_bits(tag: &Tag, state: &mut [bool]) {
    for (place, net) in tag.nets.iter().enumerate() {
        if net.cell.duty == Use::Gate {
            let settled = bit(net.cell.truth, number(state, net.inputs()));
            if let Some(bit) = state.get_mut(place) {
                *bit = settled;
            }
        }
    }
}

// The bit at a memory bit's net after the edge.
fn memory_bit(tag: &Tag, state: &[bool], net: &Net) -> bool {
    let [memory, place, _, _] = net.pins;
    if memory == 0 {
        let word = tag.rom.get(number(state, &tag.rom_address));
        return bit(word.copied().unwrap_or(0), place);
    }
    get(state, tag.ram_place(number(state, &tag.ram_address), place))
}

// The bit of a net after the edge; an input takes the next of the inputs. A gate is still as it was, and settles later.
fn bit_after(tag: &Tag, state: &[bool], place: usize, net: &Net, inputs: &mut Iter<bool>) -> bool {
    let [first, second, _, _] = net.pins;
    match net.cell.duty {
        Use::Flop => get(state, first),
        Use::EnabledFlop if get(state, second) => get(state, first),
        Use::Input => inputs.next().copied().unwrap_or(false),
        Use::MemoryBit => memory_bit(tag, state, net),
        Use::EnabledFlop | Use::Gate | Use::Zero | Use::One => get(state, place),
    }
}

// The bit of a RAM word after the edge, of which `written` is the word that the edge writes, if it writes one.
fn ram_bit_after(
    tag: &Tag,
    state: &[bool],
    written: Option<usize>,
    word: usize,
    place: usize,
) -> bool {
    get(
        state,
        if written == Some(word) {
            tag.written.get(place).copied().unwrap_or(0)
        } else {
            tag.ram_place(word, place)
        },
    )
}

// The state one cycle on, with an input for each input net.
// Why two: the edge of `slow` goes over nets and words too, in levels; each calls other functions, so only that walk is shared.
pub fn cycle(
    tag: &Tag,
    state: &[bool],
    inputs: &[bool],
    heap: Global,
) -> Result<Vec<bool>, AllocError> {
    let mut next = Vec::new(heap);
    let mut inputs = inputs.iter();
    for (place, net) in tag.nets.iter().enumerate() {
        next.push(bit_after(tag, state, place, net, &mut inputs))?;
    }
    let address = number(state, &tag.ram_address);
    let written = get(state, tag.enable).then_some(address);
    for word in 0..tag.ram.len() {
        next.extend((0..16).map(|place| ram_bit_after(tag, state, written, word, place)))?;
    }
    settle_bits(tag, &mut next);
    Ok(next)
}

// What a cycle draws.
// Why two: the charge of `slow` sums other terms; one function for both would take each term as a closure, and be longer.
pub fn drawn(tag: &Tag, before: &[bool], after: &[bool]) -> u32 {
    let fixed = tag.rom_energy.saturating_add(tag.ram_energy);
    let sum = tag
        .nets
        .iter()
        .enumerate()
        .fold(fixed, |sum, (place, net)| {
            let step = net.cell.toggle(get(before, place), get(after, place));
            sum.saturating_add(net.cell.idle).saturating_add(step)
        });
    if get(before, tag.enable) {
        sum.saturating_add(tag.write_energy)
    } else {
        sum
    }
}

// A first state of a run from a start: what is unknown takes the bits of `fill`, in the order of the places.
pub fn first_state(
    tag: &Tag,
    start: usize,
    fill: &[bool],
    heap: Global,
) -> Result<Vec<bool>, AllocError> {
    let known = tag.known_bits(start, heap)?;
    let mut state: Vec<bool> = known
        .iter()
        .enumerate()
        .map(|(place, bit)| bit.unwrap_or(get(fill, place)))
        .collect(heap)?;
    settle_bits(tag, &mut state);
    Ok(state)
}
