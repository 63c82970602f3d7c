// A bundle read into a tag, or refused.
use crate::bodies::{address_bits, ask_named, ask_pilots, flops, read_ram, read_starts, read_twos};
use crate::contents::{Contents, Kind, read_contents};
use crate::entries::{read_cells, read_nets};
use crate::fields::two;
use crate::refusal::{Question, Stop, ask, refuse};
use crate::tag::{Net, Tag};
use std::alloc::{AllocError, Global};

// The part of a list from one place to before another.
fn part(list: &[usize], from: usize, to: usize, heap: Global) -> Result<Vec<usize>, AllocError> {
    list.iter().take(to).skip(from).copied().collect(heap)
}

// The tag's memories, wires, pilots and starts, its nets being read.
fn read_rest(bytes: &[u8], contents: &Contents, nets: Vec<Net>, heap: Global) -> Result<Tag, Stop> {
    let none = refuse(Question::Words, 0);
    let a = address_bits(contents.body(Kind::Rom).count(), 10).ok_or(none)?;
    let b = address_bits(contents.body(Kind::Ram).count(), 8).ok_or(none)?;
    let rom = read_twos(contents.body(Kind::Rom), heap)?;
    let ram = read_ram(contents.body(Kind::Ram), heap)?;
    let wires = read_twos(contents.body(Kind::Wires), heap)?;
    let end = a.saturating_add(b);
    ask(wires.len() == end.saturating_add(17), Question::Wires, 0)?;
    ask_named(&wires, nets.len(), Question::Wires)?;
    let named = read_twos(contents.body(Kind::Pilots), heap)?;
    ask_pilots(&named, &nets)?;
    let pilots = part(&named, 1, named.len(), heap)?;
    let flops = flops(&nets, heap)?;
    let starts = read_starts(contents.body(Kind::Starts), &flops, &pilots, heap)?;
    Ok(Tag {
        clock: two(bytes, 4),
        window: two(bytes, 12),
        rom_energy: two(bytes, 6) as u32,
        ram_energy: two(bytes, 8) as u32,
        write_energy: two(bytes, 10) as u32,
        nets,
        rom,
        ram,
        rom_address: part(&wires, 0, a, heap)?,
        ram_address: part(&wires, a, end, heap)?,
        enable: wires.get(end).copied().unwrap_or(0),
        written: part(&wires, end.saturating_add(1), wires.len(), heap)?,
        mark: named.first().copied().unwrap_or(0),
        pilots,
        starts,
        flops: flops.len(),
    })
}

// Reads a bundle: a tag, or the first question that is answered by no.
pub fn read_tag(bytes: &[u8], heap: Global) -> Result<Tag, Stop> {
    let contents = read_contents(bytes, heap)?;
    let clock = two(bytes, 4);
    let fits = 1 <= clock && clock <= 200 && two(bytes, 12) != 0;
    ask(fits, Question::Clock, 0)?;
    let cells = read_cells(contents.body(Kind::Cells), heap)?;
    let nets = read_nets(contents.body(Kind::Nets), &cells, heap)?;
    read_rest(bytes, &contents, nets, heap)
}
