// The entries of a design: cells and nets.
use crate::contents::Body;
use crate::fields::{bit, choices};
use crate::refusal::{Question, Refusal, Stop, ask, refuse};
use crate::tag::{Cell, Net, Use};
use std::alloc::Global;

// Has a cell as many pins as its use wants, and no truth bit that no choice of its pins reaches?
fn is_cell(cell: &Cell) -> bool {
    let (pins_fit, used) = match cell.duty {
        Use::Gate => (1 <= cell.pins && cell.pins <= 4, choices(cell.pins)),
        Use::Flop => (cell.pins == 1, 0),
        Use::EnabledFlop => (cell.pins == 2, 0),
        _ => (cell.pins == 0, 0),
    };
    pins_fit && (used..16).all(|place| !bit(cell.truth, place))
}

fn read_cell(body: Body, number: usize) -> Result<Cell, Refusal> {
    let duty = Use::ALL.get(body.byte(number, 1)).copied();
    let cell = Cell {
        pins: body.byte(number, 0),
        duty: duty.ok_or(refuse(Question::Cells, number))?,
        truth: body.two(number, 2),
        rise: body.two(number, 4) as u32,
        fall: body.two(number, 6) as u32,
        idle: body.two(number, 8) as u32,
    };
    ask(is_cell(&cell), Question::Cells, number)?;
    Ok(cell)
}

pub(crate) fn read_cells(body: Body, heap: Global) -> Result<Vec<Cell>, Stop> {
    let count = body.count();
    ask(1 <= count && count <= 64, Question::Cells, 0)?;
    (0..count)
        .map(|number| -> Result<Cell, Stop> { Ok(read_cell(body, number)?) })
        .try_collect(heap)
}

// A net as it stands in the body; none if it names no cell.
fn entry(body: Body, number: usize, cells: &[Cell]) -> Option<Net> {
    let cell = cells.get(body.two(number, 0))?;
    Some(Net {
        cell: *cell,
        pins: [
            body.two(number, 2),
            body.two(number, 4),
            body.two(number, 6),
            body.two(number, 8),
        ],
    })
}

// Is the net at a pin of net `number` one that it may have there? A gate's pin names no gate of equal or higher number.
fn is_pin(body: Body, cells: &[Cell], number: usize, net: &Net, pin: usize) -> bool {
    let late_gate = number <= pin
        && entry(body, pin, cells).is_some_and(|other| other.cell.duty == Use::Gate);
    pin < body.count() && !(net.cell.duty == Use::Gate && late_gate)
}

// Is a net as its cell wants it?
fn is_net(body: Body, cells: &[Cell], number: usize, net: &Net) -> bool {
    if net.cell.duty == Use::MemoryBit {
        let [memory, place, c, d] = net.pins;
        return memory <= 1 && place <= 15 && c == 0 && d == 0;
    }
    net.pins.iter().enumerate().all(|(place, pin)| {
        if place < net.cell.pins {
            is_pin(body, cells, number, net, *pin)
        } else {
            *pin == 0
        }
    })
}

fn read_net(body: Body, number: usize, cells: &[Cell]) -> Result<Net, Refusal> {
    let net = entry(body, number, cells).ok_or(refuse(Question::Nets, number))?;
    ask(is_net(body, cells, number, &net), Question::Nets, number)?;
    Ok(net)
}

pub(crate) fn read_nets(body: Body, cells: &[Cell], heap: Global) -> Result<Vec<Net>, Stop> {
    let count = body.count();
    ask(1 <= count && count <= 4096, Question::Nets, 0)?;
    (0..count)
        .map(|number| -> Result<Net, Stop> { Ok(read_net(body, number, cells)?) })
        .try_collect(heap)
}
