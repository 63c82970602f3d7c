// The record of an exploration: plain lists of points, open points and entries.
ghost use Rattle.std.specs.Prelude.{◌≡◌, vec_len};

use crate::level::Level;
use crate::state::State;
use crate::steps::Successor;
use slow_tag::{Question, Stop, Tag, ask};
use std::alloc::{AllocError, Global};

// What became of a point.
#[derive(Clone, Copy, PartialEq, Eq, Debug)]
pub enum Fate {
    Open,
    Walked,
    Cut(usize),
    Halted,
}

// A point: the point that it came from, unless it is a start's, its key, the charge of the step into it, and its fate.
#[derive(Clone, Copy, PartialEq, Eq, Debug)]
pub struct Point {
    pub origin: Option<usize>,
    pub key: usize,
    pub charge: u32,
    pub fate: Fate,
}

// An open point's number and state.
#[derive(Drop)]
pub(crate) struct OpenPoint {
    pub(crate) number: usize,
    pub(crate) state: State,
}

// An entry of the key table, with the state that is kept under its key.
#[derive(Drop)]
pub(crate) struct Entry {
    pub(crate) key: usize,
    pub(crate) point: usize,
    pub(crate) count: usize,
    pub(crate) state: State,
}

// At most so many points, open points and entries.
#[derive(Clone, Copy, PartialEq, Eq, Debug)]
pub struct Limits {
    pub points: usize,
    pub open: usize,
    pub entries: usize,
}

// How often a point was walked from a merged state, to more than one successor, with an unknown write enable, and with an unknown
// address.
#[derive(Clone, Copy, PartialEq, Eq, Debug, Default)]
pub struct Seen {
    pub merges: usize,
    pub splits: usize,
    pub enables: usize,
    pub addresses: usize,
}

#[derive(Drop)]
pub struct Record {
    pub points: Vec<Point>,
    pub(crate) open: Vec<OpenPoint>,
    pub(crate) entries: Vec<Entry>,
    pub(crate) limits: Limits,
    pub seen: Seen,
}

impl Record {
    pub fn new(limits: Limits, heap: Global) -> Record {
        Record {
            points: Vec::new(heap),
            open: Vec::new(heap),
            entries: Vec::new(heap),
            limits,
            seen: Seen::default(),
        }
    }

    // How many points are open.
    pub fn open_count(&self) -> usize
        ensures { result ≡ vec_len self.now.«open» }
    {
        self.open.len()
    }

    // How many entries the key table has.
    pub fn entry_count(&self) -> usize
        ensures { result ≡ vec_len self.now.entries }
    {
        self.entries.len()
    }

    // The state that an entry keeps.
    pub fn kept_state(&self, entry: usize) -> &[Level] {
        match self.entries.get(entry) {
            Some(entry) => &entry.state.levels,
            None => &[],
        }
    }

    // The state of an open point, by its place among them.
    pub fn open_state(&self, slot: usize) -> &[Level] {
        match self.open.get(slot) {
            Some(open) => &open.state.levels,
            None => &[],
        }
    }

    // Adds an open point with its state.
    pub(crate) fn add(&mut self, origin: Option<usize>, step: Successor) -> Result<(), AllocError> {
        let Successor { key, charge, state } = step;
        let number = self.points.len();
        self.points.push(Point {
            origin,
            key,
            charge,
            fate: Fate::Open,
        })?;
        self.open.push(OpenPoint { number, state })?;
        Ok(())
    }

    // Takes a start: the number of the point that is added.
    pub fn start(&mut self, tag: &Tag, start: usize, heap: Global) -> Result<usize, Stop> {
        let number = self.points.len();
        ask(start < tag.start_count(), Question::StartNumber, 0)?;
        ask(number < self.limits.points, Question::PointRoom, 0)?;
        ask(self.open.len() < self.limits.open, Question::OpenRoom, 0)?;
        let state = State::start(tag, start, heap)?;
        let keys = state.keys(tag, heap)?;
        let step = Successor {
            key: keys.last().copied().unwrap_or(0),
            charge: 0,
            state,
        };
        self.add(None, step)?;
        Ok(number)
    }
}
