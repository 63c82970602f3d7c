// The memory that is lent to the library.
ghost use Rattle.std.specs.Prelude.{◌≡◌, ◌↔◌, IsTrue, IfOk, All, vec_len};
ghost use Rattle.beside.specs.Memory.{Fresh};

use levels::Tri;
use record::Point;
use std::alloc::{AllocError, Global};

// A part of the memory that an exploration is lent.
#[derive(Clone, Copy, PartialEq, Eq, Default, Debug)]
pub enum Part {
    #[default]
    Points,
    Opened,
    Kept,
    Scratch,
}

impl Part {
    pub const ALL: [Part; 4] = [Part::Points, Part::Opened, Part::Kept, Part::Scratch];
}

// How long each part is.
#[derive(Clone, Copy, Debug)]
pub struct Lengths {
    pub points: usize,
    pub opened: usize,
    pub kept: usize,
    pub scratch: usize,
}

#[derive(Drop)]
pub struct Memory {
    pub points: Vec<Point>,
    pub opened: Vec<Tri>,
    pub kept: Vec<Tri>,
    pub scratch: Vec<Tri>,
    // The part that is lent too short by one, if one is.
    pub short: Option<Part>,
}

impl Memory {
    // Memory of these lengths, in which anything may stand.
    pub(crate) fn new(lengths: Lengths, heap: Global) -> Result<Memory, AllocError>
        ensures { IfOk result (λ memory. Fresh lengths memory) }
    {
        Ok(Memory {
            points: vec![in heap; Point::default(); lengths.points]?,
            opened: vec![in heap; Tri::Zero; lengths.opened]?,
            kept: vec![in heap; Tri::Zero; lengths.kept]?,
            scratch: vec![in heap; Tri::Zero; lengths.scratch]?,
            short: None,
        })
    }
}

// The rows that are lent for a window.
#[derive(Drop)]
pub struct Rows {
    pub row: Vec<u64>,
    pub other: Vec<u64>,
}

impl Rows {
    // Rows of these lengths, in which anything may stand.
    pub fn new(row: usize, other: usize, heap: Global) -> Result<Rows, AllocError>
        ensures { IfOk result (λ rows. (vec_len rows.row ≡ row) × (vec_len rows.other ≡ other)) }
    {
        Ok(Rows {
            row: vec![in heap; 7; row]?,
            other: vec![in heap; 9; other]?,
        })
    }

    // Are they all 0?
    pub fn are_clear(&self) -> bool
        ensures { IsTrue result ↔ (All (λ sum. sum ≡ 0) self.now.row.items × All (λ sum. sum ≡ 0) self.now.other.items) }
    {
        self.row.iter().all(|sum| *sum == 0) && self.other.iter().all(|sum| *sum == 0)
    }
}
