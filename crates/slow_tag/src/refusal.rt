// What is refused, and where.
ghost use Rattle.std.specs.Prelude.{◌≡◌, true, false, MatchResult};
ghost use Rattle.slow_tag.specs.Questions.{number_of, layer_of};

use std::alloc::AllocError;
use thiserror::Error;

// The questions that are put, in the order of their numbers.
#[derive(Clone, Copy, PartialEq, Eq, Debug)]
pub enum Question {
    // of the bundle
    Header = 1,
    Length,
    Rows,
    Kinds,
    Bodies,
    // of the design
    Clock,
    Cells,
    Nets,
    Words,
    Wires,
    Pilots,
    Starts,
    // of a call
    Memory,
    StartNumber,
    EntryRoom,
    PointRoom,
    OpenRoom,
    Started,
    NoneOpen,
    Width,
    Names,
    Lines,
}

impl Question {
    pub fn number(self) -> u8
        ensures { result ≡ number_of self }
    {
        self as u8
    }

    // 1 for the bundle, 2 for the design, 3 for the calls.
    pub fn layer(self) -> u8
        ensures { result ≡ layer_of (number_of self) }
    {
        layer_of(self.number())
    }
}

impl From<Question> for u8 {
    ghost from_gives = { λ question number. number ≡ number_of question };

    fn from(question: Question) -> u8 {
        question.number()
    }
}

// The layer of the question with this number.
fn layer_of(number: u8) -> u8
    ensures { result ≡ layer_of number }
{
    match number {
        0..=5 => 1,
        6..=12 => 2,
        _ => 3,
    }
}

// A refusal: the number of the question that is answered by no, its layer, and the place of what is wrong.
#[derive(Clone, Copy, PartialEq, Eq, Debug, Error)]
#[error("no to question {number}, at {place}")]
pub struct Refusal {
    pub number: u8,
    pub layer: u8,
    pub place: usize,
}

// What stands in place of an answer: there is no memory, or a question is answered by no.
#[derive(Debug, Drop, Error)]
pub enum Stop {
    #[error(transparent)]
    Memory(#[from(alloc)] AllocError),
    #[error(transparent)]
    Refused(#[from] Refusal),
}

// The refusal of a question, which is given as such or by any number, at a place.
pub fn refuse<N: Into<u8> + Drop>(question: N, place: usize) -> Refusal
    ensures number { N.Into.converts question result.number }
    ensures layer { result.layer ≡ layer_of result.number }
    ensures place { result.place ≡ place }
{
    let number = question.into();
    let layer = layer_of(number);
    Refusal {
        number,
        layer,
        place,
    }
}

// Refused with this question and place, if the answer is no.
pub fn ask<N: Into<u8> + Drop>(yes: bool, question: N, place: usize) -> Result<(), Refusal>
    ensures { MatchResult result (λ _. yes ≡ true)
        (λ e. (yes ≡ false) × N.Into.converts question e.number × (e.layer ≡ layer_of e.number) × (e.place ≡ place)) }
{
    if yes {
        Ok(())
    } else {
        Err(refuse(question, place))
    }
}
