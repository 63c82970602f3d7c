// What the library and the slow simulator answer, in one form.
ghost use Rattle.std.specs.Prelude.{◌≡◌, MatchResult};
ghost use Rattle.beside.specs.declared.answer.Answer.TheVariants.{Value, Walked, Refused};
ghost use Rattle.beside.specs.declared.answer.Answer.TheVariants as answer;
ghost use Rattle.beside.specs.declared.answer.Refusal.{Refusal};
ghost use Rattle.beside.specs.declared.answer.Ending.{Ending};
ghost use Rattle.beside.specs.Sides.{slow_point};
ghost use Rattle.beside.specs.Answer.{refusal_of, answered_of, library_refusal, slow_refusal, library_ending, slow_ending};

use explore::Figures;
use levels::Tri;
use record::{Fate, Origin};
use slow::Level;
use std::alloc::AllocError;

// A refusal: the number of the question, its layer, and the place of what is wrong.
#[derive(Clone, Copy, PartialEq, Eq, Debug)]
pub struct Refusal {
    // Why numbers: the two sides share no enum, and what is compared is what a caller sees.
    pub number: u8,
    pub layer: u8,
    pub place: usize,
}

impl From<bundle::Refusal> for Refusal {
    ghost from_gives = { λ refusal r. r ≡ library_refusal refusal };

    fn from(refusal: bundle::Refusal) -> Refusal {
        Refusal {
            number: refusal.number(),
            layer: refusal.layer(),
            place: refusal.place,
        }
    }
}

impl From<slow_tag::Refusal> for Refusal {
    ghost from_gives = { λ refusal r. r ≡ slow_refusal refusal };

    fn from(refusal: slow_tag::Refusal) -> Refusal {
        Refusal {
            number: refusal.number,
            layer: refusal.layer,
            place: refusal.place,
        }
    }
}

// How a walk ends: its budget is spent, no point is open, or one is refused.
#[derive(Clone, Copy, PartialEq, Eq, Debug)]
pub enum Ending {
    Spent,
    Done,
    Refused(Refusal),
}

impl From<explore::Ending> for Ending {
    ghost from_gives = { λ ending e. e ≡ library_ending ending };

    fn from(ending: explore::Ending) -> Ending {
        match ending {
            explore::Ending::Spent => Ending::Spent,
            explore::Ending::Done => Ending::Done,
            explore::Ending::Refused(refusal) => Ending::Refused(refusal.into()),
        }
    }
}

impl From<slow::Ending> for Ending {
    ghost from_gives = { λ ending e. e ≡ slow_ending ending };

    fn from(ending: slow::Ending) -> Ending {
        match ending {
            slow::Ending::Spent => Ending::Spent,
            slow::Ending::Done => Ending::Done,
            slow::Ending::Refused(refusal) => Ending::Refused(refusal.into()),
        }
    }
}

// A value, a peak with a window, the points that a walk took with its ending, or a refusal.
#[derive(Clone, Copy, PartialEq, Debug)]
pub enum Answer {
    Value(u64),
    Figures(u32, u64),
    Walked(usize, Ending),
    Refused(Refusal),
}

impl Answer {
    // The refusal of a question, or of a point in a walk.
    pub fn refusal(self) -> Option<Refusal>
        ensures { result ≡ refusal_of self }
    {
        match self {
            Answer::Refused(refusal) | Answer::Walked(_, Ending::Refused(refusal)) => Some(refusal),
            Answer::Value(_) | Answer::Figures(_, _) | Answer::Walked(_, _) => None,
        }
    }
}

impl From<slow_tag::Refusal> for Answer {
    ghost from_gives = { λ refusal a. a ≡ Refused (slow_refusal refusal) };

    fn from(refusal: slow_tag::Refusal) -> Answer {
        Answer::Refused(refusal.into())
    }
}

impl From<u64> for Answer {
    ghost from_gives = { λ value a. a ≡ Value value };

    fn from(value: u64) -> Answer {
        Answer::Value(value)
    }
}

impl From<Figures> for Answer {
    ghost from_gives = { λ both a. a ≡ answer.Figures both.peak both.window };

    fn from(figures: Figures) -> Answer {
        Answer::Figures(figures.peak, figures.window)
    }
}

// What a call answers.
impl<T: Into<Answer>, E: Into<Refusal>> From<Result<T, E>> for Answer {
    ghost from_gives = { λ given a. MatchResult given (λ value. T.Into.converts value a)
        (λ refusal. (r : Refusal) × E.Into.converts refusal r × (a ≡ Refused r)) };

    fn from(answer: Result<T, E>) -> Answer {
        match answer {
            Ok(value) => value.into(),
            Err(refusal) => Answer::Refused(refusal.into()),
        }
    }
}

// What a walk answers.
impl<E: Into<Ending>> From<(usize, E)> for Answer {
    ghost from_gives = { λ given a. (ending : Ending) × E.Into.converts given.1 ending × (a ≡ Walked given.0 ending) };

    fn from(answer: (usize, E)) -> Answer {
        let (count, ending) = answer;
        Answer::Walked(count, ending.into())
    }
}

// What the slow simulator answers, if it has memory.
pub fn answered<T>(
    answer: Result<T, slow_tag::Stop>,
) -> Result<Result<T, slow_tag::Refusal>, AllocError>
    ensures { result ≡ answered_of answer }
{
    match answer {
        Ok(value) => Ok(Ok(value)),
        Err(slow_tag::Stop::Refused(refusal)) => Ok(Err(refusal)),
        Err(slow_tag::Stop::Memory(error)) => Err(error),
    }
}

// A point of the library's record as the slow simulator has it.
// Why no From: neither type is of this crate. The same holds of a level.
pub(crate) fn point_of(point: &record::Point) -> slow::Point
    ensures { result ≡ slow_point point.now }
{
    slow::Point {
        origin: match point.origin {
            Origin::Start => None,
            Origin::From { point } => Some(point as usize),
        },
        key: point.key as usize,
        charge: point.charge,
        fate: match point.fate {
            Fate::Open => slow::Fate::Open,
            Fate::Walked => slow::Fate::Walked,
            Fate::Cut { to } => slow::Fate::Cut(to as usize),
            Fate::Halted => slow::Fate::Halted,
        },
    }
}

// A level of the library as the slow simulator has it.
pub(crate) fn level_of(level: Tri) -> Level {
    Level {
        zero: level != Tri::One,
        one: level != Tri::Zero,
    }
}
