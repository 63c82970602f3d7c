// What stops the comparison before its end.
use crate::answer::Answer;
use std::alloc::AllocError;
use std::fmt;
use thiserror::Error;

// What differs: a fact that does not hold, or two answers.
#[derive(Clone, Copy, Debug)]
pub enum Difference {
    Fact(&'static str),
    Answers {
        what: &'static str,
        library: Answer,
        slow: Answer,
    },
}

impl fmt::Display for Difference {
    fn fmt<W: fmt::Write>(&self, f: &mut fmt::Formatter<W>) -> fmt::Result {
        match *self {
            Difference::Fact(what) => write!(f, "{what}"),
            Difference::Answers {
                what,
                library,
                slow,
            } => write!(
                f,
                "{what}: the library answers {library:?}, the slow simulator {slow:?}"
            ),
        }
    }
}

// There is no memory, or something differs: what it is.
#[derive(Debug, Drop, Error)]
pub enum Stop {
    #[error("no memory")]
    Memory(#[from(alloc)] AllocError),
    #[error("{0}")]
    Differs(Difference),
}
