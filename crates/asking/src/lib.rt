// The text side of the program `answers`: words, numbers and lists read from a line, and answers printed.
#![tactic(auto)]

use refusal::Refusal;
use std::fmt;

pub mod front;
pub mod items;
pub mod out;
pub mod read;

// Why a line is no case.
#[derive(Clone, Copy, PartialEq, Eq, Debug)]
pub enum Fault {
    Words,
    Number,
    Large,
    Many,
    Long,
}

impl fmt::Display for Fault {
    fn fmt<W: fmt::Write>(&self, f: &mut fmt::Formatter<W>) -> fmt::Result {
        match self {
            Fault::Words => write!(f, "no such case"),
            Fault::Number => write!(f, "a number is missing, or is none"),
            Fault::Large => write!(f, "too large for its place"),
            Fault::Many => write!(f, "too many"),
            Fault::Long => write!(f, "the line is too long"),
        }
    }
}

// What a question or a change is answered by.
#[derive(Clone, Copy, PartialEq, Eq, Debug)]
pub enum Answer {
    Number(usize),
    Nothing,
    Done,
    Pair(usize, usize),
    Triple(usize, usize, usize),
    Refused(Refusal),
    Bad(Fault),
}

impl fmt::Display for Answer {
    fn fmt<W: fmt::Write>(&self, f: &mut fmt::Formatter<W>) -> fmt::Result {
        match *self {
            Answer::Number(n) => write!(f, "{n}"),
            Answer::Nothing => write!(f, "-"),
            Answer::Done => write!(f, "."),
            Answer::Pair(x, y) => write!(f, "{x}:{y}"),
            Answer::Triple(x, y, z) => write!(f, "{x}:{y}:{z}"),
            Answer::Refused(Refusal::Full(level, block)) => write!(f, "refused:5:{level}:{block}"),
            Answer::Refused(r) => {
                let number = r.number();
                let (carried, _) = r.carried();
                write!(f, "refused:{number}:{carried}")
            }
            Answer::Bad(fault) => write!(f, "? {fault}"),
        }
    }
}

impl From<usize> for Answer {
    fn from(n: usize) -> Answer {
        Answer::Number(n)
    }
}

// A cast, since std has no `From<u32>` for usize.
impl From<u32> for Answer {
    fn from(n: u32) -> Answer {
        Answer::Number(n as usize)
    }
}

// A bit, yes or no.
impl From<bool> for Answer {
    fn from(b: bool) -> Answer {
        Answer::Number(usize::from(b))
    }
}

impl From<()> for Answer {
    fn from(_done: ()) -> Answer {
        Answer::Done
    }
}

impl From<Refusal> for Answer {
    fn from(r: Refusal) -> Answer {
        Answer::Refused(r)
    }
}

impl From<Fault> for Answer {
    fn from(f: Fault) -> Answer {
        Answer::Bad(f)
    }
}

impl<T: Into<Answer>> From<Option<T>> for Answer {
    fn from(found: Option<T>) -> Answer {
        match found {
            Some(x) => x.into(),
            None => Answer::Nothing,
        }
    }
}

impl<T: Into<Answer>, E: Into<Answer>> From<Result<T, E>> for Answer {
    fn from(said: Result<T, E>) -> Answer {
        match said {
            Ok(x) => x.into(),
            Err(e) => e.into(),
        }
    }
}
