use scripts::mistake::{Mistake, ParseError};
use std::alloc::AllocError;
use std::{fmt, io};
use workbench::answer::Misplaced;

// Why a line was not answered. That memory ran out is no error of the line, and ends the program.
#[derive(Drop)]
pub(crate) enum LineError {
    Mistake(Mistake),
    Misplaced(Misplaced),
    NameNoText,
    Unreadable(String),
    Unwritable(String),
    Memory(io::Error),
}

impl From<ParseError> for LineError {
    fn from(error: ParseError) -> LineError {
        match error {
            ParseError::Mistake(mistake) => LineError::Mistake(mistake),
            ParseError::Memory => LineError::Memory(AllocError.into()),
        }
    }
}

impl From<Misplaced> for LineError {
    fn from(misplaced: Misplaced) -> LineError {
        LineError::Misplaced(misplaced)
    }
}

impl From<AllocError> for LineError {
    fn from(error: AllocError) -> LineError {
        LineError::Memory(error.into())
    }
}

impl fmt::Display for LineError {
    fn fmt<W: fmt::Write>(&self, f: &mut fmt::Formatter<W>) -> fmt::Result {
        match self {
            LineError::Mistake(mistake) => write!(f, "{mistake}"),
            LineError::Misplaced(misplaced) => write!(f, "{misplaced}"),
            LineError::NameNoText => write!(f, "the name of the file is no text"),
            LineError::Unreadable(name) => write!(f, "{name} cannot be read"),
            LineError::Unwritable(name) => write!(f, "{name} cannot be written"),
            LineError::Memory(error) => write!(f, "{error}"),
        }
    }
}
