ghost use Rattle.std.specs.Prelude.{◌≡◌, Some};
ghost use Rattle.scripts.specs.Mistakes.{wrong};
ghost use Rattle.scripts.specs.declared.mistake.ParseError.TheVariants as error;

use std::alloc::{AllocError, AllocFailed};
use std::fmt;

// What is wrong with a line. Its words are judged from left to right, and the first fault is told. What they mean
// together, a fill that is no end of the kind or chip settings inverted, is judged last, when the whole line was read.
#[derive(Clone, Copy, PartialEq, Eq, Debug)]
pub enum Mistake {
    UnknownCall,
    MissingWord,
    SurplusWord,
    NotANumber,
    TooLarge,
    UnknownJoining,
    UnknownLevel,
    UnknownKind,
    InvertedSettings,
    NoEnd,
}

// Why a line was not read: no option, but two errors, of which one ends the program.
#[derive(Clone, Copy, PartialEq, Eq, Debug)]
pub enum ParseError {
    Memory,
    Mistake(Mistake),
}

impl From<AllocError> for ParseError {
    ghost from_gives = { λ _ e. e ≡ error.Memory };

    fn from(_error: AllocError) -> ParseError {
        ParseError::Memory
    }
}

impl<T: Drop> From<AllocFailed<T>> for ParseError {
    ghost from_gives = { λ _ e. e ≡ error.Memory };

    fn from(_error: AllocFailed<T>) -> ParseError {
        ParseError::Memory
    }
}

impl From<Mistake> for ParseError {
    ghost from_gives = { λ m e. e ≡ error.Mistake m };

    fn from(mistake: Mistake) -> ParseError {
        ParseError::Mistake(mistake)
    }
}

impl fmt::Display for Mistake {
    ghost output = { λ m. Some (wrong m) };

    fn fmt<W: fmt::Write>(&self, f: &mut fmt::Formatter<W>) -> fmt::Result {
        match self {
            Mistake::UnknownCall => write!(f, "no such call"),
            Mistake::MissingWord => write!(f, "a word is missing"),
            Mistake::SurplusWord => write!(f, "a word too many"),
            Mistake::NotANumber => write!(f, "not a number"),
            Mistake::TooLarge => write!(f, "a number too large for its place"),
            Mistake::UnknownJoining => write!(f, "not both, either, differ or overlay"),
            Mistake::UnknownLevel => write!(f, "not low or high"),
            Mistake::UnknownKind => write!(f, "not bits, settings or ranges"),
            Mistake::InvertedSettings => write!(f, "chip settings cannot be inverted"),
            Mistake::NoEnd => write!(f, "the fill is no end of the kind"),
        }
    }
}
