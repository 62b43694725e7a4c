//! What can be wrong with a line of a job.
ghost use Rattle.std.specs.Prelude.{◌≡◌};
ghost use Rattle.console.specs.declared.problem.Problem.TheVariants.{OutOfMemory};

use std::alloc::{AllocError, AllocFailed};
use thiserror::Error;

/// What is wrong with a line; where it is one word, with the word's number in the line, the command being word 1.
#[derive(Clone, Copy, PartialEq, Eq, Debug, Error)]
pub enum Problem {
    #[error("no such command")]
    NoSuchCommand,
    #[error("no such arithmetic: it is plain or tracing")]
    NoSuchArithmetic,
    #[error("a word is missing")]
    MissingWord,
    #[error("a word too many")]
    ExtraWord,
    #[error("word {0} is no signed 32-bit number")]
    NotANumber(usize),
    #[error("word {0} is not pairs of hexadecimal digits")]
    NotHexadecimal(usize),
    #[error("the low limit is over the high limit")]
    LowOverHigh,
    #[error("more than 32 readings")]
    TooManyReadings,
    #[error("out of memory")]
    OutOfMemory,
}

// By hand, as the next one: a derived `From` has no contract.
impl From<AllocError> for Problem {
    ghost from_gives = { λ _ r. r ≡ OutOfMemory };

    fn from(_error: AllocError) -> Problem {
        Problem::OutOfMemory
    }
}

impl<T: Drop> From<AllocFailed<T>> for Problem {
    ghost from_gives = { λ _ r. r ≡ OutOfMemory };

    fn from(_refused: AllocFailed<T>) -> Problem {
        Problem::OutOfMemory
    }
}
