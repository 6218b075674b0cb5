ghost use Rattle.std.specs.Prelude.{◌≡◌};
ghost use Rattle.log_format.specs.declared.fault.LineError.TheVariants.{NoMemory};

use crate::Kind;
use std::alloc::{AllocError, AllocFailed};

/// Why a line of a log wasn't taken.
#[derive(Clone, Copy, Debug, PartialEq, Eq)]
pub enum LineError {
    /// The line may not stand at its place.
    BadLine,
    /// Memory ran out, or 64 bits to count the halves of a proof that wait.
    NoMemory,
}

impl From<AllocError> for LineError {
    ghost from_gives = { λ _ e. e ≡ NoMemory };

    fn from(_e: AllocError) -> LineError {
        LineError::NoMemory
    }
}

impl<T: Drop> From<AllocFailed<T>> for LineError {
    ghost from_gives = { λ _ e. e ≡ NoMemory };

    fn from(_e: AllocFailed<T>) -> LineError {
        LineError::NoMemory
    }
}

/// What is wrong with a log, and at which of its lines; they are numbered from 1.
#[derive(Clone, Copy, Debug, PartialEq, Eq)]
pub struct LogFault {
    pub line: u64,
    pub kind: Kind,
}

/// Why a log wasn't read.
#[derive(Clone, Copy, Debug, PartialEq, Eq)]
pub enum ReadError {
    /// The bytes are the text of no log.
    Fault(LogFault),
    /// Memory ran out.
    NoMemory,
}
