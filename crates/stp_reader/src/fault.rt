ghost use Rattle.std.specs.Prelude.{◌≡◌};
ghost use Rattle.stp_reader.specs.declared.fault.ReadError.TheVariants.{NoMemory};
ghost use Rattle.stp_reader.specs.declared.fault.LineError.TheVariants.{NoMemory as NoMemoryForLine, Refused};
ghost use Rattle.stp_reader.specs.Reached.{error_at};

use crate::Reason;
use std::alloc::{AllocError, AllocFailed};

/// What is wrong with an STP file, and at which of its lines; they are numbered from 1.
#[derive(Clone, Copy, Debug, PartialEq, Eq)]
pub struct StpFault {
    pub line: u64,
    pub reason: Reason,
}

/// Why a file wasn't read.
#[derive(Clone, Copy, Debug, PartialEq, Eq)]
pub enum ReadError {
    /// The bytes are the text of no instance.
    Fault(StpFault),
    /// Memory ran out.
    NoMemory,
}

impl From<AllocError> for ReadError {
    ghost from_gives = { λ _ e. e ≡ NoMemory };

    fn from(_e: AllocError) -> ReadError {
        ReadError::NoMemory
    }
}

impl<T: Drop> From<AllocFailed<T>> for ReadError {
    ghost from_gives = { λ _ e. e ≡ NoMemory };

    fn from(_e: AllocFailed<T>) -> ReadError {
        ReadError::NoMemory
    }
}

/// Why a line wasn't taken.
#[derive(Clone, Copy, Debug, PartialEq, Eq)]
pub enum LineError {
    Refused(Reason),
    NoMemory,
}

impl LineError {
    /// Why the file wasn't read, if this was wrong at a line.
    pub fn at(self, line: u64) -> ReadError
        ensures { result ≡ error_at line self }
    {
        match self {
            LineError::Refused(reason) => ReadError::Fault(StpFault { line, reason }),
            LineError::NoMemory => ReadError::NoMemory,
        }
    }
}

impl From<Reason> for LineError {
    ghost from_gives = { λ r e. e ≡ Refused r };

    fn from(reason: Reason) -> LineError {
        LineError::Refused(reason)
    }
}

impl From<AllocError> for LineError {
    ghost from_gives = { λ _ e. e ≡ NoMemoryForLine };

    fn from(_e: AllocError) -> LineError {
        LineError::NoMemory
    }
}

impl<T: Drop> From<AllocFailed<T>> for LineError {
    ghost from_gives = { λ _ e. e ≡ NoMemoryForLine };

    fn from(_e: AllocFailed<T>) -> LineError {
        LineError::NoMemory
    }
}
