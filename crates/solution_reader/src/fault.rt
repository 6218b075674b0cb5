ghost use Rattle.std.specs.Prelude.{◌≡◌};
ghost use Rattle.solution_reader.specs.declared.fault.SolError.TheVariants.{NoMemory};
ghost use Rattle.solution_reader.specs.declared.fault.LineError.TheVariants.{NoMemory as NoMemoryForLine, Refused};
ghost use Rattle.solution_reader.specs.Seen.{error_at};

use crate::SolReason;
use std::alloc::{AllocError, AllocFailed};

/// What is wrong with a solution file, and at which of its lines; they are numbered from 1.
#[derive(Clone, Copy, Debug, PartialEq, Eq)]
pub struct SolFault {
    pub line: u64,
    pub reason: SolReason,
}

/// Why a solution file wasn't read.
#[derive(Clone, Copy, Debug, PartialEq, Eq)]
pub enum SolError {
    /// The bytes make no claim.
    Fault(SolFault),
    /// Memory ran out.
    NoMemory,
}

impl From<AllocError> for SolError {
    ghost from_gives = { λ _ e. e ≡ NoMemory };

    fn from(_e: AllocError) -> SolError {
        SolError::NoMemory
    }
}

/// Why a line wasn't taken.
#[derive(Clone, Copy, Debug, PartialEq, Eq)]
pub enum LineError {
    Refused(SolReason),
    NoMemory,
}

impl LineError {
    /// Why the text wasn't read, if this was wrong at a line.
    pub fn at(self, line: u64) -> SolError
        ensures { result ≡ error_at line self }
    {
        match self {
            LineError::Refused(reason) => SolError::Fault(SolFault { line, reason }),
            LineError::NoMemory => SolError::NoMemory,
        }
    }
}

impl From<SolReason> for LineError {
    ghost from_gives = { λ r e. e ≡ Refused r };

    fn from(reason: SolReason) -> LineError {
        LineError::Refused(reason)
    }
}

impl<T: Drop> From<AllocFailed<T>> for LineError {
    ghost from_gives = { λ _ e. e ≡ NoMemoryForLine };

    fn from(_e: AllocFailed<T>) -> LineError {
        LineError::NoMemory
    }
}
