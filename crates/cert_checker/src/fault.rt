ghost use Rattle.std.specs.Prelude.{◌≡◌};
ghost use Rattle.cert_checker.specs.declared.fault.JudgeError.TheVariants.{NoMemory};
ghost use Rattle.cert_checker.specs.Fault.{fault_of_file};

use log_format::{Kind, LogFault};
use std::alloc::AllocError;
use stp_reader::StpFault;

/// Why a log was not found right.
#[derive(Clone, Copy, Debug, PartialEq, Eq)]
pub enum JudgeError {
    /// The first check that fails.
    Fault(LogFault),
    /// Memory ran out.
    NoMemory,
}

impl From<AllocError> for JudgeError {
    ghost from_gives = { λ _ e. e ≡ NoMemory };

    fn from(_e: AllocError) -> JudgeError {
        JudgeError::NoMemory
    }
}

impl JudgeError {
    // The fault of this kind at a line.
    pub(crate) fn at(line: u64, kind: Kind) -> Self
        ensures { result ≡ JudgeError.Fault (record { line = line; kind = kind }) }
    {
        JudgeError::Fault(LogFault { line, kind })
    }
}

/// Why nothing may be concluded.
#[derive(Clone, Copy, Debug, PartialEq, Eq)]
pub enum CheckFault {
    /// What is wrong with the file.
    Stp(StpFault),
    /// What is wrong with the text of the log, or with what it says of the file's instance.
    Log(LogFault),
    /// Memory ran out.
    NoMemory,
}

impl From<stp_reader::ReadError> for CheckFault {
    ghost from_gives = { λ e fault. fault ≡ fault_of_file e };

    fn from(e: stp_reader::ReadError) -> CheckFault {
        match e {
            stp_reader::ReadError::Fault(fault) => CheckFault::Stp(fault),
            stp_reader::ReadError::NoMemory => CheckFault::NoMemory,
        }
    }
}

impl From<AllocError> for CheckFault {
    ghost use Rattle.cert_checker.specs.declared.fault.CheckFault.TheVariants as check_fault;

    ghost from_gives = { λ _ fault. fault ≡ check_fault.NoMemory };

    fn from(_e: AllocError) -> CheckFault {
        CheckFault::NoMemory
    }
}
