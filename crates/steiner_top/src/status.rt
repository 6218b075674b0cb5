ghost use Rattle.std.specs.Prelude.{◌≡◌};
ghost use Rattle.steiner_top.specs.Output.{line_of, code_of, status_of_verdict};
ghost use Rattle.steiner_top.specs.Causes.{status_of_words, status_of_load, status_of_save};

use cert_checker::Verdict;
use command_line::WordFault;
use st_edge::{LoadFault, SaveFault};
use std::alloc::AllocError;

/// How a run ended.
#[derive(Clone, Copy, Debug, PartialEq, Eq)]
pub enum Status {
    /// A best tree was sent, or its cost, or a log shows that its tree is best; or a drawn instance was sent.
    Optimal,
    /// The words are no command.
    Usage,
    /// A tree, or its cost, and a bound below it were sent, the whole budget being spent, or a log shows them.
    Budget,
    /// The file's instance has no tree, or a log shows that.
    Infeasible,
    /// The file can't be read as an instance.
    RefusedFile,
    /// The log isn't accepted.
    RefusedLog,
    /// The shelf failed to load a text.
    ReadFault,
    /// The shelf failed to save the log, or the sink to take the output.
    WriteFault,
    /// Memory ran out; nothing was saved or sent.
    NoMemory,
    /// A text is longer than 2^34 bytes.
    TooLong,
    /// The file's instance has more than few terminals, or prizes, or is too large for the table.
    NotFew,
    /// The solution's claim isn't a tree of the file's instance that costs what it says.
    NotTree,
    /// The bytes are no solution.
    RefusedSolution,
}

impl Status {
    /// The exit code of the program.
    pub fn code(self) -> u8
        ensures { result ≡ code_of self }
    {
        match self {
            Status::Optimal => 0,
            Status::Usage => 2,
            Status::Budget => 3,
            Status::Infeasible => 4,
            Status::RefusedFile => 5,
            Status::RefusedLog => 6,
            Status::ReadFault => 7,
            Status::WriteFault => 8,
            Status::NoMemory => 9,
            Status::TooLong => 10,
            Status::NotFew => 11,
            Status::NotTree => 12,
            Status::RefusedSolution => 13,
        }
    }

    // What is sent where the status alone says it.
    pub(crate) fn line(self) -> &'static str
        ensures { result.now ≡ line_of self }
    {
        match self {
            Status::Usage => {
                "usage: steiner solve FILE [--workers W] [--nodes N] [--log NAME] [--plain] [--links] | check FILE LOG | gen SEED N M T [--prizes] | trial SEED N M T [--workers W] | few FILE | verify FILE SOLUTION | resume FILE LOG [--workers W] [--nodes N] [--log NAME]\n"
            }
            Status::ReadFault => "read fault\n",
            Status::TooLong => "too long\n",
            Status::Optimal
            | Status::Budget
            | Status::Infeasible
            | Status::RefusedFile
            | Status::RefusedLog
            | Status::WriteFault
            | Status::NoMemory
            | Status::NotFew
            | Status::NotTree
            | Status::RefusedSolution => "",
        }
    }

    // The status with which a verdict ends a run.
    pub(crate) fn of(verdict: Verdict) -> Status
        ensures { result ≡ status_of_verdict verdict }
    {
        match verdict {
            Verdict::Optimal(_) => Status::Optimal,
            Verdict::Bound { .. } => Status::Budget,
            Verdict::NoTree => Status::Infeasible,
        }
    }
}

impl From<AllocError> for Status {
    ghost use Rattle.steiner_top.specs.declared.status.Status.TheVariants.{NoMemory};

    ghost from_gives = { λ _ status. status ≡ NoMemory };

    fn from(_: AllocError) -> Self {
        Status::NoMemory
    }
}

impl From<WordFault> for Status {
    ghost from_gives = { λ fault status. status ≡ status_of_words fault };

    fn from(fault: WordFault) -> Self {
        match fault {
            WordFault::Usage => Status::Usage,
            WordFault::NoMemory => Status::NoMemory,
        }
    }
}

impl From<LoadFault> for Status {
    ghost from_gives = { λ fault status. status ≡ status_of_load fault };

    fn from(fault: LoadFault) -> Self {
        match fault {
            LoadFault::Failed => Status::ReadFault,
            LoadFault::TooLong => Status::TooLong,
            LoadFault::NoMemory => Status::NoMemory,
        }
    }
}

impl From<SaveFault> for Status {
    ghost from_gives = { λ fault status. status ≡ status_of_save fault };

    fn from(fault: SaveFault) -> Self {
        match fault {
            SaveFault::Failed => Status::WriteFault,
            SaveFault::NoMemory => Status::NoMemory,
        }
    }
}
