ghost use Rattle.std.specs.Prelude.{◌≡◌};
ghost use Rattle.steiner_top.specs.declared.outcome.SolveFault.TheVariants.{NoMemory};
ghost use Rattle.steiner_top.specs.Outcome.{certificate_of, fault_of_file};

use amounts::Scale;
use log_format::Log;
use search_core::Searched;
use st_model::{Listed, Tree};
use std::alloc::AllocError;
use stp_reader::{ReadError, StpFault};

/// What solving a file gave.
#[derive(Debug, Drop)]
pub enum Outcome {
    /// A tree of cost `primal`, and that no tree costs less than `dual`; how many nodes were
    /// expanded, the searches that found it, and what costs count.
    Found {
        tree: Tree,
        primal: u64,
        dual: u64,
        expanded: u64,
        searches: Listed<Searched>,
        certificate: Log,
        scale: Scale,
    },
    /// The same of a directed file, whose search is by one worker.
    Directed {
        tree: Tree,
        primal: u64,
        dual: u64,
        expanded: u64,
        certificate: Log,
        scale: Scale,
    },
    /// There is no tree.
    NoTree {
        certificate: Log,
    },
}

impl Outcome {
    /// The log that shows it.
    pub fn certificate(&self) -> &Log
        ensures { result.now ≡ certificate_of self.now }
    {
        match self {
            Outcome::Found { certificate, .. }
            | Outcome::Directed { certificate, .. }
            | Outcome::NoTree { certificate } => certificate,
        }
    }
}

/// Why a file wasn't solved.
#[derive(Clone, Copy, Debug, PartialEq, Eq)]
pub enum SolveFault {
    /// What is wrong with the file.
    Stp(StpFault),
    /// Memory ran out.
    NoMemory,
}

impl From<AllocError> for SolveFault {
    ghost from_gives = { λ _ fault. fault ≡ NoMemory };

    fn from(_: AllocError) -> Self {
        SolveFault::NoMemory
    }
}

impl From<ReadError> for SolveFault {
    ghost from_gives = { λ e fault. fault ≡ fault_of_file e };

    fn from(e: ReadError) -> Self {
        match e {
            ReadError::Fault(fault) => SolveFault::Stp(fault),
            ReadError::NoMemory => SolveFault::NoMemory,
        }
    }
}
