ghost use Rattle.std.specs.Prelude.{◌≡◌};
ghost use Rattle.solution_reader.specs.declared.verify_fault.VerifyFault.TheVariants.{NoMemory};
ghost use Rattle.solution_reader.specs.Stated.{number_of, fault_name};

use std::alloc::{AllocError, AllocFailed};

/// Why a claim isn't a tree of an instance that costs what it says.
#[derive(Clone, Copy, Debug, PartialEq, Eq)]
pub enum VerifyFault {
    /// There is no vertex.
    Empty,
    /// A vertex isn't one of 1 to n.
    OutOfRange,
    /// An edge isn't a link.
    NoLink,
    /// An edge stands twice, in either direction.
    Repeated,
    /// The edges don't join all vertices.
    NotConnected,
    /// There are no fewer edges than vertices.
    Cycle,
    /// A required vertex isn't there.
    Missing,
    /// The stated primal isn't the cost.
    CostDiffers,
    /// Memory ran out.
    NoMemory,
}

impl VerifyFault {
    /// The fault's number, from 1 to 8; 0 where memory ran out. Of several faults the lowest counts.
    pub fn number(self) -> u8
        ensures { result ≡ number_of self }
    {
        match self {
            VerifyFault::Empty => 1,
            VerifyFault::OutOfRange => 2,
            VerifyFault::NoLink => 3,
            VerifyFault::Repeated => 4,
            VerifyFault::NotConnected => 5,
            VerifyFault::Cycle => 6,
            VerifyFault::Missing => 7,
            VerifyFault::CostDiffers => 8,
            VerifyFault::NoMemory => 0,
        }
    }

    /// The fault's name, as it is printed.
    pub fn name(self) -> &'static str
        ensures { result.now ≡ fault_name self }
    {
        match self {
            VerifyFault::Empty => "Empty",
            VerifyFault::OutOfRange => "OutOfRange",
            VerifyFault::NoLink => "NoLink",
            VerifyFault::Repeated => "Repeated",
            VerifyFault::NotConnected => "NotConnected",
            VerifyFault::Cycle => "Cycle",
            VerifyFault::Missing => "Missing",
            VerifyFault::CostDiffers => "CostDiffers",
            VerifyFault::NoMemory => "NoMemory",
        }
    }
}

impl From<AllocError> for VerifyFault {
    ghost from_gives = { λ _ e. e ≡ NoMemory };

    fn from(_e: AllocError) -> VerifyFault {
        VerifyFault::NoMemory
    }
}
