ghost use Rattle.std.specs.Prelude.{◌≡◌};
ghost use Rattle.few_terminals.specs.declared.fault.FewFault.TheVariants.{NoMemory};
ghost use Rattle.few_terminals.specs.Fault.{code_of, name_of};

use std::alloc::AllocError;

/// Why no optimum is given. Of several faults the first counts.
#[derive(Clone, Copy, Debug, PartialEq, Eq)]
pub enum FewFault {
    /// More than twelve vertices have to be reached.
    TooMany,
    /// A vertex that doesn't have to be reached pays where it is left out.
    Prizes,
    /// The table would have more than 67,108,864 cells.
    TooLarge,
    /// Out of memory.
    NoMemory,
}

impl FewFault {
    /// The fault's number, from 1 to 4.
    pub fn code(self) -> u8
        ensures { result ≡ code_of self }
    {
        match self {
            FewFault::TooMany => 1,
            FewFault::Prizes => 2,
            FewFault::TooLarge => 3,
            FewFault::NoMemory => 4,
        }
    }

    /// The fault's name, as it is printed.
    pub fn name(self) -> &'static str
        ensures { result.now ≡ name_of self }
    {
        match self {
            FewFault::TooMany => "TooMany",
            FewFault::Prizes => "Prizes",
            FewFault::TooLarge => "TooLarge",
            FewFault::NoMemory => "NoMemory",
        }
    }
}

impl From<AllocError> for FewFault {
    ghost from_gives = { λ _ e. e ≡ NoMemory };

    fn from(_e: AllocError) -> FewFault {
        FewFault::NoMemory
    }
}
