ghost use Rattle.std.specs.Prelude.{◌≡◌};
ghost use Rattle.log_format.specs.Laws.{migrated};
ghost use Rattle.log_format.specs.Reading.{version_with};
ghost use Rattle.log_format.specs.Text.{header};

use crate::Proof;
use lift_back::Step;
use st_model::{Listed, Tree};

/// Which lines a log may have: those of splits at links stand in version 2 alone.
#[derive(Clone, Copy, Debug, PartialEq, Eq)]
pub enum Version {
    One,
    Two,
}

impl Version {
    /// The first line of a log of this version.
    pub(crate) fn header(self) -> &'static [u8]
        ensures { result.now ≡ header self }
    {
        match self {
            Version::One => b"STEINERLOG 1",
            Version::Two => b"STEINERLOG 2",
        }
    }
}

/// The version of a log that goes on with a line: the first line says it, and version 1 stands for
/// none.
pub(crate) fn version_with(version: Version, is_first: bool, line: &[u8]) -> Version
    ensures { result ≡ version_with version is_first line.now }
{
    if !is_first {
        return version;
    }
    if line == Version::Two.header() {
        Version::Two
    } else {
        Version::One
    }
}

/// A certificate: what is claimed of an instance, and why.
#[derive(Debug, Drop)]
pub struct Log {
    pub version: Version,
    pub claim: Claim,
}

/// What a log claims of an instance.
#[derive(Debug, Drop)]
pub enum Claim {
    /// A tree of cost `primal`, and a proof that no tree costs less than `dual`: reduction steps,
    /// and a proof tree of what they leave.
    Found {
        primal: u64,
        dual: u64,
        tree: Tree,
        steps: Listed<Step>,
        proof: Proof,
    },
    /// No tree: a set of vertices that some required vertex is in and some is out of, and that no
    /// link leaves.
    NoTree {
        wall: Listed<u32>,
    },
}

/// The same log in version 2.
pub fn migrate(log: Log) -> Log
    ensures { result ≡ migrated log }
{
    Log {
        version: Version::Two,
        claim: log.claim,
    }
}
