ghost use Rattle.std.specs.Prelude.{◌≡◌, ℕ, List, [], ◌∷◌, Option, IfSome, OnOk, IsErrOf};
ghost use Rattle.st_edge.specs.Faults.{HasCause};
ghost use Rattle.st_edge.specs.Shelf.{AsksFor, Loads, SameTexts, SameOtherTexts};

use std::alloc::{AllocError, Global};

/// Why a text was not loaded.
#[derive(Debug, Clone, Copy, PartialEq, Eq)]
pub enum LoadFault {
    /// It cannot be read.
    Failed,
    /// It has more bytes than the limit allows.
    TooLong,
    /// There is no memory for it.
    NoMemory,
}

/// Why a text was not saved.
#[derive(Debug, Clone, Copy, PartialEq, Eq)]
pub enum SaveFault {
    /// It cannot be written.
    Failed,
    /// There is no memory for it.
    NoMemory,
}

impl From<AllocError> for LoadFault {
    ghost use Rattle.st_edge.specs.declared.shelf.LoadFault.TheVariants.{NoMemory};

    ghost from_gives = { λ _ fault. fault ≡ NoMemory };

    fn from(_: AllocError) -> Self {
        LoadFault::NoMemory
    }
}

impl From<AllocError> for SaveFault {
    ghost use Rattle.st_edge.specs.declared.shelf.SaveFault.TheVariants.{NoMemory};

    ghost from_gives = { λ _ fault. fault ≡ NoMemory };

    fn from(_: AllocError) -> Self {
        SaveFault::NoMemory
    }
}

/// Holds texts under names, and counts its faults. A count never falls.
/// In this crate's shelves each count begins at 0 and stands still at 2^64 - 1.
pub trait Shelf {
    /// The text under a name, both as bytes. `None` where there is none, or where the shelf doesn't tell.
    ghost text: { Self → List ℕ → Option (List ℕ) };

    /// The names that it was asked to load, in that order. `None` where the shelf doesn't tell.
    ghost asked: { Self → Option (List (List ℕ)) };

    /// How often a load failed.
    ghost read_faults: { Self → ℕ };

    /// How often a save failed.
    ghost write_faults: { Self → ℕ };

    /// The text under a name, if it has at most `limit` bytes. `Failed` is a fault of reading.
    fn load(&mut self, alloc: Global, name: &str, limit: u64) -> Result<Vec<u8>, LoadFault>
        ensures answer { Loads (text self.old name.now) limit result }
        ensures asked { AsksFor (asked self.old) (asked self.new) (name.now ∷ []) }
        ensures texts { SameTexts (text self.old) (text self.new) }
        ensures cause { HasCause (read_faults self.old) (read_faults self.new) (IsErrOf result LoadFault.Failed) }
        ensures write_faults { write_faults self.new ≡ write_faults self.old };

    /// Puts these bytes under a name, in place of its text. `Failed` is a fault of writing,
    /// and then the name's text may be any.
    fn save(&mut self, name: &str, bytes: &[u8]) -> Result<(), SaveFault>
        ensures saved { OnOk result (IfSome (text self.new name.now) (λ text. text ≡ bytes.now)) }
        ensures others { SameOtherTexts name.now (text self.old) (text self.new) }
        ensures asked { asked self.new ≡ asked self.old }
        ensures no_memory { IsErrOf result SaveFault.NoMemory → SameTexts (text self.old) (text self.new) }
        ensures cause { HasCause (write_faults self.old) (write_faults self.new) (IsErrOf result SaveFault.Failed) }
        ensures read_faults { read_faults self.new ≡ read_faults self.old };
}
