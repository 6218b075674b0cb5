ghost use Rattle.std.specs.Prelude.{◌≡◌, ℕ, List, [], ◌∷◌, ◌++◌};
ghost use Rattle.std.specs.Borrow.{ftrue};

use std::marker::Model;

/// The texts that were read, such as lines, one after the other. They exist only in proofs, and take no
/// memory.
#[derive(Drop)]
pub struct Past {
    pub ghost pieces: { List (List ℕ) },
}

impl Model for Past {
    ghost also_owns = { λ _. ftrue };
}

impl Past {
    /// No text.
    pub fn new() -> Past
        ensures { result.pieces ≡ [] }
    {
        Past {}
    }

    /// Those texts and one more.
    pub fn note(&mut self, _piece: &[u8])
        ensures { self.new.pieces ≡ self.old.pieces ++ _piece.now ∷ [] }
    {}
}
