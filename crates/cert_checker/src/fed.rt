ghost use Rattle.std.specs.Prelude.{◌≡◌, [], ◌++◌};

use log_format::Past;
use std::marker::Model;

/// The bytes that were fed. They exist only in proofs, and take no memory.
#[derive(Drop)]
pub struct Fed {
    past: Past,
}

impl Model for Fed {
    ghost use Rattle.std.specs.Prelude.{ℕ, List};
    ghost use Rattle.std.specs.List.{flat_map};

    ghost Value = { List ℕ };

    ghost view = { λ f. flat_map (λ piece. piece) f.past.pieces };
}

impl Fed {
    // No byte.
    pub fn new() -> Fed
        ensures { result ≡ [] }
    {
        Fed { past: Past::new() }
    }

    // Those bytes and some more.
    pub fn note(&mut self, piece: &[u8])
        ensures { self.new ≡ self.old ++ piece.now }
    {
        self.past.note(piece);
    }
}
