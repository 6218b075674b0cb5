ghost use Rattle.std.specs.Prelude.{◌≡◌, [], ◌∷◌, IfOk, IfErr, IsErrOf};
ghost use Rattle.st_edge.specs.Faults.{HasCause};
ghost use Rattle.st_edge.specs.Shelf.{AsksFor, SameTexts};
ghost use Rattle.steiner_top.specs.Causes.{IsLoaded, IsStopped, StopsAtLoad};

use crate::Status;
use st_edge::Shelf;
use std::alloc::Global;

// The greatest length of a text, in bytes.
const LIMIT: u64 = 1 << 34;

/// Loads a text, or says how the run ends without it.
pub fn load<F: Shelf>(alloc: Global, name: &str, shelf: &mut F) -> Result<Vec<u8>, Status>
    ensures loaded { IfOk result (λ bytes. IsLoaded (F.text shelf.old name.now) bytes.items) }
    ensures stopped { IfErr result (IsStopped (name.now ∷ []) (F.text shelf.old)) }
    ensures asked { AsksFor (F.asked shelf.old) (F.asked shelf.new) (name.now ∷ []) }
    ensures first { IfErr result (StopsAtLoad (name.now ∷ []) (F.text shelf.old)
        (F.asked shelf.old) (F.asked shelf.new)) }
    ensures texts { SameTexts (F.text shelf.old) (F.text shelf.new) }
    ensures cause { HasCause (F.read_faults shelf.old) (F.read_faults shelf.new)
        (IsErrOf result Status.ReadFault) }
    ensures write_faults { F.write_faults shelf.new ≡ F.write_faults shelf.old }
{
    match shelf.load(alloc, name, LIMIT) {
        Ok(bytes) => Ok(bytes),
        Err(fault) => Err(Status::from(fault)),
    }
}
