ghost use Rattle.std.specs.Prelude.{◌≡◌, IfOk};
ghost use Rattle.search_core.specs.State.{no_cuts, root_of};

use branching::Node;
use cut_packing::Packing;
use st_model::{Branch, Listed};
use std::alloc::{AllocError, Global};

/// The node that a search of a branch begins with: the whole branch under the number 0, with this
/// packing.
pub fn root_of(alloc: Global, branch: &Branch, packing: Packing) -> Result<Node, AllocError>
    ensures { IfOk result (λ node. node ≡ root_of branch.now packing) }
{
    Ok(Node {
        id: 0,
        branch: branch.copied(alloc)?,
        packing,
    })
}

/// A packing without cuts.
pub fn no_cuts(alloc: Global) -> Packing
    ensures { result ≡ no_cuts }
{
    Packing {
        root: None,
        cuts: Listed::of(Vec::new(alloc)),
    }
}
