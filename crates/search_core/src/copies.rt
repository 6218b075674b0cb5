ghost use Rattle.std.specs.Prelude.{◌≡◌, IfOk};

use crate::Done;
use branching::Node;
use std::alloc::{AllocError, Global};

/// The same record again.
pub fn copied_done(alloc: Global, done: &Done) -> Result<Done, AllocError>
    ensures { IfOk result (λ copy. copy ≡ done.now) }
{
    match done {
        Done::Split {
            id,
            at,
            inside,
            outside,
            packing,
        } => Ok(Done::Split {
            id: *id,
            at: *at,
            inside: *inside,
            outside: *outside,
            packing: packing.shared(alloc)?,
        }),
        Done::Close { id, packing } => Ok(Done::Close {
            id: *id,
            packing: packing.shared(alloc)?,
        }),
    }
}

/// The same node again.
pub fn copied_node(alloc: Global, node: &Node) -> Result<Node, AllocError>
    ensures { IfOk result (λ copy. copy ≡ node.now) }
{
    Ok(Node {
        id: node.id,
        branch: node.branch.copied(alloc)?,
        packing: node.packing.shared(alloc)?,
    })
}
