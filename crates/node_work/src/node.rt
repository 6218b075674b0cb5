ghost use Rattle.std.specs.Prelude.{◌≡◌};
ghost use Rattle.node_work.specs.Node.{no_cuts};

use branching::Node;
use cut_packing::Packing;
use st_model::{Listed, Sides};
use std::alloc::Global;

/// A node that is worked on: its branch is ready to be looked at, its cuts have a root, and it splits at
/// the vertex given where nothing tells of a better one.
#[derive(Drop)]
pub struct OpenNode {
    pub id: u64,
    pub branch: Sides,
    pub packing: Packing,
    pub root: u32,
    pub given: u32,
}

/// The node of a branch.
pub fn node_of(id: u64, branch: Sides, packing: Packing) -> Node
    ensures { result ≡ record { id = id; branch = branch; packing = packing } }
{
    Node {
        id,
        branch: branch.into_branch(),
        packing,
    }
}

/// A packing without cuts.
pub fn no_cuts(alloc: Global) -> Packing
    ensures { result ≡ no_cuts }
{
    Packing {
        root: None,
        cuts: Listed::of(Vec::new(alloc)),
    }
}
