ghost use Rattle.std.specs.Prelude.{◌≡◌, IfOk};
ghost use Rattle.st_model.specs.Network.{Network};
ghost use Rattle.branching.specs.Node.{IsNode};
ghost use Rattle.search_core.specs.Complete.{IsComplete, IsFinished, untouched};
ghost use Rattle.search_core.specs.State.{root_of};

use crate::root::root_of;
use crate::{Done, End};
use branching::Node;
use cut_packing::Packing;
use st_model::{Branch, Listed, Tree};
use std::alloc::{AllocError, Global};

/// What one worker did, the first first, what it left undone, the best tree that it found, the
/// value that it saw last, and why it ended.
#[derive(Debug, Drop)]
pub struct Segment {
    pub done: Listed<Done>,
    pub left: Listed<Node>,
    pub best: Option<Tree>,
    pub seen: u64,
    pub end: End,
}

/// What is gathered of all workers, and of the queues.
#[derive(Debug, Drop)]
pub struct Gathered {
    pub segments: Listed<Segment>,
    pub queued: Listed<Node>,
    pub least: u64,
    pub claimed: u64,
}

/// One search: the close of an earlier one that it went on from, the cost that it started with,
/// its budget, and what was gathered.
#[derive(Debug, Drop)]
pub struct Searched {
    pub close: u64,
    pub start: u64,
    pub budget: u64,
    pub gathered: Gathered,
}

impl Gathered {
    /// What is gathered of a search with no budget, before any worker began: its first node waits, with
    /// the whole branch and the packing given, and the least cost is that of the start. It is complete
    /// and finished for each instance of which that is a node.
    pub fn untouched(
        alloc: Global,
        branch: &Branch,
        packing: Packing,
        start_cost: u64,
    ) -> Result<Gathered, AllocError>
        ensures gathered { IfOk result (λ all. all ≡ untouched branch.now packing start_cost) }
        ensures complete { (I : Network) → IsNode I (root_of branch.now packing)
            → IfOk result (λ all. IsComplete all I branch.now start_cost 0) }
        ensures finished { (I : Network) → IfOk result (λ all. IsFinished all I branch.now start_cost 0) }
    {
        let first = root_of(alloc, branch, packing)?;
        let queued = vec![in alloc; first]?;
        Ok(Gathered {
            segments: Listed::of(Vec::new(alloc)),
            queued: Listed::of(queued),
            least: start_cost,
            claimed: 0,
        })
    }
}
