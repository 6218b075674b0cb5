ghost use Rattle.std.specs.Prelude.{◌≡◌, None, []};

use branching::Node;
use search_core::{Done, End, Segment};
use st_model::{Listed, Tree};
use std::alloc::Global;

/// What a worker has to bring back: the records of what it did, the best tree that it found, and
/// the value that it saw last.
#[derive(Drop)]
pub struct Work {
    pub done: Vec<Done>,
    pub best: Option<Tree>,
    pub seen: u64,
}

impl Work {
    /// No work, of a worker that has seen this value.
    pub fn begin(alloc: Global, seen: u64) -> Work
        ensures done { result.done.items ≡ [] }
        ensures best { result.best ≡ None }
        ensures seen { result.seen ≡ seen }
    {
        Work {
            done: Vec::new(alloc),
            best: None,
            seen,
        }
    }

    /// The work as it is brought back at the end, with the nodes that are left undone.
    pub fn ended(self, left: Vec<Node>, end: End) -> Segment
        ensures { result ≡ record {
          done = self.done.items;
          left = left.items;
          best = self.best;
          seen = self.seen;
          end = end;
        } }
    {
        let Work { done, best, seen } = self;
        Segment {
            done: Listed::of(done),
            left: Listed::of(left),
            best,
            seen,
            end,
        }
    }
}
