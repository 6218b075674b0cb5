ghost use Rattle.std.specs.Prelude.{◌≡◌, ℕ, IfOk, map, filter, take};
ghost use Rattle.search_core.specs.Accounted.{IsGatheredOf};
ghost use Rattle.search_core.specs.Complete.{IsComplete};
ghost use Rattle.search_core.specs.Settled.{IsSettled, gathered, segment_of, segments_from, left_of, queued, is_left_of};
ghost use Rattle.search_core.specs.Needs.{is_queue};

use crate::copies::{copied_done, copied_node};
use crate::needs::is_queue;
use crate::{Done, Gathered, Made, Place, Search, Segment, Worker};
use branching::Node;
use st_model::Listed;
use std::alloc::{AllocError, Global};

impl Search {
    /// What is gathered of all workers and queues, as it is now. No tree is known of. Where the state
    /// is settled it is complete, and else but for the nodes in hands and the fresh ones.
    pub fn segments(&self) -> Result<Gathered, AllocError>
        ensures gathered { IfOk result (λ all. all ≡ gathered self.now) }
        ensures accounts { IfOk result (IsGatheredOf self.now) }
        ensures complete { IsSettled self.now
            → IfOk result (λ all. IsComplete all self.now.instance self.now.branch self.now.start self.now.budget) }
    {
        let alloc = self.alloc();
        let nodes = self.nodes.as_slice();
        let segments = segments_of(alloc, nodes, &self.workers)?;
        let queued = queued_of(alloc, nodes)?;
        Ok(Gathered {
            segments: Listed::of(segments),
            queued: Listed::of(queued),
            least: self.least,
            claimed: self.claims,
        })
    }
}

// One segment of each worker.
fn segments_of(
    alloc: Global,
    nodes: &[Made],
    workers: &[Worker],
) -> Result<Vec<Segment>, AllocError>
    ensures { IfOk result (λ segments. segments.items ≡ segments_from nodes.now 0 workers.now) }
{
    let mut segments = Vec::new(alloc);
    for (place, worker) in workers.iter().enumerate() {
        segments.push(segment_of(alloc, nodes, place, worker)?)?;
    }
    Ok(segments)
}

// The segment of a worker.
fn segment_of(
    alloc: Global,
    nodes: &[Made],
    w: usize,
    worker: &Worker,
) -> Result<Segment, AllocError>
    ensures { IfOk result (λ segment. segment ≡ segment_of nodes.now w worker.now) }
{
    Ok(Segment {
        done: Listed::of(copied_records(alloc, worker.done.as_slice())?),
        left: Listed::of(left_of(alloc, nodes, w)?),
        best: None,
        seen: worker.seen,
        end: worker.end,
    })
}

// The same records again.
fn copied_records(alloc: Global, records: &[Done]) -> Result<Vec<Done>, AllocError>
    ensures { IfOk result (λ copies. copies.items ≡ records.now) }
{
    let mut copies = Vec::with_capacity(alloc, records.len())?;
    for done in records {
        copies.push(copied_done(alloc, done)?)?;
    }
    Ok(copies)
}

// The nodes that a worker left.
fn left_of(alloc: Global, nodes: &[Made], w: usize) -> Result<Vec<Node>, AllocError>
    ensures { IfOk result (λ left. left.items ≡ left_of nodes.now w) }
{
    let mut left = Vec::new(alloc);
    for made in nodes {
        if is_left_of(w, made.place) {
            left.push(copied_node(alloc, &made.node)?)?;
        }
    }
    Ok(left)
}

// The nodes in queues.
fn queued_of(alloc: Global, nodes: &[Made]) -> Result<Vec<Node>, AllocError>
    ensures { IfOk result (λ all. all.items ≡ queued nodes.now) }
{
    let mut queued = Vec::new(alloc);
    for made in nodes {
        if is_queue(made.place) {
            queued.push(copied_node(alloc, &made.node)?)?;
        }
    }
    Ok(queued)
}

// Whether a place is that of the nodes that a worker left.
fn is_left_of(w: usize, place: Place) -> bool
    ensures { result ≡ is_left_of w place }
{
    match place {
        Place::Left(of) => of as usize == w,
        _ => false,
    }
}
