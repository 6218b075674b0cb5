ghost use Rattle.std.specs.Prelude.{◌≡◌, IfOk, IfSome, false, replicate};
ghost use Rattle.std.specs.Option.{option_copied};
ghost use Rattle.st_model.specs.Branch.{IsBranch, LeavesRequired};
ghost use Rattle.branching.specs.Node.{IsNode};
ghost use Rattle.search_core.specs.Kept.{IsKept};
ghost use Rattle.search_core.specs.State.{beginning, hand, held, made_as, new_worker, no_cuts, root_of, seen};

use crate::nodes::Nodes;
use crate::root::{no_cuts, root_of};
use crate::{End, Made, Place, Records, Worker};
use branching::Node;
use cut_packing::Packing;
use st_model::{Branch, Instance};
use std::alloc::{AllocError, Global};
use std::marker::Model;

/// A search by several workers, between two events.
#[derive(Drop)]
pub struct Search {
    instance: Instance,
    branch: Branch,
    pub(crate) start: u64,
    pub(crate) budget: u64,
    pub(crate) nodes: Nodes,
    pub(crate) workers: Vec<Worker>,
    pub(crate) least: u64,
    pub(crate) claims: u64,
    pub(crate) opened: u64,
    pub(crate) halted: bool,
}

impl Model for Search {
    ghost use Rattle.search_core.specs.State.{State};
    ghost use Rattle.search_core.specs.Kept.{IsKept};

    ghost Value = { State };

    ghost use Rattle.search_core.specs.Seen.{state_of};

    ghost view = { state_of };

    ghost invariant = { λ s. IsKept (state_of s) };
}

impl Search {
    /// A search of a branch before any event: its one node has the whole branch and no cuts, and
    /// stands in the queue of worker 0.
    pub fn begin(
        alloc: Global,
        instance: &Instance,
        branch: &Branch,
        workers: u32,
        budget: u64,
        start_cost: u64,
    ) -> Result<Search, AllocError>
        requires branch { IsBranch instance.now branch.now }
        requires required { LeavesRequired instance.now branch.now }
        ensures { IfOk result (λ search. search ≡ beginning instance.now branch.now no_cuts workers budget start_cost) }
    {
        let packing = no_cuts(alloc);
        let search = Search::begin_at(
            alloc, instance, branch, packing, workers, budget, start_cost,
        )?;
        Ok(search)
    }

    /// A search of a branch before any event that goes on from a packing: its one node has the whole
    /// branch and that packing, and stands in the queue of worker 0.
    pub fn begin_at(
        alloc: Global,
        instance: &Instance,
        branch: &Branch,
        packing: Packing,
        workers: u32,
        budget: u64,
        start_cost: u64,
    ) -> Result<Search, AllocError>
        requires { IsNode instance.now (root_of branch.now packing) }
        ensures { IfOk result
            (λ search. search ≡ beginning instance.now branch.now packing workers budget start_cost) }
    {
        prove!(instance.vertices() >= 1);
        let mut nodes = Nodes::new(alloc);
        nodes.add(queued(root_of(alloc, branch, packing)?))?;
        Ok(Search {
            instance: instance.copied(alloc)?,
            branch: branch.copied(alloc)?,
            start: start_cost,
            budget,
            nodes,
            workers: new_workers(alloc, workers, start_cost)?,
            least: start_cost,
            claims: 0,
            opened: 1,
            halted: false,
        })
    }

    /// The least of the start cost and all offers.
    pub fn least(&self) -> u64
        ensures least { result ≡ self.now.least }
        ensures kept { IsKept self.now }
    {
        self.least
    }

    /// How many nodes are counted as open.
    pub fn open_count(&self) -> u64
        ensures count { result ≡ self.now.opened }
        ensures kept { IsKept self.now }
    {
        self.opened
    }

    pub(crate) fn instance(&self) -> &Instance
        ensures { result.now ≡ self.now.instance }
    {
        &self.instance
    }

    pub(crate) fn workers(&self) -> &[Worker]
        ensures { result.now ≡ self.now.workers }
    {
        &self.workers
    }

    pub(crate) fn alloc(&self) -> Global {
        self.nodes.allocator()
    }

    /// The value that a worker saw last.
    pub(crate) fn seen(&self, w: u32) -> u64
        ensures { result ≡ seen self.now w }
    {
        match self.workers.get(w as usize) {
            Some(worker) => worker.seen,
            None => 0,
        }
    }

    /// The node that was made under an id.
    pub(crate) fn made_as(&self, id: u64) -> Option<&Made>
        ensures { option_copied result ≡ made_as self.now id }
    {
        self.nodes.find(id)
    }

    /// The id of the node in the hand of a worker.
    pub(crate) fn hand(&self, w: u32) -> Option<u64>
        ensures { result ≡ hand self.now w }
    {
        self.workers.get(w as usize)?.hand
    }

    /// The node in the hand of a worker.
    pub(crate) fn held(&self, w: u32) -> Option<&Made>
        ensures made { option_copied result ≡ held self.now w }
        ensures node { IfSome result (λ made. IsNode self.now.instance made.now.node) }
    {
        match self.hand(w) {
            Some(id) => self.nodes.find(id),
            None => None,
        }
    }
}

// A node in the queue of worker 0.
fn queued(node: Node) -> Made
    ensures { result ≡ record { node = node; place = Place.Queue 0; claimed = false } }
{
    Made {
        node,
        place: Place::Queue(0),
        claimed: false,
    }
}

// Workers that have done nothing yet.
fn new_workers(alloc: Global, count: u32, start: u64) -> Result<Vec<Worker>, AllocError>
    ensures { IfOk result (λ workers. workers.items ≡ replicate count (new_worker start)) }
{
    let mut workers = Vec::new(alloc);
    for _ in 0..count {
        workers.push(new_worker(alloc, start))?;
    }
    Ok(workers)
}

// A worker that has done nothing yet.
fn new_worker(alloc: Global, start: u64) -> Worker
    ensures { result ≡ new_worker start }
{
    Worker {
        hand: None,
        seen: start,
        offered: start,
        refused: false,
        up: false,
        closes: 0,
        done: Records::new(alloc),
        end: End::OpenZero,
    }
}
