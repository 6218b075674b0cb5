ghost use Rattle.std.specs.Prelude.{◌≡◌, ◌≤◌, ◌∷◌, [], All, IfOk, OnOk};
ghost use Rattle.std.specs.Option.{option_to_list};
ghost use Rattle.st_model.specs.Network.{IsInstance};
ghost use Rattle.cut_packing.specs.ProofTree.{IsSplitAt};
ghost use Rattle.node_pool.specs.Pool.{Station};
ghost use Rattle.search_core.specs.declared.done.Done.{Done};
ghost use Rattle.worker_loop.specs.Progress.{Adopts, HasTurned, HasWorked, IsAim, IsClosed, IsHalved, IsWorkedOn, SameWorker, moment};
ghost use Rattle.worker_loop.specs.Run.{IsAllowed};
ghost use Rattle.worker_loop.specs.Sound.{IsSound};

use crate::aim::Aim;
use crate::crew::Crew;
use crate::gate::Gate;
use crate::hint::Known;
use crate::work::Work;
use crate::worker::Worker;
use better_trees::{Incumbent, Priced};
use branching::{Node, halves_at};
use cut_packing::Packing;
use node_work::{End, Manner, Step, expand};
use open_ledger::Why;
use search_core::{Done, End as Ending};
use st_model::SplitAt;
use std::alloc::AllocError;
use std::sync::Wait;
use std::thread::Threads;

// Of how many nodes, the first that a worker works on, it keeps the other halves, but for the root's. What splits
// high up is best worked on once good trees are known, which lie further down; by then others find nodes there.
const KEPT: usize = 5;

/// How a turn ends.
#[derive(Drop)]
pub enum Turn {
    /// The worker goes on, with this node in hand if there is one.
    Next(Option<Node>),
    /// The worker ends, and leaves this node undone.
    Left(Node, Ending),
}

impl<Q: Aim> Worker<Q> {
    // One turn with a node in hand.
    pub(crate) fn turn<R: Threads + Wait + Sync, G: Gate>(
        &mut self,
        crew: &Crew<'_, R, G>,
        known: &mut Known<'_>,
        node: Node,
        work: &mut Work,
    ) -> Result<Turn, AllocError>
        requires whole { crew.now.whole.now.instance ≡ Q.instance }
        requires aim { IsAim Q.instance Q.branch Q.start }
        requires node { IsSound Q.instance Q.branch node }
        requires low { self.old.best.lowest ≤ Q.start }
        requires unrefused { self.old.ledger.tally.refused ≡ 0 }
        ensures same { SameWorker self.old self.new }
        ensures turned { IfOk result (λ t. (p : Station)
            → HasWorked Q.instance Q.branch Q.start self.old.seat self.old.workers p (moment self.old work.old)
            (node ∷ [])
            → HasTurned Q.instance Q.branch Q.start self.old.seat self.old.workers p (moment self.new work.new) t) }
        ensures sites { OnOk result (All (IsAllowed self.old.links) work.old.done.items
            → All (IsAllowed self.old.links) work.new.done.items) }
    {
        if self.ledger.see_halt() {
            return Ok(Turn::Left(node, Ending::HaltSeen));
        }
        if !self.ledger.claim() {
            self.ledger.halt(Why::Refused);
            return Ok(Turn::Left(node, Ending::ClaimRefused));
        }
        crew.gate.at(self.seat, node.id);
        let half = self.work_on(crew, known, node, work)?;
        Ok(Turn::Next(half))
    }

    // Works on a node that was claimed: the half to go on with, if it was split.
    fn work_on<R: Threads + Wait + Sync, G: Gate>(
        &mut self,
        crew: &Crew<'_, R, G>,
        known: &mut Known<'_>,
        node: Node,
        work: &mut Work,
    ) -> Result<Option<Node>, AllocError>
        requires whole { crew.now.whole.now.instance ≡ Q.instance }
        requires aim { IsAim Q.instance Q.branch Q.start }
        requires node { IsSound Q.instance Q.branch node }
        requires low { self.old.best.lowest ≤ Q.start }
        ensures same { SameWorker self.old self.new }
        ensures worked { IfOk result (λ half. (d : Done) × IsWorkedOn Q.instance Q.branch Q.start self.old.seat
            self.old.workers node (moment self.old work.old) (moment self.new work.new) (option_to_list half) d
            × IsAllowed self.old.links d) }
    {
        let id = node.id;
        work.seen = self.best.see();
        known.catch_up(crew.alloc, work.seen)?;
        let plan = known.plan.take();
        let has_all = known.take_processors(&crew.whole.store, &node);
        let manner = Manner {
            threads: if has_all { self.workers as usize } else { 1 },
            links: self.links,
        };
        let incumbent = Incumbent {
            tree: known.tree(),
            cost: work.seen,
        };
        let step = expand(
            crew.rt, crew.alloc, crew.whole, node, &incumbent, plan, manner,
        );
        known.give_back(has_all);
        let Step { better, end } = step?;
        known.show(crew.alloc, &better)?;
        self.adopt(better, work);
        match end {
            End::Close(packing) => {
                self.close(id, packing, work)?;
                Ok(None)
            }
            End::Split(node, at, plan) => {
                let is_planned = plan.is_some();
                known.plan = plan;
                let half = self.split(crew, id, node, at, is_planned, work)?;
                Ok(Some(half))
            }
        }
    }

    // Keeps a better tree, if there is one, and then offers what it costs.
    fn adopt(&mut self, better: Option<Priced>, work: &mut Work)
        ensures same { (self.new.seat ≡ self.old.seat) × (self.new.workers ≡ self.old.workers)
            × (self.new.next ≡ self.old.next) × (self.new.pass ≡ self.old.pass) × (self.new.ledger ≡ self.old.ledger)
            × (self.new.links ≡ self.old.links) }
        ensures adopts { Adopts better self.old.best self.new.best work.old work.new }
    {
        if let Some(Priced { tree, price }) = better {
            work.best = Some(tree);
            work.seen = self.best.offer(price);
        }
    }

    // Records that the node under an id was closed, after which one less is open.
    fn close(&mut self, id: u64, packing: Packing, work: &mut Work) -> Result<(), AllocError>
        ensures same { SameWorker self.old self.new }
        ensures closed { OnOk result (IsClosed id packing (moment self.old work.old) (moment self.new work.new)) }
    {
        work.done.push(Done::Close { id, packing })?;
        self.ledger.down();
        Ok(())
    }

    // Splits the node under an id, with the packing with which its halves begin: answers the half to
    // go on with, the one that says no where there is a plan and else the one that says yes, and gives the
    // other one to the pool.
    fn split<R, G>(
        &mut self,
        crew: &Crew<'_, R, G>,
        id: u64,
        node: Node,
        at: SplitAt,
        is_planned: bool,
        work: &mut Work,
    ) -> Result<Node, AllocError>
        requires node { IsSound Q.instance Q.branch node }
        requires split { IsSplitAt Q.instance node.branch at }
        requires instance { IsInstance Q.instance }
        ensures same { SameWorker self.old self.new }
        ensures halved { IfOk result (IsHalved self.old.workers id node at is_planned
            (moment self.old work.old) (moment self.new work.new)) }
    {
        self.ledger.up();
        let (first, second) = self.draw()?;
        let packing = node.packing.shared(crew.alloc)?;
        let Ok((yes, no)) = halves_at(crew.alloc, node, at, first, second) else {
            return Err(AllocError);
        };
        work.done.push(Done::Split {
            id,
            at,
            inside: first,
            outside: second,
            packing,
        })?;
        let (half, other) = if is_planned { (no, yes) } else { (yes, no) };
        let is_shared = is_for_others(id, work.done.len());
        self.give(crew.hint, other, is_shared)?;
        Ok(half)
    }
}

// Whether others may take the other half of the node under an id, which is the last of so many that a worker has
// split or closed.
fn is_for_others(id: u64, worked_on: usize) -> bool {
    id == 0 || worked_on > KEPT
}
