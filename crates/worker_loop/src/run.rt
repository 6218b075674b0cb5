ghost use Rattle.std.specs.Prelude.{◌≡◌, ◌∷◌, [], All, IfOk, MatchResult};
ghost use Rattle.std.specs.Option.{option_to_list};
ghost use Rattle.node_pool.specs.Pool.{Station};
ghost use Rattle.worker_loop.specs.declared.work.Work.{Work};
ghost use Rattle.worker_loop.specs.Progress.{HasWorked, SameWorker, moment};
ghost use Rattle.worker_loop.specs.Run.{IsAllowed, IsEnding};
ghost use Rattle.worker_loop.specs.Slots.{Brings, MayRun};

use crate::aim::Aim;
use crate::crew::Crew;
use crate::gate::Gate;
use crate::hint::{Hint, Known};
use crate::turn::Turn;
use crate::work::Work;
use crate::worker::Worker;
use branching::Node;
use open_ledger::Why;
use search_core::{End, Segment};
use std::alloc::AllocError;
use std::sync::Wait;
use std::thread::Threads;

impl<Q: Aim> Worker<Q> {
    /// Takes nodes and works on them until none is open, its claim is refused, or it sees that
    /// another worker halted. Where it is refused memory it tells the others to halt.
    pub fn run<R: Threads + Wait + Sync, G: Gate>(
        &mut self,
        crew: &Crew<'_, R, G>,
    ) -> Result<Segment, AllocError>
        requires ready { MayRun crew.now.whole.now.instance Q.instance Q.branch Q.start self.old }
        ensures same { SameWorker self.old self.new }
        ensures run { IfOk result (Brings Q.instance Q.branch Q.start self.old self.new) }
        ensures sites { IfOk result (λ s. All (IsAllowed self.old.links) s.done) }
    {
        match self.search(crew) {
            Ok(segment) => Ok(segment),
            Err(error) => {
                self.ledger.halt(Why::Memory);
                Err(error)
            }
        }
    }

    // Takes turns until it ends.
    fn search<R: Threads + Wait + Sync, G: Gate>(
        &mut self,
        crew: &Crew<'_, R, G>,
    ) -> Result<Segment, AllocError>
        requires ready { MayRun crew.now.whole.now.instance Q.instance Q.branch Q.start self.old }
        ensures same { SameWorker self.old self.new }
        ensures run { IfOk result (Brings Q.instance Q.branch Q.start self.old self.new) }
        ensures sites { IfOk result (λ s. All (IsAllowed self.old.links) s.done) }
    {
        let mut known = Known::first(crew.hint, crew.start);
        let mut work = Work::begin(crew.alloc, self.best.see());
        let mut hand = None;
        for _ in crew.rt.forever() {
            match self.next_node(crew.rt, crew.hint, hand) {
                Ok(node) => match self.turn(crew, &mut known, node, &mut work)? {
                    Turn::Next(half) => hand = half,
                    Turn::Left(node, end) => return Ok(work.ended(vec![in crew.alloc; node]?, end)),
                },
                Err(end) => return Ok(work.ended(Vec::new(crew.alloc), end)),
            }
        }
        unreachable!()
    }

    // The node in hand, or one of the pool. Err: why the worker ends.
    fn next_node<R: Wait>(&mut self, rt: &R, hint: &Hint, hand: Option<Node>) -> Result<Node, End>
        ensures same { SameWorker self.old self.new }
        ensures refused { self.new.ledger.tally.refused ≡ self.old.ledger.tally.refused }
        ensures next { MatchResult result
            (λ node. (p : Station) (k : Work)
            → HasWorked Q.instance Q.branch Q.start self.old.seat self.old.workers p (moment self.old k)
            (option_to_list hand)
            → HasWorked Q.instance Q.branch Q.start self.old.seat self.old.workers p (moment self.new k) (node ∷ []))
            (λ end. IsEnding end self.new.ledger × ((p : Station) (k : Work)
            → HasWorked Q.instance Q.branch Q.start self.old.seat self.old.workers p (moment self.old k)
            (option_to_list hand)
            → HasWorked Q.instance Q.branch Q.start self.old.seat self.old.workers p (moment self.new k) [])) }
    {
        match hand {
            Some(node) => Ok(node),
            None => self.fetch(rt, hint),
        }
    }
}
