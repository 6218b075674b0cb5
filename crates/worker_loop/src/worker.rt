ghost use Rattle.std.specs.Prelude.{◌≡◌, ◌+◌, ◌<◌, ◌∷◌, [], IfOk, MatchResult, OnOk};
ghost use Rattle.node_pool.specs.Pool.{Moves, SamePass};
ghost use Rattle.worker_loop.specs.Progress.{HasLooked};
ghost use Rattle.worker_loop.specs.Run.{IsEnding};
ghost use Rattle.worker_loop.specs.Sound.{IsSound};

use crate::aim::{Aim, SoundFor};
use crate::hint::Hint;
use branching::Node;
use incumbent::BestSeat;
use node_pool::Pass;
use open_ledger::LedgerSeat;
use search_core::End;
use std::alloc::AllocError;
use std::sync::Wait;
use std::thread;
use std::thread::Parker;
use std::time::Duration;

// After how many looks in vain a worker naps before the next one, and for how many microseconds: it would keep a
// processor busy that others need.
const LOOKS: u32 = 200;

const NAP: u64 = 100;

// And for how many while another worker has all processors.
const NAP_BESIDE: u64 = 1000;

/// A worker of a team: its seat, how many workers there are, whether it may split nodes at links, the
/// next id that it draws, its pass of the pool, and its seats at the ledger and the incumbent.
#[derive(Drop)]
pub struct Worker<Q: Aim> {
    pub seat: u32,
    pub workers: u32,
    pub links: bool,
    pub next: u64,
    pub pass: Pass<SoundFor<Q>>,
    pub ledger: LedgerSeat,
    pub best: BestSeat,
}

impl<Q: Aim> Worker<Q> {
    /// The worker in this seat of so many, which splits nodes at links only if `links` says so. It draws
    /// the ids 1 and its seat, and every so many on.
    pub fn of(
        seat: u32,
        workers: u32,
        links: bool,
        pass: Pass<SoundFor<Q>>,
        ledger: LedgerSeat,
        best: BestSeat,
    ) -> Worker<Q>
        ensures { result ≡ record {
          seat = seat;
          workers = workers;
          links = links;
          next = 1 + seat;
          pass = pass;
          ledger = ledger;
          best = best;
        } }
    {
        Worker {
            seat,
            workers,
            links,
            next: 1 + u64::from(seat),
            pass,
            ledger,
            best,
        }
    }

    /// The pass and the seats of the worker.
    pub fn back(self) -> (Pass<SoundFor<Q>>, LedgerSeat, BestSeat)
        ensures pass { result.0 ≡ self.pass }
        ensures ledger { result.1 ≡ self.ledger }
        ensures best { result.2 ≡ self.best }
    {
        (self.pass, self.ledger, self.best)
    }

    // Takes a node of the pool, and counts as one that looks for it meanwhile. Err: why the worker ends.
    pub(crate) fn fetch<R: Wait>(&mut self, rt: &R, hint: &Hint) -> Result<Node, End>
        ensures seat { (self.new.seat ≡ self.old.seat) × (self.new.workers ≡ self.old.workers)
            × (self.new.next ≡ self.old.next) × (self.new.best ≡ self.old.best) × (self.new.links ≡ self.old.links) }
        ensures same { SamePass self.old.pass self.new.pass }
        ensures looks { HasLooked self.old.ledger self.new.ledger }
        ensures took { MatchResult result (λ node. Moves self.old.pass self.new.pass [] (node ∷ []))
            (λ end. Moves self.old.pass self.new.pass [] [] × IsEnding end self.new.ledger) }
        ensures sound { IfOk result (λ node. IsSound Q.instance Q.branch node) }
    {
        hint.begin_look();
        let taken = self.look(rt, hint);
        hint.end_look();
        taken
    }

    // Looks for a node in the pool until it finds one. Err: why the worker ends.
    fn look<R: Wait>(&mut self, rt: &R, hint: &Hint) -> Result<Node, End>
        ensures seat { (self.new.seat ≡ self.old.seat) × (self.new.workers ≡ self.old.workers)
            × (self.new.next ≡ self.old.next) × (self.new.best ≡ self.old.best) × (self.new.links ≡ self.old.links) }
        ensures same { SamePass self.old.pass self.new.pass }
        ensures looks { HasLooked self.old.ledger self.new.ledger }
        ensures took { MatchResult result (λ node. Moves self.old.pass self.new.pass [] (node ∷ []))
            (λ end. Moves self.old.pass self.new.pass [] [] × IsEnding end self.new.ledger) }
        ensures sound { IfOk result (λ node. IsSound Q.instance Q.branch node) }
    {
        let rest = Parker::new();
        let mut looks: u32 = 0;
        for _ in rt.forever() {
            let taken = self.pass.take(rt);
            if let Some(node) = taken {
                return Ok(node);
            }
            if self.ledger.see_open() == 0 {
                return Err(End::OpenZero);
            }
            if self.ledger.see_halt() {
                return Err(End::HaltSeen);
            }
            if hint.processors.are_taken() {
                rest.park_timeout(rt, Duration::from_micros(NAP_BESIDE));
            } else if looks < LOOKS {
                looks += 1;
                thread::yield_now();
            } else {
                rest.park_timeout(rt, Duration::from_micros(NAP));
            }
        }
        unreachable!()
    }

    // Two new ids. Err: an id would not fit.
    pub(crate) fn draw(&mut self) -> Result<(u64, u64), AllocError>
        ensures same { (self.new.seat ≡ self.old.seat) × (self.new.workers ≡ self.old.workers)
            × (self.new.pass ≡ self.old.pass) × (self.new.ledger ≡ self.old.ledger) × (self.new.best ≡ self.old.best)
            × (self.new.links ≡ self.old.links) }
        ensures ids { IfOk result (λ ids. (ids.0 ≡ self.old.next) × (ids.1 ≡ self.old.next + self.old.workers)) }
        ensures next { OnOk result (self.new.next ≡ self.old.next + self.old.workers + self.old.workers) }
    {
        let step = u64::from(self.workers);
        let first = self.next;
        let second = first.checked_add(step).ok_or(AllocError)?;
        self.next = second.checked_add(step).ok_or(AllocError)?;
        Ok((first, second))
    }

    // Gives a node to the pool: to where others can take it only if they may and find fewer there than look for
    // one, or none, so that the worker goes on with its newest nodes.
    pub(crate) fn give(
        &mut self,
        hint: &Hint,
        node: Node,
        is_shared: bool,
    ) -> Result<(), AllocError>
        requires { IsSound Q.instance Q.branch node }
        ensures same { (self.new.seat ≡ self.old.seat) × (self.new.workers ≡ self.old.workers)
            × (self.new.next ≡ self.old.next) × (self.new.ledger ≡ self.old.ledger) × (self.new.best ≡ self.old.best)
            × (self.new.links ≡ self.old.links) }
        ensures pass { SamePass self.old.pass self.new.pass }
        ensures gave { OnOk result (Moves self.old.pass self.new.pass (node ∷ []) []) }
    {
        let wanted = hint.looks().max(1);
        let given = if is_shared && self.workers > 1 && self.pass.shown() < wanted {
            self.pass.give(node)
        } else {
            self.pass.hold(node)
        };
        match given {
            Ok(()) => Ok(()),
            Err(_) => Err(AllocError),
        }
    }
}
