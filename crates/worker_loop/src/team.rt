ghost use Rattle.std.specs.Prelude.{◌≡◌, ◌++◌, ◌∷◌, [], ◌<◌, All, IfOk, IsOk, OnOk, Some, length, map};
ghost use Rattle.worker_loop.specs.Progress.{IsAim, IsUnused};
ghost use Rattle.worker_loop.specs.Slots.{AreSeated, HasRunIn, HaveRunIn, MayRun, account_of, pass_of, segment_of, sight_of};

use crate::aim::{Aim, SoundFor};
use crate::crew::Crew;
use crate::gate::Gate;
use crate::worker::Worker;
use incumbent::BestSeat;
use node_pool::Pass;
use open_ledger::LedgerSeat;
use search_core::Segment;
use std::alloc::{AllocError, Global};
use std::sync::Wait;
use std::thread;
use std::thread::Threads;

/// A worker, and what it brought back, unless it was refused memory.
#[derive(Drop)]
pub struct Slot<Q: Aim> {
    pub worker: Worker<Q>,
    pub segment: Option<Segment>,
}

/// What a team hands back: its passes, its seats, and what each worker brought.
#[derive(Drop)]
pub struct Returned<Q: Aim> {
    pub passes: Vec<Pass<SoundFor<Q>>>,
    pub accounts: Vec<LedgerSeat>,
    pub sights: Vec<BestSeat>,
    pub segments: Vec<Segment>,
}

impl<Q: Aim> Slot<Q> {
    fn run<R: Threads + Wait + Sync, G: Gate>(&mut self, crew: &Crew<'_, R, G>)
        requires ready { MayRun crew.now.whole.now.instance Q.instance Q.branch Q.start self.old.worker }
        ensures { HasRunIn Q.instance Q.branch Q.start self.old self.new }
    {
        self.segment = self.worker.run(crew).ok();
    }
}

/// The workers with these passes and seats, the first in seat 0, which split nodes at links only if
/// `links` says so.
pub fn team_of<Q: Aim>(
    alloc: Global,
    workers: u32,
    links: bool,
    passes: Vec<Pass<SoundFor<Q>>>,
    accounts: Vec<LedgerSeat>,
    sights: Vec<BestSeat>,
) -> Result<Vec<Slot<Q>>, AllocError>
    requires passes { length passes.items ≡ workers }
    requires accounts { length accounts.items ≡ workers }
    requires sights { length sights.items ≡ workers }
    ensures seats { IfOk result (λ team. AreSeated workers links 0 team.items) }
    ensures passes { IfOk result (λ team. map pass_of team.items ≡ passes.items) }
    ensures accounts { IfOk result (λ team. map account_of team.items ≡ accounts.items) }
    ensures sights { IfOk result (λ team. map sight_of team.items ≡ sights.items) }
{
    let mut team = Vec::new(alloc);
    let mut passes = passes.into_iter();
    let mut accounts = accounts.into_iter();
    let mut sights = sights.into_iter();
    for seat in 0..workers {
        let Some(pass) = passes.next() else {
            return Err(AllocError);
        };
        let Some(account) = accounts.next() else {
            return Err(AllocError);
        };
        let Some(sight) = sights.next() else {
            return Err(AllocError);
        };
        team.push(Slot {
            worker: Worker::of(seat, workers, links, pass, account, sight),
            segment: None,
        })?;
    }
    Ok(team)
}

/// Runs each worker of a team, in a thread of its own where one can be made.
pub fn run_team<Q: Aim + Send, R: Threads + Wait + Sync, G: Gate>(
    crew: &Crew<'_, R, G>,
    team: &mut [Slot<Q>],
    threads: usize,
)
    requires threads { 0 < threads }
    requires whole { crew.now.whole.now.instance ≡ Q.instance }
    requires aim { IsAim Q.instance Q.branch Q.start }
    requires unused { All (λ s. IsUnused Q.start s.worker) team.old }
    ensures { HaveRunIn Q.instance Q.branch Q.start team.old team.new }
{
    thread::for_each_mut(
        crew.rt,
        team,
        threads,
        &|_, slot: &mut Slot<Q>|
            requires { MayRun crew.now.whole.now.instance Q.instance Q.branch Q.start slot.now.worker }
            ensures { HasRunIn Q.instance Q.branch Q.start slot.entry.now slot.exit.now }
        { slot.run(crew) },
    );
}

impl<Q: Aim> Returned<Q> {
    // What no worker brought yet.
    fn none(alloc: Global) -> Returned<Q>
        ensures passes { result.passes.items ≡ [] }
        ensures accounts { result.accounts.items ≡ [] }
        ensures sights { result.sights.items ≡ [] }
        ensures segments { result.segments.items ≡ [] }
    {
        Returned {
            passes: Vec::new(alloc),
            accounts: Vec::new(alloc),
            sights: Vec::new(alloc),
            segments: Vec::new(alloc),
        }
    }

    // What is in a slot too. Err: its worker was refused memory.
    fn take_in(&mut self, slot: Slot<Q>) -> Result<(), AllocError>
        ensures passes { OnOk result (self.new.passes.items ≡ self.old.passes.items ++ (pass_of slot ∷ [])) }
        ensures accounts { OnOk result
            (self.new.accounts.items ≡ self.old.accounts.items ++ (account_of slot ∷ [])) }
        ensures sights { OnOk result (self.new.sights.items ≡ self.old.sights.items ++ (sight_of slot ∷ [])) }
        ensures segments { OnOk result (map Some self.new.segments.items
            ≡ map Some self.old.segments.items ++ (segment_of slot ∷ [])) }
    {
        let Slot { worker, segment } = slot;
        self.segments.push(segment.ok_or(AllocError)?)?;
        let (pass, account, sight) = worker.back();
        self.passes.push(pass)?;
        self.accounts.push(account)?;
        self.sights.push(sight)?;
        Ok(())
    }
}

/// What a team hands back that has run. Err: a worker was refused memory.
pub fn handed_back<Q: Aim>(alloc: Global, team: Vec<Slot<Q>>) -> Result<Returned<Q>, AllocError>
    ensures passes { IfOk result (λ r. r.passes.items ≡ map pass_of team.items) }
    ensures accounts { IfOk result (λ r. r.accounts.items ≡ map account_of team.items) }
    ensures sights { IfOk result (λ r. r.sights.items ≡ map sight_of team.items) }
    ensures segments { IfOk result (λ r. map Some r.segments.items ≡ map segment_of team.items) }
{
    let mut returned = Returned::none(alloc);
    for slot in team {
        returned.take_in(slot)?;
    }
    Ok(returned)
}
