ghost use Rattle.std.specs.Prelude.{◌≡◌};
ghost use Rattle.st_model.specs.Branch.{IsBranch, LeavesRequired};
ghost use Rattle.worker_loop.specs.Progress.{IsAim};

use super::starting::first_required;
use graph_store::Whole;
use incumbent::Incumbent;
use node_pool::begin;
use open_ledger::Ledger;
use search_core::{Segment, no_cuts, root_of};
use st_model::{Branch, Listed, Need, Tree};
use std::alloc::{AllocError, Global};
use std::marker::Brand;
use std::sync::Wait;
use std::thread::Threads;
use worker_loop::{Aim, Crew, Hint, OpenGate, SoundFor, Worker};

// What the only worker of a team brings back of a whole instance in which somebody is required, from
// a tree of this cost.
pub fn brought_alone<R: Threads + Wait + Sync>(
    rt: &R,
    alloc: Global,
    whole: &Whole,
    first: u64,
) -> Result<Option<Segment>, AllocError> {
    let Some(certain) = first_required(&whole.instance) else {
        return Ok(None);
    };
    prove!(whole.instance.need(certain) == Need::Required);
    prove!(1 <= whole.instance.vertices());
    let all = Branch::all(alloc);
    let start = Tree {
        start: certain,
        arcs: Listed::of(Vec::new(alloc)),
    };
    let segment = run_alone::<Brand, R>(rt, alloc, whole, &all, &start, first)?;
    Ok(segment)
}

fn run_alone<Q: Aim, R: Threads + Wait + Sync>(
    rt: &R,
    alloc: Global,
    whole: &Whole,
    branch: &Branch,
    start: &Tree,
    first: u64,
) -> Result<Option<Segment>, AllocError>
    requires whole { whole.now.instance ≡ Q.instance }
    requires same { branch.now ≡ Q.branch }
    requires first { first ≡ Q.start }
    requires aim { IsAim Q.instance Q.branch Q.start }
    requires branch { IsBranch Q.instance Q.branch }
    requires required { LeavesRequired Q.instance Q.branch }
{
    let root = root_of(alloc, branch, no_cuts(alloc))?;
    let mut passes = begin::<SoundFor<Q>>(alloc, 1, root)?;
    let (_ledger, mut accounts) = Ledger::begin(alloc, 100, 1)?;
    let (_incumbent, mut sights) = Incumbent::begin(alloc, first, 1)?;
    let Some(pass) = passes.pop() else {
        return Ok(None);
    };
    let Some(account) = accounts.pop() else {
        return Ok(None);
    };
    let Some(sight) = sights.pop() else {
        return Ok(None);
    };
    let mut worker = Worker::of(0, 1, false, pass, account, sight);
    let hint = Hint::none();
    let crew = Crew {
        rt,
        alloc,
        whole,
        start,
        hint: &hint,
        gate: &OpenGate,
    };
    Ok(Some(worker.run(&crew)?))
}
