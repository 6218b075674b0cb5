ghost use Rattle.std.specs.Prelude.{◌≡◌, ℕ, ◌+◌, All, IfOk, OnOk};
ghost use Rattle.st_model.specs.Arborescence.{IsTree, cost};
ghost use Rattle.cut_packing.specs.ProofTree.{ProofTree, Proves};
ghost use Rattle.lift_back.specs.State.{IsState, State, whole};
ghost use Rattle.lift_back.specs.Laws.{HasTreeWithin};
ghost use Rattle.lift_back.specs.Steps.{Applies, MayTake, Takes};
ghost use Rattle.log_format.specs.declared.log.Version.TheVariants.{Two};
ghost use Rattle.log_format.specs.Accepts.{Accepts, left_over};
ghost use Rattle.log_format.specs.Preorder.{preorder};
ghost use Rattle.log_format.specs.Text.{IsLog, IsWritableLine};
ghost use Rattle.resuming.specs.InRest.{IsFirstIn, IsGoneIn, IsKnownIn};
ghost use Rattle.resuming.specs.Resumed.{ClaimsTree, IsResumed};

use crate::going_on::{Gone, go_on};
use crate::known::Known;
use crate::lowering::nearer;
use better_trees::Incumbent;
use graph_store::Whole;
use lift_back::{ApplyError, Reduced, Step, steps_keep_the_best};
use log_format::{Claim, Log, Proof, accepted_holds};
use log_resume::{Closes, graft, grafted_weighs};
use search_core::Searched;
use st_model::{Branch, Instance, Sides, Tree, lone_starts_miss_the_rest, tree_cost};
use std::alloc::{AllocError, Global};
use std::sync::Wait;
use std::thread::Threads;
use tree_heuristic::first_tree;
use worker_loop::{Gate, Limits};

/// What a run that goes on from a log gives: its searches, the first first, and the new log.
#[derive(Debug, Drop)]
pub struct Resumed {
    pub searches: Vec<Searched>,
    pub certificate: Log,
}

/// Goes on from a log that is accepted of an instance and claims a tree: from each close of its
/// proof that weighs too little, in the order of its lines, within one budget of nodes. The new log
/// has the old one's steps and version. No node is split at a link.
pub fn resume<R: Threads + Wait + Sync, G: Gate>(
    rt: &R,
    alloc: Global,
    instance: &Instance,
    log: Log,
    limits: Limits,
    gate: &G,
) -> Result<Resumed, AllocError>
    requires log { IsLog log }
    requires accepted { Accepts instance.now log }
    requires tree { ClaimsTree log.claim }
    ensures { IfOk result (λ r. IsResumed limits.budget instance.now log r.searches.items r.certificate) }
{
    accepted_holds();
    grafted_weighs();
    steps_keep_the_best();
    prove!(1 <= instance.vertices());
    let Claim::Found {
        primal,
        tree,
        steps,
        proof,
        ..
    } = &log.claim
    else {
        unreachable!()
    };
    let reduced = left_of(alloc, instance, steps.as_slice())?;
    let best = Incumbent {
        tree,
        cost: *primal,
    };
    let gone = searched(rt, alloc, &reduced, proof, &best, limits, gate)?;
    let tree = best_tree(alloc, &reduced, &gone.known, tree)?;
    let primal = gone.known.least + reduced.offset();
    let certificate = graft(alloc, log, &reduced, tree, primal, &gone.searches)?;
    Ok(Resumed {
        searches: gone.searches,
        certificate,
    })
}

// The tree that is known of what is left, as one of the instance, and else the tree of the log.
fn best_tree(
    alloc: Global,
    reduced: &Reduced,
    known: &Known,
    tree: &Tree,
) -> Result<Tree, AllocError>
    requires tree { IsTree reduced.now.first tree.now }
    requires known { IsKnownIn reduced.now.state (cost reduced.now.first tree.now) known.now }
    ensures tree { IfOk result (IsTree reduced.now.first) }
    ensures cost { IfOk result (λ best. known.now.least + reduced.now.state.offset
        ≡ cost reduced.now.first best) }
{
    match &known.tree {
        Some(found) => reduced.lift(alloc, found),
        None => tree.copied(alloc),
    }
}

// What steps leave of an instance, all of which may be taken.
fn left_of(alloc: Global, instance: &Instance, steps: &[Step]) -> Result<Reduced, AllocError>
    requires { (last : State) × Applies steps.now (whole instance.now) last }
    ensures applies { IfOk result
        (λ reduced. Applies steps.now (whole instance.now) reduced.state) }
    ensures first { IfOk result (λ reduced. reduced.first ≡ instance.now) }
{
    prove!(1 <= instance.vertices());
    let mut reduced = Reduced::of(alloc, instance)?;
    for step in steps {
        take(&mut reduced, step)?;
    }
    Ok(reduced)
}

// Takes a step that may be taken.
fn take(reduced: &mut Reduced, step: &Step) -> Result<(), AllocError>
    requires { MayTake step.now reduced.old.state }
    ensures taken { OnOk result (Takes step.now reduced.old.state reduced.new.state) }
    ensures state { IsState reduced.new.state }
    ensures first { reduced.new.first ≡ reduced.old.first }
{
    match reduced.apply(step) {
        Ok(()) => Ok(()),
        Err(ApplyError::NoMemory) => Err(AllocError),
        Err(ApplyError::StepFault) => unreachable!(),
    }
}

// The searches that go on from a proof of what is left, where this tree of the first instance is known.
fn searched<R: Threads + Wait + Sync, G: Gate>(
    rt: &R,
    alloc: Global,
    reduced: &Reduced,
    proof: &Proof,
    best: &Incumbent<'_>,
    limits: Limits,
    gate: &G,
) -> Result<Gone, AllocError>
    requires tree { HasTreeWithin reduced.now.state best.now.cost }
    requires proves { (p : ProofTree) × (x : ℕ) × (proof.now ≡ preorder p)
        × Proves reduced.now.state.instance (left_over reduced.now.state) x p }
    requires writable { All (IsWritableLine Two) proof.now }
    ensures { IfOk result (IsGoneIn reduced.now.state best.now.cost limits.budget proof.now) }
{
    let rest = reduced.instance(alloc)?;
    let whole = Whole::of(alloc, rest)?;
    let known = first_known(alloc, &whole, reduced, best)?;
    let closes = Closes::of(alloc, reduced, &whole.instance, proof)?;
    let gone = go_on(rt, alloc, &whole, closes, known, limits, gate)?;
    Ok(gone)
}

// What is known at first: the log's tree, or a tree of what is left where that is cheaper: the log's one lowered, or a
// first tree.
fn first_known(
    alloc: Global,
    whole: &Whole,
    reduced: &Reduced,
    best: &Incumbent<'_>,
) -> Result<Known, AllocError>
    requires whole { whole.now.instance ≡ reduced.now.state.instance }
    requires tree { HasTreeWithin reduced.now.state best.now.cost }
    ensures { IfOk result (IsFirstIn reduced.now.state best.now.cost) }
{
    lone_starts_miss_the_rest();
    prove!(1 <= whole.instance.vertices());
    let offset = reduced.offset();
    let branch = Branch::leaving_out(alloc, reduced.gone(alloc)?);
    let sides = Sides::of(alloc, branch)?;
    let Some(first) = first_tree(alloc, &whole.store, &sides)? else {
        unreachable!()
    };
    let guide = nearer(alloc, whole, &sides, first, best.tree)?;
    let cost = tree_cost(&whole.instance, &guide);
    let least = best.cost - offset;
    if cost < least {
        let copy = guide.copied(alloc)?;
        return Ok(Known {
            least: cost,
            tree: Some(copy),
            guide,
        });
    }
    Ok(Known {
        least,
        tree: None,
        guide,
    })
}
