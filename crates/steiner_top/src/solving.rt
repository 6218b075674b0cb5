ghost use Rattle.std.specs.Prelude.{◌≡◌, ◌⊎◌, ℕ, Bool, IfOk, Err};
ghost use Rattle.amounts.specs.declared.scale.Scale.{Scale as FileScale};
ghost use Rattle.st_model.specs.declared.tree.Tree.{Tree as Grown};
ghost use Rattle.st_model.specs.Arborescence.{IsTree};
ghost use Rattle.st_model.specs.Wall.{IsWall};
ghost use Rattle.stp_reader.specs.declared.reason.Reason.{Reason};
ghost use Rattle.stp_reader.specs.Reads.{RefusedFile};
ghost use Rattle.lift_back.specs.State.{IsState};
ghost use Rattle.log_format.specs.Accepts.{left_over};
ghost use Rattle.log_format.specs.Text.{IsWritableSet};
ghost use Rattle.resuming.specs.Resumed.{ClaimsTree};
ghost use Rattle.steiner_top.specs.declared.outcome.SolveFault.TheVariants.{Stp, NoMemory};
ghost use Rattle.steiner_top.specs.Left.{HasSomeTree, IsBestOf, IsClaimOf, IsLeftOf, IsShownBy};
ghost use Rattle.steiner_top.specs.Outcome.{IsDirectedOutcome, IsOutcome, Solves};

use crate::best::{Best, cheapest};
use crate::left::Left;
use crate::nearing::near_start;
use crate::outcome::{Outcome, SolveFault};
use crate::reducing::{count_steps, left_of, left_over};
use crate::start::wall_of;
use crate::wanted::Wanted;
use amounts::Scale;
use arborescence::DiInstance;
use certificate_log::assemble;
use directed_search::{DiOutcome, solve_directed};
use graph_store::Whole;
use lift_back::Reduced;
use log_format::{Claim, Log, Version};
use search_core::Searched;
use st_model::{Instance, Listed, Sides, Tree, tree_cost};
use std::alloc::{AllocError, Global};
use std::sync::Wait;
use std::thread::Threads;
use stp_reader::{File, Reading, read_file};
use worker_loop::{Gate, Limits, run_all};

/// Solves an STP file of either kind, all of the bytes, expanding so many nodes at most: a tree and a
/// bound with a certificate, the bound being the tree's cost unless the budget was spent; or a
/// certificate that there is no tree. Unless it is to be plain, the search is over what a reduction
/// leaves, and it splits nodes at vertices alone unless links are allowed. The gate learns of each node
/// that is worked on. A directed file is searched by one worker, as it is, and the gate learns nothing.
pub fn solve_bytes<R: Threads + Wait + Sync, G: Gate>(
    rt: &R,
    alloc: Global,
    stp: &[u8],
    wanted: Wanted,
    gate: &G,
) -> Result<Outcome, SolveFault>
    // Each answer has its reason.
    ensures exact { Solves wanted.nodes wanted.plain wanted.links stp.now result }
    // Bytes that are refused are answered with that line and reason, unless memory runs out.
    ensures refused { (line : ℕ) (reason : Reason) → RefusedFile stp.now line reason
        → (result ≡ Err (Stp (record { line = line; reason = reason }))) ⊎ (result ≡ Err NoMemory) }
{
    stp_reader::file_refused_exactly();
    solve(rt, alloc, stp, wanted, gate)
}

// Reads the file and solves its problem.
fn solve<R: Threads + Wait + Sync, G: Gate>(
    rt: &R,
    alloc: Global,
    stp: &[u8],
    wanted: Wanted,
    gate: &G,
) -> Result<Outcome, SolveFault>
    ensures { Solves wanted.nodes wanted.plain wanted.links stp.now result }
{
    match read_file(alloc, stp)? {
        File::Plain(reading) => {
            let outcome = solve_reading(rt, alloc, &reading, wanted, gate)?;
            Ok(outcome)
        }
        File::Directed { instance, scale } => {
            let outcome = solve_arcs(alloc, &instance, scale, wanted.nodes)?;
            Ok(outcome)
        }
    }
}

// Solves a directed instance, expanding so many nodes at most.
fn solve_arcs(
    alloc: Global,
    instance: &DiInstance,
    scale: Scale,
    nodes: u64,
) -> Result<Outcome, AllocError>
    ensures { IfOk result (IsDirectedOutcome nodes instance.now scale) }
{
    let found = solve_directed(alloc, instance, nodes)?;
    match found {
        DiOutcome::Found {
            tree,
            primal,
            dual,
            expanded,
            certificate,
        } => Ok(Outcome::Directed {
            tree,
            primal,
            dual,
            expanded,
            certificate,
            scale,
        }),
        DiOutcome::NoTree { certificate } => Ok(Outcome::NoTree { certificate }),
    }
}

/// Solves an instance that was read, expanding so many nodes at most.
pub fn solve_reading<R: Threads + Wait + Sync, G: Gate>(
    rt: &R,
    alloc: Global,
    reading: &Reading,
    wanted: Wanted,
    gate: &G,
) -> Result<Outcome, AllocError>
    ensures { IfOk result
        (IsOutcome wanted.nodes wanted.plain wanted.links reading.now.instance reading.now.scale) }
{
    match wall_of(alloc, &reading.instance)? {
        Some(wall) => Ok(without_tree(&reading.instance, wall)),
        None => find(rt, alloc, reading, wanted, gate),
    }
}

// Takes steps of an instance that has a tree, and searches for a least tree of what they leave.
fn find<R: Threads + Wait + Sync, G: Gate>(
    rt: &R,
    alloc: Global,
    reading: &Reading,
    wanted: Wanted,
    gate: &G,
) -> Result<Outcome, AllocError>
    requires { (t : Grown) × IsTree reading.now.instance t }
    ensures { IfOk result
        (IsOutcome wanted.nodes wanted.plain wanted.links reading.now.instance reading.now.scale) }
{
    let instance = &reading.instance;
    prove!(1 <= instance.vertices());
    let left = left_of(alloc, instance, wanted.plain)?;
    let best = search_left(rt, alloc, &left.reduced, wanted, gate)?;
    found(alloc, reading, wanted, left, best)
}

// Searches for a least tree of what is left.
fn search_left<R: Threads + Wait + Sync, G: Gate>(
    rt: &R,
    alloc: Global,
    reduced: &Reduced,
    wanted: Wanted,
    gate: &G,
) -> Result<Best, AllocError>
    requires state { IsState reduced.now.state }
    requires some { HasSomeTree reduced.now.state }
    ensures { IfOk result (IsBestOf reduced.now.state wanted.nodes wanted.links) }
{
    let rest = reduced.instance(alloc)?;
    let whole = Whole::of(alloc, rest)?;
    let branch = left_over(alloc, reduced)?;
    let sides = Sides::of(alloc, branch)?;
    search_from(rt, alloc, reduced, &whole, &sides, wanted, gate)
}

// Searches for one from a first tree of it.
fn search_from<R: Threads + Wait + Sync, G: Gate>(
    rt: &R,
    alloc: Global,
    reduced: &Reduced,
    whole: &Whole,
    sides: &Sides,
    wanted: Wanted,
    gate: &G,
) -> Result<Best, AllocError>
    requires state { IsState reduced.now.state }
    requires some { HasSomeTree reduced.now.state }
    requires whole { whole.now.instance ≡ reduced.now.state.instance }
    requires sides { sides.now ≡ left_over reduced.now.state }
    ensures { IfOk result (IsBestOf reduced.now.state wanted.nodes wanted.links) }
{
    let start = near_start(alloc, whole, sides)?;
    let branch = sides.branch();
    let first = tree_cost(&whole.instance, &start);
    let limits = Limits {
        workers: wanted.workers,
        budget: wanted.nodes,
        links: wanted.links,
    };
    let gathered = run_all(rt, alloc, whole, branch, &start, limits, gate)?;
    let tree = cheapest(
        alloc,
        &whole.instance,
        branch,
        start,
        gathered.segments.as_slice(),
    )?;
    Ok(Best {
        tree,
        search: Searched {
            close: 0,
            start: first,
            budget: wanted.nodes,
            gathered,
        },
    })
}

// What a search in what is left found, as a tree of the instance, with its certificate.
fn found(
    alloc: Global,
    reading: &Reading,
    wanted: Wanted,
    left: Left,
    best: Best,
) -> Result<Outcome, AllocError>
    requires left { IsLeftOf reading.now.instance wanted.plain left }
    requires best { IsBestOf left.reduced.state wanted.nodes wanted.links best }
    ensures { IfOk result
        (IsOutcome wanted.nodes wanted.plain wanted.links reading.now.instance reading.now.scale) }
{
    log_format::accepted_holds();
    prove!(1 <= reading.instance.vertices());
    let Left { steps, reduced } = left;
    // So that each step can be written.
    count_steps(&steps);
    let Best { tree, search } = best;
    let certificate = assemble(alloc, steps, &reduced, &tree, &search.gathered)?;
    let expanded = search.gathered.claimed;
    let searches = vec![in alloc; search]?;
    let outcome = shown(alloc, expanded, searches, certificate, reading.scale)?;
    Ok(outcome)
}

/// What a log shows, as what searches found that worked on so many nodes.
pub fn shown(
    alloc: Global,
    expanded: u64,
    searches: Vec<Searched>,
    certificate: Log,
    scale: Scale,
) -> Result<Outcome, AllocError>
    requires { ClaimsTree certificate.claim }
    ensures { IfOk result (IsShownBy expanded searches.items certificate scale) }
{
    let (tree, primal, dual) = claimed(alloc, &certificate)?;
    Ok(Outcome::Found {
        tree,
        primal,
        dual,
        expanded,
        searches: Listed::of(searches),
        certificate,
        scale,
    })
}

// The tree and the two numbers that a log claims.
fn claimed(alloc: Global, log: &Log) -> Result<(Tree, u64, u64), AllocError>
    requires { ClaimsTree log.now.claim }
    ensures { IfOk result (λ found. IsClaimOf log.now.claim found.0 found.1 found.2) }
{
    match &log.claim {
        Claim::Found {
            tree,
            primal,
            dual,
            ..
        } => Ok((tree.copied(alloc)?, *primal, *dual)),
        Claim::NoTree { .. } => unreachable!(),
    }
}

// That there is no tree, because of a wall.
fn without_tree(instance: &Instance, wall: Vec<u32>) -> Outcome
    requires set { IsWritableSet wall.items }
    requires wall { IsWall instance.now wall.items }
    ensures { (nodes : ℕ) (plain links : Bool) (unit : FileScale)
        → IsOutcome nodes plain links instance.now unit result }
{
    log_format::accepted_holds();
    prove!(1 <= instance.vertices());
    Outcome::NoTree {
        certificate: Log {
            version: Version::Two,
            claim: Claim::NoTree {
                wall: Listed::of(wall),
            },
        },
    }
}
