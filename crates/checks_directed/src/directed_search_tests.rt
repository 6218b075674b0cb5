ghost use Rattle.std.specs.Prelude.{◌≡◌, length};
ghost use Rattle.st_model.specs.Network.{IsVertex};
ghost use Rattle.log_format.specs.Text.{IsLog};

mod drawn;

use amounts::Scale;
use arborescence::{DiInstance, di_cost, di_is_tree};
use cert_checker::{Checker, Posed, Verdict};
use directed_search::{DiOutcome, solve_directed};
use log_format::{Log, write_log};
use st_model::{Link, Tree};
use std::alloc::{AllocError, Global};
use std::test::Fail;
use std::thread::Threads;
use test_instances::link;

// An arc from 1 to 2 at 4, one from 2 to 3 at 3, and one past 2 at 8, with 3 as a terminal.
fn three(alloc: Global, root: u32, other: u32) -> Result<DiInstance, AllocError>
    requires root { IsVertex 3 root }
    requires other { IsVertex 3 other }
{
    let arcs = [link(1, 2, 4), link(2, 3, 3), link(1, 3, 8)];
    DiInstance::build(alloc, 3, root, &arcs, &[other, 3])
}

// From a hub 1 to 2, 3 and 4, and from these to the terminals 5, 6 and 7, to each from two of them, and back,
// each arc at 2. A cheapest tree costs 10; cuts alone weigh at most 9, since half of each arc enters every cut.
fn wheel(alloc: Global) -> Result<DiInstance, AllocError> {
    let arcs = [
        link(1, 2, 2),
        link(1, 3, 2),
        link(1, 4, 2),
        link(2, 5, 2),
        link(5, 2, 2),
        link(3, 5, 2),
        link(5, 3, 2),
        link(3, 6, 2),
        link(6, 3, 2),
        link(4, 6, 2),
        link(6, 4, 2),
        link(2, 7, 2),
        link(7, 2, 2),
        link(4, 7, 2),
        link(7, 4, 2),
    ];
    DiInstance::build(alloc, 7, 1, &arcs, &[5, 6, 7])
}

// What a search found.
#[derive(Clone, Copy, Debug, PartialEq, Eq)]
pub struct Numbers {
    pub primal: u64,
    pub dual: u64,
    pub expanded: u64,
}

// What a tree costs; none where it is no tree.
fn cost(alloc: Global, instance: &DiInstance, tree: &Tree) -> Result<Option<u64>, AllocError> {
    if !di_is_tree(alloc, instance, tree)? {
        return Ok(None);
    }
    Ok(Some(di_cost(instance, tree)))
}

// The numbers of a search within a budget, if its tree costs what is said; none where it found no tree.
pub fn searched(
    alloc: Global,
    instance: &DiInstance,
    budget: u64,
) -> Result<Option<Numbers>, AllocError> {
    match solve_directed(alloc, instance, budget)? {
        DiOutcome::Found {
            tree,
            primal,
            dual,
            expanded,
            ..
        } => {
            let same = cost(alloc, instance, &tree)? == Some(primal);
            Ok(same.then_some(Numbers {
                primal,
                dual,
                expanded,
            }))
        }
        DiOutcome::NoTree { .. } => Ok(None),
    }
}

// A checker on an instance, to which nothing was fed.
fn begun(alloc: Global, instance: DiInstance) -> Checker
    ensures { length result.text ≡ 0 }
{
    Checker::on(alloc, Posed::Directed(instance), Scale::Whole)
}

// What an independent checker concludes of an instance from a log, if anything.
fn verdict<R: Threads + Sync>(
    rt: &R,
    alloc: Global,
    instance: DiInstance,
    log: &Log,
) -> Result<Option<Verdict>, AllocError>
    requires { IsLog log.now }
{
    let text = write_log(rt, alloc, log, 1)?;
    let checker = begun(alloc, instance);
    let checker = checker.feed(&text)?;
    match checker.finish() {
        Ok(checked) => Ok(Some(checked.verdict)),
        Err(_) => Ok(None),
    }
}

// What it concludes from the log of a search within a budget.
fn concluded<R: Threads + Sync>(
    rt: &R,
    alloc: Global,
    instance: DiInstance,
    budget: u64,
) -> Result<Option<Verdict>, AllocError> {
    match solve_directed(alloc, &instance, budget)? {
        DiOutcome::Found { certificate, .. } => verdict(rt, alloc, instance, &certificate),
        DiOutcome::NoTree { certificate } => verdict(rt, alloc, instance, &certificate),
    }
}

#[test]
fn finds_the_way_through(rt: HostRuntime) -> Result<(), Fail> {
    let instance = three(rt.alloc(), 1, 1)?;
    let found = searched(rt.alloc(), &instance, 100)?;
    assert!(rt; found.is_some_and(|found| found.primal == 7 && found.dual == 7));
    let verdict = concluded(&rt, rt.alloc(), instance, 100)?;
    assert!(rt; verdict == Some(Verdict::Optimal(7)));
    Ok(())
}

#[test]
fn bounds_nothing_without_budget(rt: HostRuntime) -> Result<(), Fail> {
    let instance = three(rt.alloc(), 1, 1)?;
    let found = searched(rt.alloc(), &instance, 0)?;
    assert!(rt;
        found.is_some_and(|found| 7 <= found.primal && found.dual == 0 && found.expanded == 0)
    );
    Ok(())
}

#[test]
fn splits_where_cuts_leave_a_gap(rt: HostRuntime) -> Result<(), Fail> {
    let instance = wheel(rt.alloc())?;
    let one = searched(rt.alloc(), &instance, 1)?;
    assert!(rt; one.is_some_and(|one| 10 <= one.primal && one.dual <= 9 && one.expanded == 1));
    let all = searched(rt.alloc(), &instance, 16)?;
    assert!(rt; all.is_some_and(|all| all.primal == 10 && all.dual == 10 && 1 < all.expanded));
    let verdict = concluded(&rt, rt.alloc(), instance, 16)?;
    assert!(rt; verdict == Some(Verdict::Optimal(10)));
    Ok(())
}

#[test]
fn shows_that_there_is_no_tree(rt: HostRuntime) -> Result<(), Fail> {
    let instance = three(rt.alloc(), 2, 1)?;
    assert!(rt; searched(rt.alloc(), &instance, 100)?.is_none());
    let verdict = concluded(&rt, rt.alloc(), instance, 100)?;
    assert!(rt; verdict == Some(Verdict::NoTree));
    Ok(())
}

#[test]
fn one_vertex_costs_nothing(rt: HostRuntime) -> Result<(), Fail> {
    let instance = DiInstance::build(rt.alloc(), 1, 1, &[], &[])?;
    let found = searched(rt.alloc(), &instance, 0)?;
    assert!(rt; found.is_some_and(|found| found.primal == 0 && found.dual == 0));
    let verdict = concluded(&rt, rt.alloc(), instance, 0)?;
    assert!(rt; verdict == Some(Verdict::Optimal(0)));
    Ok(())
}
