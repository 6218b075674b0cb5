ghost use Rattle.st_model.specs.Branch.{all_trees};
ghost use Rattle.dual_ascent.specs.Extension.{IsRootFor};
ghost use Rattle.node_work.specs.Node.{no_cuts};
ghost use Rattle.node_work.specs.Target.{IsRaisedFor};

use super::roots::{ring, root_of_all, tree_of_ring};
use better_trees::{Effort, Incumbent, Means, Place};
use cut_packing::weight;
use dual_ascent::Extension;
use graph_store::Whole;
use node_work::{Attempt, Guide, Site, Target, make_all, no_cuts, raise, raise_refined};
use st_model::{Branch, Sides, Tree};
use std::alloc::{AllocError, Global};
use std::test::Fail;
use std::thread::Threads;

// What cuts weigh that are raised for a root, and refined for some turns by a tree.
fn refined_weight<R: Threads + Sync>(
    rt: &R,
    alloc: Global,
    whole: &Whole,
    tree: &Tree,
    root: u32,
    least: u64,
    turns: u64,
) -> Result<u128, AllocError>
    requires { IsRootFor whole.now.instance all_trees no_cuts root }
{
    let branch = Sides::of(alloc, Branch::all(alloc))?;
    let effort = Effort::at(branch.branch(), true, 1);
    let cost = u64::MAX;
    let mut guide = Guide::at(Incumbent { tree, cost }, effort.seed);
    let place = Place {
        whole,
        branch: &branch,
    };
    let target = Target { place, root, least };
    let means = Means { rt, alloc, effort };
    let extension = raise_refined(&means, &target, no_cuts(alloc), turns, &mut guide)?;
    let packing = extension.ascent.packing();
    Ok(weight(&whole.instance, branch.branch(), packing))
}

// Whether cuts at the ring weigh no less with each turn, and at last 7.
fn rises<R: Threads + Sync>(rt: &R, alloc: Global) -> Result<bool, AllocError> {
    let whole = ring(alloc)?;
    let tree = tree_of_ring(alloc)?;
    rises_by(rt, alloc, &whole, &tree)
}

// The same of cuts that are refined by this tree.
fn rises_by<R: Threads + Sync>(
    rt: &R,
    alloc: Global,
    whole: &Whole,
    tree: &Tree,
) -> Result<bool, AllocError> {
    let Some(root) = root_of_all(alloc, &whole.instance)? else {
        return Ok(false);
    };
    let mut before = 0;
    for turns in 0..40 {
        let weight = refined_weight(rt, alloc, whole, tree, root, 100, turns)?;
        if weight < before {
            return Ok(false);
        }
        before = weight;
    }
    Ok(before == 7)
}

// One ascent alone gives cuts of the weight 6.
#[test]
fn refines_what_one_ascent_gives(rt: HostRuntime) -> Result<(), Fail> {
    assert!(rt; rises(&rt, rt.alloc())?);
    Ok(())
}

// Which of five attempts, made in so many threads, raise cuts for a root that are no lighter.
fn raised_in<R: Threads + Sync>(
    rt: &R,
    alloc: Global,
    whole: &Whole,
    root: u32,
    threads: usize,
) -> Result<Vec<bool>, AllocError>
    requires { IsRootFor whole.now.instance all_trees no_cuts root }
{
    let branch = Sides::of(alloc, Branch::all(alloc))?;
    let place = Place {
        whole,
        branch: &branch,
    };
    let target = Target {
        place,
        root,
        least: 100,
    };
    let extension = raise(alloc, &target, no_cuts(alloc))?;
    let site = Site {
        target,
        tree: &None,
    };
    raised_at(rt, alloc, &site, &extension, threads)
}

// The same of a site and an extension there.
fn raised_at<R: Threads + Sync>(
    rt: &R,
    alloc: Global,
    site: &Site<'_>,
    extension: &Extension,
    threads: usize,
) -> Result<Vec<bool>, AllocError>
    requires { IsRaisedFor site.now.target extension.now }
{
    let mut attempts = five_attempts(alloc)?;
    make_all(rt, alloc, site, extension, attempts.as_mut_slice(), threads);
    which_raised(alloc, &attempts)
}

// Five attempts, none of which was made.
fn five_attempts(alloc: Global) -> Result<Vec<Attempt>, AllocError> {
    let mut attempts = Vec::new(alloc);
    for seed in 0..5 {
        attempts.push(Attempt::of(seed))?;
    }
    Ok(attempts)
}

// Which of some attempts that were made raised something.
fn which_raised(alloc: Global, attempts: &[Attempt]) -> Result<Vec<bool>, AllocError> {
    let mut raised = Vec::new(alloc);
    for attempt in attempts {
        match &attempt.raised {
            Ok(extension) => raised.push(extension.is_some())?,
            Err(_) => return Err(AllocError),
        }
    }
    Ok(raised)
}

// Whether attempts at the ring raise something, and the same in any number of threads.
fn are_the_same<R: Threads + Sync>(rt: &R, alloc: Global) -> Result<bool, AllocError> {
    let whole = ring(alloc)?;
    are_the_same_at(rt, alloc, &whole)
}

// The same of attempts at an instance.
fn are_the_same_at<R: Threads + Sync>(
    rt: &R,
    alloc: Global,
    whole: &Whole,
) -> Result<bool, AllocError> {
    let Some(root) = root_of_all(alloc, &whole.instance)? else {
        return Ok(false);
    };
    let alone = raised_in(rt, alloc, whole, root, 1)?;
    for threads in [2, 3, 9] {
        if raised_in(rt, alloc, whole, root, threads)?.as_slice() != alone.as_slice() {
            return Ok(false);
        }
    }
    Ok(alone.as_slice().contains(&true))
}

// Five attempts in one thread, in two and three that make some each, and in one each.
#[test]
fn makes_attempts_apart(rt: HostRuntime) -> Result<(), Fail> {
    assert!(rt; are_the_same(&rt, rt.alloc())?);
    Ok(())
}
