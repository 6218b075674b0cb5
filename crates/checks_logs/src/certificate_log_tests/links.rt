//! The log of a search that is split at a link.
ghost use Rattle.std.specs.Prelude.{◌≡◌, [], IfOk, IfSome};
ghost use Rattle.lift_back.specs.State.{whole};
ghost use Rattle.search_core.specs.declared.done.Done.{Done as DoneSpec};
ghost use Rattle.search_core.specs.State.{no_cuts};
ghost use Rattle.certificate_log.specs.Assembled.{IsAssembled};
ghost use Rattle.checks_logs.specs.Halved.{all_done, halved, round_2, two};

use super::assembled;
use crate::log_format_tests::{is_read_and_written, is_written};
use cut_packing::{Cut, Packing, SharedSet};
use log_format::Log;
use search_core::{Done, End, Gathered, Segment, no_cuts};
use st_model::{Instance, Listed, Need, SplitAt, Tree, is_tree, tree_cost};
use std::alloc::{AllocError, Global};
use std::test::Fail;
use std::thread::Threads;
use test_instances::pair;

/// Its text: with the link the bound is what that costs; without it, the value of a cut where 1 is
/// reached, and else what 1 pays.
const LOG: &str =
    "STEINERLOG 2\nCLAIM TREE 5 5\nTREE 1 1\nA 1 2\nSTEPS 0\nPROOF\nL 1 2\nC 0 0\nS 1\n\
    C 1 1\nU 2 5 1 2\nC 0 0\nEND\n";

// One cut round 2, which it names.
fn round_2(alloc: Global) -> Result<Packing, AllocError>
    ensures { IfOk result (λ packing. packing ≡ round_2) }
{
    let cut = Cut {
        set: SharedSet::of(vec![in alloc; 2]?)?,
        q: 2,
        y: 5,
    };
    Ok(Packing {
        root: Some(1),
        cuts: Listed::of(vec![in alloc; cut]?),
    })
}

// The record of a split on no cut.
fn split(alloc: Global, id: u64, at: SplitAt, inside: u64, outside: u64) -> Done
    ensures { result ≡ DoneSpec.Split id at inside outside no_cuts }
{
    Done::Split {
        id,
        at,
        inside,
        outside,
        packing: no_cuts(alloc),
    }
}

// What was done, the first first.
fn all_done(alloc: Global) -> Result<Vec<Done>, AllocError>
    ensures { IfOk result (λ done. done.items ≡ all_done) }
{
    let mut done = Vec::new(alloc);
    done.push(split(alloc, 0, SplitAt::Link(1, 2), 1, 2))?;
    done.push(Done::Close {
        id: 1,
        packing: no_cuts(alloc),
    })?;
    done.push(split(alloc, 2, SplitAt::Vertex(1), 3, 4))?;
    done.push(Done::Close {
        id: 3,
        packing: round_2(alloc)?,
    })?;
    done.push(Done::Close {
        id: 4,
        packing: no_cuts(alloc),
    })?;
    Ok(done)
}

// What is gathered of it.
fn halved(alloc: Global) -> Result<Gathered, AllocError>
    ensures { IfOk result (λ gathered. gathered ≡ halved) }
{
    let segment = Segment {
        done: Listed::of(all_done(alloc)?),
        left: Listed::of(Vec::new(alloc)),
        best: None,
        seen: 5,
        end: End::OpenZero,
    };
    Ok(Gathered {
        segments: Listed::of(vec![in alloc; segment]?),
        queued: Listed::of(Vec::new(alloc)),
        least: 5,
        claimed: 5,
    })
}

// Two vertices that pay 9, at 5 from each other.
pub fn two(alloc: Global) -> Result<Instance, AllocError>
    ensures { IfOk result (λ instance. instance ≡ two) }
{
    let instance = pair(alloc, Need::Pays(9), Need::Pays(9))?;
    Ok(instance)
}

// The log of that search, with the tree over the link. None where that isn't a tree of cost 5.
pub fn log_of_link(alloc: Global, instance: &Instance) -> Result<Option<Log>, AllocError>
    requires { instance.now ≡ two }
    ensures { IfOk result (λ found. IfSome found (IsAssembled [] two (whole two) halved)) }
{
    let tree = Tree {
        start: 1,
        arcs: Listed::of(vec![in alloc; (1, 2)]?),
    };
    if !is_tree(alloc, instance, &tree)? || tree_cost(instance, &tree) != 5 {
        return Ok(None);
    }
    let gathered = halved(alloc)?;
    let log = assembled(alloc, instance, &tree, &gathered)?;
    Ok(Some(log))
}

// Whether the tree over the link has that log.
fn certifies_the_link<R: Threads + Sync>(rt: &R, alloc: Global) -> Result<bool, AllocError> {
    let instance = two(alloc)?;
    let Some(log) = log_of_link(alloc, &instance)? else {
        return Ok(false);
    };
    is_written(rt, alloc, &log, LOG, 1)
}

#[test]
fn certifies_a_search_that_splits_at_a_link(rt: HostRuntime) -> Result<(), Fail> {
    assert!(rt; certifies_the_link(&rt, rt.alloc())?);
    assert!(rt; is_read_and_written(&rt, rt.alloc(), LOG, 1)?);
    Ok(())
}
