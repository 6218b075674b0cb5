ghost use Rattle.st_model.specs.Branch.{all_trees};
ghost use Rattle.dual_ascent.specs.Extension.{IsRootFor};
ghost use Rattle.node_work.specs.Node.{no_cuts};

use super::roots::{ring, root_of_all, tree_of_ring};
use better_trees::Incumbent;
use branching::Node;
use graph_store::Whole;
use node_work::{End, Manner, expand, no_cuts};
use st_model::{Branch, Tree};
use std::alloc::{AllocError, Global};
use std::test::Fail;
use std::thread::Threads;

// What a better tree costs that the work on the node of all trees finds, if it does, where the node
// closes. None where it splits.
fn closes<R: Threads + Sync>(
    rt: &R,
    alloc: Global,
    whole: &Whole,
    root: u32,
    incumbent: &Incumbent<'_>,
    threads: usize,
) -> Result<Option<Option<u64>>, AllocError>
    requires { IsRootFor whole.now.instance all_trees no_cuts root }
{
    prove!(whole.instance.vertices() > 0);
    let node = Node {
        id: 0,
        branch: Branch::all(alloc),
        packing: no_cuts(alloc),
    };
    let manner = Manner {
        threads,
        links: false,
    };
    let step = expand(rt, alloc, whole, node, incumbent, None, manner)?;
    match step.end {
        End::Close(_) => Ok(Some(step.better.map(|better| better.price))),
        End::Split(_, _, _) => Ok(None),
    }
}

// Whether the ring closes in so many threads, by a better tree where it is known to cost 8, and without
// one where the tree of 7 is known.
fn closes_the_ring<R: Threads + Sync>(
    rt: &R,
    alloc: Global,
    threads: usize,
) -> Result<bool, AllocError> {
    let whole = ring(alloc)?;
    let tree = tree_of_ring(alloc)?;
    closes_both_ways(rt, alloc, &whole, &tree, threads)
}

// The same of an instance with this tree.
fn closes_both_ways<R: Threads + Sync>(
    rt: &R,
    alloc: Global,
    whole: &Whole,
    tree: &Tree,
    threads: usize,
) -> Result<bool, AllocError> {
    let Some(root) = root_of_all(alloc, &whole.instance)? else {
        return Ok(false);
    };
    let dear = Incumbent { tree, cost: 8 };
    let cheap = Incumbent { tree, cost: 7 };
    let better = closes(rt, alloc, whole, root, &dear, threads)?;
    let none = closes(rt, alloc, whole, root, &cheap, threads)?;
    Ok(better == Some(Some(7)) && none == Some(None))
}

#[test]
fn a_node_closes_by_cuts(rt: HostRuntime) -> Result<(), Fail> {
    for threads in [0, 1, 2] {
        assert!(rt; closes_the_ring(&rt, rt.alloc(), threads)?);
    }
    Ok(())
}
