ghost use Rattle.std.specs.Prelude.{IfOk, IfSome};
ghost use Rattle.st_model.specs.Arborescence.{IsTree};

use crate::twice_tree_tests::{all, near_cost};
use graph_store::Whole;
use local_search::improve;
use st_model::{Instance, Need, Tree, tree_cost};
use std::alloc::{AllocError, Global};
use std::test::Fail;
use test_instances::link;
use tree_heuristic::{first_tree, prune};

// The first tree, without the leaves that nobody requires.
fn pruned(alloc: Global, whole: &Whole) -> Result<Option<Tree>, AllocError>
    ensures { IfOk result (λ found. IfSome found (IsTree whole.now.instance)) }
{
    let sides = all(alloc)?;
    match first_tree(alloc, &whole.store, &sides)? {
        Some(tree) => {
            let pruned = prune(alloc, &whole.instance, &sides, tree)?;
            Ok(Some(pruned))
        }
        None => Ok(None),
    }
}

// What a tree costs once it is improved.
fn improved_cost(alloc: Global, whole: &Whole, tree: Tree) -> Result<u64, AllocError>
    requires { IsTree whole.now.instance tree }
{
    let improved = improve(alloc, whole, &all(alloc)?, tree)?;
    Ok(tree_cost(&whole.instance, &improved))
}

// What the first tree costs once it is pruned and improved, as a search would start from it.
fn first_cost(alloc: Global, whole: &Whole) -> Result<Option<u64>, AllocError> {
    match pruned(alloc, whole)? {
        Some(tree) => Ok(Some(improved_cost(alloc, whole, tree)?)),
        None => Ok(None),
    }
}

// What the first tree costs, improved, and the near one.
fn costs(alloc: Global, instance: Instance) -> Result<(Option<u64>, Option<u64>), AllocError> {
    let whole = Whole::of(alloc, instance)?;
    let near = near_cost(alloc, &whole.instance, &whole.store)?;
    Ok((first_cost(alloc, &whole)?, near))
}

// Three corners 7 apart, and a centre at 4 from each: the three spokes are the least tree, and two
// sides the near one.
fn spokes(alloc: Global) -> Result<Instance, AllocError> {
    let links = [
        link(1, 4, 4),
        link(2, 4, 4),
        link(3, 4, 4),
        link(1, 2, 7),
        link(2, 3, 7),
        link(1, 3, 7),
    ];
    let needs = [
        (1, Need::Required),
        (2, Need::Required),
        (3, Need::Required),
    ];
    Instance::build(alloc, 4, &links, &needs)
}

// The way from 1 to 2 passes 4, which is nearer to 3 than 2 is. A path to 3 may begin at 4 in the
// first tree, and begins at 2 in the near one.
fn passing(alloc: Global) -> Result<Instance, AllocError> {
    let links = [link(1, 4, 3), link(2, 4, 3), link(3, 4, 3), link(2, 3, 5)];
    let needs = [
        (1, Need::Required),
        (2, Need::Required),
        (3, Need::Required),
    ];
    Instance::build(alloc, 4, &links, &needs)
}

// From 2 there are two ways of 7 to 4, and 3 and 6 are as far. A least tree passes 1 to all but 3; from one
// of three links that join 2, 3, 4 and 6 at 19 no single change is a gain.
fn detours(alloc: Global) -> Result<Instance, AllocError> {
    let links = [
        link(1, 2, 2),
        link(2, 3, 7),
        link(2, 4, 7),
        link(4, 5, 1),
        link(3, 6, 5),
        link(1, 5, 4),
        link(1, 6, 5),
    ];
    let needs = [
        (2, Need::Required),
        (3, Need::Required),
        (4, Need::Required),
        (6, Need::Required),
    ];
    Instance::build(alloc, 6, &links, &needs)
}

#[test]
fn the_first_tree_may_be_cheaper(rt: HostRuntime) -> Result<(), Fail> {
    let alloc = rt.alloc();
    assert!(rt; costs(alloc, spokes(alloc)?)? == (Some(12), Some(14)));
    assert!(rt; costs(alloc, passing(alloc)?)? == (Some(9), Some(11)));
    Ok(())
}

#[test]
fn the_near_tree_may_be_cheaper(rt: HostRuntime) -> Result<(), Fail> {
    let alloc = rt.alloc();
    assert!(rt; costs(alloc, detours(alloc)?)? == (Some(19), Some(17)));
    Ok(())
}
