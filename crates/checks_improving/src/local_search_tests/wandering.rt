ghost use Rattle.st_model.specs.Arborescence.{IsTree};

use crate::shared::{all, tree_over};
use graph_store::Whole;
use local_search::wander;
use st_model::{Instance, Need, Tree, is_tree, tree_cost};
use std::alloc::{AllocError, Global};
use std::test::Fail;
use test_instances::link;

// Required vertices 1 and 2 with a path of cost 4 over vertex 3 and another one over vertex 4, and required
// vertex 5, 3 from vertex 1 and 2 from vertex 4.
fn two_ways(alloc: Global) -> Result<Instance, AllocError> {
    let links = [
        link(1, 3, 2),
        link(2, 3, 2),
        link(1, 4, 2),
        link(2, 4, 2),
        link(1, 5, 3),
        link(4, 5, 2),
    ];
    let needs = [
        (1, Need::Required),
        (2, Need::Required),
        (5, Need::Required),
    ];
    Instance::build(alloc, 5, &links, &needs)
}

// What a walk of so many steps from a tree comes to.
fn cost_from(alloc: Global, whole: &Whole, tree: Tree, steps: u64) -> Result<u64, AllocError>
    requires { IsTree whole.now.instance tree }
{
    let tree = wander(alloc, whole, &all(alloc)?, tree, 1, steps)?;
    Ok(tree_cost(&whole.instance, &tree))
}

// The same from the tree over vertex 3, and u64::MAX where that is no tree.
fn cost_in(alloc: Global, whole: &Whole, steps: u64) -> Result<u64, AllocError> {
    let tree = tree_over(alloc, &[(1, 3), (3, 2), (1, 5)])?;
    if !is_tree(alloc, &whole.instance, &tree)? {
        return Ok(u64::MAX);
    }
    cost_from(alloc, whole, tree, steps)
}

// The same among the two ways.
fn cost_after(alloc: Global, steps: u64) -> Result<u64, AllocError> {
    cost_in(alloc, &Whole::of(alloc, two_ways(alloc)?)?, steps)
}

// No move gains at the tree over vertex 3, which costs 7. The one over vertex 4 costs as much, and there vertex
// 5 is nearer.
#[test]
fn walks_to_a_cheaper_tree(rt: HostRuntime) -> Result<(), Fail> {
    for (steps, cost) in [(0, 7), (6, 6)] {
        assert_eq!(rt; cost_after(rt.alloc(), steps)?, cost);
    }
    Ok(())
}
