ghost use Rattle.st_model.specs.Arborescence.{IsTree};

use crate::shared::{all, tree_over, two_paths};
use graph_store::Whole;
use local_search::{improve, judged};
use st_model::{Instance, Link, Need, Tree, is_tree, tree_cost};
use std::alloc::{AllocError, Global};
use std::test::Fail;
use test_instances::{link, triangle_with_centre};

mod brute_force;
mod drawn;
mod wandering;

// What a tree costs once it is improved.
fn cost_of_better(alloc: Global, whole: &Whole, tree: Tree) -> Result<u64, AllocError>
    requires { IsTree whole.now.instance tree }
{
    let better = improve(alloc, whole, &all(alloc)?, tree)?;
    Ok(tree_cost(&whole.instance, &better))
}

// What the tree of these arcs costs once it is improved, and u64::MAX where they are no tree.
fn better_in(alloc: Global, whole: &Whole, arcs: &[(u32, u32)]) -> Result<u64, AllocError> {
    let tree = tree_over(alloc, arcs)?;
    if !is_tree(alloc, &whole.instance, &tree)? {
        return Ok(u64::MAX);
    }
    cost_of_better(alloc, whole, tree)
}

// The same in an instance.
fn improved_cost(
    alloc: Global,
    instance: Instance,
    arcs: &[(u32, u32)],
) -> Result<u64, AllocError> {
    better_in(alloc, &Whole::of(alloc, instance)?, arcs)
}

// Required vertices 1, 2 and 3, each with a link of 3 to vertex 4, and over a vertex of its own with
// links of 1 to vertex 8.
fn two_stars(alloc: Global) -> Result<Instance, AllocError> {
    let links = [
        link(1, 4, 3),
        link(2, 4, 3),
        link(3, 4, 3),
        link(1, 5, 1),
        link(2, 6, 1),
        link(3, 7, 1),
        link(5, 8, 1),
        link(6, 8, 1),
        link(7, 8, 1),
    ];
    let needs = [
        (1, Need::Required),
        (2, Need::Required),
        (3, Need::Required),
    ];
    Instance::build(alloc, 8, &links, &needs)
}

// Required vertex 1, and over vertices that pay nothing one that pays 7, at 9, and one that pays 5,
// at 4.
fn two_prizes(alloc: Global) -> Result<Instance, AllocError> {
    let links = [link(1, 2, 8), link(2, 3, 1), link(1, 4, 3), link(4, 5, 1)];
    let needs = [(1, Need::Required), (3, Need::Pays(7)), (5, Need::Pays(5))];
    Instance::build(alloc, 5, &links, &needs)
}

// A triangle of required vertices, the way round over whose links of 4 two of them are dear.
fn uneven_triangle(alloc: Global) -> Result<Instance, AllocError> {
    let links: [Link; 3] = [link(1, 2, 9), link(2, 3, 4), link(1, 3, 4)];
    let needs = [
        (1, Need::Required),
        (2, Need::Required),
        (3, Need::Required),
    ];
    Instance::build(alloc, 3, &links, &needs)
}

// The same vertices over cheaper links.
#[test]
fn spans_what_is_reached(rt: HostRuntime) -> Result<(), Fail> {
    let instance = uneven_triangle(rt.alloc())?;
    let cost = improved_cost(rt.alloc(), instance, &[(1, 2), (2, 3)])?;
    assert_eq!(rt; cost, 8);
    Ok(())
}

#[test]
fn puts_the_centre_in(rt: HostRuntime) -> Result<(), Fail> {
    let instance = triangle_with_centre(rt.alloc(), 4)?;
    let cost = improved_cost(rt.alloc(), instance, &[(1, 2), (2, 3)])?;
    assert_eq!(rt; cost, 6);
    Ok(())
}

#[test]
fn exchanges_a_key_path(rt: HostRuntime) -> Result<(), Fail> {
    let instance = two_paths(rt.alloc())?;
    let cost = improved_cost(rt.alloc(), instance, &[(1, 3), (3, 2)])?;
    assert_eq!(rt; cost, 6);
    Ok(())
}

#[test]
fn takes_a_key_vertex_out(rt: HostRuntime) -> Result<(), Fail> {
    let instance = two_stars(rt.alloc())?;
    let cost = improved_cost(rt.alloc(), instance, &[(1, 4), (4, 2), (4, 3)])?;
    assert_eq!(rt; cost, 6);
    Ok(())
}

// The prize of 7 isn't worth its way, and that of 5 is.
#[test]
fn weighs_prizes(rt: HostRuntime) -> Result<(), Fail> {
    let instance = two_prizes(rt.alloc())?;
    let cost = improved_cost(rt.alloc(), instance, &[(1, 2), (2, 3)])?;
    assert_eq!(rt; cost, 11);
    Ok(())
}

// Whether arcs from 1 are judged to be a tree of an instance.
fn is_judged_in(
    alloc: Global,
    instance: &Instance,
    arcs: &[(u32, u32)],
) -> Result<bool, AllocError> {
    let tree = tree_over(alloc, arcs)?;
    let found = judged(alloc, instance, &all(alloc)?, tree)?;
    Ok(found.is_some())
}

// Whether they are of the two paths.
fn is_judged_so(alloc: Global, arcs: &[(u32, u32)]) -> Result<bool, AllocError> {
    is_judged_in(alloc, &two_paths(alloc)?, arcs)
}

#[test]
fn judges_what_was_found_elsewhere(rt: HostRuntime) -> Result<(), Fail> {
    assert!(rt; is_judged_so(rt.alloc(), &[(1, 4), (4, 5), (5, 2)])?);
    assert!(rt; !is_judged_so(rt.alloc(), &[(1, 2)])?, "over no link");
    assert!(rt;
        !is_judged_so(rt.alloc(), &[(1, 4), (4, 5)])?,
        "without a required vertex"
    );
    Ok(())
}
