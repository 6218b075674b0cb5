ghost use Rattle.std.specs.Prelude.{◌≡◌, IfOk};
ghost use Rattle.st_model.specs.Arborescence.{IsTree};
ghost use Rattle.st_model.specs.Branch.{all_trees};

use graph_store::Store;
use st_model::{Branch, Instance, Listed, Need, Sides, Tree, is_tree, tree_cost};
use std::alloc::{AllocError, Global};
use std::test::Fail;
use test_instances::{link, triangle_with_centre};
use tree_heuristic::{first_tree, guided_tree, prune, wall};

// Required vertices 1 and 3 that are not joined.
fn apart(alloc: Global) -> Result<Instance, AllocError>
    ensures { IfOk result (λ i. i.n ≡ 3) }
{
    let links = [link(1, 2, 1)];
    let needs = [(1, Need::Required), (3, Need::Required)];
    Instance::build(alloc, 3, &links, &needs)
}

// A path 1, 2, 3, 4 whose vertices pay 3, 9, 0 and 8, and whose links cost 2, 2 and 4.
fn path(alloc: Global) -> Result<Instance, AllocError>
    ensures { IfOk result (λ i. i.n ≡ 4) }
{
    let links = [link(1, 2, 2), link(2, 3, 2), link(3, 4, 4)];
    let needs = [(1, Need::Pays(3)), (2, Need::Pays(9)), (4, Need::Pays(8))];
    Instance::build(alloc, 4, &links, &needs)
}

// The branch of all trees.
fn all(alloc: Global) -> Result<Sides, AllocError>
    ensures { IfOk result (λ sides. sides ≡ all_trees) }
{
    Sides::of(alloc, Branch::all(alloc))
}

// What a tree costs that was found, if one was, and u64::MAX where it is none.
fn found_cost(
    alloc: Global,
    instance: &Instance,
    found: &Option<Tree>,
) -> Result<Option<u64>, AllocError> {
    match found {
        Some(tree) if is_tree(alloc, instance, tree)? => Ok(Some(tree_cost(instance, tree))),
        Some(_) => Ok(Some(u64::MAX)),
        None => Ok(None),
    }
}

// What the first tree of a store costs, if there is one.
fn first_in(alloc: Global, instance: &Instance, store: &Store) -> Result<Option<u64>, AllocError> {
    let found = first_tree(alloc, store, &all(alloc)?)?;
    found_cost(alloc, instance, &found)
}

// What the first tree costs, if there is one.
fn first_cost(alloc: Global, instance: &Instance) -> Result<Option<u64>, AllocError> {
    first_in(alloc, instance, &Store::of(alloc, instance)?)
}

// Two ways between the required vertices 1 and 4: over 2 for 3 and 3, and over 3 for 4 and 4.
fn two_ways(alloc: Global) -> Result<Instance, AllocError> {
    let links = [link(1, 2, 3), link(2, 4, 3), link(1, 3, 4), link(3, 4, 4)];
    let needs = [(1, Need::Required), (4, Need::Required)];
    Instance::build(alloc, 4, &links, &needs)
}

// What the tree of a store costs to which weights by vertex lead, if there is one.
fn guided_in(
    alloc: Global,
    instance: &Instance,
    store: &Store,
    weights: &[u64],
) -> Result<Option<u64>, AllocError> {
    let found = guided_tree(alloc, store, &all(alloc)?, weights)?;
    found_cost(alloc, instance, &found)
}

// What that one of the two ways costs to which weights by vertex lead.
fn guided_cost(alloc: Global, weights: &[u64]) -> Result<Option<u64>, AllocError> {
    let instance = two_ways(alloc)?;
    let store = Store::of(alloc, &instance)?;
    guided_in(alloc, &instance, &store, weights)
}

// What is left of a tree costs.
fn left_cost(alloc: Global, instance: &Instance, tree: Tree) -> Result<u64, AllocError>
    requires { IsTree instance.now tree }
{
    let left = prune(alloc, instance, &all(alloc)?, tree)?;
    Ok(tree_cost(instance, &left))
}

// What is left of a tree of these arcs costs, and u64::MAX where they are no tree.
fn pruned_cost(
    alloc: Global,
    instance: &Instance,
    start: u32,
    arcs: &[(u32, u32)],
) -> Result<u64, AllocError> {
    let arcs = Listed::of(Vec::from_slice(alloc, arcs)?);
    let tree = Tree { start, arcs };
    if !is_tree(alloc, instance, &tree)? {
        return Ok(u64::MAX);
    }
    left_cost(alloc, instance, tree)
}

// Whether a wall is found round one of the two parts of what is apart.
fn finds_a_part(alloc: Global) -> Result<bool, AllocError> {
    let found = wall(alloc, &apart(alloc)?)?;
    match &found {
        Some(part) => {
            let part = part.as_slice();
            Ok(part == [1, 2].as_slice() || part == [3].as_slice())
        }
        None => Ok(false),
    }
}

#[test]
fn joins_the_corners(rt: HostRuntime) -> Result<(), Fail> {
    let cost = first_cost(rt.alloc(), &triangle_with_centre(rt.alloc(), 4)?)?;
    assert!(rt; cost == Some(6) || cost == Some(8));
    Ok(())
}

#[test]
fn finds_no_tree_of_what_is_apart(rt: HostRuntime) -> Result<(), Fail> {
    let cost = first_cost(rt.alloc(), &apart(rt.alloc())?)?;
    assert!(rt; cost.is_none());
    Ok(())
}

// All four vertices are worth their links but the last one.
#[test]
fn takes_what_is_worth_it(rt: HostRuntime) -> Result<(), Fail> {
    let cost = first_cost(rt.alloc(), &path(rt.alloc())?)?;
    assert!(rt; cost == Some(8));
    Ok(())
}

// Where 2 weighs so much that the way over it looks dearer; a vertex past the list's end weighs 50.
#[test]
fn keeps_to_weights(rt: HostRuntime) -> Result<(), Fail> {
    let alloc = rt.alloc();
    assert!(rt; guided_cost(alloc, &[])? == Some(6));
    assert!(rt; guided_cost(alloc, &[50, 50, 120, 50, 50])? == Some(8));
    assert!(rt; guided_cost(alloc, &[50, 50, 80, 50, 50])? == Some(6));
    assert!(rt; guided_cost(alloc, &[90, 90])? == Some(6));
    Ok(())
}

#[test]
fn finds_walls(rt: HostRuntime) -> Result<(), Fail> {
    assert!(rt; wall(rt.alloc(), &triangle_with_centre(rt.alloc(), 4)?)?.is_none());
    assert!(rt; finds_a_part(rt.alloc())?);
    Ok(())
}

// The way round over the sides, with the centre as a spare leaf.
#[test]
fn prunes_the_centre(rt: HostRuntime) -> Result<(), Fail> {
    let arcs = [(1, 2), (2, 3), (1, 4)];
    let cost = pruned_cost(rt.alloc(), &triangle_with_centre(rt.alloc(), 4)?, 1, &arcs)?;
    assert!(rt; cost == 8);
    Ok(())
}

// From either end of the path: vertex 4 stays, since it pays more than its link costs.
#[test]
fn prunes_a_path(rt: HostRuntime) -> Result<(), Fail> {
    let cost = pruned_cost(rt.alloc(), &path(rt.alloc())?, 3, &[(3, 2), (2, 1)])?;
    assert!(rt; cost == 10);
    Ok(())
}
