ghost use Rattle.std.specs.Prelude.{◌≡◌, ℕ, IfOk, IsTrue};
ghost use Rattle.std.specs.Bool.{OnTrue};
ghost use Rattle.st_model.specs.Branch.{all_trees};
ghost use Rattle.st_model.specs.Network.{IsVertex, is_required, pays};
ghost use Rattle.st_model.specs.Terminals.{IsTerminal, NobodyPays};
ghost use Rattle.graph_store.specs.Graph.{is_in};

use graph_store::Store;
use st_model::{Branch, Instance, Need, Sides, Tree, is_tree, tree_cost};
use std::alloc::{AllocError, Global};
use std::test::Fail;
use test_instances::{link, odd_wheel, triangle_with_centre};
use tree_heuristic::prune;
use twice_tree::near_tree;

mod brute_force;
mod starts;

// Whether a vertex pays nothing, and is present where it is required.
fn is_plain(store: &Store, vertex: u32) -> bool
    requires { IsVertex store.now.network.n vertex }
    ensures free { OnTrue result (pays store.now.network vertex ≡ 0) }
    ensures here { OnTrue result (IsTrue (is_required store.now.network vertex) → IsTrue (is_in store.now vertex)) }
{
    match store.need(vertex) {
        Need::Required => store.is_present(vertex),
        Need::Pays(prize) => prize == 0,
    }
}

// Whether nobody pays, and all who are required are present.
fn are_plain(store: &Store) -> bool
    ensures free { OnTrue result (NobodyPays store.now.network) }
    ensures here { OnTrue result ((v : ℕ) → IsTerminal store.now.network v → IsTrue (is_in store.now v)) }
{
    for before in 0..store.vertices() {
        if !is_plain(store, before + 1) {
            return false;
        }
    }
    true
}

// What a tree costs that was found, if one was, and u64::MAX where it is none.
fn found_cost(
    alloc: Global,
    instance: &Instance,
    found: &Option<Tree>,
) -> Result<Option<u64>, AllocError> {
    match found {
        Some(tree) if is_tree(alloc, instance, tree)? => Ok(Some(tree_cost(instance, tree))),
        Some(_) => Ok(Some(u64::MAX)),
        None => Ok(None),
    }
}

// What the tree of a store costs, if there is one, and u64::MAX where none may be asked for.
pub fn near_cost(
    alloc: Global,
    instance: &Instance,
    store: &Store,
) -> Result<Option<u64>, AllocError> {
    if !are_plain(store) {
        return Ok(Some(u64::MAX));
    }
    let found = near_tree(alloc, store)?;
    found_cost(alloc, instance, &found)
}

// The branch of all trees.
pub fn all(alloc: Global) -> Result<Sides, AllocError>
    ensures { IfOk result (λ sides. sides ≡ all_trees) }
{
    Sides::of(alloc, Branch::all(alloc))
}

// What the tree of a store costs once its leaves are pruned, if there is one and it may be asked for.
pub fn pruned_near_cost(
    alloc: Global,
    instance: &Instance,
    store: &Store,
) -> Result<Option<u64>, AllocError>
    requires { instance.now ≡ store.now.network }
{
    if !are_plain(store) {
        return Ok(None);
    }
    match near_tree(alloc, store)? {
        Some(tree) => {
            let pruned = prune(alloc, instance, &all(alloc)?, tree)?;
            Ok(Some(tree_cost(instance, &pruned)))
        }
        None => Ok(None),
    }
}

// What the tree of an instance costs.
fn cost_in(alloc: Global, instance: &Instance) -> Result<Option<u64>, AllocError> {
    near_cost(alloc, instance, &Store::of(alloc, instance)?)
}

// Required vertices 1 and 3 that are not joined.
fn apart(alloc: Global) -> Result<Instance, AllocError> {
    let links = [link(1, 2, 1)];
    let needs = [(1, Need::Required), (3, Need::Required)];
    Instance::build(alloc, 3, &links, &needs)
}

// Two ways between the required vertices 1 and 4: over 2 for 3 and 3, and over 3 for 4 and 4.
fn two_ways(alloc: Global) -> Result<Instance, AllocError>
    ensures { IfOk result (λ i. i.n ≡ 4) }
{
    let links = [link(1, 2, 3), link(2, 4, 3), link(1, 3, 4), link(3, 4, 4)];
    let needs = [(1, Need::Required), (4, Need::Required)];
    Instance::build(alloc, 4, &links, &needs)
}

// What is left of the two ways once 2 is gone.
fn way_left(alloc: Global) -> Result<Option<u64>, AllocError> {
    let mut store = Store::of(alloc, &two_ways(alloc)?)?;
    store.remove_vertex(2);
    near_cost(alloc, &store.instance(alloc)?, &store)
}

// A vertex alone.
fn alone(alloc: Global) -> Result<Instance, AllocError> {
    Instance::build(alloc, 1, &[], &[(1, Need::Required)])
}

// A path 1, 2, 3, 4 all of which are required, with links of 2, 0 and 4.
fn path(alloc: Global) -> Result<Instance, AllocError> {
    let links = [link(1, 2, 2), link(2, 3, 0), link(3, 4, 4)];
    let needs = [
        (1, Need::Required),
        (2, Need::Required),
        (3, Need::Required),
        (4, Need::Required),
    ];
    Instance::build(alloc, 4, &links, &needs)
}

// Two parts, of which one has both required vertices, one of them at the end of links of cost 0.
fn two_parts(alloc: Global) -> Result<Instance, AllocError> {
    let links = [link(1, 2, 0), link(2, 3, 0), link(4, 5, 7)];
    let needs = [(1, Need::Required), (3, Need::Required)];
    Instance::build(alloc, 5, &links, &needs)
}

// Nobody is required.
fn nobody(alloc: Global) -> Result<Instance, AllocError> {
    Instance::build(alloc, 2, &[link(1, 2, 1)], &[])
}

#[test]
fn joins_the_corners(rt: HostRuntime) -> Result<(), Fail> {
    let cost = cost_in(rt.alloc(), &triangle_with_centre(rt.alloc(), 4)?)?;
    assert!(rt; cost == Some(6) || cost == Some(8));
    Ok(())
}

#[test]
fn joins_an_odd_wheel(rt: HostRuntime) -> Result<(), Fail> {
    let cost = cost_in(rt.alloc(), &odd_wheel(rt.alloc())?)?;
    assert!(rt; cost == Some(10) || cost == Some(12));
    Ok(())
}

#[test]
fn finds_no_near_tree_of_what_is_apart(rt: HostRuntime) -> Result<(), Fail> {
    let cost = cost_in(rt.alloc(), &apart(rt.alloc())?)?;
    assert!(rt; cost.is_none());
    Ok(())
}

#[test]
fn goes_past_who_is_gone(rt: HostRuntime) -> Result<(), Fail> {
    let alloc = rt.alloc();
    assert!(rt; cost_in(alloc, &two_ways(alloc)?)? == Some(6));
    assert!(rt; way_left(alloc)? == Some(8));
    Ok(())
}

#[test]
fn stays_where_one_or_nobody_is_required(rt: HostRuntime) -> Result<(), Fail> {
    let alloc = rt.alloc();
    assert!(rt; cost_in(alloc, &alone(alloc)?)? == Some(0));
    assert!(rt; cost_in(alloc, &nobody(alloc)?)? == Some(0));
    Ok(())
}

#[test]
fn goes_along_paths_and_free_links(rt: HostRuntime) -> Result<(), Fail> {
    let alloc = rt.alloc();
    assert!(rt; cost_in(alloc, &path(alloc)?)? == Some(6));
    assert!(rt; cost_in(alloc, &two_parts(alloc)?)? == Some(0));
    Ok(())
}
