ghost use Rattle.std.specs.Prelude.{◌≡◌, IfOk};

use crate::twice_tree_tests::{near_cost, pruned_near_cost};
use graph_store::Store;
use st_model::{Instance, Need};
use std::alloc::{AllocError, Global};
use std::test::Fail;
use test_instances::{Draws, cost_of_set};

// A drawn graph in which nobody pays.
fn drawn(alloc: Global, seed: u64) -> Result<Store, AllocError>
    ensures { IfOk result (λ store. store.network.n ≡ 6) }
{
    let instance = Draws { state: seed }.instance(alloc)?;
    let mut store = Store::of(alloc, &instance)?;
    for vertex in 1..7u32 {
        free(&mut store, vertex);
    }
    Ok(store)
}

// A vertex pays nothing from now on, unless it is required.
fn free(store: &mut Store, vertex: u32)
    ensures { store.new.network.n ≡ store.old.network.n }
{
    if vertex > 0 && vertex <= store.vertices() && store.need(vertex) != Need::Required {
        store.set_need(vertex, Need::Pays(0));
    }
}

// What the least tree costs, by trying all sets of vertices.
fn least(instance: &Instance) -> Option<u64> {
    let mut best: Option<u64> = None;
    for set in 1..64u32 {
        if let Some(cost) = cost_of_set(instance, set.wrapping_mul(2)) {
            best = Some(best.unwrap_or(u64::MAX).min(cost));
        }
    }
    best
}

// How far one vertex is from another, by a table.
fn far(table: &[u64], from: usize, to: usize) -> u64 {
    table
        .get(from.wrapping_mul(7).wrapping_add(to))
        .copied()
        .unwrap_or(u64::MAX)
}

// Lowers what one vertex is far from another.
fn lower(table: &mut [u64], from: usize, to: usize, cost: u64) {
    if let Some(slot) = table.get_mut(from.wrapping_mul(7).wrapping_add(to)) {
        *slot = cost.min(*slot);
    }
}

// How far each vertex is from each other one (Floyd 1962).
fn distances(instance: &Instance) -> [u64; 49] {
    let mut table = [u64::MAX; 49];
    for link in instance.links() {
        lower(&mut table, link.a as usize, link.b as usize, link.cost);
        lower(&mut table, link.b as usize, link.a as usize, link.cost);
    }
    for over in 1..7 {
        for from in 1..7 {
            lower_all(&mut table, from, over);
        }
    }
    table
}

// Lowers what all vertices are far from one, by way of another.
fn lower_all(table: &mut [u64], from: usize, over: usize) {
    for to in 1..7 {
        let cost = far(table, from, over).saturating_add(far(table, over, to));
        lower(table, from, to, cost);
    }
}

// The required vertices.
fn required(instance: &Instance) -> [bool; 7] {
    let mut marks = [false; 7];
    for before in 0..instance.vertices() {
        if let Some(mark) = marks.get_mut(before as usize + 1) {
            *mark = instance.need(before + 1) == Need::Required;
        }
    }
    marks
}

// The least distance from those that are joined to another required vertex, and that vertex.
fn nearest(table: &[u64], required: &[bool], joined: &[bool]) -> Option<(u64, usize)> {
    let mut best: Option<(u64, usize)> = None;
    for pair in 0..49usize {
        let (from, to) = (pair / 7, pair % 7);
        let crosses = joined.get(from) == Some(&true)
            && required.get(to) == Some(&true)
            && joined.get(to) == Some(&false);
        let cost = far(table, from, to);
        if crosses && cost < best.map_or(u64::MAX, |other| other.0) {
            best = Some((cost, to));
        }
    }
    best
}

// What a least spanning tree of the distances between required vertices costs (Prim 1957), as far
// as links lead.
fn spanning(instance: &Instance) -> u64 {
    let table = distances(instance);
    let required = required(instance);
    let mut joined = [false; 7];
    if let Some(first) = required.iter().position(|mark| *mark) {
        if let Some(mark) = joined.get_mut(first) {
            *mark = true;
        }
    }
    let mut spent: u64 = 0;
    for _round in 0..6 {
        if let Some((cost, next)) = nearest(&table, &required, &joined) {
            spent = spent.saturating_add(cost);
            if let Some(mark) = joined.get_mut(next) {
                *mark = true;
            }
        }
    }
    spent
}

// How many vertices are required.
fn count(instance: &Instance) -> u64 {
    let mut many: u64 = 0;
    for mark in required(instance) {
        many = many.saturating_add(u64::from(mark));
    }
    many
}

// Whether a cost is at most twice the least, less a share of one in so many, and at most what a
// spanning tree of the distances costs.
fn is_within(instance: &Instance, cost: u64, least: u64) -> bool {
    let many = count(instance);
    let within = many.saturating_mul(cost)
        <= many
            .saturating_sub(1)
            .saturating_mul(least)
            .saturating_mul(2);
    (many == 0 || within) && cost <= spanning(instance)
}

// Whether the tree of a drawn graph is within both, and found where there is one.
fn agrees(alloc: Global, seed: u64) -> Result<bool, AllocError> {
    let store = drawn(alloc, seed)?;
    let instance = store.instance(alloc)?;
    match (near_cost(alloc, &instance, &store)?, least(&instance)) {
        (Some(cost), Some(least)) => Ok(is_within(&instance, cost, least)),
        (None, None) => Ok(true),
        _ => Ok(false),
    }
}

#[test]
fn is_within_twice_the_least(rt: HostRuntime) -> Result<(), Fail> {
    for seed in 0..200u64 {
        assert!(rt; agrees(rt.alloc(), seed)?, "seed {seed}");
    }
    Ok(())
}

// Whether the tree of a drawn graph, if there is one, costs as much once its leaves are pruned.
fn is_pruned(alloc: Global, seed: u64) -> Result<bool, AllocError> {
    let store = drawn(alloc, seed)?;
    let instance = store.instance(alloc)?;
    Ok(near_cost(alloc, &instance, &store)? == pruned_near_cost(alloc, &instance, &store)?)
}

#[test]
fn has_no_leaf_to_spare(rt: HostRuntime) -> Result<(), Fail> {
    for seed in 0..200u64 {
        assert!(rt; is_pruned(rt.alloc(), seed)?, "seed {seed}");
    }
    Ok(())
}
