ghost use Rattle.std.specs.Prelude.{◌≡◌, IfOk, IfSome, OnSome, IsTrue};
ghost use Rattle.st_model.specs.Lists.{has};
ghost use Rattle.prize_transform.specs.Twins.{has_end, is_end, vertex_of};

mod brute_force;

use bidirected_form::Arcs;
use graph_store::Store;
use prize_transform::Twins;
use st_model::{Branch, Need, Sides};
use std::alloc::{AllocError, Global};
use std::test::Fail;
use test_instances::pair;

// Two linked vertices with prizes 3 and 4.
fn store_of_pair(alloc: Global) -> Result<Store, AllocError>
    ensures { IfOk result (λ store. store.network.n ≡ 2) }
{
    Store::of(alloc, &pair(alloc, Need::Pays(3), Need::Pays(4))?)
}

// Their arcs, where the second one is inside and is the root.
fn arcs_of_pair(alloc: Global) -> Result<Arcs, AllocError> {
    let store = store_of_pair(alloc)?;
    let sides = Sides::of(alloc, Branch::all(alloc).with_inside(alloc, 2)?)?;
    Arcs::of(alloc, &store, &sides, 2)
}

fn twins_of_pair(alloc: Global) -> Result<Twins, AllocError> {
    Twins::of(alloc, &arcs_of_pair(alloc)?)
}

// Whether a vertex has an end.
fn ends_at(twins: &Twins, q: u32) -> bool
    ensures { result ≡ has_end twins.now.ends q }
{
    twins.ends().iter().any(|end| end.1 == q)
}

// Charges a vertex, if it has an end and as much is left.
fn charge(twins: &mut Twins, q: u32, y: u64) {
    if ends_at(twins, q) && twins.left(q) >= y {
        twins.charge(q, y);
    }
}

// Whether so much is left for the first vertex of a pair.
fn has_left(twins: &Twins, left: u64) -> bool {
    twins.left(1) == left && twins.left(2) == 0
}

// Whether the first vertex of a pair has the one end.
fn has_one_end(twins: &Twins) -> bool {
    twins.ends() == [(3, 1)].as_slice() && ends_at(twins, 1) && !ends_at(twins, 2)
}

#[test]
fn charges_the_one_end(rt: HostRuntime) -> Result<(), Fail> {
    let mut twins = twins_of_pair(rt.alloc())?;
    assert!(rt; has_one_end(&twins) && has_left(&twins, 3));
    charge(&mut twins, 1, 2);
    assert!(rt; has_left(&twins, 1));
    Ok(())
}

// The vertex of an end, if this is one.
fn vertex_at(ends: &[(u32, u32)], end: u32) -> Option<u32>
    ensures end { OnSome result (IsTrue (is_end ends.now end)) }
    ensures vertex { IfSome result (λ q. q ≡ vertex_of ends.now end) }
{
    match ends {
        [] => None,
        [first, rest @ ..] => {
            if first.0 == end {
                Some(first.1)
            } else {
                vertex_at(rest, end)
            }
        }
    }
}

fn holds(list: &[u32], vertex: u32) -> bool
    ensures { result ≡ has list.now vertex }
{
    list.contains(&vertex)
}

// Goes back from an end, where the list holds the end and its vertex.
fn go_back(
    alloc: Global,
    twins: &Twins,
    list: &[u32],
    end: u32,
) -> Result<Option<(Vec<u32>, u32)>, AllocError> {
    match vertex_at(twins.ends(), end) {
        Some(q) if holds(list, end) && holds(list, q) => Ok(Some(twins.back(alloc, list, end)?)),
        _ => Ok(None),
    }
}

// Whether the list of vertex 1 and its end goes back to 1.
fn goes_back(alloc: Global, twins: &Twins) -> Result<bool, AllocError> {
    match go_back(alloc, twins, &[1, 3], 3)? {
        Some((set, vertex)) => Ok(set.as_slice() == [1].as_slice() && vertex == 1),
        None => Ok(false),
    }
}

#[test]
fn goes_back_to_the_vertex(rt: HostRuntime) -> Result<(), Fail> {
    let twins = twins_of_pair(rt.alloc())?;
    assert!(rt; goes_back(rt.alloc(), &twins)?);
    Ok(())
}

// Gives so much back to a vertex, if it has an end and there is room.
fn give_back(twins: &mut Twins, q: u32, y: u64) {
    if ends_at(twins, q) && twins.left(q) <= u64::MAX - y {
        twins.give_back(q, y);
    }
}

#[test]
fn gives_back_to_the_one_end(rt: HostRuntime) -> Result<(), Fail> {
    let mut twins = twins_of_pair(rt.alloc())?;
    charge(&mut twins, 1, 3);
    let copy = twins.copied(rt.alloc())?;
    give_back(&mut twins, 1, 2);
    assert!(rt; has_left(&twins, 2) && has_left(&copy, 0));
    Ok(())
}
