ghost use Rattle.std.specs.Prelude.{◌≡◌, ◌+◌, ◌^◌, ◌<◌, ◌≤◌, ◌↔◌, IfOk, IsTrue, IsFalse, All, unwrap_or};
ghost use Rattle.st_model.specs.Branch.{IsVertexSet};
ghost use Rattle.st_model.specs.Lists.{has};
ghost use Rattle.bidirected_form.specs.Digraph.{remaining};

mod brute_force;
mod drawn;
mod plain;

use bidirected_form::{Arc, Arcs, VertexKind};
use graph_store::Store;
use st_model::{Branch, Sides};
use std::alloc::{AllocError, Global};
use std::test::Fail;
use test_instances::triangle_with_centre;

fn arc(tail: u32, remaining: u64) -> Arc {
    Arc { tail, remaining }
}

// Three terminals joined to each other at 4, and to a centre at 2.
fn store_of_triangle(alloc: Global) -> Result<Store, AllocError>
    ensures { IfOk result (λ store. store.network.n ≡ 4) }
{
    Store::of(alloc, &triangle_with_centre(alloc, 4)?)
}

// The triangle's arcs, less an outside vertex.
fn triangle(alloc: Global, outside: &[u32]) -> Result<Arcs, AllocError>
    ensures count { IfOk result (λ arcs. arcs.n ≡ 4) }
    ensures root { IfOk result (λ arcs. arcs.root ≡ 1) }
{
    let store = store_of_triangle(alloc)?;
    let sides = without(alloc, outside)?;
    Arcs::of(alloc, &store, &sides, 1)
}

// The branch with these vertices outside.
fn without(alloc: Global, outside: &[u32]) -> Result<Sides, AllocError> {
    let branch = Branch::leaving_out(alloc, Vec::from_slice(alloc, outside)?);
    Sides::of(alloc, branch)
}

// Whether the root, the kinds and the arcs into 2 are those of the triangle.
fn is_triangle(arcs: &Arcs) -> bool
    requires { arcs.now.n ≡ 4 }
{
    arcs.root() == 1
        && arcs.vertices() == 4
        && arcs.kind(2) == VertexKind::Must
        && arcs.kind(4) == VertexKind::May(0)
        && arcs.neighbours(2) == [1, 3, 4].as_slice()
        && arcs.arcs_into(2) == [arc(1, 4), arc(3, 4), arc(4, 2)].as_slice()
}

// What remains of an arc of the triangle.
fn remaining_of_triangle(alloc: Global, u: u32, v: u32) -> Result<Option<u64>, AllocError> {
    Ok(triangle(alloc, &[])?.remaining(u, v))
}

#[test]
fn reads_the_triangle(rt: HostRuntime) -> Result<(), Fail> {
    assert!(rt; is_triangle(&triangle(rt.alloc(), &[])?));
    for (u, v, left) in [
        (1, 2, Some(4)),
        (4, 2, Some(2)),
        (2, 4, Some(2)),
        (2, 2, None),
        (2, 0, None),
        (2, 5, None),
    ] {
        let found = remaining_of_triangle(rt.alloc(), u, v)?;
        assert_eq!(rt; found, left, "from {u} to {v}");
    }
    Ok(())
}

// Whether 4 has no arcs.
fn is_without_centre(arcs: &Arcs) -> bool
    requires { arcs.now.n ≡ 4 }
{
    arcs.kind(4) == VertexKind::Outside
        && arcs.neighbours(2) == [1, 3].as_slice()
        && arcs.remaining(2, 4) == None
        && arcs.remaining(4, 2) == None
}

#[test]
fn leaves_an_outside_vertex_without_arcs(rt: HostRuntime) -> Result<(), Fail> {
    assert!(rt; is_without_centre(&triangle(rt.alloc(), &[4])?));
    Ok(())
}

// The triangle's arcs, where the link between 2 and the centre is barred.
fn triangle_with_barred(alloc: Global) -> Result<Arcs, AllocError>
    ensures { IfOk result (λ arcs. arcs.n ≡ 4) }
{
    let store = store_of_triangle(alloc)?;
    let sides = without_spoke(alloc)?;
    Arcs::of(alloc, &store, &sides, 1)
}

// The branch with that link barred.
fn without_spoke(alloc: Global) -> Result<Sides, AllocError> {
    let branch = Branch::all(alloc).with_barred(alloc, 2, 4)?;
    Sides::of(alloc, branch)
}

// Whether no arc joins 2 and 4, and all others are there.
fn is_without_spoke(arcs: &Arcs) -> bool
    requires { arcs.now.n ≡ 4 }
{
    arcs.arcs_into(2) == [arc(1, 4), arc(3, 4)].as_slice()
        && arcs.arcs_into(4) == [arc(1, 2), arc(3, 2)].as_slice()
        && arcs.neighbours(1) == [2, 3, 4].as_slice()
        && arcs.neighbours(3) == [1, 2, 4].as_slice()
        && arcs.remaining(2, 4) == None
        && arcs.remaining(4, 2) == None
}

#[test]
fn leaves_a_barred_link_without_arcs(rt: HostRuntime) -> Result<(), Fail> {
    assert!(rt; is_without_spoke(&triangle_with_barred(rt.alloc())?));
    Ok(())
}

// What remains of an arc is this at least.
fn bears(arcs: &Arcs, arc: (u32, u32), y: u64) -> bool
    ensures { IsTrue result ↔ (y ≤ unwrap_or (remaining arcs.now arc.0 arc.1) 0) }
{
    arcs.remaining(arc.0, arc.1).unwrap_or(0) >= y
}

fn all_bear(arcs: &Arcs, entering: &[(u32, u32)], y: u64) -> bool
    ensures { IsTrue result ↔ All (λ arc. y ≤ unwrap_or (remaining arcs.now arc.0 arc.1) 0) entering.now }
{
    entering.iter().all(|arc| bears(arcs, *arc, y))
}

// Charges a set, if each arc that enters it bears as much, and gives those arcs.
fn charge(
    alloc: Global,
    arcs: &mut Arcs,
    set: &[u32],
    y: u64,
) -> Result<Vec<(u32, u32)>, AllocError>
    requires set { IsVertexSet arcs.old.n set.now }
    requires root { IsFalse (has set.now arcs.old.root) }
    ensures { arcs.new.n ≡ arcs.old.n }
{
    let entering = arcs.entering(alloc, set)?;
    if all_bear(arcs, &entering, y) {
        arcs.charge(set, y);
    }
    Ok(entering)
}

// The arcs that enter vertex 2 of the triangle, as they are found where they are charged.
fn charged_arcs(alloc: Global) -> Result<Vec<(u32, u32)>, AllocError> {
    let mut arcs = triangle(alloc, &[])?;
    charge(alloc, &mut arcs, &[2], 2)
}

// The triangle's arcs where 2 is charged to those that enter vertex 2.
fn charged(alloc: Global) -> Result<Arcs, AllocError>
    ensures { IfOk result (λ arcs. arcs.n ≡ 4) }
{
    let mut arcs = triangle(alloc, &[])?;
    charge(alloc, &mut arcs, &[2], 2)?;
    Ok(arcs)
}

// What remains of an arc there.
fn remaining_of_charged(alloc: Global, u: u32, v: u32) -> Result<Option<u64>, AllocError> {
    Ok(charged(alloc)?.remaining(u, v))
}

#[test]
fn charges_what_enters(rt: HostRuntime) -> Result<(), Fail> {
    let entering = charged_arcs(rt.alloc())?;
    assert_eq!(rt; entering.as_slice(), [(1, 2), (3, 2), (4, 2)].as_slice());
    for (u, v, left) in [
        (4, 2, Some(0)),
        (1, 2, Some(2)),
        (2, 1, Some(4)),
        (2, 4, Some(2)),
        (1, 3, Some(4)),
    ] {
        let found = remaining_of_charged(rt.alloc(), u, v)?;
        assert_eq!(rt; found, left, "from {u} to {v}");
    }
    Ok(())
}

// What remains of an arc and so much more fit in 64 bits.
fn takes(arcs: &Arcs, arc: (u32, u32), y: u64) -> bool
    ensures { IsTrue result ↔ (unwrap_or (remaining arcs.now arc.0 arc.1) 0 + y < 2 ^ 64) }
{
    arcs.remaining(arc.0, arc.1).unwrap_or(0) <= u64::MAX - y
}

fn all_take(arcs: &Arcs, entering: &[(u32, u32)], y: u64) -> bool
    ensures { IsTrue result ↔ All (λ arc. unwrap_or (remaining arcs.now arc.0 arc.1) 0 + y < 2 ^ 64) entering.now }
{
    entering.iter().all(|arc| takes(arcs, *arc, y))
}

// Gives so much back to the arcs that enter a set, if it fits.
fn give_back(alloc: Global, arcs: &mut Arcs, set: &[u32], y: u64) -> Result<(), AllocError>
    requires set { IsVertexSet arcs.old.n set.now }
    ensures { arcs.new.n ≡ arcs.old.n }
{
    let entering = arcs.entering(alloc, set)?;
    if all_take(arcs, &entering, y) {
        arcs.give_back(set, y);
    }
    Ok(())
}

// What remains of an arc once 1 of what was charged is given back, and in a copy made before.
fn remaining_and_before(
    alloc: Global,
    u: u32,
    v: u32,
) -> Result<(Option<u64>, Option<u64>), AllocError> {
    let mut arcs = charged(alloc)?;
    let copy = arcs.copied(alloc)?;
    give_back(alloc, &mut arcs, &[2], 1)?;
    Ok((arcs.remaining(u, v), copy.remaining(u, v)))
}

#[test]
fn gives_back_to_what_enters(rt: HostRuntime) -> Result<(), Fail> {
    for (u, v, left, left_before) in [
        (4, 2, Some(1), Some(0)),
        (1, 2, Some(3), Some(2)),
        (2, 1, Some(4), Some(4)),
        (2, 4, Some(2), Some(2)),
        (1, 3, Some(4), Some(4)),
    ] {
        let found = remaining_and_before(rt.alloc(), u, v)?;
        assert_eq!(rt; found, (left, left_before), "from {u} to {v}");
    }
    Ok(())
}
