ghost use Rattle.std.specs.Prelude.{◌≡◌, ◌≤◌, IfOk};
ghost use Rattle.std.specs.Bool.{OnTrue};
ghost use Rattle.st_model.specs.Network.{IsVertex};
ghost use Rattle.dual_ascent.specs.Left.{IsThere};

use crate::dual_ascent_tests::ascending::{weight, whole};
use bidirected_form::{Arcs, VertexKind};
use cut_packing::{Cut, Packing};
use dual_ascent::{ascend, fix_levels};
use graph_store::Store;
use prize_transform::Twins;
use st_model::{Branch, Instance, Need, Sides};
use std::alloc::{AllocError, Global};
use std::test::Fail;
use test_instances::{Draws, link, triangle_with_centre};

// Whether a vertex is there, so that cuts can be made for it.
fn is_there(arcs: &Arcs, vertex: u32) -> bool
    ensures vertex { OnTrue result (IsVertex arcs.now.n vertex) }
    ensures there { OnTrue result (IsThere arcs.now vertex) }
{
    if vertex < 1 || arcs.vertices() < vertex {
        return false;
    }
    match arcs.kind(vertex) {
        VertexKind::Outside => false,
        VertexKind::Must | VertexKind::May(_) => true,
    }
}

// The cuts for a vertex, if it is there.
fn cuts_for(
    alloc: Global,
    arcs: &Arcs,
    vertex: u32,
    target: u64,
) -> Result<Option<Packing>, AllocError> {
    if !is_there(arcs, vertex) {
        return Ok(None);
    }
    Ok(Some(fix_levels(alloc, arcs, vertex, target)?))
}

// What they weigh.
fn worth(alloc: Global, arcs: &Arcs, vertex: u32, target: u64) -> Result<Option<u64>, AllocError> {
    match cuts_for(alloc, arcs, vertex, target)? {
        Some(packing) => Ok(Some(weight(&packing))),
        None => Ok(None),
    }
}

// What they weigh over the whole arcs of an instance.
fn worth_whole(
    alloc: Global,
    instance: &Instance,
    vertex: u32,
    target: u64,
) -> Result<Option<u64>, AllocError>
    requires { 1 ≤ instance.now.n }
{
    let (arcs, _) = whole(alloc, instance)?;
    worth(alloc, &arcs, vertex, target)
}

fn worth_in_triangle(alloc: Global, vertex: u32, target: u64) -> Result<Option<u64>, AllocError> {
    let instance = triangle_with_centre(alloc, 4)?;
    worth_whole(alloc, &instance, vertex, target)
}

#[test]
fn fixes_the_centre_of_the_triangle(rt: HostRuntime) -> Result<(), Fail> {
    for (vertex, target, want) in [
        (4, 10, Some(2)),
        (4, 1, Some(1)),
        (2, 10, Some(4)),
        (5, 10, None),
    ] {
        let found = worth_in_triangle(rt.alloc(), vertex, target)?;
        assert_eq!(rt; found, want, "for {vertex} up to {target}");
    }
    Ok(())
}

#[test]
fn reaches_any_target_where_no_walk_leads(rt: HostRuntime) -> Result<(), Fail> {
    let needs = [(1, Need::Required), (2, Need::Pays(1))];
    let instance = Instance::build(rt.alloc(), 2, &[], &needs)?;
    let found = worth_whole(rt.alloc(), &instance, 2, u64::MAX)?;
    assert_eq!(rt; found, Some(u64::MAX));
    Ok(())
}

// Whether a cut is round these vertices, of this value.
fn is_cut(cut: &Cut, set: &[u32], y: u64) -> bool {
    cut.y == y && cut.set.as_slice() == set
}

// Whether there is a cut of 4 round vertex 3, and one of 4 round 2 and 3.
fn are_levels(packing: &Packing) -> bool {
    match packing.cuts.as_slice() {
        [low, high] => is_cut(low, &[3], 4) && is_cut(high, &[2, 3], 4),
        _ => false,
    }
}

// Whether these are the cuts for vertex 3 up to 8 over the whole arcs of an instance.
fn cuts_levels(alloc: Global, instance: &Instance) -> Result<bool, AllocError>
    requires { 1 ≤ instance.now.n }
{
    let (arcs, _) = whole(alloc, instance)?;
    match cuts_for(alloc, &arcs, 3, 8)? {
        Some(packing) => Ok(are_levels(&packing)),
        None => Ok(false),
    }
}

#[test]
fn cuts_at_each_distance(rt: HostRuntime) -> Result<(), Fail> {
    let links = [link(1, 2, 5), link(2, 3, 4), link(3, 4, 9)];
    let instance = Instance::build(rt.alloc(), 4, &links, &[(1, Need::Required)])?;
    assert!(rt; cuts_levels(rt.alloc(), &instance)?);
    Ok(())
}

// A branch with one vertex outside.
fn without(alloc: Global, vertex: u32) -> Result<Sides, AllocError> {
    let branch = Branch::leaving_out(alloc, Vec::from_slice(alloc, &[vertex])?);
    Sides::of(alloc, branch)
}

// Takes from arcs what an ascent to a target takes.
fn ascend_to(alloc: Global, arcs: &mut Arcs, target: u64) -> Result<(), AllocError> {
    let mut twins = Twins::of(alloc, arcs)?;
    ascend(alloc, arcs, &mut twins, &[], target)?;
    Ok(())
}

// An instance that is drawn.
fn drawn_store(alloc: Global, draws: &mut Draws) -> Result<Store, AllocError>
    ensures { IfOk result (λ store. store.network.n ≡ 6) }
{
    let instance = draws.instance(alloc)?;
    Store::of(alloc, &instance)
}

// The arcs of what is drawn, from a vertex that is drawn, with one drawn outside.
fn drawn(alloc: Global, draws: &mut Draws) -> Result<Arcs, AllocError> {
    let store = drawn_store(alloc, draws)?;
    let branch = without(alloc, draws.vertex())?;
    Arcs::of(alloc, &store, &branch, draws.vertex())
}

// Lowers a distance, if that is there.
fn lower(distances: &mut [u64], vertex: u32, distance: u64) {
    if let Some(place) = distances.get_mut(vertex as usize) {
        *place = distance.min(*place);
    }
}

fn at(distances: &[u64], vertex: u32) -> u64 {
    distances.get(vertex as usize).copied().unwrap_or(u64::MAX)
}

// How far the root is from a vertex: all arcs are looked at as often as there are vertices.
// (Bellman 1958)
fn distance_of_root(alloc: Global, arcs: &Arcs, vertex: u32) -> Result<u64, AllocError> {
    let mut distances = vec![in alloc; u64::MAX; arcs.vertices() as usize + 1]?;
    lower(&mut distances, vertex, 0);
    for _ in 0..arcs.vertices() {
        for before in 0..arcs.vertices() {
            let here = at(&distances, before + 1);
            for arc in arcs.arcs_into(before + 1) {
                lower(&mut distances, arc.tail, here.saturating_add(arc.remaining));
            }
        }
    }
    Ok(at(&distances, arcs.root()))
}

// Whether the cuts for a vertex weigh as much as the root is far, up to a target.
fn is_exact(alloc: Global, arcs: &Arcs, vertex: u32, target: u64) -> Result<bool, AllocError> {
    match worth(alloc, arcs, vertex, target)? {
        Some(found) => Ok(found == distance_of_root(alloc, arcs, vertex)?.min(target)),
        None => Ok(!is_there(arcs, vertex)),
    }
}

// Whether they do so over drawn arcs after an ascent, for a vertex and a target, which it answers.
fn is_exact_over_drawn(alloc: Global, draws: &mut Draws) -> Result<(bool, u32, u64), AllocError> {
    let mut arcs = drawn(alloc, draws)?;
    ascend_to(alloc, &mut arcs, draws.below_ten())?;
    let vertex = draws.vertex();
    let target = draws.below(20);
    Ok((is_exact(alloc, &arcs, vertex, target)?, vertex, target))
}

#[test]
fn weighs_the_distance_of_what_is_drawn(rt: HostRuntime) -> Result<(), Fail> {
    let mut draws = Draws { state: 5 };
    for _ in 0..200 {
        let (is_exact, vertex, target) = is_exact_over_drawn(rt.alloc(), &mut draws)?;
        assert!(rt; is_exact, "for {vertex} up to {target}");
    }
    Ok(())
}
