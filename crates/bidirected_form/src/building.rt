ghost use Rattle.std.specs.Prelude.{◌≡◌, ◌≢◌, ℕ, ◌+◌, ◌<◌, ◌≤◌, not, ◌&&◌, filter, length, map, All, AllPairs, IfOk, slice_index_or, replicate, false};
ghost use Rattle.st_model.specs.Lists.{has};
ghost use Rattle.st_model.specs.Network.{IsVertex};
ghost use Rattle.graph_store.specs.Graph.{is_in};
ghost use Rattle.bidirected_form.specs.Bidirected.{kind_by, kind_in};
ghost use Rattle.bidirected_form.specs.Building.{arc_of, cost_by, is_arc, is_out};
ghost use Rattle.bidirected_form.specs.Rows.{row_of};
ghost use Rattle.bidirected_form.specs.Digraph.{AreArcsInto, left_from};

use crate::VertexKind;
use crate::arc::Arc;
use crate::rows::Rows;
use graph_store::{Half, Store};
use st_model::{Need, Sides};
use std::alloc::{AllocError, Global};

// What vertex 0, 1, .. n is in a branch.
pub fn kinds_of(alloc: Global, store: &Store, branch: &Sides) -> Result<Vec<VertexKind>, AllocError>
    ensures length { IfOk result (λ kinds. length kinds.items ≡ store.now.network.n + 1) }
    ensures kinds { IfOk result (λ kinds. (v : ℕ) →
        slice_index_or kinds.items v VertexKind.Outside ≡ kind_in store.now branch.now v) }
{
    let mut kinds = vec![in alloc; VertexKind::Outside]?;
    for before in 0..store.vertices() {
        kinds.push(kind_at(store, branch, before + 1))?;
    }
    Ok(kinds)
}

// What a vertex is in a branch.
fn kind_at(store: &Store, branch: &Sides, vertex: u32) -> VertexKind
    requires { IsVertex store.now.network.n vertex }
    ensures { result ≡ kind_in store.now branch.now vertex }
{
    if !store.is_present(vertex) || branch.is_outside(vertex) {
        return VertexKind::Outside;
    }
    if branch.is_inside(vertex) {
        return VertexKind::Must;
    }
    match store.need(vertex) {
        Need::Required => VertexKind::Must,
        Need::Pays(prize) => VertexKind::May(prize),
    }
}

// The arcs into vertex 0, 1, .. n between vertices that aren't outside, of links that aren't barred.
pub fn rows_of(
    alloc: Global,
    store: &Store,
    branch: &Sides,
    kinds: &[VertexKind],
) -> Result<Rows, AllocError>
    ensures length { IfOk result (λ rows. length rows ≡ store.now.network.n + 1) }
    ensures arcs { IfOk result (λ rows. (v : ℕ) → AreArcsInto store.now.network.n v (row_of rows v)) }
    ensures costs { IfOk result (λ rows. (u v : ℕ) → left_from (row_of rows v) u ≡ cost_by store.now branch.now kinds.now u v) }
{
    let mut ends = vec![in alloc; 0]?;
    let mut arcs = Vec::new(alloc);
    for before in 0..store.vertices() {
        let row = row_into(alloc, store, branch, kinds, before + 1)?;
        arcs.extend_from_slice(&row)?;
        ends.push(arcs.len())?;
    }
    let rows = Rows::of(alloc, ends, arcs)?;
    Ok(rows)
}

// The arcs into a vertex between vertices that aren't outside, of links that aren't barred, ascending
// by their tails.
fn row_into(
    alloc: Global,
    store: &Store,
    branch: &Sides,
    kinds: &[VertexKind],
    vertex: u32,
) -> Result<Vec<Arc>, AllocError>
    requires { IsVertex store.now.network.n vertex }
    ensures arcs { IfOk result (λ row. AreArcsInto store.now.network.n vertex row.items) }
    ensures costs { IfOk result (λ row. (u : ℕ) → left_from row.items u ≡ cost_by store.now branch.now kinds.now u vertex) }
{
    if is_outside(kinds, vertex) {
        return Ok(Vec::new(alloc));
    }
    let mut row = arcs_from(alloc, store.neighbours(vertex), branch, kinds, vertex)?;
    row.sort_by_key(|arc| arc.tail)?;
    Ok(row)
}

// The arcs from the other ends of a vertex's halves that aren't outside, of links that aren't barred.
fn arcs_from(
    alloc: Global,
    halves: &[Half],
    branch: &Sides,
    kinds: &[VertexKind],
    vertex: u32,
) -> Result<Vec<Arc>, AllocError>
    ensures { IfOk result (λ row. row.items ≡ map arc_of (filter (is_arc branch.now kinds.now vertex) halves.now)) }
{
    halves
        .iter()
        .copied()
        .filter(|half| !is_outside(kinds, half.to) && !branch.is_barred(half.to, vertex))
        .map(|half| Arc {
            tail: half.to,
            remaining: half.cost,
        })
        .collect(alloc)
}

// Whether a vertex is outside.
fn is_outside(kinds: &[VertexKind], vertex: u32) -> bool
    ensures { result ≡ is_out kinds.now vertex }
{
    match kinds.get(vertex as usize) {
        Some(VertexKind::Must | VertexKind::May(_)) => false,
        Some(VertexKind::Outside) | None => true,
    }
}

// A mark for vertex 0, 1, .. n, none of which is set.
pub fn no_marks(alloc: Global, vertices: u32) -> Result<Vec<bool>, AllocError>
    ensures { IfOk result (λ marks. marks.items ≡ replicate (vertices + 1) false) }
{
    vec![in alloc; false; vertices as usize + 1]
}
