ghost use Rattle.std.specs.Prelude.{◌≡◌, ◌+◌, ◌*◌, ◌<◌, ◌≤◌, ℕ, [], length, IsTrue, IsFalse, IfOk, IfErr, All, MatchOption};
ghost use Rattle.std.specs.List.{list_all};
ghost use Rattle.st_model.specs.Growth.{neighbours};
ghost use Rattle.st_model.specs.Led.{heads_at};
ghost use Rattle.st_model.specs.Lists.{has};
ghost use Rattle.st_model.specs.Network.{IsInstance, IsVertex};
ghost use Rattle.amounts.specs.Laws.{unit};
ghost use Rattle.solution_reader.specs.Claim.{IsClaim};
ghost use Rattle.solution_reader.specs.Stated.{IsStated, IsApart, IsVerifyFault, LacksTerminal, repeats};
ghost use Rattle.solution_reader.specs.Fitting.{has_stranger, lacks_link, differs_from, IsFitting, Costs};

use crate::{Claimed, VerifyFault};
use amounts::Scale;
use indexmap::IndexSet;
use st_model::{Instance, Need, VertexLists, VertexSet, thin, tree_cost, walk};
use std::alloc::{AllocError, Global};

// The first vertex, if there is one.
fn some_vertex(vertices: &[u32]) -> Option<u32>
    ensures { MatchOption result (vertices.now ≡ []) (λ v. IsTrue (has vertices.now v)) }
{
    vertices.first().copied()
}

// Whether a vertex isn't one of 1 to `last`.
fn has_stranger(vertices: &[u32], last: u32) -> bool
    ensures { result ≡ has_stranger last vertices.now }
{
    vertices.iter().any(|vertex| *vertex == 0 || *vertex > last)
}

// Whether an edge isn't a link.
fn lacks_link(instance: &Instance, edges: &[(u32, u32)]) -> bool
    ensures { result ≡ lacks_link instance.now edges.now }
{
    edges
        .iter()
        .any(|edge| instance.link_cost(edge.0, edge.1).is_none())
}

// Whether an edge stands twice, in either direction.
fn repeats(alloc: Global, edges: &[(u32, u32)]) -> Result<bool, AllocError>
    ensures { IfOk result (λ answer. answer ≡ repeats edges.now) }
{
    let mut pairs: IndexSet<(u32, u32)> = IndexSet::new(alloc);
    for edge in edges {
        let is_new = pairs.insert((edge.0.min(edge.1), edge.0.max(edge.1)))?;
        if !is_new {
            return Ok(true);
        }
    }
    Ok(false)
}

// For each vertex from 0 to `last` the other ends of the edges that end there.
fn neighbours_of(
    alloc: Global,
    last: u32,
    edges: &[(u32, u32)],
) -> Result<VertexLists<u32>, AllocError>
    requires { All (λ edge. (edge.0 ≤ last) × (edge.1 ≤ last)) edges.now }
    ensures length { IfOk result (λ lists. length lists ≡ last + 1) }
    ensures neighbours { IfOk result
        (λ lists. (v : ℕ) → v ≤ last → heads_at lists v ≡ neighbours edges.now v) }
{
    let mut lists = VertexLists::new(alloc, last as usize + 1)?;
    for &(a, b) in edges {
        lists.add(a, b)?;
        lists.add(b, a)?;
    }
    Ok(lists)
}

// Whether all vertices of a list are in a set.
fn are_in(set: &VertexSet, vertices: &[u32]) -> bool
    ensures { result ≡ list_all (λ v. has set.now.members v) vertices.now }
{
    vertices.iter().all(|vertex| set.contains(*vertex))
}

// Whether the edges join all vertices to this one of them.
fn are_joined(alloc: Global, last: u32, claimed: &Claimed, start: u32) -> Result<bool, AllocError>
    requires start { IsTrue (has claimed.now.vertices start) }
    requires vertices { All (λ v. v ≤ last) claimed.now.vertices }
    ensures yes { IfOk result (λ joined. IsTrue joined → IsApart claimed.now → ⊥) }
    ensures no { IfOk result (λ joined. IsFalse joined → IsApart claimed.now) }
{
    let lists = neighbours_of(alloc, last, claimed.edges())?;
    let reached = walk(alloc, &lists, start)?;
    Ok(are_in(&reached, claimed.vertices()))
}

// Whether a required vertex isn't there.
fn lacks_terminal(alloc: Global, instance: &Instance, claimed: &Claimed) -> Result<bool, AllocError>
    ensures yes { IfOk result (λ lacks. IsTrue lacks → LacksTerminal instance.now claimed.now) }
    ensures no { IfOk result (λ lacks. IsFalse lacks → LacksTerminal instance.now claimed.now → ⊥) }
{
    let set = VertexSet::of(alloc, instance.vertices() as usize + 1, claimed.vertices())?;
    for before in 0..instance.vertices() {
        let vertex = before + 1;
        if instance.need(vertex) == Need::Required && !set.contains(vertex) {
            return Ok(true);
        }
    }
    Ok(false)
}

// What the claimed tree costs.
fn cost_of(
    alloc: Global,
    instance: &Instance,
    claimed: &Claimed,
    start: u32,
) -> Result<u64, AllocError>
    requires fitting { IsFitting instance.now claimed.now }
    requires start { IsTrue (has claimed.now.vertices start) }
    ensures { IfOk result (Costs instance.now claimed.now) }
{
    let tree = thin(alloc, instance, claimed.edges(), start)?;
    Ok(tree_cost(instance, &tree))
}

// So many units of a scale, in millionths.
fn in_millionths(scale: Scale, cost: u64) -> u128
    ensures { result ≡ cost * unit scale }
{
    match scale {
        Scale::Whole => u128::from(cost) * 1_000_000,
        Scale::Millionths => u128::from(cost),
    }
}

// Whether a stated primal isn't this cost.
fn differs_from(scale: Scale, cost: u64, primal: Option<u128>) -> bool
    ensures { result ≡ differs_from scale cost primal }
{
    match primal {
        Some(primal) => primal != in_millionths(scale, cost),
        None => false,
    }
}

/// What the claimed tree costs, or the first thing that is wrong with it.
pub fn judged(
    alloc: Global,
    instance: &Instance,
    scale: Scale,
    claimed: &Claimed,
) -> Result<u64, VerifyFault>
    ensures tree { IfOk result (IsStated instance.now scale claimed.now) }
    ensures fault { IfErr result (IsVerifyFault instance.now scale claimed.now) }
    ensures instance { IsInstance instance.now }
    ensures claim { IsClaim claimed.now }
{
    let last = instance.vertices();
    let vertices = claimed.vertices();
    let edges = claimed.edges();
    let Some(start) = some_vertex(vertices) else {
        return Err(VerifyFault::Empty);
    };
    if has_stranger(vertices, last) {
        return Err(VerifyFault::OutOfRange);
    }
    if lacks_link(instance, edges) {
        return Err(VerifyFault::NoLink);
    }
    let repeated = repeats(alloc, edges)?;
    if repeated {
        return Err(VerifyFault::Repeated);
    }
    let joined = are_joined(alloc, last, claimed, start)?;
    if !joined {
        return Err(VerifyFault::NotConnected);
    }
    if edges.len() >= vertices.len() {
        return Err(VerifyFault::Cycle);
    }
    let lacking = lacks_terminal(alloc, instance, claimed)?;
    if lacking {
        return Err(VerifyFault::Missing);
    }
    let cost = cost_of(alloc, instance, claimed, start)?;
    if differs_from(scale, cost, claimed.primal()) {
        return Err(VerifyFault::CostDiffers);
    }
    Ok(cost)
}
