ghost use Rattle.std.specs.Prelude.{◌≡◌, ℕ, ◌↔◌, nat_lt, ◌&&◌, ◌||◌, IsTrue, IfOk};
ghost use Rattle.st_model.specs.Lists.{has};
ghost use Rattle.st_model.specs.Branch.{is_certain, is_undecided};
ghost use Rattle.st_model.specs.Network.{IsVertex, pays};
ghost use Rattle.cut_packing.specs.Full.{is_open, IsReached, IsFullFrom, IsFull};

use crate::Packing;
use crate::named::named_values;
use crate::saturated::saturated;
use st_model::{Instance, Sides, VertexSet, walk};
use std::alloc::{AllocError, Global};

/// Whether a packing is full in a branch: from its root, arcs whose whole cost the cuts take lead
/// to every vertex that is required or inside, and to every undecided one that the cuts that name
/// it leave something of its prize.
pub fn is_full(
    alloc: Global,
    instance: &Instance,
    branch: &Sides,
    packing: &Packing,
) -> Result<bool, AllocError>
    ensures { IfOk result (λ yes. IsTrue yes ↔ IsFull instance.now branch.now packing.now) }
{
    match packing.root {
        None => Ok(false),
        Some(root) => is_full_from(alloc, instance, branch, packing, root),
    }
}

// Whether a packing is full from a root.
fn is_full_from(
    alloc: Global,
    instance: &Instance,
    branch: &Sides,
    packing: &Packing,
    root: u32,
) -> Result<bool, AllocError>
    ensures { IfOk result
        (λ yes. IsTrue yes ↔ IsFullFrom instance.now branch.now packing.now root) }
{
    let reached = reached(alloc, instance, branch, packing, root)?;
    has_all(alloc, instance, branch, packing, &reached)
}

// What arcs whose whole cost the cuts take lead to from a root.
fn reached(
    alloc: Global,
    instance: &Instance,
    branch: &Sides,
    packing: &Packing,
    root: u32,
) -> Result<VertexSet, AllocError>
    ensures { IfOk result (λ reached. (v : ℕ) → IsVertex instance.now.n v →
        (IsTrue (has reached.members v) ↔ IsReached instance.now branch.now packing.now root v)) }
{
    let count = instance.vertices() as usize + 1;
    if root as usize >= count {
        return VertexSet::new(alloc, count);
    }
    let heads = saturated(alloc, instance, branch, packing)?;
    walk(alloc, &heads, root)
}

// Whether a set has each vertex that has to be reached, or could still be paid for.
fn has_all(
    alloc: Global,
    instance: &Instance,
    branch: &Sides,
    packing: &Packing,
    reached: &VertexSet,
) -> Result<bool, AllocError>
    ensures { IfOk result (λ yes. IsTrue yes ↔
        ((v : ℕ) → IsVertex instance.now.n v → IsTrue (is_open instance.now branch.now packing.now v)
        → IsTrue (has reached.now.members v))) }
{
    let vertices = instance.vertices();
    let count = vertices as usize + 1;
    let values = named_values(alloc, count, packing.cuts.as_slice())?;
    for before in 0..vertices {
        let vertex = before + 1;
        let value = values[vertex as usize];
        if is_open(instance, branch, vertex, value) && !reached.contains(vertex) {
            return Ok(false);
        }
    }
    Ok(true)
}

// Whether a vertex has to be reached, or could still be paid for where the cuts that name it have
// this value.
fn is_open(instance: &Instance, branch: &Sides, vertex: u32, value: u128) -> bool
    requires { IsVertex instance.now.n vertex }
    ensures { result ≡ (is_certain instance.now branch.now vertex
        || (is_undecided branch.now vertex && nat_lt value (pays instance.now vertex))) }
{
    if branch.is_certain(instance, vertex) {
        return true;
    }
    !branch.is_outside(vertex) && value < u128::from(instance.prize(vertex))
}
