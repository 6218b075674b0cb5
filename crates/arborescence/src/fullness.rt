ghost use Rattle.std.specs.Prelude.{◌≡◌, ℕ, ◌↔◌, IsTrue, IsFalse, IfOk, IfSome, IfNone};
ghost use Rattle.st_model.specs.Branch.{certain_in};
ghost use Rattle.st_model.specs.Lists.{has};
ghost use Rattle.st_model.specs.Network.{IsVertex};
ghost use Rattle.cut_packing.specs.Full.{IsFullIn, IsReachedIn};
ghost use Rattle.cut_packing.specs.Saturated.{AreSaturatedIn};
ghost use Rattle.arborescence.specs.DiNetwork.{di_ground};

use crate::DiInstance;
use crate::fitting::is_certain;
use crate::loads::di_loads;
use cut_packing::{Packing, heads_of};
use st_model::{Sides, VertexLists, VertexSet, walk};
use std::alloc::{AllocError, Global};

/// Whether a packing is full in a branch: it has the root, and from there arcs whose whole cost the cuts
/// take lead to every vertex that is a terminal or inside.
pub fn di_is_full(
    alloc: Global,
    instance: &DiInstance,
    branch: &Sides,
    packing: &Packing,
) -> Result<bool, AllocError>
    ensures { IfOk result
        (λ yes. IsTrue yes ↔ IsFullIn (di_ground instance.now) branch.now packing.now) }
{
    let Some(root) = packing.root else {
        return Ok(false);
    };
    if root != instance.root() {
        return Ok(false);
    }
    let reached = reached(alloc, instance, branch, packing)?;
    match missing(instance, branch, &reached) {
        None => Ok(true),
        Some(_) => Ok(false),
    }
}

// What arcs whose whole cost the cuts take lead to from the root.
fn reached(
    alloc: Global,
    instance: &DiInstance,
    branch: &Sides,
    packing: &Packing,
) -> Result<VertexSet, AllocError>
    ensures { IfOk result (λ reached. (v : ℕ) → IsVertex instance.now.n v → (IsTrue (has reached.members v)
        ↔ IsReachedIn (di_ground instance.now) branch.now packing.now instance.now.root v)) }
{
    let heads = saturated(alloc, instance, branch, packing)?;
    walk(alloc, &heads, instance.root())
}

// The heads of the arcs whose whole cost the cuts take, listed at their tails.
fn saturated(
    alloc: Global,
    instance: &DiInstance,
    branch: &Sides,
    packing: &Packing,
) -> Result<VertexLists<u32>, AllocError>
    ensures { IfOk result (AreSaturatedIn (di_ground instance.now) branch.now packing.now) }
{
    let arcs = di_loads(alloc, instance, branch, packing.cuts.as_slice())?;
    heads_of(alloc, &arcs, instance.vertices() + 1)
}

// The first vertex that is the root, a terminal or inside, and isn't in a set.
pub fn missing(instance: &DiInstance, branch: &Sides, set: &VertexSet) -> Option<u32>
    ensures found { IfSome result (λ v. IsVertex instance.now.n v
        × IsTrue (certain_in (di_ground instance.now) branch.now v) × IsFalse (has set.now.members v)) }
    ensures none { IfNone result ((v : ℕ) → IsVertex instance.now.n v
        → IsTrue (certain_in (di_ground instance.now) branch.now v) → IsTrue (has set.now.members v)) }
{
    for before in 0..instance.vertices() {
        let vertex = before + 1;
        if is_certain(instance, branch, vertex) && !set.contains(vertex) {
            return Some(vertex);
        }
    }
    None
}
