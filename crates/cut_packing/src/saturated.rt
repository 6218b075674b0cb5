ghost use Rattle.std.specs.Prelude.{◌≡◌, ℕ, ◌<◌, ◌^◌, ◌==◌, ◌&&◌, ◌||◌, length, All, IfOk, OnOk};
ghost use Rattle.st_model.specs.Lists.{has};
ghost use Rattle.st_model.specs.Led.{heads_at};
ghost use Rattle.cut_packing.specs.Loads.{arcs_into};
ghost use Rattle.cut_packing.specs.Saturated.{is_saturated, AreSaturated};

use crate::Packing;
use crate::arcs::{LoadedArc, LoadedArcs};
use crate::loads::loads;
use st_model::{Instance, Sides, VertexLists};
use std::alloc::{AllocError, Global};

/// The heads of the arcs whose whole cost the cuts take, listed at their tails.
pub fn saturated(
    alloc: Global,
    instance: &Instance,
    branch: &Sides,
    packing: &Packing,
) -> Result<VertexLists<u32>, AllocError>
    ensures { IfOk result (λ heads. AreSaturated instance.now branch.now packing.now heads) }
{
    let vertices = instance.vertices();
    let arcs = loads(alloc, instance, branch, packing.cuts.as_slice())?;
    heads_of(alloc, &arcs, vertices + 1)
}

/// The heads of the arcs that bear just what their links cost, listed at their tails.
pub fn heads_of(
    alloc: Global,
    arcs: &LoadedArcs,
    count: u32,
) -> Result<VertexLists<u32>, AllocError>
    requires count { length arcs.now ≡ count }
    requires tails { (v : ℕ) → All (λ arc. arc.tail < count) (arcs_into arcs.now v) }
    ensures count { IfOk result (λ heads. length heads ≡ count) }
    ensures listed { IfOk result (λ heads. (u v : ℕ) →
        has (heads_at heads u) v ≡ is_saturated (arcs_into arcs.now v) u) }
{
    let mut heads = VertexLists::new(alloc, count as usize)?;
    for head in 0..count {
        list_head(&mut heads, arcs.at(head), head)?;
    }
    Ok(heads)
}

// Lists a head at the tails of those arcs into it that bear just what their links cost.
fn list_head(heads: &mut VertexLists<u32>, arcs: &[LoadedArc], head: u32) -> Result<(), AllocError>
    requires { All (λ arc. arc.tail < length heads.old) arcs.now }
    ensures count { length heads.new ≡ length heads.old }
    ensures listed { OnOk result ((u v : ℕ) → has (heads_at heads.new u) v
        ≡ (has (heads_at heads.old u) v || ((head == v) && is_saturated arcs.now u))) }
{
    for arc in arcs {
        if arc.load == u128::from(arc.cost) {
            heads.add(arc.tail, head)?;
        }
    }
    Ok(())
}
