ghost use Rattle.std.specs.Prelude.{◌≡◌, ℕ, ◌<◌, ◌==◌, ◌&&◌, ◌||◌, not, [], length, All, IfOk, OnOk};
ghost use Rattle.std.specs.List.{list_any};
ghost use Rattle.st_model.specs.Branch.{is_present};
ghost use Rattle.st_model.specs.Led.{heads_at};
ghost use Rattle.st_model.specs.Lists.{has};
ghost use Rattle.st_model.specs.Made.{has_pair};
ghost use Rattle.cut_packing.specs.Loads.{arcs_into, has_arc, AreLoadedIn};
ghost use Rattle.arborescence.specs.DiNetwork.{away_price, di_ground};
ghost use Rattle.arborescence.specs.Open.{AreOpenIn};

use crate::DiInstance;
use cut_packing::{Cut, LoadedArc, LoadedArcs, lay_cuts};
use st_model::{Link, Sides, VertexLists};
use std::alloc::{AllocError, Global};

// The arcs between present vertices that aren't barred and don't lead to the root, with what the
// cuts lay on them.
pub fn di_loads(
    alloc: Global,
    instance: &DiInstance,
    branch: &Sides,
    cuts: &[Cut],
) -> Result<LoadedArcs, AllocError>
    ensures { IfOk result (λ arcs. AreLoadedIn (di_ground instance.now) branch.now
        (away_price instance.now) cuts.now arcs) }
{
    let arcs = free_arcs(alloc, instance, branch)?;
    lay_cuts(alloc, arcs, cuts)
}

/// The arcs between present vertices that aren't barred and don't lead to the root, with nothing on them, listed
/// at their heads.
pub fn free_arcs(
    alloc: Global,
    instance: &DiInstance,
    branch: &Sides,
) -> Result<LoadedArcs, AllocError>
    ensures { IfOk result (λ arcs. AreLoadedIn (di_ground instance.now) branch.now
        (away_price instance.now) [] arcs) }
{
    let count = instance.vertices() as usize + 1;
    let root = instance.root();
    let mut arcs = LoadedArcs::new(alloc, count)?;
    for arc in instance.arcs() {
        if is_open(branch, root, arc) {
            arcs.add(
                arc.b,
                LoadedArc {
                    tail: arc.a,
                    cost: arc.cost,
                    load: 0,
                },
            )?;
        }
    }
    Ok(arcs)
}

// Whether neither end of an arc is outside, it isn't barred, and it doesn't lead to the root.
fn is_open(branch: &Sides, root: u32, arc: &Link) -> bool
    ensures { result ≡ ((is_present branch.now arc.now.a && is_present branch.now arc.now.b)
        && (not (has_pair branch.now.barred arc.now.a arc.now.b) && not (arc.now.b == root))) }
{
    !branch.is_outside(arc.a)
        && !branch.is_outside(arc.b)
        && !branch.is_barred(arc.a, arc.b)
        && arc.b != root
}

// The heads of these arcs, listed at their tails.
pub fn open_heads(
    alloc: Global,
    instance: &DiInstance,
    branch: &Sides,
) -> Result<VertexLists<u32>, AllocError>
    ensures { IfOk result (λ heads. AreOpenIn (di_ground instance.now) branch.now heads) }
{
    let arcs = free_arcs(alloc, instance, branch)?;
    all_heads(alloc, &arcs, instance.vertices() + 1)
}

// The heads of all arcs, listed at their tails.
fn all_heads(alloc: Global, arcs: &LoadedArcs, count: u32) -> Result<VertexLists<u32>, AllocError>
    requires count { length arcs.now ≡ count }
    requires tails { (v : ℕ) → All (λ arc. arc.tail < count) (arcs_into arcs.now v) }
    ensures count { IfOk result (λ heads. length heads ≡ count) }
    ensures listed { IfOk result
        (λ heads. (u v : ℕ) → has (heads_at heads u) v ≡ has_arc arcs.now u v) }
{
    let mut heads = VertexLists::new(alloc, count as usize)?;
    for head in 0..count {
        list_head(&mut heads, arcs.at(head), head)?;
    }
    Ok(heads)
}

// Lists a head at the tails of the arcs into it.
fn list_head(heads: &mut VertexLists<u32>, arcs: &[LoadedArc], head: u32) -> Result<(), AllocError>
    requires { All (λ arc. arc.tail < length heads.old) arcs.now }
    ensures count { length heads.new ≡ length heads.old }
    ensures listed { OnOk result ((u v : ℕ) → has (heads_at heads.new u) v
        ≡ (has (heads_at heads.old u) v
        || ((head == v) && list_any (λ arc. arc.tail == u) arcs.now))) }
{
    for arc in arcs {
        heads.add(arc.tail, head)?;
    }
    Ok(())
}
