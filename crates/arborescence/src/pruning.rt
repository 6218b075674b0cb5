ghost use Rattle.std.specs.Prelude.{◌≡◌, ℕ, ◌+◌, ◌<◌, ◌||◌, ◌++◌, length, All, IfOk, IfSome, IfNone, OnOk, IsTrue, IsFalse};
ghost use Rattle.st_model.specs.Branch.{is_present};
ghost use Rattle.st_model.specs.Led.{heads_at};
ghost use Rattle.st_model.specs.Lists.{has};
ghost use Rattle.st_model.specs.Network.{IsVertex};
ghost use Rattle.arborescence.specs.Closing.{AreHeadsOf, ArePruned, AreWithin, Misses, Spans, has_arc};

use crate::DiInstance;
use st_model::{Sides, VertexLists, VertexSet, walk};
use std::alloc::{AllocError, Global};

// Of the chosen arcs those that can't be done without: looked at from the last to the first, one is dropped
// wherever the root still reaches all present vertices over the others.
pub fn pruned(
    alloc: Global,
    instance: &DiInstance,
    branch: &Sides,
    chosen: &[(u32, u32)],
) -> Result<Vec<(u32, u32)>, AllocError>
    requires within { AreWithin instance.now.n chosen.now }
    requires spans { Spans instance.now.n branch.now instance.now.root chosen.now }
    ensures { IfOk result (λ kept. ArePruned instance.now.n branch.now instance.now.root chosen.now kept.items) }
{
    let mut kept = Vec::new(alloc);
    let mut left = chosen.len();
    while left > 0 {
        left -= 1;
        if missed(alloc, instance, branch, &chosen[..left], &kept)?.is_some() {
            kept.push(chosen[left])?;
        }
    }
    Ok(kept)
}

// A present vertex that the root doesn't reach over some arcs and others.
fn missed(
    alloc: Global,
    instance: &DiInstance,
    branch: &Sides,
    left: &[(u32, u32)],
    kept: &[(u32, u32)],
) -> Result<Option<u32>, AllocError>
    requires left { AreWithin instance.now.n left.now }
    requires kept { AreWithin instance.now.n kept.now }
    ensures found { IfOk result (λ found. IfSome found
        (Misses instance.now.n branch.now instance.now.root (left.now ++ kept.now))) }
    ensures none { IfOk result (λ found. IfNone found
        (Spans instance.now.n branch.now instance.now.root (left.now ++ kept.now))) }
{
    let heads = heads_of_both(alloc, instance.vertices(), left, kept)?;
    let reached = walk(alloc, &heads, instance.root())?;
    let apart = first_apart(instance, branch, &reached);
    Ok(apart)
}

// The first present vertex that isn't in a set.
pub fn first_apart(instance: &DiInstance, branch: &Sides, set: &VertexSet) -> Option<u32>
    ensures found { IfSome result (λ v. IsVertex instance.now.n v × IsTrue (is_present branch.now v)
        × IsFalse (has set.now.members v)) }
    ensures none { IfNone result ((v : ℕ) → IsVertex instance.now.n v → IsTrue (is_present branch.now v)
        → IsTrue (has set.now.members v)) }
{
    for before in 0..instance.vertices() {
        let vertex = before + 1;
        if !branch.is_outside(vertex) && !set.contains(vertex) {
            return Some(vertex);
        }
    }
    None
}

// The heads of some arcs and others, listed at their tails.
pub fn heads_of_both(
    alloc: Global,
    vertices: u32,
    left: &[(u32, u32)],
    kept: &[(u32, u32)],
) -> Result<VertexLists<u32>, AllocError>
    requires left { AreWithin vertices left.now }
    requires kept { AreWithin vertices kept.now }
    ensures { IfOk result (AreHeadsOf vertices (left.now ++ kept.now)) }
{
    let mut heads = VertexLists::new(alloc, vertices as usize + 1)?;
    add_heads(vertices, &mut heads, left)?;
    add_heads(vertices, &mut heads, kept)?;
    Ok(heads)
}

// Lists the heads of arcs at their tails.
fn add_heads(
    _vertices: u32,
    heads: &mut VertexLists<u32>,
    arcs: &[(u32, u32)],
) -> Result<(), AllocError>
    requires count { length heads.old ≡ _vertices + 1 }
    requires within { AreWithin _vertices arcs.now }
    requires in_range { (u : ℕ) → All (λ v. v < _vertices + 1) (heads_at heads.old u) }
    ensures count { OnOk result (length heads.new ≡ _vertices + 1) }
    ensures in_range { OnOk result ((u : ℕ) → All (λ v. v < _vertices + 1) (heads_at heads.new u)) }
    ensures listed { OnOk result ((u v : ℕ) → has (heads_at heads.new u) v
        ≡ (has (heads_at heads.old u) v || has_arc arcs.now u v)) }
{
    for (tail, head) in arcs {
        heads.add(*tail, *head)?;
    }
    Ok(())
}
