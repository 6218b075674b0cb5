ghost use Rattle.std.specs.Prelude.{◌≡◌, ◌<◌, ◌^◌, length, All, IfOk};
ghost use Rattle.st_model.specs.Branch.{IsVertexSet};
ghost use Rattle.graph_store.specs.Graph.{IsGraph};
ghost use Rattle.graph_store.specs.Whole.{IsWhole};
ghost use Rattle.dual_ascent.specs.Extension.{IsStart, IsRootFor, IsExtension, packing_of};
ghost use Rattle.dual_ascent.specs.Laws.{IsCharged, joined, joined_ascent};
ghost use Rattle.dual_ascent.specs.Left.{AreEndsOf};

use crate::{Ascent, ascend, charge_cuts};
use bidirected_form::Arcs;
use cut_packing::Packing;
use graph_store::Store;
use prize_transform::Twins;
use st_model::{Listed, Sides};
use std::alloc::{AllocError, Global};

/// What a packing leaves of a branch.
#[derive(Drop)]
pub struct Remainder {
    /// The branch's arcs, with what the cuts leave of each.
    pub arcs: Arcs,
    /// The ends of its vertices, with what the cuts leave of each prize.
    pub twins: Twins,
}

impl Remainder {
    /// The same arcs and ends, with as much left of each.
    pub fn copied(&self, alloc: Global) -> Result<Remainder, AllocError>
        ensures { IfOk result (λ copy. copy ≡ self.now) }
    {
        Ok(Remainder {
            arcs: self.arcs.copied(alloc)?,
            twins: self.twins.copied(alloc)?,
        })
    }
}

/// What an ascent makes of a packing.
#[derive(Drop)]
pub struct Extension {
    /// The packing's cuts and then those of the ascent.
    pub ascent: Ascent,
    /// What all these cuts leave of the branch.
    pub left: Remainder,
}

/// Ascends over what a packing leaves of a branch's arcs and prizes, until the cuts added weigh as
/// much as the target or none can be added. Vertices that `order` names are raised first.
pub fn extend(
    alloc: Global,
    store: &Store,
    branch: &Sides,
    packing: Packing,
    root: u32,
    order: &[u32],
    target: u64,
) -> Result<Extension, AllocError>
    requires whole { IsWhole store.now }
    requires start { IsStart store.now.network branch.now packing }
    requires root { IsRootFor store.now.network branch.now packing root }
    ensures extended { IfOk result (λ e. IsExtension store.now.network branch.now packing root target e.ascent) }
    ensures root { IfOk result (λ e. e.left.arcs.root ≡ root) }
    ensures charged { IfOk result (λ e. IsCharged store.now branch.now (packing_of e.ascent) e.left.arcs e.left.twins) }
    ensures ends { IfOk result (λ e. AreEndsOf e.left.arcs e.left.twins) }
{
    let left = left_by(alloc, store, branch, &packing, root)?;
    let raised = raise_over(alloc, store, branch, packing, left, order, target)?;
    Ok(raised)
}

/// Ascends over what is left of a branch where a packing was charged, until the cuts added weigh as
/// much as the target or none can be added. Vertices that `order` names are raised first.
pub fn raise_over(
    alloc: Global,
    store: &Store,
    branch: &Sides,
    packing: Packing,
    left: Remainder,
    order: &[u32],
    target: u64,
) -> Result<Extension, AllocError>
    requires charged { IsCharged store.now branch.now packing left.arcs left.twins }
    requires ends { AreEndsOf left.arcs left.twins }
    requires sets { All (λ c. IsVertexSet store.now.network.n c.set) packing.cuts }
    ensures extended { IfOk result (λ e.
        IsExtension store.now.network branch.now packing left.arcs.root target e.ascent) }
    ensures root { IfOk result (λ e. e.left.arcs.root ≡ left.arcs.root) }
    ensures charged { IfOk result (λ e. IsCharged store.now branch.now (packing_of e.ascent) e.left.arcs e.left.twins) }
    ensures ends { IfOk result (λ e. AreEndsOf e.left.arcs e.left.twins) }
{
    prove!(left.arcs.vertices() == store.vertices());
    let mut arcs = left.arcs;
    let mut twins = left.twins;
    let found = ascend(alloc, &mut arcs, &mut twins, order, target)?;
    let ascent = join_ascent(packing, found)?;
    Ok(Extension {
        ascent,
        left: Remainder { arcs, twins },
    })
}

// The ascent with the cuts of a packing before its own.
fn join_ascent(packing: Packing, ascent: Ascent) -> Result<Ascent, AllocError>
    ensures joined { IfOk result (λ both. both ≡ joined_ascent packing ascent) }
    ensures few { IfOk result (λ both. length (packing_of both).cuts < 2 ^ 64) }
{
    match ascent {
        Ascent::Full(found) => Ok(Ascent::Full(join(packing, found)?)),
        Ascent::Reached(found) => Ok(Ascent::Reached(join(packing, found)?)),
    }
}

/// What a packing leaves of a branch's arcs and prizes, for cuts that may be added from a root.
pub fn left_by(
    alloc: Global,
    store: &Store,
    branch: &Sides,
    packing: &Packing,
    root: u32,
) -> Result<Remainder, AllocError>
    requires whole { IsWhole store.now }
    requires start { IsStart store.now.network branch.now packing.now }
    requires root { IsRootFor store.now.network branch.now packing.now root }
    ensures root { IfOk result (λ left. left.arcs.root ≡ root) }
    ensures charged { IfOk result (λ left. IsCharged store.now branch.now packing.now left.arcs left.twins) }
    ensures ends { IfOk result (λ left. AreEndsOf left.arcs left.twins) }
    ensures graph { IsGraph store.now }
{
    prove!(root <= store.vertices());
    let mut arcs = Arcs::of(alloc, store, branch, root)?;
    let mut twins = Twins::of(alloc, &arcs)?;
    charge_cuts(&mut arcs, &mut twins, packing.cuts.as_slice());
    Ok(Remainder { arcs, twins })
}

/// The cuts of a packing and then those of another, and the other's root.
pub fn join(packing: Packing, more: Packing) -> Result<Packing, AllocError>
    ensures joined { IfOk result (λ both. both ≡ joined packing more) }
    ensures few { IfOk result (λ both. length both.cuts < 2 ^ 64) }
{
    let mut cuts = packing.cuts.into_vec();
    let mut added = more.cuts.into_vec();
    cuts.append(&mut added)?;
    Ok(Packing {
        root: more.root,
        cuts: Listed::of(cuts),
    })
}
