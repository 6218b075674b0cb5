ghost use Rattle.std.specs.Prelude.{◌≡◌, ◌↔◌, ◌||◌, All, IsTrue, IfOk};
ghost use Rattle.st_model.specs.Branch.{certain_in};
ghost use Rattle.cut_packing.specs.Packing.{IsRootIn, RootFitsIn, CutFitsIn, ArcsFitIn, FitsIn};
ghost use Rattle.arborescence.specs.DiNetwork.{di_ground};

use crate::DiInstance;
use crate::loads::di_loads;
use cut_packing::{Cut, Packing, are_vertices, can_bear, holds};
use st_model::Sides;
use std::alloc::{AllocError, Global};

/// Whether a packing fits a branch: any root that it has is the instance's, which no cut holds, each cut
/// names one of its vertices that has to be reached, and no arc bears more than it costs. Takes time linear
/// in the sizes of the sets, the degrees of their vertices, the instance and the branch.
pub fn di_fits(
    alloc: Global,
    instance: &DiInstance,
    branch: &Sides,
    packing: &Packing,
) -> Result<bool, AllocError>
    ensures { IfOk result
        (λ yes. IsTrue yes ↔ FitsIn (di_ground instance.now) branch.now packing.now) }
{
    if !root_fits(instance, branch, packing) {
        return Ok(false);
    }
    if !cuts_fit(instance, branch, packing.cuts.as_slice()) {
        return Ok(false);
    }
    arcs_fit(alloc, instance, branch, packing)
}

// Whether the root fits.
fn root_fits(instance: &DiInstance, branch: &Sides, packing: &Packing) -> bool
    ensures { IsTrue result ↔ RootFitsIn (di_ground instance.now) branch.now packing.now }
{
    match packing.root {
        None => packing.cuts.as_slice().is_empty(),
        Some(root) => is_root(instance, branch, packing.cuts.as_slice(), root),
    }
}

// Whether a vertex is the root, and no cut holds it.
fn is_root(instance: &DiInstance, _branch: &Sides, cuts: &[Cut], root: u32) -> bool
    ensures { IsTrue result ↔ IsRootIn (di_ground instance.now) _branch.now cuts.now root }
{
    if root != instance.root() {
        return false;
    }
    cuts.iter().all(|cut| !holds(cut.set.as_slice(), root))
}

// Whether each cut fits.
fn cuts_fit(instance: &DiInstance, branch: &Sides, cuts: &[Cut]) -> bool
    ensures { IsTrue result ↔ All (CutFitsIn (di_ground instance.now) branch.now) cuts.now }
{
    cuts.iter().all(|cut| cut_fits(instance, branch, cut))
}

// Whether a cut fits.
fn cut_fits(instance: &DiInstance, branch: &Sides, cut: &Cut) -> bool
    ensures { IsTrue result ↔ CutFitsIn (di_ground instance.now) branch.now cut.now }
{
    if !are_vertices(instance.vertices(), cut.set.as_slice()) {
        return false;
    }
    if !holds(cut.set.as_slice(), cut.q) {
        return false;
    }
    !branch.is_outside(cut.q) && is_certain(instance, branch, cut.q)
}

// Whether every tree of a branch reaches a vertex: it is the root, a terminal or inside.
pub fn is_certain(instance: &DiInstance, branch: &Sides, vertex: u32) -> bool
    ensures { result ≡ certain_in (di_ground instance.now) branch.now vertex }
{
    instance.is_sought(vertex) || branch.is_inside(vertex)
}

// Whether no arc bears more than it costs.
fn arcs_fit(
    alloc: Global,
    instance: &DiInstance,
    branch: &Sides,
    packing: &Packing,
) -> Result<bool, AllocError>
    ensures { IfOk result
        (λ yes. IsTrue yes ↔ ArcsFitIn (di_ground instance.now) branch.now packing.now.cuts) }
{
    let arcs = di_loads(alloc, instance, branch, packing.cuts.as_slice())?;
    Ok(can_bear(&arcs))
}
