ghost use Rattle.std.specs.Prelude.{◌≡◌, ℕ, ◌+◌, ◌≤◌, ◌<◌, ◌↔◌, All, IsTrue, IfOk};
ghost use Rattle.std.specs.List.{list_all};
ghost use Rattle.st_model.specs.Lists.{has};
ghost use Rattle.st_model.specs.Network.{IsVertex};
ghost use Rattle.cut_packing.specs.Packing.{IsRoot, RootFits, CutFits, ArcsFit, PrizesFit, Fits};

use crate::arcs::can_bear;
use crate::loads::loads;
use crate::named::named_values;
use crate::{Cut, Packing};
use st_model::{Instance, Sides};
use std::alloc::{AllocError, Global};

/// Whether a packing fits a branch: its root, each of its cuts, the arcs and the prizes. Takes time
/// linear in the sizes of the sets, the degrees of their vertices, the instance and the branch.
pub fn fits(
    alloc: Global,
    instance: &Instance,
    branch: &Sides,
    packing: &Packing,
) -> Result<bool, AllocError>
    ensures { IfOk result (λ yes. IsTrue yes ↔ Fits instance.now branch.now packing.now) }
{
    if !root_fits(instance, branch, packing) {
        return Ok(false);
    }
    if !cuts_fit(instance, branch, packing.cuts.as_slice()) {
        return Ok(false);
    }
    if !arcs_fit(alloc, instance, branch, packing)? {
        return Ok(false);
    }
    prizes_fit(alloc, instance, branch, packing)
}

// Whether the root fits.
fn root_fits(instance: &Instance, branch: &Sides, packing: &Packing) -> bool
    ensures { IsTrue result ↔ RootFits instance.now branch.now packing.now }
{
    match packing.root {
        None => packing.cuts.as_slice().is_empty(),
        Some(root) => is_root(instance, branch, packing.cuts.as_slice(), root),
    }
}

// Whether a vertex can be the root of some cuts.
fn is_root(instance: &Instance, branch: &Sides, cuts: &[Cut], root: u32) -> bool
    ensures { IsTrue result ↔ IsRoot instance.now branch.now cuts.now root }
{
    if root < 1 || instance.vertices() < root {
        return false;
    }
    if !branch.is_certain(instance, root) {
        return false;
    }
    cuts.iter().all(|cut| !holds(cut.set.as_slice(), root))
}

/// Whether a list has a vertex.
pub fn holds(vertices: &[u32], vertex: u32) -> bool
    ensures { result ≡ has vertices.now vertex }
{
    vertices.iter().any(|other| *other == vertex)
}

// Whether each cut fits.
fn cuts_fit(instance: &Instance, branch: &Sides, cuts: &[Cut]) -> bool
    ensures { IsTrue result ↔ All (CutFits instance.now branch.now) cuts.now }
{
    cuts.iter().all(|cut| cut_fits(instance, branch, cut))
}

// Whether a cut fits.
fn cut_fits(instance: &Instance, branch: &Sides, cut: &Cut) -> bool
    ensures { IsTrue result ↔ CutFits instance.now branch.now cut.now }
{
    if !are_vertices(instance.vertices(), cut.set.as_slice()) {
        return false;
    }
    if !holds(cut.set.as_slice(), cut.q) {
        return false;
    }
    !branch.is_outside(cut.q)
}

/// Whether all are among the vertices 1 to n.
pub fn are_vertices(n: u32, vertices: &[u32]) -> bool
    ensures { IsTrue result ↔ All (IsVertex n) vertices.now }
{
    vertices.iter().all(|vertex| 1 <= *vertex && *vertex <= n)
}

// Whether no arc bears more than its link costs.
fn arcs_fit(
    alloc: Global,
    instance: &Instance,
    branch: &Sides,
    packing: &Packing,
) -> Result<bool, AllocError>
    ensures { IfOk result
        (λ yes. IsTrue yes ↔ ArcsFit instance.now branch.now packing.now.cuts) }
{
    let arcs = loads(alloc, instance, branch, packing.cuts.as_slice())?;
    Ok(can_bear(&arcs))
}

// Whether no vertex that may be left out is named beyond what it pays.
fn prizes_fit(
    alloc: Global,
    instance: &Instance,
    branch: &Sides,
    packing: &Packing,
) -> Result<bool, AllocError>
    ensures { IfOk result
        (λ yes. IsTrue yes ↔ PrizesFit instance.now branch.now packing.now.cuts) }
{
    let vertices = instance.vertices();
    let count = vertices as usize + 1;
    let values = named_values(alloc, count, packing.cuts.as_slice())?;
    for before in 0..vertices {
        let vertex = before + 1;
        let prize = u128::from(instance.prize(vertex));
        if !branch.is_certain(instance, vertex) && values[vertex as usize] > prize {
            return Ok(false);
        }
    }
    Ok(true)
}
