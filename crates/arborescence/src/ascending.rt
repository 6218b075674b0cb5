ghost use Rattle.std.specs.Prelude.{◌≡◌, ℕ, ◌⊎◌, [], Some, IfOk, OnOk, IsTrue};
ghost use Rattle.st_model.specs.Branch.{IsBranchIn, LeavesRequiredIn, certain_in};
ghost use Rattle.st_model.specs.Network.{IsVertex};
ghost use Rattle.cut_packing.specs.Full.{IsReachedIn};
ghost use Rattle.cut_packing.specs.Packing.{FitsIn};
ghost use Rattle.arborescence.specs.Ascending.{HasRaised, IsDiAscent, IsRaising, raised_packing};
ghost use Rattle.arborescence.specs.DiNetwork.{di_ground};

use crate::DiInstance;
use crate::ascent::DiAscent;
use crate::fitting::is_certain;
use crate::loads::di_loads;
use crate::raising::Raising;
use crate::smallest::raise_smallest;
use crate::weighing::values;
use cut_packing::Packing;
use st_model::{Listed, Sides, VertexSet};
use std::alloc::{AllocError, Global};

/// Adds cuts to a packing until it weighs at least the target, or until the root reaches each terminal and
/// each vertex inside over arcs that bear just what they cost. Each cut is round all that reaches such a
/// vertex over these arcs, and is raised by the least that is left of the arcs into it; the smallest set comes
/// first (Wong 1984).
pub fn di_ascend(
    alloc: Global,
    instance: &DiInstance,
    branch: &Sides,
    packing: Packing,
    target: u64,
) -> Result<DiAscent, AllocError>
    requires branch { IsBranchIn (di_ground instance.now) branch.now }
    requires required { LeavesRequiredIn (di_ground instance.now) branch.now }
    requires no_must { branch.now.must ≡ [] }
    requires fits { FitsIn (di_ground instance.now) branch.now packing }
    ensures { IfOk result (IsDiAscent instance.now branch.now packing target) }
{
    let weight = values(packing.cuts.as_slice());
    if weight >= u128::from(target) {
        let packing = rooted(instance.root(), packing);
        return Ok(DiAscent::Reached(packing));
    }
    let room = target - weight as u64;
    let mut raising = begun(alloc, instance, branch, packing, room)?;
    reach_certain(alloc, instance, branch, &mut raising)?;
    let is_full = raising.room > 0;
    let packing = raising.into_packing(instance.root());
    if is_full {
        Ok(DiAscent::Full(packing))
    } else {
        Ok(DiAscent::Reached(packing))
    }
}

// The same cuts for the root.
fn rooted(root: u32, packing: Packing) -> Packing
    ensures { result ≡ record { root = Some root; cuts = packing.cuts } }
{
    Packing {
        root: Some(root),
        cuts: packing.cuts,
    }
}

// The cuts of a packing, with room for more.
fn begun(
    alloc: Global,
    instance: &DiInstance,
    branch: &Sides,
    packing: Packing,
    room: u64,
) -> Result<Raising, AllocError>
    requires { FitsIn (di_ground instance.now) branch.now packing }
    ensures raising { IfOk result (IsRaising instance.now branch.now) }
    ensures cuts { IfOk result (λ s. s.cuts.items ≡ packing.cuts) }
    ensures room { IfOk result (λ s. s.room ≡ room) }
{
    let arcs = di_loads(alloc, instance, branch, packing.cuts.as_slice())?;
    let set = VertexSet::new(alloc, instance.vertices() as usize + 1)?;
    Ok(Raising {
        arcs,
        cuts: packing.cuts.into_vec(),
        room,
        set,
    })
}

// Raises cuts round the smallest sets first, and then for each vertex that has to be reached and isn't yet, one
// after another, while there is room.
fn reach_certain(
    alloc: Global,
    instance: &DiInstance,
    branch: &Sides,
    raising: &mut Raising,
) -> Result<(), AllocError>
    requires branch { IsBranchIn (di_ground instance.now) branch.now }
    requires required { LeavesRequiredIn (di_ground instance.now) branch.now }
    requires raising { IsRaising instance.now branch.now raising.old }
    ensures raised { OnOk result (HasRaised instance.now branch.now raising.old raising.new) }
    ensures reached { OnOk result ((raising.new.room ≡ 0) ⊎ ((v : ℕ) → IsVertex instance.now.n v
        → IsTrue (certain_in (di_ground instance.now) branch.now v)
        → IsReachedIn (di_ground instance.now) branch.now (raised_packing instance.now raising.new)
        instance.now.root v)) }
{
    raise_smallest(alloc, instance, branch, raising)?;
    for before in 0..instance.vertices() {
        let vertex = before + 1;
        if is_certain(instance, branch, vertex) {
            raising.reach(alloc, instance, branch, vertex)?;
        }
    }
    Ok(())
}
