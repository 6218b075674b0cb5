ghost use Rattle.std.specs.Prelude.{◌≡◌, ◌≤◌, ◌<◌, ◌↔◌, IsTrue, IfOk};
ghost use Rattle.st_model.specs.Branch.{IsBranch, NoneIsCertain};
ghost use Rattle.cut_packing.specs.Packing.{Fits, weight};
ghost use Rattle.search_core.specs.Needs.{AllowsSplit, IsCloseFault, IsFullBelow, IsSplitFault};

use crate::EventFault;
use cut_packing::{Packing, fits, is_full, weight};
use st_model::{Branch, Instance, Sides};
use std::alloc::{AllocError, Global};

// Whether a branch may be split on a packing: it fits, and it is full and weighs less than a
// value, unless nobody is required or inside.
fn allows_split(
    alloc: Global,
    instance: &Instance,
    branch: &Branch,
    packing: &Packing,
    value: u64,
) -> Result<bool, AllocError>
    requires { IsBranch instance.now branch.now }
    ensures { IfOk result (λ yes. IsTrue yes ↔ AllowsSplit instance.now branch.now packing.now value) }
{
    let sides = Sides::of(alloc, branch.copied(alloc)?)?;
    allows_split_of(alloc, instance, &sides, packing, value)
}

// The same, of the branch with its sides.
fn allows_split_of(
    alloc: Global,
    instance: &Instance,
    branch: &Sides,
    packing: &Packing,
    value: u64,
) -> Result<bool, AllocError>
    requires { IsBranch instance.now branch.now }
    ensures { IfOk result (λ yes. IsTrue yes ↔ AllowsSplit instance.now branch.now packing.now value) }
{
    if !fits(alloc, instance, branch, packing)? {
        return Ok(false);
    }
    if none_is_certain(instance, branch) {
        return Ok(true);
    }
    is_full_below(alloc, instance, branch, packing, value)
}

// Whether a packing is full and weighs less than a value.
fn is_full_below(
    alloc: Global,
    instance: &Instance,
    branch: &Sides,
    packing: &Packing,
    value: u64,
) -> Result<bool, AllocError>
    requires { IsBranch instance.now branch.now }
    ensures { IfOk result (λ yes. IsTrue yes ↔ IsFullBelow instance.now branch.now packing.now value) }
{
    if !is_full(alloc, instance, branch, packing)? {
        return Ok(false);
    }
    Ok(weight(instance, branch.branch(), packing) < u128::from(value))
}

/// The fault of a packing on which a branch should be split.
pub fn split_fault(
    alloc: Global,
    instance: &Instance,
    branch: &Branch,
    packing: &Packing,
    value: u64,
) -> Result<Option<EventFault>, AllocError>
    requires { IsBranch instance.now branch.now }
    ensures { IfOk result (IsSplitFault instance.now branch.now packing.now value) }
{
    if allows_split(alloc, instance, branch, packing, value)? {
        Ok(None)
    } else {
        Ok(Some(EventFault::BadPacking))
    }
}

/// The fault of a packing that closes a branch only where it weighs at least a value.
pub fn close_fault(
    alloc: Global,
    instance: &Instance,
    branch: &Branch,
    packing: &Packing,
    value: u64,
) -> Result<Option<EventFault>, AllocError>
    requires { IsBranch instance.now branch.now }
    ensures { IfOk result (IsCloseFault instance.now branch.now packing.now value) }
{
    let sides = Sides::of(alloc, branch.copied(alloc)?)?;
    close_fault_of(alloc, instance, &sides, packing, value)
}

// The same, of the branch with its sides.
fn close_fault_of(
    alloc: Global,
    instance: &Instance,
    branch: &Sides,
    packing: &Packing,
    value: u64,
) -> Result<Option<EventFault>, AllocError>
    requires { IsBranch instance.now branch.now }
    ensures { IfOk result (IsCloseFault instance.now branch.now packing.now value) }
{
    if !fits(alloc, instance, branch, packing)? {
        return Ok(Some(EventFault::BadPacking));
    }
    if weight(instance, branch.branch(), packing) < u128::from(value) {
        return Ok(Some(EventFault::TooLight));
    }
    Ok(None)
}

// Whether no vertex is required or inside.
fn none_is_certain(instance: &Instance, branch: &Sides) -> bool
    ensures { IsTrue result ↔ NoneIsCertain instance.now branch.now }
{
    for before in 0..instance.vertices() {
        if branch.is_certain(instance, before + 1) {
            return false;
        }
    }
    true
}
