ghost use Rattle.std.specs.Prelude.{◌≤◌, IfOk};
ghost use Rattle.std.specs.Bool.{OnTrue, OnFalse};
ghost use Rattle.cut_packing.specs.Packing.{Fits, base_weight};
ghost use Rattle.dual_ascent.specs.Extension.{packing_of};
ghost use Rattle.node_work.specs.Raising.{IsHeavier, IsNoWorse};
ghost use Rattle.node_work.specs.Target.{IsExtendableFor, IsExtendedFor};

use crate::node::no_cuts;
use crate::target::Target;
use better_trees::{Place, gap};
use cut_packing::{Packing, base_weight, fits};
use dual_ascent::{Ascent, Extension, extend};
use std::alloc::{AllocError, Global};

/// Extends a packing for a target, so that it weighs `least` or is full. Where it is
/// only full, cuts are also raised from nothing for the same root, and the heavier packing is
/// given: the cuts of earlier branches leave little to raise.
pub fn raise(alloc: Global, target: &Target<'_>, packing: Packing) -> Result<Extension, AllocError>
    requires { IsExtendableFor target.now packing }
    ensures { IfOk result (IsExtendedFor target.now packing) }
{
    let has_cuts = !packing.cuts.as_slice().is_empty();
    let first = raise_from(alloc, target, packing, &[])?;
    if has_cuts && !first.ascent.is_reached() {
        let second = raise_from(alloc, target, no_cuts(alloc), &[])?;
        return Ok(heavier(&target.place, first, second));
    }
    Ok(first)
}

/// Extends a packing for a target, so that it weighs `least` or is full. Vertices that `order` names are
/// raised first.
pub fn raise_from(
    alloc: Global,
    target: &Target<'_>,
    packing: Packing,
    order: &[u32],
) -> Result<Extension, AllocError>
    requires { IsExtendableFor target.now packing }
    ensures { IfOk result (IsExtendedFor target.now packing) }
{
    let whole = target.place.whole;
    let branch = target.place.branch;
    let below = gap(&whole.instance, branch, &packing, target.least);
    let raised = extend(
        alloc,
        &whole.store,
        branch,
        packing,
        target.root,
        order,
        below,
    )?;
    Ok(raised)
}

/// Whether a packing fits the branch, and weighs no more than the least cost known.
pub fn is_start(
    alloc: Global,
    place: &Place<'_>,
    packing: &Packing,
    least: u64,
) -> Result<bool, AllocError>
    ensures { IfOk result (λ yes. OnTrue yes
        (Fits place.now.whole.now.instance place.now.branch.now packing.now
        × (base_weight place.now.whole.now.instance place.now.branch.now packing.now ≤ least))) }
{
    let instance = &place.whole.instance;
    if !fits(alloc, instance, place.branch, packing)? {
        return Ok(false);
    }
    Ok(base_weight(instance, place.branch.branch(), packing) <= u128::from(least))
}

/// Of two extensions the second, where it weighs enough or more than the first.
pub fn heavier(place: &Place<'_>, first: Extension, second: Extension) -> Extension
    ensures { IsHeavier place.now.whole.now.instance place.now.branch.now first second result }
{
    if is_heavier(place, &first.ascent, &second.ascent) {
        second
    } else {
        first
    }
}

// Whether the second weighs enough, or more than the first.
fn is_heavier(place: &Place<'_>, first: &Ascent, second: &Ascent) -> bool
    ensures heavier { OnTrue result
        (IsNoWorse place.now.whole.now.instance place.now.branch.now first.now second.now) }
    ensures lighter { OnFalse result
        (base_weight place.now.whole.now.instance place.now.branch.now (packing_of second.now)
        ≤ base_weight place.now.whole.now.instance place.now.branch.now (packing_of first.now)) }
{
    match second {
        Ascent::Reached(_) => true,
        Ascent::Full(packing) => {
            let instance = &place.whole.instance;
            let branch = place.branch.branch();
            base_weight(instance, branch, packing) > base_weight(instance, branch, first.packing())
        }
    }
}
