ghost use Rattle.std.specs.Prelude.{◌≡◌, All, IfOk, IfSome, Some};
ghost use Rattle.st_model.specs.Branch.{IsVertexSet, LeavesRequired};
ghost use Rattle.st_model.specs.Network.{IsInstance};
ghost use Rattle.dual_ascent.specs.declared.ascent.Ascent.TheVariants.{Reached};
ghost use Rattle.node_work.specs.Finding.{IsClosedBy};

use crate::raising::{is_start, raise_from};
use crate::refining::{Guide, refine};
use crate::room::Room;
use crate::target::Target;
use better_trees::{Means, Place};
use cut_packing::{Cut, Packing};
use dual_ascent::Ascent;
use st_model::Listed;
use std::alloc::{AllocError, Global};
use std::thread::Threads;

/// A packing that closes the branch at the least cost known, made of one of a part of the branch: as
/// much of each cut as the branch bears, extended for the root. None where that isn't enough.
pub fn repaired<R: Threads + Sync>(
    means: &Means<'_, R>,
    target: &Target<'_>,
    packing: Packing,
    guide: &mut Guide<'_>,
) -> Result<Option<Packing>, AllocError>
    requires instance { IsInstance target.now.place.whole.now.instance }
    requires required { LeavesRequired target.now.place.whole.now.instance target.now.place.branch.now }
    requires sets { All (λ c. IsVertexSet target.now.place.whole.now.instance.n c.set) packing.cuts }
    ensures { IfOk result (λ found. IfSome found
        (IsClosedBy target.now.place.whole.now.instance target.now.place.branch.now target.now.least)) }
{
    // So that what closes the branch can be written.
    prove!(target.least <= u64::MAX);
    let borne = borne(means.alloc, &target.place, packing, target.root)?;
    if !is_start(means.alloc, &target.place, &borne, target.least)? {
        return Ok(None);
    }
    let raised = raise_from(means.alloc, target, borne, &[])?;
    let refined = refine(means, target, raised, means.effort.repairs(), guide)?;
    Ok(reached(refined.ascent))
}

// The packing of an ascent that reached its target.
fn reached(ascent: Ascent) -> Option<Packing>
    ensures { IfSome result (λ P. ascent ≡ Reached P) }
{
    match ascent {
        Ascent::Reached(packing) => Some(packing),
        Ascent::Full(_) => None,
    }
}

// As much of each cut as the branch bears, for the root. Those of which it bears nothing are left out.
fn borne(
    alloc: Global,
    place: &Place<'_>,
    packing: Packing,
    root: u32,
) -> Result<Packing, AllocError>
    requires { All (λ c. IsVertexSet place.now.whole.now.instance.n c.set) packing.cuts }
    ensures root { IfOk result (λ P. P.root ≡ Some root) }
    ensures sets { IfOk result (λ P. All (λ c. IsVertexSet place.now.whole.now.instance.n c.set) P.cuts) }
{
    let whole = place.whole;
    let mut room = Room::of(alloc, &whole.store, &whole.instance, place.branch)?;
    let mut waiting = packing.cuts.into_vec();
    let mut cuts = Vec::new(alloc);
    while let Some(cut) = waiting.pop() {
        let y = room.take(cut.set.as_slice(), cut.q, cut.y);
        if y > 0 {
            cuts.push(lowered(cut, y))?;
        }
    }
    Ok(Packing {
        root: Some(root),
        cuts: Listed::of(cuts),
    })
}

// The cut at another value.
fn lowered(cut: Cut, y: u64) -> Cut
    ensures { result ≡ record cut { y = y } }
{
    Cut {
        set: cut.set,
        q: cut.q,
        y,
    }
}
