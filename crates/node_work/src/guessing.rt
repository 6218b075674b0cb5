ghost use Rattle.std.specs.Prelude.{◌≡◌, All, IfOk, None};
ghost use Rattle.st_model.specs.Branch.{IsVertexSet, LeavesRequired};
ghost use Rattle.st_model.specs.Network.{IsInstance};
ghost use Rattle.dual_ascent.specs.Extension.{IsRootFor, IsStart};
ghost use Rattle.node_work.specs.Finding.{together};
ghost use Rattle.node_work.specs.Raising.{IsExtendable};
ghost use Rattle.node_work.specs.Target.{IsFindingFor};

use crate::deleting::needed;
use crate::node::no_cuts;
use crate::plan::Plan;
use crate::refining::{Guide, raise_refined};
use crate::repairing::repaired;
use crate::step::Finding;
use crate::target::Target;
use better_trees::{Incumbent, Means, Place, Priced, better_tree, later, narrowed};
use cut_packing::{Packing, base_weight};
use dual_ascent::{Ascent, Extension};
use st_model::{Instance, Sides, SplitAt, VertexSet};
use std::alloc::AllocError;
use std::thread::Threads;

// Of how many free vertices one at least has to be far, for a guess to be worth its time.
const FREE_FOR_ONE_FAR: u64 = 50;

// How many vertices are deleted by a plan, at most.
const MOST_DELETED: usize = 20;

// For how many turns the packing of the guess is refined.
const TURNS: u64 = 10;

/// What is found by the guess that whoever isn't near the root is outside: cuts raised there for the
/// root lead to a tree that is cheaper, to a packing that closes the branch itself, or to a plan to close
/// it by few deletions. `packing` is one of the branch for this root. (Duin 1993 deletes vertices that are
/// too far by bound.)
pub fn guess<R: Threads + Sync>(
    means: &Means<'_, R>,
    target: &Target<'_>,
    packing: &Packing,
    near: &VertexSet,
    incumbent: &Incumbent<'_>,
) -> Result<Finding, AllocError>
    requires instance { IsInstance target.now.place.whole.now.instance }
    requires start { IsStart target.now.place.whole.now.instance target.now.place.branch.now packing.now }
    requires rooted { IsRootFor target.now.place.whole.now.instance target.now.place.branch.now packing.now
        target.now.root }
    ensures { IfOk result (IsFindingFor target.now) }
{
    let instance = &target.place.whole.instance;
    let branch = target.place.branch;
    if !are_many_far(instance, branch, near) {
        return Ok(nothing());
    }
    let part = narrowed(means.alloc, instance, branch, near)?;
    let part = Sides::of(means.alloc, part)?;
    let bare = no_cuts(means.alloc);
    if base_weight(instance, part.branch(), &bare) >= u128::from(target.least) {
        return Ok(nothing());
    }
    guess_within(means, target, &part, bare, incumbent)
}

// What is found by cuts that are raised for the root of a part of the branch.
fn guess_within<R: Threads + Sync>(
    means: &Means<'_, R>,
    target: &Target<'_>,
    part: &Sides,
    bare: Packing,
    incumbent: &Incumbent<'_>,
) -> Result<Finding, AllocError>
    requires instance { IsInstance target.now.place.whole.now.instance }
    requires required { LeavesRequired target.now.place.whole.now.instance target.now.place.branch.now }
    requires able { IsExtendable target.now.place.whole.now.instance part.now bare target.now.root
        target.now.least }
    ensures { IfOk result (IsFindingFor target.now) }
{
    let inside = Target {
        place: Place {
            whole: target.place.whole,
            branch: part,
        },
        root: target.root,
        least: target.least,
    };
    let mut guide = Guide::at(*incumbent, means.effort.seed);
    let Extension { ascent, left } = raise_refined(means, &inside, bare, TURNS, &mut guide)?;
    match ascent {
        Ascent::Reached(packing) => carried_over(means, target, part, packing, &mut guide),
        Ascent::Full(_) => {
            let place = &target.place;
            let better = better_tree(means.alloc, place, &left.arcs, target.least, means.effort)?;
            Ok(Finding {
                better,
                closing: None,
                plan: None,
            })
        }
    }
}

// What is made for the branch of a packing that closes a part of it: a plan, where few vertices are to be
// deleted, and else a packing that closes the branch, if one comes of it.
fn carried_over<R: Threads + Sync>(
    means: &Means<'_, R>,
    target: &Target<'_>,
    part: &Sides,
    packing: Packing,
    guide: &mut Guide<'_>,
) -> Result<Finding, AllocError>
    requires instance { IsInstance target.now.place.whole.now.instance }
    requires required { LeavesRequired target.now.place.whole.now.instance target.now.place.branch.now }
    requires sets { All (λ c. IsVertexSet target.now.place.whole.now.instance.n c.set) packing.cuts }
    ensures { IfOk result (IsFindingFor target.now) }
{
    let places = needed(means.alloc, &target.place, part, &packing)?;
    if are_few(&places) {
        return Ok(planned(Plan::of(&target.place.whole.instance, places, Some(packing))));
    }
    let closing = repaired(means, target, packing, guide)?;
    Ok(Finding {
        better: None,
        closing,
        plan: None,
    })
}

// Whether some vertices are near, and enough of the free ones aren't.
fn are_many_far(instance: &Instance, branch: &Sides, near: &VertexSet) -> bool {
    let mut free: u64 = 0;
    let mut far: u64 = 0;
    for before in 0..instance.vertices() {
        let vertex = before + 1;
        if branch.is_free(instance, vertex) {
            free = free.saturating_add(1);
            if !near.contains(vertex) {
                far = far.saturating_add(1);
            }
        }
    }
    !near.members().is_empty() && far > 0 && far.saturating_mul(FREE_FOR_ONE_FAR) >= free
}

// Neither a tree nor a packing.
fn nothing() -> Finding
    ensures { result ≡ record { better = None; closing = None; plan = None } }
{
    Finding {
        better: None,
        closing: None,
        plan: None,
    }
}

// A plan, and neither a tree nor a packing.
fn planned(plan: Plan) -> Finding
    ensures tree { result.better ≡ None }
    ensures packing { result.closing ≡ None }
{
    Finding {
        better: None,
        closing: None,
        plan: Some(plan),
    }
}

// Whether so few vertices are to be deleted that this is worth two lines of the proof each.
fn are_few(places: &[SplitAt]) -> bool {
    !places.is_empty() && places.len() <= MOST_DELETED
}

/// What was found before and after a better tree was.
pub fn together(better: Option<Priced>, more: Finding) -> Finding
    ensures { result ≡ together better more }
{
    let Finding {
        better: found,
        closing,
        plan,
    } = more;
    Finding {
        better: later(better, found),
        closing,
        plan,
    }
}
