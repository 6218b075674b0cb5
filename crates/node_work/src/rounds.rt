ghost use Rattle.std.specs.Prelude.{IfOk, IfSome};
ghost use Rattle.better_trees.specs.Better.{IsBetterAt};
ghost use Rattle.node_work.specs.Target.{IsExtendableFor, IsExtendedFor, IsRaisedFor, IsRefinedFor};

use crate::raising::raise;
use crate::refining::{Guide, refine};
use crate::target::Target;
use better_trees::{
    Elite, Incumbent, KeyVertices, Means, Place, Priced, Trees, gap, later, least_after, tree_of,
    trees_at,
};
use cut_packing::Packing;
use dual_ascent::Extension;
use std::alloc::AllocError;
use std::thread::Threads;

// After how many rounds in a row without a gain no more follow, and which part of what is left at a
// round's beginning counts as one.
const PATIENCE: u64 = 2;

const GAIN: u64 = 8;

/// What is found at a node by refining its packing and looking for trees.
#[derive(Drop)]
pub struct Rounds {
    pub extension: Extension,
    /// A tree that costs less than the incumbent, if one was found.
    pub better: Option<Priced>,
    /// Those of the trees.
    pub key_vertices: KeyVertices,
}

/// Raises a node's packing, and then refines it and looks for trees by turns, as long as that gains
/// something: a better tree says where to refine, and a better packing where trees are.
pub fn work_by_rounds<R: Threads + Sync>(
    means: &Means<'_, R>,
    target: &Target<'_>,
    packing: Packing,
    incumbent: &Incumbent<'_>,
) -> Result<Rounds, AllocError>
    requires able { IsExtendableFor target.now packing }
    ensures extended { IfOk result (λ r. IsExtendedFor target.now packing r.extension) }
    ensures better { IfOk result (λ r. IfSome r.better (IsBetterAt target.now.place incumbent.now.cost)) }
{
    let instance = &target.place.whole.instance;
    let raised = raise(means.alloc, target, packing)?;
    let mut elite = Elite::new(means.alloc);
    let mut rounds = Rounds {
        extension: raised,
        better: None,
        key_vertices: KeyVertices::of_none(means.alloc, instance)?,
    };
    let mut idle: u64 = 0;
    for index in 0..means.effort.rounds(instance.links().len()) {
        let before = left(&target.place, &rounds, incumbent.cost);
        if before == 0 || idle >= PATIENCE {
            break;
        }
        let work = means.with(means.effort.of_round(index));
        rounds = round(&work, target, rounds, incumbent, &mut elite)?;
        let after = left(&target.place, &rounds, incumbent.cost);
        let has_gained = after < before.saturating_sub(before / GAIN);
        idle = if has_gained {
            0
        } else {
            idle.saturating_add(1)
        };
    }
    Ok(rounds)
}

// What the packing weighs less than the cheapest tree known costs.
fn left(place: &Place<'_>, rounds: &Rounds, least: u64) -> u64 {
    let known = least_after(least, &rounds.better);
    let packing = rounds.extension.ascent.packing();
    gap(&place.whole.instance, place.branch, packing, known)
}

// One more round.
#[tactic(auto, using(better_trees::proofs::Found::found_later))]
fn round<R: Threads + Sync>(
    means: &Means<'_, R>,
    target: &Target<'_>,
    rounds: Rounds,
    incumbent: &Incumbent<'_>,
    elite: &mut Elite,
) -> Result<Rounds, AllocError>
    requires raised { IsRaisedFor target.now rounds.extension }
    requires better { IfSome rounds.better (IsBetterAt target.now.place incumbent.now.cost) }
    ensures refined { IfOk result (λ r. IsRefinedFor target.now rounds.extension r.extension) }
    ensures better { IfOk result (λ r. IfSome r.better (IsBetterAt target.now.place incumbent.now.cost)) }
{
    let Rounds {
        extension,
        better,
        key_vertices: _,
    } = rounds;
    let known = Incumbent {
        tree: tree_of(incumbent.tree, &better),
        cost: least_after(incumbent.cost, &better),
    };
    let extension = refine_by(means, target, extension, known)?;
    let Trees {
        better: more,
        key_vertices,
    } = trees_at(
        means,
        &target.place,
        extension.ascent.packing(),
        &extension.left.arcs,
        &known,
        elite,
    )?;
    Ok(Rounds {
        extension,
        better: later(better, more),
        key_vertices,
    })
}

// Refines an extension by an incumbent.
fn refine_by<R: Threads + Sync>(
    means: &Means<'_, R>,
    target: &Target<'_>,
    extension: Extension,
    incumbent: Incumbent<'_>,
) -> Result<Extension, AllocError>
    requires raised { IsRaisedFor target.now extension }
    ensures { IfOk result (IsRefinedFor target.now extension) }
{
    let mut guide = Guide::at(incumbent, means.effort.seed);
    let turns = means.effort.turns();
    let refined = refine(means, target, extension, turns, &mut guide)?;
    Ok(refined)
}
