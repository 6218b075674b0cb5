ghost use Rattle.std.specs.Prelude.{IfOk, IfSome};
ghost use Rattle.better_trees.specs.Better.{IsBetterAt};

use crate::candidate::{Candidate, Source};
use crate::comparing::{later, least_after, tree_of};
use crate::draws::Draws;
use crate::elite::Elite;
use crate::incumbent::Incumbent;
use crate::means::Means;
use crate::place::Place;
use crate::price::Priced;
use crate::sampling::{best_grown, open_vertices};
use crate::walk::Walk;
use st_model::{Instance, VertexSet};
use std::alloc::{AllocError, Global};
use std::thread::Threads;

// How many turns there are at most, how many walks in each, and how many vertices are open for each walk, at
// least.
const TURNS: u64 = 4;

const WALKS: u64 = 4;

const FOR_A_WALK: u64 = 20;

/// A tree that reaches what the branch says and costs less than the incumbent, if one is found: walks lead
/// from the cheapest trees over others that cost the same, among what these reach and what is near, turn by
/// turn as long as they come to a cheaper one that costs more than the bound.
#[tactic(auto, using(crate::proofs::Found::found_later))]
pub fn wandered_tree<R: Threads + Sync>(
    means: &Means<'_, R>,
    place: &Place<'_>,
    near: &VertexSet,
    incumbent: &Incumbent<'_>,
    elite: &mut Elite,
    bound: u128,
) -> Result<Option<Priced>, AllocError>
    ensures { IfOk result (λ better. IfSome better (IsBetterAt place.now incumbent.now.cost)) }
{
    let instance = &place.whole.instance;
    let mut draws = Draws::of(means.effort.seed);
    let walks = WALKS.min(open_vertices(instance, place.branch) / FOR_A_WALK);
    let count = means.effort.walks(walks, instance.links().len());
    let mut best = None;
    for _turn in 0..TURNS {
        let least = least_after(incumbent.cost, &best);
        let known = Incumbent {
            tree: tree_of(incumbent.tree, &best),
            cost: least,
        };
        let walks = new_walks(
            means.alloc,
            instance,
            near,
            &known,
            elite,
            count,
            &mut draws,
        )?;
        let found = best_grown(means, place, walks, elite, least)?;
        let is_done = found.is_none();
        best = later(best, found);
        if is_done || bound >= u128::from(least_after(incumbent.cost, &best)) {
            break;
        }
    }
    Ok(best)
}

// So many walks from some of the cheapest trees, or from the best one known, if those cost more than the incumbent.
fn new_walks(
    alloc: Global,
    instance: &Instance,
    near: &VertexSet,
    incumbent: &Incumbent<'_>,
    elite: &Elite,
    count: u64,
    draws: &mut Draws,
) -> Result<Vec<Candidate>, AllocError> {
    let mut walks = Vec::new(alloc);
    for _walk in 0..count {
        let tree = elite
            .cheapest(incumbent.cost, draws)
            .unwrap_or(incumbent.tree);
        let seed = draws.below(u64::MAX);
        let walk = Walk::of(alloc, instance, tree, near.members())?;
        walks.push(Candidate::of(Source::Walk(walk), seed))?;
    }
    Ok(walks)
}
