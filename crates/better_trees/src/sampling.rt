ghost use Rattle.std.specs.Prelude.{IfOk, IfSome};
ghost use Rattle.better_trees.specs.Grown.{IsGrown};
ghost use Rattle.better_trees.specs.Better.{IsBetterAt};

use crate::bettering::steps;
use crate::by_vertex::{at, put};
use crate::candidate::{Candidate, Source, grow_all};
use crate::comparing::{later, least_after, priced};
use crate::draws::Draws;
use crate::elite::Elite;
use crate::means::Means;
use crate::place::Place;
use crate::price::Priced;
use bidirected_form::{Arc, Arcs};
use graph_store::Whole;
use st_model::{Instance, Sides, Tree};
use std::alloc::{AllocError, Global};
use std::thread::Threads;

// How many random trees there are, at most, and how many vertices they can reach together, about.
const TREES: u64 = 12;

const VERTICES: u64 = 8_000;

// How many candidates grow at once, where there are so many processors.
const AT_ONCE: u64 = 4;

// How many vertices are open for each thread, at least: to start one takes as long as a tree over few.
const FOR_A_THREAD: u64 = 20;

// What a vertex weighs where weights are random alone, in hundredths, and up to how much more.
const RANDOM: (u64, u64) = (50, 25);

// What one weighs to which a saturated arc leads, another one, and up to how much more.
const SATURATED: u64 = 5;

const NOT_SATURATED: u64 = 55;

const MORE: u64 = 10;

/// A tree that reaches what the branch says and costs less than the least cost known, if one is found: the
/// cheapest of trees along random costs, led on by walks and improved, and of the one over saturated arcs led
/// on so. Costs are random alone and by what is left of the arcs, and then round two of the trees found
/// before. There are no more where one costs what the bound is.
#[tactic(auto, using(crate::proofs::Found::found_later))]
pub fn random_tree<R: Threads + Sync>(
    means: &Means<'_, R>,
    place: &Place<'_>,
    arcs: &Arcs,
    saturated: &Option<Tree>,
    elite: &mut Elite,
    least: u64,
    bound: u128,
) -> Result<Option<Priced>, AllocError>
    ensures { IfOk result (λ better. IfSome better (IsBetterAt place.now least)) }
{
    let mut draws = Draws::of(means.effort.seed);
    let open = open_vertices(&place.whole.instance, place.branch);
    let count = TREES.min(VERTICES / open.max(1));
    let first = first_of(count);
    let means = means.within((open / FOR_A_THREAD) as usize);
    let mut best = None;
    for is_between in [false, true] {
        let known = least_after(least, &best);
        if bound >= u128::from(known) {
            return Ok(best);
        }
        let candidates = if is_between {
            let rest = count.saturating_sub(first);
            candidates_between(means.alloc, rest, arcs, elite, &mut draws)?
        } else {
            first_candidates(means.alloc, place.whole, first, arcs, saturated, &mut draws)?
        };
        let found = best_grown(&means, place, candidates, elite, known)?;
        best = later(best, found);
    }
    Ok(best)
}

/// How many vertices aren't outside.
pub fn open_vertices(instance: &Instance, branch: &Sides) -> u64 {
    let outside = branch.branch().outside.as_slice().len() as u64;
    u64::from(instance.vertices()).saturating_sub(outside)
}

// How many of so many candidates are the first: half of them, made up to a multiple of those that grow at once.
fn first_of(count: u64) -> u64 {
    let times = count.div_ceil(2 * AT_ONCE);
    count.min(times.saturating_mul(AT_ONCE))
}

// So many candidates, of which the first leads on the tree over saturated arcs, if there is one and walks have steps.
// That one is there even where there are to be none.
fn first_candidates(
    alloc: Global,
    whole: &Whole,
    count: u64,
    arcs: &Arcs,
    saturated: &Option<Tree>,
    draws: &mut Draws,
) -> Result<Vec<Candidate>, AllocError> {
    let mut candidates = Vec::new(alloc);
    if let Some(tree) = saturated {
        if steps(whole) > 0 {
            let source = Source::Tree(tree.copied(alloc)?);
            candidates.push(Candidate::of(source, draws.below(u64::MAX)))?;
        }
    }
    for place in candidates.len() as u64..count {
        let weights = random_weights(alloc, place, arcs, draws)?;
        candidates.push(Candidate::of(Source::Weights(weights), draws.below(u64::MAX)))?;
    }
    Ok(candidates)
}

// So many candidates round two of the cheapest trees each.
fn candidates_between(
    alloc: Global,
    count: u64,
    arcs: &Arcs,
    elite: &Elite,
    draws: &mut Draws,
) -> Result<Vec<Candidate>, AllocError> {
    let mut candidates = Vec::new(alloc);
    for place in 0..count {
        let weights = if elite.len() > 1 {
            elite.between(alloc, arcs.vertices(), draws)?
        } else {
            random_weights(alloc, place, arcs, draws)?
        };
        candidates.push(Candidate::of(Source::Weights(weights), draws.below(u64::MAX)))?;
    }
    Ok(candidates)
}

/// The cheapest tree that comes of candidates, if it costs less than the least cost known.
pub fn best_grown<R: Threads + Sync>(
    means: &Means<'_, R>,
    place: &Place<'_>,
    candidates: Vec<Candidate>,
    elite: &mut Elite,
    least: u64,
) -> Result<Option<Priced>, AllocError>
    ensures { IfOk result (λ better. IfSome better (IsBetterAt place.now least)) }
{
    let mut best = None;
    for candidate in grow_all(means, place, candidates) {
        best = or_grown(means.alloc, place, candidate, elite, best, least)?;
    }
    Ok(best)
}

// The tree of a candidate, where it is cheaper than a better tree that was found, and else that one. It is kept
// if it is one of the cheapest found so far.
#[tactic(auto, using(crate::proofs::Found::found_later))]
fn or_grown(
    alloc: Global,
    place: &Place<'_>,
    candidate: Candidate,
    elite: &mut Elite,
    best: Option<Priced>,
    least: u64,
) -> Result<Option<Priced>, AllocError>
    requires grown { IsGrown place.now candidate }
    requires best { IfSome best (IsBetterAt place.now least) }
    ensures { IfOk result (λ better. IfSome better (IsBetterAt place.now least)) }
{
    let Some(tree) = candidate.tree? else {
        return Ok(best);
    };
    elite.keep(alloc, &place.whole.instance, &tree)?;
    let known = least_after(least, &best);
    Ok(later(best, priced(&place.whole.instance, tree, known)))
}

// By vertex, random weights, in every other place by what is left of the arcs.
fn random_weights(
    alloc: Global,
    place: u64,
    arcs: &Arcs,
    draws: &mut Draws,
) -> Result<Vec<u64>, AllocError> {
    if place % 2 == 1 {
        weights_by_arcs(alloc, arcs, draws)
    } else {
        draws.weights(alloc, arcs.vertices(), RANDOM.0, RANDOM.1)
    }
}

// By vertex, random weights by what is left of the arcs.
fn weights_by_arcs(alloc: Global, arcs: &Arcs, draws: &mut Draws) -> Result<Vec<u64>, AllocError> {
    let mut weights = draws.weights(alloc, arcs.vertices(), 0, MORE)?;
    for before in 0..arcs.vertices() {
        let vertex = before + 1;
        let more = at(&weights, vertex, 0);
        let least = weight_by(arcs.arcs_into(vertex));
        put(&mut weights, vertex, least.saturating_add(more));
    }
    Ok(weights)
}

// What a vertex weighs by what is left of the arcs that lead to it.
fn weight_by(into: &[Arc]) -> u64 {
    if into.iter().any(|arc| arc.remaining == 0) {
        SATURATED
    } else {
        NOT_SATURATED
    }
}
