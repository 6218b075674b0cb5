ghost use Rattle.std.specs.Prelude.{◌<◌, All};
ghost use Rattle.std.specs.Thread.{IsSync};
ghost use Rattle.better_trees.specs.Grown.{IsGrown};

use crate::bettering::{steps, tree_along};
use crate::means::Means;
use crate::place::Place;
use crate::walk::{Walk, end_of_walk};
use st_model::Tree;
use std::alloc::{AllocError, Global};
use std::thread;
use std::thread::{Threads, join_mut};

/// What a tree is to come of: weights by vertex along which it grows, another tree that a walk leads on, or
/// such a walk among some vertices alone.
#[derive(Drop)]
pub enum Source {
    Weights(Vec<u64>),
    Tree(Tree),
    Walk(Walk),
}

/// A candidate: a source, a seed for what is random on the way from there, and the tree that came of it, if one did.
#[derive(Drop)]
pub struct Candidate {
    source: Source,
    seed: u64,
    pub tree: Result<Option<Tree>, AllocError>,
}

impl Candidate {
    /// A source of which nothing came yet.
    pub fn of(source: Source, seed: u64) -> Candidate {
        Candidate {
            source,
            seed,
            tree: Ok(None),
        }
    }

    // Makes a tree that reaches what the branch says.
    fn grow(&mut self, alloc: Global, place: &Place<'_>)
        ensures { IsGrown place.now self.new }
    {
        self.tree = match &self.source {
            Source::Weights(weights) => tree_along(alloc, place, weights.as_slice(), self.seed),
            Source::Tree(tree) => end_of_walk(alloc, place, tree, self.seed, steps(place.whole)),
            Source::Walk(walk) => walk.end(alloc, place, self.seed),
        };
    }
}

/// The candidates, each with the tree that came of its source and reaches what the branch says, if one did.
pub fn grow_all<R: Threads + Sync>(
    means: &Means<'_, R>,
    place: &Place<'_>,
    candidates: Vec<Candidate>,
) -> Vec<Candidate>
    ensures { All (IsGrown place.now) result.items }
{
    let mut all = candidates;
    grow_each(means, place, all.as_mut_slice());
    all
}

// Makes a tree of the source of each candidate, in several threads where they can be made, and else one after
// another.
fn grow_each<R: Threads + Sync>(
    means: &Means<'_, R>,
    place: &Place<'_>,
    candidates: &mut [Candidate],
)
    ensures { All (IsGrown place.now) candidates.new }
{
    let threads = means.effort.threads;
    if threads > 1 {
        let size = candidates.len().div_ceil(threads).max(1);
        grow_apart(means.rt, means.alloc, place, size, candidates);
    } else {
        grow_in_turn(means.rt, means.alloc, place, candidates);
    }
}

// Makes trees one after another.
fn grow_in_turn<R: Threads + Sync>(
    rt: &R,
    alloc: Global,
    place: &Place<'_>,
    candidates: &mut [Candidate],
)
    ensures { All (IsGrown place.now) candidates.new }
{
    thread::for_each_mut(
        rt,
        candidates,
        1,
        &|_, candidate: &mut Candidate|
            ensures { IsGrown place.entry.now candidate.exit.now }
        { candidate.grow(alloc, place) },
    );
}

// Makes the trees of so many candidates at a time, in a thread of their own. Who makes the threads makes no tree,
// and only waits: a thread that is made by one at work may have to wait until that is done.
#[cycle(apart)]
fn grow_apart<R: Threads + Sync>(
    rt: &R,
    alloc: Global,
    place: &Place<'_>,
    size: usize,
    candidates: &mut [Candidate],
)
    requires { 0 < size }
    ensures { All (IsGrown place.now) candidates.new }
{
    if candidates.is_empty() {
        return;
    }
    let few = size.min(candidates.len());
    let (first, rest) = candidates.split_at_mut(few);
    let mut one = ||
        requires { IsSync R.row }
        ensures { All (IsGrown place.entry.now) first.exit.now }
    { grow_in_turn(rt, alloc, place, first) };
    let mut others = ||
        requires { IsSync R.row × (0 < size) }
        ensures { All (IsGrown place.entry.now) rest.exit.now }
    { grow_apart(rt, alloc, place, size, rest) };
    join_mut(rt, &mut one, &mut others);
}
