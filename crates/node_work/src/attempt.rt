ghost use Rattle.std.specs.Prelude.{◌<◌, All, IfOk, IfSome};
ghost use Rattle.std.specs.Thread.{IsSync};
ghost use Rattle.node_work.specs.Target.{IsRaisedFor, IsRefinedFor};
ghost use Rattle.node_work.specs.Trying.{IsTriedFor};

use crate::freeing::Freeing;
use crate::rooted::Rooted;
use crate::target::Target;
use better_trees::{Draws, gap};
use cut_packing::base_weight;
use dual_ascent::{Extension, free, raise_over};
use std::alloc::{AllocError, Global};
use std::thread;
use std::thread::{Threads, join_mut};

/// Where attempts are made: what for, and a tree that says where faults are, if there is one.
#[derive(Clone, Copy)]
pub struct Site<'a> {
    pub target: Target<'a>,
    pub tree: &'a Option<Rooted>,
}

/// What is drawn to make a packing heavier, and what came of it, if that is no lighter.
#[derive(Drop)]
pub struct Attempt {
    draws: Draws,
    pub raised: Result<Option<Extension>, AllocError>,
}

impl Attempt {
    /// One that wasn't made yet.
    pub fn of(seed: u64) -> Attempt {
        Attempt {
            draws: Draws::of(seed),
            raised: Ok(None),
        }
    }

    // Frees cuts round a fault, and raises cuts again in a random order.
    fn make(&mut self, alloc: Global, site: &Site<'_>, extension: &Extension)
        requires { IsRaisedFor site.now.target extension.now }
        ensures { IsTriedFor site.now.target extension.now self.new }
    {
        self.raised = self.raised_again(alloc, site, extension);
    }

    fn raised_again(
        &mut self,
        alloc: Global,
        site: &Site<'_>,
        extension: &Extension,
    ) -> Result<Option<Extension>, AllocError>
        requires { IsRaisedFor site.now.target extension.now }
        ensures { IfOk result (λ raised. IfSome raised (IsRefinedFor site.now.target extension.now)) }
    {
        let place = &site.target.place;
        let freeing = Freeing::random(alloc, place, extension, site.tree, &mut self.draws)?;
        let freed = freeing.marks(alloc, extension.ascent.packing(), &mut self.draws)?;
        let order = self.draws.order(alloc, place.whole.instance.vertices())?;
        raised_without(alloc, site, extension, &freed, &order)
    }
}

// What is raised for the root from what the packing of an extension is without the cuts that are freed,
// if it is no lighter than this.
fn raised_without(
    alloc: Global,
    site: &Site<'_>,
    extension: &Extension,
    freed: &[bool],
    order: &[u32],
) -> Result<Option<Extension>, AllocError>
    requires { IsRaisedFor site.now.target extension.now }
    ensures { IfOk result (λ raised. IfSome raised (IsRefinedFor site.now.target extension.now)) }
{
    let whole = site.target.place.whole;
    let branch = site.target.place.branch;
    let mut left = extension.left.copied(alloc)?;
    let packing = extension.ascent.packing();
    let kept = free(alloc, &whole.store, branch, packing, &mut left, freed)?;
    let target = gap(&whole.instance, branch, &kept, site.target.least);
    let raised = raise_over(alloc, &whole.store, branch, kept, left, order, target)?;
    let before = base_weight(&whole.instance, branch.branch(), packing);
    if base_weight(&whole.instance, branch.branch(), raised.ascent.packing()) < before {
        return Ok(None);
    }
    Ok(Some(raised))
}

/// Makes attempts at an extension, in so many threads where they can be made, and else one after another.
pub fn make_all<R: Threads + Sync>(
    rt: &R,
    alloc: Global,
    site: &Site<'_>,
    extension: &Extension,
    attempts: &mut [Attempt],
    threads: usize,
)
    requires { IsRaisedFor site.now.target extension.now }
    ensures { All (IsTriedFor site.now.target extension.now) attempts.new }
{
    if threads > 1 {
        let size = attempts.len().div_ceil(threads).max(1);
        make_apart(rt, alloc, site, extension, size, attempts);
    } else {
        make_in_turn(rt, alloc, site, extension, attempts);
    }
}

// Makes attempts one after another.
fn make_in_turn<R: Threads + Sync>(
    rt: &R,
    alloc: Global,
    site: &Site<'_>,
    extension: &Extension,
    attempts: &mut [Attempt],
)
    requires { IsRaisedFor site.now.target extension.now }
    ensures { All (IsTriedFor site.now.target extension.now) attempts.new }
{
    thread::for_each_mut(
        rt,
        attempts,
        1,
        &|_, attempt: &mut Attempt|
            requires { IsRaisedFor site.now.target extension.now }
            ensures { IsTriedFor site.entry.now.target extension.entry.now attempt.exit.now }
        { attempt.make(alloc, site, extension) },
    );
}

// Makes so many attempts at a time, in a thread of their own. Who makes the threads makes no attempt, and
// only waits: a thread that is made by one at work may have to wait until that is done.
#[cycle(apart)]
fn make_apart<R: Threads + Sync>(
    rt: &R,
    alloc: Global,
    site: &Site<'_>,
    extension: &Extension,
    size: usize,
    attempts: &mut [Attempt],
)
    requires size { 0 < size }
    requires at { IsRaisedFor site.now.target extension.now }
    ensures { All (IsTriedFor site.now.target extension.now) attempts.new }
{
    if attempts.is_empty() {
        return;
    }
    let few = size.min(attempts.len());
    let (first, rest) = attempts.split_at_mut(few);
    let mut one = ||
        requires { IsSync R.row × IsRaisedFor site.now.target extension.now }
        ensures { All (IsTriedFor site.entry.now.target extension.entry.now) first.exit.now }
    { make_in_turn(rt, alloc, site, extension, first) };
    let mut others = ||
        requires { IsSync R.row × (0 < size) × IsRaisedFor site.now.target extension.now }
        ensures { All (IsTriedFor site.entry.now.target extension.entry.now) rest.exit.now }
    { make_apart(rt, alloc, site, extension, size, rest) };
    join_mut(rt, &mut one, &mut others);
}
