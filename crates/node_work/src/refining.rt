ghost use Rattle.std.specs.Prelude.{◌≡◌, ◌⊎◌, IfOk};
ghost use Rattle.node_work.specs.Target.{IsExtendableFor, IsExtendedFor, IsRaisedFor, IsRefinedFor};

use crate::attempt::{Attempt, Site, make_all};
use crate::raising::raise;
use crate::rooted::Rooted;
use crate::target::Target;
use better_trees::{Draws, Effort, Incumbent, Means, Place};
use cut_packing::{Packing, base_weight};
use dual_ascent::Extension;
use graph_store::Whole;
use std::alloc::{AllocError, Global};
use std::thread::Threads;

// How many links are looked at for the turns of one packing, about.
const LINKS: u64 = 400_000;

// From how many links for each vertex on a network is dense, and after how many turns without a gain no more
// follow there.
const DENSE: u64 = 4;

const PATIENCE: u64 = 3;

// How many links there are for each thread, at least: to start one takes as long as an attempt over few.
const LINKS_FOR_A_THREAD: usize = 100;

/// What refining goes by: the incumbent, and draws.
#[derive(Drop)]
pub struct Guide<'a> {
    incumbent: Incumbent<'a>,
    draws: Draws,
}

impl<'a> Guide<'a> {
    /// By an incumbent, with the draws of a seed.
    pub fn at(incumbent: Incumbent<'a>, seed: u64) -> Guide<'a> {
        Guide {
            incumbent,
            draws: Draws::of(seed),
        }
    }
}

/// Raises a packing, and refines what comes of it for some turns.
pub fn raise_refined<R: Threads + Sync>(
    means: &Means<'_, R>,
    target: &Target<'_>,
    packing: Packing,
    turns: u64,
    guide: &mut Guide<'_>,
) -> Result<Extension, AllocError>
    requires able { IsExtendableFor target.now packing }
    ensures { IfOk result (IsExtendedFor target.now packing) }
{
    let raised = raise(means.alloc, target, packing)?;
    let refined = refine(means, target, raised, turns, guide)?;
    Ok(refined)
}

/// Refines the packing of an extension, so that it weighs `least` or is full, and is no lighter. In each
/// attempt cuts round a fault are freed, and cuts are raised again in a random order; `turns` is how
/// many attempts there are, and of those that are made at one packing the heaviest counts. It ends where
/// the packing weighs what the incumbent costs.
pub fn refine<R: Threads + Sync>(
    means: &Means<'_, R>,
    target: &Target<'_>,
    extension: Extension,
    turns: u64,
    guide: &mut Guide<'_>,
) -> Result<Extension, AllocError>
    requires raised { IsRaisedFor target.now extension }
    ensures { IfOk result (IsRefinedFor target.now extension) }
{
    let place = &target.place;
    let known = guide.incumbent.tree;
    let tree = Rooted::of(
        means.alloc,
        &place.whole.instance,
        place.branch,
        known,
        target.root,
    )?;
    let site = Site {
        target: Target {
            place: Place {
                whole: place.whole,
                branch: place.branch,
            },
            root: target.root,
            least: target.least,
        },
        tree: &tree,
    };
    let patience = patience_for(place.whole, means.effort);
    let mut refined = extension;
    let mut idle: u64 = 0;
    for _ in 0..turns_for(place.whole, turns) / means.effort.attempts() {
        let before = weight_of(place, &refined);
        let enough = u128::from(guide.incumbent.cost);
        if refined.ascent.is_reached() || before >= enough || idle >= patience {
            break;
        }
        refined = turn(means, &site, refined, &mut guide.draws)?;
        let has_gained = weight_of(place, &refined) > before;
        idle = if has_gained {
            0
        } else {
            idle.saturating_add(1)
        };
    }
    Ok(refined)
}

// So many attempts.
fn new_attempts(alloc: Global, count: u64, draws: &mut Draws) -> Result<Vec<Attempt>, AllocError> {
    let mut attempts = Vec::new(alloc);
    for _attempt in 0..count {
        let seed = draws.below(u64::MAX);
        attempts.push(Attempt::of(seed))?;
    }
    Ok(attempts)
}

// The heaviest of what attempts at an extension give, or this where all were lighter.
fn turn<R: Threads + Sync>(
    means: &Means<'_, R>,
    site: &Site<'_>,
    extension: Extension,
    draws: &mut Draws,
) -> Result<Extension, AllocError>
    requires raised { IsRaisedFor site.now.target extension }
    ensures { IfOk result (IsRefinedFor site.now.target extension) }
{
    let place = &site.target.place;
    let mut attempts = new_attempts(means.alloc, means.effort.attempts(), draws)?;
    let threads = threads_for(place.whole, means.effort.threads);
    make_all(
        means.rt,
        means.alloc,
        site,
        &extension,
        attempts.as_mut_slice(),
        threads,
    );
    let mut best = None;
    for attempt in attempts {
        best = heaviest(place, best, attempt.raised?);
    }
    Ok(best.unwrap_or(extension))
}

// The heavier of two extensions; the one there is, where there is one.
fn heaviest(
    place: &Place<'_>,
    best: Option<Extension>,
    raised: Option<Extension>,
) -> Option<Extension>
    ensures { (result ≡ best) ⊎ (result ≡ raised) }
{
    match (&best, &raised) {
        (Some(old), Some(new)) => {
            if weight_of(place, new) > weight_of(place, old) {
                raised
            } else {
                best
            }
        }
        (None, _) => raised,
        (Some(_), None) => best,
    }
}

// How many turns there are of so many: fewer, where there are many links.
fn turns_for(whole: &Whole, turns: u64) -> u64 {
    let links = whole.instance.links().len() as u64;
    turns.min(LINKS / links.max(1))
}

// After how many turns in a row without a gain refining ends: soon in a dense network, where cuts that are drawn
// again weigh the same once they weigh what they can.
fn patience_for(whole: &Whole, effort: Effort) -> u64 {
    let (links, vertices) = (whole.instance.links().len(), whole.instance.vertices());
    if links as u64 >= u64::from(vertices) * DENSE {
        effort.patience().min(PATIENCE)
    } else {
        effort.patience()
    }
}

// In how many threads attempts are made of so many: fewer, where there are few links.
fn threads_for(whole: &Whole, threads: usize) -> usize {
    threads.min(whole.instance.links().len() / LINKS_FOR_A_THREAD)
}

// What the packing of an extension weighs.
fn weight_of(place: &Place<'_>, extension: &Extension) -> u128 {
    base_weight(
        &place.whole.instance,
        place.branch.branch(),
        extension.ascent.packing(),
    )
}
