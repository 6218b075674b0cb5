ghost use Rattle.std.specs.Prelude.{◌≡◌, ℕ, ◌+◌, ◌<◌, ◌^◌, ◌&&◌, not, [], length, map, replicate, All, IfOk, Option, if◌then◌else◌};
ghost use Rattle.st_model.specs.declared.branch.Branch.{Branch};
ghost use Rattle.st_model.specs.Branch.{is_present};
ghost use Rattle.st_model.specs.Ground.{Ground};
ghost use Rattle.st_model.specs.Lists.{has};
ghost use Rattle.st_model.specs.Made.{has_pair};
ghost use Rattle.cut_packing.specs.Loads.{arcs_into, laid, AreLoaded, AreLoadedIn};
ghost use Rattle.st_model.specs.VertexSet.{AllApart};

use crate::Cut;
use crate::arcs::{LoadedArc, LoadedArcs, lay_into};
use st_model::{Instance, Link, Sides, VertexSet};
use std::alloc::{AllocError, Global};

/// The arcs between present vertices of links that aren't barred, with what the cuts lay on them.
pub fn loads(
    alloc: Global,
    instance: &Instance,
    branch: &Sides,
    cuts: &[Cut],
) -> Result<LoadedArcs, AllocError>
    ensures { IfOk result
        (λ arcs. AreLoaded instance.now branch.now instance.now.links cuts.now arcs) }
{
    let arcs = free_arcs(alloc, instance, branch)?;
    lay_cuts(alloc, arcs, cuts)
}

/// Arcs that bear nothing yet, with what the cuts lay on them: over whatever ground they are.
pub fn lay_cuts(alloc: Global, arcs: LoadedArcs, cuts: &[Cut]) -> Result<LoadedArcs, AllocError>
    requires free { (G : Ground) × (B : Branch) × (price : ℕ → ℕ → Option ℕ)
        × AreLoadedIn G B price [] arcs }
    ensures { (G : Ground) (B : Branch) (price : ℕ → ℕ → Option ℕ) → AreLoadedIn G B price [] arcs
        → IfOk result (λ loaded. AreLoadedIn G B price cuts.now loaded) }
{
    let mut arcs = arcs;
    let mut members = VertexSet::new(alloc, arcs.count())?;
    for cut in cuts {
        members.fill(cut.set.as_slice())?;
        lay(&mut arcs, &members, cut.y);
    }
    Ok(arcs)
}

// The arcs between present vertices of links that aren't barred, with nothing on them.
fn free_arcs(alloc: Global, instance: &Instance, branch: &Sides) -> Result<LoadedArcs, AllocError>
    ensures { IfOk result
        (λ arcs. AreLoaded instance.now branch.now instance.now.links [] arcs) }
{
    let count = instance.vertices() as usize + 1;
    let mut arcs = LoadedArcs::new(alloc, count)?;
    for link in instance.links() {
        if is_open(branch, link) {
            arcs.add(link.b, free(link.a, link.cost))?;
            arcs.add(link.a, free(link.b, link.cost))?;
        }
    }
    Ok(arcs)
}

// Whether neither end of a link is outside, and it isn't barred.
fn is_open(branch: &Sides, link: &Link) -> bool
    ensures { result ≡ ((is_present branch.now link.now.a && is_present branch.now link.now.b)
        && not (has_pair branch.now.barred link.now.a link.now.b)) }
{
    !branch.is_outside(link.a) && !branch.is_outside(link.b) && !branch.is_barred(link.a, link.b)
}

// An arc from a vertex, with nothing on it.
fn free(tail: u32, cost: u64) -> LoadedArc
    ensures { result ≡ record { tail = tail; cost = cost; load = 0 } }
{
    LoadedArc {
        tail,
        cost,
        load: 0,
    }
}

/// Lays a value on all arcs that enter a set.
pub fn lay(arcs: &mut LoadedArcs, set: &VertexSet, value: u64)
    requires count { set.now.count ≡ length arcs.old }
    requires room { (v : ℕ) → All (λ arc. arc.load + value < 2 ^ 128) (arcs_into arcs.old v) }
    ensures count { length arcs.new ≡ length arcs.old }
    ensures laid { (v : ℕ) → arcs_into arcs.new v ≡ (if has set.now.members v
        then map (laid set.now.members value) (arcs_into arcs.old v) else arcs_into arcs.old v) }
{
    for head in set.members() {
        lay_into(arcs, *head, set, value);
    }
}
