ghost use Rattle.std.specs.Prelude.{◌≡◌, ◌≤◌, IfOk, OnOk, length};
ghost use Rattle.lift_back.specs.State.{whole};
ghost use Rattle.lift_back.specs.Steps.{Applies};
ghost use Rattle.reductions.specs.Results.{HasNoDetourStep, HasNoVertexStep};
ghost use Rattle.reductions.specs.Working.{IsSettled, IsWork};

use crate::work::Work;
use lift_back::{Reduced, Step};
use special_dist::Finder;
use st_model::{Instance, VertexSet};
use std::alloc::{AllocError, Global};

// An instance with no more links than this is reduced until no link has a detour.
const MANY_LINKS: usize = 4096;

// From how many places a search for a detour that is soon found goes on, at most and at least.
const MOST_PLACES: usize = 100;

const LEAST_PLACES: usize = 10;

// From how many places the searches for all links go on together, about: up to 40,000 links each has the most, and from
// 400,000 on the least.
const PLACES: usize = 4_000_000;

// How often some detours are looked for, at most and at least: the first time for any link, so that the second one
// looks round what went then.
const MOST_ROUNDS: usize = 10;

const LEAST_ROUNDS: usize = 2;

// How many links are looked at in all rounds together, about: up to 100,000 links there are the most rounds, and above
// 333,333 the least.
const LINKS: usize = 1_000_000;

/// Steps that apply to an instance one after another, and what they leave: no vertex may go by a
/// step any more, and where the instance has at most 4,096 links, no link either.
pub fn reduce(alloc: Global, instance: &Instance) -> Result<(Vec<Step>, Reduced), AllocError>
    ensures first { IfOk result (λ made. made.1.first ≡ instance.now) }
    ensures applies { IfOk result (λ made. Applies made.0.items (whole instance.now) made.1.state) }
    ensures vertices { IfOk result (λ made. HasNoVertexStep made.1.state) }
    ensures detours { length instance.now.links ≤ 4096 → IfOk result (λ made. HasNoDetourStep made.1.state) }
{
    let mut work = Work::of(alloc, instance)?;
    take_all(alloc, &mut work, instance)?;
    Ok((work.steps, work.reduced))
}

// Takes steps of an instance of which none was taken yet.
fn take_all(alloc: Global, work: &mut Work, instance: &Instance) -> Result<(), AllocError>
    requires work { IsWork work.old work.old.queue.items }
    requires first { work.old.reduced.first ≡ instance.now }
    ensures work { OnOk result (IsSettled work.new) }
    ensures detours { length instance.now.links ≤ 4096
        → OnOk result (HasNoDetourStep work.new.reduced.state) }
    ensures first { work.new.reduced.first ≡ work.old.reduced.first }
{
    let mut finder = Finder::new(alloc, instance.vertices())?;
    work.settle(&mut Vec::new(alloc))?;
    take_detours(alloc, work, &mut finder, instance)?;
    Ok(())
}

// Takes detours, and the steps by which a vertex goes then, of what is left of an instance.
fn take_detours(
    alloc: Global,
    work: &mut Work,
    finder: &mut Finder,
    instance: &Instance,
) -> Result<(), AllocError>
    requires work { IsSettled work.old }
    requires finder { finder.old ≡ work.old.reduced.first.n }
    ensures work { OnOk result (IsSettled work.new) }
    ensures detours { length instance.now.links ≤ 4096
        → OnOk result (HasNoDetourStep work.new.reduced.state) }
    ensures first { work.new.reduced.first ≡ work.old.reduced.first }
{
    thin_out(alloc, work, finder, instance)?;
    if instance.links().len() > MANY_LINKS {
        return Ok(());
    }
    exhaust(alloc, work, finder)?;
    Ok(())
}

// Takes detours until there is none.
fn exhaust(alloc: Global, work: &mut Work, finder: &mut Finder) -> Result<(), AllocError>
    requires work { IsSettled work.old }
    requires finder { finder.old ≡ work.old.reduced.first.n }
    ensures work { OnOk result (IsSettled work.new) }
    ensures detours { OnOk result (HasNoDetourStep work.new.reduced.state) }
    ensures first { work.new.reduced.first ≡ work.old.reduced.first }
{
    while work.pass(alloc, finder)? {
        work.settle(&mut Vec::new(alloc))?;
    }
    Ok(())
}

// Takes detours that are soon found: first for any link, then for those round vertices that went
// meanwhile, where there may be detours that were none before.
fn thin_out(
    alloc: Global,
    work: &mut Work,
    finder: &mut Finder,
    instance: &Instance,
) -> Result<(), AllocError>
    requires work { IsSettled work.old }
    requires finder { finder.old ≡ work.old.reduced.first.n }
    ensures work { OnOk result (IsSettled work.new) }
    ensures first { work.new.reduced.first ≡ work.old.reduced.first }
    ensures finder { finder.new ≡ finder.old }
{
    let links = instance.links().len().max(1);
    let places = (PLACES / links).max(LEAST_PLACES).min(MOST_PLACES) as u32;
    let rounds = (LINKS / links).max(LEAST_ROUNDS).min(MOST_ROUNDS);
    let mut ends = None;
    for _round in 0..rounds {
        work.sweep(alloc, finder, ends.as_ref(), places)?;
        let mut around = Vec::new(alloc);
        work.settle(&mut around)?;
        if around.is_empty() {
            return Ok(());
        }
        ends = Some(VertexSet::of(alloc, instance.vertices() as usize + 1, &around)?);
    }
    Ok(())
}
