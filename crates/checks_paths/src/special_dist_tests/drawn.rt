ghost use Rattle.std.specs.Prelude.{◌≡◌, IsSome};
ghost use Rattle.st_model.specs.Network.{link};

use graph_store::Store;
use lift_back::{Reduced, Step};
use special_dist::{Finder, Found};
use st_model::{Instance, Link, Listed, Need};
use std::alloc::{AllocError, Global};
use std::test::Fail;
use test_instances::Draws;

// Where walks came to: for each of the vertices 1 to 6 a bit for each number from 0 to 9 that may
// be paid there since the last required vertex.
#[derive(Clone, Copy, PartialEq, Eq)]
struct Seen([u32; 7]);

impl Seen {
    fn at(self, vertex: u32) -> u32 {
        self.0.get(vertex as usize).copied().unwrap_or(0)
    }

    fn put(&mut self, vertex: u32, paid: u32) {
        if let Some(bits) = self.0.get_mut(vertex as usize) {
            *bits = *bits | paid;
        }
    }
}

// Whether a vertex has to be reached.
fn is_required(instance: &Instance, vertex: u32) -> bool {
    vertex >= 1 && vertex <= instance.vertices() && instance.need(vertex) == Need::Required
}

// Goes on over a link, in one direction.
fn go(instance: &Instance, seen: &mut Seen, limit: u64, from: u32, to: u32, cost: u64) {
    let bits = seen.at(from);
    for paid in 0..10u64 {
        let sum = paid.saturating_add(cost);
        let there = bits & 1u32.wrapping_shl(paid as u32) != 0;
        if there && sum <= limit {
            let sum = if is_required(instance, to) { 0 } else { sum };
            seen.put(to, 1u32.wrapping_shl(sum.min(31) as u32));
        }
    }
}

// Goes on over each link but one, both ways.
fn go_over_all(instance: &Instance, seen: &mut Seen, left_out: &Link) {
    for link in instance.links() {
        if link != left_out {
            go(instance, seen, left_out.cost, link.a, link.b, link.cost);
            go(instance, seen, left_out.cost, link.b, link.a, link.cost);
        }
    }
}

// Whether some walk stands in for a link: all that walks come to is looked at.
fn has_detour(instance: &Instance, link: &Link) -> bool {
    let mut seen = Seen([0; 7]);
    seen.put(link.a, 1);
    for _turn in 0..70 {
        go_over_all(instance, &mut seen, link);
    }
    seen.at(link.b) != 0
}

// What a finder finds for a link.
fn found(
    alloc: Global,
    finder: &mut Finder,
    store: &Store,
    a: u32,
    b: u32,
    most: Option<u32>,
) -> Result<Found, AllocError>
    requires { finder.old ≡ store.now.network.n }
    ensures { finder.new ≡ finder.old }
{
    if store.link_cost(a, b).is_none() {
        return Ok(Found::Nothing);
    }
    finder.find(alloc, store, a, b, most)
}

// Whether a detour over these vertices may be taken as a step.
fn applies(
    alloc: Global,
    instance: &Instance,
    link: &Link,
    inner: Vec<u32>,
) -> Result<bool, AllocError> {
    let step = Step::Detour {
        a: link.a,
        b: link.b,
        inner: Listed::of(inner),
    };
    let mut reduced = Reduced::of(alloc, instance)?;
    Ok(reduced.apply(&step).is_ok())
}

// Whether an answer is what a plain program and the judge of steps say.
fn is_right(
    alloc: Global,
    instance: &Instance,
    link: &Link,
    most: Option<u32>,
    answer: Found,
) -> Result<bool, AllocError> {
    match answer {
        Found::Detour(inner) => applies(alloc, instance, link, inner),
        Found::Nothing => Ok(!has_detour(instance, link)),
        Found::GaveUp => Ok(most.is_some()),
    }
}

// How many detours are found for a link, none or one, if the answer is right.
fn detours_for(
    alloc: Global,
    instance: &Instance,
    store: &Store,
    finder: &mut Finder,
    link: &Link,
    most: Option<u32>,
) -> Result<Option<u32>, AllocError>
    requires { finder.old ≡ store.now.network.n }
    ensures { finder.new ≡ finder.old }
{
    let answer = found(alloc, finder, store, link.a, link.b, most)?;
    let count = u32::from(matches!(&answer, Found::Detour(_)));
    let is_right = is_right(alloc, instance, link, most, answer)?;
    Ok(is_right.then_some(count))
}

// How many detours one finder finds for all links, if all of its answers are right.
fn detours_by(
    alloc: Global,
    instance: &Instance,
    store: &Store,
    finder: &mut Finder,
    most: Option<u32>,
) -> Result<Option<u32>, AllocError>
    requires { finder.old ≡ store.now.network.n }
{
    let mut count = 0u32;
    for link in instance.links() {
        let Some(more) = detours_for(alloc, instance, store, finder, link, most)? else {
            return Ok(None);
        };
        count = count.saturating_add(more);
    }
    Ok(Some(count))
}

fn detours_of(
    alloc: Global,
    instance: &Instance,
    most: Option<u32>,
) -> Result<Option<u32>, AllocError> {
    let store = Store::of(alloc, instance)?;
    let mut finder = Finder::new(alloc, store.vertices())?;
    detours_by(alloc, instance, &store, &mut finder, most)
}

// How many links of drawn instances have a detour that is found.
fn detours_of_all(alloc: Global, most: Option<u32>) -> Result<Option<u32>, AllocError> {
    let mut count = 0u32;
    for seed in 0..40u64 {
        let instance = Draws { state: seed }.instance(alloc)?;
        let Some(more) = detours_of(alloc, &instance, most)? else {
            return Ok(None);
        };
        count = count.saturating_add(more);
    }
    Ok(Some(count))
}

#[test]
fn finds_detours_exactly_where_there_are_some(rt: HostRuntime) -> Result<(), Fail> {
    let all = detours_of_all(rt.alloc(), None)?;
    assert!(rt; all > Some(20), "detours found: {all:?}");
    let some = detours_of_all(rt.alloc(), Some(2))?;
    assert!(rt; some > Some(5), "detours found: {some:?}");
    assert!(rt; some < all, "of {all:?} detours: {some:?}");
    Ok(())
}
