ghost use Rattle.std.specs.Prelude.{◌≤◌, IfOk};
ghost use Rattle.dual_ascent.specs.Left.{AreEndsOf};

use bidirected_form::Arcs;
use cut_packing::{Packing, fits};
use dual_ascent::{Ascent, ascend};
use graph_store::Store;
use prize_transform::Twins;
use st_model::{Branch, Instance, Need, Sides};
use std::alloc::{AllocError, Global};
use std::test::Fail;
use test_instances::{pair, triangle_with_centre};

// The arcs of an instance from vertex 1 on, and the ends, all whole.
pub fn whole(alloc: Global, instance: &Instance) -> Result<(Arcs, Twins), AllocError>
    requires { 1 ≤ instance.now.n }
    ensures { IfOk result (λ made. AreEndsOf made.0 made.1) }
{
    let branch = Sides::of(alloc, Branch::all(alloc))?;
    whole_in(alloc, instance, &branch)
}

// The same in a branch.
fn whole_in(alloc: Global, instance: &Instance, branch: &Sides) -> Result<(Arcs, Twins), AllocError>
    requires { 1 ≤ instance.now.n }
    ensures { IfOk result (λ made. AreEndsOf made.0 made.1) }
{
    let store = Store::of(alloc, instance)?;
    whole_of(alloc, &store, branch)
}

// The arcs of a branch from vertex 1 on, and the ends, all whole.
fn whole_of(alloc: Global, store: &Store, branch: &Sides) -> Result<(Arcs, Twins), AllocError>
    requires { 1 ≤ store.now.network.n }
    ensures { IfOk result (λ made. AreEndsOf made.0 made.1) }
{
    let arcs = Arcs::of(alloc, store, branch, 1)?;
    let twins = Twins::of(alloc, &arcs)?;
    Ok((arcs, twins))
}

// What an ascent over these makes.
fn ascend_whole(
    alloc: Global,
    instance: &Instance,
    order: &[u32],
    target: u64,
) -> Result<Ascent, AllocError>
    requires { 1 ≤ instance.now.n }
{
    let (mut arcs, mut twins) = whole(alloc, instance)?;
    ascend(alloc, &mut arcs, &mut twins, order, target)
}

// Whether the target was reached, what the cuts weigh, and how many they are.
fn outcome(ascent: &Ascent) -> (bool, u64, usize) {
    let packing = ascent.packing();
    let cuts = packing.cuts.as_slice().len();
    (ascent.is_reached(), weight(packing), cuts)
}

// What the cuts of a packing weigh.
pub fn weight(packing: &Packing) -> u64 {
    let mut sum: u64 = 0;
    for cut in packing.cuts.as_slice() {
        sum = sum.saturating_add(cut.y);
    }
    sum
}

// How an ascent over whole arcs and ends comes out.
fn outcome_whole(
    alloc: Global,
    instance: &Instance,
    order: &[u32],
    target: u64,
) -> Result<(bool, u64, usize), AllocError>
    requires { 1 ≤ instance.now.n }
{
    Ok(outcome(&ascend_whole(alloc, instance, order, target)?))
}

fn outcome_of_triangle(
    alloc: Global,
    order: &[u32],
    target: u64,
) -> Result<(bool, u64, usize), AllocError> {
    let instance = triangle_with_centre(alloc, 4)?;
    outcome_whole(alloc, &instance, order, target)
}

#[test]
fn raises_the_triangle_to_its_optimum(rt: HostRuntime) -> Result<(), Fail> {
    // Two cuts of 2 round the terminal that is first, and one of 2 round the other one.
    let orders: [&[u32]; 4] = [&[], &[3, 2], &[9, 3, 0, 3, 1, 4_000_000_000], &[4, 2]];
    for order in orders {
        for (target, want) in [
            (7, (false, 6, 3)),
            (6, (true, 6, 3)),
            (5, (true, 5, 3)),
            (1, (true, 1, 1)),
            (0, (true, 0, 0)),
        ] {
            let found = outcome_of_triangle(rt.alloc(), order, target)?;
            assert_eq!(rt; found, want, "up to {target} by {order:?}");
        }
    }
    Ok(())
}

// Whether the first cut is round a vertex alone.
fn is_first(ascent: &Ascent, q: u32) -> bool {
    let (Ascent::Full(packing) | Ascent::Reached(packing)) = ascent;
    match packing.cuts.as_slice() {
        [cut, ..] => cut.q == q && cut.set.as_slice() == [q].as_slice(),
        [] => false,
    }
}

// Whether the first cut of an ascent over the triangle in this order is.
fn raises_first(alloc: Global, order: &[u32], q: u32) -> Result<bool, AllocError> {
    let instance = triangle_with_centre(alloc, 4)?;
    let ascent = ascend_whole(alloc, &instance, order, 1)?;
    Ok(is_first(&ascent, q))
}

#[test]
fn raises_first_what_is_named_first(rt: HostRuntime) -> Result<(), Fail> {
    for (order, q) in [([2, 3], 2), ([3, 2], 3)] {
        assert!(rt; raises_first(rt.alloc(), &order, q)?, "{q}");
    }
    Ok(())
}

// How an ascent comes out, and what remains of the first arc of a pair and of the second one's prize.
fn outcome_and_left(
    alloc: Global,
    arcs: &mut Arcs,
    twins: &mut Twins,
) -> Result<((bool, u64, usize), Option<u64>, u64), AllocError>
    requires { AreEndsOf arcs.old twins.old }
{
    let ascent = ascend(alloc, arcs, twins, &[], 100)?;
    Ok((outcome(&ascent), arcs.remaining(1, 2), twins.left(2)))
}

// The same for a pair whose second vertex pays a prize.
fn outcome_of_pair(
    alloc: Global,
    prize: u64,
) -> Result<((bool, u64, usize), Option<u64>, u64), AllocError>
    requires { prize ≤ 100 }
{
    let instance = pair(alloc, Need::Required, Need::Pays(prize))?;
    let (mut arcs, mut twins) = whole(alloc, &instance)?;
    outcome_and_left(alloc, &mut arcs, &mut twins)
}

#[test]
fn takes_no_more_than_the_prize(rt: HostRuntime) -> Result<(), Fail> {
    // The prize, the outcome, and what remains of the arc and of the prize.
    for (prize, want, arc, left) in [
        (0, (false, 0, 0), 5, 0),
        (3, (false, 3, 1), 2, 0),
        (5, (false, 5, 1), 0, 0),
        (7, (false, 5, 1), 0, 2),
    ] {
        let found = outcome_of_pair(rt.alloc(), prize)?;
        assert_eq!(rt; found, (want, Some(arc), left), "for {prize}");
    }
    Ok(())
}

// What an ascent over a branch makes.
fn ascend_in(alloc: Global, instance: &Instance, branch: &Sides) -> Result<Ascent, AllocError>
    requires { 1 ≤ instance.now.n }
{
    let (mut arcs, mut twins) = whole_in(alloc, instance, branch)?;
    ascend(alloc, &mut arcs, &mut twins, &[], 100)
}

// How an ascent comes out, and whether its cuts fit a branch.
type Judged = ((bool, u64, usize), bool);

// How an ascent over a branch comes out, and whether its cuts fit that one or another.
fn judged(
    alloc: Global,
    instance: &Instance,
    branch: &Sides,
    other: &Sides,
) -> Result<Judged, AllocError>
    requires { 1 ≤ instance.now.n }
{
    let ascent = ascend_in(alloc, instance, branch)?;
    let fits_other = fits(alloc, instance, other, ascent.packing())?;
    Ok((outcome(&ascent), fits_other))
}

// The branch of the triangle's trees that do without the link from 2 to the centre.
fn without_spoke(alloc: Global) -> Result<Sides, AllocError> {
    Sides::of(alloc, Branch::all(alloc).with_barred(alloc, 2, 4)?)
}

// How an ascent over that branch comes out, and whether its cuts fit the branch.
fn judged_without_spoke(alloc: Global) -> Result<Judged, AllocError> {
    let instance = triangle_with_centre(alloc, 4)?;
    let branch = without_spoke(alloc)?;
    judged(alloc, &instance, &branch, &branch)
}

// The same, and whether its cuts fit the branch of all trees.
fn judged_in_all_trees(alloc: Global) -> Result<Judged, AllocError> {
    let instance = triangle_with_centre(alloc, 4)?;
    let branch = without_spoke(alloc)?;
    let all = Sides::of(alloc, Branch::all(alloc))?;
    judged(alloc, &instance, &branch, &all)
}

#[test]
fn raises_by_more_where_a_link_is_barred(rt: HostRuntime) -> Result<(), Fail> {
    // A cut of 4 round 2, one of 2 round 3, and one of 2 round 3 and the centre; the arc from the
    // centre to 2 would bear 4, and its link costs 2.
    assert_eq!(rt; judged_without_spoke(rt.alloc())?, ((false, 8, 3), true));
    assert_eq!(rt; judged_in_all_trees(rt.alloc())?, ((false, 8, 3), false));
    Ok(())
}

#[test]
fn reaches_any_target_where_a_terminal_is_apart(rt: HostRuntime) -> Result<(), Fail> {
    let needs = [(1, Need::Required), (2, Need::Required)];
    let instance = Instance::build(rt.alloc(), 2, &[], &needs)?;
    let found = outcome_whole(rt.alloc(), &instance, &[], u64::MAX)?;
    assert_eq!(rt; found, (true, u64::MAX, 1));
    Ok(())
}
