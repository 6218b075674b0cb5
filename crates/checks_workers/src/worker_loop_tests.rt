ghost use Rattle.std.specs.Prelude.{◌<◌, ◌≤◌};

use alone::brought_alone;
use gates::{CountingGate, MeetingGate};
use going_on::go_on_without;
use graph_store::Whole;
use search_core::End;
use st_model::{Instance, Need};
use starting::{Outcome, run, run_without};
use std::alloc::{AllocError, Global};
use std::sync::Wait;
use std::test::Fail;
use std::thread::Threads;
use test_instances::{link, odd_wheel, triangle_with_centre};
use worker_loop::OpenGate;

mod alone;
mod brute_force;
mod gates;
mod going_on;
mod starting;

// A budget, and how a search of a whole instance ends within it: the least value, how many nodes it
// worked on, and how many wait.
type Row = (u64, u64, u64, usize);

// How a search within so much ends.
fn row_of<R: Threads + Wait + Sync>(
    rt: &R,
    alloc: Global,
    whole: &Whole,
    budget: u64,
) -> Result<Option<Row>, AllocError> {
    let found = run(rt, alloc, whole, 1, budget, &OpenGate)?;
    Ok(found.map(|end| (budget, end.least, end.claimed, end.waiting)))
}

// The first of some rows by which searches of an instance don't end.
fn missed<R: Threads + Wait + Sync>(
    rt: &R,
    alloc: Global,
    instance: Instance,
    rows: &[Row],
) -> Result<Option<Row>, AllocError> {
    let whole = Whole::of(alloc, instance)?;
    for row in rows {
        if row_of(rt, alloc, &whole, row.0)? != Some(*row) {
            return Ok(Some(*row));
        }
    }
    Ok(None)
}

// Sides of 4: cuts of the root close the triangle.
#[test]
fn goes_through_the_centre(rt: HostRuntime) -> Result<(), Fail> {
    let instance = triangle_with_centre(rt.alloc(), 4)?;
    let rows = [(0, 6, 0, 1), (1, 6, 1, 0), (9, 6, 1, 0)];
    assert_eq!(rt; missed(&rt, rt.alloc(), instance, &rows)?, None);
    Ok(())
}

// How a search of the triangle ends that avoids its centre.
fn around<R: Threads + Wait + Sync>(rt: &R, alloc: Global) -> Result<Option<Outcome>, AllocError> {
    let whole = Whole::of(alloc, triangle_with_centre(alloc, 4)?)?;
    run_without(rt, alloc, &whole, 4, u64::MAX)
}

// Without the centre two of the sides are left.
#[test]
fn avoids_the_centre(rt: HostRuntime) -> Result<(), Fail> {
    let got = around(&rt, rt.alloc())?.ok_or("no tree")?;
    assert_eq!(rt; (got.least, got.waiting), (8, 0));
    Ok(())
}

// How a search ends that goes on from the trees of the triangle that avoid its centre.
fn goes_on_around<R: Threads + Wait + Sync>(
    rt: &R,
    alloc: Global,
    start_cost: u64,
    budget: u64,
) -> Result<Option<(u64, usize)>, AllocError> {
    let whole = Whole::of(alloc, triangle_with_centre(alloc, 4)?)?;
    let found = go_on_without(rt, alloc, &whole, 4, start_cost, budget)?;
    Ok(found.map(|end| (end.least, end.waiting)))
}

// A dearer start is bettered, a cheaper one proved within the branch, and without a budget all waits.
#[test]
fn goes_on_from_a_node(rt: HostRuntime) -> Result<(), Fail> {
    for (start_cost, budget, least, waiting) in [
        (100, 9, 8, 0),
        (8, 9, 8, 0),
        (7, 9, 7, 0),
        (100, 0, 100, 1),
    ] {
        assert_eq!(rt;
            goes_on_around(&rt, rt.alloc(), start_cost, budget)?,
            Some((least, waiting)),
            "from {start_cost} within {budget}"
        );
    }
    Ok(())
}

// Two sides of 5, over which the start goes, and out to the centre; arcs with nothing left lead over
// the centre alone.
#[test]
fn finds_the_centre(rt: HostRuntime) -> Result<(), Fail> {
    let links = [
        link(1, 2, 5),
        link(2, 3, 5),
        link(1, 4, 2),
        link(2, 4, 2),
        link(3, 4, 2),
    ];
    let needs = [
        (1, Need::Required),
        (2, Need::Required),
        (3, Need::Required),
    ];
    let instance = Instance::build(rt.alloc(), 4, &links, &needs)?;
    let rows = [(0, 12, 0, 1), (1, 6, 1, 0)];
    assert_eq!(rt; missed(&rt, rt.alloc(), instance, &rows)?, None);
    Ok(())
}

// How a search of the triangle with sides of 3 ends.
fn tied<R: Threads + Wait + Sync>(rt: &R, alloc: Global) -> Result<Option<Row>, AllocError> {
    let whole = Whole::of(alloc, triangle_with_centre(alloc, 3)?)?;
    row_of(rt, alloc, &whole, u64::MAX)
}

// Two sides of 3 cost as much as the way through the centre.
#[test]
fn ties_with_the_sides(rt: HostRuntime) -> Result<(), Fail> {
    let got = tied(&rt, rt.alloc())?.ok_or("no tree")?;
    let (_, least, _, waiting) = got;
    assert_eq!(rt; (least, waiting), (6, 0));
    Ok(())
}

// Of three links between two required vertices the second is the cheapest.
#[test]
fn takes_the_cheapest_parallel_link(rt: HostRuntime) -> Result<(), Fail> {
    let links = [link(1, 2, 5), link(1, 2, 3), link(2, 1, 7)];
    let needs = [(1, Need::Required), (2, Need::Required)];
    let instance = Instance::build(rt.alloc(), 2, &links, &needs)?;
    let rows = [(0, 3, 0, 1), (1, 3, 1, 0)];
    assert_eq!(rt; missed(&rt, rt.alloc(), instance, &rows)?, None);
    Ok(())
}

// The odd wheel; the start has all six links of cost 2 that a tree can have, and it takes a split to prove the least cost.
fn whole_wheel(alloc: Global) -> Result<Whole, AllocError> {
    Whole::of(alloc, odd_wheel(alloc)?)
}

// What a search of the odd wheel within a budget ends with, if it worked on as many nodes as it
// claims, each of which its gate saw once, and nodes wait only where these are the whole budget.
fn crosses<R: Threads + Wait + Sync>(
    rt: &R,
    alloc: Global,
    workers: u32,
    budget: u64,
) -> Result<Option<Outcome>, AllocError>
    requires { (0 < workers) × (workers ≤ 64) }
{
    let whole = whole_wheel(alloc)?;
    let gate = CountingGate::new(workers);
    let Some(got) = run(rt, alloc, &whole, workers, budget, &gate)? else {
        return Ok(None);
    };
    let spent = got.claimed == budget;
    if gate.count() == Some(got.claimed) && (spent || got.waiting == 0) {
        Ok(Some(got))
    } else {
        Ok(None)
    }
}

// The root splits, and each half closes.
#[test]
fn crosses_an_odd_wheel(rt: HostRuntime) -> Result<(), Fail> {
    for (budget, claimed, waiting) in [(0, 0, 1), (1, 1, 2), (2, 2, 1), (3, 3, 0), (16, 3, 0)] {
        let got = crosses(&rt, rt.alloc(), 1, budget)?.ok_or("no tree")?;
        assert_eq!(rt;
            (got.claimed, got.waiting),
            (claimed, waiting),
            "with budget {budget}"
        );
        assert!(rt;
            10 <= got.least && (got.least == 10 || waiting > 0),
            "with budget {budget}"
        );
    }
    Ok(())
}

// Whether so many workers find the least cost of the odd wheel by at least one split.
fn crosses_by_a_split<R: Threads + Wait + Sync>(
    rt: &R,
    alloc: Global,
    workers: u32,
    budget: u64,
) -> Result<bool, AllocError>
    requires { (0 < workers) × (workers ≤ 64) }
{
    let Some(got) = crosses(rt, alloc, workers, budget)? else {
        return Ok(false);
    };
    Ok(got.least == 10 && got.waiting == 0 && got.claimed > 1)
}

#[test]
fn several_cross_an_odd_wheel(rt: HostRuntime) -> Result<(), Fail> {
    assert!(rt; crosses_by_a_split(&rt, rt.alloc(), 1, u64::MAX)?);
    assert!(rt; crosses_by_a_split(&rt, rt.alloc(), 2, 16)?);
    assert!(rt; crosses_by_a_split(&rt, rt.alloc(), 8, u64::MAX)?);
    Ok(())
}

// Whether a worker that is alone at the odd wheel ends where nothing is open, with nothing left.
fn ends_alone<R: Threads + Wait + Sync>(rt: &R, alloc: Global) -> Result<bool, AllocError> {
    let whole = whole_wheel(alloc)?;
    let Some(segment) = brought_alone(rt, alloc, &whole, 12)? else {
        return Ok(false);
    };
    let (done, left) = (segment.done.as_slice(), segment.left.as_slice());
    Ok(
        matches!(segment.end, End::OpenZero)
            && segment.seen == 10
            && done.len() == 3
            && left.is_empty(),
    )
}

#[test]
fn ends_where_nothing_is_open(rt: HostRuntime) -> Result<(), Fail> {
    assert!(rt; ends_alone(&rt, rt.alloc())?);
    Ok(())
}

// Three workers leave nodes only where they spend the whole budget.
#[test]
fn three_spend_each_budget(rt: HostRuntime) -> Result<(), Fail> {
    for budget in 0..8 {
        let got = crosses(&rt, rt.alloc(), 3, budget)?;
        assert!(rt; got.is_some(), "with budget {budget}");
    }
    Ok(())
}

#[test]
fn eight_agree_each_time(rt: HostRuntime) -> Result<(), Fail> {
    for turn in 0..300 {
        assert!(rt;
            crosses_by_a_split(&rt, rt.alloc(), 8, u64::MAX)?,
            "at turn {turn}"
        );
    }
    Ok(())
}

// The half that one worker gives is taken by the other while the first is at its own.
fn meets<R: Threads + Wait + Sync>(rt: &R, alloc: Global) -> Result<bool, AllocError> {
    let whole = whole_wheel(alloc)?;
    let gate = MeetingGate::new();
    let found = run(rt, alloc, &whole, 2, u64::MAX, &gate)?;
    Ok(gate.has_met() && found.map(|end| end.least) == Some(10))
}

#[test]
fn two_share_the_halves(rt: HostRuntime) -> Result<(), Fail> {
    assert!(rt; meets(&rt, rt.alloc())?);
    Ok(())
}

// Nobody is required: the link to the prize of 9 pays, and the one to the prize of 2 doesn't. The
// first split is at the prize of 9. With it inside, cuts for the other prizes weigh 6; without it, the
// prize outside weighs more than the tree that these lead to.
#[test]
fn leaves_the_least(rt: HostRuntime) -> Result<(), Fail> {
    let links = [link(1, 2, 4), link(2, 3, 5)];
    let needs = [(1, Need::Pays(7)), (2, Need::Pays(9)), (3, Need::Pays(2))];
    let instance = Instance::build(rt.alloc(), 3, &links, &needs)?;
    let rows = [
        (0, 11, 0, 1),
        (1, 11, 1, 2),
        (2, 6, 2, 1),
        (3, 6, 3, 0),
        (9, 6, 3, 0),
    ];
    assert_eq!(rt; missed(&rt, rt.alloc(), instance, &rows)?, None);
    Ok(())
}

// Eleven vertices, six of them required, and a least cost of 14, found by trying all sets of vertices. Cuts
// for all vertices weigh less; raised where those too far from the root are left out, they close the
// first node.
#[test]
fn closes_by_a_guess(rt: HostRuntime) -> Result<(), Fail> {
    let links = [
        link(1, 2, 2),
        link(1, 3, 1),
        link(1, 6, 4),
        link(1, 8, 2),
        link(1, 9, 4),
        link(1, 10, 4),
        link(2, 3, 3),
        link(2, 5, 1),
        link(2, 7, 2),
        link(2, 8, 1),
        link(3, 4, 1),
        link(3, 5, 2),
        link(3, 9, 2),
        link(4, 7, 1),
        link(5, 9, 3),
        link(7, 8, 4),
        link(8, 11, 1),
        link(9, 10, 2),
    ];
    let needs = [
        (5, Need::Required),
        (6, Need::Required),
        (7, Need::Required),
        (8, Need::Required),
        (9, Need::Required),
        (11, Need::Required),
    ];
    let instance = Instance::build(rt.alloc(), 11, &links, &needs)?;
    assert_eq!(rt; missed(&rt, rt.alloc(), instance, &[(1, 14, 1, 0)])?, None);
    Ok(())
}

#[test]
fn stays_at_one_vertex(rt: HostRuntime) -> Result<(), Fail> {
    let instance = Instance::build(rt.alloc(), 1, &[], &[(1, Need::Required)])?;
    assert_eq!(rt; missed(&rt, rt.alloc(), instance, &[(1, 0, 1, 0)])?, None);
    Ok(())
}
