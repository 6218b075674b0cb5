use super::starting::run;
use graph_store::Whole;
use st_model::Instance;
use std::alloc::{AllocError, Global};
use std::sync::Wait;
use std::test::Fail;
use std::thread::Threads;
use test_instances::{Draws, cost_of_set};
use worker_loop::OpenGate;

// The least over all sets of six vertices that aren't empty.
fn least_over_sets(instance: &Instance) -> Option<u64> {
    let mut least: Option<u64> = None;
    for half in 1..64u32 {
        let cost = cost_of_set(instance, half * 2);
        least = match (least, cost) {
            (Some(a), Some(b)) => Some(a.min(b)),
            (None, other) => other,
            (some, None) => some,
        };
    }
    least
}

// The least cost of a drawn instance that a search by two workers ends with, and how many nodes wait then; and
// the least over all sets.
fn both_ways<R: Threads + Wait + Sync>(
    rt: &R,
    alloc: Global,
    seed: u64,
) -> Result<(Option<(u64, usize)>, Option<u64>), AllocError> {
    let instance = Draws { state: seed }.instance(alloc)?;
    let want = least_over_sets(&instance);
    let whole = Whole::of(alloc, instance)?;
    let got = run(rt, alloc, &whole, 2, u64::MAX, &OpenGate)?;
    Ok((got.map(|end| (end.least, end.waiting)), want))
}

#[test]
fn agrees_with_all_subsets(rt: HostRuntime) -> Result<(), Fail> {
    for seed in 1..21u64 {
        let (got, want) = both_ways(&rt, rt.alloc(), seed)?;
        assert_eq!(rt; got, want.map(|cost| (cost, 0)), "with seed {seed}");
    }
    Ok(())
}
