//! Drawn files whose amounts are divided so that they have decimals.
use super::drawn::{Drawn, file_of, shelf_with, shows_cost};
use super::twice::least_of;
use super::worked::solution_head;
use super::{ending_of, ends, saves_as, sink_of};
use st_edge::MemoryShelf;
use std::alloc::{AllocError, Global};
use std::sync::Wait;
use std::test::Fail;
use std::thread::Threads;
use steiner_top::Status;

/// What the amounts of a drawn file count.
#[derive(Clone, Copy)]
pub enum Parts {
    Wholes,
    Tenths,
    Thousandths,
    Millionths,
}

/// So many of them, in wholes, with zeros at the end.
pub fn amount_in(alloc: Global, number: u64, parts: Parts) -> Result<String, AllocError> {
    match parts {
        Parts::Wholes => format!(in alloc; "{number}"),
        Parts::Tenths => format!(in alloc; "{}.{}", number / 10, number % 10),
        Parts::Thousandths => format!(in alloc; "{}.{:03}", number / 1_000, number % 1_000),
        Parts::Millionths => {
            format!(in alloc; "{}.{:06}", number / 1_000_000, number % 1_000_000)
        }
    }
}

/// The same as it is sent, without those zeros.
fn sent_amount(alloc: Global, number: u64, parts: Parts) -> Result<String, AllocError> {
    let text = amount_in(alloc, number, parts)?;
    match parts {
        Parts::Wholes => Ok(text),
        _ => String::from_str(alloc, text.trim_end_matches('0').trim_end_matches('.')),
    }
}

/// Whether solving a shelf's file sends a solution of this cost and saves its log, and the solution is verified.
fn sends_cost<R: Threads + Wait + Sync>(
    rt: &R,
    alloc: Global,
    shelf: &mut MemoryShelf,
    cost: &str,
) -> Result<bool, AllocError> {
    let mut out = sink_of(alloc)?;
    let status = ending_of(rt, alloc, "solve a.stp --log b", shelf, &mut out)?.status;
    let head = solution_head(alloc, "optimal", cost, cost)?;
    let is_sent = status == Status::Optimal && out.bytes().starts_with(head.as_bytes());
    let is_saved = saves_as(shelf, "c", out.bytes());
    Ok(is_sent && is_saved && is_verified(rt, alloc, shelf, cost)?)
}

/// Whether the solution that was saved is a tree of this cost.
fn is_verified<R: Threads + Wait + Sync>(
    rt: &R,
    alloc: Global,
    shelf: &mut MemoryShelf,
    cost: &str,
) -> Result<bool, AllocError> {
    let line = format!(in alloc; "tree {cost}\n")?;
    let want = (Status::Optimal, 0, line.as_str());
    ends(rt, alloc, "verify a.stp c", shelf, want)
}

/// Whether a drawn file's solution, and the check of its log, tell this cost.
fn is_answered<R: Threads + Wait + Sync>(
    rt: &R,
    alloc: Global,
    file: Drawn,
    cost: u64,
) -> Result<bool, Fail> {
    let cost = sent_amount(alloc, cost, file.parts)?;
    let mut shelf = shelf_with(alloc, file_of(alloc, file)?)?;
    Ok(sends_cost(rt, alloc, &mut shelf, &cost)? && shows_cost(rt, alloc, &mut shelf, &cost)?)
}

/// What the best tree of a drawn file costs, in its parts.
fn cost_of<R: Threads + Wait + Sync>(
    rt: &R,
    alloc: Global,
    file: Drawn,
) -> Result<Option<u64>, AllocError> {
    let mut shelf = shelf_with(alloc, file_of(alloc, file)?)?;
    least_of(rt, alloc, &mut shelf)
}

/// Whether a file is answered alike in wholes and in all parts.
fn is_answered_in_all<R: Threads + Wait + Sync>(
    rt: &R,
    alloc: Global,
    seed: u64,
    most: u64,
) -> Result<bool, Fail> {
    let parts = Parts::Wholes;
    let Some(cost) = cost_of(rt, alloc, Drawn { seed, most, parts })? else {
        return Ok(false);
    };
    for parts in [
        Parts::Wholes,
        Parts::Tenths,
        Parts::Thousandths,
        Parts::Millionths,
    ] {
        if !is_answered(rt, alloc, Drawn { seed, most, parts }, cost)? {
            return Ok(false);
        }
    }
    Ok(true)
}

/// Each second file has amounts of up to four digits.
#[test]
fn divides_the_costs_of_drawn_files(rt: HostRuntime) -> Result<(), Fail> {
    for seed in 1..101 {
        let most = if seed % 2 == 0 { 9 } else { 1_500 };
        assert!(rt;
            is_answered_in_all(&rt, rt.alloc(), seed, most)?,
            "for {seed}"
        );
    }
    Ok(())
}
