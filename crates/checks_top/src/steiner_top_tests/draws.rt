use super::worked::solution_text;
use super::{Ending, TRIANGLE, ending_of, file_ends, shelf_of, sink_of};
use std::alloc::{AllocError, Global};
use std::sync::Wait;
use std::test::Fail;
use std::thread::Threads;
use steiner_top::Status;

/// What is sent for `gen 1 3 3 2`.
const DRAWN: &str =
    "33D32945 STP File, STP Format Version 1.0\nSECTION Graph\nNodes 3\nEdges 3\nE 1 2 95\nE 1 3 38\nE 2 3 62\nEND\nSECTION Terminals\nTerminals 2\nT 1\nT 3\nEND\nEOF\n";

/// Nothing is loaded, so it doesn't matter that each load would fail.
#[test]
fn sends_what_is_drawn(rt: HostRuntime) -> Result<(), Fail> {
    let want = (Status::Optimal, 0, DRAWN);
    assert!(rt; file_ends(&rt, rt.alloc(), "gen 1 3 3 2", TRIANGLE, &[1, 2], want)?);
    Ok(())
}

/// What is sent for `gen 1 3 3 2 --prizes`.
const WITH_PRIZES: &str =
    "33D32945 STP File, STP Format Version 1.0\nSECTION Graph\nNodes 3\nEdges 3\nE 1 2 95\nE 1 3 38\nE 2 3 62\nEND\nSECTION Terminals\nTerminals 2\nTP 1 72\nTP 3 32\nEND\nEOF\n";

#[test]
fn sends_what_is_drawn_with_prizes(rt: HostRuntime) -> Result<(), Fail> {
    let line = "gen 1 3 3 2 --prizes";
    let want = (Status::Optimal, 0, WITH_PRIZES);
    assert!(rt; file_ends(&rt, rt.alloc(), line, TRIANGLE, &[1, 2], want)?);
    Ok(())
}

/// Whether the vertex 1 alone is the best tree of what is drawn with prizes.
fn stays_at_one<R: Threads + Wait + Sync>(rt: &R, alloc: Global) -> Result<bool, AllocError> {
    let text = solution_text(alloc, "optimal", "32", "32", (&[1], &[]))?;
    let want = (Status::Optimal, 0, text.as_str());
    file_ends(rt, alloc, "solve a.stp", WITH_PRIZES, &[], want)
}

/// To link vertices 1 and 3 costs 38, and vertex 3 pays 32.
#[test]
fn solves_what_is_drawn_with_prizes(rt: HostRuntime) -> Result<(), Fail> {
    assert!(rt; stays_at_one(&rt, rt.alloc())?);
    Ok(())
}

/// Vertices 1 and 3 are required, and the link between them costs 38.
#[test]
fn tries_what_is_drawn(rt: HostRuntime) -> Result<(), Fail> {
    for line in ["trial 1 3 3 2", "trial 1 3 3 2 --workers 8"] {
        let want = (Status::Optimal, 0, "primal 38\ndual 38\nverdict optimal\n");
        let ended = file_ends(&rt, rt.alloc(), line, TRIANGLE, &[1, 2], want)?;
        assert!(rt; ended, "after {line}");
    }
    Ok(())
}

/// What a line gives, and what is sent.
fn sent_for<R: Threads + Wait + Sync>(
    rt: &R,
    alloc: Global,
    line: &str,
) -> Result<(Ending, Vec<u8>), AllocError> {
    let mut shelf = shelf_of(alloc, TRIANGLE, &[])?;
    let mut out = sink_of(alloc)?;
    let ending = ending_of(rt, alloc, line, &mut shelf, &mut out)?;
    let sent = Vec::from_slice(alloc, out.bytes())?;
    Ok((ending, sent))
}

/// Whether two lines find trees, and send the same where both prove a cost the least.
fn tries_alike(one: &(Ending, Vec<u8>), other: &(Ending, Vec<u8>)) -> bool {
    let (first, lines) = one;
    let (second, others) = other;
    let proved = first.status == Status::Optimal && second.status == Status::Optimal;
    first.solution.is_some()
        && second.solution.is_some()
        && (!proved || lines.as_slice() == others.as_slice())
}

/// The same of one worker and of four.
fn four_try_alike<R: Threads + Wait + Sync>(rt: &R, alloc: Global) -> Result<bool, AllocError> {
    let one = sent_for(rt, alloc, "trial 20 300 600 12")?;
    let four = sent_for(rt, alloc, "trial 20 300 600 12 --workers 4")?;
    Ok(tries_alike(&one, &four))
}

/// Where one worker and four of them prove a cost the least, it is the same.
#[test]
fn tries_alike_with_four_workers(rt: HostRuntime) -> Result<(), Fail> {
    assert!(rt; four_try_alike(&rt, rt.alloc())?);
    Ok(())
}
