use super::{
    APART, LINK, PRIZES, SMALL_PRIZES, TRIANGLE, WHEEL, ending_of, ends, saves_as, shelf_of,
    sink_of, text_of,
};
use st_edge::{MemoryShelf, Shelf};
use std::alloc::{AllocError, Global};
use std::sync::Wait;
use std::test::Fail;
use std::thread::Threads;
use steiner_top::Status;

/// A log of the triangle.
const LOG: &str =
    "STEINERLOG 1 / CLAIM TREE 6 6 / TREE 1 3 / A 1 4 / A 4 2 / A 4 3 / STEPS 0 / PROOF / C 1 3 / U 2 2 1 2 / U 3 2 1 3 / U 2 2 3 2 3 4 / END";

/// Logs, and how they are answered with the triangle.
pub const ANSWERS: &[(&str, Status, u8, &str)] = &[
    (LOG, Status::Optimal, 0, "optimal 6\n"),
    (
        "STEINERLOG 1 / CLAIM TREE 6 5 / TREE 1 3 / A 1 4 / A 4 2 / A 4 3 / STEPS 0 / PROOF / C 1 3 / U 2 2 1 2 / U 3 2 1 3 / U 2 2 3 2 3 4 / END",
        Status::Budget,
        3,
        "bound 5 6\n",
    ),
    (
        "STEINERLOG 1 / CLAIM TREE 6 7 / TREE 1 3 / A 1 4 / A 4 2 / A 4 3 / STEPS 0 / PROOF / C 1 3 / U 2 2 1 2 / U 3 2 1 3 / U 2 2 3 2 3 4 / END",
        Status::RefusedLog,
        6,
        "refused log 2 5 DualAbovePrimal\n",
    ),
    (
        "STEINERLOG 1 / CLAIM TREE 6 6 / TREE 1 3 / A 1 4 / A 4 2 / A 4 3 / STEPS 0 / PROOF / C 1 3 / U 2 3 1 2 / U 3 2 1 3 / U 2 2 3 2 3 4 / END",
        Status::RefusedLog,
        6,
        "refused log 9 8 BadPacking\n",
    ),
    (
        "STEINERLOG 9",
        Status::RefusedLog,
        6,
        "refused log 1 1 BadLine\n",
    ),
];

/// Whether these are the names that were asked for.
pub fn have_names(asked: Option<&[String]>, want: &[&str]) -> bool {
    asked.is_some_and(|names| names
        .iter()
        .map(|name| name.as_str())
        .eq(want.iter().copied()))
}

/// Whether a log is saved under `b`.
fn saves(alloc: Global, shelf: &mut MemoryShelf, log: &str) -> Result<bool, AllocError> {
    let text = text_of(alloc, log)?;
    Ok(saves_as(shelf, "b", &text))
}

/// Whether a log is answered so with a file, and both are asked for, once.
pub fn answers_log<R: Threads + Wait + Sync>(
    rt: &R,
    alloc: Global,
    lines: &str,
    log: &str,
    want: (Status, u8, &str),
) -> Result<bool, AllocError> {
    let mut shelf = shelf_of(alloc, lines, &[])?;
    let answered = saves(alloc, &mut shelf, log)?
        && ends(rt, alloc, "check a.stp b", &mut shelf, want)?;
    Ok(answered && have_names(shelf.asked(), &["a.stp", "b"]))
}

#[test]
fn answers_logs(rt: HostRuntime) -> Result<(), Fail> {
    for (log, status, code, line) in ANSWERS {
        let want = (*status, *code, *line);
        assert!(rt;
            answers_log(&rt, rt.alloc(), TRIANGLE, log, want)?,
            "for {log}"
        );
    }
    Ok(())
}

/// Logs of the link of cost 5.5, and how they are answered with its file.
const LINK_ANSWERS: &[(&str, Status, u8, &str)] = &[
    (
        "STEINERLOG 1 / CLAIM TREE 5500000 5500000 / TREE 1 1 / A 1 2 / STEPS 0 / PROOF / C 1 1 / U 2 5500000 1 2 / END",
        Status::Optimal,
        0,
        "optimal 5.5\n",
    ),
    (
        "STEINERLOG 1 / CLAIM TREE 5500000 5400000 / TREE 1 1 / A 1 2 / STEPS 0 / PROOF / C 1 1 / U 2 5400000 1 2 / END",
        Status::Budget,
        3,
        "bound 5.4 5.5\n",
    ),
    (
        "STEINERLOG 1 / CLAIM TREE 5500000 1 / TREE 1 1 / A 1 2 / STEPS 0 / PROOF / C 1 1 / U 2 1 1 2 / END",
        Status::Budget,
        3,
        "bound 0.000001 5.5\n",
    ),
    (
        "STEINERLOG 1 / CLAIM TREE 5500000 0 / TREE 1 1 / A 1 2 / STEPS 0 / PROOF / C 0 0 / END",
        Status::Budget,
        3,
        "bound 0 5.5\n",
    ),
    // Numbers in wholes, which a log of this file doesn't have.
    (
        "STEINERLOG 1 / CLAIM TREE 5 5 / TREE 1 1 / A 1 2 / STEPS 0 / PROOF / C 1 1 / U 2 5 1 2 / END",
        Status::RefusedLog,
        6,
        "refused log 2 4 WrongCost\n",
    ),
    (
        "STEINERLOG 1 / CLAIM TREE 5.5 5.5 / TREE 1 1 / A 1 2 / STEPS 0 / PROOF / C 1 1 / U 2 5.5 1 2 / END",
        Status::RefusedLog,
        6,
        "refused log 2 1 BadLine\n",
    ),
];

#[test]
fn answers_logs_of_decimals(rt: HostRuntime) -> Result<(), Fail> {
    for (log, status, code, line) in LINK_ANSWERS {
        let want = (*status, *code, *line);
        assert!(rt; answers_log(&rt, rt.alloc(), LINK, log, want)?, "for {log}");
    }
    Ok(())
}

/// Files, and what is said of the log that solving them saves.
const SAVED: &[(&str, Status, u8, &str)] = &[
    (TRIANGLE, Status::Optimal, 0, "optimal 6\n"),
    (WHEEL, Status::Optimal, 0, "optimal 10\n"),
    (PRIZES, Status::Optimal, 0, "optimal 3\n"),
    (LINK, Status::Optimal, 0, "optimal 5.5\n"),
    (SMALL_PRIZES, Status::Optimal, 0, "optimal 0.1\n"),
    (APART, Status::Infeasible, 4, "no tree\n"),
];

/// Whether a run with these words over this shelf ends with this status and an outcome.
fn solves<R: Threads + Wait + Sync>(
    rt: &R,
    alloc: Global,
    words: &str,
    shelf: &mut MemoryShelf,
    status: Status,
) -> Result<bool, AllocError> {
    let mut out = sink_of(alloc)?;
    let ending = ending_of(rt, alloc, words, shelf, &mut out)?;
    Ok(ending.has_outcome && ending.status == status)
}

/// Solves a file by these words, and checks the log that is saved: whether both end so, and this is said of the log.
pub fn is_accepted<R: Threads + Wait + Sync>(
    rt: &R,
    alloc: Global,
    words: &str,
    lines: &str,
    want: (Status, u8, &str),
) -> Result<bool, AllocError> {
    let mut shelf = shelf_of(alloc, lines, &[])?;
    Ok(
        solves(rt, alloc, words, &mut shelf, want.0)?
            && ends(rt, alloc, "check a.stp b", &mut shelf, want)?,
    )
}

#[test]
fn accepts_what_solving_saves(rt: HostRuntime) -> Result<(), Fail> {
    for (lines, status, code, line) in SAVED {
        let words = "solve a.stp --log b";
        let want = (*status, *code, *line);
        assert!(rt;
            is_accepted(&rt, rt.alloc(), words, lines, want)?,
            "for {lines}"
        );
    }
    Ok(())
}
