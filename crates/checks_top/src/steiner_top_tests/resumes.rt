use super::checks::ANSWERS;
use super::{
    APART, Solution, TRIANGLE, WHEEL, ending_of, ends, saves_as, shelf_of, sink_of, text_of,
};
use st_edge::{MemoryShelf, Shelf};
use std::alloc::{AllocError, Global};
use std::sync::Wait;
use std::test::Fail;
use std::thread::Threads;
use steiner_top::{Limits, OpenGate, Outcome, Status, resume_bytes};

/// A log of the triangle whose close proves nothing.
const LIGHT: &str =
    "STEINERLOG 1 / CLAIM TREE 6 0 / TREE 1 3 / A 1 4 / A 4 2 / A 4 3 / STEPS 0 / PROOF / C 0 0 / END";

/// One with a split at a link, and two such closes.
const LIGHT_AT_A_LINK: &str =
    "STEINERLOG 2 / CLAIM TREE 6 0 / TREE 1 3 / A 1 4 / A 4 2 / A 4 3 / STEPS 0 / PROOF / L 1 2 / C 0 0 / C 0 0 / END";

/// Logs of the triangle, the words after them, and what is said of the log that is saved: one that claims less than it
/// proves; one that proves it; one that proves nothing, with a budget and without; and one whose two closes at a link
/// prove nothing, with one node and with enough.
const RESUMED: &[(&str, &str, &str)] = &[
    (
        "STEINERLOG 1 / CLAIM TREE 6 5 / TREE 1 3 / A 1 4 / A 4 2 / A 4 3 / STEPS 0 / PROOF / C 1 3 / U 2 2 1 2 / U 3 2 1 3 / U 2 2 3 2 3 4 / END",
        "",
        "optimal 6\n",
    ),
    (
        "STEINERLOG 1 / CLAIM TREE 6 6 / TREE 1 3 / A 1 4 / A 4 2 / A 4 3 / STEPS 0 / PROOF / C 1 3 / U 2 2 1 2 / U 3 2 1 3 / U 2 2 3 2 3 4 / END",
        " --nodes 0",
        "optimal 6\n",
    ),
    (LIGHT, " --workers 2", "optimal 6\n"),
    (LIGHT, " --nodes 0", "bound 0 6\n"),
    (
        "STEINERLOG 1 / CLAIM TREE 8 0 / TREE 1 2 / A 1 2 / A 2 3 / STEPS 0 / PROOF / C 0 0 / END",
        "",
        "optimal 6\n",
    ),
    (LIGHT_AT_A_LINK, " --nodes 1", "bound 0 6\n"),
    (LIGHT_AT_A_LINK, "", "optimal 6\n"),
];

/// The status that a verdict ends a run with.
fn status_of(verdict: &str) -> (Status, u8) {
    if verdict.starts_with("optimal") {
        (Status::Optimal, 0)
    } else {
        (Status::Budget, 3)
    }
}

/// Whether a run goes on from a log of the triangle with these words and saves a log of which a check says this, as it
/// ends itself.
fn goes_on<R: Threads + Wait + Sync>(
    rt: &R,
    alloc: Global,
    log: &str,
    words: &str,
    verdict: &str,
) -> Result<bool, AllocError> {
    let mut shelf = shelf_of(alloc, TRIANGLE, &[])?;
    if !saves_as(&mut shelf, "b", &text_of(alloc, log)?) {
        return Ok(false);
    }
    let (status, code) = status_of(verdict);
    let line = format!(in alloc; "resume a.stp b --log c{words}")?;
    let mut out = sink_of(alloc)?;
    let ended = ending_of(rt, alloc, &line, &mut shelf, &mut out)?.status;
    let want = (status, code, verdict);
    Ok(ended == status && ends(rt, alloc, "check a.stp c", &mut shelf, want)?)
}

#[test]
fn goes_on_from_logs(rt: HostRuntime) -> Result<(), Fail> {
    for (log, words, verdict) in RESUMED {
        assert!(rt;
            goes_on(&rt, rt.alloc(), log, words, verdict)?,
            "from {log} with{words}"
        );
    }
    Ok(())
}

/// The log that two vertices of three are apart.
const WALL: &str = "STEINERLOG 1 / CLAIM NONE / WALL 2 1 2 / END";

/// Whether that log is answered as it is, and saved again.
fn keeps_the_wall<R: Threads + Wait + Sync>(rt: &R, alloc: Global) -> Result<bool, AllocError> {
    let mut shelf = shelf_of(alloc, APART, &[])?;
    let log = text_of(alloc, WALL)?;
    let want = (Status::Infeasible, 4, "infeasible\n");
    let ended = saves_as(&mut shelf, "b", &log)
        && ends(rt, alloc, "resume a.stp b --log c", &mut shelf, want)?;
    Ok(ended && shelf.text_of("c") == Some(log.as_slice()))
}

#[test]
fn keeps_a_log_of_no_tree(rt: HostRuntime) -> Result<(), Fail> {
    assert!(rt; keeps_the_wall(&rt, rt.alloc())?);
    Ok(())
}

/// Whether a log that a check refuses is refused so.
fn refuses<R: Threads + Wait + Sync>(
    rt: &R,
    alloc: Global,
    log: &str,
    line: &str,
) -> Result<bool, AllocError> {
    let mut shelf = shelf_of(alloc, TRIANGLE, &[])?;
    let want = (Status::RefusedLog, 6, line);
    Ok(
        saves_as(&mut shelf, "b", &text_of(alloc, log)?)
            && ends(rt, alloc, "resume a.stp b --log c", &mut shelf, want)?
            && shelf.text_of("c").is_none(),
    )
}

#[test]
fn refuses_logs_as_a_check_does(rt: HostRuntime) -> Result<(), Fail> {
    for (log, status, _, line) in ANSWERS {
        if *status == Status::RefusedLog {
            assert!(rt; refuses(&rt, rt.alloc(), log, line)?, "for {log}");
        }
    }
    Ok(())
}

/// The cost, the bound and how many nodes were expanded, of a run from a log of the triangle, within so many nodes.
fn numbers_of<R: Threads + Wait + Sync>(
    rt: &R,
    alloc: Global,
    log: &str,
    budget: u64,
) -> Result<Option<(u64, u64, u64)>, AllocError> {
    let limits = Limits {
        workers: 1,
        budget,
        links: false,
    };
    let (stp, log) = (text_of(alloc, TRIANGLE)?, text_of(alloc, log)?);
    match resume_bytes(rt, alloc, &stp, &log, limits, &OpenGate) {
        Ok(
            Outcome::Found {
                primal,
                dual,
                expanded,
                ..
            },
        ) => Ok(Some((primal, dual, expanded))),
        _ => Ok(None),
    }
}

#[test]
fn goes_on_from_bytes(rt: HostRuntime) -> Result<(), Fail> {
    for (budget, numbers) in [(0, (6, 0, 0)), (1, (6, 0, 1))] {
        let found = numbers_of(&rt, rt.alloc(), LIGHT_AT_A_LINK, budget)?.ok_or("no tree")?;
        assert!(rt; found == numbers, "within {budget} nodes");
    }
    Ok(())
}

/// What a run with these words over this shelf comes to, if it has a tree.
fn solution_after<R: Threads + Wait + Sync>(
    rt: &R,
    alloc: Global,
    line: &str,
    shelf: &mut MemoryShelf,
) -> Result<Option<Solution>, AllocError> {
    let mut out = sink_of(alloc)?;
    Ok(ending_of(rt, alloc, line, shelf, &mut out)?.solution)
}

/// How many runs of one node each it takes by so many workers until the wheel's least cost is proved, each from the log
/// of the one before; None where the bound falls, or the cost rises.
fn runs_until_proved<R: Threads + Wait + Sync>(
    rt: &R,
    alloc: Global,
    workers: u32,
) -> Result<Option<u64>, AllocError> {
    let mut shelf = shelf_of(alloc, WHEEL, &[])?;
    let first = "solve a.stp --plain --nodes 0 --log b";
    let next = format!(in alloc; "resume a.stp b --workers {workers} --nodes 1 --log b")?;
    let Some(mut stop) = solution_after(rt, alloc, first, &mut shelf)? else {
        return Ok(None);
    };
    for runs in 0..20 {
        if stop.dual == stop.primal {
            return Ok(Some(runs));
        }
        let Some(later) = solution_after(rt, alloc, &next, &mut shelf)? else {
            return Ok(None);
        };
        if later.dual < stop.dual || later.primal > stop.primal {
            return Ok(None);
        }
        stop = later;
    }
    Ok(None)
}

/// At once it takes three nodes.
#[test]
fn goes_on_node_by_node(rt: HostRuntime) -> Result<(), Fail> {
    for workers in [1, 4] {
        let runs = runs_until_proved(&rt, rt.alloc(), workers)?.ok_or("no such runs")?;
        assert!(rt; 2 <= runs && runs <= 8, "in {runs} runs");
    }
    Ok(())
}
