use super::checks::{answers_log, is_accepted};
use super::{APART, PRIZES, TRIANGLE, WHEEL, ending_of, shelf_of, sink_of};
use std::alloc::{AllocError, Global};
use std::sync::Wait;
use std::test::Fail;
use std::thread::Threads;
use steiner_top::Status;

/// The corners of a cube of four dimensions, each linked to four at a cost of 1; every second one is required.
const CUBE: &str =
    "H / SECTION Graph / Nodes 16 / Edges 32 / E 1 2 1 / E 1 3 1 / E 1 5 1 / E 1 9 1 / E 2 4 1 / E 2 6 1 / E 2 10 1 / E 3 4 1 / E 3 7 1 / E 3 11 1 / E 4 8 1 / E 4 12 1 / E 5 6 1 / E 5 7 1 / E 5 13 1 / E 6 8 1 / E 6 14 1 / E 7 8 1 / E 7 15 1 / E 8 16 1 / E 9 10 1 / E 9 11 1 / E 9 13 1 / E 10 12 1 / E 10 14 1 / E 11 12 1 / E 11 15 1 / E 12 16 1 / E 13 14 1 / E 13 15 1 / E 14 16 1 / E 15 16 1 / END / SECTION Terminals / Terminals 8 / T 1 / T 4 / T 6 / T 7 / T 10 / T 11 / T 13 / T 16 / END / EOF";

/// The words that solve a file with splits at vertices alone, and with splits at links too.
const WAYS: [&str; 2] = ["solve a.stp --log b", "solve a.stp --log b --links"];

/// The log that these words save.
fn log_of<R: Threads + Wait + Sync>(
    rt: &R,
    alloc: Global,
    words: &str,
    lines: &str,
) -> Result<Vec<u8>, AllocError> {
    let mut shelf = shelf_of(alloc, lines, &[])?;
    let mut out = sink_of(alloc)?;
    ending_of(rt, alloc, words, &mut shelf, &mut out)?;
    Vec::from_slice(alloc, shelf.text_of("b").unwrap_or(&[]))
}

/// Whether the log that these words save is of version 2.
fn is_second<R: Threads + Wait + Sync>(
    rt: &R,
    alloc: Global,
    words: &str,
    lines: &str,
) -> Result<bool, AllocError> {
    Ok(log_of(rt, alloc, words, lines)?.starts_with(b"STEINERLOG 2\n"))
}

#[test]
fn saves_logs_of_version_2(rt: HostRuntime) -> Result<(), Fail> {
    for words in WAYS {
        for lines in [TRIANGLE, WHEEL, PRIZES, APART, CUBE] {
            assert!(rt; is_second(&rt, rt.alloc(), words, lines)?, "for {lines}");
        }
    }
    Ok(())
}

/// Whether the log of the cube that these words save has a line that splits at a link.
fn splits_at_links<R: Threads + Wait + Sync>(
    rt: &R,
    alloc: Global,
    words: &str,
) -> Result<bool, AllocError> {
    let log = log_of(rt, alloc, words, CUBE)?;
    Ok(log.windows(3).any(|bytes| bytes == b"\nL ".as_slice()))
}

/// The cube takes splits at links, where they are asked for.
#[test]
fn splits_at_links_where_it_is_asked(rt: HostRuntime) -> Result<(), Fail> {
    let [at_vertices, at_links] = WAYS;
    assert!(rt; !splits_at_links(&rt, rt.alloc(), at_vertices)?);
    assert!(rt; splits_at_links(&rt, rt.alloc(), at_links)?);
    Ok(())
}

/// Files, and what is said of the logs that solving them saves.
const SAVED: &[(&str, &str)] = &[
    (TRIANGLE, "optimal 6\n"),
    (WHEEL, "optimal 10\n"),
    (PRIZES, "optimal 3\n"),
    (CUBE, "optimal 10\n"),
];

/// Ways to solve a file with splits at links.
const WITH_LINKS: [&str; 3] = [
    "solve a.stp --log b --links",
    "solve a.stp --links --plain --log b",
    "solve a.stp --log b --links --workers 2",
];

#[test]
fn accepts_logs_that_split_at_links(rt: HostRuntime) -> Result<(), Fail> {
    for words in WITH_LINKS {
        for (lines, line) in SAVED {
            let want = (Status::Optimal, 0, *line);
            assert!(rt;
                is_accepted(&rt, rt.alloc(), words, lines, want)?,
                "{words} for {lines}"
            );
        }
    }
    Ok(())
}

/// Two required vertices that two links join, one of cost 5 and one of cost 3.
const PARALLEL: &str =
    "H / SECTION Graph / Nodes 2 / Edges 2 / E 1 2 5 / E 2 1 3 / END / SECTION Terminals / Terminals 2 / T 1 / T 2 / END / EOF";

/// Logs that split at the link of cost 3, and how they are answered with its file.
const ANSWERS: &[(&str, Status, u8, &str)] = &[
    (
        "STEINERLOG 2 / CLAIM TREE 3 3 / TREE 1 1 / A 1 2 / STEPS 0 / PROOF / L 1 2 / C 0 0 / C 1 1 / U 2 3 1 2 / END",
        Status::Optimal,
        0,
        "optimal 3\n",
    ),
    (
        "STEINERLOG 2 / CLAIM TREE 3 2 / TREE 1 1 / A 1 2 / STEPS 0 / PROOF / L 1 2 / C 0 0 / C 1 1 / U 2 2 1 2 / END",
        Status::Budget,
        3,
        "bound 2 3\n",
    ),
    // A log of version 1 has no such line.
    (
        "STEINERLOG 1 / CLAIM TREE 3 3 / TREE 1 1 / A 1 2 / STEPS 0 / PROOF / L 1 2 / C 0 0 / C 1 1 / U 2 3 1 2 / END",
        Status::RefusedLog,
        6,
        "refused log 7 1 BadLine\n",
    ),
    // A link is split once.
    (
        "STEINERLOG 2 / CLAIM TREE 3 3 / TREE 1 1 / A 1 2 / STEPS 0 / PROOF / L 1 2 / L 1 2 / C 0 0 / C 0 0 / C 1 1 / U 2 3 1 2 / END",
        Status::RefusedLog,
        6,
        "refused log 8 7 BadSplit\n",
    ),
    // The link that is barred costs nothing.
    (
        "STEINERLOG 2 / CLAIM TREE 3 3 / TREE 1 1 / A 1 2 / STEPS 0 / PROOF / L 1 2 / C 0 0 / C 0 0 / END",
        Status::RefusedLog,
        6,
        "refused log 9 9 TooLight\n",
    ),
];

#[test]
fn answers_logs_that_split_at_links(rt: HostRuntime) -> Result<(), Fail> {
    for (log, status, code, line) in ANSWERS {
        let want = (*status, *code, *line);
        assert!(rt;
            answers_log(&rt, rt.alloc(), PARALLEL, log, want)?,
            "for {log}"
        );
    }
    Ok(())
}
