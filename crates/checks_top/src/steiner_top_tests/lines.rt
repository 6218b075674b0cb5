use super::{TRIANGLE, USAGE, ends, file_ends, shelf_of, sink_of};
use st_edge::{MemoryShelf, MemorySink};
use std::alloc::{AllocError, Global};
use std::sync::Wait;
use std::test::Fail;
use std::thread::Threads;
use steiner_top::{OpenGate, Status, run};

/// Words that mean no command.
const NO_COMMANDS: &[&str] = &[
    "",
    "solve",
    "solve -x",
    "solve a.stp b",
    "solve a.stp --workers 65",
    "solve a.stp --workers 0",
    "solve a.stp --links --links",
    "check a.stp",
    "check a.stp b --links",
    "gen 1 3 1 2",
    "gen 1 3 3 4",
    "gen 0 3 3 2",
    "gen 2147483647 3 3 2",
    "trial 1 3 1 2",
    "trial 1 3 3 4",
    "trial 1 3 3 2 --links",
    "few",
    "few a.stp b",
    "few a.stp --nodes 1",
    "verify a.stp",
    "verify a.stp b c",
    "verify a.stp b --plain",
    "resume a.stp",
    "resume a.stp b c",
    "resume a.stp b --plain",
    "resume a.stp b --links",
    "resume a.stp b --workers 65",
    "resume a.stp b --nodes 1000001",
    "help",
    "--version",
];

#[test]
fn sends_the_usage(rt: HostRuntime) -> Result<(), Fail> {
    for line in NO_COMMANDS {
        let want = (Status::Usage, 2, USAGE);
        let ended = file_ends(&rt, rt.alloc(), line, TRIANGLE, &[], want)?;
        assert!(rt; ended, "after {line}");
    }
    Ok(())
}

/// How a run with no words ends.
fn ended_without_words<R: Threads + Wait + Sync>(
    rt: &R,
    alloc: Global,
    out: &mut MemorySink,
) -> Result<Status, AllocError> {
    let mut shelf = shelf_of(alloc, TRIANGLE, &[])?;
    Ok(run(rt, alloc, &[], &mut shelf, out, &OpenGate).status)
}

/// Whether it ends with the usage.
fn sends_usage<R: Threads + Wait + Sync>(rt: &R, alloc: Global) -> Result<bool, AllocError> {
    let mut out = sink_of(alloc)?;
    let status = ended_without_words(rt, alloc, &mut out)?;
    Ok(status == Status::Usage && out.bytes() == USAGE.as_bytes())
}

#[test]
fn sends_the_usage_where_there_are_no_words(rt: HostRuntime) -> Result<(), Fail> {
    assert!(rt; sends_usage(&rt, rt.alloc())?);
    Ok(())
}

/// Files and the lines by which they are refused.
const REFUSED: &[(&str, &str)] = &[
    ("", "refused stp 2 1 NoHeader\n"),
    ("hello", "refused stp 1 1 NoHeader\n"),
    (
        "H / SECTION Graph / Nodes 2 / Edges 1 / E 1 2 5",
        "refused stp 6 14 Unclosed\n",
    ),
    (
        "H / SECTION Graph / Nodes 3 / Edges 3 / E 1 2 1 / E 2 3 1 / END",
        "refused stp 7 10 CountMismatch\n",
    ),
    (
        "H / SECTION Graph / Nodes 2 / Edges 1 / E 1 2 1000000000001",
        "refused stp 5 8 OutOfRange\n",
    ),
    (
        "H / SECTION Graph / Nodes 2 / Edges 1 / E 1 2 0.0000005",
        "refused stp 5 7 Fraction\n",
    ),
    (
        "H / SECTION Graph / Nodes 2 / Edges 1 / E 1 2 -1",
        "refused stp 5 6 BadNumber\n",
    ),
    (
        "H / SECTION Graph / Nodes 2 / Edges 1 / E 1 2 5 / END / SECTION Terminals / Terminals 2 / TP 1 3 / TP 1 4 / END / EOF",
        "refused stp 10 11 RepeatedPrize\n",
    ),
    (
        "H / SECTION Graph / Nodes 2 / Edges 1 / E 1 2 5 / END / SECTION Terminals / Terminals 1 / Root 2 / T 1 / END / EOF",
        "refused stp 11 12 RootNotTerminal\n",
    ),
    (
        "H / SECTION Graph / Nodes 2 / Edges 1 / E 1 2 5 / END / SECTION Terminals / Terminals 2 / TP 1 3 / TP 2 4 / Root 1 / END / EOF",
        "refused stp 12 12 RootNotTerminal\n",
    ),
    ("H / SECTION Presolve", "refused stp 2 3 UnknownSection\n"),
    (
        "H / SECTION Graph / Nodes 2 / Edges 2 / A 1 2 5",
        "refused stp 5 13 Directed\n",
    ),
];

/// Files with amounts that are above a million beside decimals, and the lines by which they are refused.
const TOO_WIDE: &[(&str, &str)] = &[
    (
        "H / SECTION Graph / Nodes 2 / Edges 2 / E 1 2 1000001 / E 1 2 0.5 / END / SECTION Terminals / Terminals 2 / T 1 / T 2 / END / EOF",
        "refused stp 6 18 ScaleRange\n",
    ),
    (
        "H / SECTION Graph / Nodes 2 / Edges 2 / E 1 2 0.5 / E 1 2 1000001",
        "refused stp 6 18 ScaleRange\n",
    ),
    (
        "H / SECTION Graph / Nodes 2 / Edges 1 / E 1 2 1000000.000001",
        "refused stp 5 18 ScaleRange\n",
    ),
    (
        "H / SECTION Graph / Nodes 2 / Edges 1 / E 1 2 1000000000000.5",
        "refused stp 5 18 ScaleRange\n",
    ),
    (
        "H / SECTION Graph / Nodes 2 / Edges 1 / E 1 2 1000000000001.5",
        "refused stp 5 8 OutOfRange\n",
    ),
    (
        "H / SECTION Graph / Nodes 2 / Edges 1 / E 1 2 1000001 / END / SECTION Terminals / Terminals 2 / TP 1 3 / TP 2 0.5",
        "refused stp 10 18 ScaleRange\n",
    ),
    // Also where the vertex doesn't pay, since it is required.
    (
        "H / SECTION Graph / Nodes 2 / Edges 1 / E 1 2 0.5 / END / SECTION Terminals / Terminals 2 / T 1 / TP 1 1000001",
        "refused stp 10 18 ScaleRange\n",
    ),
];

/// Files with a pinned root, and the lines by which they are refused.
const PINNED: &[(&str, &str)] = &[
    (
        "H / SECTION Graph / Nodes 2 / Edges 1 / E 1 2 5 / END / SECTION Terminals / Terminals 3 / RootP 1 / T 2 / END / EOF",
        "refused stp 11 10 CountMismatch\n",
    ),
    (
        "H / SECTION Graph / Nodes 2 / Edges 1 / E 1 2 5 / END / SECTION Terminals / Terminals 0 / RootP 1 / T 2 / END / EOF",
        "refused stp 11 10 CountMismatch\n",
    ),
    (
        "H / SECTION Graph / Nodes 2 / Edges 1 / E 1 2 5 / END / SECTION Terminals / Terminals 1 / RootP 1 / RootP 1",
        "refused stp 10 2 BadLine\n",
    ),
    (
        "H / SECTION Graph / Nodes 2 / Edges 1 / E 1 2 5 / END / SECTION Terminals / Terminals 1 / RootP 3",
        "refused stp 9 9 VertexRange\n",
    ),
    (
        "H / SECTION Graph / Nodes 2 / Edges 1 / E 1 2 5 / END / SECTION Terminals / Terminals 1 / RootP 1.0",
        "refused stp 9 6 BadNumber\n",
    ),
    (
        "H / SECTION Graph / Nodes 2 / Edges 1 / E 1 2 5 / END / SECTION Terminals / Terminals 1 / RootP 1 / Root 2 / T 1 / END / EOF",
        "refused stp 12 12 RootNotTerminal\n",
    ),
];

#[test]
fn tells_why_a_file_is_refused(rt: HostRuntime) -> Result<(), Fail> {
    for table in [REFUSED, TOO_WIDE, PINNED] {
        for (lines, line) in table {
            let want = (Status::RefusedFile, 5, *line);
            let ended = file_ends(&rt, rt.alloc(), "solve a.stp", lines, &[], want)?;
            assert!(rt; ended, "for {lines}");
        }
    }
    Ok(())
}

/// A shelf with a file of no bytes.
fn empty_shelf(alloc: Global) -> Result<MemoryShelf, AllocError> {
    let mut texts = Vec::new(alloc);
    texts.push((String::from_str(alloc, "a.stp")?, Vec::new(alloc)))?;
    Ok(MemoryShelf::of(alloc, texts, Vec::new(alloc)))
}

/// Whether it is refused so.
fn is_empty_refused<R: Threads + Wait + Sync>(
    rt: &R,
    alloc: Global,
    line: &str,
) -> Result<bool, AllocError> {
    let mut shelf = empty_shelf(alloc)?;
    let want = (Status::RefusedFile, 5, line);
    ends(rt, alloc, "solve a.stp", &mut shelf, want)
}

#[test]
fn refuses_a_file_of_no_bytes(rt: HostRuntime) -> Result<(), Fail> {
    let line = "refused stp 1 1 NoHeader\n";
    assert!(rt; is_empty_refused(&rt, rt.alloc(), line)?);
    Ok(())
}
