use super::{
    APART, LINK, PRIZES, SMALL_PRIZES, Solution, TRIANGLE, WHEEL, ending_of, ends, file_ends,
    shelf_of, sink_of, solved,
};
use log_format::{Claim, read_log};
use std::alloc::{AllocError, Global};
use std::sync::Wait;
use std::test::Fail;
use std::thread::Threads;
use steiner_top::{OpenGate, Status};

/// The solution of the triangle: its centre and the three spokes.
pub const STAR: &str =
    "33D32945 STP File, STP Format Version 1.0\nSECTION Comment\nName \"a.stp\"\nProgram \"steiner\"\nRemark \"optimal\"\nEND\nSECTION Solutions\nSolution 0 6\nEND\nSECTION Run\nThreads 1\nTime 0\nDual 6\nPrimal 6\nEND\nSECTION Finalsolution\nVertices 4\nV 1\nV 2\nV 3\nV 4\nEdges 3\nE 1 4\nE 2 4\nE 3 4\nEND\nEOF\n";

/// The dual and the primal of a file, where so many nodes may be expanded, and it is to be plain or not.
fn numbers_of<R: Threads + Wait + Sync>(
    rt: &R,
    alloc: Global,
    lines: &str,
    nodes: u64,
    plain: bool,
) -> Result<Option<(u64, u64)>, AllocError> {
    let found = solved(rt, alloc, lines, nodes, plain, &OpenGate)?;
    Ok(found.map(|found| (found.dual, found.primal)))
}

/// Whether a file has a tree, and comes to this dual and this primal.
pub fn comes_to<R: Threads + Wait + Sync>(
    rt: &R,
    alloc: Global,
    lines: &str,
    nodes: u64,
    plain: bool,
    want: (u64, u64),
) -> Result<bool, AllocError> {
    match numbers_of(rt, alloc, lines, nodes, plain)? {
        Some((dual, primal)) => Ok(dual == want.0 && primal == want.1),
        None => Ok(false),
    }
}

/// Files and the cost of their best trees, in millionths where an amount has decimals.
const BEST: &[(&str, u64)] = &[
    (TRIANGLE, 6),
    (WHEEL, 10),
    (PRIZES, 3),
    (LINK, 5_500_000),
    (SMALL_PRIZES, 100_000),
    // The sides of the triangle cost 3: two of them are as good as the spokes.
    (
        "H / SECTION Graph / Nodes 4 / Edges 6 / E 1 4 2 / E 2 4 2 / E 3 4 2 / E 1 2 3 / E 2 3 3 / E 1 3 3 / END / SECTION Terminals / Terminals 3 / T 1 / T 2 / T 3 / END / EOF",
        6,
    ),
    (
        "H / SECTION Graph / Nodes 1 / Edges 0 / END / SECTION Terminals / Terminals 1 / T 1 / END / EOF",
        0,
    ),
    // The cheaper of parallel links counts, and a loop doesn't.
    (
        "H / SECTION Graph / Nodes 2 / Edges 3 / E 1 2 5 / E 2 1 3 / E 1 1 4 / END / SECTION Terminals / Terminals 2 / T 1 / T 2 / END / EOF",
        3,
    ),
    (
        "H / SECTION Graph / Nodes 3 / Edges 3 / E 1 2 0 / E 2 3 0 / E 1 3 0 / END / SECTION Terminals / Terminals 3 / T 1 / T 2 / T 3 / END / EOF",
        0,
    ),
    // The link to the other prize pays where it costs 2, and where it costs 3 either tree is best.
    (
        "H / SECTION Graph / Nodes 2 / Edges 1 / E 1 2 2 / END / SECTION Terminals / Terminals 2 / TP 1 3 / TP 2 4 / END / EOF",
        2,
    ),
    (
        "H / SECTION Graph / Nodes 2 / Edges 1 / E 1 2 3 / END / SECTION Terminals / Terminals 2 / TP 1 3 / TP 2 4 / END / EOF",
        3,
    ),
    // Nobody pays.
    (
        "H / SECTION Graph / Nodes 3 / Edges 2 / E 1 2 1 / E 2 3 1 / END / SECTION Terminals / Terminals 1 / TP 2 0 / END / EOF",
        0,
    ),
    // Both kinds in one file.
    (
        "H / SECTION Graph / Nodes 3 / Edges 2 / E 1 3 4 / E 3 2 5 / END / SECTION Terminals / Terminals 2 / T 1 / TP 2 10 / END / EOF",
        9,
    ),
    (
        "H / SECTION Graph / Nodes 2 / Edges 1 / E 1 2 1000000000000 / END / SECTION Terminals / Terminals 2 / T 1 / T 2 / END / EOF",
        1_000_000_000_000,
    ),
    (
        "H / SECTION Graph / Nodes 2 / Edges 1 / E 1 2 5.0 / END / SECTION Terminals / Terminals 2 / T 1 / T 2 / END / EOF",
        5,
    ),
    // Another case, a carriage return, coordinates, and no line EOF.
    (
        "H / section coordinates / dd 1 0 0 / end / section graph / nodes 2 / edges 1\r / e 1 2 7\r / end\r / section terminals\r / terminals 2\r / t 1\r / t 2\r / end\r",
        7,
    ),
];

#[test]
fn finds_the_best_cost(rt: HostRuntime) -> Result<(), Fail> {
    for (lines, cost) in BEST {
        for plain in [true, false] {
            let want = (*cost, *cost);
            assert!(rt;
                comes_to(&rt, rt.alloc(), lines, 1_000_000, plain, want)?,
                "for {lines}"
            );
        }
    }
    Ok(())
}

#[test]
fn sends_the_solution(rt: HostRuntime) -> Result<(), Fail> {
    let want = (Status::Optimal, 0, STAR);
    assert!(rt; file_ends(&rt, rt.alloc(), "solve a.stp", TRIANGLE, &[], want)?);
    Ok(())
}

#[test]
fn tells_that_there_is_no_tree(rt: HostRuntime) -> Result<(), Fail> {
    let want = (Status::Infeasible, 4, "infeasible\n");
    assert!(rt; file_ends(&rt, rt.alloc(), "solve a.stp", APART, &[], want)?);
    Ok(())
}

/// Without a budget nothing is proved of the whole instance; the tree is that from which the search starts.
#[test]
fn proves_nothing_without_a_budget(rt: HostRuntime) -> Result<(), Fail> {
    let (dual, primal) = numbers_of(&rt, rt.alloc(), TRIANGLE, 0, true)?.ok_or("no tree")?;
    assert!(rt; dual == 0 && 6 <= primal && primal <= 8, "{dual} {primal}");
    Ok(())
}

/// The first tree goes over two sides of 7, each shorter than the way over the centre; the search starts from a
/// better one, the three spokes of 4.
#[test]
fn starts_from_an_improved_tree(rt: HostRuntime) -> Result<(), Fail> {
    let lines =
        "H / SECTION Graph / Nodes 4 / Edges 6 / E 1 4 4 / E 2 4 4 / E 3 4 4 / E 1 2 7 / E 2 3 7 / E 1 3 7 / END / SECTION Terminals / Terminals 3 / T 1 / T 2 / T 3 / END / EOF";
    assert!(rt; comes_to(&rt, rt.alloc(), lines, 0, true, (0, 12))?);
    Ok(())
}

/// Files in which nobody pays, how many vertices are required, and the cost of their best trees.
const FREE: &[(&str, u64, u64)] = &[
    (TRIANGLE, 3, 6),
    (WHEEL, 4, 10),
    (
        "H / SECTION Graph / Nodes 3 / Edges 2 / E 1 2 4 / E 2 3 1 / END / SECTION Terminals / Terminals 1 / T 2 / END / EOF",
        1,
        0,
    ),
    // The spokes cost 1 more than half of a side.
    (
        "H / SECTION Graph / Nodes 5 / Edges 8 / E 1 5 6 / E 2 5 6 / E 3 5 6 / E 4 5 6 / E 1 2 10 / E 2 3 10 / E 3 4 10 / E 4 1 10 / END / SECTION Terminals / Terminals 4 / T 1 / T 2 / T 3 / T 4 / END / EOF",
        4,
        24,
    ),
];

/// Whether a cost is at most twice the least, less a share of one in as many as are required.
pub fn is_within_twice(required: u64, cost: u64, least: u64) -> bool {
    let most = required
        .saturating_sub(1)
        .saturating_mul(2)
        .saturating_mul(least);
    required.saturating_mul(cost) <= most
}

/// Whether the tree from which the search of a file starts costs no more than that.
fn starts_within_twice<R: Threads + Wait + Sync>(
    rt: &R,
    alloc: Global,
    lines: &str,
    required: u64,
    least: u64,
    plain: bool,
) -> Result<bool, AllocError> {
    match numbers_of(rt, alloc, lines, 0, plain)? {
        Some((_, primal)) => Ok(is_within_twice(required, primal, least)),
        None => Ok(false),
    }
}

#[test]
fn starts_within_twice_the_least(rt: HostRuntime) -> Result<(), Fail> {
    for (lines, required, least) in FREE {
        for plain in [true, false] {
            assert!(rt;
                starts_within_twice(&rt, rt.alloc(), lines, *required, *least, plain)?,
                "for {lines}"
            );
        }
    }
    Ok(())
}

/// What the triangle's tree comes to that is found by these words.
fn triangle_found<R: Threads + Wait + Sync>(
    rt: &R,
    alloc: Global,
    line: &str,
) -> Result<Option<Solution>, AllocError> {
    let mut shelf = shelf_of(alloc, TRIANGLE, &[])?;
    let mut out = sink_of(alloc)?;
    Ok(ending_of(rt, alloc, line, &mut shelf, &mut out)?.solution)
}

/// One node proves the best cost of the triangle, but not that of the wheel, which has to split.
#[test]
fn proves_the_triangle_by_one_node(rt: HostRuntime) -> Result<(), Fail> {
    let found = triangle_found(&rt, rt.alloc(), "solve a.stp --nodes 1 --plain")?;
    let Solution { primal, dual, .. } = found.ok_or("no tree")?;
    assert!(rt; dual == 6 && 6 <= primal && primal <= 8, "{dual} {primal}");
    let (dual, _) = numbers_of(&rt, rt.alloc(), WHEEL, 1, false)?.ok_or("no tree")?;
    assert!(rt; dual < 10, "{dual}");
    Ok(())
}

/// A bound grows with the budget, and reaches the cost at the end.
#[test]
fn spends_a_budget_on_the_wheel(rt: HostRuntime) -> Result<(), Fail> {
    for nodes in [0, 1, 2] {
        let (dual, primal) = numbers_of(&rt, rt.alloc(), WHEEL, nodes, true)?.ok_or("no tree")?;
        assert!(rt; dual <= 10 && 10 <= primal, "{nodes}: {dual} {primal}");
    }
    // Three vertices aren't required.
    for plain in [true, false] {
        assert!(rt; comes_to(&rt, rt.alloc(), WHEEL, 16, plain, (10, 10))?);
    }
    Ok(())
}

/// Whether the text of a log claims that 6 is the least cost.
fn claims_six(alloc: Global, text: &[u8]) -> bool {
    match read_log(alloc, text) {
        Ok(log) => matches!(
            &log.claim,
            Claim::Found {
                primal: 6,
                dual: 6,
                ..
            }
        ),
        Err(_) => false,
    }
}

/// Whether solving the triangle saves a log that claims so.
fn saves_six<R: Threads + Wait + Sync>(rt: &R, alloc: Global) -> Result<bool, AllocError> {
    let mut shelf = shelf_of(alloc, TRIANGLE, &[])?;
    let want = (Status::Optimal, 0, STAR);
    let ended = ends(rt, alloc, "solve a.stp --log b", &mut shelf, want)?;
    Ok(ended && claims_six(alloc, shelf.text_of("b").unwrap_or(&[])))
}

/// The log that is saved is the text of the certificate, and its claim has the numbers.
#[test]
fn saves_the_certificate(rt: HostRuntime) -> Result<(), Fail> {
    assert!(rt; saves_six(&rt, rt.alloc())?);
    Ok(())
}
