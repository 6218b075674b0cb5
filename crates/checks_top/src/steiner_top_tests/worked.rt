use super::{LINK, PRIZES, SMALL_PRIZES, TRIANGLE, ending_of, shelf_of, sink_of};
use std::alloc::{AllocError, Global};
use std::sync::Wait;
use std::test::Fail;
use std::thread::Threads;
use steiner_top::Status;

/// The vertices and the edges of a tree.
pub type Shape = (&'static [u32], &'static [(u32, u32)]);

/// A file, the cost of its best trees as it is sent, and each of these.
type Example = (&'static str, &'static str, &'static [Shape]);

/// Examples in which nobody pays.
const BEST: &[Example] = &[
    (TRIANGLE, "6", &[(&[1, 2, 3, 4], &[(1, 4), (2, 4), (3, 4)])]),
    // Two sides of cost 3 are as good as the spokes.
    (
        "H / SECTION Graph / Nodes 4 / Edges 6 / E 1 4 2 / E 2 4 2 / E 3 4 2 / E 1 2 3 / E 2 3 3 / E 1 3 3 / END / SECTION Terminals / Terminals 3 / T 1 / T 2 / T 3 / END / EOF",
        "6",
        &[
            (&[1, 2, 3, 4], &[(1, 4), (2, 4), (3, 4)]),
            (&[1, 2, 3], &[(1, 2), (1, 3)]),
            (&[1, 2, 3], &[(1, 2), (2, 3)]),
            (&[1, 2, 3], &[(1, 3), (2, 3)]),
        ],
    ),
    (
        "H / SECTION Graph / Nodes 1 / Edges 0 / END / SECTION Terminals / Terminals 1 / T 1 / END / EOF",
        "0",
        &[(&[1], &[])],
    ),
    // The cheaper of parallel links, without a loop and with one.
    (
        "H / SECTION Graph / Nodes 2 / Edges 2 / E 1 2 5 / E 2 1 3 / END / SECTION Terminals / Terminals 2 / T 1 / T 2 / END / EOF",
        "3",
        &[(&[1, 2], &[(1, 2)])],
    ),
    (
        "H / SECTION Graph / Nodes 2 / Edges 3 / E 1 2 5 / E 2 1 3 / E 1 1 4 / END / SECTION Terminals / Terminals 2 / T 1 / T 2 / END / EOF",
        "3",
        &[(&[1, 2], &[(1, 2)])],
    ),
    // Links of cost 0.
    (
        "H / SECTION Graph / Nodes 3 / Edges 3 / E 1 2 0 / E 2 3 0 / E 1 3 0 / END / SECTION Terminals / Terminals 3 / T 1 / T 2 / T 3 / END / EOF",
        "0",
        &[
            (&[1, 2, 3], &[(1, 2), (1, 3)]),
            (&[1, 2, 3], &[(1, 2), (2, 3)]),
            (&[1, 2, 3], &[(1, 3), (2, 3)]),
        ],
    ),
    // Nobody pays.
    (
        "H / SECTION Graph / Nodes 3 / Edges 2 / E 1 2 1 / E 2 3 1 / END / SECTION Terminals / Terminals 1 / TP 2 0 / END / EOF",
        "0",
        &[(&[1], &[]), (&[2], &[]), (&[3], &[])],
    ),
];

/// Examples in which vertices pay.
const BEST_WITH_PRIZES: &[Example] = &[
    // A link to the lesser prize: too dear, worth it, and neither.
    (PRIZES, "3", &[(&[2], &[])]),
    (
        "H / SECTION Graph / Nodes 2 / Edges 1 / E 1 2 2 / END / SECTION Terminals / Terminals 2 / TP 1 3 / TP 2 4 / END / EOF",
        "2",
        &[(&[1, 2], &[(1, 2)])],
    ),
    (
        "H / SECTION Graph / Nodes 2 / Edges 1 / E 1 2 3 / END / SECTION Terminals / Terminals 2 / TP 1 3 / TP 2 4 / END / EOF",
        "3",
        &[(&[2], &[]), (&[1, 2], &[(1, 2)])],
    ),
    // A vertex that is required, and one that pays.
    (
        "H / SECTION Graph / Nodes 3 / Edges 2 / E 1 3 4 / E 3 2 5 / END / SECTION Terminals / Terminals 2 / T 1 / TP 2 10 / END / EOF",
        "9",
        &[(&[1, 2, 3], &[(1, 3), (2, 3)])],
    ),
    // Amounts with decimals.
    (SMALL_PRIZES, "0.1", &[(&[2], &[])]),
    // A pinned root doesn't pay, counted or not.
    (
        "H / SECTION Graph / Nodes 2 / Edges 1 / E 1 2 5 / END / SECTION Terminals / Terminals 2 / TP 1 3 / TP 2 4 / RootP 1 / END / EOF",
        "4",
        &[(&[1], &[])],
    ),
    (
        "H / SECTION Graph / Nodes 2 / Edges 1 / E 1 2 3.5 / END / SECTION Terminals / Terminals 3 / RootP 1 / TP 1 3 / TP 2 4 / END / EOF",
        "3.5",
        &[(&[1, 2], &[(1, 2)])],
    ),
];

/// Examples of costs with decimals.
const WITH_DECIMALS: &[Example] = &[
    (LINK, "5.5", &[(&[1, 2], &[(1, 2)])]),
    (
        "H / SECTION Graph / Nodes 2 / Edges 1 / E 1 2 0.5000000 / END / SECTION Terminals / Terminals 2 / T 1 / T 2 / END / EOF",
        "0.5",
        &[(&[1, 2], &[(1, 2)])],
    ),
    // The greatest amount beside decimals.
    (
        "H / SECTION Graph / Nodes 2 / Edges 2 / E 1 2 1000000 / E 1 2 0.5 / END / SECTION Terminals / Terminals 2 / T 1 / T 2 / END / EOF",
        "0.5",
        &[(&[1, 2], &[(1, 2)])],
    ),
    (
        "H / SECTION Graph / Nodes 3 / Edges 2 / E 1 2 1000000 / E 2 3 0.000001 / END / SECTION Terminals / Terminals 2 / T 1 / T 3 / END / EOF",
        "1000000.000001",
        &[(&[1, 2, 3], &[(1, 2), (2, 3)])],
    ),
    // The spokes cost 2.1 together, two sides 2.6.
    (
        "H / SECTION Graph / Nodes 4 / Edges 6 / E 1 4 0.7 / E 2 4 00.7 / E 3 4 0.70 / E 1 2 1.3 / E 2 3 1.3 / E 1 3 1.3 / END / SECTION Terminals / Terminals 3 / T 1 / T 2 / T 3 / END / EOF",
        "2.1",
        &[(&[1, 2, 3, 4], &[(1, 4), (2, 4), (3, 4)])],
    ),
    // The spokes cost a whole number together.
    (
        "H / SECTION Graph / Nodes 4 / Edges 6 / E 1 4 0.75 / E 2 4 1.125 / E 3 4 1.125 / E 1 2 4 / E 2 3 4 / E 1 3 4 / END / SECTION Terminals / Terminals 3 / T 1 / T 2 / T 3 / END / EOF",
        "3",
        &[(&[1, 2, 3, 4], &[(1, 4), (2, 4), (3, 4)])],
    ),
];

/// Examples in which a vertex is pinned: one of the triangle's, which is counted or not, stands before or after the
/// count or is required by a line of its own too; and one alone.
const PINNED: &[Example] = &[
    (
        "H / SECTION Graph / Nodes 4 / Edges 6 / E 1 4 2 / E 2 4 2 / E 3 4 2 / E 1 2 4 / E 2 3 4 / E 1 3 4 / END / SECTION Terminals / Terminals 3 / RootP 1 / T 2 / T 3 / END / EOF",
        "6",
        &[(&[1, 2, 3, 4], &[(1, 4), (2, 4), (3, 4)])],
    ),
    (
        "H / SECTION Graph / Nodes 4 / Edges 6 / E 1 4 2 / E 2 4 2 / E 3 4 2 / E 1 2 4 / E 2 3 4 / E 1 3 4 / END / SECTION Terminals / Terminals 2 / T 2 / T 3 / RootP 1 / END / EOF",
        "6",
        &[(&[1, 2, 3, 4], &[(1, 4), (2, 4), (3, 4)])],
    ),
    (
        "H / SECTION Graph / Nodes 4 / Edges 6 / E 1 4 2 / E 2 4 2 / E 3 4 2 / E 1 2 4 / E 2 3 4 / E 1 3 4 / END / SECTION Terminals / rootp 1 / Root 1 / Terminals 2 / T 2 / T 3 / END / EOF",
        "6",
        &[(&[1, 2, 3, 4], &[(1, 4), (2, 4), (3, 4)])],
    ),
    (
        "H / SECTION Graph / Nodes 4 / Edges 6 / E 1 4 2 / E 2 4 2 / E 3 4 2 / E 1 2 4 / E 2 3 4 / E 1 3 4 / END / SECTION Terminals / Terminals 3 / T 1 / T 2 / T 3 / RootP 1 / END / EOF",
        "6",
        &[(&[1, 2, 3, 4], &[(1, 4), (2, 4), (3, 4)])],
    ),
    (
        "H / SECTION Graph / Nodes 3 / Edges 2 / E 1 2 1 / E 2 3 1 / END / SECTION Terminals / Terminals 0 / RootP 2 / END / EOF",
        "0",
        &[(&[2], &[])],
    ),
];

/// What stands before the tree of a solution of `a.stp` by one worker.
pub fn solution_head(
    alloc: Global,
    remark: &str,
    dual: &str,
    primal: &str,
) -> Result<String, AllocError> {
    let mut text = String::from_str(alloc, "33D32945 STP File, STP Format Version 1.0\n")?;
    text.push_str("SECTION Comment\nName \"a.stp\"\nProgram \"steiner\"\n")?;
    writeln!(&mut text, "Remark \"{remark}\"\nEND")?;
    writeln!(&mut text, "SECTION Solutions\nSolution 0 {primal}\nEND")?;
    text.push_str("SECTION Run\nThreads 1\nTime 0\n")?;
    writeln!(&mut text, "Dual {dual}\nPrimal {primal}\nEND")?;
    Ok(text)
}

/// The text of a solution of `a.stp` by one worker.
pub fn solution_text(
    alloc: Global,
    remark: &str,
    dual: &str,
    primal: &str,
    tree: Shape,
) -> Result<String, AllocError> {
    let (vertices, edges) = tree;
    let mut text = solution_head(alloc, remark, dual, primal)?;
    let count = vertices.len();
    writeln!(&mut text, "SECTION Finalsolution\nVertices {count}")?;
    for vertex in vertices {
        writeln!(&mut text, "V {vertex}")?;
    }
    let count = edges.len();
    writeln!(&mut text, "Edges {count}")?;
    for (low, high) in edges {
        writeln!(&mut text, "E {low} {high}")?;
    }
    text.push_str("END\nEOF\n")?;
    Ok(text)
}

/// Whether some bytes are the text of one of these solutions.
fn is_one_of(
    alloc: Global,
    sent: &[u8],
    remark: &str,
    dual: &str,
    primal: &str,
    trees: &[Shape],
) -> Result<bool, AllocError> {
    for tree in trees {
        let text = solution_text(alloc, remark, dual, primal, *tree)?;
        if sent == text.as_bytes() {
            return Ok(true);
        }
    }
    Ok(false)
}

/// Whether a line sends one of these solutions of a file, as an optimal one.
fn sends_one_of<R: Threads + Wait + Sync>(
    rt: &R,
    alloc: Global,
    line: &str,
    lines: &str,
    cost: &str,
    trees: &[Shape],
) -> Result<bool, AllocError> {
    let mut shelf = shelf_of(alloc, lines, &[])?;
    let mut out = sink_of(alloc)?;
    let status = ending_of(rt, alloc, line, &mut shelf, &mut out)?.status;
    let is_best = is_one_of(alloc, out.bytes(), "optimal", cost, cost, trees)?;
    Ok(is_best && status == Status::Optimal)
}

#[test]
fn sends_a_best_tree(rt: HostRuntime) -> Result<(), Fail> {
    let alloc = rt.alloc();
    for table in [BEST, BEST_WITH_PRIZES] {
        for (lines, cost, trees) in table {
            for line in ["solve a.stp", "solve a.stp --plain"] {
                let is_best = sends_one_of(&rt, alloc, line, lines, cost, trees)?;
                assert!(rt; is_best, "for {lines}");
            }
        }
    }
    Ok(())
}

#[test]
fn sends_a_best_tree_of_few_terminals(rt: HostRuntime) -> Result<(), Fail> {
    for (lines, cost, trees) in BEST {
        let is_best = sends_one_of(&rt, rt.alloc(), "few a.stp", lines, cost, trees)?;
        assert!(rt; is_best, "for {lines}");
    }
    Ok(())
}

/// Examples that each command solves.
#[test]
fn sends_decimals_and_pinned_roots(rt: HostRuntime) -> Result<(), Fail> {
    for table in [WITH_DECIMALS, PINNED] {
        for (lines, cost, trees) in table {
            for line in ["solve a.stp", "solve a.stp --plain", "few a.stp"] {
                let is_best = sends_one_of(&rt, rt.alloc(), line, lines, cost, trees)?;
                assert!(rt; is_best, "for {lines}");
            }
        }
    }
    Ok(())
}

/// The spokes of the triangle, and any two of its sides.
const SPOKES: &[Shape] = &[(&[1, 2, 3, 4], &[(1, 4), (2, 4), (3, 4)])];

const SIDES: &[Shape] = &[
    (&[1, 2, 3], &[(1, 2), (1, 3)]),
    (&[1, 2, 3], &[(1, 2), (2, 3)]),
    (&[1, 2, 3], &[(1, 3), (2, 3)]),
];

/// How solving the triangle without a budget ends, and whether it sends one of these with no bound.
fn without_budget<R: Threads + Wait + Sync>(
    rt: &R,
    alloc: Global,
) -> Result<(Status, bool), AllocError> {
    let mut shelf = shelf_of(alloc, TRIANGLE, &[])?;
    let mut out = sink_of(alloc)?;
    let line = "solve a.stp --nodes 0 --plain";
    let status = ending_of(rt, alloc, line, &mut shelf, &mut out)?.status;
    let is_best = is_one_of(alloc, out.bytes(), "budget", "0", "6", SPOKES)?;
    let is_other = is_one_of(alloc, out.bytes(), "budget", "0", "8", SIDES)?;
    Ok((status, is_best || is_other))
}

#[test]
fn sends_a_tree_without_a_budget(rt: HostRuntime) -> Result<(), Fail> {
    let (status, is_sent) = without_budget(&rt, rt.alloc())?;
    assert!(rt; status == Status::Budget && status.code() == 3);
    assert!(rt; is_sent);
    Ok(())
}
