use super::super::drawn::shelf_with;
use super::super::ends;
use super::sends_tree;
use std::alloc::{AllocError, Global};
use std::sync::Wait;
use std::test::Fail;
use std::thread::Threads;
use steiner_top::Status;

/// How many vertices a file has, how many of them, from the first on, stand in a row of links of cost 3, how many, from
/// the first on, are required, and a line on another one, or none.
type Size = (u64, u64, u64, &'static str);

/// Files, and what a best tree costs.
const ANSWERED: &[(Size, u64)] = &[
    // Twelve are required, and one isn't.
    ((13, 13, 12, ""), 33),
    ((13, 13, 12, "TP 13 0"), 33),
    // Who is required doesn't pay.
    ((13, 13, 12, "TP 12 4"), 33),
    // All are required.
    ((12, 12, 12, ""), 33),
    // One is, or nobody.
    ((13, 13, 1, ""), 0),
    ((13, 13, 0, "TP 2 0"), 0),
];

/// Files that aren't answered by a tree, and what is sent.
const TOLD: &[(Size, Status, u8, &str)] = &[
    ((13, 13, 13, ""), Status::NotFew, 11, "not few 1 TooMany\n"),
    (
        (14, 14, 13, "TP 14 4"),
        Status::NotFew,
        11,
        "not few 1 TooMany\n",
    ),
    (
        (13, 13, 12, "TP 13 4"),
        Status::NotFew,
        11,
        "not few 2 Prizes\n",
    ),
    (
        (16_385, 12, 12, ""),
        Status::NotFew,
        11,
        "not few 3 TooLarge\n",
    ),
    (
        (16_385, 12, 12, "TP 16385 4"),
        Status::NotFew,
        11,
        "not few 2 Prizes\n",
    ),
    (
        (524_289, 7, 7, ""),
        Status::NotFew,
        11,
        "not few 3 TooLarge\n",
    ),
    // The row ends before the twelfth.
    ((13, 11, 12, ""), Status::Infeasible, 4, "infeasible\n"),
    ((13, 11, 13, ""), Status::NotFew, 11, "not few 1 TooMany\n"),
];

/// Writes the links of a row of so many vertices.
fn put_row(text: &mut String, vertices: u64) -> Result<(), AllocError> {
    for vertex in 2..=vertices {
        let before = vertex.saturating_sub(1);
        writeln!(text, "E {before} {vertex} 3")?;
    }
    Ok(())
}

/// Writes lines of so many vertices that are required.
fn put_required(text: &mut String, required: u64) -> Result<(), AllocError> {
    for vertex in 1..=required {
        writeln!(text, "T {vertex}")?;
    }
    Ok(())
}

/// The file of this size.
fn file_of(alloc: Global, size: Size) -> Result<String, AllocError> {
    let (vertices, row, required, line) = size;
    let links = row.saturating_sub(1);
    let lines = if line.is_empty() {
        required
    } else {
        required.saturating_add(1)
    };
    let mut text = String::from_str(alloc, "33D32945 STP File, STP Format Version 1.0\n")?;
    writeln!(&mut text, "SECTION Graph\nNodes {vertices}\nEdges {links}")?;
    put_row(&mut text, row)?;
    writeln!(&mut text, "END\nSECTION Terminals\nTerminals {lines}")?;
    put_required(&mut text, required)?;
    writeln!(&mut text, "{line}\nEND\nEOF")?;
    Ok(text)
}

/// Whether the file of this size is answered by a tree of this cost.
fn is_answered<R: Threads + Wait + Sync>(
    rt: &R,
    alloc: Global,
    size: Size,
    cost: u64,
) -> Result<bool, AllocError> {
    let mut shelf = shelf_with(alloc, file_of(alloc, size)?)?;
    sends_tree(rt, alloc, "few a.stp", &mut shelf, cost)
}

#[test]
fn answers_the_fewest_and_the_most(rt: HostRuntime) -> Result<(), Fail> {
    for (size, cost) in ANSWERED {
        assert!(rt;
            is_answered(&rt, rt.alloc(), *size, *cost)?,
            "for {} {}",
            size.0,
            size.2
        );
    }
    Ok(())
}

/// Whether this is sent for the file of this size.
fn is_told<R: Threads + Wait + Sync>(
    rt: &R,
    alloc: Global,
    size: Size,
    want: (Status, u8, &str),
) -> Result<bool, AllocError> {
    let mut shelf = shelf_with(alloc, file_of(alloc, size)?)?;
    ends(rt, alloc, "few a.stp", &mut shelf, want)
}

#[test]
fn tells_what_is_past_a_limit(rt: HostRuntime) -> Result<(), Fail> {
    for (size, status, code, line) in TOLD {
        let want = (*status, *code, *line);
        assert!(rt;
            is_told(&rt, rt.alloc(), *size, want)?,
            "for {} {}",
            size.0,
            size.2
        );
    }
    Ok(())
}

/// The most vertices beside seven that are required. As large a table for twelve, at 16,384 vertices, has nine times as
/// many sums.
#[test]
fn answers_the_largest_table(rt: HostRuntime) -> Result<(), Fail> {
    assert!(rt; is_answered(&rt, rt.alloc(), (524_288, 7, 7, ""), 18)?);
    Ok(())
}
