use super::{APART, PRIZES, ending_of, ends, file_ends, saves_as, shelf_of, sink_of};
use st_edge::MemoryShelf;
use std::alloc::{AllocError, Global};
use std::sync::Wait;
use std::test::Fail;
use std::thread::Threads;
use steiner_top::Status;

mod alike;
mod limits;

/// Files that have no tree, someone who pays, or a wrong line, and how `few` answers them.
const ANSWERS: &[(&str, Status, u8, &str)] = &[
    (APART, Status::Infeasible, 4, "infeasible\n"),
    (PRIZES, Status::NotFew, 11, "not few 2 Prizes\n"),
    // A fault comes before the answer that there is no tree.
    (
        "H / SECTION Graph / Nodes 3 / Edges 1 / E 1 2 7 / END / SECTION Terminals / Terminals 3 / T 1 / T 3 / TP 2 1 / END / EOF",
        Status::NotFew,
        11,
        "not few 2 Prizes\n",
    ),
    // A terminal doesn't pay.
    (
        "H / SECTION Graph / Nodes 2 / Edges 0 / END / SECTION Terminals / Terminals 3 / T 1 / T 2 / TP 1 4 / END / EOF",
        Status::Infeasible,
        4,
        "infeasible\n",
    ),
    (
        "H / SECTION Graph / Nodes 2 / Arcs 1 / A 1 2 7 / END / EOF",
        Status::RefusedFile,
        5,
        "refused stp 4 13 Directed\n",
    ),
];

#[test]
fn answers_files_of_few_terminals(rt: HostRuntime) -> Result<(), Fail> {
    for (lines, status, code, line) in ANSWERS {
        let want = (*status, *code, *line);
        assert!(rt;
            file_ends(&rt, rt.alloc(), "few a.stp", lines, &[], want)?,
            "for {lines}"
        );
    }
    Ok(())
}

/// A shelf with what these words draw under `a.stp`.
pub fn drawn_shelf<R: Threads + Wait + Sync>(
    rt: &R,
    alloc: Global,
    line: &str,
) -> Result<MemoryShelf, AllocError> {
    let mut shelf = shelf_of(alloc, APART, &[])?;
    let mut drawn = sink_of(alloc)?;
    ending_of(rt, alloc, line, &mut shelf, &mut drawn)?;
    if saves_as(&mut shelf, "a.stp", drawn.bytes()) {
        Ok(shelf)
    } else {
        Err(AllocError)
    }
}

/// Whether a line sends a tree of the shelf's file that costs this, which is verified.
pub fn sends_tree<R: Threads + Wait + Sync>(
    rt: &R,
    alloc: Global,
    line: &str,
    shelf: &mut MemoryShelf,
    cost: u64,
) -> Result<bool, AllocError> {
    let mut out = sink_of(alloc)?;
    let status = ending_of(rt, alloc, line, shelf, &mut out)?.status;
    let is_saved = saves_as(shelf, "b", out.bytes());
    Ok(is_saved && status == Status::Optimal && is_verified(rt, alloc, shelf, cost)?)
}

/// Whether the solution that was saved is a tree of the shelf's file that costs this.
fn is_verified<R: Threads + Wait + Sync>(
    rt: &R,
    alloc: Global,
    shelf: &mut MemoryShelf,
    cost: u64,
) -> Result<bool, AllocError> {
    let line = format!(in alloc; "tree {cost}\n")?;
    let want = (Status::Optimal, 0, line.as_str());
    ends(rt, alloc, "verify a.stp b", shelf, want)
}

/// Whether what these words draw is answered so.
fn drawn_ends<R: Threads + Wait + Sync>(
    rt: &R,
    alloc: Global,
    line: &str,
    want: (Status, u8, &str),
) -> Result<bool, AllocError> {
    let mut shelf = drawn_shelf(rt, alloc, line)?;
    ends(rt, alloc, "few a.stp", &mut shelf, want)
}

#[test]
fn tells_too_many_terminals(rt: HostRuntime) -> Result<(), Fail> {
    let want = (Status::NotFew, 11, "not few 1 TooMany\n");
    assert!(rt; drawn_ends(&rt, rt.alloc(), "gen 1 13 12 13", want)?);
    Ok(())
}
