use super::solves::STAR;
use super::{APART, LINK, SMALL_PRIZES, TRIANGLE, ends, saves_as, shelf_of};
use std::alloc::{AllocError, Global};
use std::sync::Wait;
use std::test::Fail;
use std::thread::Threads;
use steiner_top::Status;

/// The solution of the link of cost 5.5.
const LINKED: &str =
    "33D32945 STP File, STP Format Version 1.0\nSECTION Comment\nName \"a.stp\"\nProgram \"steiner\"\nRemark \"optimal\"\nEND\nSECTION Solutions\nSolution 0 5.5\nEND\nSECTION Run\nThreads 1\nTime 0\nDual 5.5\nPrimal 5.5\nEND\nSECTION Finalsolution\nVertices 2\nV 1\nV 2\nEdges 1\nE 1 2\nEND\nEOF\n";

/// The text of a solution in which one part is changed.
fn changed(
    alloc: Global,
    solution: &str,
    right: &str,
    wrong: &str,
) -> Result<Option<String>, AllocError> {
    match solution.split_once(right) {
        Some((before, after)) => Ok(Some(format!(in alloc; "{before}{wrong}{after}")?)),
        None => Ok(None),
    }
}

/// Whether a solution is answered so beside a file.
fn answers_solution<R: Threads + Wait + Sync>(
    rt: &R,
    alloc: Global,
    file: &str,
    solution: &str,
    want: (Status, u8, &str),
) -> Result<bool, AllocError> {
    let mut shelf = shelf_of(alloc, file, &[])?;
    let is_saved = saves_as(&mut shelf, "b", solution.as_bytes());
    Ok(is_saved && ends(rt, alloc, "verify a.stp b", &mut shelf, want)?)
}

/// Whether a solution beside a file is answered so, where one part is changed.
fn answers_change<R: Threads + Wait + Sync>(
    rt: &R,
    alloc: Global,
    file: &str,
    solution: &str,
    change: (&str, &str),
    want: (Status, u8, &str),
) -> Result<bool, AllocError> {
    let (right, wrong) = change;
    match changed(alloc, solution, right, wrong)? {
        Some(solution) => answers_solution(rt, alloc, file, &solution, want),
        None => Ok(false),
    }
}

/// A part of the triangle's solution, what stands there instead, and the answer.
const ANSWERS: &[(&str, &str, Status, u8, &str)] = &[
    ("EOF\n", "EOF\n", Status::Optimal, 0, "tree 6\n"),
    (
        "Primal 6",
        "Primal 6.000000",
        Status::Optimal,
        0,
        "tree 6\n",
    ),
    (
        "Primal 6",
        "Primal 6.0000001",
        Status::Optimal,
        0,
        "tree 6\n",
    ),
    (
        "Primal 6",
        "Primal 7",
        Status::NotTree,
        12,
        "not a tree 8 CostDiffers\n",
    ),
    (
        "Primal 6",
        "Primal 6.5",
        Status::NotTree,
        12,
        "not a tree 8 CostDiffers\n",
    ),
    (
        "Edges 3\nE 1 4\nE 2 4\nE 3 4\n",
        "Edges 2\nE 1 4\nE 2 4\n",
        Status::NotTree,
        12,
        "not a tree 5 NotConnected\n",
    ),
    (
        "Edges 3\nE 1 4\n",
        "Edges 4\nE 3 1\nE 1 4\n",
        Status::NotTree,
        12,
        "not a tree 6 Cycle\n",
    ),
    (
        "E 3 4\n",
        "E 4 2\n",
        Status::NotTree,
        12,
        "not a tree 4 Repeated\n",
    ),
    (
        "E 3 4\n",
        "E 3 3\n",
        Status::NotTree,
        12,
        "not a tree 3 NoLink\n",
    ),
    (
        "E 3 4\n",
        "E 0 4\n",
        Status::NotTree,
        12,
        "not a tree 2 OutOfRange\n",
    ),
    (
        "Vertices 4\nV 1\nV 2\nV 3\nV 4\nEdges 3\nE 1 4\nE 2 4\nE 3 4\n",
        "V 1\nE 1 4\nE 2 4\n",
        Status::NotTree,
        12,
        "not a tree 7 Missing\n",
    ),
    (
        "Vertices 4\nV 1\nV 2\nV 3\nV 4\nEdges 3\nE 1 4\nE 2 4\nE 3 4\n",
        "",
        Status::NotTree,
        12,
        "not a tree 1 Empty\n",
    ),
    (
        "E 1 4\nE 2 4\nE 3 4\nEND\nEOF\n",
        "",
        Status::RefusedSolution,
        13,
        "refused solution 23 6 Unclosed\n",
    ),
    (
        "Edges 3\n",
        "Edges 4\n",
        Status::RefusedSolution,
        13,
        "refused solution 26 5 CountMismatch\n",
    ),
];

#[test]
fn answers_solutions(rt: HostRuntime) -> Result<(), Fail> {
    for (right, wrong, status, code, line) in ANSWERS {
        let want = (*status, *code, *line);
        assert!(rt;
            answers_change(&rt, rt.alloc(), TRIANGLE, STAR, (right, wrong), want)?,
            "at {wrong}"
        );
    }
    Ok(())
}

/// A part of the link's solution, what stands there instead, and the answer.
const LINK_ANSWERS: &[(&str, &str, Status, u8, &str)] = &[
    ("EOF\n", "EOF\n", Status::Optimal, 0, "tree 5.5\n"),
    (
        "Primal 5.5",
        "Primal 5.5000000",
        Status::Optimal,
        0,
        "tree 5.5\n",
    ),
    (
        "Primal 5.5",
        "Primal 5.5000001",
        Status::Optimal,
        0,
        "tree 5.5\n",
    ),
    (
        "Primal 5.5",
        "Primal 5",
        Status::NotTree,
        12,
        "not a tree 8 CostDiffers\n",
    ),
    (
        "Primal 5.5",
        "Primal 5.500001",
        Status::NotTree,
        12,
        "not a tree 8 CostDiffers\n",
    ),
    (
        "Primal 5.5",
        "Primal 5500000",
        Status::NotTree,
        12,
        "not a tree 8 CostDiffers\n",
    ),
    (
        "Edges 1\nE 1 2\n",
        "",
        Status::NotTree,
        12,
        "not a tree 5 NotConnected\n",
    ),
];

#[test]
fn answers_solutions_with_decimals(rt: HostRuntime) -> Result<(), Fail> {
    for (right, wrong, status, code, line) in LINK_ANSWERS {
        let want = (*status, *code, *line);
        assert!(rt;
            answers_change(&rt, rt.alloc(), LINK, LINKED, (right, wrong), want)?,
            "at {wrong}"
        );
    }
    Ok(())
}

/// A file that isn't that of the solution, one that is refused before the solution is looked at, and one with decimals
/// beside solutions that state no primal.
const FILES: &[(&str, &str, Status, u8, &str)] = &[
    (
        APART,
        STAR,
        Status::NotTree,
        12,
        "not a tree 2 OutOfRange\n",
    ),
    (
        "H",
        "",
        Status::RefusedFile,
        5,
        "refused stp 2 15 NoGraph\n",
    ),
    (
        SMALL_PRIZES,
        "SECTION Finalsolution\nV 1\nEND\n",
        Status::Optimal,
        0,
        "tree 0.2\n",
    ),
    (
        SMALL_PRIZES,
        "SECTION Finalsolution\nV 1\nV 2\nE 1 2\nEND\n",
        Status::Optimal,
        0,
        "tree 0.25\n",
    ),
];

#[test]
fn answers_solutions_of_other_files(rt: HostRuntime) -> Result<(), Fail> {
    for (file, solution, status, code, line) in FILES {
        let want = (*status, *code, *line);
        assert!(rt;
            answers_solution(&rt, rt.alloc(), file, solution, want)?,
            "for {file}"
        );
    }
    Ok(())
}
