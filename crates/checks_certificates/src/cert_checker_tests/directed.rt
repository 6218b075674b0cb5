//! Logs of directed problems.
ghost use Rattle.std.specs.Prelude.{◌≡◌, length};

use super::{STAR, TRIANGLE, changed, in_wholes};
use amounts::Scale;
use arborescence::DiInstance;
use cert_checker::{CheckFault, Checker, Posed, Verdict, check, check_file};
use log_format::{Kind, LogFault};
use st_model::Link;
use std::alloc::{AllocError, Global};
use std::test::Fail;
use stp_reader::{Reason, StpFault};

/// From 1 to 2 at 4, and back at 1, and from 2 to 3 at 3.
const ARCS: [Link; 3] = [
    Link {
        a: 1,
        b: 2,
        cost: 4,
    },
    Link {
        a: 2,
        b: 1,
        cost: 1,
    },
    Link {
        a: 2,
        b: 3,
        cost: 3,
    },
];

/// From root 1 the best tree leads along all three vertices, with a packing of the same value.
const ALONG: &str = "STEINERLOG 2\nCLAIM TREE 7 7\nTREE 1 2\nA 1 2\nA 2 3\nSTEPS 0\nPROOF\nC 1 2\n\
    U 3 3 1 3\nU 3 4 2 2 3\nEND\n";

/// The proof of that log.
const CLOSE: &str = "C 1 2\nU 3 3 1 3\nU 3 4 2 2 3\n";

/// The same, split at vertex 2, without which no arc enters 3.
const SPLIT: &str = "STEINERLOG 1\nCLAIM TREE 7 7\nTREE 1 2\nA 1 2\nA 2 3\nSTEPS 0\nPROOF\nS 2\n\
    C 1 2\nU 3 3 1 3\nU 3 4 2 2 3\nC 1 1\nU 3 7 1 3\nEND\n";

/// No arc leaves root 3.
const WALL: &str = "STEINERLOG 1\nCLAIM NONE\nWALL 1 3\nEND\n";

/// The three vertices with this root, of which 1 and 3 are terminals.
fn line_from(alloc: Global, root: u32) -> Result<DiInstance, AllocError> {
    let root = if root == 3 { 3 } else { 1 };
    DiInstance::build(alloc, 3, root, &ARCS, &[1, 3])
}

/// A checker on a directed instance, to which nothing was fed.
fn begun(alloc: Global, instance: DiInstance) -> Checker
    ensures { length result.text ≡ 0 }
{
    Checker::on(alloc, Posed::Directed(instance), Scale::Whole)
}

/// Whether a log of them is answered so.
fn is_answered(
    alloc: Global,
    root: u32,
    log: &str,
    wanted: Result<Verdict, CheckFault>,
) -> Result<bool, AllocError> {
    let checker = begun(alloc, line_from(alloc, root)?);
    let checker = checker.feed(log.as_bytes())?;
    Ok(checker.finish() == in_wholes(wanted))
}

/// The same of a log in which one part is changed.
fn answers_as(
    rt: &impl AllocGlobal,
    root: u32,
    log: &str,
    right: &str,
    wrong: &str,
    wanted: Result<Verdict, CheckFault>,
) -> Result<bool, Fail> {
    let text = changed(rt, log, right, wrong)?;
    Ok(is_answered(rt.alloc(), root, text.as_str(), wanted)?)
}

/// A root, a log, a part of it and what stands there instead, and the verdict.
const CONCLUDED: &[(u32, &str, &str, &str, Verdict)] = &[
    (1, ALONG, "END", "END", Verdict::Optimal(7)),
    (1, ALONG, "LOG 2", "LOG 1", Verdict::Optimal(7)),
    (
        1,
        ALONG,
        "7 7",
        "7 5",
        Verdict::Bound { dual: 5, primal: 7 },
    ),
    (1, SPLIT, "END", "END", Verdict::Optimal(7)),
    (1, SPLIT, "LOG 1", "LOG 2", Verdict::Optimal(7)),
    (1, SPLIT, "U 3 7", "U 3 8", Verdict::Optimal(7)),
    // A vertex that is inside may be named.
    (1, SPLIT, "U 3 4 2 2 3", "U 2 4 2 2 3", Verdict::Optimal(7)),
    (
        1,
        SPLIT,
        "7 7\nTREE 1 2\nA 1 2\nA 2 3\nSTEPS 0\nPROOF\nS 2\nC 1 2\nU 3 3 1 3\nU 3 4 2 2 3\n",
        "7 0\nTREE 1 2\nA 1 2\nA 2 3\nSTEPS 0\nPROOF\nS 2\nC 0 0\n",
        Verdict::Bound { dual: 0, primal: 7 },
    ),
    (3, WALL, "END", "END", Verdict::NoTree),
    (3, WALL, "LOG 1", "LOG 2", Verdict::NoTree),
];

#[test]
fn concludes_of_directed_problems(rt: HostRuntime) -> Result<(), Fail> {
    for row in CONCLUDED {
        let (root, log, right, wrong, verdict) = *row;
        assert!(rt;
            answers_as(&rt, root, log, right, wrong, Ok(verdict))?,
            "at {wrong}"
        );
    }
    Ok(())
}

/// A root, a log, a part of it and what stands there instead, and the fault.
const CHANGES: &[(u32, &str, &str, &str, u64, Kind)] = &[
    // A start other than the root, and arcs the other way.
    (
        1,
        ALONG,
        "TREE 1 2\nA 1 2\nA 2 3",
        "TREE 2 1\nA 2 3",
        3,
        Kind::NotTree,
    ),
    (
        1,
        ALONG,
        "TREE 1 2\nA 1 2\nA 2 3",
        "TREE 2 2\nA 2 1\nA 2 3",
        3,
        Kind::NotTree,
    ),
    (
        1,
        ALONG,
        "TREE 1 2\nA 1 2\nA 2 3",
        "TREE 3 2\nA 3 2\nA 2 1",
        3,
        Kind::NotTree,
    ),
    (
        1,
        ALONG,
        "TREE 1 2\nA 1 2\nA 2 3",
        "TREE 1 0",
        3,
        Kind::NotTree,
    ),
    (
        1,
        ALONG,
        "TREE 1 2\nA 1 2\nA 2 3",
        "TREE 4 0",
        3,
        Kind::NotTree,
    ),
    (1, ALONG, "A 2 3", "A 1 3", 3, Kind::NotTree),
    (1, ALONG, "7 7", "6 6", 2, Kind::WrongCost),
    (1, ALONG, "7 7", "7 8", 2, Kind::DualAbovePrimal),
    // Any step.
    (1, ALONG, "STEPS 0", "STEPS 1\nP 2", 7, Kind::BadStep),
    (1, ALONG, "STEPS 0", "STEPS 1\nH 2", 7, Kind::BadStep),
    (1, ALONG, "STEPS 0", "STEPS 2\nF 3\nP 2", 7, Kind::BadStep),
    (1, ALONG, "STEPS 0", "STEPS 1\nD 1 3 1 2", 7, Kind::BadStep),
    // Splits at a link, at the root, at a terminal, at no vertex and twice.
    (1, ALONG, CLOSE, "L 1 2\nC 0 0\nC 0 0\n", 8, Kind::BadSplit),
    (1, SPLIT, "S 2", "L 1 2", 8, Kind::BadLine),
    (1, SPLIT, "S 2", "S 1", 8, Kind::BadSplit),
    (1, SPLIT, "S 2", "S 3", 8, Kind::BadSplit),
    (1, SPLIT, "S 2", "S 4", 8, Kind::BadSplit),
    (
        1,
        SPLIT,
        "C 1 1\nU 3 7 1 3\n",
        "S 2\nC 0 0\nC 0 0\n",
        12,
        Kind::BadSplit,
    ),
    // A root of a packing that isn't the file's, or none.
    (1, ALONG, "C 1 2", "C 3 2", 8, Kind::BadPacking),
    (1, ALONG, "C 1 2", "C 2 2", 8, Kind::BadPacking),
    (1, ALONG, "C 1 2", "C 0 2", 8, Kind::BadPacking),
    (1, ALONG, CLOSE, "C 2 0\n", 8, Kind::BadPacking),
    (1, ALONG, CLOSE, "C 3 0\n", 8, Kind::BadPacking),
    (1, ALONG, CLOSE, "C 1 0\n", 8, Kind::TooLight),
    (1, ALONG, CLOSE, "C 0 0\n", 8, Kind::TooLight),
    // A cut that holds the root, or names a vertex that may be left out, at 0 too.
    (
        1,
        ALONG,
        "U 3 4 2 2 3",
        "U 3 4 3 1 2 3",
        8,
        Kind::BadPacking,
    ),
    (1, ALONG, "U 3 4 2 2 3", "U 2 4 2 2 3", 8, Kind::BadPacking),
    (1, ALONG, "U 3 4 2 2 3", "U 2 0 2 2 3", 8, Kind::BadPacking),
    (1, ALONG, "U 3 4 2 2 3", "U 1 4 2 2 3", 8, Kind::BadPacking),
    (
        1,
        ALONG,
        "U 3 4 2 2 3",
        "U 3 4 3 2 3 4",
        8,
        Kind::BadPacking,
    ),
    (1, ALONG, "U 3 3", "U 3 4", 8, Kind::BadPacking),
    (1, ALONG, "U 3 3", "U 3 2", 8, Kind::TooLight),
    (1, SPLIT, "U 3 7", "U 3 6", 12, Kind::TooLight),
    // Walls without the root, with both terminals, out of range and left by an arc.
    (1, WALL, "END", "END", 3, Kind::BadWall),
    (3, WALL, "1 3", "1 1", 3, Kind::BadWall),
    (3, WALL, "1 3", "2 1 3", 3, Kind::BadWall),
    (3, WALL, "1 3", "2 3 4", 3, Kind::BadWall),
    (3, WALL, "1 3", "2 2 3", 3, Kind::BadWall),
    (1, WALL, "1 3", "1 1", 3, Kind::BadWall),
];

#[test]
fn refuses_what_is_wrong_of_directed_problems(rt: HostRuntime) -> Result<(), Fail> {
    for row in CHANGES {
        let (root, log, right, wrong, line, kind) = *row;
        let wanted = Err(CheckFault::Log(LogFault { line, kind }));
        assert!(rt;
            answers_as(&rt, root, log, right, wrong, wanted)?,
            "at {wrong}"
        );
    }
    Ok(())
}

/// The line from root 1, as a file.
const FILE: &str = "33D32945 STP File, STP Format Version 1.0\nSECTION Graph\nNodes 3\nArcs 3\n\
    A 1 2 4\nA 2 1 1\nA 2 3 3\nEND\nSECTION Terminals\nTerminals 2\nRoot 1\nT 1\nT 3\nEND\nEOF\n";

/// Whether a file in which one part is changed and a log are answered so, where files of both kinds are read.
fn file_answers_as(
    rt: &impl AllocGlobal,
    right: &str,
    wrong: &str,
    log: &str,
    wanted: Result<Verdict, CheckFault>,
) -> Result<bool, Fail> {
    let file = changed(rt, FILE, right, wrong)?;
    let answer = check_file(rt.alloc(), file.as_bytes(), log.as_bytes());
    Ok(answer == in_wholes(wanted))
}

/// A part of the file and what stands there instead, a log, and the verdict.
const READ: &[(&str, &str, &str, Verdict)] = &[
    ("EOF", "EOF", ALONG, Verdict::Optimal(7)),
    ("A 2 1 1", "A 1 2 9", ALONG, Verdict::Optimal(7)),
    ("Root 1", "Root 3", WALL, Verdict::NoTree),
];

#[test]
fn reads_directed_files(rt: HostRuntime) -> Result<(), Fail> {
    for row in READ {
        let (right, wrong, log, verdict) = *row;
        assert!(rt;
            file_answers_as(&rt, right, wrong, log, Ok(verdict))?,
            "at {wrong}"
        );
    }
    let fault = CheckFault::Stp(StpFault {
        line: 13,
        reason: Reason::NoRoot,
    });
    assert!(rt; file_answers_as(&rt, "Root 1\n", "", ALONG, Err(fault))?);
    Ok(())
}

/// Whether a file of links is answered as by `check`, which refuses the directed one.
fn reads_links_alike(alloc: Global) -> bool {
    let directed = StpFault {
        line: 4,
        reason: Reason::Directed,
    };
    let links = check_file(alloc, TRIANGLE.as_bytes(), STAR.as_bytes());
    links == check(alloc, TRIANGLE.as_bytes(), STAR.as_bytes())
        && links == in_wholes(Ok(Verdict::Optimal(6)))
        && check(alloc, FILE.as_bytes(), ALONG.as_bytes()) == Err(CheckFault::Stp(directed))
}

#[test]
fn reads_files_of_links_alike(rt: HostRuntime) {
    assert!(rt; reads_links_alike(rt.alloc()));
}
