use amounts::Scale;
use cert_checker::{CheckFault, Checked, Verdict, check};
use log_format::{Kind, LogFault};
use std::alloc::Global;
use std::test::Fail;
use stp_reader::{Reason, StpFault};

mod decimals;
mod directed;
mod drawn;
mod hostile;
mod links;
mod pieces;
mod plain;
mod steps;

/// A triangle of terminals whose sides cost 4, around a centre at 2 from each.
const TRIANGLE: &str =
    "33D32945 STP File, STP Format Version 1.0\nSECTION Graph\nNodes 4\nEdges 6\n\
    E 1 4 2\nE 2 4 2\nE 3 4 2\nE 1 2 4\nE 2 3 4\nE 1 3 4\nEND\nSECTION Terminals\nTerminals 3\n\
    T 1\nT 2\nT 3\nEND\nEOF\n";

/// Its best tree, with a packing of the same value.
const STAR: &str = "STEINERLOG 1\nCLAIM TREE 6 6\nTREE 1 3\nA 1 4\nA 4 2\nA 4 3\nSTEPS 0\nPROOF\n\
    C 1 3\nU 2 2 1 2\nU 3 2 1 3\nU 2 2 3 2 3 4\nEND\n";

/// The close of that log.
const CLOSE: &str = "C 1 3\nU 2 2 1 2\nU 3 2 1 3\nU 2 2 3 2 3 4\n";

/// Two vertices that may be left out for 3 and 4, joined at 5.
const PRIZES: &str = "33D32945 STP File, STP Format Version 1.0\nSECTION Graph\nNodes 2\nEdges 1\n\
    E 1 2 5\nEND\nSECTION Terminals\nTerminals 2\nTP 1 3\nTP 2 4\nEND\nEOF\n";

/// The best tree stays at the second of them, as a split there shows.
const STAYS: &str =
    "STEINERLOG 1\nCLAIM TREE 3 3\nTREE 2 0\nSTEPS 0\nPROOF\nS 2\nC 2 1\nU 1 3 1 1\n\
    C 0 0\nEND\n";

/// Two terminals that aren't joined.
const APART: &str = "33D32945 STP File, STP Format Version 1.0\nSECTION Graph\nNodes 3\nEdges 1\n\
    E 1 2 7\nEND\nSECTION Terminals\nTerminals 2\nT 1\nT 3\nEND\nEOF\n";

/// A log in which one part is changed.
fn changed(rt: &impl AllocGlobal, log: &str, right: &str, wrong: &str) -> Result<String, Fail> {
    let (before, after) = log.split_once(right).ok_or("the log has no such part")?;
    Ok(format!(in rt.alloc(); "{before}{wrong}{after}")?)
}

/// What is answered where no amount of the file has decimals.
fn in_wholes(wanted: Result<Verdict, CheckFault>) -> Result<Checked, CheckFault> {
    let verdict = wanted?;
    let scale = Scale::Whole;
    Ok(Checked { verdict, scale })
}

/// Whether a file without decimals and a log are answered so.
fn is_answered(alloc: Global, stp: &str, log: &str, wanted: Result<Verdict, CheckFault>) -> bool {
    check(alloc, stp.as_bytes(), log.as_bytes()) == in_wholes(wanted)
}

/// The same of a log in which one part is changed.
fn answers_as(
    rt: &impl AllocGlobal,
    stp: &str,
    log: &str,
    right: &str,
    wrong: &str,
    wanted: Result<Verdict, CheckFault>,
) -> Result<bool, Fail> {
    let text = changed(rt, log, right, wrong)?;
    Ok(is_answered(rt.alloc(), stp, text.as_str(), wanted))
}

/// A file, a log, a part of it and what stands there instead, and the verdict.
const CONCLUDED: &[(&str, &str, &str, &str, Verdict)] = &[
    (TRIANGLE, STAR, "END", "END", Verdict::Optimal(6)),
    (
        TRIANGLE,
        STAR,
        "6 6",
        "6 5",
        Verdict::Bound { dual: 5, primal: 6 },
    ),
    (
        TRIANGLE,
        STAR,
        CLOSE,
        "S 4\nC 1 3\nU 2 2 1 2\nU 3 2 1 3\nU 2 2 3 2 3 4\nC 1 2\nU 2 4 1 2\nU 3 4 1 3\n",
        Verdict::Optimal(6),
    ),
    (PRIZES, STAYS, "END", "END", Verdict::Optimal(3)),
    (
        PRIZES,
        STAYS,
        "C 2 1\nU 1 3 1 1\n",
        "S 1\nC 2 1\nU 1 5 1 1\nC 0 0\n",
        Verdict::Optimal(3),
    ),
    (
        PRIZES,
        STAYS,
        "C 0 0\n",
        "S 1\nC 0 0\nC 0 0\n",
        Verdict::Optimal(3),
    ),
    (
        APART,
        "STEINERLOG 1\nCLAIM NONE\nWALL 2 1 2\nEND\n",
        "END",
        "END",
        Verdict::NoTree,
    ),
    (
        APART,
        "STEINERLOG 1\nCLAIM NONE\nWALL 2 1 2\nEND\n",
        "2 1 2",
        "1 3",
        Verdict::NoTree,
    ),
];

#[test]
fn concludes(rt: HostRuntime) -> Result<(), Fail> {
    for row in CONCLUDED {
        let (stp, log, right, wrong, verdict) = *row;
        assert!(rt;
            answers_as(&rt, stp, log, right, wrong, Ok(verdict))?,
            "at {wrong}"
        );
    }
    Ok(())
}

/// A part of the star's log, what stands there instead, and the fault.
const CHANGES: &[(&str, &str, u64, Kind)] = &[
    ("6 6", "6 7", 2, Kind::DualAbovePrimal),
    ("6 6", "7 6", 2, Kind::WrongCost),
    ("6 6", "7 8", 2, Kind::WrongCost),
    (
        "TREE 1 3\nA 1 4\nA 4 2\nA 4 3\n",
        "TREE 1 2\nA 1 4\nA 4 2\n",
        3,
        Kind::NotTree,
    ),
    ("TREE 1 3\nA 1 4\n", "TREE 5 3\nA 1 4\n", 3, Kind::NotTree),
    ("U 2 2 1 2", "U 2 3 1 2", 9, Kind::BadPacking),
    ("U 2 2 1 2", "U 3 2 1 2", 9, Kind::BadPacking),
    ("U 2 2 1 2", "U 2 1 1 2", 9, Kind::TooLight),
    ("C 1 3\n", "C 1 3\nC 1 3\n", 10, Kind::BadLine),
    (
        "END",
        "C 1 3\nU 2 2 1 2\nU 3 2 1 3\nU 2 2 3 2 3 4\nEND",
        13,
        Kind::BadLine,
    ),
    ("END\n", "", 13, Kind::EndsEarly),
    (
        CLOSE,
        "S 1\nC 1 3\nU 2 2 1 2\nU 3 2 1 3\nU 2 2 3 2 3 4\nC 0 0\n",
        9,
        Kind::BadSplit,
    ),
    ("STEINERLOG 1", "STEINERLOG 9", 1, Kind::BadLine),
    ("6 6", "06 6", 2, Kind::BadLine),
    (
        "TREE 1 3\nA 1 4\nA 4 2\n",
        "TREE 1 4\nA 1 4\nA 4 2\nA 4 2\n",
        3,
        Kind::NotTree,
    ),
    ("C 1 3", "C 1 4", 13, Kind::BadLine),
    (
        "U 2 2 1 2",
        "U 2 18446744073709551615 1 2",
        9,
        Kind::BadPacking,
    ),
    ("U 2 2 1 2", "U 2 2 2 2 9", 9, Kind::BadPacking),
    (CLOSE, "S 4\nS 4\nC 0 0\nC 0 0\nC 0 0\n", 10, Kind::BadSplit),
    (
        CLOSE,
        "S 4\nC 1 3\nU 2 2 1 2\nU 3 2 1 3\nU 2 2 3 2 3 4\nC 0 0\n",
        14,
        Kind::TooLight,
    ),
];

#[test]
fn refuses_each_change(rt: HostRuntime) -> Result<(), Fail> {
    for row in CHANGES {
        let (right, wrong, line, kind) = *row;
        let fault = Err(CheckFault::Log(LogFault { line, kind }));
        assert!(rt;
            answers_as(&rt, TRIANGLE, STAR, right, wrong, fault)?,
            "at {wrong}"
        );
    }
    Ok(())
}

#[test]
fn names_the_fault_of_the_file_first(rt: HostRuntime) {
    let stp = "33D32945 STP File, STP Format Version 1.0\nSECTION Graph\n";
    let fault = StpFault {
        line: 3,
        reason: Reason::Unclosed,
    };
    assert!(rt; is_answered(rt.alloc(), stp, "", Err(CheckFault::Stp(fault))));
    let fault = LogFault {
        line: 1,
        kind: Kind::EndsEarly,
    };
    assert!(rt; is_answered(rt.alloc(), TRIANGLE, "", Err(CheckFault::Log(fault))));
}

/// A wall between two terminals that aren't joined, and the verdict or the fault of its line.
const WALLS: &[(&str, Result<Verdict, Kind>)] = &[
    ("2 1 2", Ok(Verdict::NoTree)),
    ("1 3", Ok(Verdict::NoTree)),
    ("2 1 1", Err(Kind::BadLine)),
    ("2 2 2", Err(Kind::BadLine)),
    ("2 1 3", Err(Kind::BadWall)),
    ("2 2 3", Err(Kind::BadWall)),
    ("2 3 4", Err(Kind::BadWall)),
    ("2 0 3", Err(Kind::BadLine)),
];

#[test]
fn judges_walls(rt: HostRuntime) -> Result<(), Fail> {
    let log = "STEINERLOG 1\nCLAIM NONE\nWALL 2 1 2\nEND\n";
    for (wall, answer) in WALLS {
        let wanted = answer.map_err(|kind| CheckFault::Log(LogFault { line: 3, kind }));
        assert!(rt;
            answers_as(&rt, APART, log, "2 1 2", wall, wanted)?,
            "at {wall}"
        );
    }
    Ok(())
}
