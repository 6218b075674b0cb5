use super::{TRIANGLE, answers_as};
use cert_checker::{CheckFault, Verdict};
use log_format::{Kind, LogFault};
use std::test::Fail;

/// A triangle of terminals whose sides cost 3, around a centre at 2 from each.
const NARROW: &str = "33D32945 STP File, STP Format Version 1.0\nSECTION Graph\nNodes 4\nEdges 6\n\
    E 1 4 2\nE 2 4 2\nE 3 4 2\nE 1 2 3\nE 2 3 3\nE 1 3 3\nEND\nSECTION Terminals\nTerminals 3\n\
    T 1\nT 2\nT 3\nEND\nEOF\n";

/// The best tree of the triangle, with steps that use it up.
const USED_UP: &str =
    "STEINERLOG 1\nCLAIM TREE 6 6\nTREE 1 3\nA 1 4\nA 4 2\nA 4 3\nSTEPS 6\nD 1 2 1 4\n\
    D 1 3 1 4\nD 2 3 1 4\nF 1\nF 2\nF 3\nPROOF\nC 0 0\nEND\n";

/// Its steps and its proof.
const REST: &str = "STEPS 6\nD 1 2 1 4\nD 1 3 1 4\nD 2 3 1 4\nF 1\nF 2\nF 3\nPROOF\nC 0 0\n";

/// A path whose vertices all need nothing.
const IDLE: &str = "33D32945 STP File, STP Format Version 1.0\nSECTION Graph\nNodes 3\nEdges 2\n\
    E 1 2 5\nE 2 3 6\nEND\nSECTION Terminals\nTerminals 1\nTP 1 0\nEND\nEOF\n";

/// Two of its vertices go.
const SHORTENED: &str =
    "STEINERLOG 1\nCLAIM TREE 0 0\nTREE 1 0\nSTEPS 2\nH 2\nP 1\nPROOF\nC 0 0\nEND\n";

/// A file, a log, a part of it and what stands there instead, and the verdict.
pub const CONCLUDED: &[(&str, &str, &str, &str, Verdict)] = &[
    (TRIANGLE, USED_UP, "END", "END", Verdict::Optimal(6)),
    (
        TRIANGLE,
        USED_UP,
        "6 6",
        "6 5",
        Verdict::Bound { dual: 5, primal: 6 },
    ),
    (
        TRIANGLE,
        USED_UP,
        "D 2 3 1 4\nF 1\n",
        "F 1\nD 2 3 1 4\n",
        Verdict::Optimal(6),
    ),
    (
        TRIANGLE,
        USED_UP,
        "D 1 2 1 4",
        "D 1 2 3 4 1 4",
        Verdict::Optimal(6),
    ),
    (
        TRIANGLE,
        USED_UP,
        REST,
        "STEPS 1\nD 1 2 1 4\nPROOF\nC 1 3\nU 2 2 1 2\nU 3 2 1 3\nU 2 2 3 2 3 4\n",
        Verdict::Optimal(6),
    ),
    (
        TRIANGLE,
        USED_UP,
        REST,
        "STEPS 3\nD 1 2 1 4\nD 1 3 1 4\nF 1\nPROOF\nC 4 2\nU 2 2 1 2\nU 3 2 1 3\n",
        Verdict::Optimal(6),
    ),
    (IDLE, SHORTENED, "END", "END", Verdict::Optimal(0)),
    (
        IDLE,
        SHORTENED,
        "C 0 0",
        "S 3\nC 0 0\nC 0 0",
        Verdict::Optimal(0),
    ),
];

#[test]
fn concludes_after_steps(rt: HostRuntime) -> Result<(), Fail> {
    for row in CONCLUDED {
        let (stp, log, right, wrong, verdict) = *row;
        assert!(rt;
            answers_as(&rt, stp, log, right, wrong, Ok(verdict))?,
            "at {wrong}"
        );
    }
    Ok(())
}

/// A file, a log, a part of it and what stands there instead, and the fault.
pub const CHANGES: &[(&str, &str, &str, &str, u64, Kind)] = &[
    (NARROW, USED_UP, "END", "END", 8, Kind::BadStep),
    (
        TRIANGLE,
        USED_UP,
        REST,
        "STEPS 7\nD 1 2 1 4\nD 1 3 1 4\nD 2 3 1 4\nF 1\nF 2\nF 3\nF 4\nPROOF\nC 0 0\n",
        14,
        Kind::BadStep,
    ),
    (
        TRIANGLE,
        USED_UP,
        "D 1 2 1 4",
        "D 1 2 2 2 1",
        8,
        Kind::BadStep,
    ),
    (
        TRIANGLE,
        USED_UP,
        "D 1 2 1 4",
        "D 1 2 2 4 4",
        8,
        Kind::BadStep,
    ),
    (
        TRIANGLE,
        USED_UP,
        "D 1 2 1 4",
        "D 1 4 1 2",
        8,
        Kind::BadStep,
    ),
    (
        TRIANGLE,
        USED_UP,
        "D 1 2 1 4",
        "D 4 4 1 1",
        8,
        Kind::BadStep,
    ),
    (
        TRIANGLE,
        USED_UP,
        "D 1 2 1 4",
        "D 1 2 1 1000000",
        8,
        Kind::BadStep,
    ),
    (
        TRIANGLE,
        USED_UP,
        "D 1 2 1 4",
        "D 1000000 2 1 4",
        8,
        Kind::BadStep,
    ),
    (
        TRIANGLE,
        USED_UP,
        "D 1 2 1 4",
        "D 1 2 1 1000001",
        8,
        Kind::BadLine,
    ),
    (TRIANGLE, USED_UP, "D 1 2 1 4", "D 1 2 0", 8, Kind::BadLine),
    (
        TRIANGLE,
        USED_UP,
        "D 1 2 1 4",
        "D 1 2 18446744073709551615 4",
        8,
        Kind::BadLine,
    ),
    (
        TRIANGLE,
        USED_UP,
        "STEPS 6",
        "STEPS 18446744073709551615",
        14,
        Kind::BadLine,
    ),
    (TRIANGLE, USED_UP, "STEPS 6", "STEPS 5", 13, Kind::BadLine),
    (
        TRIANGLE,
        USED_UP,
        "D 1 3 1 4",
        "D 1 3 1 2",
        9,
        Kind::BadStep,
    ),
    (TRIANGLE, USED_UP, "F 1\n", "P 1\n", 11, Kind::BadStep),
    (TRIANGLE, USED_UP, "F 1\n", "F 4\n", 11, Kind::BadStep),
    (TRIANGLE, USED_UP, "F 1\n", "P 4\n", 11, Kind::BadStep),
    (TRIANGLE, USED_UP, "F 1\n", "H 4\n", 11, Kind::BadStep),
    (TRIANGLE, USED_UP, "F 2", "F 1", 12, Kind::BadStep),
    (TRIANGLE, USED_UP, "F 2", "P 1", 12, Kind::BadStep),
    (TRIANGLE, USED_UP, "F 2", "H 1", 12, Kind::BadStep),
    (TRIANGLE, USED_UP, "F 2", "D 1 4 1 2", 12, Kind::BadStep),
    (TRIANGLE, USED_UP, "F 2", "F 1000000", 12, Kind::BadStep),
    (TRIANGLE, USED_UP, "F 3", "P 4", 13, Kind::BadStep),
    (
        TRIANGLE,
        USED_UP,
        "F 2\nF 3\nPROOF\n",
        "P 2\nF 2\nPROOF\nS 4\n",
        17,
        Kind::BadLine,
    ),
    (
        TRIANGLE,
        USED_UP,
        "C 0 0",
        "S 4\nC 0 0\nC 0 0",
        15,
        Kind::BadSplit,
    ),
    (
        TRIANGLE,
        USED_UP,
        "C 0 0",
        "S 1\nC 0 0\nC 0 0",
        15,
        Kind::BadSplit,
    ),
    (
        TRIANGLE,
        USED_UP,
        "C 0 0",
        "C 4 1\nU 1 2 1 1",
        15,
        Kind::BadPacking,
    ),
    (
        TRIANGLE,
        USED_UP,
        REST,
        "STEPS 5\nD 1 2 1 4\nD 1 3 1 4\nD 2 3 1 4\nF 1\nF 2\nPROOF\nC 0 0\n",
        14,
        Kind::TooLight,
    ),
    (
        TRIANGLE,
        USED_UP,
        "A 4 3\nSTEPS 6\nD 1 2 1 4",
        "A 4 2\nSTEPS 6\nF 4",
        3,
        Kind::NotTree,
    ),
    (
        TRIANGLE,
        USED_UP,
        "6 6\nTREE 1 3\nA 1 4\nA 4 2\nA 4 3\nSTEPS 6\nD 1 2 1 4",
        "6 7\nTREE 1 3\nA 1 4\nA 4 2\nA 4 3\nSTEPS 6\nF 4",
        2,
        Kind::DualAbovePrimal,
    ),
    (
        IDLE,
        SHORTENED,
        "STEPS 2\nH 2\nP 1\n",
        "STEPS 3\nH 2\nP 1\nP 3\n",
        7,
        Kind::BadStep,
    ),
    (
        IDLE,
        SHORTENED,
        "C 0 0",
        "S 2\nC 0 0\nC 0 0",
        8,
        Kind::BadSplit,
    ),
];

#[test]
fn refuses_steps_that_fail(rt: HostRuntime) -> Result<(), Fail> {
    for row in CHANGES {
        let (stp, log, right, wrong, line, kind) = *row;
        let fault = Err(CheckFault::Log(LogFault { line, kind }));
        assert!(rt;
            answers_as(&rt, stp, log, right, wrong, fault)?,
            "at {wrong}"
        );
    }
    Ok(())
}
