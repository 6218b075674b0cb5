use super::pieces::is_refused;
use super::{CLOSE, TRIANGLE, is_answered};
use cert_checker::{CheckFault, Verdict};
use log_format::{Kind, LogFault};
use std::alloc::{AllocError, Global};
use std::test::Fail;

/// What stands before and after a detour that takes a side of the triangle.
const BEFORE: &str = "STEINERLOG 1\nCLAIM TREE 6 6\nTREE 1 3\nA 1 4\nA 4 2\nA 4 3\nSTEPS 1\nD 1 2 ";

const AFTER: &str = "\nPROOF\nC 1 3\nU 2 2 1 2\nU 3 2 1 3\nU 2 2 3 2 3 4\nEND\n";

/// Writes the log of a detour from 1 that goes to the centre and back this often, and then on.
fn write_winding(text: &mut String, count: &str, turns: u32, last: &str) -> Result<(), AllocError> {
    text.push_str(BEFORE)?;
    text.push_str(count)?;
    for _turn in 0..turns {
        text.push_str(" 4 1")?;
    }
    text.push_str(last)?;
    text.push_str(AFTER)
}

/// Whether that log is answered so.
fn answers_winding(
    alloc: Global,
    count: &str,
    turns: u32,
    last: &str,
    wanted: Result<Verdict, CheckFault>,
) -> Result<bool, AllocError> {
    let mut log = String::new(alloc);
    write_winding(&mut log, count, turns, last)?;
    Ok(is_answered(alloc, TRIANGLE, log.as_str(), wanted))
}

// Each piece costs as much as the side: there are walks of any length.
#[test]
fn follows_a_long_detour(rt: HostRuntime) -> Result<(), Fail> {
    let best = Ok(Verdict::Optimal(6));
    assert!(rt; answers_winding(rt.alloc(), "999999", 499_999, " 4", best)?);
    Ok(())
}

// The last step of the walk would be the side itself.
#[test]
fn refuses_a_long_detour(rt: HostRuntime) -> Result<(), Fail> {
    let fault = LogFault {
        line: 8,
        kind: Kind::BadStep,
    };
    let refused = Err(CheckFault::Log(fault));
    assert!(rt; answers_winding(rt.alloc(), "1000000", 500_000, "", refused)?);
    Ok(())
}

/// The lines before the tree of the star's log.
const BEFORE_TREE: &str = "STEINERLOG 1\nCLAIM TREE 6 6\n";

/// Those before its steps.
const BEFORE_STEPS: &str = "STEINERLOG 1\nCLAIM TREE 6 6\nTREE 1 3\nA 1 4\nA 4 2\nA 4 3\n";

/// Those before its proof.
const BEFORE_PROOF: &str =
    "STEINERLOG 1\nCLAIM TREE 6 6\nTREE 1 3\nA 1 4\nA 4 2\nA 4 3\nSTEPS 0\nPROOF\n";

/// A text of the triangle's log that states more than it holds, holds nothing or ends within a line, and the fault.
const TEXTS: &[(&str, &str, u64, Kind)] = &[
    (
        BEFORE_TREE,
        "TREE 1 18446744073709551615\nA 1 4\n",
        5,
        Kind::EndsEarly,
    ),
    (
        BEFORE_TREE,
        "TREE 1 18446744073709551615\nA 1 4\nSTEPS 0\n",
        5,
        Kind::BadLine,
    ),
    (
        BEFORE_TREE,
        "TREE 1 18446744073709551616\nA 1 4\n",
        3,
        Kind::BadLine,
    ),
    (
        BEFORE_STEPS,
        "STEPS 18446744073709551615\n",
        8,
        Kind::EndsEarly,
    ),
    (
        BEFORE_STEPS,
        "STEPS 18446744073709551615\nPROOF\nC 0 0\nEND\n",
        8,
        Kind::BadLine,
    ),
    (
        BEFORE_STEPS,
        "STEPS 18446744073709551616\n",
        7,
        Kind::BadLine,
    ),
    (
        BEFORE_PROOF,
        "C 1 18446744073709551615\nU 2 2 1 2\n",
        11,
        Kind::EndsEarly,
    ),
    (
        BEFORE_PROOF,
        "C 1 18446744073709551615\nU 2 2 1 2\nEND\n",
        11,
        Kind::BadLine,
    ),
    (BEFORE_PROOF, "C 1 18446744073709551616\n", 9, Kind::BadLine),
    (
        BEFORE_PROOF,
        "C 1 1\nU 2 2 18446744073709551615 2\nEND\n",
        10,
        Kind::BadLine,
    ),
    (
        "STEINERLOG 1\nCLAIM NONE\n",
        "WALL 18446744073709551615 1 2\nEND\n",
        3,
        Kind::BadLine,
    ),
    ("STEINERLOG 1", " \nCLAIM NONE\n", 1, Kind::BadLine),
    (
        "",
        "w w w w w w w w w w w w w w w w w w w w w w w w w w w w w w w w w w w w w w w w\n",
        1,
        Kind::BadLine,
    ),
    ("", "", 1, Kind::EndsEarly),
    ("", "\n", 1, Kind::BadLine),
    ("", "\n\n\n\n", 1, Kind::BadLine),
    ("STEINERLOG 1\n", "\n\n", 2, Kind::BadLine),
    ("", "STEIN", 1, Kind::EndsEarly),
    (BEFORE_PROOF, CLOSE, 13, Kind::EndsEarly),
    (
        BEFORE_PROOF,
        "C 1 3\nU 2 2 1 2\nU 3 2 1 3\nU 2 2 3 2 3 4\nEN",
        13,
        Kind::EndsEarly,
    ),
];

#[test]
fn refuses_hostile_texts_in_pieces(rt: HostRuntime) -> Result<(), Fail> {
    for row in TEXTS {
        let (first, rest, line, kind) = *row;
        assert!(rt;
            is_refused(&rt, first, rest, LogFault { line, kind })?,
            "at {first}{rest}"
        );
    }
    Ok(())
}
