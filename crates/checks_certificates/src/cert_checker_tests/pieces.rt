//! Logs that come in pieces are answered as whole ones.
ghost use Rattle.std.specs.Prelude.{◌≡◌, ◌+◌, ◌≤◌, ◌<◌, ◌^◌, length, IfOk};

use super::{CHANGES, CONCLUDED, PRIZES, STAR, TRIANGLE, changed, steps};
use cert_checker::{CheckFault, Checked, Checker, check};
use log_format::{Kind, LogFault};
use std::alloc::AllocError;
use std::test::Fail;

/// A checker on a file, to which nothing was fed.
fn begun(rt: &impl AllocGlobal, stp: &str) -> Result<Checker, Fail>
    ensures { IfOk result (λ c. length c.text ≡ 0) }
{
    let checker = Checker::begin(rt.alloc(), stp.as_bytes())?;
    Ok(checker)
}

/// The checker to which a text was fed in pieces of so many bytes.
fn fed_by(checker: Checker, text: &[u8], size: usize) -> Result<Checker, AllocError>
    requires some { 1 ≤ size }
    requires few { length checker.text + length text.now < 2 ^ 63 }
{
    let mut checker = checker;
    let mut rest = text;
    while rest.len() > size {
        let (piece, after) = rest.split_at(size);
        checker = checker.feed(piece)?;
        rest = after;
    }
    checker.feed(rest)
}

/// The checker to which a text was fed in two pieces.
fn fed_two(checker: Checker, text: &[u8], place: usize) -> Result<Checker, AllocError>
    requires inside { place ≤ length text.now }
    requires few { length checker.text + length text.now < 2 ^ 63 }
{
    let (first, second) = text.split_at(place);
    let checker = checker.feed(first)?;
    checker.feed(second)
}

/// Whether a log is answered so in pieces of so many bytes.
fn is_answered_by(
    rt: &impl AllocGlobal,
    stp: &str,
    log: &[u8],
    size: usize,
    wanted: Result<Checked, CheckFault>,
) -> Result<bool, Fail>
    requires { 1 ≤ size }
{
    let checker = begun(rt, stp)?;
    let checker = fed_by(checker, log, size)?;
    Ok(checker.finish() == wanted)
}

/// Whether a log is answered so in two pieces.
fn is_answered_in_two(
    rt: &impl AllocGlobal,
    stp: &str,
    log: &[u8],
    place: usize,
    wanted: Result<Checked, CheckFault>,
) -> Result<bool, Fail>
    requires { place ≤ length log.now }
{
    let checker = begun(rt, stp)?;
    let checker = fed_two(checker, log, place)?;
    Ok(checker.finish() == wanted)
}

/// Whether a log is answered so in pieces of 1, 2, 3, 7 and 64 bytes.
fn answers_by(
    rt: &impl AllocGlobal,
    stp: &str,
    log: &[u8],
    wanted: Result<Checked, CheckFault>,
) -> Result<bool, Fail> {
    for less in [0, 1, 2, 6, 63] {
        if !is_answered_by(rt, stp, log, less + 1, wanted)? {
            return Ok(false);
        }
    }
    Ok(true)
}

/// Whether a log is answered so wherever it is cut into two.
fn answers_in_two(
    rt: &impl AllocGlobal,
    stp: &str,
    log: &[u8],
    wanted: Result<Checked, CheckFault>,
) -> Result<bool, Fail> {
    for place in 0..log.len() {
        if !is_answered_in_two(rt, stp, log, place, wanted)? {
            return Ok(false);
        }
    }
    Ok(true)
}

/// Whether a log is answered so however it is cut into pieces.
pub fn answers_in_pieces(
    rt: &impl AllocGlobal,
    stp: &str,
    log: &[u8],
    wanted: Result<Checked, CheckFault>,
) -> Result<bool, Fail> {
    Ok(answers_by(rt, stp, log, wanted)? && answers_in_two(rt, stp, log, wanted)?)
}

/// Whether a log in pieces is answered as whole.
fn is_answered_alike(rt: &impl AllocGlobal, stp: &str, log: &[u8]) -> Result<bool, Fail> {
    let wanted = check(rt.alloc(), stp.as_bytes(), log);
    answers_in_pieces(rt, stp, log, wanted)
}

/// The same of a log in which one part is changed.
fn is_alike_with(
    rt: &impl AllocGlobal,
    stp: &str,
    log: &str,
    right: &str,
    wrong: &str,
) -> Result<bool, Fail> {
    let text = changed(rt, log, right, wrong)?;
    is_answered_alike(rt, stp, text.as_bytes())
}

#[test]
fn concludes_in_pieces(rt: HostRuntime) -> Result<(), Fail> {
    for row in CONCLUDED {
        let (stp, log, right, wrong, _) = *row;
        assert!(rt; is_alike_with(&rt, stp, log, right, wrong)?, "at {wrong}");
    }
    for row in steps::CONCLUDED {
        let (stp, log, right, wrong, _) = *row;
        assert!(rt; is_alike_with(&rt, stp, log, right, wrong)?, "at {wrong}");
    }
    Ok(())
}

#[test]
fn refuses_each_change_in_pieces(rt: HostRuntime) -> Result<(), Fail> {
    for row in CHANGES {
        let (right, wrong, _, _) = *row;
        assert!(rt;
            is_alike_with(&rt, TRIANGLE, STAR, right, wrong)?,
            "at {wrong}"
        );
    }
    Ok(())
}

#[test]
fn refuses_steps_in_pieces(rt: HostRuntime) -> Result<(), Fail> {
    for row in steps::CHANGES {
        let (stp, log, right, wrong, _, _) = *row;
        assert!(rt; is_alike_with(&rt, stp, log, right, wrong)?, "at {wrong}");
    }
    Ok(())
}

/// The first nine lines of the star's log.
const NINE: &str =
    "STEINERLOG 1\nCLAIM TREE 6 6\nTREE 1 3\nA 1 4\nA 4 2\nA 4 3\nSTEPS 0\nPROOF\nC 1 3\n";

/// A text of the triangle's log that isn't whole or goes on, and the fault.
const TEXTS: &[(&str, &str, u64, Kind)] = &[
    (NINE, "", 10, Kind::EndsEarly),
    (NINE, "U 2 2 1 2", 10, Kind::EndsEarly),
    (
        NINE,
        "U 2 2 1 2\nU 3 2 1 3\nU 2 2 3 2 3 4\nEND",
        13,
        Kind::EndsEarly,
    ),
    (
        NINE,
        "U 2 2 1 2\nU 3 2 1 3\nU 2 2 3 2 3 4\nEND\nx",
        14,
        Kind::BadLine,
    ),
    (
        NINE,
        "U 2 2 1 2\nU 3 2 1 3\nU 2 2 3 2 3 4\nEND\n\n",
        14,
        Kind::BadLine,
    ),
    (
        NINE,
        "U 2 9 1 2\nU 3 2 1 3\nU 2 2 3 2 3 4\nEND\nx",
        14,
        Kind::BadLine,
    ),
    (
        NINE,
        "U 2 9 1 2\nU 3 2 1 3\nU 2 2 3 2 3 4\nEND \nEND\n",
        13,
        Kind::BadLine,
    ),
];

/// Whether a log is refused so, in pieces and as whole.
fn is_log_refused(rt: &impl AllocGlobal, log: &[u8], fault: LogFault) -> Result<bool, Fail> {
    let wanted = Err(CheckFault::Log(fault));
    Ok(is_answered_by(rt, TRIANGLE, log, 1, wanted)? && is_answered_alike(rt, TRIANGLE, log)?)
}

/// The same of a text in two parts.
pub fn is_refused(
    rt: &impl AllocGlobal,
    first: &str,
    rest: &str,
    fault: LogFault,
) -> Result<bool, Fail> {
    let text = format!(in rt.alloc(); "{first}{rest}")?;
    is_log_refused(rt, text.as_bytes(), fault)
}

#[test]
fn names_faults_of_the_text_first(rt: HostRuntime) -> Result<(), Fail> {
    for row in TEXTS {
        let (first, rest, line, kind) = *row;
        assert!(rt;
            is_refused(&rt, first, rest, LogFault { line, kind })?,
            "at {rest}"
        );
    }
    Ok(())
}

/// How many splits are held after a text.
fn held_after(rt: &impl AllocGlobal, text: &str) -> Result<u64, Fail> {
    let checker = begun(rt, PRIZES)?;
    let checker = fed_by(checker, text.as_bytes(), 3)?;
    Ok(checker.held())
}

/// The lines before a proof.
const BEFORE: &str = "STEINERLOG 2\nCLAIM TREE 3 3\nTREE 2 0\nSTEPS 0\nPROOF\n";

/// The same after these lines of a proof.
fn held_in(rt: &impl AllocGlobal, proof: &str) -> Result<u64, Fail> {
    let text = format!(in rt.alloc(); "{BEFORE}{proof}")?;
    held_after(rt, text.as_str())
}

/// Lines of a proof, and how many splits aren't finished after them.
const HELD: &[(&str, u64)] = &[
    ("", 0),
    ("S 2\n", 1),
    ("S 2\nC 2 1\n", 1),
    ("S 2\nC 2 1\nU 1 3 1 1\n", 1),
    ("S 2\nC 2 1\nU 1 3 1 1\nC 0 0\n", 0),
    ("S 2\nC 2 1\nU 1 3 1 1\nC 0 0\nEND\n", 0),
    ("S 2\nS 1\n", 2),
    ("S 2\nS 1\nC 0 0\n", 2),
    ("S 2\nS 1\nC 0 0\nC 0 0\n", 1),
    ("S 2\nS 1\nC 0 0\nC 0 0\nS 1", 1),
    // Splits at links.
    ("L 1 2\n", 1),
    ("L 1 2\nC 0 0\n", 1),
    ("L 1 2\nC 0 0\nS 2\n", 2),
    ("S 2\nL 1 2\nC 0 0\nC 0 0\n", 1),
    ("L 1 2\nL 1 2\nC 0 0\nC 0 0\nC 0 0\n", 0),
    // Splits that may not be, and a close that weighs too little.
    ("S 9\nC 0 0\n", 1),
    ("S 9\nS 9\nS 9\n", 3),
    // Lines that may not stand there, and what comes after them.
    ("S 2\nS 0\nC 0 0\nC 0 0\n", 1),
    ("S 2\nL 2 1\nC 0 0\nC 0 0\n", 1),
    ("C 0 0\nS 2\n", 0),
];

#[test]
fn counts_the_splits_that_are_held(rt: HostRuntime) -> Result<(), Fail> {
    for row in HELD {
        let (proof, count) = *row;
        assert_eq!(rt; held_in(&rt, proof)?, count, "after {proof}");
    }
    Ok(())
}

#[test]
fn names_the_fault_of_the_file(rt: HostRuntime) {
    let fault = Checker::begin(rt.alloc(), b"33D32945\nSECTION Graph\n").err();
    assert!(rt; matches!(fault, Some(CheckFault::Stp(_))));
}
