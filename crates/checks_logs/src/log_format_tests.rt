ghost use Rattle.std.specs.Prelude.{IfOk};
ghost use Rattle.log_format.specs.Text.{IsInLogRange, IsLog};

use cut_packing::{Cut, Packing};
use lift_back::Step;
use log_format::{
    Claim, Item, Kind, LineError, Log, LogReader, Proof, ProofLine, ReadError, Version,
    accepted_holds, items_are_lines, line_items, migrate, migrated_is_the_same, one_item,
    one_spelling, read_log, refused_exactly, rejected_exactly, write_log,
};
use st_model::{Listed, SplitAt};
use std::alloc::{AllocError, Global};
use std::test::Fail;
use std::thread::Threads;

/// A log of a star of three vertices around a fourth, whose links cost 2 each.
const STAR: &str = "STEINERLOG 1\nCLAIM TREE 6 6\nTREE 1 3\nA 1 4\nA 4 2\nA 4 3\nSTEPS 0\nPROOF\n\
    C 1 3\nU 2 2 1 2\nU 3 2 1 3\nU 2 2 3 2 3 4\nEND\n";

/// A log of the same tree, whose proof takes the star away step by step.
const REDUCED: &str =
    "STEINERLOG 1\nCLAIM TREE 6 6\nTREE 1 3\nA 1 4\nA 4 2\nA 4 3\nSTEPS 6\nD 1 2 1 4\n\
    D 1 3 1 4\nD 2 3 1 4\nF 1\nF 2\nF 3\nPROOF\nC 0 0\nEND\n";

/// A log that no tree reaches every required vertex.
const WALL: &str = "STEINERLOG 1\nCLAIM NONE\nWALL 2 1 2\nEND\n";

/// Each kind of step, with the least and the greatest numbers.
const STEPS: &str =
    "STEINERLOG 1\nCLAIM TREE 0 0\nTREE 1 0\nSTEPS 5\nP 1\nH 1000000\nF 7\nD 1000000 1 3 9 2 9\n\
    D 1 1 1 1000000\nPROOF\nC 0 0\nEND\n";

/// A log of version 2, whose proof is split at a link.
const LINK: &str =
    "STEINERLOG 2\nCLAIM TREE 3 3\nTREE 1 1\nA 1 2\nSTEPS 0\nPROOF\nL 1 2\nC 0 0\nC 1 1\n\
    U 2 3 1 2\nEND\n";

/// A log whose first and third cut have one set, and the second another one.
const TWICE: &str =
    "STEINERLOG 1\nCLAIM TREE 1 0\nTREE 1 0\nSTEPS 0\nPROOF\nS 9\nC 1 2\nU 2 1 2 2 3\nU 3 1 1 3\n\
    C 1 1\nU 3 4 2 2 3\nEND\n";

/// The least and the greatest numbers that can stand in a log, and each kind of line.
const RIGHT: &[&str] = &[
    STAR,
    REDUCED,
    STEPS,
    LINK,
    "STEINERLOG 2\nCLAIM TREE 1 0\nTREE 1 0\nSTEPS 0\nPROOF\nS 1\nL 999999 1000000\nC 0 0\nC 0 0\n\
        C 0 0\nEND\n",
    "STEINERLOG 2\nCLAIM NONE\nWALL 1 1\nEND\n",
    "STEINERLOG 1\nCLAIM TREE 3 3\nTREE 2 0\nSTEPS 0\nPROOF\nS 2\nC 2 1\nU 1 3 1 1\nC 0 0\nEND\n",
    WALL,
    "STEINERLOG 1\nCLAIM NONE\nWALL 1 1000000\nEND\n",
    "STEINERLOG 1\nCLAIM TREE 0 0\nTREE 1 0\nSTEPS 0\nPROOF\nC 0 0\nEND\n",
    "STEINERLOG 1\nCLAIM TREE 18446744073709551615 18446744073709551615\nTREE 1000000 1\n\
        A 1000000 1\nSTEPS 0\nPROOF\nC 1000000 1\nU 1 18446744073709551615 1 1000000\nEND\n",
    "STEINERLOG 1\nCLAIM TREE 6 7\nTREE 1 0\nSTEPS 0\nPROOF\nS 4\nS 4\nC 0 0\nC 0 0\nC 0 0\nEND\n",
    "STEINERLOG 1\nCLAIM TREE 1 0\nTREE 1 0\nSTEPS 0\nPROOF\nC 0 1\nU 9 0 2 7 8\nEND\n",
    TWICE,
];

/// Whether a log has this text, where it is written in so many threads.
pub(crate) fn is_written<R: Threads + Sync>(
    rt: &R,
    alloc: Global,
    log: &Log,
    text: &str,
    threads: usize,
) -> Result<bool, AllocError>
    requires { IsInLogRange log.now }
{
    let written = write_log(rt, alloc, log, threads)?;
    Ok(written.as_slice() == text.as_bytes())
}

/// Whether a text is that of a log, and is written again as it was read, in so many threads.
pub(crate) fn is_read_and_written<R: Threads + Sync>(
    rt: &R,
    alloc: Global,
    text: &str,
    threads: usize,
) -> Result<bool, Fail> {
    let log = read_log(alloc, text.as_bytes())?;
    Ok(is_written(rt, alloc, &log, text, threads)?)
}

#[test]
fn reads_and_writes_back(rt: HostRuntime) -> Result<(), Fail> {
    for text in RIGHT {
        assert!(rt; is_read_and_written(&rt, rt.alloc(), *text, 1)?, "{text}");
    }
    Ok(())
}

/// The log of a text, in version 2.
fn migrated(alloc: Global, text: &str) -> Result<Log, ReadError>
    ensures { IfOk result (λ log. IsLog log) }
{
    migrated_is_the_same();
    let log = read_log(alloc, text.as_bytes())?;
    Ok(migrate(log))
}

/// Whether the log of a text has the same text in version 2, but for its first line.
fn is_migrated<R: Threads + Sync>(rt: &R, alloc: Global, text: &str) -> Result<bool, Fail> {
    let (_, rest) = text.split_once("\n").ok_or("the log has no first line")?;
    let wanted = format!(in alloc; "STEINERLOG 2\n{rest}")?;
    let log = migrated(alloc, text)?;
    Ok(is_written(rt, alloc, &log, wanted.as_str(), 1)?)
}

#[test]
fn migrates_to_version_2(rt: HostRuntime) -> Result<(), Fail> {
    for text in [STAR, REDUCED, STEPS, SPLIT, WALL, LINK] {
        assert!(rt; is_migrated(&rt, rt.alloc(), text)?, "{text}");
    }
    Ok(())
}

/// A log with many splits and closes.
fn long_proof(alloc: Global) -> Result<String, Fail> {
    let mut text = String::from_str(
        alloc,
        "STEINERLOG 1\nCLAIM TREE 6 7\nTREE 1 0\nSTEPS 0\nPROOF\n",
    )?;
    for _ in 0..100 {
        text.push_str("S 4\nS 77\n")?;
    }
    for _ in 0..100 {
        text.push_str("C 0 0\nC 2 1\nU 1 3 1 1\n")?;
    }
    text.push_str("C 9 0\nEND\n")?;
    Ok(text)
}

/// Whether it is read, and written again in so many threads.
fn is_long_written<R: Threads + Sync>(rt: &R, alloc: Global, threads: usize) -> Result<bool, Fail> {
    let text = long_proof(alloc)?;
    is_read_and_written(rt, alloc, text.as_str(), threads)
}

#[test]
fn writes_a_long_proof_in_threads(rt: HostRuntime) -> Result<(), Fail> {
    for threads in [0, 1, 2, 3, 4, 64] {
        assert!(rt; is_long_written(&rt, rt.alloc(), threads)?, "{threads}");
    }
    Ok(())
}

/// Whether of three cuts the last is round 2, 3 and 4, for 2, and weighs 2.
fn are_cuts_of_star(cuts: &[Cut]) -> bool {
    match cuts {
        [_, _, last] => {
            (last.q, last.y) == (2, 2) && last.set.as_slice() == [2, 3, 4].as_slice()
        }
        _ => false,
    }
}

/// Whether a log says what the star's does.
fn is_of_star(log: &Log) -> bool {
    let Claim::Found {
        primal: 6,
        dual: 6,
        tree,
        steps,
        proof,
    } = &log.claim
    else {
        return false;
    };
    let [ProofLine::Close(packing)] = proof.lines() else {
        return false;
    };
    tree.start == 1
        && tree.arcs.as_slice() == [(1, 4), (4, 2), (4, 3)].as_slice()
        && steps.as_slice().is_empty()
        && packing.root == Some(1)
        && are_cuts_of_star(packing.cuts.as_slice())
}

/// Whether the star's log is read as it was meant.
fn reads_star(alloc: Global) -> Result<bool, ReadError> {
    let log = read_log(alloc, STAR.as_bytes())?;
    Ok(is_of_star(&log))
}

#[test]
fn reads_what_the_star_says(rt: HostRuntime) -> Result<(), Fail> {
    assert!(rt; reads_star(rt.alloc())?);
    Ok(())
}

/// Whether a text is refused, by this fault.
fn is_refused(alloc: Global, text: &[u8], line: u64, kind: Kind) -> bool {
    match read_log(alloc, text) {
        Err(ReadError::Fault(fault)) => fault.line == line && fault.kind == kind,
        _ => false,
    }
}

/// What stands in the star's log, what is written in its place, and the fault.
const CHANGES: &[(&str, &str, u64, Kind)] = &[
    ("STEINERLOG 1", "STEINERLOG 0", 1, Kind::BadLine),
    ("STEINERLOG 1", "STEINERLOG 3", 1, Kind::BadLine),
    ("STEINERLOG 1", "STEINERLOG 9", 1, Kind::BadLine),
    ("STEINERLOG 1", "STEINERLOG 12", 1, Kind::BadLine),
    ("STEINERLOG 1", "STEINERLOG 1 ", 1, Kind::BadLine),
    ("STEINERLOG 1", "STEINERLOG 1\r", 1, Kind::BadLine),
    ("STEINERLOG 1\n", "", 1, Kind::BadLine),
    ("STEINERLOG 1\n", "\nSTEINERLOG 1\n", 1, Kind::BadLine),
    ("TREE 6 6", "TREE 06 6", 2, Kind::BadLine),
    ("TREE 6 6", "TREE 6  6", 2, Kind::BadLine),
    ("TREE 6 6", "TREE 6", 2, Kind::BadLine),
    ("TREE 6 6", "TREE 6 6 6", 2, Kind::BadLine),
    ("TREE 6 6", "TREE 6 18446744073709551616", 2, Kind::BadLine),
    ("TREE 6 6", "TREE 6 28446744073709551615", 2, Kind::BadLine),
    ("TREE 6 6", "TREE 6 -6", 2, Kind::BadLine),
    ("TREE 6 6", "TREE 6 +6", 2, Kind::BadLine),
    ("CLAIM TREE 6 6", "CLAIM NONE", 3, Kind::BadLine),
    ("TREE 1 3", "TREE 1 18446744073709551615", 7, Kind::BadLine),
    ("TREE 1 3", "TREE 1 18446744073709551616", 3, Kind::BadLine),
    ("TREE 1 3", "TREE 0 3", 3, Kind::BadLine),
    ("TREE 1 3", "TREE 1000001 3", 3, Kind::BadLine),
    ("TREE 1 3", "TREE 1 2", 6, Kind::BadLine),
    ("TREE 1 3", "TREE 1 4", 7, Kind::BadLine),
    ("A 4 2", "A 0 2", 5, Kind::BadLine),
    ("A 4 2", "A 4 1000001", 5, Kind::BadLine),
    ("A 4 2", "A 4 2 ", 5, Kind::BadLine),
    ("STEPS 0", "STEPS 1", 8, Kind::BadLine),
    ("STEPS 0\n", "", 7, Kind::BadLine),
    ("PROOF\n", "", 8, Kind::BadLine),
    ("PROOF", "S 1\nPROOF", 8, Kind::BadLine),
    ("C 1 3", "C 1 4", 13, Kind::BadLine),
    ("C 1 3", "C 1 2", 12, Kind::BadLine),
    ("C 1 3", "C 1 3\nC 1 3", 10, Kind::BadLine),
    ("C 1 3", "C 1000001 3", 9, Kind::BadLine),
    ("C 1 3", "S 0", 9, Kind::BadLine),
    ("C 1 3", "L 1 4", 9, Kind::BadLine),
    ("C 1 3", "S 2\nC 1 3", 14, Kind::BadLine),
    ("U 2 2 1 2", "U 2 2 0", 10, Kind::BadLine),
    ("U 2 2 1 2", "U 2 2 2 2", 10, Kind::BadLine),
    ("U 2 2 1 2", "U 2 2 1 2 3", 10, Kind::BadLine),
    ("U 2 2 1 2", "U 0 2 1 2", 10, Kind::BadLine),
    ("U 2 2 1 2", "U 2 2 1 0", 10, Kind::BadLine),
    ("U 2 2 3 2 3 4", "U 2 2 3 2 4 3", 12, Kind::BadLine),
    ("U 2 2 3 2 3 4", "U 2 2 3 2 3 3", 12, Kind::BadLine),
    ("END\n", "C 0 0\nEND\n", 13, Kind::BadLine),
    ("END\n", "END\n\n", 14, Kind::BadLine),
    ("END\n", "END\n ", 14, Kind::BadLine),
    ("END\n", "END", 13, Kind::EndsEarly),
];

/// Whether a text in which a part is written otherwise is refused, by this fault.
fn is_change_refused(
    alloc: Global,
    text: &str,
    right: &str,
    wrong: &str,
    line: u64,
    kind: Kind,
) -> Result<bool, Fail> {
    let (before, after) = text.split_once(right).ok_or("the log has no such part")?;
    let text = format!(in alloc; "{before}{wrong}{after}")?;
    Ok(is_refused(alloc, text.as_bytes(), line, kind))
}

#[test]
fn refuses_each_change(rt: HostRuntime) -> Result<(), Fail> {
    for row in CHANGES {
        let (right, wrong, line, kind) = *row;
        assert!(rt;
            is_change_refused(rt.alloc(), STAR, right, wrong, line, kind)?,
            "{wrong} for {right}"
        );
    }
    Ok(())
}

/// What stands in the log that is split at a link, what is written in its place, and the line that is
/// bad then.
const LINK_CHANGES: &[(&str, &str, u64)] = &[
    ("STEINERLOG 2", "STEINERLOG 1", 7),
    ("STEINERLOG 2", "STEINERLOG 3", 1),
    ("L 1 2", "L 2 1", 7),
    ("L 1 2", "L 1 1", 7),
    ("L 1 2", "L 0 2", 7),
    ("L 1 2", "L 1 2 3", 7),
    ("L 1 2", "L 1 1000001", 7),
    ("L 1 2", "L 1", 7),
    ("L 1 2", "L", 7),
    ("L 1 2", "L 1 2 ", 7),
    ("L 1 2", "L  1 2", 7),
    ("L 1 2", "L 01 2", 7),
    ("L 1 2", "l 1 2", 7),
    ("L 1 2\n", "", 8),
    ("PROOF\nL 1 2", "L 1 2\nPROOF", 6),
    ("C 1 1", "L 1 2", 10),
    ("U 2 3 1 2", "L 1 2", 10),
    ("END", "L 1 2", 11),
];

#[test]
fn refuses_each_change_of_links(rt: HostRuntime) -> Result<(), Fail> {
    for row in LINK_CHANGES {
        let (right, wrong, line) = *row;
        assert!(rt;
            is_change_refused(rt.alloc(), LINK, right, wrong, line, Kind::BadLine)?,
            "{wrong} for {right}"
        );
    }
    Ok(())
}

/// What stands in the log of steps, what is written in its place, and the line that is bad then.
const STEP_CHANGES: &[(&str, &str, u64)] = &[
    ("STEPS 6", "STEPS 5", 13),
    ("STEPS 6", "STEPS 7", 14),
    ("STEPS 6", "STEPS 0", 8),
    ("STEPS 6", "STEPS 18446744073709551615", 14),
    ("STEPS 6", "STEPS 18446744073709551616", 7),
    ("STEPS 6", "STEPS 06", 7),
    ("STEPS 6", "STEPS  6", 7),
    ("STEPS 6", "STEPS 6 ", 7),
    ("STEPS 6", "STEPS 6 6", 7),
    ("STEPS 6", "STEPS", 7),
    ("STEPS 6", "STEPS -6", 7),
    ("D 1 2 1 4", "D 1 2 0", 8),
    ("D 1 2 1 4", "D 1 2 0 4", 8),
    ("D 1 2 1 4", "D 1 2 1", 8),
    ("D 1 2 1 4", "D 1 2", 8),
    ("D 1 2 1 4", "D 1 2 2 4", 8),
    ("D 1 2 1 4", "D 1 2 1 4 4", 8),
    ("D 1 2 1 4", "D 1 2 1 4 ", 8),
    ("D 1 2 1 4", "D 1 2 1  4", 8),
    ("D 1 2 1 4", "D 1 2 1 04", 8),
    ("D 1 2 1 4", "D 1 2 1 0", 8),
    ("D 1 2 1 4", "D 1 2 1 1000001", 8),
    ("D 1 2 1 4", "D 1 2 01 4", 8),
    ("D 1 2 1 4", "D 1 2 18446744073709551615 4", 8),
    ("D 1 2 1 4", "D 1 2 18446744073709551616 4", 8),
    ("D 1 2 1 4", "D 0 2 1 4", 8),
    ("D 1 2 1 4", "D 1 0 1 4", 8),
    ("D 1 2 1 4", "D 1000001 2 1 4", 8),
    ("D 1 2 1 4", "D 1 1000001 1 4", 8),
    ("D 1 2 1 4", "D  1 2 1 4", 8),
    ("D 1 2 1 4", "d 1 2 1 4", 8),
    ("F 1", "F 0", 11),
    ("F 1", "F 1000001", 11),
    ("F 1", "F 1 2", 11),
    ("F 1", "F 01", 11),
    ("F 1", "F", 11),
    ("F 1", "G 1", 11),
    ("F 1", "", 11),
    ("F 1", "A 1 4", 11),
    ("F 1", "S 1", 11),
    ("F 1", "P 0", 11),
    ("F 1", "P 1 1", 11),
    ("F 1", "P 1000001", 11),
    ("F 1", "H 0", 11),
    ("F 1", "H 1 ", 11),
    ("F 1", "H 1000001", 11),
    ("F 2\n", "", 13),
    ("F 3", "F 3\nF 3", 14),
    ("PROOF\n", "", 14),
];

#[test]
fn refuses_each_change_of_steps(rt: HostRuntime) -> Result<(), Fail> {
    for row in STEP_CHANGES {
        let (right, wrong, line) = *row;
        assert!(rt;
            is_change_refused(rt.alloc(), REDUCED, right, wrong, line, Kind::BadLine)?,
            "{wrong} for {right}"
        );
    }
    Ok(())
}

/// Whether a log says what that with each kind of step does.
fn is_of_steps(log: &Log) -> bool {
    let Claim::Found { steps, .. } = &log.claim else {
        return false;
    };
    let [
        Step::Pendant(1),
        Step::Through(1_000_000),
        Step::Forced(7),
        Step::Detour {
            a: 1_000_000,
            b: 1,
            inner,
        },
        Step::Detour { .. },
    ] = steps.as_slice()
    else {
        return false;
    };
    inner.as_slice() == [9, 2, 9].as_slice()
}

/// Whether the log with each kind of step is read as it was meant.
fn reads_steps(alloc: Global) -> Result<bool, ReadError> {
    let log = read_log(alloc, STEPS.as_bytes())?;
    Ok(is_of_steps(&log))
}

#[test]
fn reads_what_the_steps_say(rt: HostRuntime) -> Result<(), Fail> {
    assert!(rt; reads_steps(rt.alloc())?);
    Ok(())
}

/// A log with many steps, the first of which is long.
fn many_steps(alloc: Global) -> Result<String, AllocError> {
    let mut text = String::from_str(
        alloc,
        "STEINERLOG 1\nCLAIM TREE 0 0\nTREE 1 0\nSTEPS 100001\nD 1 2 100000",
    )?;
    for _ in 0..100_000 {
        text.push_str(" 3")?;
    }
    for _ in 0..50_000 {
        text.push_str("\nP 4\nD 5 6 2 7 7")?;
    }
    text.push_str("\nPROOF\nC 0 0\nEND\n")?;
    Ok(text)
}

/// Whether it is read, and written again.
fn are_many_written<R: Threads + Sync>(rt: &R, alloc: Global) -> Result<bool, Fail> {
    let text = many_steps(alloc)?;
    is_read_and_written(rt, alloc, text.as_str(), 1)
}

#[test]
fn reads_and_writes_many_steps(rt: HostRuntime) -> Result<(), Fail> {
    assert!(rt; are_many_written(&rt, rt.alloc())?);
    Ok(())
}

/// Whether a text that ends early is refused in its last line.
fn ends_early(alloc: Global, text: &[u8]) -> bool {
    let lines = text.iter().filter(|byte| **byte == b'\n').count();
    is_refused(alloc, text, lines as u64 + 1, Kind::EndsEarly)
}

#[test]
fn refuses_what_is_cut_short(rt: HostRuntime) {
    let text = STAR.as_bytes();
    for end in 0..text.len() {
        assert!(rt; ends_early(rt.alloc(), &text[..end]), "after {end} bytes");
    }
}

/// Whether this wall is refused.
fn is_wall_refused(alloc: Global, wall: &str) -> Result<bool, Fail> {
    let text = format!(in alloc; "STEINERLOG 1\nCLAIM NONE\nWALL {wall}\nEND\n")?;
    Ok(is_refused(alloc, text.as_bytes(), 3, Kind::BadLine))
}

#[test]
fn refuses_sets_without_a_vertex(rt: HostRuntime) -> Result<(), Fail> {
    for wall in [
        "0",
        "1 0",
        "2 1",
        "1 1 2",
        "2 2 1",
        "2 1 1",
        "1 1000001",
        "",
    ] {
        assert!(rt; is_wall_refused(rt.alloc(), wall)?, "at {wall}");
    }
    Ok(())
}

/// The kinds, with their codes and names.
const KINDS: &[(Kind, u8, &str)] = &[
    (Kind::BadLine, 1, "BadLine"),
    (Kind::EndsEarly, 2, "EndsEarly"),
    (Kind::NotTree, 3, "NotTree"),
    (Kind::WrongCost, 4, "WrongCost"),
    (Kind::DualAbovePrimal, 5, "DualAbovePrimal"),
    (Kind::BadStep, 6, "BadStep"),
    (Kind::BadSplit, 7, "BadSplit"),
    (Kind::BadPacking, 8, "BadPacking"),
    (Kind::TooLight, 9, "TooLight"),
    (Kind::BadWall, 10, "BadWall"),
];

#[test]
fn numbers_and_names_the_kinds(rt: HostRuntime) {
    for row in KINDS {
        let (kind, code, name) = *row;
        assert!(rt; kind.code() == code && kind.name() == name, "at {name}");
    }
}

/// A close without cuts.
fn empty_close(alloc: Global) -> ProofLine {
    ProofLine::Close(Packing {
        root: None,
        cuts: Listed::of(Vec::new(alloc)),
    })
}

/// Lines of splits and closes, as a word of the letters S and C.
fn lines_of(alloc: Global, letters: &[u8]) -> Result<Vec<ProofLine>, AllocError> {
    let mut lines = Vec::new(alloc);
    for letter in letters {
        let line = if *letter == b'S' {
            ProofLine::Split(SplitAt::Vertex(1))
        } else {
            empty_close(alloc)
        };
        lines.push(line)?;
    }
    Ok(lines)
}

/// Whether the lines of such a word are those of one proof.
fn is_one_proof(alloc: Global, letters: &str) -> Result<bool, AllocError> {
    let lines = lines_of(alloc, letters.as_bytes())?;
    Ok(Proof::of(lines).is_some())
}

/// Words, and whether their lines are those of one proof.
const WORDS: &[(&str, bool)] = &[
    ("C", true),
    ("SCC", true),
    ("SSCCC", true),
    ("SCSCC", true),
    ("", false),
    ("S", false),
    ("SC", false),
    ("CC", false),
    ("SCCC", false),
    ("CSC", false),
];

#[test]
fn takes_one_proof_tree(rt: HostRuntime) -> Result<(), Fail> {
    for row in WORDS {
        let (letters, is_one) = *row;
        let judged = is_one_proof(rt.alloc(), letters)?;
        assert!(rt; judged == is_one, "{letters}");
    }
    Ok(())
}

/// A word for an item's kind, and two of its numbers.
fn seen(item: &Item) -> (&'static str, u64, u64) {
    match item {
        Item::Header(Version::One) => ("header", 1, 0),
        Item::Header(Version::Two) => ("header", 2, 0),
        Item::ClaimTree { primal, dual } => ("claim", *primal, *dual),
        Item::ClaimNone => ("none", 0, 0),
        Item::Wall(set) => ("wall", set.as_slice().len() as u64, 0),
        Item::TreeHead { start, count } => ("tree", *start as u64, *count),
        Item::Arc(tail, head) => ("arc", *tail as u64, *head as u64),
        Item::StepsHead(count) => ("steps", *count, 0),
        Item::OneStep(_) => ("step", 0, 0),
        Item::ProofHead => ("proof", 0, 0),
        Item::Split(SplitAt::Vertex(vertex)) => ("split", *vertex as u64, 0),
        Item::Split(SplitAt::Link(a, b)) => ("split at a link", *a as u64, *b as u64),
        Item::CloseHead { root, count } => ("close", root.unwrap_or(0) as u64, *count),
        Item::OneCut(cut) => ("cut", cut.q as u64, cut.y),
        Item::Last => ("end", 0, 0),
    }
}

/// Whether an item is of this kind, with these numbers.
fn is_seen(item: &Item, wanted: &(&str, u64, u64)) -> bool {
    let (word, first, second) = seen(item);
    word == wanted.0 && first == wanted.1 && second == wanted.2
}

/// Whether the next line says this item.
fn says_line(
    reader: &mut LogReader,
    line: &str,
    wanted: &(&str, u64, u64),
) -> Result<bool, LineError> {
    let item = reader.line(line.as_bytes())?;
    Ok(is_seen(&item, wanted))
}

/// Whether the lines of a text say these items, and are all of a log.
fn says(alloc: Global, text: &str, wanted: &[(&str, u64, u64)]) -> Result<bool, LineError> {
    let mut reader = LogReader::begin(alloc);
    for (line, wanted) in text.lines().zip(wanted.iter()) {
        if !says_line(&mut reader, line, wanted)? {
            return Ok(false);
        }
    }
    Ok(reader.is_done())
}

/// The items of the star's log.
const STAR_ITEMS: &[(&str, u64, u64)] = &[
    ("header", 1, 0),
    ("claim", 6, 6),
    ("tree", 1, 3),
    ("arc", 1, 4),
    ("arc", 4, 2),
    ("arc", 4, 3),
    ("steps", 0, 0),
    ("proof", 0, 0),
    ("close", 1, 3),
    ("cut", 2, 2),
    ("cut", 3, 2),
    ("cut", 2, 2),
    ("end", 0, 0),
];

/// A log with a step and a split, and its items.
const SPLIT: &str =
    "STEINERLOG 1\nCLAIM TREE 3 2\nTREE 2 0\nSTEPS 1\nP 3\nPROOF\nS 2\nC 0 0\nC 0 0\nEND\n";

const SPLIT_ITEMS: &[(&str, u64, u64)] = &[
    ("header", 1, 0),
    ("claim", 3, 2),
    ("tree", 2, 0),
    ("steps", 1, 0),
    ("step", 0, 0),
    ("proof", 0, 0),
    ("split", 2, 0),
    ("close", 0, 0),
    ("close", 0, 0),
    ("end", 0, 0),
];

/// The items of the log that is split at a link.
const LINK_ITEMS: &[(&str, u64, u64)] = &[
    ("header", 2, 0),
    ("claim", 3, 3),
    ("tree", 1, 1),
    ("arc", 1, 2),
    ("steps", 0, 0),
    ("proof", 0, 0),
    ("split at a link", 1, 2),
    ("close", 0, 0),
    ("close", 1, 1),
    ("cut", 2, 3),
    ("end", 0, 0),
];

#[test]
fn reads_each_item(rt: HostRuntime) -> Result<(), Fail> {
    assert!(rt; says(rt.alloc(), STAR, STAR_ITEMS)?);
    assert!(rt; says(rt.alloc(), SPLIT, SPLIT_ITEMS)?);
    assert!(rt; says(rt.alloc(), LINK, LINK_ITEMS)?);
    Ok(())
}

/// Whether a reader that isn't done refuses each of three bad lines.
fn refuses_bad(reader: &mut LogReader) -> bool {
    for bad in ["", "WALL 2 2 1", "END "] {
        if !matches!(reader.line(bad.as_bytes()), Err(LineError::BadLine)) {
            return false;
        }
    }
    !reader.is_done()
}

/// Whether bad lines before each line of a log are refused, and the log is read.
fn goes_on(alloc: Global) -> Result<bool, LineError> {
    let mut reader = LogReader::begin(alloc);
    for line in ["STEINERLOG 1", "CLAIM NONE", "WALL 2 1 2", "END"] {
        if !refuses_bad(&mut reader) {
            return Ok(false);
        }
        reader.line(line.as_bytes())?;
    }
    Ok(reader.is_done())
}

#[test]
fn goes_on_after_bad_lines(rt: HostRuntime) -> Result<(), Fail> {
    assert!(rt; goes_on(rt.alloc())?);
    Ok(())
}

#[test]
fn states_its_laws() {
    one_spelling();
    refused_exactly();
    accepted_holds();
    rejected_exactly();
    items_are_lines();
    one_item();
    line_items();
    migrated_is_the_same();
}
