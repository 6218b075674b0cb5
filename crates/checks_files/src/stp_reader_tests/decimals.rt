use super::{BOTH, Case, Change, HEADER, is_change_refused, is_instance, is_read, is_refused};
use amounts::Scale;
use st_model::Need;
use std::alloc::{AllocError, Global};
use std::test::Fail;
use stp_reader::{Reason, read_stp};

/// The words of four amounts: the costs of a path of three vertices, and the prizes of its ends.
type Words<'a> = (&'a str, &'a str, &'a str, &'a str);

/// The path's file. Its costs stand on the lines 5 and 6, and its prizes on the lines 10 and 11.
fn path(alloc: Global, words: Words<'_>) -> Result<String, AllocError> {
    let (cost, next, prize, last) = words;
    format!(in alloc;
        "{HEADER}\nSECTION Graph\nNodes 3\nEdges 2\nE 1 2 {cost}\nE 2 3 {next}\nEND\n\
        SECTION Terminals\nTerminals 2\nTP 1 {prize}\nTP 3 {last}\nEND\nEOF\n"
    )
}

/// Whether the path with these words is read with these amounts at a scale.
fn says(alloc: Global, words: Words<'_>, amounts: &[u64; 4], scale: Scale) -> Result<bool, Fail> {
    let [cost, next, prize, last] = *amounts;
    let links = [(1, 2, cost), (2, 3, next)];
    let needs = [Need::Pays(prize), Need::Pays(0), Need::Pays(last)];
    let text = path(alloc, words)?;
    let read = read_stp(alloc, text.as_bytes())?;
    Ok(read.scale == scale && is_instance(alloc, &read.instance, &links, &needs)?)
}

/// Whether the path with these words is refused at a line for a reason.
fn is_path_refused(
    alloc: Global,
    words: Words<'_>,
    line: u64,
    reason: Reason,
) -> Result<bool, AllocError> {
    let text = path(alloc, words)?;
    Ok(is_refused(alloc, text.as_bytes(), line, reason))
}

/// Words without a decimal digit other than 0, and the amounts in wholes.
const WHOLE: &[(Words<'static>, [u64; 4])] = &[
    (("5.0", "5.", "05", "5.0000000000"), [5, 5, 5, 5]),
    (("0.0", "0.", "0", "000.0000000"), [0, 0, 0, 0]),
    (
        (
            "1000000000000",
            "1000000000000.",
            "1000000000000.0000000",
            "1000001.0",
        ),
        [
            1_000_000_000_000,
            1_000_000_000_000,
            1_000_000_000_000,
            1_000_001,
        ],
    ),
];

/// Words of which one has such a digit, and the amounts in millionths.
const FINE: &[(Words<'static>, [u64; 4])] = &[
    (
        ("5.5", "5.0", "5.", "05"),
        [5_500_000, 5_000_000, 5_000_000, 5_000_000],
    ),
    (
        ("0.25", "0.25", "0.1", "0.2"),
        [250_000, 250_000, 100_000, 200_000],
    ),
    (
        ("0.5000000", "007.50", "0.1000000000", "2.000001"),
        [500_000, 7_500_000, 100_000, 2_000_001],
    ),
    (
        ("1000000", "0.5", "0", "0"),
        [1_000_000_000_000, 500_000, 0, 0],
    ),
    (
        ("0.5", "1000000", "0", "0"),
        [500_000, 1_000_000_000_000, 0, 0],
    ),
    (
        ("1000000.0", "0.5", "0", "0"),
        [1_000_000_000_000, 500_000, 0, 0],
    ),
    (
        ("999999.999999", "0", "1000000.0000000", "0.999999"),
        [999_999_999_999, 0, 1_000_000_000_000, 999_999],
    ),
    // The last line of all decides what the first cost counts.
    (
        ("3", "4", "5", "0.000001"),
        [3_000_000, 4_000_000, 5_000_000, 1],
    ),
];

#[test]
fn reads_decimals(rt: HostRuntime) -> Result<(), Fail> {
    for row in WHOLE {
        let (words, amounts) = *row;
        assert!(rt; says(rt.alloc(), words, &amounts, Scale::Whole)?);
    }
    for row in FINE {
        let (words, amounts) = *row;
        assert!(rt; says(rt.alloc(), words, &amounts, Scale::Millionths)?);
    }
    Ok(())
}

/// Words that say no amount, or none that may stand in a file.
const BAD: &[(&str, Reason)] = &[
    (".", Reason::BadNumber),
    (".5", Reason::BadNumber),
    ("5..0", Reason::BadNumber),
    ("5.0.0", Reason::BadNumber),
    ("0.5x", Reason::BadNumber),
    ("-0.5", Reason::BadNumber),
    ("+0.5", Reason::BadNumber),
    ("1e3", Reason::BadNumber),
    ("1,5", Reason::BadNumber),
    ("0.0000005", Reason::Fraction),
    ("0.50000001", Reason::Fraction),
    ("1000000.0000001", Reason::Fraction),
    ("1000000.5000001", Reason::Fraction),
    ("1000000000001.0000001", Reason::Fraction),
    ("1000000000001", Reason::OutOfRange),
    ("1000000000001.0", Reason::OutOfRange),
    ("1000000000001.5", Reason::OutOfRange),
    ("1000000000000.5", Reason::ScaleRange),
    ("1000000.5", Reason::ScaleRange),
    ("1000000.000001", Reason::ScaleRange),
];

/// Whether a word is refused for a reason as a cost and as a prize, before a good one and after it.
fn is_bad(alloc: Global, word: &str, reason: Reason) -> Result<bool, AllocError> {
    Ok(
        is_path_refused(alloc, (word, "2", "3", "4"), 5, reason)?
            && is_path_refused(alloc, ("2", word, "3", "4"), 6, reason)?
            && is_path_refused(alloc, ("2", "3", word, "4"), 10, reason)?
            && is_path_refused(alloc, ("2", "3", "4", word), 11, reason)?,
    )
}

#[test]
fn refuses_single_amounts(rt: HostRuntime) -> Result<(), Fail> {
    for row in BAD {
        let (word, reason) = *row;
        assert!(rt; is_bad(rt.alloc(), word, reason)?, "{word}");
    }
    Ok(())
}

/// Words with decimals beside one above a million, the line of the first that may not stand there, and its least reason.
const APART: &[(Words<'static>, u64, Reason)] = &[
    (("1000001", "0.5", "0", "0"), 6, Reason::ScaleRange),
    (("0.5", "1000001", "0", "0"), 6, Reason::ScaleRange),
    (("1000001", "0", "0.5", "0"), 10, Reason::ScaleRange),
    (("0.000001", "0", "1000001", "0"), 10, Reason::ScaleRange),
    (("1000001.0", "0", "0", "0.5"), 11, Reason::ScaleRange),
    (("0", "0.5", "0", "1000001.0"), 11, Reason::ScaleRange),
    (("0", "0", "1000000000000", "0.5"), 11, Reason::ScaleRange),
    (("0", "0", "0.5", "1000001"), 11, Reason::ScaleRange),
    (("0.5", "1000000", "1000000.5", "x"), 10, Reason::ScaleRange),
    // A reason with a lower number counts.
    (("1000001", "0.5000001", "0", "0"), 6, Reason::Fraction),
    (("0.5", "1000000000001", "0", "0"), 6, Reason::OutOfRange),
    (("0.5", "0", "0", "1000001.x"), 11, Reason::BadNumber),
];

#[test]
fn refuses_amounts_too_far_apart(rt: HostRuntime) -> Result<(), Fail> {
    for row in APART {
        let (words, line, reason) = *row;
        assert!(rt; is_path_refused(rt.alloc(), words, line, reason)?);
    }
    Ok(())
}

/// Texts in which an amount that the instance doesn't keep decides what the others count, and last one in which those
/// with decimals decide nothing, since they are no amounts of the file.
const UNKEPT: &[Case] = &[
    // A loop.
    Case {
        text: "\nSECTION Graph\nNodes 2\nEdges 2\nE 1 2 3\nE 1 1 0.5\nEND\nSECTION Terminals\nTerminals 2\nT 1\nT 2\nEND\n",
        links: &[(1, 2, 3_000_000)],
        needs: BOTH,
        scale: Scale::Millionths,
    },
    // A dearer parallel link.
    Case {
        text: "\nSECTION Graph\nNodes 2\nEdges 2\nE 2 1 5.5\nE 1 2 3\nEND\nSECTION Terminals\nTerminals 2\nT 1\nT 2\nEND\n",
        links: &[(1, 2, 3_000_000)],
        needs: BOTH,
        scale: Scale::Millionths,
    },
    // The prize of a terminal.
    Case {
        text: "\nSECTION Graph\nNodes 2\nEdges 1\nE 1 2 3\nEND\nSECTION Terminals\nTerminals 3\nT 1\nTP 1 0.5\nT 2\nEND\n",
        links: &[(1, 2, 3_000_000)],
        needs: BOTH,
        scale: Scale::Millionths,
    },
    Case {
        text: "\nSECTION Graph\nNodes 2\nEdges 1\nE 1 2 3\nEND\nSECTION Terminals\nTerminals 2\nTP 1 0.5\nRootP 1\nT 2\nEND\n",
        links: &[(1, 2, 3_000_000)],
        needs: BOTH,
        scale: Scale::Millionths,
    },
    // A remark, a section that is passed over, and what follows EOF.
    Case {
        text: "\nSECTION Comment\nE 1 2 0.5\nEND\nSECTION Graph\nNodes 2\nEdges 1\nE 1 2 3\n# E 1 2 0.5\nEND\n\
            SECTION Terminals\nTerminals 2\nTP 1 1000001\nT 2\nEND\nEOF\nTP 2 0.5\n",
        links: &[(1, 2, 3)],
        needs: &[Need::Pays(1_000_001), Need::Required],
        scale: Scale::Whole,
    },
];

#[test]
fn heeds_amounts_that_are_not_kept(rt: HostRuntime) -> Result<(), Fail> {
    for case in UNKEPT {
        assert!(rt; is_read(rt.alloc(), HEADER, case)?, "{}", case.text);
    }
    Ok(())
}

/// Changes of the star's file with two amounts of which one isn't kept, and lines with more than one reason.
const CHANGES: &[Change] = &[
    (
        "E 1 4 2\nE 2 4 2",
        b"E 1 1 1000001\nE 2 4 0.5",
        6,
        Reason::ScaleRange,
    ),
    (
        "E 1 4 2\nE 2 4 2",
        b"E 1 1 0.5\nE 2 4 1000001",
        6,
        Reason::ScaleRange,
    ),
    (
        "E 1 4 2\nE 2 4 2\nE 3 4 2",
        b"E 1 4 2\nE 4 1 1000001\nE 3 4 0.5",
        7,
        Reason::ScaleRange,
    ),
    (
        "E 1 4 2\nE 2 4 2\nE 3 4 2",
        b"E 1 4 2\nE 3 4 0.5\nE 4 1 1000001",
        7,
        Reason::ScaleRange,
    ),
    (
        "T 1\nT 2\n",
        b"T 1\nTP 1 1000001\nTP 2 0.5\n",
        16,
        Reason::ScaleRange,
    ),
    (
        "T 1\nT 2\n",
        b"RootP 1\nTP 1 0.5\nTP 2 1000001\n",
        16,
        Reason::ScaleRange,
    ),
    ("E 1 4 2", b"E 9 4 0.0000005", 5, Reason::Fraction),
    (
        "E 1 4 2",
        b"E 9 4 1000000000001.0000001",
        5,
        Reason::Fraction,
    ),
    ("E 1 4 2", b"E 9 4 1000000.5", 5, Reason::VertexRange),
    ("E 1 4 2", b"E x 4 1000000.5", 5, Reason::BadNumber),
    ("T 1\n", b"TP 5 0.0000005\n", 14, Reason::Fraction),
    ("T 1\n", b"TP 5 1000000.5\n", 14, Reason::VertexRange),
    (
        "T 1\nT 2\n",
        b"TP 1 0.5\nTP 1 1000001\n",
        15,
        Reason::RepeatedPrize,
    ),
    (
        "T 1\nT 2\n",
        b"TP 1 3\nTP 1 0.0000005\n",
        15,
        Reason::Fraction,
    ),
];

#[test]
fn refuses_lines_with_decimals(rt: HostRuntime) -> Result<(), Fail> {
    for change in CHANGES {
        let (from, to, ..) = *change;
        assert!(rt; is_change_refused(rt.alloc(), change)?, "{to:?} for {from}");
    }
    Ok(())
}

/// A word with ten thousand digits after its point, of which those from the seventh on are 0, but for the last.
fn long_word(alloc: Global, last: char) -> Result<String, AllocError> {
    let mut word = String::from_str(alloc, "3.141592")?;
    for _ in 0..9_993 {
        word.push('0')?;
    }
    word.push(last)?;
    Ok(word)
}

/// Whether such a word is read as a cost.
fn is_long_word_read(alloc: Global) -> Result<bool, Fail> {
    let word = long_word(alloc, '0')?;
    let amounts = [3_141_592, 2_000_000, 0, 0];
    says(alloc, (&word, "2", "0", "0"), &amounts, Scale::Millionths)
}

/// Whether it is refused where its last digit isn't 0.
fn is_finer_word_refused(alloc: Global) -> Result<bool, Fail> {
    let word = long_word(alloc, '1')?;
    Ok(is_path_refused(alloc, ("2", "2", "0", &word), 11, Reason::Fraction)?)
}

#[test]
fn reads_a_cost_of_ten_thousand_decimals(rt: HostRuntime) -> Result<(), Fail> {
    assert!(rt; is_long_word_read(rt.alloc())?);
    assert!(rt; is_finer_word_refused(rt.alloc())?);
    Ok(())
}
