//! Files whose amounts have decimals. Their logs count millionths.
use super::changed;
use super::pieces::answers_in_pieces;
use amounts::Scale;
use cert_checker::{CheckFault, Checked, Verdict, check};
use log_format::{Kind, LogFault};
use std::test::Fail;

/// Two terminals that are joined at 5.5.
const JOINED: &str = "33D32945 STP File, STP Format Version 1.0\nSECTION Graph\nNodes 2\nEdges 1\n\
    E 1 2 5.5\nEND\nSECTION Terminals\nTerminals 2\nT 1\nT 2\nEND\nEOF\n";

/// Their tree, with a packing of the same value.
const LINK: &str =
    "STEINERLOG 1\nCLAIM TREE 5500000 5500000\nTREE 1 1\nA 1 2\nSTEPS 0\nPROOF\nC 1 1\n\
    U 2 5500000 1 2\nEND\n";

/// The same terminals, joined at 5.
const WHOLE: &str = "33D32945 STP File, STP Format Version 1.0\nSECTION Graph\nNodes 2\nEdges 1\n\
    E 1 2 5.0000000\nEND\nSECTION Terminals\nTerminals 2\nT 1\nT 2\nEND\nEOF\n";

/// Their tree.
const WHOLE_LINK: &str = "STEINERLOG 1\nCLAIM TREE 5 5\nTREE 1 1\nA 1 2\nSTEPS 0\nPROOF\nC 1 1\n\
    U 2 5 1 2\nEND\n";

/// Two vertices that may be left out for 0.1 and 0.2, joined at 0.25.
const SMALL: &str = "33D32945 STP File, STP Format Version 1.0\nSECTION Graph\nNodes 2\nEdges 1\n\
    E 1 2 0.25\nEND\nSECTION Terminals\nTerminals 2\nTP 1 0.1\nTP 2 0.2\nEND\nEOF\n";

/// The best tree stays at the second of them, as a split there shows.
const STAYS: &str = "STEINERLOG 1\nCLAIM TREE 100000 100000\nTREE 2 0\nSTEPS 0\nPROOF\nS 2\nC 2 1\n\
    U 1 100000 1 1\nC 0 0\nEND\n";

/// Two terminals that aren't joined.
const APART: &str = "33D32945 STP File, STP Format Version 1.0\nSECTION Graph\nNodes 3\nEdges 1\n\
    E 1 2 0.000001\nEND\nSECTION Terminals\nTerminals 2\nT 1\nT 3\nEND\nEOF\n";

/// Whether a log in which one part is changed is answered so, as a whole and in pieces.
fn answers_as(
    rt: &impl AllocGlobal,
    stp: &str,
    log: &str,
    right: &str,
    wrong: &str,
    wanted: Result<Checked, CheckFault>,
) -> Result<bool, Fail> {
    let text = changed(rt, log, right, wrong)?;
    let whole = check(rt.alloc(), stp.as_bytes(), text.as_bytes());
    Ok(whole == wanted && answers_in_pieces(rt, stp, text.as_bytes(), wanted)?)
}

/// A file, a log, a part of it and what stands there instead, the verdict, and what its numbers count.
const CONCLUDED: &[(&str, &str, &str, &str, Verdict, Scale)] = &[
    (
        JOINED,
        LINK,
        "END",
        "END",
        Verdict::Optimal(5_500_000),
        Scale::Millionths,
    ),
    (
        JOINED,
        LINK,
        "5500000 5500000",
        "5500000 5400000",
        Verdict::Bound {
            dual: 5_400_000,
            primal: 5_500_000,
        },
        Scale::Millionths,
    ),
    (
        JOINED,
        LINK,
        "5500000 5500000",
        "5500000 1",
        Verdict::Bound {
            dual: 1,
            primal: 5_500_000,
        },
        Scale::Millionths,
    ),
    (
        JOINED,
        LINK,
        "STEPS 0\nPROOF\nC 1 1\nU 2 5500000 1 2\n",
        "STEPS 1\nF 2\nPROOF\nC 0 0\n",
        Verdict::Optimal(5_500_000),
        Scale::Millionths,
    ),
    (
        WHOLE,
        WHOLE_LINK,
        "END",
        "END",
        Verdict::Optimal(5),
        Scale::Whole,
    ),
    (
        SMALL,
        STAYS,
        "END",
        "END",
        Verdict::Optimal(100_000),
        Scale::Millionths,
    ),
    (
        APART,
        "STEINERLOG 1\nCLAIM NONE\nWALL 2 1 2\nEND\n",
        "END",
        "END",
        Verdict::NoTree,
        Scale::Millionths,
    ),
];

#[test]
fn concludes_in_the_unit_of_the_file(rt: HostRuntime) -> Result<(), Fail> {
    for row in CONCLUDED {
        let (stp, log, right, wrong, verdict, scale) = *row;
        let wanted = Ok(Checked { verdict, scale });
        assert!(rt;
            answers_as(&rt, stp, log, right, wrong, wanted)?,
            "at {wrong}"
        );
    }
    Ok(())
}

/// A file, a log, a part of it and what stands there instead, and the fault.
const CHANGES: &[(&str, &str, &str, &str, u64, Kind)] = &[
    // Numbers of the other unit.
    (JOINED, LINK, "5500000 5500000", "5 5", 2, Kind::WrongCost),
    (
        WHOLE,
        WHOLE_LINK,
        "5 5",
        "5000000 5000000",
        2,
        Kind::WrongCost,
    ),
    (JOINED, LINK, "U 2 5500000", "U 2 5", 7, Kind::TooLight),
    (
        WHOLE,
        WHOLE_LINK,
        "U 2 5",
        "U 2 5000000",
        7,
        Kind::BadPacking,
    ),
    // A millionth too much or too little.
    (
        JOINED,
        LINK,
        "5500000 5500000",
        "5500001 5500000",
        2,
        Kind::WrongCost,
    ),
    (
        JOINED,
        LINK,
        "5500000 5500000",
        "5500000 5500001",
        2,
        Kind::DualAbovePrimal,
    ),
    (
        JOINED,
        LINK,
        "U 2 5500000",
        "U 2 5500001",
        7,
        Kind::BadPacking,
    ),
    (
        JOINED,
        LINK,
        "U 2 5500000",
        "U 2 5499999",
        7,
        Kind::TooLight,
    ),
    (
        SMALL,
        STAYS,
        "U 1 100000",
        "U 1 100001",
        7,
        Kind::BadPacking,
    ),
    // Logs have whole numbers alone.
    (JOINED, LINK, "5500000 5500000", "5.5 5.5", 2, Kind::BadLine),
];

#[test]
fn refuses_numbers_of_another_unit(rt: HostRuntime) -> Result<(), Fail> {
    for row in CHANGES {
        let (stp, log, right, wrong, line, kind) = *row;
        let fault = Err(CheckFault::Log(LogFault { line, kind }));
        assert!(rt;
            answers_as(&rt, stp, log, right, wrong, fault)?,
            "at {wrong}"
        );
    }
    Ok(())
}
