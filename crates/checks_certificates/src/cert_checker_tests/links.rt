//! Proofs that are split at links.
use super::{TRIANGLE, answers_as};
use cert_checker::{CheckFault, Verdict};
use log_format::{Kind, LogFault};
use std::test::Fail;

/// Two terminals joined at 3, a vertex joined with both at 2 and 3, and one joined with that at 1.
const LINKED: &str = "33D32945 STP File, STP Format Version 1.0\nSECTION Graph\nNodes 4\nEdges 4\n\
    E 1 2 3\nE 1 3 2\nE 2 3 3\nE 3 4 1\nEND\nSECTION Terminals\nTerminals 2\nT 1\nT 2\nEND\nEOF\n";

/// Its best tree is the link between the terminals.
const DIRECT: &str = "STEINERLOG 2\nCLAIM TREE 3 3\nTREE 1 1\nA 1 2\nSTEPS 0\nPROOF\nL 1 2\nC 0 0\n\
    C 1 1\nU 2 3 1 2\nEND\n";

/// The proof of that log.
const PROOF: &str = "L 1 2\nC 0 0\nC 1 1\nU 2 3 1 2\n";

/// A triangle of terminals whose sides cost 1.
const SIDES: &str = "33D32945 STP File, STP Format Version 1.0\nSECTION Graph\nNodes 3\nEdges 3\n\
    E 1 2 1\nE 1 3 1\nE 2 3 1\nEND\nSECTION Terminals\nTerminals 3\nT 1\nT 2\nT 3\nEND\nEOF\n";

/// The sides at vertex 1 are a best tree, as splits at both show.
const CORNER: &str = "STEINERLOG 2\nCLAIM TREE 2 2\nTREE 1 2\nA 1 2\nA 1 3\nSTEPS 0\nPROOF\nL 1 2\n\
    L 1 3\nC 0 0\nC 1 1\nU 3 1 1 3\nC 1 2\nU 2 1 1 2\nU 3 1 1 3\nEND\n";

/// The last close of that log.
const NEITHER: &str = "C 1 2\nU 2 1 1 2\nU 3 1 1 3\n";

/// A star around the centre of the triangle, without one of its sides.
const SHORT: &str =
    "STEINERLOG 2\nCLAIM TREE 6 6\nTREE 1 3\nA 1 4\nA 4 2\nA 4 3\nSTEPS 1\nD 1 2 1 4\n\
    PROOF\nL 1 2\nC 0 0\nC 0 0\nEND\n";

/// A file, a log, a part of it and what stands there instead, and the verdict.
const CONCLUDED: &[(&str, &str, &str, &str, Verdict)] = &[
    (LINKED, DIRECT, "END", "END", Verdict::Optimal(3)),
    (
        LINKED,
        DIRECT,
        "3 3",
        "3 2",
        Verdict::Bound { dual: 2, primal: 3 },
    ),
    // What the cuts leave of a must counts.
    (
        LINKED,
        DIRECT,
        "C 0 0\n",
        "C 1 1\nU 2 3 1 2\n",
        Verdict::Optimal(3),
    ),
    (
        LINKED,
        DIRECT,
        "C 0 0\n",
        "C 1 1\nU 2 2 1 2\n",
        Verdict::Optimal(3),
    ),
    (
        LINKED,
        DIRECT,
        "C 0 0\n",
        "C 2 1\nU 1 1 1 1\n",
        Verdict::Optimal(3),
    ),
    // An end that came inside with a link may be decided again where it is barred.
    (
        LINKED,
        DIRECT,
        PROOF,
        "S 3\nL 3 4\nC 1 1\nU 2 3 1 2\nS 4\nC 1 1\nU 2 3 1 2\nC 1 1\nU 2 3 1 2\nC 1 1\nU 2 3 1 2\n",
        Verdict::Optimal(3),
    ),
    (
        LINKED,
        DIRECT,
        PROOF,
        "S 4\nL 3 4\nC 1 1\nU 2 3 1 2\nS 3\nC 1 1\nU 2 3 1 2\nC 1 1\nU 2 3 1 2\nC 1 1\nU 2 3 1 2\n",
        Verdict::Optimal(3),
    ),
    (
        LINKED,
        DIRECT,
        PROOF,
        "L 3 4\nC 1 1\nU 2 3 1 2\nS 3\nS 4\nC 1 1\nU 2 3 1 2\nC 1 1\nU 2 3 1 2\nC 1 1\nU 2 3 1 2\n",
        Verdict::Optimal(3),
    ),
    // A vertex that was inside before is outside in its other half, and the link's ends are free.
    (
        LINKED,
        DIRECT,
        PROOF,
        "S 3\nL 3 4\nC 1 1\nU 2 3 1 2\nC 1 1\nU 2 3 1 2\nS 4\nC 1 1\nU 2 3 1 2\nC 1 1\nU 2 3 1 2\n",
        Verdict::Optimal(3),
    ),
    (SIDES, CORNER, "END", "END", Verdict::Optimal(2)),
    // A link that was a must, and then barred, in one half is neither in the other.
    (
        SIDES,
        CORNER,
        NEITHER,
        "L 1 3\nC 1 1\nU 2 1 1 2\nC 1 2\nU 2 1 1 2\nU 3 1 1 3\n",
        Verdict::Optimal(2),
    ),
];

#[test]
fn concludes_at_links(rt: HostRuntime) -> Result<(), Fail> {
    for row in CONCLUDED {
        let (stp, log, right, wrong, verdict) = *row;
        assert!(rt;
            answers_as(&rt, stp, log, right, wrong, Ok(verdict))?,
            "at {wrong}"
        );
    }
    Ok(())
}

/// A file, a log, a part of it and what stands there instead, and the fault.
const CHANGES: &[(&str, &str, &str, &str, u64, Kind)] = &[
    (
        LINKED,
        DIRECT,
        "STEINERLOG 2",
        "STEINERLOG 1",
        7,
        Kind::BadLine,
    ),
    (LINKED, DIRECT, "L 1 2", "L 2 1", 7, Kind::BadLine),
    (LINKED, DIRECT, "L 1 2", "L 1 1", 7, Kind::BadLine),
    // No link.
    (LINKED, DIRECT, "L 1 2", "L 1 4", 7, Kind::BadSplit),
    (LINKED, DIRECT, "L 1 2", "L 2 4", 7, Kind::BadSplit),
    (LINKED, DIRECT, "L 1 2", "L 1 5", 7, Kind::BadSplit),
    (LINKED, DIRECT, "L 1 2", "L 5 6", 7, Kind::BadSplit),
    (LINKED, DIRECT, "L 1 2", "L 1 1000000", 7, Kind::BadSplit),
    // A must again, and barred again.
    (
        LINKED,
        DIRECT,
        "L 1 2\nC 0 0\n",
        "L 1 2\nL 1 2\nC 0 0\nC 0 0\n",
        8,
        Kind::BadSplit,
    ),
    (
        LINKED,
        DIRECT,
        "C 1 1\nU 2 3 1 2\n",
        "L 1 2\nC 0 0\nC 1 1\nU 2 3 1 2\n",
        9,
        Kind::BadSplit,
    ),
    // An end outside.
    (
        LINKED,
        DIRECT,
        PROOF,
        "S 3\nC 1 1\nU 2 3 1 2\nL 1 3\nC 0 0\nC 0 0\n",
        10,
        Kind::BadSplit,
    ),
    (
        LINKED,
        DIRECT,
        PROOF,
        "S 3\nC 1 1\nU 2 3 1 2\nL 3 4\nC 0 0\nC 0 0\n",
        10,
        Kind::BadSplit,
    ),
    // An end inside, where the link is a must and where it is barred.
    (
        LINKED,
        DIRECT,
        PROOF,
        "L 3 4\nS 3\nC 0 0\nC 0 0\nC 0 0\n",
        8,
        Kind::BadSplit,
    ),
    (
        LINKED,
        DIRECT,
        PROOF,
        "L 3 4\nS 4\nC 0 0\nC 0 0\nC 0 0\n",
        8,
        Kind::BadSplit,
    ),
    (
        LINKED,
        DIRECT,
        PROOF,
        "S 3\nL 3 4\nC 1 1\nU 2 3 1 2\nS 3\nC 0 0\nC 0 0\nC 0 0\n",
        11,
        Kind::BadSplit,
    ),
    (
        LINKED,
        DIRECT,
        PROOF,
        "S 4\nL 3 4\nC 1 1\nU 2 3 1 2\nS 4\nC 0 0\nC 0 0\nC 0 0\n",
        11,
        Kind::BadSplit,
    ),
    // A close that doesn't fit, or weighs too little.
    (
        LINKED,
        DIRECT,
        "C 0 0\n",
        "C 1 1\nU 2 4 1 2\n",
        8,
        Kind::BadPacking,
    ),
    (
        LINKED,
        DIRECT,
        "U 2 3 1 2",
        "U 2 4 1 2",
        9,
        Kind::BadPacking,
    ),
    (LINKED, DIRECT, "U 2 3 1 2", "U 2 2 1 2", 9, Kind::TooLight),
    (
        LINKED,
        DIRECT,
        "C 1 1\nU 2 3 1 2\n",
        "C 0 0\n",
        9,
        Kind::TooLight,
    ),
    (
        SIDES,
        CORNER,
        "C 0 0\n",
        "C 1 1\nU 2 1 2 2 3\n",
        10,
        Kind::TooLight,
    ),
    (
        SIDES,
        CORNER,
        "C 1 1\nU 3 1 1 3\n",
        "C 0 0\n",
        11,
        Kind::TooLight,
    ),
    (SIDES, CORNER, NEITHER, "C 0 0\n", 13, Kind::TooLight),
    // A step took the link away; another one didn't.
    (TRIANGLE, SHORT, "END", "END", 10, Kind::BadSplit),
    (
        TRIANGLE,
        SHORT,
        "D 1 2 1 4",
        "D 1 3 1 4",
        11,
        Kind::TooLight,
    ),
];

#[test]
fn refuses_wrong_splits_at_links(rt: HostRuntime) -> Result<(), Fail> {
    for row in CHANGES {
        let (stp, log, right, wrong, line, kind) = *row;
        let fault = Err(CheckFault::Log(LogFault { line, kind }));
        assert!(rt;
            answers_as(&rt, stp, log, right, wrong, fault)?,
            "at {wrong}"
        );
    }
    Ok(())
}
