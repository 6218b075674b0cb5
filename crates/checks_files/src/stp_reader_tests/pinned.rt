use super::{
    Case, Change, HEADER, SIDES, STAR, STAR_NEEDS, changed, is_change_refused, is_instance, is_read,
};
use amounts::Scale;
use st_model::Need;
use std::alloc::Global;
use std::test::Fail;
use stp_reader::{Reason, read_stp};

/// The star's needs where its first vertex alone is required.
const FIRST: &[Need] = &[Need::Required, Need::Pays(0), Need::Pays(0), Need::Pays(0)];

/// What stands in the star's file, what is written in its place, and what its vertices need then.
const READ: &[(&str, &[u8], &[Need])] = &[
    // In the place of a line T, counted and not counted.
    ("T 1\n", b"RootP 1\n", STAR_NEEDS),
    ("T 3\n", b"rootp\t003\n", STAR_NEEDS),
    ("Terminals 3\nT 1\n", b"Terminals 2\nRootP 1\n", STAR_NEEDS),
    ("Terminals 3\nT 1\n", b"RootP 1\nTerminals 3\n", STAR_NEEDS),
    ("Terminals 3\nT 1\n", b"RootP 1\nTerminals 2\n", STAR_NEEDS),
    // Beside a line T or TP of the same vertex.
    ("T 1\n", b"RootP 1\nT 1\n", STAR_NEEDS),
    (
        "Terminals 3\nT 1\n",
        b"Terminals 4\nT 1\nRootP 1\n",
        STAR_NEEDS,
    ),
    ("T 1\n", b"RootP 1\nTP 1 7\n", STAR_NEEDS),
    ("T 1\n", b"TP 1 7\nRootP 1\n", STAR_NEEDS),
    (
        "Terminals 3\nT 1\n",
        b"RootP 1\nTerminals 4\nTP 1 7\n",
        STAR_NEEDS,
    ),
    // With the line Root of the same vertex, and of another one.
    ("T 1\n", b"Root 1\nRootP 1\n", STAR_NEEDS),
    ("T 1\n", b"RootP 1\nRoot 1\n", STAR_NEEDS),
    (
        "Terminals 3\nT 1\n",
        b"Root 1\nTerminals 2\nRootP 1\n",
        STAR_NEEDS,
    ),
    (
        "Terminals 3\nT 1\n",
        b"RootP 1\nTerminals 2\nRoot 1\n",
        STAR_NEEDS,
    ),
    ("T 1\n", b"Root 1\nTP 1 7\nRootP 1\n", STAR_NEEDS),
    ("T 1\n", b"RootP 1\nRoot 2\n", STAR_NEEDS),
    // Alone.
    (
        "Terminals 3\nT 1\nT 2\nT 3\n",
        b"Terminals 1\nRootP 1\n",
        FIRST,
    ),
    (
        "Terminals 3\nT 1\nT 2\nT 3\n",
        b"Terminals 0\nRootP 1\n",
        FIRST,
    ),
    (
        "Terminals 3\nT 1\nT 2\nT 3\n",
        b"RootP 1\nTerminals 1\n",
        FIRST,
    ),
    (
        "Terminals 3\nT 1\nT 2\nT 3\n",
        b"RootP 1\nTerminals 0\nRoot 1\n",
        FIRST,
    ),
    (
        "Terminals 3\nT 1\nT 2\nT 3\n",
        b"Terminals 0\nRootP 4\n",
        &[Need::Pays(0), Need::Pays(0), Need::Pays(0), Need::Required],
    ),
];

/// Whether the star's file with this in the place of that is read with these needs.
fn is_change_read(alloc: Global, from: &str, to: &[u8], needs: &[Need]) -> Result<bool, Fail> {
    let text = changed(alloc, STAR, from, to)?;
    let read = read_stp(alloc, &text)?;
    Ok(read.scale == Scale::Whole && is_instance(alloc, &read.instance, SIDES, needs)?)
}

#[test]
fn reads_a_pinned_vertex(rt: HostRuntime) -> Result<(), Fail> {
    for row in READ {
        let (from, to, needs) = *row;
        assert!(rt;
            is_change_read(rt.alloc(), from, to, needs)?,
            "{to:?} for {from}"
        );
    }
    Ok(())
}

/// The links of a star of three vertices.
const LEAVES: &[(u32, u32, u64)] = &[(1, 3, 2), (2, 3, 2)];

/// Texts of that star.
const STARS: &[Case] = &[
    Case {
        text: "\nSECTION Graph\nNodes 3\nEdges 2\nE 1 3 2\nE 2 3 2\nEND\nSECTION Terminals\nTerminals 2\nRootP 1\nT 2\nEND\nEOF\n",
        links: LEAVES,
        needs: &[Need::Required, Need::Required, Need::Pays(0)],
        scale: Scale::Whole,
    },
    Case {
        text: "\nSECTION Graph\nNodes 3\nEdges 2\nE 1 3 2\nE 2 3 2\nEND\nSECTION Terminals\nTerminals 1\nT 2\nRootP 1\nEND\nEOF\n",
        links: LEAVES,
        needs: &[Need::Required, Need::Required, Need::Pays(0)],
        scale: Scale::Whole,
    },
    Case {
        text: "\nSECTION Graph\nNodes 3\nEdges 2\nE 1 3 2\nE 2 3 2\nEND\nSECTION Terminals\nTerminals 1\nRootP 1\nEND\nEOF\n",
        links: LEAVES,
        needs: &[Need::Required, Need::Pays(0), Need::Pays(0)],
        scale: Scale::Whole,
    },
    Case {
        text: "\nSECTION Graph\nNodes 3\nEdges 2\nE 1 3 2\nE 2 3 2\nEND\nSECTION Terminals\nTerminals 0\nRootP 3\nEND\nEOF\n",
        links: LEAVES,
        needs: &[Need::Pays(0), Need::Pays(0), Need::Required],
        scale: Scale::Whole,
    },
    Case {
        text: "\nSECTION Graph\nNodes 3\nEdges 2\nE 1 3 2\nE 2 3 2\nEND\nSECTION Terminals\nRootP 2\nTerminals 1\nTP 1 5\nEND\nEOF\n",
        links: LEAVES,
        needs: &[Need::Pays(5), Need::Required, Need::Pays(0)],
        scale: Scale::Whole,
    },
];

#[test]
fn reads_pinned_stars(rt: HostRuntime) -> Result<(), Fail> {
    for case in STARS {
        assert!(rt; is_read(rt.alloc(), HEADER, case)?, "{}", case.text);
    }
    Ok(())
}

/// Changes of the star's file with a bad line RootP, or a bad end because of one.
const CHANGES: &[Change] = &[
    // Twice.
    ("T 1\n", b"RootP 1\nRootP 1\n", 15, Reason::BadLine),
    ("T 1\n", b"RootP 1\nT 1\nRootP 2\n", 16, Reason::BadLine),
    (
        "Terminals 3\n",
        b"RootP 1\nRootP 2\nTerminals 3\n",
        14,
        Reason::BadLine,
    ),
    (
        "Terminals 3\n",
        b"RootP 1\nTerminals 3\nRootP 1\n",
        15,
        Reason::BadLine,
    ),
    // A vertex that is none, before a good line and after one.
    ("T 1\n", b"RootP 0\nRootP 1\n", 14, Reason::VertexRange),
    ("T 1\n", b"RootP 1\nRootP 0\n", 15, Reason::BadLine),
    ("T 1\n", b"RootP 5\nRootP 1\n", 14, Reason::VertexRange),
    ("T 1\n", b"RootP 1\nRootP 5\n", 15, Reason::BadLine),
    ("T 1\n", b"RootP x\nRootP 1\n", 14, Reason::BadNumber),
    ("T 1\n", b"RootP 1\nRootP x\n", 15, Reason::BadLine),
    ("T 1\n", b"RootP 1 2\nRootP 1\n", 14, Reason::BadLine),
    ("T 1\n", b"RootP 1\nRootP 1 2\n", 15, Reason::BadLine),
    ("T 1\n", b"RootP\nRootP 1\n", 14, Reason::BadLine),
    ("T 1\n", b"RootP 1\nRootP\n", 15, Reason::BadLine),
    ("T 1\n", b"T 1\nRootP 0\n", 15, Reason::VertexRange),
    ("T 1\n", b"TP 1 3\nRootP 5\n", 15, Reason::VertexRange),
    ("T 1\n", b"Root 1\nRootP x\n", 15, Reason::BadNumber),
    ("T 1\n", b"T 1\nRootP 1 2\n", 15, Reason::BadLine),
    ("T 1\n", b"RootP 1.0\n", 14, Reason::BadNumber),
    ("T 1\n", b"RootP -1\n", 14, Reason::BadNumber),
    (
        "T 1\n",
        b"RootP 18446744073709551617\n",
        14,
        Reason::VertexRange,
    ),
    (
        "Terminals 3\n",
        b"RootP 0\nTerminals 3\n",
        13,
        Reason::VertexRange,
    ),
    (
        "Terminals 3\n",
        b"RootP 5\nTerminals 3\n",
        13,
        Reason::VertexRange,
    ),
    (
        "Terminals 3\n",
        b"RootP x\nTerminals 3\n",
        13,
        Reason::BadNumber,
    ),
    (
        "Terminals 3\n",
        b"RootP 1 2\nTerminals 3\n",
        13,
        Reason::BadLine,
    ),
    // Outside Terminals.
    ("SECTION Graph", b"RootP 1", 2, Reason::BadLine),
    ("Nodes 4", b"RootP 1", 3, Reason::BadLine),
    ("Edges 6", b"RootP 1", 4, Reason::BadLine),
    ("E 1 4 2\n", b"RootP 1\nE 1 4 2\n", 5, Reason::BadLine),
    ("E 1 4 2\n", b"E 1 4 2\nRootP 1\n", 6, Reason::BadLine),
    ("SECTION Terminals", b"RootP 1", 12, Reason::BadLine),
    ("EOF", b"RootP 1", 18, Reason::BadLine),
    // More or fewer lines than stated.
    (
        "Terminals 3\nT 1\n",
        b"Terminals 1\nRootP 1\n",
        17,
        Reason::CountMismatch,
    ),
    (
        "Terminals 3\nT 1\n",
        b"RootP 1\nTerminals 4\n",
        17,
        Reason::CountMismatch,
    ),
    (
        "Terminals 3\n",
        b"Terminals 2\nRootP 1\n",
        18,
        Reason::CountMismatch,
    ),
    (
        "Terminals 3\n",
        b"Terminals 5\nRootP 1\n",
        18,
        Reason::CountMismatch,
    ),
    (
        "Terminals 3\nT 1\nT 2\nT 3\n",
        b"Terminals 2\nRootP 1\n",
        15,
        Reason::CountMismatch,
    ),
    // A root that no line requires.
    ("T 1\n", b"RootP 1\nRoot 4\n", 18, Reason::RootNotTerminal),
    ("T 1\n", b"Root 4\nRootP 1\n", 18, Reason::RootNotTerminal),
    (
        "Terminals 3\nT 1\n",
        b"Root 4\nTerminals 3\nRootP 1\n",
        18,
        Reason::RootNotTerminal,
    ),
    (
        "T 1\n",
        b"RootP 2\nRoot 1\nTP 1 5\n",
        19,
        Reason::RootNotTerminal,
    ),
    (
        "Terminals 3\nT 1\nT 2\nT 3\n",
        b"Terminals 0\nRootP 1\nRoot 2\n",
        16,
        Reason::RootNotTerminal,
    ),
    (
        "Terminals 3\nT 1\n",
        b"Root 4\nTerminals 4\nRootP 1\n",
        18,
        Reason::CountMismatch,
    ),
    // What else is wrong beside a good line.
    (
        "T 1\nT 2\n",
        b"RootP 1\nTP 1 3\nTP 1 4\n",
        16,
        Reason::RepeatedPrize,
    ),
];

#[test]
fn refuses_pinned_vertices(rt: HostRuntime) -> Result<(), Fail> {
    for change in CHANGES {
        let (from, to, ..) = *change;
        assert!(rt; is_change_refused(rt.alloc(), change)?, "{to:?} for {from}");
    }
    Ok(())
}
