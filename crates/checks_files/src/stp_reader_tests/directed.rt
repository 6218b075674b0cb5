use super::{CHANGES as PLAIN_CHANGES, Case, Change, HEADER, LINKED, PRIZED, changed, is_meant};
use amounts::Scale;
use arborescence::DiInstance;
use std::alloc::{AllocError, Global};
use std::test::Fail;
use stp_reader::{File, ReadError, Reason, file_refused_exactly, read_file, read_stp, reads_alike};

/// Three vertices, with arcs from the first to the second and back, and from the second to the third.
const WAYS: &str = "33D32945 STP File, STP Format Version 1.0\nSECTION Graph\nNodes 3\nArcs 3\n\
    A 1 2 4\nA 2 1 1\nA 2 3 3\nEND\n\
    SECTION Terminals\nTerminals 2\nRoot 1\nT 1\nT 3\nEND\n";

/// All of its lines between its first section's name and the end of its last.
const BODY: &str = "Nodes 3\nArcs 3\nA 1 2 4\nA 2 1 1\nA 2 3 3\nEND\n\
    SECTION Terminals\nTerminals 2\nRoot 1\nT 1\nT 3\n";

/// What is written in the place of a part of that file, and the instance that is meant then.
#[derive(Clone, Copy)]
struct Way {
    from: &'static str,
    to: &'static str,
    root: u32,
    terminals: &'static [u32],
    arcs: &'static [(u32, u32, u64)],
    scale: Scale,
}

/// The arcs of the file.
const ARCS: &[(u32, u32, u64)] = &[(1, 2, 4), (2, 1, 1), (2, 3, 3)];

/// That file with changes of one place.
const WAY_ROWS: &[Way] = &[
    Way {
        from: "T 3\nEND\n",
        to: "T 3\nEND\nEOF\nE 9\n",
        root: 1,
        terminals: &[1, 3],
        arcs: ARCS,
        scale: Scale::Whole,
    },
    // A root that is no terminal, that stands last, and that stands first.
    Way {
        from: "Root 1\n",
        to: "Root 2\n",
        root: 2,
        terminals: &[1, 3],
        arcs: ARCS,
        scale: Scale::Whole,
    },
    Way {
        from: "Root 1\nT 1\nT 3\n",
        to: "T 3\nT 1\nRoot 3\n",
        root: 3,
        terminals: &[1, 3],
        arcs: ARCS,
        scale: Scale::Whole,
    },
    Way {
        from: "Terminals 2\nRoot 1\nT 1\n",
        to: "root 01\nterminals 3\nt 1\nt 1\n",
        root: 1,
        terminals: &[1, 3],
        arcs: ARCS,
        scale: Scale::Whole,
    },
    // Several arcs of one pair, in any order, and loops.
    Way {
        from: "Arcs 3\nA 1 2 4\n",
        to: "# E 1 2 3\nArcs 5\nA 1 2 6\nA 1 2 4\nA 1 2 5\n",
        root: 1,
        terminals: &[1, 3],
        arcs: ARCS,
        scale: Scale::Whole,
    },
    Way {
        from: "Arcs 3\nA 1 2 4\nA 2 1 1\n",
        to: "arcs 6\na 1 2 4\na 2 1 3\na 1 2 7\na 2 1 1\na 2 2 0\n",
        root: 1,
        terminals: &[1, 3],
        arcs: ARCS,
        scale: Scale::Whole,
    },
    // Decimals, also on the line of a loop.
    Way {
        from: "A 1 2 4\n",
        to: "A 1 2 4.5\n",
        root: 1,
        terminals: &[1, 3],
        arcs: &[(1, 2, 4_500_000), (2, 1, 1_000_000), (2, 3, 3_000_000)],
        scale: Scale::Millionths,
    },
    Way {
        from: "Arcs 3\nA 1 2 4\n",
        to: "Arcs 4\nA 1 2 4.0\nA 1 1 0.000001\n",
        root: 1,
        terminals: &[1, 3],
        arcs: &[(1, 2, 4_000_000), (2, 1, 1_000_000), (2, 3, 3_000_000)],
        scale: Scale::Millionths,
    },
    // The fewest lines.
    Way {
        from: BODY,
        to: "Nodes 1\nArcs 0\nEND\nSECTION Terminals\nTerminals 1\nRoot 1\nT 1\n",
        root: 1,
        terminals: &[1],
        arcs: &[],
        scale: Scale::Whole,
    },
    Way {
        from: BODY,
        to: "Nodes 2\nArcs 1\nA 2 1 1000000000000\nEND\nSECTION Terminals\nTerminals 1\nT 1\nRoot 2\n",
        root: 2,
        terminals: &[1],
        arcs: &[(2, 1, 1_000_000_000_000)],
        scale: Scale::Whole,
    },
];

/// Whether an instance has these arcs, and no others.
fn has_arcs(
    alloc: Global,
    instance: &DiInstance,
    arcs: &[(u32, u32, u64)],
) -> Result<bool, AllocError> {
    let found: Vec<(u32, u32, u64)> = instance
        .arcs()
        .iter()
        .map(|l| (l.a, l.b, l.cost))
        .collect(alloc)?;
    Ok(found.as_slice() == arcs)
}

/// Whether an instance is the one that is meant.
fn is_way(alloc: Global, instance: &DiInstance, way: &Way) -> Result<bool, AllocError> {
    Ok(
        instance.root() == way.root
            && instance.terminals() == way.terminals
            && has_arcs(alloc, instance, way.arcs)?,
    )
}

/// Whether the file with a change is read as it is meant.
fn is_way_read(alloc: Global, way: &Way) -> Result<bool, Fail> {
    let text = changed(alloc, WAYS, way.from, way.to.as_bytes())?;
    match read_file(alloc, &text)? {
        File::Directed { instance, scale } => {
            Ok(scale == way.scale && is_way(alloc, &instance, way)?)
        }
        File::Plain(_) => Ok(false),
    }
}

#[test]
fn reads_directed_files(rt: HostRuntime) -> Result<(), Fail> {
    for way in WAY_ROWS {
        assert!(rt; is_way_read(rt.alloc(), way)?, "{}", way.to);
    }
    Ok(())
}

/// Whether the reader of files of links refuses the file with a change for its arcs.
fn is_way_refused(alloc: Global, way: &Way) -> Result<bool, Fail> {
    let text = changed(alloc, WAYS, way.from, way.to.as_bytes())?;
    match read_stp(alloc, &text) {
        Err(ReadError::Fault(fault)) => Ok(fault.reason == Reason::Directed),
        _ => Ok(false),
    }
}

#[test]
fn read_stp_refuses_directed_files(rt: HostRuntime) -> Result<(), Fail> {
    for way in WAY_ROWS {
        assert!(rt; is_way_refused(rt.alloc(), way)?, "{}", way.to);
    }
    Ok(())
}

/// Changes of that file, each with its fault.
const WAY_CHANGES: &[Change] = &[
    // The line Arcs.
    ("Arcs 3\n", b"Arcs\n", 4, Reason::BadLine),
    ("Arcs 3\n", b"Arcs 3 3\n", 4, Reason::BadLine),
    ("Arcs 3\n", b"Arcs x\n", 4, Reason::BadNumber),
    ("Arcs 3\n", b"Arcs 3.0\n", 4, Reason::BadNumber),
    ("Arcs 3\n", b"Arcs 4000001\n", 4, Reason::OutOfRange),
    ("Arcs 3\n", b"Arcs 3\nArcs 3\n", 5, Reason::BadLine),
    ("Arcs 3\n", b"Arcs 3\nArcs\n", 5, Reason::BadLine),
    (
        "Nodes 3\nArcs 3\n",
        b"Arcs 3\nNodes 3\n",
        3,
        Reason::BadLine,
    ),
    (
        "Nodes 3\nArcs 3\n",
        b"Arcs x\nNodes 3\n",
        3,
        Reason::BadLine,
    ),
    ("Nodes 3\nArcs 3\n", b"Arcs\n", 3, Reason::BadLine),
    ("Arcs 3\n", b"Arcs 2\n", 8, Reason::CountMismatch),
    ("A 1 2 4\n", b"", 7, Reason::CountMismatch),
    // Another line first, so that the file isn't directed.
    ("Nodes 3\n", b"A 1 2 4\n", 3, Reason::Directed),
    ("Arcs 3\n", b"A 1 2 4\n", 4, Reason::Directed),
    ("Arcs 3\n", b"A\n", 4, Reason::Directed),
    ("Arcs 3\n", b"E 1 2 4\nArcs 3\n", 4, Reason::BadLine),
    ("Arcs 3\n", b"Edges\nArcs 3\n", 4, Reason::BadLine),
    ("Arcs 3\n", b"Edges 3\n", 5, Reason::Directed),
    ("Arcs 3\n", b"Edges 3\nArcs 3\n", 5, Reason::Directed),
    ("Nodes 3\n", b"Edges 3\n", 3, Reason::BadLine),
    // Lines of links in a directed file.
    ("Arcs 3\n", b"Arcs 3\nEdges 3\n", 5, Reason::Directed),
    ("Arcs 3\n", b"Arcs 3\nEdges\n", 5, Reason::Directed),
    ("A 1 2 4\n", b"E 1 2 4\n", 5, Reason::Directed),
    ("A 1 2 4\n", b"E 9 9 x\n", 5, Reason::Directed),
    ("A 1 2 4\n", b"E 1\n", 5, Reason::Directed),
    // The lines A.
    ("A 1 2 4\n", b"A 1 9 4\n", 5, Reason::VertexRange),
    ("A 1 2 4\n", b"A 0 2 4\n", 5, Reason::VertexRange),
    ("A 1 2 4\n", b"A 1 2\n", 5, Reason::BadLine),
    ("A 1 2 4\n", b"A 1 2 4 4\n", 5, Reason::BadLine),
    ("A 1 2 4\n", b"A 1 9 x\n", 5, Reason::BadNumber),
    ("A 1 2 4\n", b"A 1 2 0.0000001\n", 5, Reason::Fraction),
    (
        "A 1 2 4\n",
        b"A 9 2 1000000000001.0000001\n",
        5,
        Reason::Fraction,
    ),
    ("A 1 2 4\n", b"A 9 2 1000000000001\n", 5, Reason::OutOfRange),
    (
        "A 1 2 4\nA 2 1 1\n",
        b"A 1 2 0.5\nA 2 1 1000001\n",
        6,
        Reason::ScaleRange,
    ),
    (
        "A 1 2 4\nA 2 1 1\n",
        b"A 1 1 1000001\nA 2 1 0.5\n",
        6,
        Reason::ScaleRange,
    ),
    ("A 1 2 4\n", b"Nodes 3\n", 5, Reason::BadLine),
    ("A 1 2 4\n", b"EOF\n", 5, Reason::Unclosed),
    ("A 1 2 4\n", b"SECTION Terminals\n", 5, Reason::Unclosed),
    // Sections.
    (
        "SECTION Terminals\n",
        b"SECTION Graph\n",
        9,
        Reason::RepeatedSection,
    ),
    ("T 3\nEND\n", b"T 3\n", 14, Reason::Unclosed),
    (
        "T 3\nEND\n",
        b"T 3\nEND\nSECTION Terminals\n",
        15,
        Reason::RepeatedSection,
    ),
    (
        "SECTION Terminals\nTerminals 2\nRoot 1\nT 1\nT 3\nEND\n",
        b"EOF\n",
        9,
        Reason::NoTerminals,
    ),
    (
        "SECTION Terminals\nTerminals 2\nRoot 1\nT 1\nT 3\nEND\n",
        b"",
        9,
        Reason::NoTerminals,
    ),
    // The lines of Terminals.
    ("T 1\n", b"TP 1 5\n", 12, Reason::BadLine),
    ("T 1\n", b"TP x\n", 12, Reason::BadLine),
    ("T 1\n", b"RootP 1\n", 12, Reason::BadLine),
    ("T 1\n", b"RootP\n", 12, Reason::BadLine),
    ("T 1\n", b"T 4\n", 12, Reason::VertexRange),
    ("T 1\n", b"T\n", 12, Reason::BadLine),
    ("T 1\n", b"A 1 2 3\n", 12, Reason::BadLine),
    ("T 1\n", b"EOF\n", 12, Reason::Unclosed),
    (
        "Terminals 2\n",
        b"RootP 1\nTerminals 2\n",
        10,
        Reason::BadLine,
    ),
    (
        "Terminals 2\n",
        b"TP 1 5\nTerminals 2\n",
        10,
        Reason::BadLine,
    ),
    ("Terminals 2\n", b"T 1\nTerminals 2\n", 10, Reason::BadLine),
    (
        "Terminals 2\n",
        b"Terminals 2\nTerminals 2\n",
        11,
        Reason::BadLine,
    ),
    (
        "Terminals 2\n",
        b"Terminals 2000001\n",
        10,
        Reason::OutOfRange,
    ),
    // The root.
    ("Root 1\n", b"Root 1\nRoot 1\n", 12, Reason::BadLine),
    ("Root 1\n", b"Root 1\nRoot x\n", 12, Reason::BadLine),
    ("T 3\n", b"T 3\nRoot 2\n", 14, Reason::BadLine),
    (
        "Terminals 2\n",
        b"Root 1\nTerminals 2\n",
        12,
        Reason::BadLine,
    ),
    (
        "Terminals 2\n",
        b"Root 0\nTerminals 2\n",
        10,
        Reason::VertexRange,
    ),
    ("Root 1\n", b"Root 0\n", 11, Reason::VertexRange),
    ("Root 1\n", b"Root 4\n", 11, Reason::VertexRange),
    ("Root 1\n", b"Root x\n", 11, Reason::BadNumber),
    ("Root 1\n", b"Root 1 2\n", 11, Reason::BadLine),
    // The end of Terminals.
    ("Root 1\n", b"", 13, Reason::NoRoot),
    ("Root 1\nT 1\n", b"", 12, Reason::CountMismatch),
    ("Root 1\nT 1\nT 3\n", b"Root 1\n", 12, Reason::CountMismatch),
    ("Terminals 2\n", b"Terminals 3\n", 14, Reason::CountMismatch),
    (
        "Terminals 2\nRoot 1\nT 1\nT 3\n",
        b"Terminals 0\nRoot 1\n",
        12,
        Reason::NoTerminals,
    ),
    (
        "Terminals 2\nRoot 1\nT 1\nT 3\n",
        b"Terminals 0\n",
        11,
        Reason::NoTerminals,
    ),
];

/// Whether a text is refused for this line and reason, where directed files are read.
fn is_file_refused(alloc: Global, text: &[u8], line: u64, reason: Reason) -> bool {
    match read_file(alloc, text) {
        Err(ReadError::Fault(fault)) => fault.line == line && fault.reason == reason,
        _ => false,
    }
}

/// Whether the file is refused so with this change.
fn is_way_change_refused(alloc: Global, change: &Change) -> Result<bool, Fail> {
    let (from, to, line, reason) = *change;
    let text = changed(alloc, WAYS, from, to)?;
    Ok(is_file_refused(alloc, &text, line, reason))
}

#[test]
fn refuses_bad_directed_files(rt: HostRuntime) -> Result<(), Fail> {
    for change in WAY_CHANGES {
        let (from, to, ..) = *change;
        assert!(rt;
            is_way_change_refused(rt.alloc(), change)?,
            "{to:?} for {from}"
        );
    }
    Ok(())
}

/// Whether a file of links is read as it is meant where directed files are, too.
fn is_read_as_file(alloc: Global, case: &Case) -> Result<bool, Fail> {
    let rest = case.text;
    let text = format!(in alloc; "{HEADER}{rest}")?;
    match read_file(alloc, text.as_bytes())? {
        File::Plain(read) => Ok(is_meant(alloc, &read, case)?),
        File::Directed { .. } => Ok(false),
    }
}

#[test]
fn reads_files_of_links_alike(rt: HostRuntime) -> Result<(), Fail> {
    file_refused_exactly();
    reads_alike();
    for case in LINKED {
        assert!(rt; is_read_as_file(rt.alloc(), case)?);
    }
    for case in PRIZED {
        assert!(rt; is_read_as_file(rt.alloc(), case)?);
    }
    Ok(())
}

/// Whether the star's file with a change is refused so where directed files are read, or has a line Arcs.
fn is_refused_alike(alloc: Global, change: &Change) -> Result<bool, Fail> {
    let (from, to, line, reason) = *change;
    let text = changed(alloc, super::STAR, from, to)?;
    Ok(to.starts_with(b"Arcs") || is_file_refused(alloc, &text, line, reason))
}

#[test]
fn refuses_files_of_links_alike(rt: HostRuntime) -> Result<(), Fail> {
    for change in PLAIN_CHANGES {
        let (from, to, ..) = *change;
        assert!(rt; is_refused_alike(rt.alloc(), change)?, "{to:?} for {from}");
    }
    Ok(())
}
