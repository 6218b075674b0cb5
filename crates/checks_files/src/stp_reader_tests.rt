use amounts::Scale;
use st_model::{Instance, Need};
use std::alloc::{AllocError, Global};
use std::test::Fail;
use stp_reader::{ReadError, Reading, Reason, read_stp, refused_exactly};

mod decimals;
mod directed;
mod drawn;
mod drawn_arcs;
mod pinned;

const HEADER: &str = "33D32945 STP File, STP Format Version 1.0";

/// A star of three vertices around a fourth, with the sides between them.
const STAR: &str = "33D32945 STP File, STP Format Version 1.0\nSECTION Graph\nNodes 4\nEdges 6\n\
    E 1 4 2\nE 2 4 2\nE 3 4 2\nE 1 2 4\nE 2 3 4\nE 1 3 4\nEND\n\
    SECTION Terminals\nTerminals 3\nT 1\nT 2\nT 3\nEND\nEOF\n";

/// What stands after the first words of a file, and the instance that is meant by it, with what its amounts count.
#[derive(Clone, Copy)]
struct Case {
    text: &'static str,
    links: &'static [(u32, u32, u64)],
    needs: &'static [Need],
    scale: Scale,
}

/// Whether an instance has these links and needs, and no others.
fn is_instance(
    alloc: Global,
    instance: &Instance,
    links: &[(u32, u32, u64)],
    needs: &[Need],
) -> Result<bool, AllocError> {
    let found: Vec<(u32, u32, u64)> = instance
        .links()
        .iter()
        .map(|l| (l.a, l.b, l.cost))
        .collect(alloc)?;
    Ok(found.as_slice() == links && instance.needs() == needs)
}

/// Whether what was read is what is meant.
fn is_meant(alloc: Global, read: &Reading, case: &Case) -> Result<bool, AllocError> {
    Ok(read.scale == case.scale && is_instance(alloc, &read.instance, case.links, case.needs)?)
}

/// Whether a file with these first words is read as it is meant.
fn is_read(alloc: Global, start: &str, case: &Case) -> Result<bool, Fail> {
    let rest = case.text;
    let text = format!(in alloc; "{start}{rest}")?;
    Ok(is_meant(alloc, &read_stp(alloc, text.as_bytes())?, case)?)
}

/// The links of the star.
const SIDES: &[(u32, u32, u64)] = &[
    (1, 4, 2),
    (2, 4, 2),
    (3, 4, 2),
    (1, 2, 4),
    (2, 3, 4),
    (1, 3, 4),
];

/// What the vertices of the star need.
const STAR_NEEDS: &[Need] = &[
    Need::Required,
    Need::Required,
    Need::Required,
    Need::Pays(0),
];

/// Two vertices that are both required.
const BOTH: &[Need] = &[Need::Required, Need::Required];

/// Texts with links, and with terminals alone.
const LINKED: &[Case] = &[
    Case {
        text: "\nSECTION Graph\nNodes 1\nEdges 0\nEND\nSECTION Terminals\nTerminals 1\nT 1\nEND\nEOF\n",
        links: &[],
        needs: &[Need::Required],
        scale: Scale::Whole,
    },
    Case {
        text: "\nSECTION Graph\nNodes 2\nEdges 2\nE 1 2 5\nE 2 1 3\nEND\nSECTION Terminals\nTerminals 2\nT 1\nT 2\nEND\nEOF\n",
        links: &[(1, 2, 3)],
        needs: BOTH,
        scale: Scale::Whole,
    },
    Case {
        text: "\nSECTION Graph\nNodes 2\nEdges 2\nE 2 1 3\nE 1 2 5\nEND\nSECTION Terminals\nTerminals 2\nT 1\nT 2\nEND\nEOF\n",
        links: &[(1, 2, 3)],
        needs: BOTH,
        scale: Scale::Whole,
    },
    Case {
        text: "\nSECTION Graph\nNodes 2\nEdges 3\nE 1 2 5\nE 2 1 3\nE 1 1 4\nEND\nSECTION Terminals\nTerminals 2\nT 1\nT 2\nEND\nEOF\n",
        links: &[(1, 2, 3)],
        needs: BOTH,
        scale: Scale::Whole,
    },
    Case {
        text: "\nSECTION Graph\nNodes 3\nEdges 1\nE 1 2 7\nEND\nSECTION Terminals\nTerminals 2\nT 1\nT 3\nEND\nEOF\n",
        links: &[(1, 2, 7)],
        needs: &[Need::Required, Need::Pays(0), Need::Required],
        scale: Scale::Whole,
    },
    Case {
        text: "\nSECTION Graph\nNodes 2\nEdges 1\nE 1 2 1000000000000\nEND\nSECTION Terminals\nTerminals 3\nT 1\nT 2\nT 1\nEND\n",
        links: &[(1, 2, 1_000_000_000_000)],
        needs: BOTH,
        scale: Scale::Whole,
    },
    Case {
        text: "\nSECTION Graph\nNodes 02\nEdges 1\nE 1 002 5.0\nEND\nSECTION Terminals\nRoot 2\nTerminals 2\nT 1\nT 2\nEND\nEOF\nE 9",
        links: &[(1, 2, 5)],
        needs: BOTH,
        scale: Scale::Whole,
    },
    Case {
        text: "\n\tSECTION  Graph \nNodes 2\n\n# E\nEdges 1\n #E 9\nE\t1 2 5.\nEND\nSECTION Tree\nSECTION Graph\nEOF\nEND x\nEND\nSECTION Terminals\nTerminals 2\nT 1\nT 2\nEND",
        links: &[(1, 2, 5)],
        needs: BOTH,
        scale: Scale::Whole,
    },
];

/// First words that a file may have.
const STARTS: &[&str] = &[
    HEADER,
    "\n#\n\t \nMagic 33d32945",
    "SECTION 33D32945",
    "# no header",
];

/// Whether a file with any of these first words is read as it is meant.
fn is_read_from_all(alloc: Global, case: &Case) -> Result<bool, Fail> {
    for start in STARTS {
        if !is_read(alloc, start, case)? {
            return Ok(false);
        }
    }
    Ok(true)
}

#[test]
fn reads_links_and_terminals(rt: HostRuntime) -> Result<(), Fail> {
    for case in LINKED {
        assert!(rt; is_read_from_all(rt.alloc(), case)?);
    }
    Ok(())
}

/// Texts with prizes.
const PRIZED: &[Case] = &[
    Case {
        text: "\nSECTION Graph\nNodes 2\nEdges 1\nE 1 2 5\nEND\nSECTION Terminals\nTerminals 2\nTP 1 3\nTP 2 4\nEND\nEOF\n",
        links: &[(1, 2, 5)],
        needs: &[Need::Pays(3), Need::Pays(4)],
        scale: Scale::Whole,
    },
    Case {
        text: "\nSECTION Graph\nNodes 2\nEdges 1\nE 1 2 2\nEND\nSECTION Terminals\nTerminals 2\nTP 1 3\nTP 2 4\nEND\nEOF\n",
        links: &[(1, 2, 2)],
        needs: &[Need::Pays(3), Need::Pays(4)],
        scale: Scale::Whole,
    },
    Case {
        text: "\nSECTION Graph\nNodes 2\nEdges 1\nE 1 2 3\nEND\nSECTION Terminals\nTerminals 2\nTP 1 3\nTP 2 4\nEND\nEOF\n",
        links: &[(1, 2, 3)],
        needs: &[Need::Pays(3), Need::Pays(4)],
        scale: Scale::Whole,
    },
    Case {
        text: "\nSECTION Graph\nNodes 3\nEdges 2\nE 1 2 1\nE 2 3 1\nEND\nSECTION Terminals\nTerminals 1\nTP 2 0\nEND\nEOF\n",
        links: &[(1, 2, 1), (2, 3, 1)],
        needs: &[Need::Pays(0), Need::Pays(0), Need::Pays(0)],
        scale: Scale::Whole,
    },
    Case {
        text: "\nSECTION Graph\nNodes 3\nEdges 2\nE 1 3 4\nE 3 2 5\nEND\nSECTION Terminals\nTerminals 2\nT 1\nTP 2 10\nEND\nEOF\n",
        links: &[(1, 3, 4), (2, 3, 5)],
        needs: &[Need::Required, Need::Pays(10), Need::Pays(0)],
        scale: Scale::Whole,
    },
    Case {
        text: "\nSECTION Graph\nNodes 2\nEdges 0\nEND\nSECTION Terminals\nTerminals 4\nT 1\nTP 1 10\nTP 2 7.00\nT 2\nRoot 1\nEND\n",
        links: &[],
        needs: BOTH,
        scale: Scale::Whole,
    },
];

#[test]
fn reads_prizes(rt: HostRuntime) -> Result<(), Fail> {
    for case in PRIZED {
        assert!(rt; is_read(rt.alloc(), HEADER, case)?);
    }
    Ok(())
}

/// The star in small letters.
const SMALL: Case = Case {
    text: "\r\nsection coordinates\r\ndd 1 0 0\r\nend\r\nsection graph\r\nnodes 4\r\nedges 6\r\n\
        e 1 4 2\r\ne 2 4 2\r\ne 3 4 2\r\ne 1 2 4\r\ne 2 3 4\r\ne 1 3 4\r\nend\r\n\
        section terminals\r\nterminals 3\r\nt 1\r\nt 2\r\nt 3\r\nend\r",
    links: SIDES,
    needs: STAR_NEEDS,
    scale: Scale::Whole,
};

#[test]
fn reads_small_letters_and_carriage_returns(rt: HostRuntime) -> Result<(), Fail> {
    let start = "33d32945 stp file, stp format version 1.0";
    assert!(rt; is_read(rt.alloc(), start, &SMALL)?);
    Ok(())
}

/// Whether a text is read as an instance of so many vertices and links.
fn has_sizes(alloc: Global, text: &[u8], vertices: u32, links: usize) -> Result<bool, Fail> {
    let read = read_stp(alloc, text)?;
    Ok(read.instance.vertices() == vertices && read.instance.links().len() == links)
}

#[test]
fn reads_as_many_vertices_as_there_may_be(rt: HostRuntime) -> Result<(), Fail> {
    let text = format!(in rt.alloc();
        "{HEADER}\nSECTION Graph\nNodes 1000000\nEdges 0\nEND\n\
        SECTION Terminals\nTerminals 1\nT 1000000\nEND\nEOF\n"
    )?;
    assert!(rt; has_sizes(rt.alloc(), text.as_bytes(), 1_000_000, 0)?);
    Ok(())
}

/// Whether a text is refused for this line and reason.
fn is_refused(alloc: Global, text: &[u8], line: u64, reason: Reason) -> bool {
    match read_stp(alloc, text) {
        Err(ReadError::Fault(fault)) => fault.line == line && fault.reason == reason,
        _ => false,
    }
}

/// Whole texts, each with its fault.
const TEXTS: &[(&str, u64, Reason)] = &[
    ("", 1, Reason::NoHeader),
    ("hello", 1, Reason::NoHeader),
    ("#\n#\n#\n", 4, Reason::NoHeader),
    ("\n \nhello\n33D32945\n", 3, Reason::NoHeader),
    ("33D32945", 2, Reason::NoGraph),
    ("33D32945\nEOF\n", 2, Reason::NoGraph),
    ("SECTION", 1, Reason::BadLine),
    ("SECTION Presolve\n", 1, Reason::UnknownSection),
    ("SECTION Comment\nEOF\n", 3, Reason::Unclosed),
    ("33D32945\n\nSECTION Graph Tree\n", 3, Reason::BadLine),
    (
        "H 33D32945\nSECTION Graph\nNodes 2\nEdges 1\nE 1 2 5\n",
        6,
        Reason::Unclosed,
    ),
    (
        "33D32945 H\nSECTION Graph\nNodes 3\nEdges 3\nE 1 2 1\nE 2 3 1\nEND",
        7,
        Reason::CountMismatch,
    ),
    (
        "33D32945\nSECTION Graph\nNodes 2\nEdges 0\nEND\nEOF\n",
        6,
        Reason::NoTerminals,
    ),
];

#[test]
fn refuses_texts(rt: HostRuntime) {
    for row in TEXTS {
        let (text, line, reason) = *row;
        assert!(rt;
            is_refused(rt.alloc(), text.as_bytes(), line, reason),
            "{text}"
        );
    }
}

/// What stands in the star's file, what is written in its place, and the fault.
type Change = (&'static str, &'static [u8], u64, Reason);

/// Changes of one place.
const CHANGES: &[Change] = &[
    ("T 3\nEND\nEOF\n", b"T 3\n", 17, Reason::Unclosed),
    ("T 3\nEND\nEOF\n", b"T 3\nEN", 17, Reason::BadLine),
    ("T 3\nEND\nEOF\n", b"T 3\nEND\nEO", 18, Reason::BadLine),
    ("T 3\nEND\nEOF\n", b"T 3\nEND\nEOF x\n", 18, Reason::BadLine),
    (
        "T 3\nEND\nEOF\n",
        b"T 3\nEND\nSECTION Graph\n",
        18,
        Reason::RepeatedSection,
    ),
    (
        "T 3\nEND\nEOF\n",
        b"T 3\nEND\nSECTION Terminals\n",
        18,
        Reason::RepeatedSection,
    ),
    (
        "END\nSECTION Terminals\nTerminals 3\nT 1\nT 2\nT 3\nEND\nEOF\n",
        b"END\n",
        12,
        Reason::NoTerminals,
    ),
    (
        "END\nSECTION Terminals\nTerminals 3\nT 1\nT 2\nT 3\nEND\nEOF\n",
        b"END\nEOF\n",
        12,
        Reason::NoTerminals,
    ),
    ("SECTION Graph", b"SECTION Terminals", 2, Reason::GraphFirst),
    (
        "SECTION Graph",
        b"SECTION Presolve",
        2,
        Reason::UnknownSection,
    ),
    ("SECTION Graph", b"E 1 2 5", 2, Reason::BadLine),
    (
        "SECTION Graph",
        b"SECTION Comment\nEND\nSECTION Graph\r\r",
        4,
        Reason::UnknownSection,
    ),
    ("Nodes 4", b"Nodes 0", 3, Reason::NoVertices),
    ("Nodes 4", b"Nodes 99999999999", 3, Reason::OutOfRange),
    (
        "Nodes 4",
        b"Nodes 36893488147419103236",
        3,
        Reason::OutOfRange,
    ),
    ("Nodes 4", b"Nodes 1000001", 3, Reason::OutOfRange),
    ("Nodes 4", b"Nodes -", 3, Reason::BadNumber),
    ("Nodes 4", b"Nodes 4 4", 3, Reason::BadLine),
    ("Nodes 4", b"Edges 6", 3, Reason::BadLine),
    ("Nodes 4", b"A", 3, Reason::Directed),
    ("Nodes 4", b"END", 3, Reason::BadLine),
    ("Nodes 4", b"EOF", 3, Reason::Unclosed),
    ("Edges 6", b"END", 4, Reason::BadLine),
    ("Edges 6", b"Nodes 4", 4, Reason::BadLine),
    ("Edges 6", b"Arcs 6", 4, Reason::Directed),
    ("Edges 6", b"Edges 4000001", 4, Reason::OutOfRange),
    ("Edges 6", b"Edges 6.0", 4, Reason::BadNumber),
    ("Edges 6", b"Edges 7", 11, Reason::CountMismatch),
    ("Edges 6", b"Edges 5", 11, Reason::CountMismatch),
    ("E 1 4 2", b"E 0 4 2", 5, Reason::VertexRange),
    ("E 1 4 2", b"E 1 9 x", 5, Reason::BadNumber),
    ("E 1 4 2", b"\xff", 5, Reason::BadLine),
    ("E 1 4 2", b"A 1 2 5", 5, Reason::Directed),
    ("E 1 4 2", b"E 1 4 1000000000001", 5, Reason::OutOfRange),
    (
        "E 1 4 2",
        b"E 1 4 1000000000000000000002",
        5,
        Reason::OutOfRange,
    ),
    ("E 1 4 2", b"E 9 4 5.5", 5, Reason::VertexRange),
    ("E 1 4 2", b"E 9 4 1000000000001", 5, Reason::OutOfRange),
    ("E 1 4 2", b"E 9 4 1000000000001.01", 5, Reason::OutOfRange),
    ("E 1 4 2", b"E 1 4 -1", 5, Reason::BadNumber),
    ("E 1 4 2", b"E 1 4 .5", 5, Reason::BadNumber),
    ("E 1 4 2", b"E 1 4 5.0.0", 5, Reason::BadNumber),
    ("E 1 4 2", b"E 1 4 2\r\r", 5, Reason::BadNumber),
    ("E 1 4 2", b"E 1 4\r 2", 5, Reason::BadNumber),
    (
        "E 1 4 2",
        b"E 1 18446744073709551620 2",
        5,
        Reason::VertexRange,
    ),
    ("E 1 4 2", b"E 1 4", 5, Reason::BadLine),
    ("E 1 4 2", b"E 1 4 2 2", 5, Reason::BadLine),
    ("E 1 4 2", b"SECTION", 5, Reason::Unclosed),
    ("E 1 4 2", b"EOF", 5, Reason::Unclosed),
    ("E 1 4 2", b"EOF EOF", 5, Reason::BadLine),
    ("E 1 4 2", b"Edges 6", 5, Reason::BadLine),
    ("E 1 4 2", b"T 1", 5, Reason::BadLine),
    ("E 1 4 2\nE 2 4 2", b"E 1 4 5.5\nE 1 4", 6, Reason::BadLine),
    ("END\nSECTION T", b"END x\nSECTION T", 11, Reason::BadLine),
    (
        "SECTION Terminals",
        b"SECTION Graph",
        12,
        Reason::RepeatedSection,
    ),
    ("SECTION Terminals", b"33D32945", 12, Reason::BadLine),
    (
        "SECTION Terminals",
        b"SECTION Terminals\nEND",
        13,
        Reason::BadLine,
    ),
    (
        "SECTION Terminals",
        b"SECTION Terminals\nT 1",
        13,
        Reason::BadLine,
    ),
    (
        "Terminals 3\nT 1\nT 2\nT 3\n",
        b"Terminals 0\n",
        14,
        Reason::NoTerminals,
    ),
    (
        "Terminals 3\n",
        b"Terminals 2000001\n",
        13,
        Reason::OutOfRange,
    ),
    ("Terminals 3\n", b"Terminals 2\n", 17, Reason::CountMismatch),
    (
        "Terminals 3\n",
        b"Root 4\nTerminals 2\n",
        18,
        Reason::CountMismatch,
    ),
    (
        "Terminals 3\n",
        b"Root 4\nTerminals 3\n",
        18,
        Reason::RootNotTerminal,
    ),
    (
        "Terminals 3\n",
        b"Root 5\nTerminals 3\n",
        13,
        Reason::VertexRange,
    ),
    ("T 1\n", b"T 0\n", 14, Reason::VertexRange),
    ("T 1\n", b"T 1 1\n", 14, Reason::BadLine),
    ("T 1\n", b"A 1 2\n", 14, Reason::BadLine),
    ("T 1\n", b"EOF\n", 14, Reason::Unclosed),
    ("T 1\n", b"Terminals 3\n", 14, Reason::BadLine),
    ("T 1\n", b"TP 1\n", 14, Reason::BadLine),
    ("T 1\n", b"TP 5 0.5\n", 14, Reason::VertexRange),
    ("T 1\nT 2\n", b"TP 1 3\nTP 1 4\n", 15, Reason::RepeatedPrize),
    (
        "T 1\nT 2\n",
        b"TP 1 3\nTP 1 1000000000001\n",
        15,
        Reason::OutOfRange,
    ),
    (
        "T 1\nT 2\n",
        b"TP 1 3\nTP 2 4\nRoot 1\n",
        18,
        Reason::RootNotTerminal,
    ),
    ("T 1\nT 2\n", b"Root 1\nT 2\nRoot x\n", 16, Reason::BadLine),
    (
        "Terminals 3\nT 1\nT 2\nT 3\n",
        b"Root 1\nTerminals 0\n",
        15,
        Reason::RootNotTerminal,
    ),
];

/// A file with this in the place of that.
fn changed(alloc: Global, file: &str, from: &str, to: &[u8]) -> Result<Vec<u8>, Fail> {
    let (before, after) = file.split_once(from).ok_or("the file has no such part")?;
    let mut text = Vec::new(alloc);
    text.extend_from_slice(before.as_bytes())?;
    text.extend_from_slice(to)?;
    text.extend_from_slice(after.as_bytes())?;
    Ok(text)
}

/// Whether the star's file is refused so with this change.
fn is_change_refused(alloc: Global, change: &Change) -> Result<bool, Fail> {
    let (from, to, line, reason) = *change;
    Ok(is_refused(alloc, &changed(alloc, STAR, from, to)?, line, reason))
}

#[test]
fn refuses_one_change(rt: HostRuntime) -> Result<(), Fail> {
    for change in CHANGES {
        let (from, to, ..) = *change;
        assert!(rt; is_change_refused(rt.alloc(), change)?, "{to:?} for {from}");
    }
    Ok(())
}

/// Whether the star is read of its file with another end.
fn ends_with(alloc: Global, to: &[u8]) -> Result<bool, Fail> {
    has_sizes(alloc, &changed(alloc, STAR, "T 3\nEND\nEOF\n", to)?, 4, 6)
}

/// Other ends of that file.
const ENDS: &[&[u8]] = &[b"T 3\nEND", b"T 3\nEND\nEOF\nE 1\n\xff", b"T 3\r\nEND\r"];

#[test]
fn reads_a_file_cut_after_its_end(rt: HostRuntime) -> Result<(), Fail> {
    for to in ENDS {
        assert!(rt; ends_with(rt.alloc(), to)?);
    }
    Ok(())
}

#[test]
fn tells_reasons(rt: HostRuntime) {
    refused_exactly();
    let reasons = [
        Reason::NoHeader,
        Reason::BadNumber,
        Reason::NoVertices,
        Reason::ScaleRange,
        Reason::NoRoot,
    ];
    assert_eq!(rt; reasons.map(|reason| reason.code()), [1, 6, 17, 18, 19]);
    assert_eq!(rt; Reason::CountMismatch.name(), "CountMismatch");
    assert_eq!(rt; Reason::ScaleRange.name(), "ScaleRange");
    assert_eq!(rt; Reason::NoRoot.name(), "NoRoot");
}
