use crate::answer::{tell, tell_few, tell_length, tell_solution};
use st_edge::{MemoryShelf, Shelf, Sink};
use std::alloc::{AllocError, Global};
use std::sync::Wait;
use std::thread::Threads;

/// The words of a line, or the bytes of a name, that is far too long.
const MANY: usize = 1 << 20;

/// The lines that say what one vertex pays, or that it is reached.
const MILLION: usize = 1_000_000;

/// The lines of a file before those.
const BEFORE_PRIZES: &str =
    "33D32945 STP File, STP Format Version 1.0\nSECTION Graph\nNodes 2\nEdges 1\nE 1 2 5\nEND\nSECTION Terminals\nTerminals 1000000\n";

/// Texts that say how many vertices there are, and little else.
const SIZES: &[(&str, &str)] = &[
    ("a file of the line Nodes 1000000", "Nodes 1000000\n"),
    (
        "a file that ends after Nodes 1000000",
        "33D32945 STP File, STP Format Version 1.0\nSECTION Graph\nNodes 1000000\n",
    ),
    (
        "a text that counts 1000000 vertices and names one",
        "SECTION Finalsolution\nVertices 1000000\nV 1\nEND\nEOF\n",
    ),
];

/// What a log of the triangle says that it has: arcs, steps, cuts, and vertices of its first cut.
struct Counts {
    title: &'static str,
    arcs: u64,
    steps: u64,
    cuts: u64,
    vertices: u64,
}

const COUNTS: &[Counts] = &[
    Counts {
        title: "a log whose counts are right",
        arcs: 3,
        steps: 0,
        cuts: 3,
        vertices: 1,
    },
    Counts {
        title: "a log that counts 2^64 - 1 arcs",
        arcs: u64::MAX,
        steps: 0,
        cuts: 3,
        vertices: 1,
    },
    Counts {
        title: "a log that counts 2^64 - 1 steps",
        arcs: 3,
        steps: u64::MAX,
        cuts: 3,
        vertices: 1,
    },
    Counts {
        title: "a log that counts 2^64 - 1 cuts",
        arcs: 3,
        steps: 0,
        cuts: u64::MAX,
        vertices: 1,
    },
    Counts {
        title: "a log that counts 2^64 - 1 vertices of a cut",
        arcs: 3,
        steps: 0,
        cuts: 3,
        vertices: u64::MAX,
    },
    Counts {
        title: "a log that counts 2^64 - 1 of all",
        arcs: u64::MAX,
        steps: u64::MAX,
        cuts: u64::MAX,
        vertices: u64::MAX,
    },
];

/// A log that claims that there is no tree, and counts more vertices than it names.
const WALL: &str = "STEINERLOG 1\nCLAIM NONE\nWALL 18446744073709551615 1 2\nEND\n";

/// Tells how texts are answered that are far too long, or say that they are, some of them beside
/// the triangle's file.
pub fn tell_extremes<R: Threads + Wait + Sync, K: Sink>(
    rt: &R,
    alloc: Global,
    triangle: &[u8],
    out: &mut K,
) -> Result<(), AllocError> {
    tell_lines(rt, alloc, triangle, out)?;
    tell_names(rt, alloc, triangle, out)?;
    tell_counts(rt, alloc, triangle, out)?;
    tell_prizes(rt, alloc, triangle, out)?;
    tell_vertices(rt, alloc, triangle, out)?;
    tell_sizes(rt, alloc, triangle, out)
}

// A shelf with a text under a name.
fn shelf_of(alloc: Global, name: &str, text: &[u8]) -> Result<MemoryShelf, AllocError> {
    let name = String::from_str(alloc, name)?;
    let text = Vec::from_slice(alloc, text)?;
    let texts = vec![in alloc; (name, text)]?;
    Ok(MemoryShelf::of(alloc, texts, Vec::new(alloc)))
}

// A shelf with a file under `a.stp` and another text under `b`.
fn shelf_with(alloc: Global, file: &[u8], text: &str) -> Result<MemoryShelf, AllocError> {
    let mut shelf = shelf_of(alloc, "a.stp", file)?;
    match shelf.save("b", text.as_bytes()) {
        Ok(()) => Ok(shelf),
        Err(_) => Err(AllocError),
    }
}

// One line of many words, as a file, as a log and as a solution.
fn tell_lines<R: Threads + Wait + Sync, K: Sink>(
    rt: &R,
    alloc: Global,
    triangle: &[u8],
    out: &mut K,
) -> Result<(), AllocError> {
    let mut line = "w ".repeat(alloc, MANY)?;
    line.push('\n')?;
    let mut shelf = shelf_with(alloc, triangle, &line)?;
    let title = "a file of one line of 1048576 words";
    tell(rt, alloc, title, &["solve", "b"], &mut shelf, out)?;
    tell_few(rt, alloc, title, "b", &mut shelf, out)?;
    let title = "a log of one line of 1048576 words";
    tell(rt, alloc, title, &["check", "a.stp", "b"], &mut shelf, out)?;
    tell_solution(rt, alloc, title, "a.stp", "b", &mut shelf, out)
}

// A long name under which there is a file, and one under which there is none until its log is saved.
fn tell_names<R: Threads + Wait + Sync, K: Sink>(
    rt: &R,
    alloc: Global,
    triangle: &[u8],
    out: &mut K,
) -> Result<(), AllocError> {
    let name = "n".repeat(alloc, MANY)?;
    let log = "l".repeat(alloc, MANY)?;
    let mut shelf = shelf_of(alloc, &name, triangle)?;
    tell_pair(rt, alloc, &name, &log, &mut shelf, out)
}

// The same once the names are made.
fn tell_pair<R: Threads + Wait + Sync, F: Shelf, K: Sink>(
    rt: &R,
    alloc: Global,
    name: &str,
    log: &str,
    shelf: &mut F,
    out: &mut K,
) -> Result<(), AllocError> {
    let title = "no file under a name of 1048576 bytes";
    tell(rt, alloc, title, &["solve", log], shelf, out)?;
    let title = "a file under a name of 1048576 bytes";
    tell_length(rt, alloc, title, &["solve", name, "--log", log], shelf, out)?;
    let title = "the same, of few terminals";
    tell_length(rt, alloc, title, &["few", name], shelf, out)?;
    let title = "a log under a name of 1048576 bytes";
    tell(rt, alloc, title, &["check", name, log], shelf, out)?;
    tell_solution(rt, alloc, title, name, log, shelf, out)
}

fn log_of(alloc: Global, counts: &Counts) -> Result<String, AllocError> {
    let (arcs, steps, cuts, vertices) = (counts.arcs, counts.steps, counts.cuts, counts.vertices);
    format!(in alloc;
        "STEINERLOG 1\nCLAIM TREE 6 6\nTREE 1 {arcs}\nA 1 4\nA 4 2\nA 4 3\nSTEPS {steps}\nPROOF\n\
        C 1 {cuts}\nU 2 2 {vertices} 2\nU 3 2 1 3\nU 2 2 3 2 3 4\nEND\n"
    )
}

// Logs of the triangle with these counts, and the wall's.
fn tell_counts<R: Threads + Wait + Sync, K: Sink>(
    rt: &R,
    alloc: Global,
    triangle: &[u8],
    out: &mut K,
) -> Result<(), AllocError> {
    for counts in COUNTS {
        let log = log_of(alloc, counts)?;
        tell_log(rt, alloc, counts.title, triangle, &log, out)?;
    }
    let title = "a log that counts 2^64 - 1 vertices of a wall";
    tell_log(rt, alloc, title, triangle, WALL, out)
}

fn tell_log<R: Threads + Wait + Sync, K: Sink>(
    rt: &R,
    alloc: Global,
    title: &str,
    file: &[u8],
    log: &str,
    out: &mut K,
) -> Result<(), AllocError> {
    let mut shelf = shelf_with(alloc, file, log)?;
    tell(rt, alloc, title, &["check", "a.stp", "b"], &mut shelf, out)?;
    tell_solution(rt, alloc, title, "a.stp", "b", &mut shelf, out)
}

// Many lines of what one vertex pays.
fn tell_prizes<R: Threads + Wait + Sync, K: Sink>(
    rt: &R,
    alloc: Global,
    triangle: &[u8],
    out: &mut K,
) -> Result<(), AllocError> {
    let mut text = String::from_str(alloc, BEFORE_PRIZES)?;
    text.push_str(&"TP 1 3\n".repeat(alloc, MILLION)?)?;
    text.push_str("END\nEOF\n")?;
    let title = "a million prizes of one vertex";
    tell_text(rt, alloc, title, triangle, &text, out)
}

// Many lines of one vertex that is reached.
fn tell_vertices<R: Threads + Wait + Sync, K: Sink>(
    rt: &R,
    alloc: Global,
    triangle: &[u8],
    out: &mut K,
) -> Result<(), AllocError> {
    let mut text = String::from_str(alloc, "SECTION Finalsolution\nVertices 1000000\n")?;
    text.push_str(&"V 1\n".repeat(alloc, MILLION)?)?;
    text.push_str("END\nEOF\n")?;
    let title = "a million lines of one vertex";
    tell_text(rt, alloc, title, triangle, &text, out)
}

// How a text is answered as a file, and as a solution of the triangle.
fn tell_text<R: Threads + Wait + Sync, K: Sink>(
    rt: &R,
    alloc: Global,
    title: &str,
    triangle: &[u8],
    text: &str,
    out: &mut K,
) -> Result<(), AllocError> {
    let mut shelf = shelf_with(alloc, triangle, text)?;
    tell(rt, alloc, title, &["solve", "b"], &mut shelf, out)?;
    tell_few(rt, alloc, title, "b", &mut shelf, out)?;
    tell_solution(rt, alloc, title, "a.stp", "b", &mut shelf, out)
}

fn tell_sizes<R: Threads + Wait + Sync, K: Sink>(
    rt: &R,
    alloc: Global,
    triangle: &[u8],
    out: &mut K,
) -> Result<(), AllocError> {
    for (title, text) in SIZES {
        tell_text(rt, alloc, title, triangle, text, out)?;
    }
    Ok(())
}
