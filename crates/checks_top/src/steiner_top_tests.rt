use log_format::Claim;
use st_edge::{MemoryShelf, MemorySink, SaveFault, Shelf};
use std::alloc::{AllocError, Global};
use std::sync::Wait;
use std::thread::Threads;
use steiner_top::{Gate, OpenGate, Outcome, Status, Wanted, run, solve_bytes};

mod checks;
mod decimals;
mod drawn;
mod draws;
mod faults;
mod few;
mod gates;
mod lines;
mod links;
mod meeting;
mod reduced;
mod resumes;
mod solves;
mod twice;
mod verified;
mod worked;

const USAGE: &str =
    "usage: steiner solve FILE [--workers W] [--nodes N] [--log NAME] [--plain] [--links] | check FILE LOG | gen SEED N M T [--prizes] | trial SEED N M T [--workers W] | few FILE | verify FILE SOLUTION | resume FILE LOG [--workers W] [--nodes N] [--log NAME]\n";

/// A triangle of required vertices with sides of cost 4, and a centre at cost 2 from each. The
/// lines of a test's text stand apart by ` / `, and H stands for the header.
const TRIANGLE: &str =
    "H / SECTION Graph / Nodes 4 / Edges 6 / E 1 4 2 / E 2 4 2 / E 3 4 2 / E 1 2 4 / E 2 3 4 / E 1 3 4 / END / SECTION Terminals / Terminals 3 / T 1 / T 2 / T 3 / END / EOF";

/// A hub 1 with spokes to 2, 3, 4, which lie on the rim between the required 5, 6, 7.
const WHEEL: &str =
    "H / SECTION Graph / Nodes 7 / Edges 9 / E 1 2 2 / E 1 3 2 / E 1 4 2 / E 5 2 2 / E 5 3 2 / E 6 3 2 / E 6 4 2 / E 7 2 2 / E 7 4 2 / END / SECTION Terminals / Terminals 4 / T 1 / T 5 / T 6 / T 7 / END / EOF";

/// Two required vertices of three that no link joins.
const APART: &str =
    "H / SECTION Graph / Nodes 3 / Edges 1 / E 1 2 7 / END / SECTION Terminals / Terminals 2 / T 1 / T 3 / END / EOF";

/// Two vertices that pay 3 and 4, linked at cost 5.
const PRIZES: &str =
    "H / SECTION Graph / Nodes 2 / Edges 1 / E 1 2 5 / END / SECTION Terminals / Terminals 2 / TP 1 3 / TP 2 4 / END / EOF";

/// Two required vertices, linked at cost 5.5.
const LINK: &str =
    "H / SECTION Graph / Nodes 2 / Edges 1 / E 1 2 5.5 / END / SECTION Terminals / Terminals 2 / T 1 / T 2 / END / EOF";

/// Two vertices that pay 0.1 and 0.2, linked at cost 0.25.
const SMALL_PRIZES: &str =
    "H / SECTION Graph / Nodes 2 / Edges 1 / E 1 2 0.25 / END / SECTION Terminals / Terminals 2 / TP 1 0.1 / TP 2 0.2 / END / EOF";

/// The words of a line, which stand apart by single spaces.
fn words_of(alloc: Global, line: &str) -> Result<Vec<String>, AllocError> {
    let mut words = Vec::new(alloc);
    for word in line.split(' ') {
        words.push(String::from_str(alloc, word)?)?;
    }
    Ok(words)
}

/// The text of these lines.
fn text_of(alloc: Global, lines: &str) -> Result<Vec<u8>, AllocError> {
    let mut text = Vec::new(alloc);
    for line in lines.split(" / ") {
        let whole = if line == "H" {
            "33D32945 STP File, STP Format Version 1.0"
        } else {
            line
        };
        text.extend_from_slice(whole.as_bytes())?;
        text.push(b'\n')?;
    }
    Ok(text)
}

/// A shelf with the text of these lines under `a.stp`, whose calls of these numbers fail.
fn shelf_of(alloc: Global, lines: &str, failing: &[u64]) -> Result<MemoryShelf, AllocError> {
    let mut texts = Vec::new(alloc);
    let text = text_of(alloc, lines)?;
    texts.push((String::from_str(alloc, "a.stp")?, text))?;
    Ok(MemoryShelf::of(alloc, texts, Vec::from_slice(alloc, failing)?))
}

/// Whether a text is saved under a name.
fn saves_as(shelf: &mut MemoryShelf, name: &str, text: &[u8]) -> bool {
    shelf.save(name, text).is_ok()
}

/// A sink with room enough, none of whose writes fails.
fn sink_of(alloc: Global) -> Result<MemorySink, AllocError> {
    MemorySink::of(alloc, 1_000_000, 99, Vec::new(alloc))
}

/// What a tree and its log come to: the two numbers, and how many steps and lines of proof there are.
#[derive(Clone, Copy)]
struct Solution {
    primal: u64,
    dual: u64,
    steps: usize,
    lines: usize,
}

/// That of an outcome with a tree.
fn solution_of(outcome: &Outcome) -> Option<Solution> {
    let Outcome::Found {
        primal,
        dual,
        certificate,
        ..
    } = outcome
    else {
        return None;
    };
    let Claim::Found { steps, proof, .. } = &certificate.claim else {
        return None;
    };
    Some(Solution {
        primal: *primal,
        dual: *dual,
        steps: steps.as_slice().len(),
        lines: proof.lines().len(),
    })
}

/// That of a file, where so many nodes may be expanded, and it is to be plain or not.
fn solved<R: Threads + Wait + Sync, G: Gate>(
    rt: &R,
    alloc: Global,
    lines: &str,
    nodes: u64,
    plain: bool,
    gate: &G,
) -> Result<Option<Solution>, AllocError> {
    let text = text_of(alloc, lines)?;
    let wanted = Wanted {
        workers: 1,
        nodes,
        plain,
        links: false,
    };
    match solve_bytes(rt, alloc, &text, wanted, gate) {
        Ok(outcome) => Ok(solution_of(&outcome)),
        Err(_) => Ok(None),
    }
}

/// How a run ends: whether it has an outcome, and what one with a tree comes to.
#[derive(Clone, Copy)]
struct Ending {
    status: Status,
    has_outcome: bool,
    solution: Option<Solution>,
}

/// How a run with these words over this shelf ends.
fn ending_of<R: Threads + Wait + Sync, F: Shelf>(
    rt: &R,
    alloc: Global,
    line: &str,
    shelf: &mut F,
    out: &mut MemorySink,
) -> Result<Ending, AllocError> {
    let words = words_of(alloc, line)?;
    let ended = run(rt, alloc, &words, shelf, out, &OpenGate);
    let solution = match &ended.outcome {
        Some(outcome) => solution_of(outcome),
        None => None,
    };
    Ok(Ending {
        status: ended.status,
        has_outcome: ended.outcome.is_some(),
        solution,
    })
}

/// Whether a run with these words over this shelf ends so, and sends this.
fn ends<R: Threads + Wait + Sync, F: Shelf>(
    rt: &R,
    alloc: Global,
    line: &str,
    shelf: &mut F,
    want: (Status, u8, &str),
) -> Result<bool, AllocError> {
    let mut out = sink_of(alloc)?;
    let status = ending_of(rt, alloc, line, shelf, &mut out)?.status;
    let ended = status == want.0 && status.code() == want.1;
    Ok(ended && out.bytes() == want.2.as_bytes())
}

/// The same over a shelf with this file, whose calls of these numbers fail.
fn file_ends<R: Threads + Wait + Sync>(
    rt: &R,
    alloc: Global,
    line: &str,
    lines: &str,
    failing: &[u64],
    want: (Status, u8, &str),
) -> Result<bool, AllocError> {
    let mut shelf = shelf_of(alloc, lines, failing)?;
    ends(rt, alloc, line, &mut shelf, want)
}
