ghost use Rattle.std.specs.Prelude.{◌≡◌, ◌<◌, ◌^◌, ◌∷◌, [], ◌++◌, length, map, OnOk, IfOk, codes, Some, None};
ghost use Rattle.std.specs.List.{flat_map};
ghost use Rattle.std.specs.Thread.{IsSync};
ghost use Rattle.plain_text.specs.Lines.{ended};
ghost use Rattle.log_format.specs.Text.{spaced, words, root_number, arc_line, cut_line, step_line, lines_of, header, claim_lines, log_text, IsInLogRange};

use crate::{Claim, Log, ProofLine, Version};
use cut_packing::{Cut, Packing};
use itoa::Buffer;
use lift_back::Step;
use st_model::{SplitAt, Tree};
use std::alloc::{AllocError, Global};
use std::mem;
use std::thread::{Threads, join};

// A text of which more and more is written.
type Text = Vec<u8>;

// How many splits and closes there are for each thread, at least: to start one takes as long as to write some.
const LINES_FOR_A_THREAD: usize = 40;

// Writes a space and a number.
fn write_number(text: &mut Text, number: u64) -> Result<(), AllocError>
    ensures { OnOk result (text.new.items ≡ text.old.items ++ spaced number) }
{
    let mut buffer = Buffer::new();
    text.push(b' ')?;
    text.extend_from_slice(buffer.format(number).as_bytes())
}

// Writes bytes as they are.
fn write_bytes(text: &mut Text, bytes: &[u8]) -> Result<(), AllocError>
    ensures { OnOk result (text.new.items ≡ text.old.items ++ bytes.now) }
{
    text.extend_from_slice(bytes)
}

// Writes the end of a line.
fn write_end(text: &mut Text) -> Result<(), AllocError>
    ensures { OnOk result (text.new.items ≡ text.old.items ++ 10 ∷ []) }
{
    text.push(b'\n')?;
    Ok(())
}

// Writes a line of a keyword and two numbers.
fn write_pair(text: &mut Text, word: &[u8], first: u64, second: u64) -> Result<(), AllocError>
    ensures { OnOk result (text.new.items
        ≡ text.old.items ++ ended (words word.now (first ∷ second ∷ []))) }
{
    write_bytes(text, word)?;
    write_number(text, first)?;
    write_number(text, second)?;
    write_end(text)
}

// Writes each vertex after a space.
fn write_vertices(text: &mut Text, vertices: &[u32]) -> Result<(), AllocError>
    ensures { OnOk result (text.new.items ≡ text.old.items ++ flat_map spaced vertices.now) }
{
    for vertex in vertices {
        write_number(text, u64::from(*vertex))?;
    }
    Ok(())
}

// Writes how many vertices there are, and these, and the end of the line.
fn write_counted(text: &mut Text, vertices: &[u32]) -> Result<(), AllocError>
    ensures { OnOk result (text.new.items
        ≡ text.old.items ++ ended (flat_map spaced (length vertices.now ∷ vertices.now))) }
{
    write_number(text, vertices.len() as u64)?;
    write_vertices(text, vertices)?;
    write_end(text)
}

// Writes the line of a cut.
fn write_cut(text: &mut Text, cut: &Cut) -> Result<(), AllocError>
    ensures { OnOk result (text.new.items ≡ text.old.items ++ ended (cut_line cut.now)) }
{
    write_bytes(text, b"U")?;
    write_number(text, u64::from(cut.q))?;
    write_number(text, cut.y)?;
    write_counted(text, cut.set.as_slice())
}

// Writes the lines of some cuts.
fn write_cuts(text: &mut Text, cuts: &[Cut]) -> Result<(), AllocError>
    ensures { OnOk result (text.new.items
        ≡ text.old.items ++ flat_map ended (map cut_line cuts.now)) }
{
    for cut in cuts {
        write_cut(text, cut)?;
    }
    Ok(())
}

// How a root is written: 0 where there is none.
fn root_number(root: Option<u32>) -> u64
    ensures { result ≡ root_number root }
{
    u64::from(root.unwrap_or(0))
}

// Writes the lines of a close.
fn write_close(text: &mut Text, packing: &Packing) -> Result<(), AllocError>
    ensures { OnOk result (text.new.items
        ≡ text.old.items ++ flat_map ended (lines_of (ProofLine.Close packing.now))) }
{
    let cuts = packing.cuts.as_slice();
    write_pair(text, b"C", root_number(packing.root), cuts.len() as u64)?;
    write_cuts(text, cuts)
}

// Writes a line of a keyword and a number.
fn write_single(text: &mut Text, word: &[u8], number: u64) -> Result<(), AllocError>
    ensures { OnOk result (text.new.items
        ≡ text.old.items ++ ended (words word.now (number ∷ []))) }
{
    write_bytes(text, word)?;
    write_number(text, number)?;
    write_end(text)
}

// Writes the line of a split.
fn write_split(text: &mut Text, at: SplitAt) -> Result<(), AllocError>
    ensures { OnOk result (text.new.items
        ≡ text.old.items ++ flat_map ended (lines_of (ProofLine.Split at))) }
{
    match at {
        SplitAt::Vertex(vertex) => write_single(text, b"S", u64::from(vertex)),
        SplitAt::Link(a, b) => write_pair(text, b"L", u64::from(a), u64::from(b)),
    }
}

// Writes the lines of splits and closes.
fn write_lines(text: &mut Text, lines: &[ProofLine]) -> Result<(), AllocError>
    ensures { OnOk result (text.new.items
        ≡ text.old.items ++ flat_map ended (flat_map lines_of lines.now)) }
{
    for line in lines {
        match line {
            ProofLine::Split(at) => write_split(text, *at)?,
            ProofLine::Close(packing) => write_close(text, packing)?,
        }
    }
    Ok(())
}

// The text of splits and closes.
fn lines_text(alloc: Global, lines: &[ProofLine]) -> Result<Text, AllocError>
    ensures { IfOk result (λ text. text.items ≡ flat_map ended (flat_map lines_of lines.now)) }
{
    let mut text = Vec::new(alloc);
    write_lines(&mut text, lines)?;
    Ok(text)
}

// A text with the lines of splits and closes after it, the last part of which is written in a thread of
// its own, as long as there are more threads.
#[cycle(apart)]
#[tactic(auto, using(crate::proofs::Texts::parts_written))]
fn with_lines<R: Threads + Sync>(
    rt: &R,
    alloc: Global,
    text: Text,
    lines: &[ProofLine],
    threads: usize,
) -> Result<Text, AllocError>
    ensures { IfOk result (λ whole. whole.items ≡ text.items ++ flat_map ended (flat_map lines_of lines.now)) }
{
    let mut text = text;
    if threads <= 1 {
        write_lines(&mut text, lines)?;
        return Ok(text);
    }
    let (first, last) = lines.split_at(lines.len() - lines.len() / threads);
    let apart = || -> Result<Text, AllocError>
        ensures { IfOk result (λ part. part.items ≡ flat_map ended (flat_map lines_of last.entry.now)) }
    { lines_text(alloc, last) };
    let others = || -> Result<Text, AllocError>
        requires { IsSync R.row × (1 < threads) }
        ensures { IfOk result (λ whole. whole.items
            ≡ text.items ++ flat_map ended (flat_map lines_of first.entry.now)) }
    { with_lines(rt, alloc, text, first, threads - 1) };
    let (part, whole) = join(rt, apart, others);
    let mut whole = whole?;
    write_bytes(&mut whole, &part?)?;
    Ok(whole)
}

// Writes a proof, after the word that begins it.
fn write_proof<R: Threads + Sync>(
    rt: &R,
    alloc: Global,
    text: &mut Text,
    lines: &[ProofLine],
    threads: usize,
) -> Result<(), AllocError>
    ensures { OnOk result (text.new.items
        ≡ text.old.items ++ flat_map ended (codes "PROOF" ∷ flat_map lines_of lines.now)) }
{
    write_bytes(text, b"PROOF\n")?;
    let threads = threads.min(lines.len() / LINES_FOR_A_THREAD);
    let begun = mem::replace(text, Vec::new(alloc));
    *text = with_lines(rt, alloc, begun, lines, threads)?;
    Ok(())
}

// Writes the line of a detour.
fn write_detour(text: &mut Text, a: u32, b: u32, inner: &[u32]) -> Result<(), AllocError>
    ensures { OnOk result (text.new.items
        ≡ text.old.items ++ ended (step_line (Step.Detour a b inner.now))) }
{
    write_bytes(text, b"D")?;
    write_number(text, u64::from(a))?;
    write_number(text, u64::from(b))?;
    write_counted(text, inner)
}

// Writes the line of a step.
fn write_step(text: &mut Text, step: &Step) -> Result<(), AllocError>
    ensures { OnOk result (text.new.items ≡ text.old.items ++ ended (step_line step.now)) }
{
    match step {
        Step::Pendant(vertex) => write_single(text, b"P", u64::from(*vertex)),
        Step::Through(vertex) => write_single(text, b"H", u64::from(*vertex)),
        Step::Forced(vertex) => write_single(text, b"F", u64::from(*vertex)),
        Step::Detour { a, b, inner } => write_detour(text, *a, *b, inner.as_slice()),
    }
}

// Writes the line of each step.
fn write_each_step(text: &mut Text, steps: &[Step]) -> Result<(), AllocError>
    ensures { OnOk result (text.new.items
        ≡ text.old.items ++ flat_map ended (map step_line steps.now)) }
{
    for step in steps {
        write_step(text, step)?;
    }
    Ok(())
}

// Writes the lines of some steps, after how many there are.
fn write_steps(text: &mut Text, steps: &[Step]) -> Result<(), AllocError>
    ensures { OnOk result (text.new.items ≡ text.old.items
        ++ flat_map ended (words (codes "STEPS") (length steps.now ∷ []) ∷ map step_line steps.now)) }
{
    write_single(text, b"STEPS", steps.len() as u64)?;
    write_each_step(text, steps)
}

// Writes the lines of some arcs.
fn write_arcs(text: &mut Text, arcs: &[(u32, u32)]) -> Result<(), AllocError>
    ensures { OnOk result (text.new.items
        ≡ text.old.items ++ flat_map ended (map arc_line arcs.now)) }
{
    for (tail, head) in arcs {
        write_pair(text, b"A", u64::from(*tail), u64::from(*head))?;
    }
    Ok(())
}

// Writes the lines of a tree.
fn write_tree(text: &mut Text, tree: &Tree) -> Result<(), AllocError>
    ensures { OnOk result (text.new.items ≡ text.old.items
        ++ flat_map ended (words (codes "TREE") (tree.now.start ∷ length tree.now.arcs ∷ [])
        ∷ map arc_line tree.now.arcs)) }
{
    let arcs = tree.arcs.as_slice();
    write_pair(text, b"TREE", u64::from(tree.start), arcs.len() as u64)?;
    write_arcs(text, arcs)
}

// Writes the lines of a claim.
fn write_claim<R: Threads + Sync>(
    rt: &R,
    alloc: Global,
    text: &mut Text,
    claim: &Claim,
    threads: usize,
) -> Result<(), AllocError>
    ensures { OnOk result (text.new.items
        ≡ text.old.items ++ flat_map ended (claim_lines claim.now)) }
{
    match claim {
        Claim::Found {
            primal,
            dual,
            tree,
            steps,
            proof,
        } => {
            write_pair(text, b"CLAIM TREE", *primal, *dual)?;
            write_tree(text, tree)?;
            write_steps(text, steps.as_slice())?;
            write_proof(rt, alloc, text, proof.lines(), threads)
        }
        Claim::NoTree { wall } => {
            write_bytes(text, b"CLAIM NONE\nWALL")?;
            write_counted(text, wall.as_slice())
        }
    }
}

// Writes the first line.
fn write_header(text: &mut Text, version: Version) -> Result<(), AllocError>
    ensures { OnOk result (text.new.items ≡ text.old.items ++ ended (header version)) }
{
    write_bytes(text, version.header())?;
    write_end(text)
}

/// Writes the text of a log, in so many threads at most: where there are many splits and closes, each
/// writes a part of them.
pub fn write_log<R: Threads + Sync>(
    rt: &R,
    alloc: Global,
    log: &Log,
    threads: usize,
) -> Result<Vec<u8>, AllocError>
    requires { IsInLogRange log.now }
    ensures { IfOk result (λ text. text.items ≡ log_text log.now) }
{
    let mut text = Vec::new(alloc);
    write_header(&mut text, log.version)?;
    write_claim(rt, alloc, &mut text, &log.claim, threads)?;
    write_bytes(&mut text, b"END\n")?;
    Ok(text)
}
