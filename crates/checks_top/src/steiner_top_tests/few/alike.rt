use super::super::drawn::{draw, found_by, shelf_with};
use super::super::ends;
use super::{drawn_shelf, sends_tree};
use st_edge::MemoryShelf;
use std::alloc::{AllocError, Global};
use std::sync::Wait;
use std::test::Fail;
use std::thread::Threads;
use steiner_top::Status;

/// The words that draw a file of at most 30 vertices, of which at most 12 are required.
fn words_for(alloc: Global, seed: u64) -> Result<String, AllocError> {
    let mut state = seed;
    let vertices = draw(&mut state, 29).saturating_add(1);
    let links = draw(&mut state, vertices)
        .saturating_add(vertices)
        .saturating_sub(2);
    let required = draw(&mut state, vertices.min(12));
    format!(in alloc; "gen {seed} {vertices} {links} {required}")
}

/// Writes a link of cost 0 to 2.
fn put_link(text: &mut String, state: &mut u64, a: u64, b: u64) -> Result<(), AllocError> {
    let cost = draw(state, 3).saturating_sub(1);
    writeln!(text, "E {a} {b} {cost}")
}

/// Writes a link of each vertex but the first with one before it, and of one that is drawn with itself, which joins
/// nothing.
fn put_tree(text: &mut String, state: &mut u64, vertices: u64) -> Result<(), AllocError> {
    let apart = draw(state, 60);
    for vertex in 2..=vertices {
        let before = draw(state, vertex.saturating_sub(1));
        let other = if vertex == apart { vertex } else { before };
        put_link(text, state, other, vertex)?;
    }
    Ok(())
}

/// Writes so many links between any two vertices.
fn put_links(
    text: &mut String,
    state: &mut u64,
    vertices: u64,
    links: u64,
) -> Result<(), AllocError> {
    for _ in 0..links {
        let (a, b) = (draw(state, vertices), draw(state, vertices));
        put_link(text, state, a, b)?;
    }
    Ok(())
}

/// Writes so many lines of who is required; a vertex may have more than one.
fn put_required(
    text: &mut String,
    state: &mut u64,
    vertices: u64,
    lines: u64,
) -> Result<(), AllocError> {
    writeln!(text, "END\nSECTION Terminals\nTerminals {lines}")?;
    for _ in 0..lines {
        let vertex = draw(state, vertices);
        writeln!(text, "T {vertex}")?;
    }
    text.push_str("END\nEOF\n")
}

/// A file of at most 30 vertices, of which at most 12 are required, whose links cost 0 to 2. Of some there is no tree.
fn cheap_file(alloc: Global, seed: u64) -> Result<String, AllocError> {
    let mut state = seed;
    let vertices = draw(&mut state, 29).saturating_add(1);
    let further = draw(&mut state, vertices);
    let links = further.saturating_add(vertices).saturating_sub(1);
    let mut text = String::from_str(alloc, "33D32945 STP File, STP Format Version 1.0\n")?;
    writeln!(&mut text, "SECTION Graph\nNodes {vertices}\nEdges {links}")?;
    put_tree(&mut text, &mut state, vertices)?;
    put_links(&mut text, &mut state, vertices, further)?;
    let lines = draw(&mut state, vertices.min(12));
    put_required(&mut text, &mut state, vertices, lines)?;
    Ok(text)
}

/// Whether `few` and `solve` end alike with a shelf's file: with trees of one cost, or with none.
fn end_alike<R: Threads + Wait + Sync>(
    rt: &R,
    alloc: Global,
    shelf: &mut MemoryShelf,
) -> Result<bool, AllocError> {
    let none = (Status::Infeasible, 4, "infeasible\n");
    match found_by(rt, alloc, "solve a.stp", shelf)? {
        Some(found) => {
            let is_sent = sends_tree(rt, alloc, "few a.stp", shelf, found.primal)?;
            Ok(is_sent && found.primal == found.dual)
        }
        None => {
            let is_told = ends(rt, alloc, "solve a.stp", shelf, none)?;
            Ok(is_told && ends(rt, alloc, "few a.stp", shelf, none)?)
        }
    }
}

/// Whether they do with a drawn file, of which each third one has links of cost 0.
fn drawn_end_alike<R: Threads + Wait + Sync>(
    rt: &R,
    alloc: Global,
    seed: u64,
) -> Result<bool, AllocError> {
    let mut shelf = if seed % 3 == 0 {
        shelf_with(alloc, cheap_file(alloc, seed)?)?
    } else {
        drawn_shelf(rt, alloc, &words_for(alloc, seed)?)?
    };
    end_alike(rt, alloc, &mut shelf)
}

#[test]
fn few_ends_as_solve_does(rt: HostRuntime) -> Result<(), Fail> {
    for seed in 1..301 {
        assert!(rt; drawn_end_alike(&rt, rt.alloc(), seed)?, "for {seed}");
    }
    Ok(())
}
