use super::decimals::{Parts, amount_in};
use super::{Solution, ending_of, ends, sink_of};
use st_edge::MemoryShelf;
use std::alloc::{AllocError, Global};
use std::sync::Wait;
use std::test::Fail;
use std::thread::Threads;
use steiner_top::Status;

/// The next of some numbers that look random (Park and Miller 1988).
pub fn draw(state: &mut u64, below: u64) -> u64 {
    *state = state.wrapping_mul(48_271) % 2_147_483_647;
    1 + *state % below.max(1)
}

/// A file that is drawn: from which seed, how large an amount may be, and what the amounts count.
#[derive(Clone, Copy)]
pub struct Drawn {
    pub seed: u64,
    pub most: u64,
    pub parts: Parts,
}

/// The next amount of a file.
fn drawn_amount(alloc: Global, state: &mut u64, file: Drawn) -> Result<String, AllocError> {
    let number = draw(state, file.most);
    amount_in(alloc, number, file.parts)
}

/// Writes a link of a file.
fn put_link(
    alloc: Global,
    text: &mut String,
    state: &mut u64,
    file: Drawn,
    ends: (u64, u64),
) -> Result<(), AllocError> {
    let (a, b) = ends;
    let cost = drawn_amount(alloc, state, file)?;
    writeln!(text, "E {a} {b} {cost}")
}

/// A file of six vertices, each linked with one before it, and four more links; the first two
/// are required, and two others pay.
pub fn file_of(alloc: Global, file: Drawn) -> Result<String, AllocError> {
    let mut state = file.seed;
    let mut text = String::from_str(
        alloc,
        "33D32945 STP File, STP Format Version 1.0\nSECTION Graph\nNodes 6\nEdges 9\n",
    )?;
    for vertex in 2..7 {
        let other = draw(&mut state, vertex - 1);
        put_link(alloc, &mut text, &mut state, file, (other, vertex))?;
    }
    for _ in 0..4 {
        let (a, b) = (draw(&mut state, 6), draw(&mut state, 6));
        put_link(alloc, &mut text, &mut state, file, (a, b))?;
    }
    let p = drawn_amount(alloc, &mut state, file)?;
    let q = drawn_amount(alloc, &mut state, file)?;
    writeln!(
        &mut text,
        "END\nSECTION Terminals\nTerminals 4\nT 1\nT 2\nTP 3 {p}\nTP 4 {q}\nEND"
    )?;
    Ok(text)
}

/// A shelf with a file under `a.stp`.
pub fn shelf_with(alloc: Global, text: String) -> Result<MemoryShelf, AllocError> {
    let mut texts = Vec::new(alloc);
    texts.push((String::from_str(alloc, "a.stp")?, text.into_bytes()))?;
    Ok(MemoryShelf::of(alloc, texts, Vec::new(alloc)))
}

/// What a file's tree comes to that is found by these words.
pub fn found_by<R: Threads + Wait + Sync>(
    rt: &R,
    alloc: Global,
    line: &str,
    shelf: &mut MemoryShelf,
) -> Result<Option<Solution>, AllocError> {
    let mut out = sink_of(alloc)?;
    Ok(ending_of(rt, alloc, line, shelf, &mut out)?.solution)
}

/// Whether the log that was saved shows that this cost is the least.
pub fn shows_cost<R: Threads + Wait + Sync>(
    rt: &R,
    alloc: Global,
    shelf: &mut MemoryShelf,
    cost: &str,
) -> Result<bool, Fail> {
    let line = format!(in alloc; "optimal {cost}\n")?;
    let want = (Status::Optimal, 0, line.as_str());
    Ok(ends(rt, alloc, "check a.stp b", shelf, want)?)
}

/// Solves a drawn file by these words, and checks the log that is saved: whether it shows the same cost.
fn is_accepted<R: Threads + Wait + Sync>(
    rt: &R,
    alloc: Global,
    seed: u64,
    line: &str,
) -> Result<bool, Fail> {
    let file = Drawn {
        seed,
        most: 9,
        parts: Parts::Wholes,
    };
    let mut shelf = shelf_with(alloc, file_of(alloc, file)?)?;
    match found_by(rt, alloc, line, &mut shelf)? {
        Some(found) if found.primal == found.dual => {
            let cost = format!(in alloc; "{}", found.primal)?;
            shows_cost(rt, alloc, &mut shelf, &cost)
        }
        _ => Ok(false),
    }
}

#[test]
fn accepts_the_logs_of_drawn_files(rt: HostRuntime) -> Result<(), Fail> {
    for seed in 1..21 {
        for line in ["solve a.stp --log b", "solve a.stp --log b --plain"] {
            assert!(rt; is_accepted(&rt, rt.alloc(), seed, line)?, "for {seed}");
        }
    }
    Ok(())
}
