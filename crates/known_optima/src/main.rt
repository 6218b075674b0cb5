//! The program `known_optima`: solves each file that its words name, with a log, and checks the
//! log; once more plainly, without reduction steps, once more by four workers, and once more with splits
//! at links. It writes the file's name, how each solving ended, and what each check says, and of logs
//! that delete five vertices or more in a row that they do. Its own data are files whose optimum programs
//! apart from this project found.
#![tactic(auto)]

use st_edge::{DiskShelf, MemorySink, Shelf, Sink, StdSink, send_all};
use std::alloc::{AllocError, Global};
use std::env;
use std::process::ExitCode;
use std::sync::Wait;
use std::thread::Threads;
use steiner_top::{OpenGate, Status, run};

/// More bytes than any of the solutions has.
const ROOM: u64 = 1_000_000;

/// So many deletions in a row are worth a line.
const MANY: u64 = 5;

/// The words that stand after a file's name where it is solved.
const REDUCED: &[&str] = &["--log", "log"];

const PLAIN: &[&str] = &["--log", "log", "--plain"];

const BY_FOUR: &[&str] = &["--log", "log", "--workers", "4"];

const AT_LINKS: &[&str] = &["--log", "log", "--links"];

fn main(rt: HostRuntime) -> ExitCode {
    let Ok(names) = env::args(&rt) else {
        return ExitCode::from(Status::NoMemory.code());
    };
    let mut shelf = DiskShelf::new(&rt);
    let mut out = StdSink::new(&rt);
    for name in names.skip(1) {
        for words in [AT_LINKS, BY_FOUR, PLAIN, REDUCED] {
            if tell(&rt, rt.alloc(), &name, words, &mut shelf, &mut out).is_err() {
                return ExitCode::from(Status::NoMemory.code());
            }
        }
        if tell_deletions(rt.alloc(), &name, &mut shelf, &mut out).is_err() {
            return ExitCode::from(Status::NoMemory.code());
        }
    }
    ExitCode::SUCCESS
}

// Writes a line on a file: its name, the status of solving it by these words, and the verdict on the
// log.
fn tell<R: Threads + Wait + Sync, F: Shelf, K: Sink>(
    rt: &R,
    alloc: Global,
    name: &str,
    words: &[&str],
    shelf: &mut F,
    out: &mut K,
) -> Result<(), AllocError> {
    let mut solution = MemorySink::of(alloc, ROOM, ROOM, Vec::new(alloc))?;
    let mut solve = words_of(alloc, &["solve", name])?;
    solve.append(&mut words_of(alloc, words)?)?;
    let solved = run(rt, alloc, &solve, shelf, &mut solution, &OpenGate).status;
    let head = format!(in alloc; "{name} {} ", solved.code())?;
    let _ = send_all(out, head.as_bytes());
    let check = words_of(alloc, &["check", name, "log"])?;
    let _ = run(rt, alloc, &check, shelf, out, &OpenGate);
    Ok(())
}

// Writes a line on a file where the log kept last deletes many vertices in a row.
fn tell_deletions<F: Shelf, K: Sink>(
    alloc: Global,
    name: &str,
    shelf: &mut F,
    out: &mut K,
) -> Result<(), AllocError> {
    let Ok(log) = shelf.load(alloc, "log", ROOM) else {
        return Ok(());
    };
    if deletions_in_a_row(&log) >= MANY {
        let line = format!(in alloc; "{name} deletes {MANY} vertices in a row, or more\n")?;
        let _ = send_all(out, line.as_bytes());
    }
    Ok(())
}

// How many splits of a log's proof follow one another, at most, of each of which the half inside closes
// at once.
fn deletions_in_a_row(log: &[u8]) -> u64 {
    let mut most = 0;
    let mut row: u64 = 0;
    let mut is_after_split = false;
    let mut is_first = true;
    for byte in log {
        if is_first && *byte == b'S' {
            row = if is_after_split { 0 } else { row };
            is_after_split = true;
        } else if is_first && *byte == b'C' {
            row = if is_after_split {
                row.saturating_add(1)
            } else {
                0
            };
            is_after_split = false;
            most = row.max(most);
        }
        is_first = *byte == b'\n';
    }
    most
}

fn words_of(alloc: Global, words: &[&str]) -> Result<Vec<String>, AllocError> {
    let mut owned = Vec::new(alloc);
    for word in words {
        owned.push(String::from_str(alloc, word)?)?;
    }
    Ok(owned)
}
