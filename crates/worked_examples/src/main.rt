//! The program `worked_examples`: solves each example that its words name, `NAME.stp`, with a log and
//! without, and checks the log. It writes the name, whether the solution and the log are those that
//! lie in `NAME.sol` and `NAME.log`, byte by byte, and what the check says. Its own data are the
//! examples that `examples/README.md` explains.
#![tactic(auto)]

use st_edge::{DiskShelf, LoadFault, MemorySink, Shelf, Sink, StdSink, send_all};
use std::alloc::{AllocError, Global};
use std::env;
use std::process::ExitCode;
use std::sync::Wait;
use std::thread::Threads;
use steiner_top::{OpenGate, Status, run};

/// More bytes than any text here has.
const ROOM: u64 = 1_000_000;

/// The name under which a log is saved.
const LOG: &str = "log";

fn main(rt: HostRuntime) -> ExitCode {
    let Ok(names) = env::args(&rt) else {
        return ExitCode::from(Status::NoMemory.code());
    };
    let mut shelf = DiskShelf::new(&rt);
    let mut out = StdSink::new(&rt);
    for name in names.skip(1) {
        if let Err(fault) = tell(&rt, rt.alloc(), &name, &mut shelf, &mut out) {
            return ExitCode::from(code_of(fault));
        }
    }
    ExitCode::SUCCESS
}

fn code_of(fault: LoadFault) -> u8 {
    match fault {
        LoadFault::Failed => Status::ReadFault.code(),
        LoadFault::TooLong => Status::TooLong.code(),
        LoadFault::NoMemory => Status::NoMemory.code(),
    }
}

// Writes a line on an example.
fn tell<R: Threads + Wait + Sync, F: Shelf, K: Sink>(
    rt: &R,
    alloc: Global,
    name: &str,
    shelf: &mut F,
    out: &mut K,
) -> Result<(), LoadFault> {
    let file = format!(in alloc; "{name}.stp")?;
    let answer = compared(rt, alloc, name, &file, shelf)?;
    let head = format!(in alloc; "{name}: {answer}, ")?;
    let _ = send_all(out, head.as_bytes());
    let check = words_of(alloc, &["check", &file, LOG])?;
    let _ = run(rt, alloc, &check, shelf, out, &OpenGate);
    Ok(())
}

// Whether solving an example gives the texts that lie beside it. The log stays under its name.
fn compared<R: Threads + Wait + Sync, F: Shelf>(
    rt: &R,
    alloc: Global,
    name: &str,
    file: &str,
    shelf: &mut F,
) -> Result<&'static str, LoadFault> {
    let solution_name = format!(in alloc; "{name}.sol")?;
    let log_name = format!(in alloc; "{name}.log")?;
    let solution = shelf.load(alloc, &solution_name, ROOM)?;
    let log = shelf.load(alloc, &log_name, ROOM)?;
    let plain = sent(rt, alloc, &["solve", file], shelf)?;
    let logged = sent(rt, alloc, &["solve", file, "--log", LOG], shelf)?;
    let saved = shelf.load(alloc, LOG, ROOM)?;
    if plain.bytes() != solution.as_slice() || logged.bytes() != solution.as_slice() {
        return Ok("another solution");
    }
    if saved.as_slice() != log.as_slice() {
        return Ok("another log");
    }
    Ok("same")
}

// The sink that a run by these words sent to.
fn sent<R: Threads + Wait + Sync, F: Shelf>(
    rt: &R,
    alloc: Global,
    words: &[&str],
    shelf: &mut F,
) -> Result<MemorySink, AllocError> {
    let owned = words_of(alloc, words)?;
    let mut sent = MemorySink::of(alloc, ROOM, ROOM, Vec::new(alloc))?;
    let _ = run(rt, alloc, &owned, shelf, &mut sent, &OpenGate);
    Ok(sent)
}

fn words_of(alloc: Global, words: &[&str]) -> Result<Vec<String>, AllocError> {
    let mut owned = Vec::new(alloc);
    for word in words {
        owned.push(String::from_str(alloc, word)?)?;
    }
    Ok(owned)
}
