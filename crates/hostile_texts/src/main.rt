//! The program `hostile_texts`: answers texts that are cut short, that lie about their counts or that
//! are far too long. Of each it writes what the text is, the code of the status with which `run`
//! ends, and what `run` sends.
//!
//! Its words name files: one whose name ends in `.log` is checked with `triangle.stp`, and any other
//! is solved, and once more as one of few terminals. Each is also verified, as if it were a solution
//! of that file. Its own data are that file and one change of it each, and one change each of a log of
//! it, named after the change. The texts that are too long for a file of the repository it makes
//! itself.
#![tactic(auto)]

mod answer;
mod extremes;

use answer::{tell, tell_few, tell_solution};
use extremes::tell_extremes;
use st_edge::{DiskShelf, LoadFault, Shelf, Sink, StdSink};
use std::alloc::{AllocError, Global};
use std::env;
use std::process::ExitCode;
use std::sync::Wait;
use std::thread::Threads;
use steiner_top::Status;

/// The file that the logs are of.
const TRIANGLE: &str = "triangle.stp";

/// More bytes than that file has.
const ROOM: u64 = 1_000;

fn main(rt: HostRuntime) -> ExitCode {
    let Ok(names) = env::args(&rt) else {
        return ExitCode::from(Status::NoMemory.code());
    };
    let mut shelf = DiskShelf::new(&rt);
    let mut out = StdSink::new(&rt);
    for name in names.skip(1) {
        if tell_file(&rt, rt.alloc(), &name, &mut shelf, &mut out).is_err() {
            return ExitCode::from(Status::NoMemory.code());
        }
    }
    match tell_others(&rt, rt.alloc(), &mut shelf, &mut out) {
        Ok(()) => ExitCode::SUCCESS,
        Err(fault) => ExitCode::from(code_of(fault)),
    }
}

fn code_of(fault: LoadFault) -> u8 {
    match fault {
        LoadFault::Failed => Status::ReadFault.code(),
        LoadFault::TooLong => Status::TooLong.code(),
        LoadFault::NoMemory => Status::NoMemory.code(),
    }
}

// Tells how a file is answered.
fn tell_file<R: Threads + Wait + Sync, F: Shelf, K: Sink>(
    rt: &R,
    alloc: Global,
    name: &str,
    shelf: &mut F,
    out: &mut K,
) -> Result<(), AllocError> {
    if name.ends_with(".log") {
        tell(rt, alloc, name, &["check", TRIANGLE, name], shelf, out)?;
    } else {
        tell(rt, alloc, name, &["solve", name], shelf, out)?;
        tell_few(rt, alloc, name, name, shelf, out)?;
    }
    tell_solution(rt, alloc, name, TRIANGLE, name, shelf, out)
}

// Tells how the texts are answered that are made here.
fn tell_others<R: Threads + Wait + Sync, F: Shelf, K: Sink>(
    rt: &R,
    alloc: Global,
    shelf: &mut F,
    out: &mut K,
) -> Result<(), LoadFault> {
    let triangle = shelf.load(alloc, TRIANGLE, ROOM)?;
    match tell_extremes(rt, alloc, &triangle, out) {
        Ok(()) => Ok(()),
        Err(AllocError) => Err(LoadFault::NoMemory),
    }
}
