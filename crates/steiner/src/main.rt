//! The program `steiner`: a cheapest tree that joins given points of a network, with a proof that
//! no tree is cheaper. All that it does is `steiner_top::run` over the words of its command line,
//! the files and the standard output; its exit code is that of the run's status.
#![tactic(auto)]

use st_edge::{DiskShelf, StdSink};
use std::alloc::AllocError;
use std::env::Env;
use std::io::ErrorKind;
use std::process::ExitCode;
use std::{env, mem};
use steiner_top::{OpenGate, Status, run};

fn main(rt: HostRuntime) -> ExitCode {
    let status = match words_of(&rt) {
        Ok(words) => {
            let mut shelf = DiskShelf::new(&rt);
            let mut out = StdSink::new(&rt);
            let ended = run(&rt, rt.alloc(), &words, &mut shelf, &mut out, &OpenGate);
            // All memory goes back where the process ends, so what was found isn't given back piece by piece.
            mem::forget(ended.outcome);
            ended.status
        }
        Err(_) => Status::NoMemory,
    };
    ExitCode::from(status.code())
}

/// The words after the program's name, or none where one of them isn't UTF-8: no command either way.
fn words_of<R: Env + AllocGlobal>(rt: &R) -> Result<Vec<String>, AllocError> {
    match env::args(rt) {
        Ok(all) => all.skip(1).collect(rt.alloc()),
        Err(error) if error.kind() == ErrorKind::OutOfMemory => Err(AllocError),
        Err(_) => Ok(Vec::new(rt.alloc())),
    }
}
