//! The solver from the words of the command line to the bytes of the answer.
//!
//! `run` is the one place where words, a shelf, a sink and a gate meet. A caller may rely on its
//! clauses alone: which status has which cause, what was saved and sent, that the tree of a
//! solution is a tree of the file's instance, and that no tree costs less than the bound.
#![tactic(auto)]

mod answer;
mod answering;
mod best;
mod check_command;
mod continuing;
mod few_command;
mod gen_command;
mod left;
mod lines;
mod loading;
mod nearing;
mod outcome;
mod reducing;
mod resume_command;
mod running;
mod saving;
mod solve_command;
mod solving;
mod start;
mod status;
mod trial_command;
mod verify_command;
mod wanted;

pub use command_line::{
    CheckWords, Cmd, DrawWords, FewWords, GenWords, ResumeWords, SolveWords, TrialWords,
    VerifyWords, WordFault, read_words,
};
pub use continuing::resume_bytes;
pub use outcome::{Outcome, SolveFault};
pub use running::{Ended, run};
pub use solving::solve_bytes;
pub use status::Status;
pub use wanted::Wanted;
pub use worker_loop::{Gate, Limits, OpenGate};
