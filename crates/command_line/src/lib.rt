//! The words of the command line.
//!
//! `read_words` gives the command that the words after the program's name mean, and refuses them
//! exactly where they mean none: the crate `clap` takes them for the program of the definition
//! `program`, names begin with no hyphen, and numbers are decimal digits within their limits.
//! Whatever else clap would answer, as a help text, is a refusal.
#![tactic(auto)]

mod cmd;
mod meaning;
mod parse;
mod program;

pub use cmd::{
    CheckWords, Cmd, DrawWords, FewWords, GenWords, ResumeWords, SolveWords, TrialWords,
    VerifyWords,
};
pub use parse::{WordFault, read_words};
