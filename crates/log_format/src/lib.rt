//! Certificate logs of the Steiner tree problem, and the one text of each.
//!
//! A `Log` claims a tree and a bound with reduction steps and a proof
//! tree of splits and packings, or that there is no
//! tree. In version 2 a proof may be split at links, too; `migrate` gives the same log in version 2.
//! `read_log` and `write_log` compute the definition *log text*: a caller may rely on both
//! directions, and on the line and kind of each fault. `LogReader` reads the same line by line,
//! and answers each line as an `Item`; it keeps the version and counts alone, so a log of any length
//! can be read.
//! What a log must meet to be right of a problem, undirected or directed, are the definitions *accepts*
//! and *rejects*, with the laws that a caller rests on.
#![tactic(auto)]

mod fault;
mod gathering;
mod item;
mod kept_sets;
mod kind;
mod law;
mod line;
mod log;
mod past;
mod place;
mod proof;
mod proof_line;
mod proving;
mod read;
mod reader;
mod said;
mod split_line;
mod stage;
mod step_line;
mod write;

pub use fault::{LineError, LogFault, ReadError};
pub use item::Item;
pub use kind::Kind;
pub use law::{
    accepted_holds, accepted_of_a_problem_holds, items_are_lines, line_items, migrated_is_the_same,
    one_item, one_spelling, refused_exactly, rejected_exactly, rejected_of_a_problem_exactly,
};
pub use log::{Claim, Log, Version, migrate};
pub use past::Past;
pub use proof::Proof;
pub use proof_line::ProofLine;
pub use read::read_log;
pub use reader::LogReader;
pub use write::write_log;
