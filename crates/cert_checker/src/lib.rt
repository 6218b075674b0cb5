//! An independent checker of certificate logs.
//!
//! `check` reads an STP file and a log, and says what may be concluded; `check_file` takes directed files,
//! too. A `Checker` does so of a log
//! that comes in pieces. A caller may rely on both directions, a verdict exactly where the log is
//! accepted and else the first fault, and on the verdict, which is true of all trees. A `Path` walks
//! over the lines of a proof, for who reads one that was accepted.
#![tactic(auto)]

mod checker;
mod checking;
mod fault;
mod fed;
mod following;
mod hearing;
mod judges;
mod judging;
mod line;
mod lists;
mod path;
mod posed;
mod proving;
mod splits;
mod splitting;
mod stage;
mod steps;
mod turn;
mod verdict;
mod wall;

pub use checker::Checker;
pub use checking::{check, check_file};
pub use fault::CheckFault;
use fault::JudgeError;
pub use path::Path;
pub use posed::Posed;
pub use verdict::{Checked, Verdict};
