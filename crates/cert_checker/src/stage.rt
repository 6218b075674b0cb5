use crate::Verdict;
use crate::path::Path;
use crate::posed::{Posed, Rest};
use cut_packing::Cut;
use log_format::LogFault;
use st_model::Listed;

/// What some steps leave of the problem, where the tree is right and each step was taken.
#[derive(Drop)]
pub struct Stepping {
    pub primal: u64,
    pub dual: u64,
    pub rest: Rest,
    // The number of the next line.
    pub number: u64,
}

/// A proof of what the steps leave, where each of its lines was right.
#[derive(Drop)]
pub struct Proving {
    pub primal: u64,
    pub dual: u64,
    // What the steps leave, where it isn't the whole problem.
    pub left: Option<Posed>,
    // What is to be proved of it.
    pub least: u64,
    // The way to the branch that the next line is of.
    pub path: Path,
    // The number of that line.
    pub number: u64,
}

/// What is judged of the items of a log so far, and what a later judgement needs.
#[derive(Drop)]
pub enum Stage {
    BeforeHeader,
    BeforeClaim,
    BeforeTree {
        primal: u64,
        dual: u64,
    },
    AmongArcs {
        primal: u64,
        dual: u64,
        start: u32,
        arcs: Listed<(u32, u32)>,
    },
    AmongSteps(Stepping),
    BeforeHalf(Proving),
    AmongCuts {
        proving: Proving,
        root: Option<u32>,
        cuts: Listed<Cut>,
        left: u64,
    },
    BeforeWall,
    /// The claim is right.
    Right(Verdict),
    /// The first check that fails.
    Wrong(LogFault),
}
