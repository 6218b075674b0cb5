use crate::Version;
use cut_packing::Cut;
use lift_back::Step;
use st_model::{Listed, SplitAt};

/// What one line of a log says.
#[derive(Debug, Drop)]
pub enum Item {
    Header(Version),
    ClaimTree { primal: u64, dual: u64 },
    ClaimNone,
    Wall(Listed<u32>),
    TreeHead { start: u32, count: u64 },
    Arc(u32, u32),
    StepsHead(u64),
    OneStep(Step),
    ProofHead,
    Split(SplitAt),
    CloseHead { root: Option<u32>, count: u64 },
    OneCut(Cut),
    Last,
}
