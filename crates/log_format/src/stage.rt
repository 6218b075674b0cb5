ghost use Rattle.std.specs.Prelude.{◌≡◌, ◌∷◌, [], ◌++◌, codes, option_map};
ghost use Rattle.log_format.specs.declared.log.Version.{Version as VersionSpec};
ghost use Rattle.log_format.specs.Reached.{IsReached};
ghost use Rattle.log_format.specs.Reading.{Gives, pair_of, step_of, stage_if, with_step, at_header, step};

use crate::fault::LineError;
use crate::kept_sets::KeptSets;
use crate::line::{MAX_VERTEX, number_of, pair_of, wall_of};
use crate::proving::{at_cuts, at_half};
use crate::step_line::step_of;
use crate::{Claim, ProofLine, Version};
use cut_packing::Cut;
use lift_back::Step;
use st_model::{Listed, Tree};
use std::alloc::Global;

/// What a log with a tree says before its proof.
#[derive(Debug, Drop)]
pub struct Answer {
    pub primal: u64,
    pub dual: u64,
    pub tree: Tree,
    pub steps: Listed<Step>,
}

/// A proof of which a half is expected, and more halves that wait.
#[derive(Debug, Drop)]
pub struct Proving {
    pub answer: Answer,
    pub lines: Listed<ProofLine>,
    pub waiting: u64,
}

/// What has been read of a log, and so what may stand on the next line.
#[derive(Debug, Drop)]
pub enum Stage {
    AtHeader,
    AtClaim,
    AtTree {
        primal: u64,
        dual: u64,
    },
    AtArcs {
        primal: u64,
        dual: u64,
        start: u32,
        arcs: Listed<(u32, u32)>,
        left: u64,
    },
    AtSteps {
        answer: Answer,
        left: u64,
    },
    AtHalf(Proving),
    AtCuts {
        proving: Proving,
        root: Option<u32>,
        cuts: Listed<Cut>,
        left: u64,
    },
    AtWall,
    AtEnd(Claim),
    AtNothing(Claim),
}

impl Stage {
    /// Whether no line was read.
    pub fn is_at_header(&self) -> bool
        ensures { result ≡ at_header self.now }
    {
        matches!(self, Stage::AtHeader)
    }
}

// This stage, if the line is this one.
fn stage_if(wanted: &[u8], line: &[u8], stage: Stage) -> Result<Stage, LineError>
    ensures { Gives (λ s. s) result (stage_if wanted.now line.now stage) }
{
    if line != wanted {
        return Err(LineError::BadLine);
    }
    Ok(stage)
}

// What comes after the line of a claim.
#[tactic(auto, unfolding(crate::specs::Reading::step))]
fn at_claim(line: &[u8]) -> Result<Stage, LineError>
    ensures { (version : VersionSpec) → Gives (λ s. s) result (step version Stage.AtClaim line.now) }
{
    if line == b"CLAIM NONE".as_slice() {
        return Ok(Stage::AtWall);
    }
    let (primal, dual) = pair_of(line, b"CLAIM TREE", 0, u64::MAX, 0, u64::MAX).ok_or(
        LineError::BadLine,
    )?;
    Ok(Stage::AtTree { primal, dual })
}

// What comes after the line of a tree.
#[tactic(auto, unfolding(crate::specs::Reading::step))]
fn at_tree(alloc: Global, primal: u64, dual: u64, line: &[u8]) -> Result<Stage, LineError>
    ensures { (version : VersionSpec) → Gives (λ s. s) result (step version (Stage.AtTree primal dual) line.now) }
{
    let (start, left) = pair_of(line, b"TREE", 1, MAX_VERTEX, 0, u64::MAX).ok_or(
        LineError::BadLine,
    )?;
    Ok(Stage::AtArcs {
        primal,
        dual,
        start: start as u32,
        arcs: Listed::of(Vec::new(alloc)),
        left,
    })
}

/// The arc that a line says.
pub fn arc_of(line: &[u8]) -> Result<(u32, u32), LineError>
    ensures { Gives (λ arc. arc) result (pair_of (codes "A") 1 1000000 1 1000000 line.now) }
{
    let (tail, head) = pair_of(line, b"A", 1, MAX_VERTEX, 1, MAX_VERTEX).ok_or(LineError::BadLine)?;
    Ok((tail as u32, head as u32))
}

// The arcs with that of one more line.
fn with_arc(arcs: Listed<(u32, u32)>, line: &[u8]) -> Result<Listed<(u32, u32)>, LineError>
    ensures { Gives (λ more. more) result
        (option_map (λ arc. arcs ++ arc ∷ []) (pair_of (codes "A") 1 1000000 1 1000000 line.now)) }
{
    let arc = arc_of(line)?;
    let mut arcs = arcs.into_vec();
    arcs.push(arc)?;
    Ok(Listed::of(arcs))
}

// What comes after a line where arcs may stand.
#[tactic(auto, unfolding(crate::specs::Reading::step))]
fn at_arcs(
    alloc: Global,
    primal: u64,
    dual: u64,
    start: u32,
    arcs: Listed<(u32, u32)>,
    left: u64,
    line: &[u8],
) -> Result<Stage, LineError>
    ensures { (version : VersionSpec) → Gives (λ s. s) result (step version (Stage.AtArcs primal dual start arcs left) line.now) }
{
    if left == 0 {
        let left = number_of(line, b"STEPS", 0, u64::MAX).ok_or(LineError::BadLine)?;
        let answer = Answer {
            primal,
            dual,
            tree: Tree { start, arcs },
            steps: Listed::of(Vec::new(alloc)),
        };
        return Ok(Stage::AtSteps { answer, left });
    }
    let arcs = with_arc(arcs, line)?;
    Ok(Stage::AtArcs {
        primal,
        dual,
        start,
        arcs,
        left: left - 1,
    })
}

// What was said, with the step of one more line.
fn with_step(alloc: Global, answer: Answer, line: &[u8]) -> Result<Answer, LineError>
    ensures { Gives (λ a. a) result (option_map (λ s. with_step answer s) (step_of line.now)) }
{
    let next = step_of(alloc, line)?;
    let Answer {
        primal,
        dual,
        tree,
        steps,
    } = answer;
    let mut steps = steps.into_vec();
    steps.push(next)?;
    Ok(Answer {
        primal,
        dual,
        tree,
        steps: Listed::of(steps),
    })
}

// What comes after a line where steps may stand.
#[tactic(auto, unfolding(crate::specs::Reading::step))]
fn at_steps(alloc: Global, answer: Answer, left: u64, line: &[u8]) -> Result<Stage, LineError>
    ensures { (version : VersionSpec) → Gives (λ s. s) result (step version (Stage.AtSteps answer left) line.now) }
{
    if left == 0 {
        let proving = Proving {
            answer,
            lines: Listed::of(Vec::new(alloc)),
            waiting: 0,
        };
        return stage_if(b"PROOF", line, Stage::AtHalf(proving));
    }
    let answer = with_step(alloc, answer, line)?;
    Ok(Stage::AtSteps {
        answer,
        left: left - 1,
    })
}

// What comes after a line where a wall stands.
#[tactic(auto, unfolding(crate::specs::Reading::step))]
fn at_wall(alloc: Global, line: &[u8]) -> Result<Stage, LineError>
    ensures { (version : VersionSpec) → Gives (λ s. s) result (step version Stage.AtWall line.now) }
{
    let wall = wall_of(alloc, line)?;
    Ok(Stage::AtEnd(Claim::NoTree { wall }))
}

/// What comes after a line of a log of this version, if it may stand here.
pub fn step(
    alloc: Global,
    kept: &mut KeptSets,
    version: Version,
    stage: Stage,
    line: &[u8],
) -> Result<Stage, LineError>
    requires { IsReached version stage }
    ensures { Gives (λ s. s) result (step version stage line.now) }
{
    match stage {
        Stage::AtHeader => stage_if(version.header(), line, Stage::AtClaim),
        Stage::AtClaim => at_claim(line),
        Stage::AtTree { primal, dual } => at_tree(alloc, primal, dual, line),
        Stage::AtArcs {
            primal,
            dual,
            start,
            arcs,
            left,
        } => at_arcs(alloc, primal, dual, start, arcs, left, line),
        Stage::AtSteps { answer, left } => at_steps(alloc, answer, left, line),
        Stage::AtHalf(proving) => at_half(alloc, version, proving, line),
        Stage::AtCuts {
            proving,
            root,
            cuts,
            left,
        } => at_cuts(alloc, kept, proving, root, cuts, left, line),
        Stage::AtWall => at_wall(alloc, line),
        Stage::AtEnd(claim) => stage_if(b"END", line, Stage::AtNothing(claim)),
        Stage::AtNothing(_) => Err(LineError::BadLine),
    }
}
