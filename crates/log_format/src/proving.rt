ghost use Rattle.std.specs.Prelude.{◌≡◌, ◌∷◌, [], ◌++◌, ◌≤◌, IfOk};
ghost use Rattle.log_format.specs.declared.log.Version.{Version as VersionSpec};
ghost use Rattle.log_format.specs.Reading.{Gives, HalvesWait, root_of, cuts_left, closed, half_at, split_at, cut_of, step};

use crate::fault::LineError;
use crate::kept_sets::KeptSets;
use crate::line::{MAX_VERTEX, cut_of, pair_of};
use crate::split_line::split_of;
use crate::stage::{Answer, Proving, Stage};
use crate::{Claim, Proof, ProofLine, Version};
use cut_packing::{Cut, Packing};
use st_model::{Listed, SplitAt};
use std::alloc::{AllocError, Global};

// The lines with one more.
fn with_line(lines: Listed<ProofLine>, line: ProofLine) -> Result<Listed<ProofLine>, AllocError>
    ensures { IfOk result (λ more. more ≡ lines ++ line ∷ []) }
{
    let mut lines = lines.into_vec();
    lines.push(line)?;
    Ok(Listed::of(lines))
}

// What comes after a close: the next of the halves that wait, or the end.
fn closed(proving: Proving, packing: Packing) -> Result<Stage, AllocError>
    requires { HalvesWait proving }
    ensures { IfOk result (λ stage. stage
        ≡ closed proving.answer (proving.lines ++ ProofLine.Close packing ∷ []) proving.waiting) }
{
    let Proving {
        answer,
        lines,
        waiting,
    } = proving;
    let lines = with_line(lines, ProofLine::Close(packing))?;
    if waiting == 0 {
        let Answer {
            primal,
            dual,
            tree,
            steps,
        } = answer;
        let proof = Proof::whole(lines.into_vec());
        return Ok(Stage::AtEnd(Claim::Found {
            primal,
            dual,
            tree,
            steps,
            proof,
        }));
    }
    Ok(Stage::AtHalf(Proving {
        answer,
        lines,
        waiting: waiting - 1,
    }))
}

// What comes after a split: its two halves, one of which waits.
fn split(proving: Proving, at: SplitAt) -> Result<Stage, AllocError>
    requires { HalvesWait proving }
    ensures { IfOk result (λ stage. stage ≡ split_at proving at) }
{
    let Proving {
        answer,
        lines,
        waiting,
    } = proving;
    let lines = with_line(lines, ProofLine::Split(at))?;
    Ok(Stage::AtHalf(Proving {
        answer,
        lines,
        waiting: waiting + 1,
    }))
}

// What comes after some cuts of a close.
fn cuts_left(
    proving: Proving,
    root: Option<u32>,
    cuts: Listed<Cut>,
    left: u64,
) -> Result<Stage, AllocError>
    requires { HalvesWait proving }
    ensures { IfOk result (λ stage. stage ≡ cuts_left proving root cuts left) }
{
    if left == 0 {
        return closed(proving, Packing { root, cuts });
    }
    Ok(Stage::AtCuts {
        proving,
        root,
        cuts,
        left,
    })
}

/// The root that is written so: 0 stands for none.
pub fn root_of(number: u32) -> Option<u32>
    ensures { result ≡ root_of number }
{
    if number == 0 { None } else { Some(number) }
}

// What comes after the head of a close.
fn at_close(alloc: Global, proving: Proving, line: &[u8]) -> Result<Stage, LineError>
    requires { HalvesWait proving }
    ensures { Gives (λ s. s) result (half_at proving None line.now) }
{
    let (root, left) = pair_of(line, b"C", 0, MAX_VERTEX, 0, u64::MAX).ok_or(LineError::BadLine)?;
    let stage = cuts_left(
        proving,
        root_of(root as u32),
        Listed::of(Vec::new(alloc)),
        left,
    )?;
    Ok(stage)
}

/// What comes after a line where a half of a proof begins.
#[tactic(auto, unfolding(crate::specs::Reading::step))]
pub fn at_half(
    alloc: Global,
    version: Version,
    proving: Proving,
    line: &[u8],
) -> Result<Stage, LineError>
    requires { HalvesWait proving }
    ensures { Gives (λ s. s) result (step version (Stage.AtHalf proving) line.now) }
{
    match split_of(version, line) {
        None => at_close(alloc, proving, line),
        Some(at) => {
            let stage = split(proving, at)?;
            Ok(stage)
        }
    }
}

// The cut that a line says. Its set is the one that was kept, where that came before.
fn kept_cut(alloc: Global, kept: &mut KeptSets, line: &[u8]) -> Result<Cut, LineError>
    ensures { Gives (λ c. c) result (cut_of line.now) }
{
    let Cut { set, q, y } = cut_of(alloc, line)?;
    let set = kept.share(set)?;
    Ok(Cut { set, q, y })
}

/// What comes after a line where cuts of a close stand.
#[tactic(auto, unfolding(crate::specs::Reading::step))]
pub fn at_cuts(
    alloc: Global,
    kept: &mut KeptSets,
    proving: Proving,
    root: Option<u32>,
    cuts: Listed<Cut>,
    left: u64,
    line: &[u8],
) -> Result<Stage, LineError>
    requires open { HalvesWait proving }
    requires some { 1 ≤ left }
    ensures { (version : VersionSpec) → Gives (λ s. s) result (step version (Stage.AtCuts proving root cuts left) line.now) }
{
    let cut = kept_cut(alloc, kept, line)?;
    let mut cuts = cuts.into_vec();
    cuts.push(cut)?;
    let stage = cuts_left(proving, root, Listed::of(cuts), left - 1)?;
    Ok(stage)
}
