ghost use Rattle.std.specs.Prelude.{IfOk};
ghost use Rattle.log_format.specs.declared.item.Item.TheVariants.{Split as OneSplit, CloseHead, OneCut};
ghost use Rattle.cert_checker.specs.declared.posed.Rest.TheVariants.{Left};
ghost use Rattle.cert_checker.specs.Path.{AreSplitsIn};
ghost use Rattle.cert_checker.specs.Posed.{ground_left, problem_of};
ghost use Rattle.cert_checker.specs.Following.{Follows, IsAfterCuts, IsAfterLine, IsBegun, IsFirst, IsReady};

use crate::line::{judge_line, line_count};
use crate::path::Path;
use crate::posed::{Posed, Rest};
use crate::stage::{Proving, Stage, Stepping};
use crate::{JudgeError, Verdict};
use cut_packing::{Cut, Packing};
use lift_back::Reduced;
use log_format::ProofLine;
use st_model::{Listed, SplitAt};
use std::alloc::{AllocError, Global};

// The proof of what the steps left, of which no line has come.
pub fn begun(alloc: Global, stepping: &Stepping) -> Result<Proving, AllocError>
    ensures { IfOk result (IsBegun stepping.now) }
{
    let (left, least, path) = first_of(alloc, &stepping.rest, stepping.dual)?;
    Ok(Proving {
        primal: stepping.primal,
        dual: stepping.dual,
        left,
        least,
        path,
        number: stepping.number.saturating_add(1),
    })
}

// What is left, what is to be proved of it, and the path to the branch that it is to be proved of.
fn first_of(alloc: Global, rest: &Rest, dual: u64) -> Result<(Option<Posed>, u64, Path), AllocError>
    ensures { IfOk result (λ first. IsFirst rest.now dual first.0 first.1 first.2) }
{
    match rest {
        Rest::Left(reduced) => first_left(alloc, reduced, dual),
        Rest::Whole => Ok((None, dual, Path::new(alloc))),
    }
}

// The same of an instance.
fn first_left(
    alloc: Global,
    reduced: &Reduced,
    dual: u64,
) -> Result<(Option<Posed>, u64, Path), AllocError>
    ensures { IfOk result (λ first. IsFirst (Left reduced.now) dual first.0 first.1 first.2) }
{
    let least = dual.saturating_sub(reduced.offset());
    let instance = reduced.instance(alloc)?;
    let gone = reduced.gone(alloc)?;
    let path = Path::leaving_out(alloc, &gone)?;
    Ok((Some(Posed::Plain(instance)), least, path))
}

// After a line of the proof, which is judged.
fn after_line(
    alloc: Global,
    posed: &Posed,
    proving: Proving,
    line: &ProofLine,
) -> Result<Stage, AllocError>
    requires { AreSplitsIn (ground_left (problem_of posed.now) proving.left) proving.path }
    ensures { IfOk result (IsAfterLine (problem_of posed.now) proving line.now) }
{
    let Proving {
        primal,
        dual,
        left,
        least,
        path,
        number,
    } = proving;
    match judge_line(alloc, posed.left_or(&left), least, number, path, line) {
        Ok(Some(path)) => Ok(Stage::BeforeHalf(Proving {
            primal,
            dual,
            left,
            least,
            path,
            number: number.saturating_add(line_count(line)),
        })),
        Ok(None) => Ok(Stage::Right(Verdict::of(primal, dual))),
        Err(JudgeError::Fault(fault)) => Ok(Stage::Wrong(fault)),
        Err(JudgeError::NoMemory) => Err(AllocError),
    }
}

// After a split, which is judged.
pub fn after_split(
    alloc: Global,
    posed: &Posed,
    stage: Stage,
    at: SplitAt,
) -> Result<Stage, AllocError>
    requires { IsReady (problem_of posed.now) stage }
    ensures { IfOk result (Follows (problem_of posed.now) (OneSplit at) stage) }
{
    match stage {
        Stage::BeforeHalf(proving) => {
            let line = ProofLine::Split(at);
            let next = after_line(alloc, posed, proving, &line)?;
            Ok(next)
        }
        other => Ok(other),
    }
}

// After some cuts of a close, which is judged with the last of them.
fn after_cuts(
    alloc: Global,
    posed: &Posed,
    proving: Proving,
    root: Option<u32>,
    cuts: Listed<Cut>,
    left: u64,
) -> Result<Stage, AllocError>
    requires { AreSplitsIn (ground_left (problem_of posed.now) proving.left) proving.path }
    ensures { IfOk result (IsAfterCuts (problem_of posed.now) proving root cuts left) }
{
    if left > 0 {
        return Ok(Stage::AmongCuts {
            proving,
            root,
            cuts,
            left,
        });
    }
    let line = ProofLine::Close(Packing { root, cuts });
    let next = after_line(alloc, posed, proving, &line)?;
    Ok(next)
}

// After the head of a close.
pub fn after_head(
    alloc: Global,
    posed: &Posed,
    stage: Stage,
    root: Option<u32>,
    count: u64,
) -> Result<Stage, AllocError>
    requires { IsReady (problem_of posed.now) stage }
    ensures { IfOk result (Follows (problem_of posed.now) (CloseHead root count) stage) }
{
    match stage {
        Stage::BeforeHalf(proving) => {
            let none = Listed::of(Vec::new(alloc));
            let next = after_cuts(alloc, posed, proving, root, none, count)?;
            Ok(next)
        }
        other => Ok(other),
    }
}

// After a cut.
pub fn after_cut(alloc: Global, posed: &Posed, stage: Stage, cut: Cut) -> Result<Stage, AllocError>
    requires { IsReady (problem_of posed.now) stage }
    ensures { IfOk result (Follows (problem_of posed.now) (OneCut cut) stage) }
{
    match stage {
        Stage::AmongCuts {
            proving,
            root,
            cuts,
            left,
        } => {
            let mut cuts = cuts.into_vec();
            cuts.push(cut)?;
            let cuts = Listed::of(cuts);
            let next = after_cuts(alloc, posed, proving, root, cuts, left.saturating_sub(1))?;
            Ok(next)
        }
        other => Ok(other),
    }
}
