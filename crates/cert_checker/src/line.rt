ghost use Rattle.std.specs.Prelude.{◌≡◌, ◌∷◌, length, Some, IfOk, OnOk, IfErr};
ghost use Rattle.cut_packing.specs.ProofTree.{IsSplitAtIn, ClosesIn};
ghost use Rattle.log_format.specs.Text.{lines_of};
ghost use Rattle.cert_checker.specs.Path.{branch_of, next_path, yes_path, path_after, AreSplitsIn};
ghost use Rattle.cert_checker.specs.Judging.{IfFault, IsRightLine, IsWrongLine};
ghost use Rattle.cert_checker.specs.Posed.{ground_on};

use crate::JudgeError;
use crate::judges::{fits_path, weight_at};
use crate::path::Path;
use crate::posed::Posed;
use crate::splitting::is_split_at;
use cut_packing::Packing;
use log_format::{Kind, ProofLine};
use st_model::SplitAt;
use std::alloc::Global;

// How many lines of the text a line of a proof takes.
pub fn line_count(line: &ProofLine) -> u64
    ensures { result ≡ length (lines_of line.now) }
{
    match line {
        ProofLine::Split(_) => 1,
        ProofLine::Close(packing) => 1 + packing.cuts.as_slice().len() as u64,
    }
}

// Judges a line of a proof in the branch at the end of a path. Where it is right, the path to the
// branch that the next line is of.
pub fn judge_line(
    alloc: Global,
    posed: &Posed,
    dual: u64,
    number: u64,
    path: Path,
    line: &ProofLine,
) -> Result<Option<Path>, JudgeError>
    requires { AreSplitsIn (ground_on posed.now) path }
    ensures right { OnOk result (IsRightLine (ground_on posed.now) dual (branch_of path) line.now) }
    ensures next { IfOk result (λ next. next ≡ path_after path line.now) }
    ensures wrong { IfErr result (λ e. IfFault e
        (IsWrongLine (ground_on posed.now) dual (branch_of path) number line.now)) }
{
    match line {
        ProofLine::Split(at) => judge_split(posed, number, path, *at),
        ProofLine::Close(packing) => judge_close(alloc, posed, dual, number, path, packing),
    }
}

// Judges a split. Where it is right, the path to its half that says yes.
fn judge_split(
    posed: &Posed,
    number: u64,
    path: Path,
    at: SplitAt,
) -> Result<Option<Path>, JudgeError>
    ensures right { OnOk result (IsSplitAtIn (ground_on posed.now) (branch_of path) at) }
    ensures next { IfOk result (λ next. next ≡ Some (yes_path path at)) }
    ensures wrong { IfErr result (λ e. IfFault e
        (IsWrongLine (ground_on posed.now) 0 (branch_of path) number (ProofLine.Split at))) }
{
    if !is_split_at(posed, path.branch(), at) {
        return Err(JudgeError::at(number, Kind::BadSplit));
    }
    Ok(Some(path.split(at)?))
}

// Judges a close. Where it is right, the path to the next branch that waits.
fn judge_close(
    alloc: Global,
    posed: &Posed,
    dual: u64,
    number: u64,
    path: Path,
    packing: &Packing,
) -> Result<Option<Path>, JudgeError>
    requires { AreSplitsIn (ground_on posed.now) path }
    ensures right { OnOk result (ClosesIn (ground_on posed.now) (branch_of path) dual packing.now) }
    ensures next { IfOk result (λ next. next ≡ next_path path) }
    ensures wrong { IfErr result (λ e. IfFault e
        (IsWrongLine (ground_on posed.now) dual (branch_of path) number (ProofLine.Close packing.now))) }
{
    if !fits_path(alloc, posed, &path, packing)? {
        return Err(JudgeError::at(number, Kind::BadPacking));
    }
    if weight_at(posed, &path, packing) < u128::from(dual) {
        return Err(JudgeError::at(number, Kind::TooLight));
    }
    Ok(path.close()?)
}
