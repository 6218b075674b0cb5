ghost use Rattle.std.specs.Prelude.{◌≡◌, OnOk, IfErr};
ghost use Rattle.log_format.specs.Accepts.{AcceptsClaimIn, RejectsClaimIn, steps_line};
ghost use Rattle.cert_checker.specs.Judging.{IfFault, IsRightTree, IsWrongTree};
ghost use Rattle.cert_checker.specs.Posed.{ground_on, problem_of};

use crate::JudgeError;
use crate::judges::{cost_of, is_tree_of};
use crate::posed::Posed;
use crate::wall::is_wall_of;
use log_format::{Claim, Kind};
use st_model::{Listed, Tree};
use std::alloc::Global;

// The line of the first step.
pub(crate) fn steps_line(tree: &Tree) -> u64
    ensures { result ≡ steps_line tree.now }
{
    5 + tree.arcs.as_slice().len() as u64
}

// Judges a tree and the two numbers that are claimed of it.
pub(crate) fn judge_tree(
    alloc: Global,
    posed: &Posed,
    primal: u64,
    dual: u64,
    tree: &Tree,
) -> Result<(), JudgeError>
    ensures right { OnOk result (IsRightTree (ground_on posed.now) primal dual tree.now) }
    ensures wrong { IfErr result (λ e. IfFault e
        (IsWrongTree (ground_on posed.now) primal dual tree.now)) }
{
    if !is_tree_of(alloc, posed, tree)? {
        return Err(JudgeError::at(3, Kind::NotTree));
    }
    if cost_of(posed, tree) != primal {
        return Err(JudgeError::at(2, Kind::WrongCost));
    }
    if primal < dual {
        return Err(JudgeError::at(2, Kind::DualAbovePrimal));
    }
    Ok(())
}

// Judges a wall.
pub(crate) fn judge_wall(alloc: Global, posed: &Posed, wall: &Listed<u32>) -> Result<(), JudgeError>
    ensures right { OnOk result (AcceptsClaimIn (problem_of posed.now) (Claim.NoTree wall.now)) }
    ensures wrong { IfErr result (λ e. IfFault e
        (RejectsClaimIn (problem_of posed.now) (Claim.NoTree wall.now))) }
{
    if !is_wall_of(alloc, posed, wall.as_slice())? {
        return Err(JudgeError::at(3, Kind::BadWall));
    }
    Ok(())
}
