ghost use Rattle.std.specs.Prelude.{IfOk, IfErr};
ghost use Rattle.cert_checker.specs.declared.posed.Rest.TheVariants.{Left};
ghost use Rattle.cert_checker.specs.Judging.{IfFault, IsBadStep, IsBadStepOf};
ghost use Rattle.cert_checker.specs.Posed.{IsTakenOf};

use crate::JudgeError;
use crate::posed::Rest;
use lift_back::{ApplyError, Reduced, Step};
use log_format::Kind;

// What is left after the step on this line.
pub fn take(rest: Rest, number: u64, step: &Step) -> Result<Rest, JudgeError>
    ensures taken { IfOk result (IsTakenOf rest step.now) }
    ensures wrong { IfErr result (λ e. IfFault e (IsBadStepOf rest number step.now)) }
{
    match rest {
        Rest::Left(reduced) => apply(reduced, number, step),
        Rest::Whole => Err(JudgeError::at(number, Kind::BadStep)),
    }
}

// The same of an instance.
fn apply(before: Reduced, number: u64, step: &Step) -> Result<Rest, JudgeError>
    ensures taken { IfOk result (IsTakenOf (Left before) step.now) }
    ensures wrong { IfErr result (λ e. IfFault e (IsBadStep before.state number step.now)) }
{
    let mut reduced = before;
    match reduced.apply(step) {
        Ok(()) => Ok(Rest::Left(reduced)),
        Err(ApplyError::StepFault) => Err(JudgeError::at(number, Kind::BadStep)),
        Err(ApplyError::NoMemory) => Err(JudgeError::NoMemory),
    }
}
