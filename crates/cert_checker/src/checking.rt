ghost use Rattle.std.specs.Prelude.{◌≡◌, ℕ, IfOk};
ghost use Rattle.amounts.specs.declared.scale.Scale.{Scale};
ghost use Rattle.st_model.specs.Network.{Network};
ghost use Rattle.stp_reader.specs.declared.reason.Reason.{Reason};
ghost use Rattle.arborescence.specs.Problem.{Problem};
ghost use Rattle.stp_reader.specs.Reads.{Reads, ReadsFile, Refused, RefusedFile};
ghost use Rattle.log_format.specs.declared.kind.Kind.{Kind};
ghost use Rattle.cert_checker.specs.declared.fault.CheckFault.TheVariants.{Stp, Log};
ghost use Rattle.cert_checker.specs.declared.verdict.Verdict.{Verdict as Conclusion};
ghost use Rattle.cert_checker.specs.Checking.{IsAcceptedText, IsAcceptedTextIn, IsWrongText, IsWrongTextIn, IsAnswer, IsFileAnswer, Answers};
ghost use Rattle.cert_checker.specs.Verdict.{Concludes, ConcludesIn};

use crate::{CheckFault, Checked, Checker};
use std::alloc::Global;

/// What may be concluded of the instance of an STP file from a log. The faults of the file come
/// first, then those of the log's text, wherever they stand, and then those of what it says.
pub fn check(alloc: Global, stp: &[u8], log: &[u8]) -> Result<Checked, CheckFault>
    // The verdict is true of the trees of the file's instance, and of their costs.
    ensures concludes { (I : Network) (scale : Scale) → Reads stp.now I scale
        → IfOk result (λ checked. Concludes I checked.verdict) }
    // Its numbers count what the file's do.
    ensures unit { (I : Network) (scale : Scale) → Reads stp.now I scale
        → IfOk result (λ checked. checked.scale ≡ scale) }
    // And there is such an instance.
    ensures some { IfOk result (λ checked.
        (I : Network) × Reads stp.now I checked.scale × Concludes I checked.verdict) }

    // Each answer has its reason.
    ensures exact { IsAnswer stp.now log.now result }

    // Each reason has its answer.
    ensures accepted { (I : Network) (scale : Scale) (verdict : Conclusion) → Reads stp.now I scale
        → IsAcceptedText I log.now verdict
        → Answers result (Ok (record { verdict = verdict; scale = scale })) }
    ensures file { (line : ℕ) (reason : Reason) → Refused stp.now line reason
        → Answers result (Err (Stp (record { line = line; reason = reason }))) }
    ensures log { (I : Network) (scale : Scale) (line : ℕ) (kind : Kind) → Reads stp.now I scale
        → IsWrongText I log.now line kind
        → Answers result (Err (Log (record { line = line; kind = kind }))) }
{
    log_format::one_spelling();
    log_format::rejected_of_a_problem_exactly();
    log_format::refused_exactly();
    stp_reader::refused_exactly();
    answer(alloc, stp, log)
}

// The verdict, or the first fault.
fn answer(alloc: Global, stp: &[u8], log: &[u8]) -> Result<Checked, CheckFault>
    ensures exact { IsAnswer stp.now log.now result }
    ensures concludes { (I : Network) (scale : Scale) → Reads stp.now I scale
        → IfOk result (λ checked. Concludes I checked.verdict) }
{
    let checker = Checker::begin(alloc, stp)?;
    let checker = checker.feed(log)?;
    checker.finish()
}

/// The same of the problem of a file of either kind, undirected or directed.
pub fn check_file(alloc: Global, stp: &[u8], log: &[u8]) -> Result<Checked, CheckFault>
    // The verdict is true of the trees of the file's problem, and of their costs.
    ensures concludes { (p : Problem) (scale : Scale) → ReadsFile stp.now p scale
        → IfOk result (λ checked. ConcludesIn p checked.verdict) }
    // Its numbers count what the file's do.
    ensures unit { (p : Problem) (scale : Scale) → ReadsFile stp.now p scale
        → IfOk result (λ checked. checked.scale ≡ scale) }
    // And there is such a problem.
    ensures some { IfOk result (λ checked.
        (p : Problem) × ReadsFile stp.now p checked.scale × ConcludesIn p checked.verdict) }

    // Each answer has its reason.
    ensures exact { IsFileAnswer stp.now log.now result }

    // Each reason has its answer.
    ensures accepted { (p : Problem) (scale : Scale) (verdict : Conclusion) → ReadsFile stp.now p scale
        → IsAcceptedTextIn p log.now verdict
        → Answers result (Ok (record { verdict = verdict; scale = scale })) }
    ensures file { (line : ℕ) (reason : Reason) → RefusedFile stp.now line reason
        → Answers result (Err (Stp (record { line = line; reason = reason }))) }
    ensures log { (p : Problem) (scale : Scale) (line : ℕ) (kind : Kind) → ReadsFile stp.now p scale
        → IsWrongTextIn p log.now line kind
        → Answers result (Err (Log (record { line = line; kind = kind }))) }
{
    log_format::one_spelling();
    log_format::rejected_of_a_problem_exactly();
    log_format::refused_exactly();
    stp_reader::file_refused_exactly();
    file_answer(alloc, stp, log)
}

// The verdict, or the first fault.
fn file_answer(alloc: Global, stp: &[u8], log: &[u8]) -> Result<Checked, CheckFault>
    ensures exact { IsFileAnswer stp.now log.now result }
    ensures concludes { (p : Problem) (scale : Scale) → ReadsFile stp.now p scale
        → IfOk result (λ checked. ConcludesIn p checked.verdict) }
{
    let checker = Checker::begin_file(alloc, stp)?;
    let checker = checker.feed(log)?;
    checker.finish()
}
