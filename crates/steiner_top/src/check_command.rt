ghost use Rattle.std.specs.Prelude.{◌≡◌, [], ◌∷◌, IfOk, IfErr, IsErrOf, None};
ghost use Rattle.st_edge.specs.Faults.{HasCause};
ghost use Rattle.st_edge.specs.Shelf.{AsksForFront, SameTexts};
ghost use Rattle.command_line.specs.Seen.{check_words};
ghost use Rattle.steiner_top.specs.Answer.{CheckAnswer, IsLineOf};
ghost use Rattle.steiner_top.specs.Causes.{IsCheckAnswered, IsStopped, StopsAtLoad};

use crate::Status;
use crate::answer::Answer;
use crate::lines::{refused_log, refused_stp, verdict};
use crate::loading::load;
use cert_checker::{CheckFault, Checked, check_file};
use command_line::CheckWords;
use st_edge::Shelf;
use std::alloc::{AllocError, Global};

// How what a check found is answered.
fn answer_to(alloc: Global, found: Result<Checked, CheckFault>) -> Result<Answer, AllocError>
    ensures line { IfOk result (λ a. IsLineOf found a.status a.text.items) }
    ensures outcome { IfOk result (λ a. a.outcome ≡ None) }
{
    match found {
        Ok(checked) => Ok(Answer::of_line(Status::of(checked.verdict), verdict(alloc, checked)?)),
        Err(CheckFault::Stp(fault)) => Ok(Answer::of_line(
            Status::RefusedFile,
            refused_stp(alloc, fault)?,
        )),
        Err(CheckFault::Log(fault)) => Ok(Answer::of_line(
            Status::RefusedLog,
            refused_log(alloc, fault)?,
        )),
        Err(CheckFault::NoMemory) => Err(AllocError),
    }
}

// How the bytes of a file and of a log are answered.
fn answer_bytes(alloc: Global, stp: &[u8], log: &[u8]) -> Result<Answer, AllocError>
    ensures answer { IfOk result (λ a. CheckAnswer stp.now log.now a.status a.text.items) }
    ensures outcome { IfOk result (λ a. a.outcome ≡ None) }
{
    answer_to(alloc, check_file(alloc, stp, log))
}

/// Loads the file and the log, and checks the log: what there is to send then, or how the run ends
/// without it.
pub fn check_command<F: Shelf>(
    alloc: Global,
    words: &CheckWords<'_>,
    shelf: &mut F,
) -> Result<Answer, Status>
    ensures answered { IfOk result (λ a.
        IsCheckAnswered (check_words words.now) (F.text shelf.old) a.status a.outcome a.text.items) }
    ensures stopped { IfErr result
        (IsStopped (words.now.file.now ∷ words.now.log_name.now ∷ []) (F.text shelf.old)) }
    ensures first { IfErr result (StopsAtLoad (words.now.file.now ∷ words.now.log_name.now ∷ [])
        (F.text shelf.old) (F.asked shelf.old) (F.asked shelf.new)) }
    ensures asked { AsksForFront (F.asked shelf.old) (F.asked shelf.new)
        (words.now.file.now ∷ words.now.log_name.now ∷ []) }
    ensures texts { SameTexts (F.text shelf.old) (F.text shelf.new) }
    ensures read_cause { HasCause (F.read_faults shelf.old) (F.read_faults shelf.new)
        (IsErrOf result Status.ReadFault) }
    ensures write_faults { F.write_faults shelf.new ≡ F.write_faults shelf.old }
{
    let stp = match load(alloc, words.file, shelf) {
        Ok(stp) => stp,
        Err(status) => return Err(status),
    };
    let log = match load(alloc, words.log_name, shelf) {
        Ok(log) => log,
        Err(status) => return Err(status),
    };
    let answer = answer_bytes(alloc, &stp, &log)?;
    Ok(answer)
}
