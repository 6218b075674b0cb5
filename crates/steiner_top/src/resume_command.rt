ghost use Rattle.std.specs.Prelude.{◌≡◌, ◌≢◌, ℕ, List, [], ◌∷◌, Option, IfOk, IfErr, IsErrOf, None, Some};
ghost use Rattle.st_edge.specs.Faults.{HasCause};
ghost use Rattle.st_edge.specs.Shelf.{AsksForFront, SameTexts};
ghost use Rattle.command_line.specs.Seen.{resume_words};
ghost use Rattle.command_line.specs.Words.{resume};
ghost use Rattle.steiner_top.specs.Causes.{IsResumeAnswered, IsSaved, IsStopped, SameBut, StopsAtLoad, log_name_of};
ghost use Rattle.steiner_top.specs.Resumed.{ResumeAnswer};
ghost use Rattle.steiner_top.specs.declared.outcome.Outcome.{Outcome as Given};
ghost use Rattle.steiner_top.specs.declared.status.Status.{Status as Ending};
ghost use Rattle.steiner_top.specs.declared.status.Status.TheVariants.{WriteFault};

use crate::Status;
use crate::answer::Answer;
use crate::continuing::resume_bytes;
use crate::lines::{refused_log, refused_stp};
use crate::loading::load;
use crate::saving::{outcome_status, outcome_text, save};
use cert_checker::CheckFault;
use command_line::ResumeWords;
use st_edge::Shelf;
use std::alloc::{AllocError, Global};
use std::sync::Wait;
use std::thread::Threads;
use worker_loop::{Gate, Limits};

// How the bytes of a file and of a log are answered.
fn answer_bytes<R: Threads + Wait + Sync, G: Gate>(
    rt: &R,
    alloc: Global,
    words: &ResumeWords<'_>,
    stp: &[u8],
    log: &[u8],
    gate: &G,
) -> Result<Answer, AllocError>
    ensures { IfOk result (λ a.
        ResumeAnswer (resume_words words.now) stp.now log.now a.status a.outcome a.text.items) }
{
    let limits = Limits {
        workers: words.workers,
        budget: words.nodes,
        links: false,
    };
    match resume_bytes(rt, alloc, stp, log, limits, gate) {
        Ok(outcome) => {
            let text = outcome_text(alloc, words.file, words.workers, &outcome)?;
            let status = outcome_status(&outcome);
            Ok(Answer {
                status,
                outcome: Some(outcome),
                text,
            })
        }
        Err(CheckFault::Stp(fault)) => Ok(Answer::of_line(
            Status::RefusedFile,
            refused_stp(alloc, fault)?,
        )),
        Err(CheckFault::Log(fault)) => Ok(Answer::of_line(
            Status::RefusedLog,
            refused_log(alloc, fault)?,
        )),
        Err(CheckFault::NoMemory) => Err(AllocError),
    }
}

/// Loads the file and the log, goes on from the log and saves the new one, if the words ask for it: what
/// there is to send then, or how the run ends without it.
pub fn resume_command<R: Threads + Wait + Sync, F: Shelf, G: Gate>(
    rt: &R,
    alloc: Global,
    words: &ResumeWords<'_>,
    shelf: &mut F,
    gate: &G,
) -> Result<Answer, Status>
    ensures answered { IfOk result (λ a.
        IsResumeAnswered (resume_words words.now) (F.text shelf.old) a.status a.outcome a.text.items) }
    ensures stopped { IfErr result (λ status. status ≢ WriteFault
        → IsStopped (words.now.file.now ∷ words.now.log_name.now ∷ []) (F.text shelf.old) status) }
    ensures unsaved { IsErrOf result Status.WriteFault → (status : Ending) × (outcome : Option Given)
        × (sent : List ℕ) × IsResumeAnswered (resume_words words.now) (F.text shelf.old) status outcome sent }
    ensures first { IfErr result (StopsAtLoad (words.now.file.now ∷ words.now.log_name.now ∷ [])
        (F.text shelf.old) (F.asked shelf.old) (F.asked shelf.new)) }
    ensures asked { AsksForFront (F.asked shelf.old) (F.asked shelf.new)
        (words.now.file.now ∷ words.now.log_name.now ∷ []) }
    ensures saved { IfOk result (λ a. IsSaved (Some (resume (resume_words words.now))) (F.text shelf.new) a.outcome) }
    ensures others { SameBut (log_name_of (Some (resume (resume_words words.now))))
        (F.text shelf.old) (F.text shelf.new) }
    ensures none { IfOk result (λ a. a.outcome ≡ None → SameTexts (F.text shelf.old) (F.text shelf.new)) }
    ensures kept { IfErr result (λ status. status ≢ WriteFault
        → SameTexts (F.text shelf.old) (F.text shelf.new)) }
    ensures read_cause { HasCause (F.read_faults shelf.old) (F.read_faults shelf.new)
        (IsErrOf result Status.ReadFault) }
    ensures write_cause { HasCause (F.write_faults shelf.old) (F.write_faults shelf.new)
        (IsErrOf result Status.WriteFault) }
{
    let stp = match load(alloc, words.file, shelf) {
        Ok(stp) => stp,
        Err(status) => return Err(status),
    };
    let log = match load(alloc, words.log_name, shelf) {
        Ok(log) => log,
        Err(status) => return Err(status),
    };
    let answer = answer_bytes(rt, alloc, words, &stp, &log, gate)?;
    let (name, workers) = (words.save_name, words.workers);
    save(rt, alloc, name, workers, &answer.outcome, shelf)?;
    Ok(answer)
}
