ghost use Rattle.std.specs.Prelude.{◌≡◌, ◌≢◌, ℕ, List, [], ◌∷◌, Option, IfOk, IfErr, IsErrOf, None, Some};
ghost use Rattle.st_edge.specs.Faults.{HasCause};
ghost use Rattle.st_edge.specs.Shelf.{AsksForFront, SameTexts};
ghost use Rattle.command_line.specs.Seen.{solve_words};
ghost use Rattle.command_line.specs.Words.{solve};
ghost use Rattle.steiner_top.specs.Answer.{SolveAnswer};
ghost use Rattle.steiner_top.specs.Causes.{IsSolveAnswered, IsSaved, IsStopped, SameBut, StopsAtLoad, log_name_of};
ghost use Rattle.steiner_top.specs.declared.outcome.Outcome.{Outcome as Given};
ghost use Rattle.steiner_top.specs.declared.status.Status.{Status as Ending};
ghost use Rattle.steiner_top.specs.declared.status.Status.TheVariants.{WriteFault};

use crate::Status;
use crate::answer::Answer;
use crate::lines::refused_stp;
use crate::loading::load;
use crate::outcome::SolveFault;
use crate::saving::{outcome_status, outcome_text, save};
use crate::solving::solve_bytes;
use crate::wanted::Wanted;
use command_line::SolveWords;
use st_edge::Shelf;
use std::alloc::{AllocError, Global};
use std::sync::Wait;
use std::thread::Threads;
use worker_loop::Gate;

// How the bytes of a file are answered.
fn answer_bytes<R: Threads + Wait + Sync, G: Gate>(
    rt: &R,
    alloc: Global,
    words: &SolveWords<'_>,
    bytes: &[u8],
    gate: &G,
) -> Result<Answer, AllocError>
    ensures { IfOk result (λ a.
        SolveAnswer (solve_words words.now) bytes.now a.status a.outcome a.text.items) }
{
    let wanted = Wanted {
        workers: words.workers,
        nodes: words.nodes,
        plain: words.plain,
        links: words.links,
    };
    match solve_bytes(rt, alloc, bytes, wanted, gate) {
        Ok(outcome) => {
            let text = outcome_text(alloc, words.file, words.workers, &outcome)?;
            let status = outcome_status(&outcome);
            Ok(Answer {
                status,
                outcome: Some(outcome),
                text,
            })
        }
        Err(SolveFault::Stp(fault)) => {
            let line = refused_stp(alloc, fault)?;
            Ok(Answer {
                status: Status::RefusedFile,
                outcome: None,
                text: line.into_bytes(),
            })
        }
        Err(SolveFault::NoMemory) => Err(AllocError),
    }
}

/// Loads the file, solves it and saves the log, if the words ask for it: what there is to send
/// then, or how the run ends without it.
pub fn solve_command<R: Threads + Wait + Sync, F: Shelf, G: Gate>(
    rt: &R,
    alloc: Global,
    words: &SolveWords<'_>,
    shelf: &mut F,
    gate: &G,
) -> Result<Answer, Status>
    ensures answered { IfOk result (λ a.
        IsSolveAnswered (solve_words words.now) (F.text shelf.old) a.status a.outcome a.text.items) }
    ensures stopped { IfErr result (λ status. status ≢ WriteFault
        → IsStopped (words.now.file.now ∷ []) (F.text shelf.old) status) }
    ensures unsaved { IsErrOf result Status.WriteFault → (status : Ending) × (outcome : Option Given)
        × (sent : List ℕ) × IsSolveAnswered (solve_words words.now) (F.text shelf.old) status outcome sent }
    ensures first { IfErr result (StopsAtLoad (words.now.file.now ∷ [])
        (F.text shelf.old) (F.asked shelf.old) (F.asked shelf.new)) }
    ensures asked { AsksForFront (F.asked shelf.old) (F.asked shelf.new) (words.now.file.now ∷ []) }
    ensures saved { IfOk result (λ a. IsSaved (Some (solve (solve_words words.now))) (F.text shelf.new) a.outcome) }
    ensures others { SameBut (log_name_of (Some (solve (solve_words words.now))))
        (F.text shelf.old) (F.text shelf.new) }
    ensures none { IfOk result (λ a. a.outcome ≡ None → SameTexts (F.text shelf.old) (F.text shelf.new)) }
    ensures kept { IfErr result (λ status. status ≢ WriteFault
        → SameTexts (F.text shelf.old) (F.text shelf.new)) }
    ensures read_cause { HasCause (F.read_faults shelf.old) (F.read_faults shelf.new)
        (IsErrOf result Status.ReadFault) }
    ensures write_cause { HasCause (F.write_faults shelf.old) (F.write_faults shelf.new)
        (IsErrOf result Status.WriteFault) }
{
    let bytes = match load(alloc, words.file, shelf) {
        Ok(bytes) => bytes,
        Err(status) => return Err(status),
    };
    let answer = answer_bytes(rt, alloc, words, &bytes, gate)?;
    let (name, workers) = (words.log_name, words.workers);
    save(rt, alloc, name, workers, &answer.outcome, shelf)?;
    Ok(answer)
}
