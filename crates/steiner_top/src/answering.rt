ghost use Rattle.std.specs.Prelude.{◌≡◌, ◌≢◌, ℕ, List, Option, IfOk, IfErr, IsErrOf, None, map, string_bytes};
ghost use Rattle.st_edge.specs.Faults.{HasCause};
ghost use Rattle.st_edge.specs.Shelf.{AsksForFront, SameTexts};
ghost use Rattle.command_line.specs.Words.{command_of};
ghost use Rattle.steiner_top.specs.Causes.{IsAnswered, IsUnanswered, IsSaved, SameBut, StopsAtLoad, loads_of, log_name_of};
ghost use Rattle.steiner_top.specs.declared.outcome.Outcome.{Outcome as Given};
ghost use Rattle.steiner_top.specs.declared.status.Status.{Status as Ending};
ghost use Rattle.steiner_top.specs.declared.status.Status.TheVariants.{WriteFault};

use crate::Status;
use crate::answer::Answer;
use crate::check_command::check_command;
use crate::few_command::few_command;
use crate::gen_command::gen_command;
use crate::resume_command::resume_command;
use crate::solve_command::solve_command;
use crate::trial_command::trial_command;
use crate::verify_command::verify_command;
use command_line::{Cmd, read_words};
use st_edge::Shelf;
use std::alloc::Global;
use std::sync::Wait;
use std::thread::Threads;
use worker_loop::Gate;

/// Does what the words ask for, up to the sending: what there is to send, or how the run ends
/// without an answer.
pub fn answer<R: Threads + Wait + Sync, F: Shelf, G: Gate>(
    rt: &R,
    alloc: Global,
    words: &[String],
    shelf: &mut F,
    gate: &G,
) -> Result<Answer, Status>
    ensures answered { IfOk result (λ a.
        IsAnswered (command_of (map string_bytes words.now)) (F.text shelf.old) a.status a.outcome a.text.items) }
    ensures unanswered { IfErr result (λ status. status ≢ WriteFault
        → IsUnanswered (command_of (map string_bytes words.now)) (F.text shelf.old) status) }
    ensures unsaved { IsErrOf result Status.WriteFault
        → (status : Ending) × (outcome : Option Given) × (sent : List ℕ)
        × IsAnswered (command_of (map string_bytes words.now)) (F.text shelf.old) status outcome sent }
    ensures first { IfErr result (StopsAtLoad (loads_of (command_of (map string_bytes words.now)))
        (F.text shelf.old) (F.asked shelf.old) (F.asked shelf.new)) }
    ensures asked { AsksForFront (F.asked shelf.old) (F.asked shelf.new)
        (loads_of (command_of (map string_bytes words.now))) }
    ensures saved { IfOk result (λ a. IsSaved (command_of (map string_bytes words.now)) (F.text shelf.new) a.outcome) }
    ensures others { SameBut (log_name_of (command_of (map string_bytes words.now)))
        (F.text shelf.old) (F.text shelf.new) }
    ensures none { IfOk result (λ a. a.outcome ≡ None → SameTexts (F.text shelf.old) (F.text shelf.new)) }
    ensures kept { IfErr result (λ status. status ≢ WriteFault
        → SameTexts (F.text shelf.old) (F.text shelf.new)) }
    ensures read_cause { HasCause (F.read_faults shelf.old) (F.read_faults shelf.new)
        (IsErrOf result Status.ReadFault) }
    ensures write_cause { HasCause (F.write_faults shelf.old) (F.write_faults shelf.new)
        (IsErrOf result Status.WriteFault) }
{
    match read_words(alloc, words) {
        Ok(Cmd::Solve(words)) => solve_command(rt, alloc, &words, shelf, gate),
        Ok(Cmd::Check(words)) => check_command(alloc, &words, shelf),
        Ok(Cmd::Gen(words)) => Ok(gen_command(alloc, &words)?),
        Ok(Cmd::Trial(words)) => Ok(trial_command(rt, alloc, &words, gate)?),
        Ok(Cmd::Few(words)) => few_command(alloc, &words, shelf),
        Ok(Cmd::Verify(words)) => verify_command(alloc, &words, shelf),
        Ok(Cmd::Resume(words)) => resume_command(rt, alloc, &words, shelf, gate),
        Err(fault) => Err(Status::from(fault)),
    }
}
