ghost use Rattle.std.specs.Prelude.{◌≡◌, [], ◌∷◌, IfOk, IfErr, IsErrOf, None};
ghost use Rattle.st_edge.specs.Faults.{HasCause};
ghost use Rattle.st_edge.specs.Shelf.{AsksForFront, SameTexts};
ghost use Rattle.command_line.specs.Seen.{verify_words};
ghost use Rattle.steiner_top.specs.Causes.{IsVerifyAnswered, IsStopped, StopsAtLoad};
ghost use Rattle.steiner_top.specs.Verified.{IsClaimLine, IsSolutionLine, VerifyAnswer};

use crate::Status;
use crate::answer::Answer;
use crate::lines::{claimed_tree, not_tree, refused_claim, refused_stp};
use crate::loading::load;
use command_line::VerifyWords;
use solution_reader::{Claimed, SolError, VerifyFault, read_solution, verify};
use st_edge::Shelf;
use std::alloc::{AllocError, Global};
use stp_reader::{ReadError, Reading, read_stp};

// How a claim is answered.
fn answer_claim(alloc: Global, reading: &Reading, claimed: &Claimed) -> Result<Answer, AllocError>
    ensures line { IfOk result (λ a.
        IsClaimLine reading.now.instance reading.now.scale claimed.now a.status a.text.items) }
    ensures outcome { IfOk result (λ a. a.outcome ≡ None) }
{
    match verify(alloc, &reading.instance, reading.scale, claimed) {
        Ok(cost) => Ok(Answer::of_line(Status::Optimal, claimed_tree(alloc, cost, reading.scale)?)),
        Err(VerifyFault::NoMemory) => Err(AllocError),
        Err(fault) => Ok(Answer::of_line(Status::NotTree, not_tree(alloc, fault)?)),
    }
}

// How the bytes of a solution are answered beside an instance.
fn answer_solution(alloc: Global, reading: &Reading, solution: &[u8]) -> Result<Answer, AllocError>
    ensures line { IfOk result (λ a.
        IsSolutionLine reading.now.instance reading.now.scale solution.now a.status a.text.items) }
    ensures outcome { IfOk result (λ a. a.outcome ≡ None) }
{
    match read_solution(alloc, solution) {
        Ok(claimed) => answer_claim(alloc, reading, &claimed),
        Err(SolError::Fault(fault)) => Ok(Answer::of_line(
            Status::RefusedSolution,
            refused_claim(alloc, fault)?,
        )),
        Err(SolError::NoMemory) => Err(AllocError),
    }
}

// How the bytes of a file and of a solution are answered.
fn answer_bytes(alloc: Global, stp: &[u8], solution: &[u8]) -> Result<Answer, AllocError>
    ensures answer { IfOk result (λ a. VerifyAnswer stp.now solution.now a.status a.text.items) }
    ensures outcome { IfOk result (λ a. a.outcome ≡ None) }
{
    match read_stp(alloc, stp) {
        Ok(reading) => answer_solution(alloc, &reading, solution),
        Err(ReadError::Fault(fault)) => Ok(Answer::of_line(
            Status::RefusedFile,
            refused_stp(alloc, fault)?,
        )),
        Err(ReadError::NoMemory) => Err(AllocError),
    }
}

/// Loads the file and the solution, and judges what the solution claims: what there is to send
/// then, or how the run ends without it.
pub fn verify_command<F: Shelf>(
    alloc: Global,
    words: &VerifyWords<'_>,
    shelf: &mut F,
) -> Result<Answer, Status>
    ensures answered { IfOk result (λ a.
        IsVerifyAnswered (verify_words words.now) (F.text shelf.old) a.status a.outcome a.text.items) }
    ensures stopped { IfErr result
        (IsStopped (words.now.file.now ∷ words.now.solution.now ∷ []) (F.text shelf.old)) }
    ensures first { IfErr result (StopsAtLoad (words.now.file.now ∷ words.now.solution.now ∷ [])
        (F.text shelf.old) (F.asked shelf.old) (F.asked shelf.new)) }
    ensures asked { AsksForFront (F.asked shelf.old) (F.asked shelf.new)
        (words.now.file.now ∷ words.now.solution.now ∷ []) }
    ensures texts { SameTexts (F.text shelf.old) (F.text shelf.new) }
    ensures read_cause { HasCause (F.read_faults shelf.old) (F.read_faults shelf.new)
        (IsErrOf result Status.ReadFault) }
    ensures write_faults { F.write_faults shelf.new ≡ F.write_faults shelf.old }
{
    let stp = match load(alloc, words.file, shelf) {
        Ok(stp) => stp,
        Err(status) => return Err(status),
    };
    let solution = match load(alloc, words.solution, shelf) {
        Ok(solution) => solution,
        Err(status) => return Err(status),
    };
    let answer = answer_bytes(alloc, &stp, &solution)?;
    Ok(answer)
}
