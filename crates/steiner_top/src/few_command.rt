ghost use Rattle.std.specs.Prelude.{◌≡◌, [], ◌∷◌, IfOk, IfErr, IsErrOf, None};
ghost use Rattle.st_edge.specs.Faults.{HasCause};
ghost use Rattle.st_edge.specs.Shelf.{AsksForFront, SameTexts};
ghost use Rattle.st_model.specs.Arborescence.{IsBest, cost};
ghost use Rattle.dimacs_writer.specs.Solution.{IsSolutionText};
ghost use Rattle.command_line.specs.Seen.{few_words};
ghost use Rattle.steiner_top.specs.Causes.{IsFewAnswered, IsStopped, StopsAtLoad};
ghost use Rattle.steiner_top.specs.Counted.{FewAnswer, IsFoundText};

use crate::Status;
use crate::answer::Answer;
use crate::lines::{infeasible, not_few, refused_stp};
use crate::loading::load;
use command_line::FewWords;
use dimacs_writer::solution_text;
use few_terminals::{FewFault, few};
use st_edge::Shelf;
use st_model::{Tree, tree_cost};
use std::alloc::{AllocError, Global};
use stp_reader::{ReadError, Reading, read_stp};

// The text of a best tree.
fn best_text(
    alloc: Global,
    words: &FewWords<'_>,
    reading: &Reading,
    tree: &Tree,
) -> Result<Vec<u8>, AllocError>
    requires { IsBest reading.now.instance tree.now }
    ensures { IfOk result (λ text. IsSolutionText words.now.file.now 1 tree.now
        (cost reading.now.instance tree.now) (cost reading.now.instance tree.now)
        reading.now.scale text.items) }
{
    let cost = tree_cost(&reading.instance, tree);
    solution_text(alloc, words.file, 1, tree, cost, cost, reading.scale, false)
}

// How an instance is answered whose best tree is wanted.
fn answer_reading(
    alloc: Global,
    words: &FewWords<'_>,
    reading: &Reading,
) -> Result<Answer, AllocError>
    ensures answer { IfOk result (λ a.
        IsFoundText (few_words words.now) reading.now.instance reading.now.scale a.status a.text.items) }
    ensures outcome { IfOk result (λ a. a.outcome ≡ None) }
{
    match few(alloc, &reading.instance) {
        Ok(Some(tree)) => Ok(Answer {
            status: Status::Optimal,
            outcome: None,
            text: best_text(alloc, words, reading, &tree)?,
        }),
        Ok(None) => Ok(Answer::of_line(Status::Infeasible, infeasible(alloc)?)),
        Err(FewFault::NoMemory) => Err(AllocError),
        Err(fault) => Ok(Answer::of_line(Status::NotFew, not_few(alloc, fault)?)),
    }
}

// How the bytes of a file are answered whose best tree is wanted.
fn answer_bytes(alloc: Global, words: &FewWords<'_>, bytes: &[u8]) -> Result<Answer, AllocError>
    ensures answer { IfOk result (λ a. FewAnswer (few_words words.now) bytes.now a.status a.text.items) }
    ensures outcome { IfOk result (λ a. a.outcome ≡ None) }
{
    match read_stp(alloc, bytes) {
        Ok(reading) => answer_reading(alloc, words, &reading),
        Err(ReadError::Fault(fault)) => Ok(Answer::of_line(
            Status::RefusedFile,
            refused_stp(alloc, fault)?,
        )),
        Err(ReadError::NoMemory) => Err(AllocError),
    }
}

/// Loads the file, and finds a best tree where few vertices have to be reached: what there is to
/// send then, or how the run ends without it.
pub fn few_command<F: Shelf>(
    alloc: Global,
    words: &FewWords<'_>,
    shelf: &mut F,
) -> Result<Answer, Status>
    ensures answered { IfOk result (λ a.
        IsFewAnswered (few_words words.now) (F.text shelf.old) a.status a.outcome a.text.items) }
    ensures outcome { IfOk result (λ a. a.outcome ≡ None) }
    ensures stopped { IfErr result (IsStopped (words.now.file.now ∷ []) (F.text shelf.old)) }
    ensures first { IfErr result (StopsAtLoad (words.now.file.now ∷ [])
        (F.text shelf.old) (F.asked shelf.old) (F.asked shelf.new)) }
    ensures asked { AsksForFront (F.asked shelf.old) (F.asked shelf.new) (words.now.file.now ∷ []) }
    ensures texts { SameTexts (F.text shelf.old) (F.text shelf.new) }
    ensures read_cause { HasCause (F.read_faults shelf.old) (F.read_faults shelf.new)
        (IsErrOf result Status.ReadFault) }
    ensures write_faults { F.write_faults shelf.new ≡ F.write_faults shelf.old }
{
    let bytes = match load(alloc, words.file, shelf) {
        Ok(bytes) => bytes,
        Err(status) => return Err(status),
    };
    let answer = answer_bytes(alloc, words, &bytes)?;
    Ok(answer)
}
