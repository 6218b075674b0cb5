ghost use Rattle.std.specs.Prelude.{◌≡◌, ◌⊎◌, IfOk, IfErr, IfSome, OnOk, IsErrOf, None, option_copied};
ghost use Rattle.st_edge.specs.Faults.{HasCause};
ghost use Rattle.st_edge.specs.Shelf.{SameTexts};
ghost use Rattle.log_format.specs.Text.{IsLog};
ghost use Rattle.steiner_top.specs.Answer.{IsOutcomeText, status_of_outcome};
ghost use Rattle.steiner_top.specs.Causes.{SameBut, StandsUnder};
ghost use Rattle.steiner_top.specs.Outcome.{certificate_of};
ghost use Rattle.steiner_top.specs.declared.status.Status.TheVariants.{WriteFault, NoMemory};

use crate::Status;
use crate::lines::infeasible;
use crate::outcome::Outcome;
use dimacs_writer::solution_text;
use log_format::write_log;
use st_edge::Shelf;
use std::alloc::{AllocError, Global};
use std::thread::Threads;

/// The text of an outcome of a file, by so many workers.
pub fn outcome_text(
    alloc: Global,
    file: &str,
    workers: u32,
    outcome: &Outcome,
) -> Result<Vec<u8>, AllocError>
    ensures { IfOk result (λ text. IsOutcomeText file.now workers outcome.now text.items) }
{
    match outcome {
        Outcome::Found {
            tree,
            primal,
            dual,
            scale,
            ..
        } => solution_text(alloc, file, workers, tree, *dual, *primal, *scale, false),
        Outcome::Directed {
            tree,
            primal,
            dual,
            scale,
            ..
        } => solution_text(alloc, file, workers, tree, *dual, *primal, *scale, true),
        Outcome::NoTree { .. } => Ok(infeasible(alloc)?.into_bytes()),
    }
}

/// The status of an outcome.
pub fn outcome_status(outcome: &Outcome) -> Status
    ensures { result ≡ status_of_outcome outcome.now }
{
    match outcome {
        Outcome::Found { primal, dual, .. } if dual == primal => Status::Optimal,
        Outcome::Directed { primal, dual, .. } if dual == primal => Status::Optimal,
        Outcome::Found { .. } | Outcome::Directed { .. } => Status::Budget,
        Outcome::NoTree { .. } => Status::Infeasible,
    }
}

/// Saves the certificate's text under a name, if there are both.
pub fn save<R: Threads + Sync, F: Shelf>(
    rt: &R,
    alloc: Global,
    name: Option<&str>,
    workers: u32,
    outcome: &Option<Outcome>,
    shelf: &mut F,
) -> Result<(), Status>
    requires { IfSome outcome.now (λ o. IsLog (certificate_of o)) }
    ensures saved { OnOk result (StandsUnder (option_copied name.entry) (F.text shelf.new) outcome.now) }
    ensures others { SameBut (option_copied name.entry) (F.text shelf.old) (F.text shelf.new) }
    ensures asked { F.asked shelf.new ≡ F.asked shelf.old }
    ensures none { outcome.now ≡ None → SameTexts (F.text shelf.old) (F.text shelf.new) }
    ensures fault { IfErr result (λ status. (status ≡ WriteFault) ⊎ (status ≡ NoMemory)) }
    ensures no_memory { IsErrOf result Status.NoMemory → SameTexts (F.text shelf.old) (F.text shelf.new) }
    ensures cause { HasCause (F.write_faults shelf.old) (F.write_faults shelf.new)
        (IsErrOf result Status.WriteFault) }
    ensures read_faults { F.read_faults shelf.new ≡ F.read_faults shelf.old }
{
    let (Some(name), Some(outcome)) = (name, outcome) else {
        return Ok(());
    };
    let text = write_log(rt, alloc, outcome.certificate(), workers as usize)?;
    shelf.save(name, &text)?;
    Ok(())
}
