ghost use Rattle.std.specs.Prelude.{◌≡◌, IfOk};
ghost use Rattle.amounts.specs.declared.scale.Scale.TheVariants.{Whole};
ghost use Rattle.command_line.specs.Seen.{trial_words};
ghost use Rattle.steiner_top.specs.Drawn.{HasTree, IsSummary, IsTried, tried_instance};

use crate::answer::Answer;
use crate::lines::summary;
use crate::outcome::Outcome;
use crate::saving::outcome_status;
use crate::solving::solve_reading;
use crate::wanted::Wanted;
use amounts::Scale;
use command_line::TrialWords;
use instance_gen::{generate, generated_are_connected};
use std::alloc::{AllocError, Global};
use std::sync::Wait;
use std::thread::Threads;
use stp_reader::Reading;
use worker_loop::Gate;

// How many nodes may be expanded.
const NODES: u64 = 1_000_000;

// The instance that the words say, whose costs are whole.
fn draw(alloc: Global, words: &TrialWords) -> Result<Reading, AllocError>
    ensures instance { IfOk result (λ r. r.instance ≡ tried_instance (trial_words words.now)) }
    ensures scale { IfOk result (λ r. r.scale ≡ Whole) }
{
    let drawn = words.drawn;
    let instance = generate(alloc, drawn.seed, drawn.n, drawn.m, drawn.t, false)?;
    Ok(Reading {
        instance,
        scale: Scale::Whole,
    })
}

// The summary of a tree that was found.
fn summary_of(alloc: Global, outcome: &Outcome) -> Result<Vec<u8>, AllocError>
    requires { HasTree outcome.now }
    ensures { IfOk result (λ text. IsSummary outcome.now text.items) }
{
    match outcome {
        Outcome::Found { primal, dual, .. } => Ok(summary(alloc, *primal, *dual)?.into_bytes()),
        Outcome::Directed { .. } | Outcome::NoTree { .. } => unreachable!(),
    }
}

/// Draws an instance and solves it: what solving it gave is what there is to send, as a summary.
pub fn trial_command<R: Threads + Wait + Sync, G: Gate>(
    rt: &R,
    alloc: Global,
    words: &TrialWords,
    gate: &G,
) -> Result<Answer, AllocError>
    ensures { IfOk result (λ a. IsTried (trial_words words.now) a.status a.outcome a.text.items) }
{
    generated_are_connected();
    let reading = draw(alloc, words)?;
    let wanted = Wanted {
        workers: words.workers,
        nodes: NODES,
        plain: false,
        links: false,
    };
    let outcome = solve_reading(rt, alloc, &reading, wanted, gate)?;
    let text = summary_of(alloc, &outcome)?;
    Ok(Answer {
        status: outcome_status(&outcome),
        outcome: Some(outcome),
        text,
    })
}
