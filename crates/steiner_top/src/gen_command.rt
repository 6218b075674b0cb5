ghost use Rattle.std.specs.Prelude.{IfOk};
ghost use Rattle.command_line.specs.Seen.{gen_words};
ghost use Rattle.steiner_top.specs.Drawn.{IsDrawn};

use crate::Status;
use crate::answer::Answer;
use amounts::Scale;
use command_line::GenWords;
use instance_gen::{generate, write_stp};
use std::alloc::{AllocError, Global};

/// Draws an instance: its text is what there is to send.
pub fn gen_command(alloc: Global, words: &GenWords) -> Result<Answer, AllocError>
    ensures { IfOk result (λ a. IsDrawn (gen_words words.now) a.status a.outcome a.text.items) }
{
    let drawn = words.drawn;
    let instance = generate(alloc, drawn.seed, drawn.n, drawn.m, drawn.t, words.prizes)?;
    let text = write_stp(alloc, &instance, Scale::Whole)?;
    Ok(Answer {
        status: Status::Optimal,
        outcome: None,
        text,
    })
}
