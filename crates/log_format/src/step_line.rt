ghost use Rattle.std.specs.Prelude.{◌≡◌, option_map};
ghost use Rattle.log_format.specs.Reading.{Gives, number_of, detour_head_of, detour_of, step_of};

use crate::fault::LineError;
use crate::line::{MAX_VERTEX, after, counted_at, number_at, number_of};
use lift_back::Step;
use st_model::Listed;
use std::alloc::Global;

/// The vertex on a line of a letter and a vertex.
fn vertex_of(line: &[u8], letter: &[u8]) -> Option<u32>
    ensures { result ≡ number_of letter.now 1 1000000 line.now }
{
    let vertex = number_of(line, letter, 1, MAX_VERTEX)?;
    Some(vertex as u32)
}

/// The ends of a detour, and what stands after them.
#[tactic(auto, unfolding(crate::specs::Reading::detour_head_of))]
fn detour_head_of(line: &[u8]) -> Option<(u32, u32, &[u8])>
    ensures { option_map (λ x. (x.0, x.1, x.2.now)) result ≡ detour_head_of line.now }
{
    let (a, rest) = number_at(after(b"D", line)?, 1, MAX_VERTEX)?;
    let (b, rest) = number_at(rest, 1, MAX_VERTEX)?;
    Some((a as u32, b as u32, rest))
}

/// The detour that a line says.
#[tactic(auto, unfolding(crate::specs::Reading::detour_of))]
fn detour_of(alloc: Global, line: &[u8]) -> Result<Step, LineError>
    ensures { Gives (λ s. s) result (detour_of line.now) }
{
    let (a, b, rest) = detour_head_of(line).ok_or(LineError::BadLine)?;
    let inner = counted_at(alloc, rest)?;
    Ok(Step::Detour {
        a,
        b,
        inner: Listed::of(inner),
    })
}

/// The step that a line says.
#[tactic(auto, unfolding(crate::specs::Reading::step_of))]
pub fn step_of(alloc: Global, line: &[u8]) -> Result<Step, LineError>
    ensures { Gives (λ s. s) result (step_of line.now) }
{
    if let Some(vertex) = vertex_of(line, b"P") {
        return Ok(Step::Pendant(vertex));
    }
    if let Some(vertex) = vertex_of(line, b"H") {
        return Ok(Step::Through(vertex));
    }
    if let Some(vertex) = vertex_of(line, b"F") {
        return Ok(Step::Forced(vertex));
    }
    detour_of(alloc, line)
}
