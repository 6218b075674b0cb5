ghost use Rattle.std.specs.Prelude.{◌≡◌, IfOk, IfErr, Ok};
ghost use Rattle.solution_reader.specs.Judging.{stated};
ghost use Rattle.solution_reader.specs.Seen.{whole_from, IsFaultOf};

use crate::fault::{LineError, SolError};
use crate::stage::{Stage, WholePart, after, at_end};
use std::alloc::Global;
use stp_reader::{next_piece, without_cr};

/// What all lines of a text state.
#[tactic(auto, unfolding(crate::specs::Judging::stated))]
pub fn whole_in(alloc: Global, bytes: &[u8]) -> Result<WholePart, SolError>
    ensures whole { IfOk result (λ w. stated bytes.now ≡ Ok (whole_from w)) }
    ensures refused { IfErr result (IsFaultOf (stated bytes.now)) }
{
    let mut stage = Stage::AtHeader;
    let mut rest = bytes;
    let mut number: u64 = 1;
    while let Some((piece, others)) = next_piece(rest) {
        match after(alloc, stage, without_cr(piece)) {
            Ok(next) => stage = next,
            Err(e) => return Err(e.at(number)),
        }
        number += 1;
        rest = others;
    }
    match at_end(stage) {
        Ok(whole) => Ok(whole),
        Err(reason) => Err(LineError::Refused(reason).at(number)),
    }
}
