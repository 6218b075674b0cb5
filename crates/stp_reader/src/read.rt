ghost use Rattle.std.specs.Prelude.{◌≡◌, IfOk, IfErr, Ok};
ghost use Rattle.stp_reader.specs.Judging.{stated};
ghost use Rattle.stp_reader.specs.Reached.{contents_from, AreContents, IsFaultOf};

use crate::fault::{LineError, ReadError};
use crate::lines::{next_piece, without_cr};
use crate::mode::Mode;
use crate::stage::{ContentsPart, Stage, at_end, take_line};
use std::alloc::Global;

/// What all lines of a text state.
#[tactic(auto, unfolding(crate::specs::Judging::stated))]
pub fn contents_in(alloc: Global, mode: Mode, bytes: &[u8]) -> Result<ContentsPart, ReadError>
    ensures contents { IfOk result (λ c. stated mode bytes.now ≡ Ok (contents_from c)) }
    ensures reached { IfOk result AreContents }
    ensures refused { IfErr result (IsFaultOf (stated mode bytes.now)) }
{
    let mut stage = Stage::AtHeader;
    let mut rest = bytes;
    let mut number: u64 = 1;
    while let Some((piece, others)) = next_piece(rest) {
        if let Err(e) = take_line(alloc, mode, &mut stage, without_cr(piece)) {
            return Err(e.at(number));
        }
        number += 1;
        rest = others;
    }
    match at_end(stage) {
        Ok(contents) => Ok(contents),
        Err(reason) => Err(LineError::Refused(reason).at(number)),
    }
}
