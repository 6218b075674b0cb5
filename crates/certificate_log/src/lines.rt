ghost use Rattle.std.specs.Prelude.{◌≡◌, ◌≤◌, ◌++◌, ◌∷◌, [], IfOk, OnOk, length};
ghost use Rattle.cut_packing.specs.ProofTree.{ProofTree};
ghost use Rattle.log_format.specs.Preorder.{preorder};
ghost use Rattle.search_core.specs.Complete.{standing_ids};
ghost use Rattle.search_core.specs.ReadOff.{IsReadOff};
ghost use Rattle.certificate_log.specs.Standing.{StandsOnce, Writes, WritesRecord};

use crate::standings::{Standing, Standings};
use cut_packing::Packing;
use log_format::ProofLine;
use search_core::{Done, Gathered};
use st_model::SplitAt;
use std::alloc::{AllocError, Global};

/// The lines of the proof tree that is read off what was gathered, in time linear in the records
/// and the nodes that wait, and in their cuts.
pub fn proof_lines(alloc: Global, gathered: &Gathered) -> Result<Vec<ProofLine>, AllocError>
    requires once { StandsOnce gathered.now }
    requires tree { (p : ProofTree) × IsReadOff gathered.now 0 p
        × (length (preorder p) ≤ length (standing_ids gathered.now)) }
    ensures { IfOk result (λ lines. (p : ProofTree) → IsReadOff gathered.now 0 p → lines.items ≡ preorder p) }
{
    let standings = Standings::of(alloc, gathered)?;
    let mut lines = Vec::new(alloc);
    // The ids whose lines are still to come, the next one last.
    let mut ids = vec![in alloc; 0]?;
    while let Some(id) = ids.pop() {
        write_line(alloc, standings.find(id), &mut ids, &mut lines)?;
    }
    Ok(lines)
}

// Writes the line of what stands under an id, and puts the halves of a split before the other ids.
fn write_line(
    alloc: Global,
    standing: Standing<'_>,
    ids: &mut Vec<u64>,
    lines: &mut Vec<ProofLine>,
) -> Result<(), AllocError>
    ensures { OnOk result (Writes standing.entry ids.old.items ids.new.items lines.old.items lines.new.items) }
{
    match standing {
        Standing::Record(done) => write_record(alloc, done, ids, lines),
        Standing::Waiting(node) => write_close(alloc, &node.packing, lines),
    }
}

// Writes the line of a record, and puts the halves of a split before the other ids.
fn write_record(
    alloc: Global,
    done: &Done,
    ids: &mut Vec<u64>,
    lines: &mut Vec<ProofLine>,
) -> Result<(), AllocError>
    ensures { OnOk result (WritesRecord done.now ids.old.items ids.new.items lines.old.items lines.new.items) }
{
    match done {
        Done::Split {
            at,
            inside,
            outside,
            ..
        } => write_split(*at, *inside, *outside, ids, lines),
        Done::Close { packing, .. } => write_close(alloc, packing, lines),
    }
}

// Writes the line of a split, and puts its halves before the other ids: the one that says yes comes next.
fn write_split(
    at: SplitAt,
    inside: u64,
    outside: u64,
    ids: &mut Vec<u64>,
    lines: &mut Vec<ProofLine>,
) -> Result<(), AllocError>
    ensures ids { OnOk result (ids.new.items ≡ ids.old.items ++ outside ∷ inside ∷ []) }
    ensures lines { OnOk result (lines.new.items ≡ lines.old.items ++ ProofLine.Split at ∷ []) }
{
    ids.push(outside)?;
    ids.push(inside)?;
    lines.push(ProofLine::Split(at))?;
    Ok(())
}

// Writes the line of a close.
fn write_close(
    alloc: Global,
    packing: &Packing,
    lines: &mut Vec<ProofLine>,
) -> Result<(), AllocError>
    ensures { OnOk result (lines.new.items ≡ lines.old.items ++ ProofLine.Close packing.now ∷ []) }
{
    lines.push(ProofLine::Close(packing.shared(alloc)?))?;
    Ok(())
}
