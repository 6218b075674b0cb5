ghost use Rattle.std.specs.Prelude.{◌≡◌, IfOk};
ghost use Rattle.dual_ascent.specs.Ascent.{IsAscent};
ghost use Rattle.dual_ascent.specs.Extension.{packing_of};
ghost use Rattle.dual_ascent.specs.Left.{AreEndsOf, FitsLeft};

use crate::Ascent;
use crate::charging::charge_cut;
use crate::growing::Growth;
use crate::raising::raise_for;
use crate::turning::next_fresh;
use crate::waiting::{Waiting, all_raisable};
use bidirected_form::Arcs;
use cut_packing::{Cut, Packing};
use prize_transform::Twins;
use st_model::Listed;
use std::alloc::{AllocError, Global};
use std::cmp::Reverse;

/// Adds cuts until they weigh as much as the target, or until the root reaches over arcs with
/// nothing left each vertex that has to be reached and each one of whose prize something is left.
/// What the cuts take is taken from the arcs and the twins. Vertices that `order` names are raised
/// first; no promise depends on it. After want of memory some of the arcs and twins are lower.
/// (Wong 1984; raised first is what the fewest arcs enter.)
pub fn ascend(
    alloc: Global,
    arcs: &mut Arcs,
    twins: &mut Twins,
    order: &[u32],
    target: u64,
) -> Result<Ascent, AllocError>
    requires { AreEndsOf arcs.old twins.old }
    ensures ascent { IfOk result (IsAscent arcs.old arcs.new twins.old twins.new target) }
    ensures fits { IfOk result (λ ascent. FitsLeft arcs.old twins.old (packing_of ascent)) }
{
    let mut cuts = Vec::new(alloc);
    let mut queue = all_raisable(alloc, arcs, twins, order)?;
    let mut growth = Growth::start(alloc, arcs)?;
    let mut room = target;
    while room > 0 {
        let Some(turn) = next_fresh(arcs, &mut growth, &mut queue)? else {
            return Ok(Ascent::Full(packing(arcs.root(), cuts)));
        };
        let Some(raise) = raise_for(alloc, arcs, twins, &growth.set, &turn, room)? else {
            continue;
        };
        charge_cut(arcs, twins, &raise.cut);
        room -= raise.cut.y;
        queue.push(Reverse(Waiting {
            place: turn.waiting.place,
            entering: raise.entering,
            vertex: turn.waiting.vertex,
        }))?;
        cuts.push(raise.cut)?;
    }
    Ok(Ascent::Reached(packing(arcs.root(), cuts)))
}

// The cuts for a root.
pub fn packing(root: u32, cuts: Vec<Cut>) -> Packing
    ensures { result ≡ record { root = Some root; cuts = cuts.items } }
{
    Packing {
        root: Some(root),
        cuts: Listed::of(cuts),
    }
}
