ghost use Rattle.std.specs.Prelude.{OnOk};
ghost use Rattle.st_model.specs.Branch.{IsBranchIn, LeavesRequiredIn};
ghost use Rattle.arborescence.specs.Ascending.{HasRaised, IsRaising};
ghost use Rattle.arborescence.specs.DiNetwork.{di_ground};

use crate::DiInstance;
use crate::fitting::is_certain;
use crate::raising::Raising;
use st_model::Sides;
use std::alloc::{AllocError, Global};
use std::cmp::Reverse;
use std::collections::BinaryHeap;

// Vertices that wait, each with how many led to it when it was looked at last, the fewest first.
type Waiting = BinaryHeap<Reverse<(usize, u32)>>;

// Raises cuts for the vertices that have to be reached, each time for one to which the fewest lead over arcs
// that bear just what they cost (Wong 1984). Nothing is claimed of that order.
pub fn raise_smallest(
    alloc: Global,
    instance: &DiInstance,
    branch: &Sides,
    raising: &mut Raising,
) -> Result<(), AllocError>
    requires branch { IsBranchIn (di_ground instance.now) branch.now }
    requires required { LeavesRequiredIn (di_ground instance.now) branch.now }
    requires raising { IsRaising instance.now branch.now raising.old }
    ensures { OnOk result (HasRaised instance.now branch.now raising.old raising.new) }
{
    let mut waiting = all_waiting(alloc, instance, branch)?;
    for _turn in 0..u64::MAX {
        let Some(Reverse((_, vertex))) = waiting.pop() else {
            break;
        };
        let most = fewest(&waiting);
        if let Some(size) = raising.look(alloc, instance, branch, vertex, most)? {
            waiting.push(Reverse((size, vertex)))?;
        }
    }
    Ok(())
}

// All vertices that have to be reached.
fn all_waiting(
    alloc: Global,
    instance: &DiInstance,
    branch: &Sides,
) -> Result<Waiting, AllocError> {
    let mut waiting = BinaryHeap::new(alloc);
    for before in 0..instance.vertices() {
        let vertex = before + 1;
        if is_certain(instance, branch, vertex) {
            waiting.push(Reverse((0, vertex)))?;
        }
    }
    Ok(waiting)
}

// How many led to the first that waits.
fn fewest(waiting: &Waiting) -> usize {
    match waiting.peek() {
        Some(Reverse((size, _))) => *size,
        None => usize::MAX,
    }
}
