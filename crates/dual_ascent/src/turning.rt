ghost use Rattle.std.specs.Prelude.{◌≡◌, All, IfOk, OnOk};
ghost use Rattle.std.specs.BinaryHeap.{heap_items};
ghost use Rattle.st_model.specs.Network.{IsVertex};
ghost use Rattle.dual_ascent.specs.Turns.{AreLeading, IsGrowth, IsLooked, IsWaiting, TakesTurn};

use crate::border::border_of;
use crate::growing::Growth;
use crate::waiting::{Queue, Waiting, next};
use bidirected_form::Arcs;
use std::alloc::AllocError;
use std::cmp::Reverse;

// A vertex comes first where its set has at most one in so many arcs more than another one had.
const SLACK: usize = 4;

// A vertex whose turn it is, and whether the root reaches it, or another one that leads does.
#[derive(Clone, Copy)]
pub struct Turn {
    pub waiting: Waiting,
    pub is_covered: bool,
}

// The vertex whose turn it is, by the number of arcs that enter its set now. That number was
// counted when the set was last looked at, so it is counted anew, and the vertex waits on where it
// no longer comes first; at most once for each that waits.
pub fn next_fresh(
    arcs: &Arcs,
    growth: &mut Growth,
    queue: &mut Queue,
) -> Result<Option<Turn>, AllocError>
    requires waiting { All (λ e. IsWaiting arcs.now e.0) (heap_items queue.old) }
    requires growth { IsGrowth arcs.now growth.old }
    requires leading { AreLeading arcs.now growth.old.known.leads.items (heap_items queue.old) }
    ensures growth { OnOk result (IsGrowth arcs.now growth.new) }
    ensures turn { IfOk result (TakesTurn arcs.now growth.new queue.old queue.new) }
{
    for _ in 0..queue.len() {
        let Some(turn) = take_turn(arcs, growth, queue)? else {
            return Ok(None);
        };
        if turn.is_covered || comes_first(&turn.waiting, queue) {
            return Ok(Some(turn));
        }
        queue.push(Reverse(turn.waiting))?;
    }
    let Some(turn) = take_turn(arcs, growth, queue)? else {
        return Ok(None);
    };
    Ok(Some(turn))
}

// Whether a vertex comes before all that wait, or nearly so.
fn comes_first(waiting: &Waiting, queue: &Queue) -> bool {
    match queue.peek() {
        Some(Reverse(other)) => {
            let most = other.entering.saturating_add(other.entering / SLACK);
            (waiting.place, waiting.entering) <= (other.place, most)
        }
        None => true,
    }
}

// The vertex that comes first, looked at anew.
fn take_turn(
    arcs: &Arcs,
    growth: &mut Growth,
    queue: &mut Queue,
) -> Result<Option<Turn>, AllocError>
    requires waiting { All (λ e. IsWaiting arcs.now e.0) (heap_items queue.old) }
    requires growth { IsGrowth arcs.now growth.old }
    requires leading { AreLeading arcs.now growth.old.known.leads.items (heap_items queue.old) }
    ensures growth { OnOk result (IsGrowth arcs.now growth.new) }
    ensures turn { IfOk result (TakesTurn arcs.now growth.new queue.old queue.new) }
{
    match next(queue) {
        Some(waiting) => Ok(Some(look(arcs, growth, waiting)?)),
        None => Ok(None),
    }
}

// Looks whether a waiting vertex is covered; if it isn't, counts the arcs that enter the set of all
// that reaches it.
fn look(arcs: &Arcs, growth: &mut Growth, waiting: Waiting) -> Result<Turn, AllocError>
    requires waiting { IsWaiting arcs.now waiting }
    requires growth { IsGrowth arcs.now growth.old }
    ensures growth { OnOk result (IsGrowth arcs.now growth.new) }
    ensures same { IfOk result (λ t. t.waiting.vertex ≡ waiting.vertex) }
    ensures looked { IfOk result (λ t. IsLooked arcs.now growth.old.known.leads.items
        growth.new.known.leads.items growth.new.set.members waiting.vertex t.is_covered) }
{
    if growth.is_covered(arcs, waiting.vertex)? {
        return Ok(Turn {
            waiting,
            is_covered: true,
        });
    }
    let entering = border_of(arcs, &growth.set, 0).arcs;
    Ok(Turn {
        waiting: Waiting {
            entering,
            ..waiting
        },
        is_covered: false,
    })
}
