ghost use Rattle.std.specs.Prelude.{◌≡◌, ◌+◌, ◌-◌, ◌^◌, ◌<◌, ◌↔◌, [], length, IfOk, IfNone, IfSome, OnSome, IsTrue, ◌∷◌, IsPermutation};
ghost use Rattle.std.specs.BinaryHeap.{heap_items, heap_len};
ghost use Rattle.st_model.specs.Network.{IsVertex};
ghost use Rattle.bidirected_form.specs.Digraph.{kind_of};
ghost use Rattle.dual_ascent.specs.Left.{AreEndsOf};
ghost use Rattle.dual_ascent.specs.Raises.{IsRaisable};
ghost use Rattle.dual_ascent.specs.Turns.{AllWait};

use bidirected_form::{Arcs, VertexKind};
use prize_transform::Twins;
use std::alloc::{AllocError, Global};
use std::cmp::Reverse;
use std::collections::BinaryHeap;

// A vertex that waits to be raised. The least comes first.
#[derive(Clone, Copy, PartialEq, Eq, PartialOrd, Ord)]
pub struct Waiting {
    // Its place in the order that was asked for; a place after all, if it has none.
    pub place: usize,
    // How many arcs entered its set when that was last looked at.
    pub entering: usize,
    pub vertex: u32,
}

pub type Queue = BinaryHeap<Reverse<Waiting>>;

// Whether a vertex has to be reached.
pub fn is_certain(arcs: &Arcs, vertex: u32) -> bool
    requires { IsVertex arcs.now.n vertex }
    ensures { IsTrue result ↔ (kind_of arcs.now vertex ≡ VertexKind.Must) }
{
    match arcs.kind(vertex) {
        VertexKind::Must => true,
        VertexKind::Outside | VertexKind::May(_) => false,
    }
}

// Whether a vertex has to be reached, or something of its prize is left.
pub fn is_raisable(arcs: &Arcs, twins: &Twins, vertex: u32) -> bool
    requires { IsVertex arcs.now.n vertex }
    ensures { IsTrue result ↔ IsRaisable arcs.now twins.now [] vertex }
{
    is_certain(arcs, vertex) || twins.left(vertex) > 0
}

// All that are raisable.
pub fn all_raisable(
    alloc: Global,
    arcs: &Arcs,
    twins: &Twins,
    order: &[u32],
) -> Result<Queue, AllocError>
    requires { AreEndsOf arcs.now twins.now }
    ensures { IfOk result (λ queue. AllWait arcs.now twins.now (heap_items queue)) }
{
    let places = places_of(alloc, arcs.vertices(), order)?;
    let mut queue = BinaryHeap::new(alloc);
    for before in 0..arcs.vertices() {
        let vertex = before + 1;
        if is_raisable(arcs, twins, vertex) {
            queue.push(Reverse(Waiting {
                place: places[vertex as usize],
                entering: arcs.neighbours(vertex).len(),
                vertex,
            }))?;
        }
    }
    Ok(queue)
}

// By vertex, its first place in the order, or a place after all.
fn places_of(alloc: Global, vertices: u32, order: &[u32]) -> Result<Vec<usize>, AllocError>
    requires { vertices < 2 ^ 32 - 1 }
    ensures { IfOk result (λ places. length places.items ≡ vertices + 1) }
{
    let mut places = vec![in alloc; order.len(); vertices as usize + 1]?;
    for (place, vertex) in order.iter().enumerate().rev() {
        if *vertex <= vertices {
            places[*vertex as usize] = place;
        }
    }
    Ok(places)
}

// The vertex whose turn it is.
pub fn next(queue: &mut Queue) -> Option<Waiting>
    ensures moved { IfSome result
        (λ w. IsPermutation (heap_items queue.old) (record { 0 = w } ∷ heap_items queue.new)) }
    ensures len { OnSome result (heap_len queue.new + 1 ≡ heap_len queue.old) }
    ensures empty { IfNone result (heap_items queue.old ≡ []) }
{
    let Reverse(next) = queue.pop()?;
    Some(next)
}
