ghost use Rattle.std.specs.Prelude.{◌≡◌, ℕ, ◌+◌, ◌<◌, ◌≤◌, ◌↔◌, [], All, IfOk, IsTrue, IsFalse, MatchOption};
ghost use Rattle.std.specs.List.Sorted.{IsStrictlyIncreasing};
ghost use Rattle.st_model.specs.Lists.{has};
ghost use Rattle.st_model.specs.Network.{IsVertex};
ghost use Rattle.dual_ascent.specs.Raises.{IsRaisable, IsRaise};
ghost use Rattle.dual_ascent.specs.Turns.{IsLimit, IsSet};

use crate::border::border_of;
use crate::turning::Turn;
use crate::waiting::{is_certain, is_raisable};
use bidirected_form::Arcs;
use cut_packing::{Cut, SharedSet};
use prize_transform::Twins;
use st_model::VertexSet;
use std::alloc::{AllocError, Global};

// Where a set has one of so many vertices at least, its members are looked for and not sorted.
const FEW: usize = 40;

// A cut that can be added.
#[derive(Drop)]
pub struct Raise {
    pub cut: Cut,
    // How many arcs enter its set; no promise rests on it.
    pub entering: usize,
}

// A cut round the set in hand, which is all that reaches the vertex whose turn it is, for at most
// so much; none where the vertex isn't raisable or is covered.
pub fn raise_for(
    alloc: Global,
    arcs: &Arcs,
    twins: &Twins,
    set: &VertexSet,
    turn: &Turn,
    room: u64,
) -> Result<Option<Raise>, AllocError>
    requires vertex { IsVertex arcs.now.n turn.now.waiting.vertex }
    requires in_range { All (IsVertex arcs.now.n) set.now.members }
    requires seen { IsFalse turn.now.is_covered → IsSet arcs.now turn.now.waiting.vertex set.now.members }
    requires room { 0 < room }
    ensures { IfOk result (λ found. MatchOption found
        (IsRaisable arcs.now twins.now [] turn.now.waiting.vertex → IsTrue turn.now.is_covered)
        (λ raise. IsRaise arcs.now twins.now room [] raise.cut × (raise.cut.q ≡ turn.now.waiting.vertex)
        × IsFalse turn.now.is_covered)) }
{
    let q = turn.waiting.vertex;
    if turn.is_covered || !is_raisable(arcs, twins, q) {
        return Ok(None);
    }
    let border = border_of(arcs, set, limit(arcs, twins, q, room));
    let cut = cut_round(alloc, arcs.vertices(), set, q, border.least)?;
    Ok(Some(Raise {
        cut,
        entering: border.arcs,
    }))
}

// What a cut for a vertex may be worth.
fn limit(arcs: &Arcs, twins: &Twins, vertex: u32, room: u64) -> u64
    requires { IsVertex arcs.now.n vertex }
    ensures { IsLimit arcs.now twins.now vertex room result }
{
    if is_certain(arcs, vertex) {
        room
    } else {
        room.min(twins.left(vertex))
    }
}

// A cut round the members of a set.
pub fn cut_round(
    alloc: Global,
    vertices: u32,
    set: &VertexSet,
    q: u32,
    y: u64,
) -> Result<Cut, AllocError>
    requires in_range { All (IsVertex vertices) set.now.members }
    ensures q { IfOk result (λ c. c.q ≡ q) }
    ensures y { IfOk result (λ c. c.y ≡ y) }
    ensures members { IfOk result (λ c. (v : ℕ) → has c.set v ≡ has set.now.members v) }
    ensures ascending { IfOk result (λ c. IsStrictlyIncreasing c.set) }
{
    let members = ascending(alloc, vertices, set)?;
    let set = SharedSet::of(members)?;
    Ok(Cut { set, q, y })
}

// The members of a set, ascending: sorted where they are few, and else looked for one after another.
fn ascending(alloc: Global, vertices: u32, set: &VertexSet) -> Result<Vec<u32>, AllocError>
    requires in_range { All (IsVertex vertices) set.now.members }
    ensures members { IfOk result (λ list. (v : ℕ) → has list.items v ≡ has set.now.members v) }
    ensures ascending { IfOk result (λ list. IsStrictlyIncreasing list.items) }
{
    if set.members().len() < vertices as usize / FEW {
        set.ascending(alloc)
    } else {
        looked_for(alloc, vertices, set)
    }
}

// The vertices that are in a set, one after another.
fn looked_for(alloc: Global, vertices: u32, set: &VertexSet) -> Result<Vec<u32>, AllocError>
    requires in_range { All (IsVertex vertices) set.now.members }
    ensures members { IfOk result (λ list. (v : ℕ) → has list.items v ≡ has set.now.members v) }
    ensures ascending { IfOk result (λ list. IsStrictlyIncreasing list.items) }
{
    let mut out = Vec::with_capacity(alloc, set.members().len())?;
    for before in 0..vertices {
        let vertex = before + 1;
        if set.contains(vertex) {
            out.push(vertex)?;
        }
    }
    Ok(out)
}
