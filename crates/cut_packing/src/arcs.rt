ghost use Rattle.std.specs.Prelude.{◌≡◌, ◌+◌, ◌<◌, ◌≤◌, ◌↔◌, ◌^◌, IsTrue, [], length, map, All, slice_set};
ghost use Rattle.cut_packing.specs.Loads.{arcs_into, laid};

use st_model::{VertexLists, VertexSet};

/// An arc into some vertex: its tail, the cost of its link, and the value of the cuts it enters.
#[derive(Clone, Copy, Debug)]
pub struct LoadedArc {
    pub tail: u32,
    pub cost: u64,
    pub load: u128,
}

/// The arcs into each vertex below a count.
pub type LoadedArcs = VertexLists<LoadedArc>;

/// Whether each arc bears at most its link's cost.
pub fn can_bear(arcs: &LoadedArcs) -> bool
    ensures { IsTrue result ↔ All (All (λ arc. arc.load ≤ arc.cost)) arcs.now }
{
    lists_can_bear(arcs.lists())
}

// Whether each arc of each list bears at most its link's cost.
fn lists_can_bear(lists: &[Vec<LoadedArc>]) -> bool
    ensures { IsTrue result ↔ All (λ list. All (λ arc. arc.load ≤ arc.cost) list.items) lists.now }
{
    lists.iter().all(|list| list_can_bear(list))
}

// Whether each arc of a list bears at most its link's cost.
fn list_can_bear(arcs: &[LoadedArc]) -> bool
    ensures { IsTrue result ↔ All (λ arc. arc.load ≤ arc.cost) arcs.now }
{
    arcs.iter().all(|arc| arc.load <= u128::from(arc.cost))
}

/// Lays a value on the arcs into a vertex from outside a set.
pub fn lay_into(arcs: &mut LoadedArcs, head: u32, set: &VertexSet, value: u64)
    requires head { head < length arcs.old }
    requires room { All (λ arc. arc.load + value < 2 ^ 128) (arcs_into arcs.old head) }
    ensures { arcs.new ≡ slice_set arcs.old head
        (map (laid set.now.members value) (arcs_into arcs.old head)) }
{
    for place in 0..arcs.at(head).len() {
        let arc = arcs.at(head)[place];
        if !set.contains(arc.tail) {
            let load = arc.load + u128::from(value);
            arcs.set(head, place, LoadedArc { load, ..arc });
        }
    }
}
