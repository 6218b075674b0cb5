ghost use Rattle.std.specs.Prelude.{◌↔◌, IfSome, IfNone, IsTrue};
ghost use Rattle.cut_packing.specs.ProofTree.{IsSplitIn};
ghost use Rattle.arborescence.specs.DiNetwork.{di_ground};
ghost use Rattle.directed_search.specs.Searching.{IsAllCertain};

use arborescence::DiInstance;
use st_model::{Sides, Tree};

// A vertex at which a branch may be split, of what is maybe a tree if it has one; none where none is left.
pub fn choose(instance: &DiInstance, branch: &Sides, tree: &Tree) -> Option<u32>
    ensures some { IfSome result (IsSplitIn (di_ground instance.now) branch.now) }
    ensures none { IfNone result (IsAllCertain instance.now branch.now) }
{
    match first_used(instance, branch, tree.arcs.as_slice()) {
        Some(vertex) => Some(vertex),
        None => first_free(instance, branch),
    }
}

// The first head of some arcs at which the branch may be split.
fn first_used(instance: &DiInstance, branch: &Sides, arcs: &[(u32, u32)]) -> Option<u32>
    ensures { IfSome result (IsSplitIn (di_ground instance.now) branch.now) }
{
    for (_tail, head) in arcs {
        if may_split(instance, branch, *head) {
            return Some(*head);
        }
    }
    None
}

// The first vertex at which the branch may be split.
fn first_free(instance: &DiInstance, branch: &Sides) -> Option<u32>
    ensures some { IfSome result (IsSplitIn (di_ground instance.now) branch.now) }
    ensures none { IfNone result (IsAllCertain instance.now branch.now) }
{
    for before in 0..instance.vertices() {
        let vertex = before + 1;
        if may_split(instance, branch, vertex) {
            return Some(vertex);
        }
    }
    None
}

// Whether a branch may be split at a vertex: one that is neither sought nor inside nor outside.
fn may_split(instance: &DiInstance, branch: &Sides, vertex: u32) -> bool
    ensures { IsTrue result ↔ IsSplitIn (di_ground instance.now) branch.now vertex }
{
    if vertex < 1 || instance.vertices() < vertex {
        return false;
    }
    !instance.is_sought(vertex) && !branch.is_inside(vertex) && !branch.is_outside(vertex)
}
