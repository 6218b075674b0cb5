ghost use Rattle.std.specs.Prelude.{◌≡◌, ℕ, ◌+◌, ◌↔◌, [], ◌∷◌, length, All, IfOk, IfSome, IsSome, IsTrue, IsFalse};
ghost use Rattle.st_model.specs.Arborescence.{IsArborescenceIn, IsTreeIn, GrowsIn, cost_in, reached_from};
ghost use Rattle.st_model.specs.Lists.{has};
ghost use Rattle.st_model.specs.Network.{IsVertex};
ghost use Rattle.arborescence.specs.DiNetwork.{away_price, di_ground, is_sought};

use crate::DiInstance;
use st_model::{Tree, VertexSet};
use std::alloc::{AllocError, Global};

/// Whether this is a tree of the instance: it starts at the root, each arc leads from a vertex that is
/// reached to one that isn't, and at the end every terminal is reached.
pub fn di_is_tree(alloc: Global, instance: &DiInstance, tree: &Tree) -> Result<bool, AllocError>
    ensures { IfOk result (λ answer. IsTrue answer ↔ IsTreeIn (di_ground instance.now) tree.now) }
{
    if tree.start != instance.root() {
        return Ok(false);
    }
    let Some(reached) = grown(alloc, instance, tree.arcs.as_slice())? else {
        return Ok(false);
    };
    Ok(reaches_sought(instance, &reached))
}

// What arcs reach that grow from the root; none where they don't.
fn grown(
    alloc: Global,
    instance: &DiInstance,
    arcs: &[(u32, u32)],
) -> Result<Option<VertexSet>, AllocError>
    ensures grows { IfOk result (λ found. IsSome found
        ↔ GrowsIn (di_ground instance.now) (instance.now.root ∷ []) arcs.now) }
    ensures reached { IfOk result (λ found. IfSome found
        (λ set. (v : ℕ) → has set.members v ≡ has (reached_from (instance.now.root ∷ []) arcs.now) v)) }
{
    let mut reached = VertexSet::new(alloc, instance.vertices() as usize + 1)?;
    reached.insert(instance.root())?;
    for (tail, head) in arcs {
        if !is_new_arc(instance, &reached, *tail, *head) {
            return Ok(None);
        }
        reached.insert(*head)?;
    }
    Ok(Some(reached))
}

// Whether an arc leads from a vertex that is reached to one that isn't.
fn is_new_arc(instance: &DiInstance, reached: &VertexSet, tail: u32, head: u32) -> bool
    ensures { IsTrue result ↔ (IsSome (away_price instance.now tail head)
        × IsTrue (has reached.now.members tail) × IsFalse (has reached.now.members head)) }
{
    if instance.away_cost(tail, head).is_none() {
        return false;
    }
    reached.contains(tail) && !reached.contains(head)
}

// Whether all that has to be reached is in a set.
fn reaches_sought(instance: &DiInstance, reached: &VertexSet) -> bool
    ensures { IsTrue result ↔ ((v : ℕ) → IsVertex instance.now.n v → IsTrue (is_sought instance.now v)
        → IsTrue (has reached.now.members v)) }
{
    reached.contains(instance.root()) && has_all(reached, instance.terminals())
}

// Whether all of some vertices are in a set.
fn has_all(set: &VertexSet, vertices: &[u32]) -> bool
    ensures { IsTrue result ↔ All (λ v. IsTrue (has set.now.members v)) vertices.now }
{
    vertices.iter().all(|vertex| set.contains(*vertex))
}

/// What a tree costs: its arcs. Takes no memory.
pub fn di_cost(instance: &DiInstance, tree: &Tree) -> u64
    requires { IsArborescenceIn (di_ground instance.now) tree.now }
    ensures { result ≡ cost_in (di_ground instance.now) tree.now }
{
    prove!(instance.vertices() <= 1_000_000);
    let mut cost = 0;
    for (tail, head) in tree.arcs.as_slice() {
        cost += instance.away_cost(*tail, *head).unwrap_or(0);
    }
    cost
}
