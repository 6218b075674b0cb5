ghost use Rattle.std.specs.Prelude.{◌≡◌, ℕ, ◌↔◌, All, IsTrue, IfOk};
ghost use Rattle.std.specs.Bool.{OnTrue, OnFalse};
ghost use Rattle.st_model.specs.Lists.{has};
ghost use Rattle.st_model.specs.Network.{IsVertex, is_required};
ghost use Rattle.st_model.specs.Wall.{IsWall};
ghost use Rattle.arborescence.specs.DiWall.{IsDiWall};
ghost use Rattle.arborescence.specs.Problem.{IsWallOf};
ghost use Rattle.cert_checker.specs.Posed.{problem_of};

use crate::posed::Posed;
use arborescence::DiInstance;
use st_model::{Instance, Need, VertexSet};
use std::alloc::{AllocError, Global};

// Whether a set of vertices is a wall of the problem. Takes time linear in the set and the instance.
pub fn is_wall_of(alloc: Global, posed: &Posed, wall: &[u32]) -> Result<bool, AllocError>
    ensures { IfOk result (λ yes. IsTrue yes ↔ IsWallOf (problem_of posed.now) wall.now) }
{
    match posed {
        Posed::Plain(instance) => is_wall(alloc, instance, wall),
        Posed::Directed(instance) => is_di_wall(alloc, instance, wall),
    }
}

// Whether it is a wall of an instance.
fn is_wall(alloc: Global, instance: &Instance, wall: &[u32]) -> Result<bool, AllocError>
    ensures { IfOk result (λ yes. IsTrue yes ↔ IsWall instance.now wall.now) }
{
    if !are_vertices(instance.vertices(), wall) {
        return Ok(false);
    }
    let set = VertexSet::of(alloc, instance.vertices() as usize + 1, wall)?;
    if !has_required(instance, &set, true) || !has_required(instance, &set, false) {
        return Ok(false);
    }
    Ok(is_uncrossed(instance, &set))
}

// Whether it is a wall of a directed instance.
fn is_di_wall(alloc: Global, instance: &DiInstance, wall: &[u32]) -> Result<bool, AllocError>
    ensures { IfOk result (λ yes. IsTrue yes ↔ IsDiWall instance.now wall.now) }
{
    if !are_vertices(instance.vertices(), wall) {
        return Ok(false);
    }
    let set = VertexSet::of(alloc, instance.vertices() as usize + 1, wall)?;
    if !set.contains(instance.root()) {
        return Ok(false);
    }
    if holds_all(&set, instance.terminals()) {
        return Ok(false);
    }
    Ok(is_unleft(instance, &set))
}

// Whether all of the vertices are in the set.
fn holds_all(set: &VertexSet, vertices: &[u32]) -> bool
    ensures { IsTrue result ↔ All (λ v. IsTrue (has set.now.members v)) vertices.now }
{
    vertices.iter().all(|vertex| set.contains(*vertex))
}

// Whether no arc leaves the set.
fn is_unleft(instance: &DiInstance, set: &VertexSet) -> bool
    ensures { IsTrue result ↔ All (λ l. IsTrue (has set.now.members l.a) → IsTrue (has set.now.members l.b))
        instance.now.arcs }
{
    instance
        .arcs()
        .iter()
        .all(|arc| !set.contains(arc.a) || set.contains(arc.b))
}

// Whether all are vertices of an instance of n.
fn are_vertices(n: u32, vertices: &[u32]) -> bool
    ensures { IsTrue result ↔ All (IsVertex n) vertices.now }
{
    vertices.iter().all(|vertex| 1 <= *vertex && *vertex <= n)
}

// Whether some required vertex is in the set, or out of it.
fn has_required(instance: &Instance, set: &VertexSet, inside: bool) -> bool
    ensures some { OnTrue result ((v : ℕ) × IsVertex instance.now.n v
        × IsTrue (is_required instance.now v) × (has set.now.members v ≡ inside)) }
    ensures none { OnFalse result ((v : ℕ) → IsVertex instance.now.n v
        → IsTrue (is_required instance.now v) → has set.now.members v ≡ inside → ⊥) }
{
    for before in 0..instance.vertices() {
        let vertex = before + 1;
        if instance.need(vertex) == Need::Required && set.contains(vertex) == inside {
            return true;
        }
    }
    false
}

// Whether no link leaves the set.
fn is_uncrossed(instance: &Instance, set: &VertexSet) -> bool
    ensures { IsTrue result ↔ All (λ l. has set.now.members l.a ≡ has set.now.members l.b)
        instance.now.links }
{
    instance
        .links()
        .iter()
        .all(|link| set.contains(link.a) == set.contains(link.b))
}
