ghost use Rattle.std.specs.Prelude.{◌≡◌, ℕ, List, ◌+◌, ◌<◌, ◌≤◌, [], ◌∷◌, IfOk, OnOk, IsTrue, IsSome, All, take, length};
ghost use Rattle.st_model.specs.Led.{heads_at};
ghost use Rattle.st_model.specs.Network.{IsVertex, IsInstance, link};
ghost use Rattle.st_model.specs.Lists.{has};
ghost use Rattle.st_model.specs.Arborescence.{IsArborescence, Grows, reached};
ghost use Rattle.st_model.specs.Made.{has_pair, IsMadeOf, AreConnectedFrom};
ghost use Rattle.st_model.specs.Growth.{neighbours, reaches, IsGrowth, AreSettled};

use crate::judge::marks_of;
use crate::{Instance, Listed, Tree, VertexLists};
use std::alloc::{AllocError, Global};

/// A tree of given links that reaches all their ends: those links, taken breadth first from the
/// start, that lead to a vertex which isn't reached yet.
pub fn thin(
    alloc: Global,
    instance: &Instance,
    links: &[(u32, u32)],
    start: u32,
) -> Result<Tree, AllocError>
    requires start { IsVertex instance.now.n start }
    requires links { All (λ pair. IsSome (link instance.now.links pair.0 pair.1)) links.now }
    requires connected { AreConnectedFrom start links.now }
    ensures start { IfOk result (λ tree. tree.start ≡ start) }
    ensures arborescence { IfOk result (IsArborescence instance.now) }
    ensures made { IfOk result (IsMadeOf links.now) }
    ensures reached { IfOk result (λ tree. All
        (λ pair. IsTrue (has (reached tree) pair.0) × IsTrue (has (reached tree) pair.1)) links.now) }
{
    let lists = neighbours_of(alloc, instance.vertices(), links)?;
    let arcs = all_arcs(alloc, instance, links, start, &lists)?;
    Ok(Tree {
        start,
        arcs: Listed::of(arcs),
    })
}

// Arcs from the start to every vertex that the links reach from there.
fn all_arcs(
    alloc: Global,
    instance: &Instance,
    links: &[(u32, u32)],
    start: u32,
    lists: &VertexLists<u32>,
) -> Result<Vec<(u32, u32)>, AllocError>
    requires instance { IsInstance instance.now }
    requires start { IsVertex instance.now.n start }
    requires links { All (λ pair. IsSome (link instance.now.links pair.0 pair.1)) links.now }
    requires length { length lists.now ≡ instance.now.n + 1 }
    requires neighbours { (v : ℕ) → v ≤ instance.now.n → heads_at lists.now v ≡ neighbours links.now v }
    ensures grows { IfOk result (λ arcs. Grows instance.now (start ∷ []) arcs.items) }
    ensures made { IfOk result (λ arcs. All (λ arc. IsTrue (has_pair links.now arc.0 arc.1)) arcs.items) }
    ensures settled { IfOk result (λ arcs. AreSettled links.now start arcs.items (length arcs.items)) }
{
    let mut growth = Growth::at(alloc, instance, start)?;
    let first = lists.at(start);
    growth.reach(instance, links, start, start, first)?;
    let mut next = 0;
    while next < growth.arcs.len() {
        let (_, tail) = growth.arcs[next];
        let heads = lists.at(tail);
        growth.reach(instance, links, start, tail, heads)?;
        next += 1;
    }
    Ok(growth.arcs)
}

// A tree that is being grown: its arcs so far, and for each vertex whether it is reached.
#[derive(Drop)]
struct Growth {
    arcs: Vec<(u32, u32)>,
    marked: Vec<bool>,
}

impl Growth {
    // The start alone.
    fn at(alloc: Global, instance: &Instance, start: u32) -> Result<Self, AllocError>
        requires { IsVertex instance.now.n start }
        ensures growth { IfOk result (λ growth. (pairs : List (ℕ × ℕ)) → IsGrowth instance.now pairs start growth) }
        ensures start { IfOk result (λ growth. growth.arcs.items ≡ []) }
    {
        let marked = marks_of(alloc, instance.vertices(), start)?;
        Ok(Growth {
            arcs: Vec::new(alloc),
            marked,
        })
    }

    // Reaches from a tail each of its neighbours that isn't reached yet.
    fn reach(
        &mut self,
        instance: &Instance,
        links: &[(u32, u32)],
        start: u32,
        tail: u32,
        heads: &[u32],
    ) -> Result<(), AllocError>
        requires instance { IsInstance instance.now }
        requires growth { IsGrowth instance.now links.now start self.old }
        requires links { All (λ pair. IsSome (link instance.now.links pair.0 pair.1)) links.now }
        requires tail { IsTrue (reaches start self.old.arcs.items tail) }
        requires heads { heads.now ≡ neighbours links.now tail }
        ensures growth { OnOk result (IsGrowth instance.now links.now start self.new) }
        ensures heads { OnOk result (All (λ head. IsTrue (reaches start self.new.arcs.items head)) heads.now) }
        ensures extends { OnOk result (take (length self.old.arcs.items) self.new.arcs.items ≡ self.old.arcs.items) }
    {
        for &head in heads {
            if !self.marked[head as usize] {
                self.arcs.push((tail, head))?;
                self.marked[head as usize] = true;
            }
        }
        Ok(())
    }
}

// For each vertex from 0 to `last` the other ends of the pairs that end there.
fn neighbours_of(
    alloc: Global,
    last: u32,
    pairs: &[(u32, u32)],
) -> Result<VertexLists<u32>, AllocError>
    requires { All (λ pair. (pair.0 ≤ last) × (pair.1 ≤ last)) pairs.now }
    ensures length { IfOk result (λ lists. length lists ≡ last + 1) }
    ensures neighbours { IfOk result
        (λ lists. (v : ℕ) → v ≤ last → heads_at lists v ≡ neighbours pairs.now v) }
{
    let mut lists = VertexLists::new(alloc, last as usize + 1)?;
    for &(a, b) in pairs {
        lists.add(a, b)?;
        lists.add(b, a)?;
    }
    Ok(lists)
}
