ghost use Rattle.std.specs.Prelude.{◌≡◌, ℕ, List, ◌+◌, ◌<◌, [], ◌∷◌, ◌++◌, IfOk, OnOk, IfSome, IfNone, IsTrue, IsFalse, reverse, ◌||◌, ◌&&◌, ◌==◌, ◌⊎◌};
ghost use Rattle.st_model.specs.Arborescence.{IsArborescence};
ghost use Rattle.st_model.specs.Lists.{has};
ghost use Rattle.st_model.specs.Network.{IsInstance, IsVertex};
ghost use Rattle.tree_heuristic.specs.Keeping.{AreWorth, IsPruned, IsStartWorth, KeepsArc, is_cut, is_fork, is_spare, tree_of};

use st_model::{Instance, Listed, Need, Sides, Tree, VertexSet};
use std::alloc::{AllocError, Global};

// What is kept of a tree: its start, and arcs with the last first.
#[derive(Drop)]
pub struct Kept {
    pub start: u32,
    pub arcs: Vec<(u32, u32)>,
    // The vertices from which at least one arc leads, and those from which two do.
    pub tails: VertexSet,
    pub forks: VertexSet,
}

impl Kept {
    // The arcs of a tree but those into leaves that aren't worth it, the last judged first.
    pub fn of(
        alloc: Global,
        instance: &Instance,
        branch: &Sides,
        tree: Tree,
    ) -> Result<Kept, AllocError>
        requires { IsArborescence instance.now tree }
        ensures pruned { IfOk result (λ kept. IsPruned instance.now branch.now.inside tree (tree_of kept)) }
        ensures worth { IfOk result (λ kept. AreWorth instance.now branch.now.inside (reverse kept.arcs.items)) }
        ensures forks { IfOk result (λ kept. (v : ℕ) → has kept.forks.members v ≡ is_fork (reverse kept.arcs.items) v) }
        ensures instance { IfOk result (λ _. IsInstance instance.now) }
    {
        let mut kept = Kept::nothing(alloc, instance.vertices(), tree.start)?;
        let mut arcs = tree.arcs.into_vec();
        while let Some((tail, head)) = arcs.pop() {
            kept.judge(instance, branch, tail, head)?;
        }
        Ok(kept)
    }

    fn nothing(alloc: Global, vertices: u32, start: u32) -> Result<Kept, AllocError>
        ensures start { IfOk result (λ kept. kept.start ≡ start) }
        ensures arcs { IfOk result (λ kept. kept.arcs.items ≡ []) }
        ensures tails { IfOk result (λ kept. (kept.tails.members ≡ []) × (kept.tails.count ≡ vertices + 1)) }
        ensures forks { IfOk result (λ kept. (kept.forks.members ≡ []) × (kept.forks.count ≡ vertices + 1)) }
    {
        Ok(Kept {
            start,
            arcs: Vec::new(alloc),
            tails: VertexSet::new(alloc, vertices as usize + 1)?,
            forks: VertexSet::new(alloc, vertices as usize + 1)?,
        })
    }

    // Keeps an arc, unless its head is a leaf that isn't worth it.
    fn judge(
        &mut self,
        instance: &Instance,
        branch: &Sides,
        tail: u32,
        head: u32,
    ) -> Result<(), AllocError>
        requires tail { IsVertex instance.now.n tail }
        requires head { IsVertex instance.now.n head }
        requires tails { self.old.tails.count ≡ instance.now.n + 1 }
        requires forks { self.old.forks.count ≡ instance.now.n + 1 }
        ensures cut { OnOk result (IsTrue (is_cut instance.now branch.now.inside self.old.tails.members
            (tail, head)) → self.new ≡ self.old) }
        ensures kept { OnOk result (IsFalse (is_cut instance.now branch.now.inside self.old.tails.members
            (tail, head)) → KeepsArc self.old (tail, head) self.new) }
    {
        if !self.tails.contains(head) && to_spare(instance, branch, head, (tail, head)) {
            return Ok(());
        }
        self.keep(tail, head)
    }

    fn keep(&mut self, tail: u32, head: u32) -> Result<(), AllocError>
        requires tails { tail < self.old.tails.count }
        requires forks { tail < self.old.forks.count }
        ensures { OnOk result (KeepsArc self.old (tail, head) self.new) }
    {
        if self.tails.contains(tail) {
            add(&mut self.forks, tail)?;
        }
        self.arcs.push((tail, head))?;
        add(&mut self.tails, tail)
    }

    // Moves the start on while it is a leaf that isn't worth it.
    pub fn trim(&mut self, instance: &Instance, branch: &Sides)
        requires tree { IsArborescence instance.now (tree_of self.old) }
        requires worth { AreWorth instance.now branch.now.inside (reverse self.old.arcs.items) }
        requires forks { (v : ℕ) → has self.old.forks.members v ≡ is_fork (reverse self.old.arcs.items) v }
        requires instance { IsInstance instance.now }
        ensures pruned { IsPruned instance.now branch.now.inside (tree_of self.old) (tree_of self.new) }
        ensures worth { AreWorth instance.now branch.now.inside (reverse self.new.arcs.items) }
        ensures start { IsStartWorth instance.now branch.now.inside self.new.start (reverse self.new.arcs.items) }
    {
        while let Some((_, head)) = self.loosen(instance, branch) {
            self.start = head;
        }
    }

    // Takes the first arc away where the start is a leaf that isn't worth it.
    fn loosen(&mut self, instance: &Instance, branch: &Sides) -> Option<(u32, u32)>
        requires { IsVertex instance.now.n self.old.start }
        ensures taken { IfSome result (λ arc. self.old.arcs.items ≡ self.new.arcs.items ++ arc ∷ []) }
        ensures leaf { IfSome result (λ arc. IsFalse (has self.old.forks.members self.old.start)) }
        ensures spare { IfSome result (λ arc. IsTrue (is_spare instance.now branch.now.inside self.old.start arc)) }
        ensures left { IfNone result (self.new.arcs.items ≡ self.old.arcs.items) }
        ensures worth { IfNone result ((front : List (ℕ × ℕ)) (arc : ℕ × ℕ) → self.old.arcs.items ≡ front ++ arc ∷ [] →
            IsTrue (has self.old.forks.members self.old.start)
            ⊎ IsFalse (is_spare instance.now branch.now.inside self.old.start arc)) }
        ensures start { self.new.start ≡ self.old.start }
        ensures forks { self.new.forks ≡ self.old.forks }
    {
        let arc = *self.arcs.last()?;
        if self.forks.contains(self.start) || !to_spare(instance, branch, self.start, arc) {
            return None;
        }
        self.arcs.pop();
        Some(arc)
    }

    // The tree that is left.
    pub fn into_tree(self) -> Tree
        ensures { result ≡ tree_of self }
    {
        let mut arcs = self.arcs;
        arcs.reverse();
        Tree {
            start: self.start,
            arcs: Listed::of(arcs),
        }
    }
}

// Whether a vertex is neither required nor inside and pays less than a link costs.
fn to_spare(instance: &Instance, branch: &Sides, vertex: u32, link: (u32, u32)) -> bool
    requires { IsVertex instance.now.n vertex }
    ensures { result ≡ is_spare instance.now branch.now.inside vertex link }
{
    match instance.need(vertex) {
        Need::Required => false,
        Need::Pays(prize) => {
            !branch.is_inside(vertex) && prize < instance.link_cost(link.0, link.1).unwrap_or(0)
        }
    }
}

// Adds a vertex to a set.
fn add(set: &mut VertexSet, vertex: u32) -> Result<(), AllocError>
    requires { vertex < set.old.count }
    ensures members { OnOk result ((v : ℕ) → has set.new.members v ≡ ((vertex == v) || has set.old.members v)) }
    ensures count { set.new.count ≡ set.old.count }
{
    set.insert(vertex)
}
