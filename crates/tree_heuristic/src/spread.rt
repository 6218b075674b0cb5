ghost use Rattle.std.specs.Prelude.{◌≡◌, ◌+◌, ◌<◌, [], ◌∷◌, ◌++◌, length, take, IfOk, OnOk, IsTrue, IsFalse, if◌then◌else◌, ◌||◌};
ghost use Rattle.st_model.specs.Lists.{has};
ghost use Rattle.st_model.specs.Network.{IsVertex};
ghost use Rattle.graph_store.specs.Graph.{IsGraph, is_in};
ghost use Rattle.tree_heuristic.specs.Spreading.{IsSpread, IsClosed, Follows, HasFollowed};

use crate::growing::Growing;
use graph_store::Store;
use st_model::{Listed, Sides, Tree, VertexSet};
use std::alloc::{AllocError, Global};

// A tree that is being grown from a start, and the vertices that it reaches in their order.
#[derive(Drop)]
pub struct Spread {
    pub start: u32,
    pub arcs: Vec<(u32, u32)>,
    pub reached: VertexSet,
}

impl Spread {
    // All that links lead to from a start, past no vertex outside; breadth first.
    pub fn over(
        alloc: Global,
        store: &Store,
        branch: &Sides,
        start: u32,
    ) -> Result<Spread, AllocError>
        requires present { IsTrue (is_in store.now start) }
        requires inside { IsFalse (has branch.now.outside start) }
        requires vertex { IsVertex store.now.network.n start }
        ensures spread { IfOk result (IsSpread store.now branch.now.outside) }
        ensures closed { IfOk result (λ spread. IsClosed store.now.network branch.now.outside
            spread.reached.members spread.reached.members) }
        ensures start { IfOk result (λ spread. spread.start ≡ start) }
        ensures graph { IfOk result (λ _. IsGraph store.now) }
    {
        let mut spread = Spread::at(alloc, store.vertices(), start)?;
        let mut next = 0;
        while let Some(tail) = spread.reached.member(next) {
            spread.reach(store, branch, tail)?;
            next += 1;
        }
        Ok(spread)
    }

    // The arcs of a tree that has been grown, from a start and as far as they lead past no vertex
    // outside; breadth first.
    pub fn along(
        alloc: Global,
        store: &Store,
        branch: &Sides,
        growing: &Growing,
        start: u32,
    ) -> Result<Spread, AllocError>
        requires present { IsTrue (is_in store.now start) }
        requires inside { IsFalse (has branch.now.outside start) }
        requires vertex { IsVertex store.now.network.n start }
        ensures spread { IfOk result (IsSpread store.now branch.now.outside) }
        ensures start { IfOk result (λ spread. spread.start ≡ start) }
        ensures graph { IfOk result (λ _. IsGraph store.now) }
    {
        let mut spread = Spread::at(alloc, store.vertices(), start)?;
        let mut next = 0;
        while let Some(tail) = spread.reached.member(next) {
            spread.reach_along(store, branch, growing, tail)?;
            next += 1;
        }
        Ok(spread)
    }

    // The start alone.
    fn at(alloc: Global, vertices: u32, start: u32) -> Result<Spread, AllocError>
        requires { IsVertex vertices start }
        ensures start { IfOk result (λ spread. spread.start ≡ start) }
        ensures arcs { IfOk result (λ spread. spread.arcs.items ≡ []) }
        ensures members { IfOk result (λ spread. spread.reached.members ≡ start ∷ []) }
        ensures count { IfOk result (λ spread. spread.reached.count ≡ vertices + 1) }
    {
        let mut reached = VertexSet::new(alloc, vertices as usize + 1)?;
        reached.insert(start)?;
        Ok(Spread {
            start,
            arcs: Vec::new(alloc),
            reached,
        })
    }

    // Reaches from a tail each vertex that it is linked with and that isn't outside.
    fn reach(&mut self, store: &Store, branch: &Sides, tail: u32) -> Result<(), AllocError>
        requires spread { IsSpread store.now branch.now.outside self.old }
        requires tail { IsTrue (has self.old.reached.members tail) }
        requires vertex { IsVertex store.now.network.n tail }
        ensures { OnOk result (HasFollowed store.now branch.now.outside self.old tail self.new) }
    {
        for half in store.neighbours(tail) {
            self.follow(branch, tail, half.to)?;
        }
        Ok(())
    }

    // Reaches from a tail each vertex that a tree which has been grown takes a link to.
    fn reach_along(
        &mut self,
        store: &Store,
        branch: &Sides,
        growing: &Growing,
        tail: u32,
    ) -> Result<(), AllocError>
        requires spread { IsSpread store.now branch.now.outside self.old }
        requires tail { IsTrue (has self.old.reached.members tail) }
        requires vertex { IsVertex store.now.network.n tail }
        ensures spread { OnOk result (IsSpread store.now branch.now.outside self.new) }
        ensures start { OnOk result (self.new.start ≡ self.old.start) }
        ensures keeps { OnOk result (take (length self.old.reached.members) self.new.reached.members
            ≡ self.old.reached.members) }
    {
        for half in store.neighbours(tail) {
            if growing.leads(tail, half.to) {
                self.follow(branch, tail, half.to)?;
            }
        }
        Ok(())
    }

    // Takes an arc, unless its head is outside or reached.
    fn follow(&mut self, branch: &Sides, tail: u32, head: u32) -> Result<(), AllocError>
        requires { head < self.old.reached.count }
        ensures { OnOk result (Follows branch.now.outside self.old tail head self.new) }
    {
        if branch.is_outside(head) || self.reached.contains(head) {
            return Ok(());
        }
        self.take(tail, head)
    }

    // Takes an arc whose head isn't reached.
    fn take(&mut self, tail: u32, head: u32) -> Result<(), AllocError>
        requires range { head < self.old.reached.count }
        requires new { IsFalse (has self.old.reached.members head) }
        ensures start { self.new.start ≡ self.old.start }
        ensures arcs { OnOk result (self.new.arcs.items ≡ self.old.arcs.items ++ (tail, head) ∷ []) }
        ensures members { OnOk result (self.new.reached.members ≡ self.old.reached.members ++ head ∷ []) }
        ensures count { self.new.reached.count ≡ self.old.reached.count }
    {
        self.arcs.push((tail, head))?;
        self.reached.insert(head)
    }

    // The tree that was grown.
    pub fn into_tree(self) -> Tree
        ensures start { result.start ≡ self.start }
        ensures arcs { result.arcs ≡ self.arcs.items }
    {
        Tree {
            start: self.start,
            arcs: Listed::of(self.arcs),
        }
    }
}
