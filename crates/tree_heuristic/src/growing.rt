ghost use Rattle.std.specs.Prelude.{◌≡◌, ℕ, ◌+◌, ◌<◌, ◌≤◌, length, All, IfOk, IfSome, OnOk, OnSome, IsTrue};
ghost use Rattle.st_model.specs.Network.{IsVertex};
ghost use Rattle.tree_heuristic.specs.Growing.{IsGrowing, waiting};

use graph_store::Store;
use st_model::Sides;
use std::alloc::{AllocError, Global};
use std::cmp::Reverse;
use std::collections::BinaryHeap;

// How many hundredths a link costs as it does.
const WHOLE: u64 = 100;

// What paths are chosen by. Where there are weights, costs and worths are counted in hundredths.
#[derive(Clone, Copy)]
pub struct Guide<'a> {
    // By vertex, what it is worth to reach it.
    pub worth: &'a [u64],
    // By vertex, in hundredths, half of what a link to it costs more or less than it does.
    pub weights: &'a [u64],
}

// A tree that takes one cheap path after another, and the search for the next one.
#[derive(Drop)]
pub struct Growing {
    // Offers that wait: how far it is from the tree, and the vertex.
    pub queue: BinaryHeap<Reverse<(u64, u32)>>,
    // By vertex, the least that it was offered, and u64::MAX where nothing was.
    pub best: Vec<u64>,
    // By vertex, the one that the path to it comes from.
    pub from: Vec<u32>,
    // By vertex, whether it is in the tree.
    pub joined: Vec<bool>,
}

impl Growing {
    // The tree that grows from a start over all that links lead to past no vertex outside, and
    // takes the path to a vertex where that costs less than it is worth.
    pub fn over(
        alloc: Global,
        store: &Store,
        branch: &Sides,
        guide: Guide<'_>,
        start: u32,
    ) -> Result<Growing, AllocError>
        requires start { IsVertex store.now.network.n start }
    {
        let mut growing = Growing::at(alloc, store.vertices(), start)?;
        while let Some((cost, vertex)) = growing.next() {
            growing.take(store, branch, &guide, cost, vertex)?;
        }
        Ok(growing)
    }

    // The start alone.
    fn at(alloc: Global, vertices: u32, start: u32) -> Result<Growing, AllocError>
        requires { IsVertex vertices start }
        ensures { IfOk result (IsGrowing vertices) }
    {
        let count = vertices as usize + 1;
        let mut joined = vec![in alloc; false; count]?;
        let mut best = vec![in alloc; u64::MAX; count]?;
        joined[start as usize] = true;
        best[start as usize] = 0;
        let mut queue = BinaryHeap::new(alloc);
        queue.push(Reverse((0, start)))?;
        Ok(Growing {
            queue,
            best,
            from: vec![in alloc; start; count]?,
            joined,
        })
    }

    // The cheapest of the offers that wait.
    fn next(&mut self) -> Option<(u64, u32)>
        ensures growing { (n : ℕ) → IsGrowing n self.old → IsGrowing n self.new }
        ensures vertex { IfSome result (λ offer. (n : ℕ) → IsGrowing n self.old → IsVertex n offer.1) }
        ensures fewer { OnSome result (waiting self.new < waiting self.old) }
    {
        let Reverse(offer) = self.queue.pop()?;
        Some(offer)
    }

    // Offers a vertex to be reached at a cost, unless it was offered as much before.
    fn offer(&mut self, cost: u64, to: u32, from: u32) -> Result<(), AllocError>
        requires best { to < length self.old.best.items }
        requires from { to < length self.old.from.items }
        ensures growing { OnOk result ((n : ℕ) → IsVertex n to → IsVertex n from → IsGrowing n self.old →
            IsGrowing n self.new) }
        ensures fewer { OnOk result (waiting self.new ≤ waiting self.old) }
        ensures joined { self.new.joined ≡ self.old.joined }
    {
        if cost < self.best[to as usize] {
            self.queue.push(Reverse((cost, to)))?;
            self.best[to as usize] = cost;
            self.from[to as usize] = from;
        }
        Ok(())
    }

    // Takes an offer, unless a cheaper one came later: the path to its vertex joins the tree where
    // it is worth it, and the search goes on from there.
    fn take(
        &mut self,
        store: &Store,
        branch: &Sides,
        guide: &Guide<'_>,
        cost: u64,
        vertex: u32,
    ) -> Result<(), AllocError>
        requires growing { IsGrowing store.now.network.n self.old }
        requires vertex { IsVertex store.now.network.n vertex }
        ensures growing { OnOk result (IsGrowing store.now.network.n self.new) }
        ensures fewer { OnOk result (waiting self.new ≤ waiting self.old) }
    {
        if cost > self.best[vertex as usize] {
            return Ok(());
        }
        if cost < guide.worth(vertex) {
            self.join(store, vertex)?;
        }
        self.expand(store, branch, guide, vertex)
    }

    // The path to a vertex joins the tree, from its end on.
    fn join(&mut self, store: &Store, vertex: u32) -> Result<(), AllocError>
        requires growing { IsGrowing store.now.network.n self.old }
        requires vertex { IsVertex store.now.network.n vertex }
        ensures growing { OnOk result (IsGrowing store.now.network.n self.new) }
        ensures fewer { OnOk result (waiting self.new ≤ waiting self.old) }
    {
        let mut here = vertex;
        while !self.joined[here as usize] {
            self.joined[here as usize] = true;
            let before = self.from[here as usize];
            self.offer(0, here, before)?;
            here = before;
        }
        Ok(())
    }

    // Offers each vertex that is linked with this one and not outside what it costs by there.
    fn expand(
        &mut self,
        store: &Store,
        branch: &Sides,
        guide: &Guide<'_>,
        vertex: u32,
    ) -> Result<(), AllocError>
        requires growing { IsGrowing store.now.network.n self.old }
        requires vertex { IsVertex store.now.network.n vertex }
        ensures growing { OnOk result (IsGrowing store.now.network.n self.new) }
        ensures fewer { OnOk result (waiting self.new ≤ waiting self.old) }
    {
        let cost = self.best[vertex as usize];
        for half in store.neighbours(vertex) {
            if !branch.is_outside(half.to) {
                let further = guide.cost(half.cost, vertex, half.to);
                self.offer(cost.saturating_add(further), half.to, vertex)?;
            }
        }
        Ok(())
    }

    // Whether the tree takes the link from one vertex to another one.
    pub fn leads(&self, tail: u32, head: u32) -> bool {
        self.joined.get(head as usize) == Some(&true) && self.from.get(head as usize) == Some(&tail)
    }
}

impl Guide<'_> {
    // What it is worth to reach a vertex.
    fn worth(&self, vertex: u32) -> u64 {
        let worth = self.worth.get(vertex as usize).copied().unwrap_or(0);
        if self.weights.is_empty() {
            worth
        } else {
            worth.saturating_mul(WHOLE)
        }
    }

    // What a link that costs so much is taken to cost, by its two ends.
    fn cost(&self, cost: u64, tail: u32, head: u32) -> u64 {
        if self.weights.is_empty() {
            return cost;
        }
        let weights = self.weight(tail).saturating_add(self.weight(head));
        cost.saturating_mul(weights)
    }

    fn weight(&self, vertex: u32) -> u64 {
        self.weights
            .get(vertex as usize)
            .copied()
            .unwrap_or(WHOLE / 2)
    }
}
