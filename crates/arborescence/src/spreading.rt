ghost use Rattle.std.specs.Prelude.{◌≡◌, ℕ, ◌<◌, [], ◌∷◌, length, All, IfOk, OnOk, IsTrue};
ghost use Rattle.st_model.specs.Led.{heads_at, AreLed};
ghost use Rattle.st_model.specs.Lists.{has};
ghost use Rattle.st_model.specs.VertexSet.{Extends};

use st_model::{VertexLists, VertexSet};
use std::alloc::{AllocError, Global};

// What a walk reaches from a root, with the arc by which each vertex was reached first.
#[derive(Drop)]
pub struct Spread {
    pub reached: VertexSet,
    pub arcs: Vec<(u32, u32)>,
}

impl Spread {
    ghost use Rattle.arborescence.specs.Open.{IsSpread};

    // All that heads, listed at their tails, lead to from a root, breadth first.
    pub fn over(alloc: Global, heads: &VertexLists<u32>, root: u32) -> Result<Spread, AllocError>
        requires root { root < length heads.now }
        requires in_range { (u : ℕ) → All (λ v. v < length heads.now) (heads_at heads.now u) }
        ensures spread { IfOk result (IsSpread heads.now root) }
        ensures led { IfOk result (λ s. AreLed heads.now root s.reached.members) }
    {
        let mut spread = Spread::at(alloc, heads.count(), root)?;
        let mut next = 0;
        while let Some(tail) = spread.reached.member(next) {
            spread.reach(heads, root, tail)?;
            next += 1;
        }
        Ok(spread)
    }

    // The root alone.
    fn at(alloc: Global, count: usize, root: u32) -> Result<Spread, AllocError>
        requires { root < count }
        ensures members { IfOk result (λ s. s.reached.members ≡ root ∷ []) }
        ensures count { IfOk result (λ s. s.reached.count ≡ count) }
        ensures arcs { IfOk result (λ s. s.arcs.items ≡ []) }
    {
        let mut reached = VertexSet::new(alloc, count)?;
        reached.insert(root)?;
        Ok(Spread {
            reached,
            arcs: Vec::new(alloc),
        })
    }

    // Reaches from a tail each of its heads that isn't reached yet.
    fn reach(&mut self, heads: &VertexLists<u32>, root: u32, tail: u32) -> Result<(), AllocError>
        requires tail { tail < length heads.now }
        requires in_range { (u : ℕ) → All (λ v. v < length heads.now) (heads_at heads.now u) }
        requires reached { IsTrue (has self.old.reached.members tail) }
        requires spread { IsSpread heads.now root self.old }
        ensures spread { OnOk result (IsSpread heads.now root self.new) }
        ensures extends { OnOk result (Extends self.old.reached.members self.new.reached.members
            (heads_at heads.now tail)) }
    {
        for &head in heads.at(tail) {
            if !self.reached.contains(head) {
                self.arcs.push((tail, head))?;
                self.reached.insert(head)?;
            }
        }
        Ok(())
    }
}
