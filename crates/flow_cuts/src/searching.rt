ghost use Rattle.std.specs.Prelude.{◌≡◌, ℕ, ◌+◌, ◌<◌, ◌↔◌, ◌∷◌, [], ◌++◌, IsTrue, IsFalse, IfOk, OnOk, List};
ghost use Rattle.st_model.specs.Lists.{has};
ghost use Rattle.st_model.specs.Network.{IsVertex};
ghost use Rattle.flow_cuts.specs.Sending.{HasRoom, CanSend, IsSearched, IsTree, sent};

use crate::flow::Flow;
use bidirected_form::{Arc, Arcs};
use st_model::VertexSet;
use std::alloc::{AllocError, Global};

// What reaches a vertex.
#[derive(Drop)]
pub struct Search {
    pub reaching: VertexSet,
    // Of each that was found, in the order in which they were: it, and the next one on its way.
    pub steps: Vec<(u32, u32)>,
}

impl Search {
    pub fn new(alloc: Global, arcs: &Arcs) -> Result<Search, AllocError>
        ensures { IfOk result (λ s. s.reaching.count ≡ arcs.now.n + 1) }
    {
        Ok(Search {
            reaching: VertexSet::new(alloc, arcs.vertices() as usize + 1)?,
            steps: Vec::new(alloc),
        })
    }

    // Begins with a vertex alone.
    fn start(&mut self, q: u32) -> Result<(), AllocError>
        requires { q < self.old.reaching.count }
        ensures count { self.new.reaching.count ≡ self.old.reaching.count }
        ensures members { OnOk result (self.new.reaching.members ≡ q ∷ []) }
        ensures steps { OnOk result (self.new.steps.items ≡ []) }
    {
        self.reaching.clear();
        self.steps.clear();
        self.reaching.insert(q)?;
        Ok(())
    }

    // Takes a new vertex in with the next one on its way.
    fn add(&mut self, tail: u32, head: u32) -> Result<(), AllocError>
        requires within { tail < self.old.reaching.count }
        requires new { IsFalse (has self.old.reaching.members tail) }
        ensures count { self.new.reaching.count ≡ self.old.reaching.count }
        ensures members { OnOk result (self.new.reaching.members ≡ self.old.reaching.members ++ tail ∷ []) }
        ensures steps { OnOk result (self.new.steps.items ≡ self.old.steps.items ++ (tail, head) ∷ []) }
    {
        self.reaching.insert(tail)?;
        self.steps.push((tail, head))?;
        Ok(())
    }

    // Whether an arc is open and comes from a new vertex.
    fn finds(&self, flow: &Flow, capacity: u64, arc: &Arc, head: u32) -> bool
        ensures { IsTrue result ↔ (IsFalse (has self.now.reaching.members arc.now.tail)
            × HasRoom (sent flow.now) capacity arc.now.remaining arc.now.tail head) }
    {
        !self.reaching.contains(arc.tail) && has_room(flow, capacity, arc, head)
    }

    // Takes in the tails of the open arcs into a vertex.
    fn add_tails(
        &mut self,
        arcs: &Arcs,
        flow: &Flow,
        capacity: u64,
        head: u32,
    ) -> Result<(), AllocError>
        requires head { IsVertex arcs.now.n head }
        requires count { self.old.reaching.count ≡ arcs.now.n + 1 }
        ensures tree { OnOk result ((q : ℕ) → IsTree arcs.now (sent flow.now) capacity q self.old
            → IsTrue (has self.old.reaching.members head) → IsTree arcs.now (sent flow.now) capacity q self.new) }
        ensures longer { OnOk result ((more : List ℕ)
            × (self.new.reaching.members ≡ self.old.reaching.members ++ more)) }
        ensures all { OnOk result ((u : ℕ) → CanSend arcs.now (sent flow.now) capacity u head
            → IsTrue (has self.new.reaching.members u)) }
        ensures count { self.new.reaching.count ≡ self.old.reaching.count }
    {
        let row = arcs.arcs_into(head);
        for arc in row {
            if self.finds(flow, capacity, arc, head) {
                self.add(arc.tail, head)?;
            }
        }
        Ok(())
    }

    // Finds what reaches a vertex over open arcs, but no more once the root is found.
    pub fn run(&mut self, arcs: &Arcs, flow: &Flow, capacity: u64, q: u32) -> Result<(), AllocError>
        requires q { IsVertex arcs.now.n q }
        requires count { self.old.reaching.count ≡ arcs.now.n + 1 }
        ensures searched { OnOk result (IsSearched arcs.now (sent flow.now) capacity q self.new) }
        ensures count { self.new.reaching.count ≡ self.old.reaching.count }
    {
        self.start(q)?;
        let mut next = 0;
        while let Some(head) = self.reaching.member(next) {
            if head == arcs.root() {
                return Ok(());
            }
            self.add_tails(arcs, flow, capacity, head)?;
            next += 1;
        }
        Ok(())
    }
}

// Whether one more unit can be sent along an arc.
fn has_room(flow: &Flow, capacity: u64, arc: &Arc, head: u32) -> bool
    ensures { IsTrue result ↔ HasRoom (sent flow.now) capacity arc.now.remaining arc.now.tail head }
{
    if arc.remaining == 0 {
        return true;
    }
    let along = flow.at(arc.tail, head);
    let against = flow.at(head, arc.tail);
    along.saturating_sub(against) < capacity
}
