ghost use Rattle.std.specs.Prelude.{◌≡◌, ◌≢◌, ◌<◌, None, ℕ, ◌+◌, List, [], ◌∷◌, ◌++◌, IfOk, Some, IsTrue, length, reverse, slice_set};
ghost use Rattle.std.specs.Bool.{OnTrue, OnFalse};
ghost use Rattle.st_model.specs.Made.{is_between};
ghost use Rattle.lift_back.specs.Chains.{AreLed, IsChainOf, arrival_at};
ghost use Rattle.lift_back.specs.Undoing.{arcs_before, led_past};

use crate::undo::Undo;
use std::alloc::{AllocError, Global};

// How a vertex is reached: the tail of its arc, and the head of the arc before that one, or the
// start where it is the first.
#[derive(Clone, Copy, Debug)]
pub struct Arrival {
    pub tail: u32,
    pub before: u32,
}

// The arcs of a tree, each kept at its head, so that one is led past a vertex in constant time.
#[derive(Drop)]
pub struct Chain {
    // For each vertex from 0 on how it is reached, if an arc leads there.
    pub arrivals: Vec<Option<Arrival>>,
    // The head of the last arc, or the start where there is none.
    pub last: u32,
}

impl Chain {
    // No arc yet, for vertices up to this number.
    fn new(alloc: Global, start: u32, vertices: u32) -> Result<Chain, AllocError>
        ensures chain { IfOk result (IsChainOf start []) }
        ensures count { IfOk result (λ chain. length chain.arrivals.items ≡ vertices + 1) }
    {
        let arrivals = nowhere(alloc, vertices as usize + 1)?;
        Ok(Chain {
            arrivals,
            last: start,
        })
    }

    // The arcs of a tree from its start, of vertices up to this number.
    pub fn of(
        alloc: Global,
        start: u32,
        vertices: u32,
        arcs: &[(u32, u32)],
    ) -> Result<Chain, AllocError>
        ensures chain { IfOk result (λ chain. AreLed (vertices + 1) start arcs.now → IsChainOf start arcs.now chain) }
        ensures count { IfOk result (λ chain. length chain.arrivals.items ≡ vertices + 1) }
    {
        let mut chain = Chain::new(alloc, start, vertices)?;
        for arc in arcs {
            chain.push(arc.0, arc.1);
        }
        Ok(chain)
    }

    // Puts an arc after the others.
    fn push(&mut self, tail: u32, head: u32)
        ensures chain { (start : ℕ) (arcs : List (ℕ × ℕ)) → IsChainOf start arcs self.old
            → AreLed (length self.old.arrivals.items) start (arcs ++ (tail, head) ∷ [])
            → IsChainOf start (arcs ++ (tail, head) ∷ []) self.new }
        ensures count { length self.new.arrivals.items ≡ length self.old.arrivals.items }
    {
        let before = self.last;
        put(&mut self.arrivals, head, Arrival { tail, before });
        self.last = head;
    }

    // The arcs before one step.
    pub fn undo(&mut self, undo: Undo)
        ensures chain { (start : ℕ) (arcs : List (ℕ × ℕ)) → IsChainOf start arcs self.old
            → AreLed (length self.old.arrivals.items) start (arcs_before undo arcs)
            → IsChainOf start (arcs_before undo arcs) self.new }
        ensures count { length self.new.arrivals.items ≡ length self.old.arrivals.items }
    {
        match undo {
            Undo::Keep => {}
            Undo::Past { vertex, a, b } => self.past(vertex, a, b),
            Undo::Leaf { vertex, neighbour } => self.push(neighbour, vertex),
        }
    }

    // Leads an arc between a and b past the vertex, if there is one.
    fn past(&mut self, vertex: u32, a: u32, b: u32)
        ensures chain { (start : ℕ) (arcs : List (ℕ × ℕ)) → IsChainOf start arcs self.old
            → AreLed (length self.old.arrivals.items) start (led_past vertex a b arcs)
            → IsChainOf start (led_past vertex a b arcs) self.new }
        ensures count { length self.new.arrivals.items ≡ length self.old.arrivals.items }
    {
        if !self.arc_past(vertex, a, b) {
            self.arc_past(vertex, b, a);
        }
    }

    // Leads the arc from a tail to a head past the vertex, and says whether there is one.
    fn arc_past(&mut self, vertex: u32, tail: u32, head: u32) -> bool
        ensures led { OnTrue result ((start a b : ℕ) (arcs : List (ℕ × ℕ))
            → IsTrue (is_between (a, b) tail head) → IsChainOf start arcs self.old
            → AreLed (length self.old.arrivals.items) start (led_past vertex a b arcs)
            → IsChainOf start (led_past vertex a b arcs) self.new) }
        ensures none { OnFalse result ((before : ℕ)
            → arrival_at self.old.arrivals.items head ≢ Some (record { tail = tail; before = before })) }
        ensures same { OnFalse result (self.new ≡ self.old) }
        ensures count { length self.new.arrivals.items ≡ length self.old.arrivals.items }
    {
        let Some(arrival) = arrival_of(&self.arrivals, head) else {
            return false;
        };
        if arrival.tail != tail {
            return false;
        }
        put(&mut self.arrivals, vertex, arrival);
        let on = Arrival {
            tail: vertex,
            before: vertex,
        };
        put(&mut self.arrivals, head, on);
        true
    }

    // All arcs in order.
    pub fn arcs(&self, alloc: Global) -> Result<Vec<(u32, u32)>, AllocError>
        ensures { IfOk result (λ all. (start : ℕ) (arcs : List (ℕ × ℕ)) → IsChainOf start arcs self.now
            → AreLed (length self.now.arrivals.items) start arcs → all.items ≡ arcs) }
    {
        let back = self.arcs_back(alloc)?;
        let all = turned(alloc, &back)?;
        Ok(all)
    }

    // All arcs, the last first.
    fn arcs_back(&self, alloc: Global) -> Result<Vec<(u32, u32)>, AllocError>
        ensures { IfOk result (λ back. (start : ℕ) (arcs : List (ℕ × ℕ)) → IsChainOf start arcs self.now
            → AreLed (length self.now.arrivals.items) start arcs → reverse back.items ≡ arcs) }
    {
        let mut back = Vec::new(alloc);
        let mut at = self.last;
        for _turn in 0..self.arrivals.len() {
            let Some(arrival) = arrival_of(&self.arrivals, at) else {
                return Ok(back);
            };
            back.push((arrival.tail, at))?;
            at = arrival.before;
        }
        Ok(back)
    }
}

// The arcs in the opposite order.
fn turned(alloc: Global, arcs: &[(u32, u32)]) -> Result<Vec<(u32, u32)>, AllocError>
    ensures { IfOk result (λ all. all.items ≡ reverse arcs.now) }
{
    arcs.iter().rev().copied().collect(alloc)
}

// Nobody is reached.
fn nowhere(alloc: Global, count: usize) -> Result<Vec<Option<Arrival>>, AllocError>
    ensures count { IfOk result (λ arrivals. length arrivals.items ≡ count) }
    ensures none { IfOk result (λ arrivals. (v : ℕ) → arrival_at arrivals.items v ≡ None) }
{
    vec![in alloc; None; count]
}

// How a vertex is reached, if it is.
fn arrival_of(arrivals: &Vec<Option<Arrival>>, vertex: u32) -> Option<Arrival>
    ensures { result ≡ arrival_at arrivals.now.items vertex }
{
    if vertex as usize >= arrivals.len() {
        return None;
    }
    arrivals[vertex as usize]
}

// Says how a vertex is reached.
fn put(arrivals: &mut Vec<Option<Arrival>>, vertex: u32, arrival: Arrival)
    ensures items { vertex < length arrivals.old.items
        → arrivals.new.items ≡ slice_set arrivals.old.items vertex (Some arrival) }
    ensures count { length arrivals.new.items ≡ length arrivals.old.items }
{
    if (vertex as usize) < arrivals.len() {
        arrivals[vertex as usize] = Some(arrival);
    }
}
