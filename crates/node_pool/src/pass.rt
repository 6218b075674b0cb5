ghost use Rattle.std.specs.Prelude.{◌≡◌, ◌+◌, ◌<◌, ◌∷◌, ◌++◌, ℕ, [], length, MatchOption, MatchResult, IfNone, IfSome, IsOk, Some, map, slice_get, slice_index_or, slice_set};
ghost use Rattle.branching.specs.declared.node.Node.{Node as NodeSpec};
ghost use Rattle.node_pool.specs.Ends.{queue_of, look};
ghost use Rattle.node_pool.specs.Pool.{takes, puts, Moves, SamePass, FoundNothing};

use crate::kept::{Kept, Sound};
use crate::lane::{Owner, Thief};
use branching::Node;
use std::alloc::{AllocFailed, Global};
use std::collections::VecDeque;
use std::marker::Model;
use std::sync::Wait;

/// What one worker has of a pool: its own queue, its ends of the other workers' queues, and a list
/// of its own for nodes that it keeps from others, or that its queue refuses.
#[derive(Drop)]
pub struct Pass<S: Sound> {
    pub(crate) own: Owner<S>,
    pub(crate) others: Vec<Thief<S>>,
    pub(crate) list: VecDeque<Kept<S>>,
}

impl<S: Sound> Model for Pass<S> {
    ghost use Rattle.std.specs.Prelude.{◌≡◌, ◌+◌, ◌<◌, length};
    ghost use Rattle.node_pool.specs.Pool.{Station, station};

    ghost Value = { Station };

    ghost view = { λ p. station p.own p.others.items p.list.items };

    ghost invariant = { λ p. (p.own.hand.parts + length p.others.items ≡ 65) × (length p.others.items < 64) };
}

impl<S: Sound> Pass<S> {
    // A pass of its own queue and these ends of the others.
    pub(crate) fn of(alloc: Global, own: Owner<S>, others: Vec<Thief<S>>) -> Pass<S>
        requires parts { own.hand.parts + length others.items ≡ 65 }
        requires few { length others.items < 64 }
        ensures own { result.own ≡ own }
        ensures others { result.others ≡ others.items }
        ensures list { result.list ≡ [] }
    {
        Pass {
            own,
            others,
            list: VecDeque::new(alloc),
        }
    }

    /// Gives a node: last into the pass's own queue, or, where this can't grow, into the pass's own
    /// list. Where there is no memory for that either, the node is handed back, and the pass is as
    /// before. The first 127 gives go into the queue.
    pub fn give(&mut self, node: Node) -> Result<(), Node>
        requires { S.sound node }
        ensures same { SamePass self.old self.new }
        ensures gave { MatchResult result (λ _. Moves self.old self.new (node ∷ []) [])
            (λ back. (back ≡ node) × (self.new ≡ self.old)) }
        ensures room { length self.old.own.hand.put < 128
            → (self.new.own.hand.put ≡ self.old.own.hand.put ++ node ∷ []) × IsOk result }
    {
        let Err(node) = self.own.put(node) else {
            return Ok(());
        };
        keep(&mut self.list, node)
    }

    /// Keeps a node last in the pass's own list, where no other worker sees it, or hands it back where
    /// there is no memory for that.
    pub fn hold(&mut self, node: Node) -> Result<(), Node>
        requires { S.sound node }
        ensures same { SamePass self.old self.new }
        ensures held { MatchResult result (λ _. Moves self.old self.new (node ∷ []) [])
            (λ back. (back ≡ node) × (self.new ≡ self.old)) }
    {
        keep(&mut self.list, node)
    }

    /// How many nodes its own queue held at a moment of this call, which others could take there.
    pub fn shown(&mut self) -> usize
        ensures { self.new ≡ self.old }
    {
        self.own.len()
    }

    /// Takes a node: the last of the pass's own list, else the first of its own queue, else of another's.
    /// None only where its list is empty and each queue answered that it held nothing; for a pass
    /// alone in its pool with an empty list, None exactly where it took as many nodes from its queue as
    /// it put there, and else the next one of what it put.
    pub fn take<R: Wait>(&mut self, rt: &R) -> Option<Node>
        ensures same { SamePass self.old self.new }
        ensures took { MatchOption result (FoundNothing self.old self.new)
            (λ node. Moves self.old self.new [] (node ∷ [])) }
        ensures sound { IfSome result (λ node. S.sound node) }
        ensures alone { self.old.others ≡ [] → IfNone result
            (length self.old.own.hand.taken ≡ length self.old.own.hand.put) }
        ensures left { self.old.others ≡ [] → self.old.list ≡ [] → IfSome result
            (λ _. length self.old.own.hand.taken < length self.old.own.hand.put) }
        ensures next { self.old.others ≡ [] → self.old.list ≡ [] → IfSome result
            (λ node. slice_get self.old.own.hand.put (length self.old.own.hand.taken) ≡ Some node) }
    {
        if let Some(kept) = self.list.pop_back() {
            return Some(kept.into_node());
        }
        if let Some(node) = self.own.take() {
            return Some(node);
        }
        steal(rt, &mut self.others)
    }
}

// Puts a node last into a list, or hands it back where there is no memory.
fn keep<S: Sound>(list: &mut VecDeque<Kept<S>>, node: Node) -> Result<(), Node>
    requires { S.sound node }
    ensures { MatchResult result (λ _. list.new.items ≡ list.old.items ++ node ∷ [])
        (λ back. (back ≡ node) × (list.new.items ≡ list.old.items)) }
{
    match list.push_back(Kept::of(node)) {
        Ok(()) => Ok(()),
        Err(AllocFailed { value }) => Err(value.into_node()),
    }
}

// Takes a node at one of the ends.
fn steal<S: Sound, R: Wait>(rt: &R, ends: &mut Vec<Thief<S>>) -> Option<Node>
    ensures queues { map queue_of ends.new.items ≡ map queue_of ends.old.items }
    ensures none { IfNone result (ends.new.items ≡ map look ends.old.items) }
    ensures some { IfSome result (λ node. (h : NodeSpec → ℕ)
        → takes h ends.new.items ≡ takes h ends.old.items + h node) }
    ensures puts { (h : NodeSpec → ℕ) → puts h ends.new.items ≡ puts h ends.old.items }
    ensures sound { IfSome result (λ node. S.sound node) }
{
    for k in 0..ends.len() {
        let node = steal_at(rt, ends, k);
        if node.is_some() {
            return node;
        }
    }
    None
}

// Takes a node at the end at a place.
fn steal_at<S: Sound, R: Wait>(rt: &R, ends: &mut Vec<Thief<S>>, k: usize) -> Option<Node>
    requires { k < length ends.old.items }
    ensures queues { map queue_of ends.new.items ≡ map queue_of ends.old.items }
    ensures none { IfNone result ((d : _)
        → ends.new.items ≡ slice_set ends.old.items k (look (slice_index_or ends.old.items k d))) }
    ensures some { IfSome result (λ node. (h : NodeSpec → ℕ)
        → takes h ends.new.items ≡ takes h ends.old.items + h node) }
    ensures puts { (h : NodeSpec → ℕ) → puts h ends.new.items ≡ puts h ends.old.items }
    ensures sound { IfSome result (λ node. S.sound node) }
{
    ends[k].take(rt)
}
