ghost use Rattle.std.specs.Prelude.{◌≡◌, ◌+◌, ◌-◌, ◌<◌, ◌≤◌, ◌∷◌, ◌++◌, [], length, drop, All, IfOk, OnOk, IfErr, IfNone, IfSome, MatchOption};
ghost use Rattle.crossbeam_deque.specs.Steals.{MatchSteal};
ghost use Rattle.node_pool.specs.Lane.{hand, first_hand, both, AreNext, IsLeft};

use crate::kept::{Kept, Sound};
use crate::looks::Looks;
use crate::rule::{Both, Cut, Fair, Glance, Hand, Puts, Steals, Takes};
use branching::Node;
use crossbeam_deque::{Pass as Token, Steal, Stealer, Worker};
use std::alloc::{AllocError, Global};
use std::marker::Model;
use std::sync::Wait;
use std::thread;

// The end of a queue at which nodes are put.
#[derive(Drop)]
pub struct Owner<S: Sound> {
    worker: Worker<Kept<S>, Global, Hand, Fair<S>>,
    looks: Looks,
}

impl<S: Sound> Model for Owner<S> {
    ghost use Rattle.std.specs.Prelude.{◌≡◌, ◌<◌, ◌≤◌, length};
    ghost use Rattle.crossbeam_deque.specs.Handles.{worker_deque, worker_port, worker_view, worker_flavor, worker_index, worker_capacity};
    ghost use Rattle.node_pool.specs.Ends.{End, end};

    ghost Value = { End };

    ghost view = { λ o. end (worker_deque o.worker) (worker_view o.worker) o.looks.count };

    ghost invariant = { λ o. (worker_flavor o.worker ≡ 0) × (0 < (worker_view o.worker).parts)
        × (worker_index o.worker ≤ length (worker_view o.worker).put) × (128 ≤ worker_capacity o.worker)
        × (worker_port o.worker ≡ 0) };
}

// An end of a queue at which another worker takes nodes.
#[derive(Drop)]
pub struct Thief<S: Sound> {
    stealer: Stealer<Kept<S>, Global, Hand, Fair<S>>,
    token: Token<Kept<S>, Hand, Global>,
    looks: Looks,
}

impl<S: Sound> Model for Thief<S> {
    ghost use Rattle.std.specs.Prelude.{◌≡◌, ◌<◌, []};
    ghost use Rattle.crossbeam_deque.specs.Handles.{stealer_deque, stealer_flavor, view as seen, IsPassOf};
    ghost use Rattle.node_pool.specs.Ends.{End, end};

    ghost Value = { End };

    ghost view = { λ t. end (stealer_deque t.stealer) (seen t.token) t.looks.count };

    ghost invariant = { λ t. (stealer_flavor t.stealer ≡ 0) × ((seen t.token).parts ≡ 1)
        × ((seen t.token).put ≡ []) × IsPassOf (stealer_deque t.stealer) t.token };
}

impl<S: Sound> Owner<S> {
    // A queue without nodes.
    pub fn new(alloc: Global) -> Result<Owner<S>, AllocError>
        ensures { IfOk result (λ o. o.hand ≡ first_hand) }
    {
        let worker = Worker::fifo_as(alloc, 128)?;
        Ok(Owner {
            worker,
            looks: Looks::new(),
        })
    }

    // Puts a node last, or hands it back. The first 128 puts succeed.
    pub fn put(&mut self, node: Node) -> Result<(), Node>
        requires { S.sound node }
        ensures same { self.new.queue ≡ self.old.queue }
        ensures put { OnOk result (self.new.hand
            ≡ hand self.old.hand.parts (self.old.hand.put ++ node ∷ []) self.old.hand.taken) }
        ensures back { IfErr result (λ back. (back ≡ node) × (self.new.hand ≡ self.old.hand)) }
        ensures looks { self.new.looks ≡ self.old.looks }
        ensures room { IfErr result (λ back. 128 ≤ length self.old.hand.put) }
    {
        match self.worker.push_as::<Puts>(Kept::of(node)) {
            Ok(()) => Ok(()),
            Err(kept) => Err(kept.into_node()),
        }
    }

    // Takes the first node. None: the queue answered that it held none.
    pub fn take(&mut self) -> Option<Node>
        ensures same { self.new.queue ≡ self.old.queue }
        ensures took { MatchOption result
            ((self.new.hand ≡ self.old.hand) × (self.new.looks ≡ self.old.looks + 1))
            (λ node. self.new.hand ≡ hand self.old.hand.parts self.old.hand.put (self.old.hand.taken ++ node ∷ [])) }
        ensures none { IfNone result (self.old.hand.parts ≡ 65 → IsLeft self.old.hand []) }
        ensures next { IfSome result (λ node. AreNext self.old.hand (node ∷ [])) }
        ensures sound { IfSome result (λ node. S.sound node) }
    {
        match self.worker.pop_as::<Takes>() {
            Some(kept) => Some(kept.into_node()),
            None => {
                self.looks.rise();
                None
            }
        }
    }

    // How many nodes the queue held at a moment of this call.
    pub fn len(&mut self) -> usize
        ensures { self.new ≡ self.old }
    {
        self.worker.len_as::<Glance>()
    }

    // An end for another worker.
    pub fn thief(&mut self) -> Result<Thief<S>, AllocError>
        requires { 1 < self.old.hand.parts }
        ensures same { self.new.queue ≡ self.old.queue }
        ensures kept { OnOk result (self.new.hand
            ≡ hand (self.old.hand.parts - 1) self.old.hand.put self.old.hand.taken) }
        ensures new { IfOk result (λ t. (t.queue ≡ self.old.queue) × (t.hand ≡ hand 1 [] [])) }
    {
        let stealer = self.worker.stealer()?;
        let token = self.worker.another::<Cut>();
        Ok(Thief {
            stealer,
            token,
            looks: Looks::new(),
        })
    }

    // Takes in an end of its queue.
    pub fn take_in(&mut self, thief: Thief<S>)
        requires { thief.queue ≡ self.old.queue }
        ensures same { self.new.queue ≡ self.old.queue }
        ensures both { self.new.hand ≡ both self.old.hand thief.hand }
        ensures looks { self.new.looks ≡ self.old.looks }
        ensures part { (thief.hand.parts ≡ 1) × (thief.hand.put ≡ []) }
    {
        let Thief {
            stealer: _,
            token,
            looks: _,
        } = thief;
        self.worker.absorb::<Both>(token);
    }

    // All nodes that are left, once each other end was taken in: the last of what was put.
    pub fn drain(&mut self, alloc: Global) -> Result<Vec<Node>, AllocError>
        requires { self.old.hand.parts ≡ 65 }
        ensures left { IfOk result (λ left. IsLeft self.old.hand left.items) }
        ensures last { IfOk result (λ left.
            left.items ≡ drop (length self.old.hand.taken) self.old.hand.put) }
        ensures sound { IfOk result (λ left. All (λ node. S.sound node) left.items) }
    {
        let mut left = Vec::new(alloc);
        for _ in 0..u64::MAX {
            let Some(node) = self.take() else {
                return Ok(left);
            };
            left.push(node)?;
        }
        Err(AllocError)
    }
}

impl<S: Sound> Thief<S> {
    // Takes the first node, unless another end was faster. Empty: the queue answered that it held none.
    fn attempt(&mut self) -> Steal<Kept<S>>
        ensures same { self.new.queue ≡ self.old.queue }
        ensures took { MatchSteal result
            ((self.new.hand ≡ self.old.hand) × (self.new.looks ≡ self.old.looks + 1))
            ((self.new.hand ≡ self.old.hand) × (self.new.looks ≡ self.old.looks))
            (λ node. self.new.hand ≡ hand self.old.hand.parts self.old.hand.put (self.old.hand.taken ++ node ∷ [])) }
    {
        match self.stealer.steal_as::<Steals>(&mut self.token) {
            Steal::Success(kept) => Steal::Success(kept),
            Steal::Empty => {
                self.looks.rise();
                Steal::Empty
            }
            Steal::Retry => Steal::Retry,
        }
    }

    // Takes the first node. None: the queue answered that it held none.
    pub fn take<R: Wait>(&mut self, rt: &R) -> Option<Node>
        ensures same { self.new.queue ≡ self.old.queue }
        ensures took { MatchOption result
            ((self.new.hand ≡ self.old.hand) × (self.new.looks ≡ self.old.looks + 1))
            (λ node. self.new.hand ≡ hand self.old.hand.parts self.old.hand.put (self.old.hand.taken ++ node ∷ [])) }
        ensures sound { IfSome result (λ node. S.sound node) }
    {
        for _ in rt.forever() {
            match self.attempt() {
                Steal::Success(kept) => return Some(kept.into_node()),
                Steal::Empty => return None,
                Steal::Retry => thread::yield_now(),
            }
        }
        unreachable!()
    }
}
