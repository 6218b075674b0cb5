// The rule of one queue, and what its steps tell.
ghost use Rattle.std.specs.Prelude.{◌≡◌, ◌-◌, ◌++◌, [], ⊤};
ghost use Rattle.node_pool.specs.Lane.{hand, first_hand, Balanced, IsLeft, both, took};

use crate::kept::{Kept, Sound};
use branching::Node;
use crossbeam_deque::protocol::{Join, Lesson, Outcome, Protocol, Split};
use std::collections::LinkedList;
use std::marker::PhantomData;

// What one end of a queue knows: its parts of the right to know all, what it put and what it took.
// No value of it is made.
pub struct Hand {
    pub parts: u64,
    pub put: LinkedList<Node>,
    pub taken: LinkedList<Node>,
}

// What was put is what was taken and what the queue holds, however the nodes are weighed.
pub struct Fair<S: Sound> {
    of: PhantomData<S>,
}

impl<S: Sound> Protocol<Kept<S>, Hand> for Fair<S> {
    ghost holds = { Balanced };

    ghost first = { first_hand };

    ghost guest = { hand 0 [] [] };
}

pub struct Puts;

impl<S: Sound> Outcome<Kept<S>, Hand> for Puts {
    ghost then = { λ v xs w. w ≡ hand v.parts (v.put ++ xs) v.taken };
}

// What the owner's end takes.
pub struct Takes;

impl<S: Sound> Outcome<Kept<S>, Hand> for Takes {
    ghost then = { took };

    ghost empty = { λ v. v.parts ≡ 65 → IsLeft v [] };
}

// What any other end takes.
pub struct Steals;

impl<S: Sound> Outcome<Kept<S>, Hand> for Steals {
    ghost then = { λ v xs w. w ≡ hand v.parts v.put (v.taken ++ xs) };
}

// A look at a queue from which nothing is learnt.
pub struct Glance;

impl<S: Sound> Lesson<Kept<S>, Hand> for Glance {
    ghost fact = { λ v xs. ⊤ };
}

pub struct Cut;

impl Split<Hand> for Cut {
    ghost left = { λ v. hand (v.parts - 1) v.put v.taken };

    ghost right = { λ v. hand 1 [] [] };
}

pub struct Both;

impl Join<Hand> for Both {
    ghost both = { both };

    ghost spent = { hand 0 [] [] };
}
