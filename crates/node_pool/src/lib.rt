//! Nodes that wait, in a queue for each worker from which the others steal, and none is lost.
//!
//! `begin` hands out a pass for each worker; the root waits in the first one's queue. A pass gives
//! nodes into its own queue, first in first out, from which others can take them, or holds them in
//! a list of its own, and takes them from the list, its queue or the others' queues. `close` takes
//! all passes back and gives the nodes that are left: however nodes are weighed, the root and all
//! that was given weigh what was taken and what is left. Each node that is taken or left is sound,
//! in a meaning that the caller picks.
#![tactic(auto)]

mod closing;
mod kept;
mod lane;
mod law;
mod looks;
mod opening;
mod pass;
mod rule;

pub use closing::close;
pub use kept::Sound;
pub use law::passes_stay_a_pool;
pub use opening::begin;
pub use pass::Pass;
