//! The search for a least tree by splits, by 1 to 64 workers side by side, within a budget of nodes.
//!
//! A worker goes on with the half inside of the node that it split last, or the half outside where the
//! vertex is deleted by bound, and else takes a node of the pool, from its own queue or another's. What
//! `expand` of `node_work` finds closes a node or splits it into the half with a vertex inside and the half with it
//! outside, one of which the worker gives to the pool; each record is one node's. What one worker did is
//! known by its pass and its seats alone; the sums over all of them are put together when they are handed
//! back. Of what `run_all` gathers callers may rely on search_core's *complete* and *finished*: the records
//! and the nodes that wait are a proof tree, and nodes wait only where the whole budget was spent.
#![tactic(auto)]

mod aim;
mod crew;
mod gate;
mod hint;
mod limits;
mod processors;
mod run;
mod running;
mod team;
mod turn;
mod work;
mod worker;

pub use aim::{Aim, SoundFor};
pub use crew::Crew;
pub use gate::{Gate, OpenGate};
pub use hint::Hint;
pub use limits::Limits;
pub use running::{run_all, run_all_from};
pub use worker::Worker;
