//! What is done at one node of the search: it closes, or splits where it tells most.
//!
//! A node that weighs less than the least cost known has its packing raised, and refined in attempts that free
//! the cuts round a fault; trees tell where faults are, and a guess who is outside may close the node, or plan how to
//! close it by few deletions. All of this is looked for, and judged before it is used. Of what `expand` answers
//! callers may rely on that a better tree is one of the branch and costs less, that the packing of a close closes
//! the branch at the least cost known then, and that a split is where the branch may be split, at a link only if
//! links are to be split, by a packing that is no lighter; nothing is claimed of which of these is found.
#![tactic(auto)]

mod attempt;
mod barring;
mod deciding;
mod deleting;
mod expanding;
mod faults;
mod following;
mod freeing;
mod guessing;
mod node;
mod picking;
mod plan;
mod raising;
mod refining;
mod repairing;
mod room;
mod rooted;
mod rounds;
mod step;
mod target;

pub use attempt::{Attempt, Site, make_all};
pub use deciding::root_of;
pub use expanding::{Manner, expand, is_whole};
pub use node::no_cuts;
pub use plan::Plan;
pub use raising::raise;
pub use refining::{Guide, raise_refined};
pub use rooted::Rooted;
pub use step::{End, Step};
pub use target::Target;
