//! The model of a search by several workers: what they hold, what happens next, and what is
//! gathered of them when they are done.
//!
//! A `Search` is seen as its state. `step` answers a fault exactly where the event's need fails,
//! the first one in order (`faults_are_exact`), and else takes the event's effect. A caller may
//! rely on what every state keeps (`events_keep`): each value seen lies between the least and the
//! start cost, each record is sound and of a node that was made, each id stands once, claims and
//! open nodes are counted exactly. What is gathered (`Search::segments`) accounts for all nodes but
//! those in hands and the fresh ones, so it is *complete* where the state is settled. Where it is, a
//! proof tree can be read off it (`complete_is_proof`), and where no node waits as well, it bounds
//! every tree of the branch that the search began with (`complete_bounds`): so does any list of
//! events that leads there (`settled_bounds`).
#![tactic(auto)]

mod copies;
mod done;
mod effects;
mod event;
mod gathered;
mod gathering;
mod judging;
mod law;
mod made;
mod needs;
mod nodes;
mod records;
mod root;
mod search;
mod step;
mod worker;
mod workers;

pub use done::{Done, End};
pub use event::{Event, EventFault, StepError};
pub use gathered::{Gathered, Searched, Segment};
pub use law::{
    complete_bounds, complete_counts, complete_is_few, complete_is_few_with_links,
    complete_is_proof, events_keep, faults_are_exact, settled_bounds,
};
pub use made::{Made, Place};
pub use records::Records;
pub use root::{no_cuts, root_of};
pub use search::Search;
pub use worker::Worker;
