use crate::plan::Plan;
use better_trees::Priced;
use branching::Node;
use cut_packing::Packing;
use st_model::SplitAt;

/// What is found beside a full packing: a tree cheaper than the least cost known, and a packing that
/// weighs at least the least cost known by then, or a plan how to close.
#[derive(Debug, Drop)]
pub struct Finding {
    pub better: Option<Priced>,
    pub closing: Option<Packing>,
    pub plan: Option<Plan>,
}

/// What the work on a node gave: a tree cheaper than the least cost known, if one was found, and
/// how the node ends.
#[derive(Debug, Drop)]
pub struct Step {
    pub better: Option<Priced>,
    pub end: End,
}

/// How a node ends.
#[derive(Debug, Drop)]
pub enum End {
    /// It closes by this packing, which weighs at least the least cost known by then.
    Close(Packing),
    /// It splits here; it has the packing with which its halves begin. Where there is a plan, the half that
    /// says yes closes by it, and the one that says no goes on by the plan.
    Split(Node, SplitAt, Option<Plan>),
}
