use crate::hint::Hint;
use graph_store::Whole;
use st_model::Tree;
use std::alloc::Global;

/// What the workers of a team have in common: who makes threads, an allocator, the instance, the first tree of the
/// search, what they let each other know, and the gate.
#[derive(Drop)]
pub struct Crew<'a, R, G> {
    pub rt: &'a R,
    pub alloc: Global,
    pub whole: &'a Whole,
    pub start: &'a Tree,
    pub hint: &'a Hint,
    pub gate: &'a G,
}
