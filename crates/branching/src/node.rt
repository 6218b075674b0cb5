use cut_packing::Packing;
use st_model::Branch;

/// A branch that is still to be worked on, under a number of its own, and a packing that fits it.
#[derive(Debug, Drop)]
pub struct Node {
    pub id: u64,
    pub branch: Branch,
    pub packing: Packing,
}
