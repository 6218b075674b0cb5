use cut_packing::Packing;
use st_model::Branch;

// A branch that is still to be worked on, and a packing that fits it.
#[derive(Drop)]
pub struct OpenNode {
    pub branch: Branch,
    pub packing: Packing,
}
