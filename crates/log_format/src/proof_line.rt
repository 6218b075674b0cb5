use cut_packing::Packing;
use st_model::SplitAt;

/// A step of a proof: a branch is split, or closed by a packing.
#[derive(Debug, Drop)]
pub enum ProofLine {
    Split(SplitAt),
    Close(Packing),
}
