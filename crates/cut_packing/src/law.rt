ghost use Rattle.cut_packing.specs.Laws.{WeakDuality, ProofTreesBound, RootedDuality, RootedProofTreesBound};

/// What fits a branch bounds every tree of the branch from below, where no link is a must twice.
pub fn weak_duality()
    ensures { WeakDuality }
{}

/// What a proof tree proves of a branch bounds every tree of the branch from below.
pub fn proof_tree_bounds()
    ensures { ProofTreesBound }
{}

/// The same where there is an only root to which no arc leads, in a branch in which no link is a must: what fits
/// bounds every arborescence of the branch from below.
pub fn rooted_duality()
    ensures { RootedDuality }
{}

/// What a proof tree proves of such a branch bounds every arborescence of it from below.
pub fn rooted_proof_tree_bounds()
    ensures { RootedProofTreesBound }
{}
