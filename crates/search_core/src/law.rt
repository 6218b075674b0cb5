ghost use Rattle.search_core.specs.Laws.{EventsKeep, AllowedHasNoFault, FaultIsOne, SettledBounds};
ghost use Rattle.search_core.specs.ReadOff.{CompleteBounds, CompleteCounts, CompleteIsFew, CompleteIsFewWithLinks, CompleteIsProof};

/// Whatever list of events follows a beginning, the state keeps what every state keeps.
pub fn events_keep()
    ensures { EventsKeep }
{}

/// An event has a fault exactly where it may not happen, and then one alone: so what `step` answers
/// is determined, want of memory aside.
pub fn faults_are_exact()
    ensures allowed { AllowedHasNoFault }
    ensures one { FaultIsOne }
{}

/// What was gathered, where it is complete, is a proof tree: of the splits and closes that were
/// recorded, and of the nodes that wait, closed by their packings. It proves the least weight of
/// its closes for the branch of the node with id 0.
pub fn complete_is_proof()
    ensures { CompleteIsProof }
{}

/// What was gathered, where it is complete and no node waits, bounds every tree of that branch from
/// below, by the least value. The branch of the node with id 0 has to name no link twice as a must.
pub fn complete_bounds()
    ensures { CompleteBounds }
{}

/// Each proof tree that is read off what was gathered, where that is complete, has one split or
/// close for each record and for each node that waits. At most as many of its closes as there are
/// nodes that wait weigh less than the least value. The branch of the node with id 0 has to have no
/// vertex on both sides, and no link both as a must and barred.
pub fn complete_counts()
    ensures { CompleteCounts }
{}

/// Each such tree, where no record is of a split at a link, has fewer splits and closes than two to
/// the power of one more than the vertices that the branch of the node with id 0 leaves free: they
/// are neither required nor decided by it.
pub fn complete_is_few()
    ensures { CompleteIsFew }
{}

/// Each such tree, wherever nodes were split, has fewer splits and closes than two to the power of
/// one more than those vertices and the pairs of linked vertices together that the branch of the
/// node with id 0 leaves open: their link is neither a must of it nor barred.
pub fn complete_is_few_with_links()
    ensures { CompleteIsFewWithLinks }
{}

/// Whatever list of events leads from a beginning to a settled state in which no node is left or
/// queued, every tree of the branch that the search began with costs at least the least value.
pub fn settled_bounds()
    ensures { SettledBounds }
{}
