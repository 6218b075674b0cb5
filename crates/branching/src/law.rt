ghost use Rattle.branching.specs.Laws.{HalvesAreNoLighter};

/// The halves of a node that is split where it may be keep packings that fit them and weigh no less.
pub fn halves_are_no_lighter()
    ensures { HalvesAreNoLighter }
{}
