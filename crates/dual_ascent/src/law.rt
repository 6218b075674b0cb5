ghost use Rattle.dual_ascent.specs.Laws.{JoinedFits, JoinedInsideFits, JoinedIsFull};

/// A packing that was charged and one that fits what it leaves fit the branch together.
pub fn joined_fits()
    ensures { JoinedFits }
{}

/// With cuts for an undecided vertex it fits the half where that is inside.
pub fn joined_inside_fits()
    ensures { JoinedInsideFits }
{}

/// They are full, where the root reaches all past the second one.
pub fn joined_is_full()
    ensures { JoinedIsFull }
{}
