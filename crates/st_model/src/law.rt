ghost use Rattle.st_model.specs.Laws.{LoneStartsMissTheRest, InsideHasThoseThatReach, OutsideHasTheOthers, MustHasThoseThatUse, BarredHasTheOthers, EachTreeIsInAHalf, NoTreeIsInBoth};

/// A tree without arcs costs the prizes of all vertices but its start.
pub fn lone_starts_miss_the_rest()
    ensures { LoneStartsMissTheRest }
{}

/// A branch that is split at a vertex or at a link: each of its trees belongs to one half, and to
/// one only.
pub fn halves_share_the_trees()
    ensures inside { InsideHasThoseThatReach }
    ensures outside { OutsideHasTheOthers }
    ensures must { MustHasThoseThatUse }
    ensures barred { BarredHasTheOthers }
    ensures one { EachTreeIsInAHalf }
    ensures not_both { NoTreeIsInBoth }
{}
