ghost use Rattle.arborescence.specs.Words.{TreesInWords, CostsInWords, FitsInWords, WeightsInWords, FullInWords, SplitsInWords, NoLinkIsSplit, WallsLeaveNoTree, PackingsBound};

/// Where a wall keeps a terminal from the root, there is no tree.
pub fn walls_leave_no_tree()
    ensures { WallsLeaveNoTree }
{}

/// A packing that fits a branch weighs at most what each of its trees costs.
pub fn packings_bound()
    ensures { PackingsBound }
{}

/// What the definitions of trees, packings, fullness and splits say over the ground of a directed network
/// is what one would say of arborescences.
pub fn directed_words()
    ensures trees { TreesInWords }
    ensures costs { CostsInWords }
    ensures fits { FitsInWords }
    ensures weights { WeightsInWords }
    ensures full { FullInWords }
    ensures splits { SplitsInWords }
    ensures no_links { NoLinkIsSplit }
{}
