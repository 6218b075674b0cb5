ghost use Rattle.twice_tree.specs.Twice.{NearestIsWithinTwice};

/// Terminals that are joined one by one, each at no more than every walk between the joined and the
/// others, are joined for at most twice what each tree costs, less a share (Takahashi and
/// Matsuyama 1980).
pub fn nearest_is_within_twice()
    ensures { NearestIsWithinTwice }
{}
