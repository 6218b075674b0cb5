ghost use Rattle.few_terminals.specs.Under.{TablesBound};

/// A table by sets of terminals and vertices that says nothing of a terminal alone, no more than a
/// link away, and no more than two disjoint sets at one vertex, bounds what each tree costs.
pub fn tables_bound()
    ensures { TablesBound }
{}
