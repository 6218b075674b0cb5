ghost use Rattle.dimacs_writer.specs.Laws.{TextTellsSolution, TextTellsTree, TreeHasOneText};

/// The text tells all that stands in it, but for the bytes of the name that are written alike and
/// the unit that its costs count: where this is known, it tells the costs, too. Whatever the unit, it
/// tells the tree, but for the order of its arcs, and where the instance isn't directed for their directions.
pub fn text_tells_solution()
    ensures solution { TextTellsSolution }
    ensures tree { TextTellsTree }
{}

/// The text of a tree says nothing of the order of its arcs, nor where the instance isn't directed of their directions.
pub fn tree_has_one_text()
    ensures { TreeHasOneText }
{}
