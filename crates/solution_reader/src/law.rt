ghost use Rattle.std.specs.Prelude.{ℕ, List};
ghost use Rattle.solution_reader.specs.Laws.{RefusedExactly};
ghost use Rattle.solution_reader.specs.Stated.{StatedHasNoFault};
ghost use Rattle.solution_reader.specs.Written.{WrittenIsRead, WrittenIsReadIn};

/// Bytes make one claim, or are refused at one line for one reason.
pub fn solutions_refused_exactly()
    ensures { (bytes : List ℕ) → RefusedExactly bytes }
{}

/// A claim that is a tree of an instance, at the cost that it states, has no fault.
pub fn stated_has_no_fault()
    ensures { StatedHasNoFault }
{}

/// The solution text of a tree of an instance at its cost is read, and is judged as this tree.
pub fn written_solutions_are_read()
    ensures { WrittenIsRead }
{}

/// The solution text of a tree of a problem at its cost is read as a claim of the vertices that the tree reaches, of its
/// arcs as they were written, line by line, and of this cost. The problem is undirected or directed, and each arc is written
/// as it goes or with its lower end first.
pub fn written_pairs_are_read()
    ensures { WrittenIsReadIn }
{}
