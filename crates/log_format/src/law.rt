ghost use Rattle.std.specs.Prelude.{ℕ, List};
ghost use Rattle.st_model.specs.Network.{Network};
ghost use Rattle.log_format.specs.declared.log.Log.{Log};
ghost use Rattle.arborescence.specs.Problem.{Problem};
ghost use Rattle.log_format.specs.Accepts.{AcceptedHolds, AcceptedOfAProblemHolds};
ghost use Rattle.log_format.specs.Items.{ItemsAreLines, OneItem, LineItems};
ghost use Rattle.log_format.specs.Laws.{MigratedIsTheSame, OneSpelling, RefusedExactly, RejectedExactly, RejectedExactlyIn};

/// No two logs have one text.
pub fn one_spelling()
    ensures { OneSpelling }
{}

/// Bytes are refused, at one line and as one kind, exactly where they are the text of no log.
pub fn refused_exactly()
    ensures { (bytes : List ℕ) → RefusedExactly bytes }
{}

/// What an accepted log claims holds of the instance, whatever steps it takes.
pub fn accepted_holds()
    ensures { AcceptedHolds }
{}

/// The same of a problem, undirected or directed.
pub fn accepted_of_a_problem_holds()
    ensures { AcceptedOfAProblemHolds }
{}

/// No log is both accepted and rejected, and none is neither; what is rejected is so at one line
/// and as one kind.
pub fn rejected_exactly()
    ensures { (I : Network) (log : Log) → RejectedExactly I log }
{}

/// The same of a problem, undirected or directed.
pub fn rejected_of_a_problem_exactly()
    ensures { (p : Problem) (log : Log) → RejectedExactlyIn p log }
{}

/// The lines of a log are those of its items.
pub fn items_are_lines()
    ensures { ItemsAreLines }
{}

/// No two items have one line.
pub fn one_item()
    ensures { OneItem }
{}

/// What the lines of a log say are its items.
pub fn line_items()
    ensures { LineItems }
{}

/// In version 2 a log is accepted, and rejected, just as before, and it is a log again.
pub fn migrated_is_the_same()
    ensures { (I : Network) (log : Log) → MigratedIsTheSame I log }
{}
