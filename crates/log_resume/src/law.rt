ghost use Rattle.log_resume.specs.Laws.{GraftedProves, GraftedWeighs};

/// What a proof tree proves of a branch, it proves with what stands for its closes.
pub fn grafted_proves()
    ensures { GraftedProves }
{}

/// With what stands for its closes, the least close of a proof tree weighs no less.
pub fn grafted_weighs()
    ensures { GraftedWeighs }
{}
