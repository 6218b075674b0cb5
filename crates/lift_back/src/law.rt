ghost use Rattle.lift_back.specs.Laws.{EachStepLiftsBack, EachStepKeepsTheLeast, StepsLiftBack, StepsKeepTheLeast};

/// What one step keeps: each tree after it comes from a tree before it of the same worth, and for
/// each tree before it there is one after it that is worth no more.
pub fn a_step_keeps_the_best()
    ensures lifts { EachStepLiftsBack }
    ensures least { EachStepKeepsTheLeast }
{}

/// The same of any steps, one after another.
pub fn steps_keep_the_best()
    ensures lifts { StepsLiftBack }
    ensures least { StepsKeepTheLeast }
{}
