ghost use Rattle.std.specs.Prelude.{◌≡◌, ◌≤◌};
ghost use Rattle.arborescence.specs.Problem.{IsProblem};
ghost use Rattle.cert_checker.specs.Posed.{left_or, problem_of};

use arborescence::DiInstance;
use lift_back::Reduced;
use st_model::Instance;

/// A problem that a log is checked on.
#[derive(Drop)]
pub enum Posed {
    Plain(Instance),
    Directed(DiInstance),
}

/// What some steps leave of a problem: of a directed one, of which no step is taken, the whole.
#[derive(Drop)]
pub enum Rest {
    Left(Reduced),
    /// All of it.
    Whole,
}

impl Posed {
    // How many vertices there are.
    pub(crate) fn vertices(&self) -> u32
        ensures some { 1 ≤ result }
        ensures problem { IsProblem (problem_of self.now) }
    {
        match self {
            Posed::Plain(instance) => instance.vertices(),
            Posed::Directed(instance) => instance.vertices(),
        }
    }

    // What is left where it isn't the whole problem, and else the problem.
    pub(crate) fn left_or<'a>(&'a self, left: &'a Option<Posed>) -> &'a Posed
        ensures { result.now ≡ left_or self.now left.now }
    {
        match left {
            Some(left) => left,
            None => self,
        }
    }
}
