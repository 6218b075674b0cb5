ghost use Rattle.std.specs.Prelude.{◌≡◌, List};
ghost use Rattle.st_model.specs.declared.tree.Tree.{Tree};
ghost use Rattle.lift_back.specs.declared.step.Step.{Step};
ghost use Rattle.log_format.specs.declared.log.Claim.TheVariants.{Found};
ghost use Rattle.log_format.specs.declared.proof_line.ProofLine.{ProofLine};
ghost use Rattle.cert_checker.specs.Verdict.{verdict_of};

use amounts::Scale;
use log_format::Claim;

/// What may be concluded of an instance. `Concludes` says it in the words of tree, cost and bound.
#[derive(Clone, Copy, Debug, PartialEq, Eq)]
pub enum Verdict {
    /// Some tree has this cost, and no tree costs less.
    Optimal(u64),
    /// Some tree costs `primal`, and no tree costs less than `dual`.
    Bound { dual: u64, primal: u64 },
    /// There is no tree.
    NoTree,
}

/// What may be concluded of the instance of a file, and what its numbers count.
#[derive(Clone, Copy, Debug, PartialEq, Eq)]
pub struct Checked {
    pub verdict: Verdict,
    pub scale: Scale,
}

impl Verdict {
    // The verdict on a claim of a tree that is accepted.
    pub(crate) fn of(primal: u64, dual: u64) -> Self
        ensures { (tree : Tree) (steps : List Step) (proof : List ProofLine)
            → result ≡ verdict_of (Found primal dual tree steps proof) }
    {
        if dual == primal {
            return Verdict::Optimal(primal);
        }
        Verdict::Bound { dual, primal }
    }

    // The verdict on a claim that is accepted.
    pub(crate) fn on(claim: &Claim) -> Self
        ensures { result ≡ verdict_of claim.now }
    {
        match claim {
            Claim::Found { primal, dual, .. } => Verdict::of(*primal, *dual),
            Claim::NoTree { .. } => Verdict::NoTree,
        }
    }
}
