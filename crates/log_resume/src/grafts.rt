ghost use Rattle.std.specs.Prelude.{◌≡◌, ℕ, List, All, IfOk};
ghost use Rattle.st_model.specs.Network.{IsInstance};
ghost use Rattle.st_model.specs.Arborescence.{IsTree, cost};
ghost use Rattle.cut_packing.specs.ProofTree.{ProofTree};
ghost use Rattle.lift_back.specs.declared.step.Step.{Step as StepSpec};
ghost use Rattle.lift_back.specs.State.{whole};
ghost use Rattle.lift_back.specs.Steps.{Applies};
ghost use Rattle.log_format.specs.declared.log.Version.TheVariants.{One};
ghost use Rattle.log_format.specs.Preorder.{IsOneProof};
ghost use Rattle.log_format.specs.Text.{IsLog};
ghost use Rattle.search_core.specs.Complete.{IsAtVertex, records};
ghost use Rattle.log_resume.specs.Grafted.{AreSearchesIn, IsGraftOf, IsProofOf};
ghost use Rattle.log_resume.specs.Lines.{standing};

use crate::growing::grown;
use crate::law::grafted_proves;
use lift_back::Reduced;
use log_format::{Claim, Log, Proof, ProofLine};
use search_core::Searched;
use st_model::Tree;
use std::alloc::{AllocError, Global};

/// The log that claims a tree of the first instance and its cost, by the proof of an earlier log in
/// which the proofs of searches stand for the closes that they went on from, wherever they have no
/// close that weighs less. The bound is the greatest that it shows, up to that cost. Takes time linear
/// in both proofs, in their cuts and in how many vertices their branches name and, for each link that
/// is a must of a branch that is closed, in the sizes of all sets of its cuts.
pub fn graft(
    alloc: Global,
    log: Log,
    reduced: &Reduced,
    tree: Tree,
    primal: u64,
    searches: &[Searched],
) -> Result<Log, AllocError>
    requires instance { IsInstance reduced.now.first }
    requires log { IsLog log }
    requires proof { (steps : List StepSpec) × (p : ProofTree) × IsProofOf reduced.now.state log steps p
        × Applies steps (whole reduced.now.first) reduced.now.state }
    requires tree { IsTree reduced.now.first tree }
    requires cost { primal ≡ cost reduced.now.first tree }
    requires searches { AreSearchesIn reduced.now.state log searches.now }
    // A log of version 1 has no line of a split at a link.
    requires sites { log.version ≡ One → All (λ E. All IsAtVertex (records E.gathered)) searches.now }
    ensures { IfOk result
        (IsGraftOf reduced.now.first reduced.now.state log tree primal searches.now) }
{
    grafted_proves();
    let Log { version, claim } = log;
    let Claim::Found { steps, proof, .. } = claim else {
        unreachable!()
    };
    let offset = reduced.offset();
    let written = grown(alloc, reduced, &proof, searches, primal)?;
    let dual = primal.min(written.least + offset);
    let proof = standing(proof, written.lines);
    Ok(Log {
        version,
        claim: Claim::Found {
            primal,
            dual,
            tree,
            steps,
            proof,
        },
    })
}

// The old proof, unless other lines stand in the place of its lines.
fn standing(old: Proof, lines: Option<Vec<ProofLine>>) -> Proof
    requires { IsOneProof (standing old lines) }
    ensures { result ≡ standing old lines }
{
    let Some(lines) = lines else {
        return old;
    };
    let Some(proof) = Proof::of(lines) else {
        unreachable!()
    };
    proof
}
