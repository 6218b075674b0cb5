ghost use Rattle.std.specs.Prelude.{◌≡◌, ℕ, All, IfOk};
ghost use Rattle.st_model.specs.Network.{IsInstance};
ghost use Rattle.st_model.specs.Arborescence.{cost};
ghost use Rattle.lift_back.specs.State.{IsTreeOf, whole};
ghost use Rattle.lift_back.specs.Steps.{Applies};
ghost use Rattle.log_format.specs.Accepts.{left_over};
ghost use Rattle.log_format.specs.Text.{IsWritablePacking, IsWritableStep};
ghost use Rattle.search_core.specs.Complete.{AllPackings, IsComplete};
ghost use Rattle.certificate_log.specs.Assembled.{IsAssembled};

use crate::bound::bound_of;
use crate::lines::proof_lines;
use lift_back::{Reduced, Step};
use log_format::{Claim, Log, Proof, Version};
use search_core::{
    Gathered, complete_counts, complete_is_few, complete_is_few_with_links, complete_is_proof,
};
use st_model::{Listed, Tree};
use std::alloc::{AllocError, Global};

/// The log of version 2 that certifies a search over what steps left of an instance: it claims the
/// tree that was found, led back, and the greatest bound up to its cost that the proof tree shows
/// which is read off what was gathered. It is accepted of the first instance. Takes time linear in
/// what was gathered, the steps and the instance and, for each link that is a must of a node that
/// waits, in the sizes of all sets of its cuts.
pub fn assemble(
    alloc: Global,
    steps: Vec<Step>,
    reduced: &Reduced,
    tree: &Tree,
    gathered: &Gathered,
) -> Result<Log, AllocError>
    requires instance { IsInstance reduced.now.first }
    requires applies { Applies steps.items (whole reduced.now.first) reduced.now.state }
    requires steps { All IsWritableStep steps.items }
    requires tree { IsTreeOf reduced.now.state tree.now }
    requires cost { gathered.now.least ≡ cost reduced.now.state.instance tree.now }
    requires complete { (start : ℕ) × (budget : ℕ)
        × IsComplete gathered.now reduced.now.state.instance (left_over reduced.now.state) start budget }
    requires writable { AllPackings IsWritablePacking gathered.now }
    ensures { IfOk result (IsAssembled steps.items reduced.now.first reduced.now.state gathered.now) }
{
    complete_is_proof();
    complete_counts();
    complete_is_few();
    complete_is_few_with_links();
    prove!(steps.len() <= usize::MAX);
    let rest = reduced.instance(alloc)?;
    let offset = reduced.offset();
    let lines = proof_lines(alloc, gathered)?;
    let Some(proof) = Proof::of(lines) else {
        unreachable!()
    };
    let primal = gathered.least + offset;
    let dual = bound_of(&rest, gathered) + offset;
    let tree = reduced.lift(alloc, tree)?;
    Ok(Log {
        version: Version::Two,
        claim: Claim::Found {
            primal,
            dual,
            tree,
            steps: Listed::of(steps),
            proof,
        },
    })
}
