ghost use Rattle.std.specs.Prelude.{◌≡◌, ℕ, [], IfOk};
ghost use Rattle.st_model.specs.Arborescence.{IsTree, cost};
ghost use Rattle.st_model.specs.Branch.{all_trees};
ghost use Rattle.st_model.specs.Network.{IsInstance};
ghost use Rattle.lift_back.specs.State.{whole};
ghost use Rattle.log_format.specs.Text.{IsWritablePacking};
ghost use Rattle.search_core.specs.Complete.{AllPackings, IsComplete};
ghost use Rattle.certificate_log.specs.Assembled.{IsAssembled};

use certificate_log::assemble;
use lift_back::Reduced;
use log_format::{Claim, Log, Version};
use search_core::{Gathered, no_cuts};
use st_model::{Branch, Instance, Listed, Tree, is_tree, tree_cost};
use std::alloc::{AllocError, Global};
use std::test::Fail;
use test_instances::triangle_with_centre;

pub mod links;

// The log of a search of an instance where no step was taken, with a tree of the least cost.
pub fn assembled(
    alloc: Global,
    instance: &Instance,
    tree: &Tree,
    gathered: &Gathered,
) -> Result<Log, AllocError>
    requires instance { IsInstance instance.now }
    requires tree { IsTree instance.now tree.now }
    requires cost { gathered.now.least ≡ cost instance.now tree.now }
    requires complete { (start : ℕ) × (budget : ℕ) × IsComplete gathered.now instance.now all_trees start budget }
    requires writable { AllPackings IsWritablePacking gathered.now }
    ensures { IfOk result (IsAssembled [] instance.now (whole instance.now) gathered.now) }
{
    let reduced = Reduced::of(alloc, instance)?;
    let log = assemble(alloc, Vec::new(alloc), &reduced, tree, gathered)?;
    Ok(log)
}

// Whether that log is of version 2, and claims a primal and the bound 0, which one close shows.
fn claims_nothing(log: &Log, cost: u64) -> bool {
    if log.version != Version::Two {
        return false;
    }
    match &log.claim {
        Claim::Found {
            primal,
            dual,
            steps,
            proof,
            ..
        } => {
            *primal == cost && *dual == 0 && steps.as_slice().is_empty() && proof.lines().len() == 1
        }
        Claim::NoTree { .. } => false,
    }
}

// Whether the tree over the centre has such a log.
fn certifies_the_centre(alloc: Global) -> Result<bool, AllocError> {
    let instance = triangle_with_centre(alloc, 4)?;
    let arcs = vec![in alloc; (1, 4), (4, 2), (4, 3)]?;
    let tree = Tree {
        start: 1,
        arcs: Listed::of(arcs),
    };
    if !is_tree(alloc, &instance, &tree)? {
        return Ok(false);
    }
    let least = tree_cost(&instance, &tree);
    let gathered = Gathered::untouched(alloc, &Branch::all(alloc), no_cuts(alloc), least)?;
    let log = assembled(alloc, &instance, &tree, &gathered)?;
    Ok(claims_nothing(&log, 6))
}

#[test]
fn certifies_what_was_not_searched(rt: HostRuntime) -> Result<(), Fail> {
    assert!(rt; certifies_the_centre(rt.alloc())?);
    Ok(())
}
