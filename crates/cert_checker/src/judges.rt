ghost use Rattle.std.specs.Prelude.{◌≡◌, ◌↔◌, ◌≤◌, [], IsTrue, IfOk};
ghost use Rattle.st_model.specs.Arborescence.{IsTreeIn, cost_in};
ghost use Rattle.cut_packing.specs.Packing.{FitsIn, weight_in};
ghost use Rattle.cert_checker.specs.Path.{AreSplitsIn, branch_of};
ghost use Rattle.cert_checker.specs.Posed.{ground_on, problem_of, LeadTo};

use crate::path::Path;
use crate::posed::{Posed, Rest};
use arborescence::{di_cost, di_fits, di_is_tree, di_weight};
use cut_packing::{Packing, fits, weight};
use lift_back::Reduced;
use st_model::{Sides, Tree, is_tree, tree_cost};
use std::alloc::{AllocError, Global};

// Whether this is a tree of the problem.
pub fn is_tree_of(alloc: Global, posed: &Posed, tree: &Tree) -> Result<bool, AllocError>
    ensures { IfOk result (λ yes. IsTrue yes ↔ IsTreeIn (ground_on posed.now) tree.now) }
{
    match posed {
        Posed::Plain(instance) => is_tree(alloc, instance, tree),
        Posed::Directed(instance) => di_is_tree(alloc, instance, tree),
    }
}

// What a tree of the problem costs.
pub fn cost_of(posed: &Posed, tree: &Tree) -> u64
    requires { IsTreeIn (ground_on posed.now) tree.now }
    ensures { result ≡ cost_in (ground_on posed.now) tree.now }
{
    match posed {
        Posed::Plain(instance) => tree_cost(instance, tree),
        Posed::Directed(instance) => di_cost(instance, tree),
    }
}

// Whether a packing fits the branch at the end of a path.
pub fn fits_path(
    alloc: Global,
    posed: &Posed,
    path: &Path,
    packing: &Packing,
) -> Result<bool, AllocError>
    ensures { IfOk result (λ yes. IsTrue yes ↔ FitsIn (ground_on posed.now) (branch_of path.now) packing.now) }
{
    let sides = Sides::of(alloc, path.branch().copied(alloc)?)?;
    match posed {
        Posed::Plain(instance) => fits(alloc, instance, &sides, packing),
        Posed::Directed(instance) => di_fits(alloc, instance, &sides, packing),
    }
}

// What a packing weighs in the branch at the end of a path.
pub fn weight_at(posed: &Posed, path: &Path, packing: &Packing) -> u128
    requires { AreSplitsIn (ground_on posed.now) path.now }
    ensures { result ≡ weight_in (ground_on posed.now) (branch_of path.now) packing.now }
{
    match posed {
        Posed::Plain(instance) => {
            prove!(1 <= instance.vertices());
            weight(instance, path.branch(), packing)
        }
        Posed::Directed(instance) => di_weight(instance, path.branch(), packing),
    }
}

// What is left of a problem before any step.
pub fn rest_of(alloc: Global, posed: &Posed) -> Result<Rest, AllocError>
    ensures { IfOk result (LeadTo (problem_of posed.now) []) }
{
    match posed {
        Posed::Plain(instance) => Ok(Rest::Left(Reduced::of(alloc, instance)?)),
        Posed::Directed(_) => Ok(Rest::Whole),
    }
}
