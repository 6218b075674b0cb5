ghost use Rattle.std.specs.Prelude.{◌≡◌, IfOk, IfSome, IfNone};
ghost use Rattle.st_model.specs.declared.tree.Tree.{Tree};
ghost use Rattle.st_model.specs.Arborescence.{IsTreeIn};
ghost use Rattle.st_model.specs.Branch.{IsVertexSet, all_trees};
ghost use Rattle.arborescence.specs.DiNetwork.{di_ground};
ghost use Rattle.arborescence.specs.DiWall.{IsDiWall};

use crate::DiInstance;
use crate::fullness::missing;
use crate::loads::open_heads;
use crate::spreading::Spread;
use st_model::{Branch, Sides};
use std::alloc::{AllocError, Global};

/// A set with the root in it and a terminal outside that no arc leaves, ascending; or `None`, exactly where
/// the instance has a tree.
pub fn di_wall(alloc: Global, instance: &DiInstance) -> Result<Option<Vec<u32>>, AllocError>
    ensures some { IfOk result (λ found. IfSome found (λ wall. IsDiWall instance.now wall.items)) }
    ensures set { IfOk result (λ found. IfSome found (λ wall. IsVertexSet instance.now.n wall.items)) }
    ensures none { IfOk result
        (λ found. IfNone found ((t : Tree) × IsTreeIn (di_ground instance.now) t)) }
{
    let branch = Sides::of(alloc, Branch::all(alloc))?;
    walled(alloc, instance, &branch)
}

// What the root doesn't reach over all arcs is kept from it by what it reaches.
fn walled(
    alloc: Global,
    instance: &DiInstance,
    branch: &Sides,
) -> Result<Option<Vec<u32>>, AllocError>
    requires { branch.now ≡ all_trees }
    ensures some { IfOk result (λ found. IfSome found (λ wall. IsDiWall instance.now wall.items)) }
    ensures set { IfOk result (λ found. IfSome found (λ wall. IsVertexSet instance.now.n wall.items)) }
    ensures none { IfOk result
        (λ found. IfNone found ((t : Tree) × IsTreeIn (di_ground instance.now) t)) }
{
    let heads = open_heads(alloc, instance, branch)?;
    let spread = Spread::over(alloc, &heads, instance.root())?;
    match missing(instance, branch, &spread.reached) {
        None => Ok(None),
        Some(_) => Ok(Some(spread.reached.ascending(alloc)?)),
    }
}
