ghost use Rattle.std.specs.Prelude.{◌≡◌, [], IfOk, IfSome, IfNone};
ghost use Rattle.st_model.specs.Arborescence.{IsTreeIn};
ghost use Rattle.st_model.specs.Branch.{Belongs, IsBranchIn};
ghost use Rattle.arborescence.specs.DiNetwork.{di_ground};
ghost use Rattle.arborescence.specs.First.{HasNoTreeIn};

use crate::DiInstance;
use crate::fullness::missing;
use crate::loads::open_heads;
use crate::spreading::Spread;
use st_model::{Listed, Sides, Tree};
use std::alloc::{AllocError, Global};

/// A tree of a branch in which no link is a must, breadth first; `None` exactly where the branch has none.
pub fn di_first_tree(
    alloc: Global,
    instance: &DiInstance,
    branch: &Sides,
) -> Result<Option<Tree>, AllocError>
    requires branch { IsBranchIn (di_ground instance.now) branch.now }
    requires no_must { branch.now.must ≡ [] }
    ensures tree { IfOk result (λ found. IfSome found (IsTreeIn (di_ground instance.now))) }
    ensures belongs { IfOk result (λ found. IfSome found (Belongs branch.now)) }
    ensures none { IfOk result
        (λ found. IfNone found (HasNoTreeIn (di_ground instance.now) branch.now)) }
{
    let root = instance.root();
    if branch.is_outside(root) {
        return Ok(None);
    }
    let heads = open_heads(alloc, instance, branch)?;
    let spread = Spread::over(alloc, &heads, root)?;
    match missing(instance, branch, &spread.reached) {
        Some(_) => Ok(None),
        None => Ok(Some(Tree {
            start: root,
            arcs: Listed::of(spread.arcs),
        })),
    }
}
