ghost use Rattle.std.specs.Prelude.{◌≡◌, IfOk};
ghost use Rattle.st_model.specs.Branch.{all_trees};

use st_model::{Branch, Instance, Listed, Need, Sides, Tree};
use std::alloc::{AllocError, Global};
use test_instances::link;

// The branch of all trees.
pub fn all(alloc: Global) -> Result<Sides, AllocError>
    ensures { IfOk result (λ sides. sides ≡ all_trees) }
{
    Sides::of(alloc, Branch::all(alloc))
}

// A tree of these arcs from 1.
pub fn tree_over(alloc: Global, arcs: &[(u32, u32)]) -> Result<Tree, AllocError> {
    let arcs = Listed::of(Vec::from_slice(alloc, arcs)?);
    Ok(Tree { start: 1, arcs })
}

// Required vertices 1 and 2 with a path of cost 10 over vertex 3, and one of cost 6 over 4 and 5.
pub fn two_paths(alloc: Global) -> Result<Instance, AllocError> {
    let links = [
        link(1, 3, 5),
        link(2, 3, 5),
        link(1, 4, 2),
        link(4, 5, 2),
        link(2, 5, 2),
    ];
    let needs = [(1, Need::Required), (2, Need::Required)];
    Instance::build(alloc, 5, &links, &needs)
}
