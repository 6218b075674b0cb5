ghost use Rattle.std.specs.Prelude.{IfOk, IfSome};
ghost use Rattle.st_model.specs.Branch.{all_trees};
ghost use Rattle.dual_ascent.specs.Extension.{IsRootFor};
ghost use Rattle.node_work.specs.Node.{no_cuts};

use graph_store::Whole;
use node_work::{no_cuts, root_of};
use st_model::{Branch, Instance, Listed, Need, Sides, Tree};
use std::alloc::{AllocError, Global};
use test_instances::link;

// A root for cuts of all trees, if there is one.
pub fn root_of_all(alloc: Global, instance: &Instance) -> Result<Option<u32>, AllocError>
    ensures { IfOk result (λ root. IfSome root (IsRootFor instance.now all_trees no_cuts)) }
{
    let all = Sides::of(alloc, Branch::all(alloc))?;
    Ok(root_of(instance, &all, &no_cuts(alloc)))
}

// A ring of 2, 3, 5 and 4, of whose links that between 2 and 4 is the dearest; 1 hangs on it at 2, and 6 at
// 5. All but 2 and 6 are required, and a cheapest tree has all links of the ring but the dearest: it costs 7.
pub fn ring(alloc: Global) -> Result<Whole, AllocError> {
    let links = [
        link(1, 2, 2),
        link(2, 3, 1),
        link(2, 4, 3),
        link(3, 5, 2),
        link(4, 5, 2),
        link(5, 6, 1),
    ];
    let needs = [
        (1, Need::Required),
        (3, Need::Required),
        (4, Need::Required),
        (5, Need::Required),
    ];
    Whole::of(alloc, Instance::build(alloc, 6, &links, &needs)?)
}

// The cheapest tree of the ring, from 5.
pub fn tree_of_ring(alloc: Global) -> Result<Tree, AllocError> {
    Ok(Tree {
        start: 5,
        arcs: Listed::of(vec![in alloc; (5, 4), (5, 3), (3, 2), (2, 1)]?),
    })
}
