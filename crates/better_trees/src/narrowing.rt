ghost use Rattle.std.specs.Prelude.{◌≡◌, IfOk};
ghost use Rattle.st_model.specs.Branch.{AreThose, IsBranch, LeavesRequired};
ghost use Rattle.st_model.specs.Network.{IsVertex};
ghost use Rattle.better_trees.specs.Part.{IsPartOf, is_left_out};

use st_model::{Branch, Instance, Listed, Sides, VertexSet};
use std::alloc::{AllocError, Global};

/// The branch without what it says of links, in which each vertex is also outside that is neither
/// required nor inside nor in a set.
pub fn narrowed(
    alloc: Global,
    instance: &Instance,
    branch: &Sides,
    reached: &VertexSet,
) -> Result<Branch, AllocError>
    requires { IsBranch instance.now branch.now }
    ensures branch { IfOk result (IsBranch instance.now) }
    ensures part { IfOk result (IsPartOf branch.now) }
    ensures required { LeavesRequired instance.now branch.now → IfOk result (LeavesRequired instance.now) }
{
    let outside = left_out(alloc, instance, branch, reached)?;
    let before = branch.branch();
    let inside = Vec::from_slice(alloc, before.inside.as_slice())?;
    Ok(Branch::of(alloc, Listed::of(inside), Listed::of(outside)))
}

// The vertices that are outside, and those that are neither required nor inside nor in a set;
// ascending.
fn left_out(
    alloc: Global,
    instance: &Instance,
    branch: &Sides,
    reached: &VertexSet,
) -> Result<Vec<u32>, AllocError>
    ensures { IfOk result (λ out. AreThose
        (is_left_out instance.now branch.now reached.now.members) instance.now.n out.items) }
{
    let mut out = Vec::new(alloc);
    for before in 0..instance.vertices() {
        let vertex = before + 1;
        if is_left_out(instance, branch, reached, vertex) {
            out.push(vertex)?;
        }
    }
    Ok(out)
}

// Whether a vertex is outside, or is neither required nor inside nor in a set.
fn is_left_out(instance: &Instance, branch: &Sides, reached: &VertexSet, vertex: u32) -> bool
    requires { IsVertex instance.now.n vertex }
    ensures { result ≡ is_left_out instance.now branch.now reached.now.members vertex }
{
    branch.is_outside(vertex) || !(branch.is_certain(instance, vertex) || reached.contains(vertex))
}
