//! Branches by what they are told, and a triangle to tell it of.
ghost use Rattle.std.specs.Prelude.{◌≡◌, ◌<◌, IfOk};
ghost use Rattle.std.specs.Bool.{OnTrue};
ghost use Rattle.st_model.specs.Branch.{IsBranch};
ghost use Rattle.cut_packing.specs.ProofTree.{IsSplit, IsLinkSplit, IsSplitAt};

use st_model::{Branch, Instance, Need, Sides, SplitAt};
use std::alloc::{AllocError, Global};
use test_instances::link;

/// A split, and which of its halves is taken.
#[derive(Clone, Copy)]
pub struct Told {
    at: SplitAt,
    says_yes: bool,
}

/// That a vertex is inside.
pub fn inside(vertex: u32) -> Told {
    Told {
        at: SplitAt::Vertex(vertex),
        says_yes: true,
    }
}

/// That a vertex is outside.
pub fn outside(vertex: u32) -> Told {
    Told {
        at: SplitAt::Vertex(vertex),
        says_yes: false,
    }
}

/// That the link between two vertices, the lower first, is a must.
pub fn must(low: u32, high: u32) -> Told {
    Told {
        at: SplitAt::Link(low, high),
        says_yes: true,
    }
}

/// That the link between two vertices, the lower first, is barred.
pub fn barred(low: u32, high: u32) -> Told {
    Told {
        at: SplitAt::Link(low, high),
        says_yes: false,
    }
}

// Whether a branch can be split at a vertex.
fn is_split(instance: &Instance, branch: &Sides, vertex: u32) -> bool
    ensures { OnTrue result (IsSplit instance.now branch.now vertex) }
{
    if vertex < 1 || instance.vertices() < vertex {
        return false;
    }
    branch.is_free(instance, vertex)
}

// Whether a branch can be split at the link between two vertices.
fn is_link_split(instance: &Instance, branch: &Sides, low: u32, high: u32) -> bool
    ensures { OnTrue result (IsLinkSplit instance.now branch.now low high) }
{
    if low >= high || instance.link_cost(low, high).is_none() {
        return false;
    }
    if branch.is_outside(low) || branch.is_outside(high) {
        return false;
    }
    !branch.is_must(low, high) && !branch.is_barred(low, high)
}

// Whether a branch can be split here.
fn is_split_at(instance: &Instance, branch: &Sides, at: SplitAt) -> bool
    ensures { OnTrue result (IsSplitAt instance.now branch.now at) }
{
    match at {
        SplitAt::Vertex(vertex) => is_split(instance, branch, vertex),
        SplitAt::Link(low, high) => is_link_split(instance, branch, low, high),
    }
}

// One half of a branch that is split.
fn half(
    alloc: Global,
    instance: &Instance,
    branch: &Branch,
    told: Told,
) -> Result<Branch, AllocError>
    requires branch { IsBranch instance.now branch.now }
    requires split { IsSplitAt instance.now branch.now told.at }
    ensures { IfOk result (IsBranch instance.now) }
{
    prove!(1 <= instance.vertices());
    let half = if told.says_yes {
        branch.yes_half(alloc, told.at)?
    } else {
        branch.no_half(alloc, told.at)?
    };
    Ok(half)
}

// The branch that is told this as well; the same one where it can't be split so.
fn also(alloc: Global, instance: &Instance, branch: Sides, told: Told) -> Result<Sides, AllocError>
    requires { IsBranch instance.now branch }
    ensures { IfOk result (IsBranch instance.now) }
{
    if !is_split_at(instance, &branch, told.at) {
        return Ok(branch);
    }
    Sides::of(alloc, half(alloc, instance, branch.branch(), told)?)
}

/// The branch that is told all of this, one after the other.
pub fn branch_of(alloc: Global, instance: &Instance, all: &[Told]) -> Result<Sides, AllocError>
    ensures { IfOk result (IsBranch instance.now) }
{
    let mut branch = Sides::of(alloc, Branch::all(alloc))?;
    for told in all {
        branch = also(alloc, instance, branch, *told)?;
    }
    Ok(branch)
}

/// The triangle of required vertices whose side 1-2 costs so much, and the other ones so much.
pub fn required_triangle(alloc: Global, first: u64, others: u64) -> Result<Instance, AllocError>
    requires first { first < 100 }
    requires others { others < 100 }
    ensures { IfOk result (λ i. i.n ≡ 3) }
{
    let links = [link(1, 2, first), link(1, 3, others), link(2, 3, others)];
    let needs = [
        (1, Need::Required),
        (2, Need::Required),
        (3, Need::Required),
    ];
    Instance::build(alloc, 3, &links, &needs)
}
