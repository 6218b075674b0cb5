ghost use Rattle.std.specs.Prelude.{◌≡◌, ℕ, ◌+◌, ◌≤◌, ◌||◌, IsTrue, IfSome};
ghost use Rattle.std.specs.Bool.{OnTrue};
ghost use Rattle.st_model.specs.Branch.{IsBranch, is_certain};
ghost use Rattle.st_model.specs.Lists.{has};
ghost use Rattle.st_model.specs.Network.{IsVertex};
ghost use Rattle.level_packing.specs.Forest.{IsPresent};

mod links;

use crate::told::{Told, branch_of, inside, outside};
use cut_packing::Cut;
use level_packing::{Leaf, close_all};
use st_model::{Instance, Need, Sides, Tree, is_tree, tree_cost};
use std::alloc::{AllocError, Global};
use std::test::Fail;
use test_instances::{link, triangle_with_centre};

// How a branch was closed, by this file's own sums.
#[derive(Clone, Copy)]
enum Closing {
    Undecided,
    NoSpanningTree,
    Overloaded,
    Tree { cost: u64, weight: u64 },
    Wall { weight: u64 },
}

// Whether a branch was closed by a tree that costs this much beside cuts that weigh as much.
fn is_tree_of(closing: Closing, wanted: u64) -> bool {
    match closing {
        Closing::Tree { cost, weight } => cost == wanted && weight == wanted,
        _ => false,
    }
}

// Whether a vertex is outside, inside or required.
fn is_settled(instance: &Instance, branch: &Sides, vertex: u32) -> bool
    requires { IsVertex instance.now.n vertex }
    ensures { result ≡ (has branch.now.outside vertex || is_certain instance.now branch.now vertex) }
{
    branch.is_outside(vertex) || branch.is_certain(instance, vertex)
}

// Whether each present vertex is required or inside.
fn is_decided(instance: &Instance, branch: &Sides) -> bool
    ensures { OnTrue result ((v : ℕ) → IsPresent instance.now branch.now v
        → IsTrue (is_certain instance.now branch.now v)) }
{
    for before in 0..instance.vertices() {
        if !is_settled(instance, branch, before + 1) {
            return false;
        }
    }
    true
}

// A vertex that isn't outside.
fn some_present(instance: &Instance, branch: &Sides) -> Option<u32>
    ensures { IfSome result (IsPresent instance.now branch.now) }
{
    for before in 0..instance.vertices() {
        if !branch.is_outside(before + 1) {
            return Some(before + 1);
        }
    }
    None
}

// Closes a branch, unless something is left to decide or no vertex is present.
fn closed(
    alloc: Global,
    instance: &Instance,
    branch: &Sides,
    target: u64,
) -> Result<Option<Leaf>, AllocError>
    requires { IsBranch instance.now branch.now }
{
    let Some(_) = some_present(instance, branch) else {
        return Ok(None);
    };
    if !is_decided(instance, branch) {
        return Ok(None);
    }
    Ok(Some(close_all(alloc, instance, branch, target)?))
}

// Whether the tree reaches exactly the vertices that aren't outside.
fn spans(instance: &Instance, tree: &Tree, outside: &[u32]) -> bool {
    let arcs = tree.arcs.as_slice();
    (0..instance.vertices()).all(|before| {
        let vertex = before + 1;
        let reached = tree.start == vertex || arcs.iter().any(|arc| arc.1 == vertex);
        reached != outside.contains(&vertex)
    })
}

// What the cuts lay on the arc between two vertices.
fn load(cuts: &[Cut], tail: u32, head: u32) -> u64 {
    let mut sum: u64 = 0;
    for cut in cuts {
        let set = cut.set.as_slice();
        if set.contains(&head) && !set.contains(&tail) {
            sum = sum.saturating_add(cut.y);
        }
    }
    sum
}

// Whether no link between vertices that aren't outside bears more than it costs, either way.
fn fits_links(instance: &Instance, outside: &[u32], cuts: &[Cut]) -> bool {
    instance.links().iter().all(|link| {
        outside.contains(&link.a)
            || outside.contains(&link.b)
            || load(cuts, link.a, link.b).max(load(cuts, link.b, link.a)) <= link.cost
    })
}

// The values of the cuts, and the prizes of the vertices outside.
fn weight(instance: &Instance, outside: &[u32], cuts: &[Cut]) -> u64 {
    let mut sum: u64 = 0;
    for cut in cuts {
        sum = sum.saturating_add(cut.y);
    }
    for before in 0..instance.vertices() {
        let vertex = before + 1;
        if let Need::Pays(prize) = instance.need(vertex)
            && outside.contains(&vertex)
        {
            sum = sum.saturating_add(prize);
        }
    }
    sum
}

// How a tree beside cuts of this weight closes a branch.
fn tree_closing(
    alloc: Global,
    instance: &Instance,
    outside: &[u32],
    tree: &Tree,
    weight: u64,
) -> Result<Closing, AllocError> {
    if !is_tree(alloc, instance, tree)? || !spans(instance, tree, outside) {
        return Ok(Closing::NoSpanningTree);
    }
    let cost = tree_cost(instance, tree);
    Ok(Closing::Tree { cost, weight })
}

// The same of a leaf.
fn leaf_closing(
    alloc: Global,
    instance: &Instance,
    outside: &[u32],
    leaf: &Leaf,
) -> Result<Closing, AllocError> {
    let (tree, packing) = match leaf {
        Leaf::Tree(tree, packing) => (Some(tree), packing),
        Leaf::Wall(packing) => (None, packing),
    };
    let cuts = packing.cuts.as_slice();
    if !fits_links(instance, outside, cuts) {
        return Ok(Closing::Overloaded);
    }
    let weight = weight(instance, outside, cuts);
    match tree {
        Some(tree) => tree_closing(alloc, instance, outside, tree, weight),
        None => Ok(Closing::Wall { weight }),
    }
}

// That the vertices 1 to 4 are inside.
fn all_four() -> [Told; 4] {
    [inside(1), inside(2), inside(3), inside(4)]
}

// The same of a branch with this target.
fn branch_closing(
    alloc: Global,
    instance: &Instance,
    branch: &Sides,
    target: u64,
) -> Result<Closing, AllocError>
    requires { IsBranch instance.now branch.now }
{
    match closed(alloc, instance, branch, target)? {
        Some(leaf) => leaf_closing(alloc, instance, branch.branch().outside.as_slice(), &leaf),
        None => Ok(Closing::Undecided),
    }
}

// The same of the branch that is told this.
fn closing_of(
    alloc: Global,
    instance: &Instance,
    told: &[Told],
    target: u64,
) -> Result<Closing, AllocError> {
    let branch = branch_of(alloc, instance, told)?;
    branch_closing(alloc, instance, &branch, target)
}

// The same over the triangle with a centre.
fn triangle_closing(alloc: Global, told: &[Told]) -> Result<Closing, AllocError> {
    let triangle = triangle_with_centre(alloc, 4)?;
    closing_of(alloc, &triangle, told, 9)
}

#[test]
fn closes_the_triangle(rt: HostRuntime) -> Result<(), Fail> {
    let with_centre = triangle_closing(rt.alloc(), &[inside(4)])?;
    assert!(rt; is_tree_of(with_centre, 6));
    let without_centre = triangle_closing(rt.alloc(), &[outside(4)])?;
    assert!(rt; is_tree_of(without_centre, 8));
    let undecided = triangle_closing(rt.alloc(), &[])?;
    assert!(rt; matches!(undecided, Closing::Undecided));
    Ok(())
}

// The same over two pairs that are not joined.
fn pairs_closing(alloc: Global, told: &[Told]) -> Result<Closing, AllocError> {
    let links = [link(1, 2, 3), link(3, 4, 5)];
    let pairs = Instance::build(alloc, 4, &links, &[(4, Need::Pays(7))])?;
    closing_of(alloc, &pairs, told, 9)
}

#[test]
fn closes_parts_that_are_not_joined(rt: HostRuntime) -> Result<(), Fail> {
    let both = pairs_closing(rt.alloc(), &all_four())?;
    assert!(rt; matches!(both, Closing::Wall { weight: 9.. }));
    let first = pairs_closing(rt.alloc(), &[inside(1), inside(2), outside(3), outside(4)])?;
    assert!(rt; is_tree_of(first, 10));
    let one = pairs_closing(rt.alloc(), &[inside(3), outside(1), outside(2), outside(4)])?;
    assert!(rt; is_tree_of(one, 7));
    Ok(())
}

// The same of all trees over a ring.
fn ring_closing(alloc: Global) -> Result<Closing, AllocError> {
    let rising = [link(1, 4, 7), link(2, 3, 2), link(3, 4, 4), link(1, 2, 1)];
    let ring = Instance::build(alloc, 4, &rising, &[])?;
    closing_of(alloc, &ring, &all_four(), 0)
}

// The same where all links of a ring cost the same.
fn even_closing(alloc: Global) -> Result<Closing, AllocError> {
    let equal = [link(1, 2, 5), link(2, 3, 5), link(3, 1, 5)];
    let even = Instance::build(alloc, 3, &equal, &[])?;
    closing_of(alloc, &even, &[inside(1), inside(2), inside(3)], 0)
}

// The same where links cost nothing.
fn gift_closing(alloc: Global) -> Result<Closing, AllocError> {
    let free = [link(1, 2, 0), link(2, 3, 0)];
    let gift = Instance::build(alloc, 3, &free, &[])?;
    closing_of(alloc, &gift, &[inside(1), inside(2), inside(3)], 0)
}

// The same over one vertex.
fn lone_closing(alloc: Global) -> Result<Closing, AllocError> {
    let lone = Instance::build(alloc, 1, &[], &[])?;
    closing_of(alloc, &lone, &[inside(1)], 0)
}

#[test]
fn closes_along_the_cheapest_links(rt: HostRuntime) -> Result<(), Fail> {
    let alloc = rt.alloc();
    for (closing, cost) in [
        (ring_closing(alloc)?, 7),
        (even_closing(alloc)?, 10),
        (gift_closing(alloc)?, 0),
        (lone_closing(alloc)?, 0),
    ] {
        assert!(rt; is_tree_of(closing, cost));
    }
    Ok(())
}
