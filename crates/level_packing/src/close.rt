ghost use Rattle.std.specs.Prelude.{◌≡◌, ◌≢◌, ◌≤◌, ℕ, [], ◌↔◌, IfOk, IfSome, IsSome, IsTrue, IsFalse, All};
ghost use Rattle.std.specs.List.Sorted.{IsNonDecreasingBy};
ghost use Rattle.st_model.specs.Network.{IsInstance, link};
ghost use Rattle.st_model.specs.Branch.{IsBranch, IsPlain, is_certain};
ghost use Rattle.st_model.specs.Made.{has_pair};
ghost use Rattle.level_packing.specs.Forest.{IsGrown, IsPresent, IsPresentLink, IsToCome, groups, cluster_of};
ghost use Rattle.level_packing.specs.Spanning.{IsLeaf, IsBaseLeaf, HasFewCuts, HasSets};

use crate::Leaf;
use crate::ascending::ascending;
use crate::forest::{Forest, alone};
use crate::present::present_links;
use crate::search::{first_apart, first_present};
use crate::settled::settled;
use cut_packing::{Cut, Packing, SharedSet};
use st_model::{Branch, Instance, Link, Listed, Sides, thin};
use std::alloc::{AllocError, Global};

/// Closes a branch in which each present vertex is required or inside: by a tree that reaches
/// exactly the present vertices and uses no barred link, with a packing that weighs at least what the
/// tree costs, and just that where no link is a must; or, where there is no such tree, by a packing
/// that weighs at least the target: one cut of this value. There are at most two cuts for each
/// vertex. Takes time near-linear in the links and in the size of the cuts' sets together.
pub fn close_all(
    alloc: Global,
    instance: &Instance,
    branch: &Sides,
    target: u64,
) -> Result<Leaf, AllocError>
    requires branch { IsBranch instance.now branch.now }
    requires certain { (v : ℕ) → IsPresent instance.now branch.now v
        → IsTrue (is_certain instance.now branch.now v) }
    requires some { (v : ℕ) × IsPresent instance.now branch.now v }
    ensures closed { IfOk result (IsLeaf instance.now branch.now target) }
    ensures sets { IfOk result (HasSets instance.now.n) }
    ensures few { IfOk result (HasFewCuts instance.now.n target) }
{
    if is_plain(branch.branch()) {
        return close_settled(alloc, instance, branch, target);
    }
    let settled = settled(alloc, instance, branch)?;
    close_settled(alloc, &settled, branch, target)
}

// Whether a branch says nothing of any link.
fn is_plain(branch: &Branch) -> bool
    ensures { IsTrue result ↔ IsPlain branch.now }
{
    branch.must.as_slice().is_empty() && branch.barred.as_slice().is_empty()
}

// Closes a branch over an instance in which no link is barred.
fn close_settled(
    alloc: Global,
    instance: &Instance,
    branch: &Sides,
    target: u64,
) -> Result<Leaf, AllocError>
    requires left { (u v : ℕ) → IsSome (link instance.now.links u v)
        → IsFalse (has_pair branch.now.barred u v) }
    requires certain { (v : ℕ) → IsPresent instance.now branch.now v
        → IsTrue (is_certain instance.now branch.now v) }
    requires some { (v : ℕ) × IsPresent instance.now branch.now v }
    ensures closed { IfOk result (IsBaseLeaf instance.now branch.now target) }
    ensures sets { IfOk result (HasSets instance.now.n) }
    ensures few { IfOk result (HasFewCuts instance.now.n target) }
{
    let Some(root) = first_present(instance, branch) else {
        unreachable!()
    };
    let links = present_links(alloc, instance, branch)?;
    let forest = grow(alloc, instance, branch, root, &links)?;
    match first_apart(instance, branch, &forest, root) {
        None => spanned(alloc, instance, branch, target, root, forest),
        Some(vertex) => wall(alloc, instance, branch, target, root, forest, vertex),
    }
}

// Grows clusters along all the links.
fn grow(
    alloc: Global,
    instance: &Instance,
    branch: &Sides,
    root: u32,
    links: &[Link],
) -> Result<Forest, AllocError>
    requires root { IsPresent instance.now branch.now root }
    requires links { All (IsPresentLink instance.now branch.now) links.now }
    requires ascending { IsNonDecreasingBy (λ l. l.cost) links.now }
    requires complete { (u v : ℕ) → IsPresent instance.now branch.now u → IsPresent instance.now branch.now v
        → IfSome (link instance.now.links u v) (IsToCome links.now u v) }
    ensures { IfOk result (λ forest. IsGrown instance.now branch.now root [] (groups forest)) }
{
    let mut forest = alone(alloc, instance.vertices())?;
    for at in 0..links.len() {
        forest.take(alloc, instance, branch, root, links, at)?;
    }
    Ok(forest)
}

// The tree of the chosen links, where they join all present vertices.
fn spanned(
    alloc: Global,
    instance: &Instance,
    branch: &Sides,
    target: u64,
    root: u32,
    forest: Forest,
) -> Result<Leaf, AllocError>
    requires left { (u v : ℕ) → IsSome (link instance.now.links u v)
        → IsFalse (has_pair branch.now.barred u v) }
    requires certain { (v : ℕ) → IsPresent instance.now branch.now v
        → IsTrue (is_certain instance.now branch.now v) }
    requires instance { IsInstance instance.now }
    requires grown { IsGrown instance.now branch.now root [] (groups forest) }
    requires one { (v : ℕ) → IsPresent instance.now branch.now v
        → cluster_of (groups forest) v ≡ cluster_of (groups forest) root }
    ensures closed { IfOk result (IsBaseLeaf instance.now branch.now target) }
    ensures sets { IfOk result (HasSets instance.now.n) }
    ensures few { IfOk result (HasFewCuts instance.now.n target) }
{
    let tree = thin(alloc, instance, &forest.chosen, root)?;
    Ok(Leaf::Tree(
        tree,
        Packing {
            root: Some(root),
            cuts: Listed::of(forest.cuts),
        },
    ))
}

// A cut round a cluster that nothing joins to the root's.
fn wall(
    alloc: Global,
    instance: &Instance,
    branch: &Sides,
    target: u64,
    root: u32,
    forest: Forest,
    vertex: u32,
) -> Result<Leaf, AllocError>
    requires left { (u v : ℕ) → IsSome (link instance.now.links u v)
        → IsFalse (has_pair branch.now.barred u v) }
    requires certain { (v : ℕ) → IsPresent instance.now branch.now v
        → IsTrue (is_certain instance.now branch.now v) }
    requires instance { IsInstance instance.now }
    requires grown { IsGrown instance.now branch.now root [] (groups forest) }
    requires vertex { IsPresent instance.now branch.now vertex }
    requires apart { cluster_of (groups forest) vertex ≢ cluster_of (groups forest) root }
    ensures closed { IfOk result (IsBaseLeaf instance.now branch.now target) }
    ensures sets { IfOk result (HasSets instance.now.n) }
    ensures few { IfOk result (HasFewCuts instance.now.n target) }
{
    let name = forest.cluster[vertex as usize];
    let members = ascending(alloc, &forest.members[name as usize])?;
    let set = SharedSet::of(members)?;
    let cuts = vec![in alloc;
        Cut {
            set,
            q: name,
            y: target
        },
    ]?;
    Ok(Leaf::Wall(Packing {
        root: Some(root),
        cuts: Listed::of(cuts),
    }))
}
