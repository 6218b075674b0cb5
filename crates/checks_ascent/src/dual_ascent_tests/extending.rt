ghost use Rattle.std.specs.Prelude.{◌≡◌, ◌↔◌, [], ◌+◌, ◌<◌, IsTrue, IfOk, All};
ghost use Rattle.std.specs.Bool.{OnTrue};
ghost use Rattle.std.specs.List.Sorted.{IsStrictlyIncreasing};
ghost use Rattle.st_model.specs.Branch.{all_trees};
ghost use Rattle.st_model.specs.Network.{IsVertex, is_required};
ghost use Rattle.cut_packing.specs.Packing.{Fits};
ghost use Rattle.dual_ascent.specs.Extension.{IsStart, IsRootFor};

use cut_packing::{Cut, Packing, SharedSet, base_weight, fits};
use dual_ascent::{
    Extension, Remainder, extend, joined_fits, joined_inside_fits, joined_is_full, left_by,
};
use graph_store::Store;
use st_model::{Branch, Instance, Listed, Need, Sides};
use std::alloc::{AllocError, Global};
use std::test::Fail;
use test_instances::{link, triangle_with_centre};

// Two terminals, 1 and 3, and between them a vertex that pays 3 where it is left out.
pub fn path(alloc: Global) -> Result<Instance, AllocError> {
    let links = [link(1, 2, 5), link(2, 3, 4)];
    let needs = [(1, Need::Required), (2, Need::Pays(3)), (3, Need::Required)];
    Instance::build(alloc, 3, &links, &needs)
}

pub fn cut(alloc: Global, set: &[u32], q: u32, y: u64) -> Result<Cut, AllocError> {
    Ok(Cut {
        set: SharedSet::of(Vec::from_slice(alloc, set)?)?,
        q,
        y,
    })
}

pub fn packing(root: u32, cuts: Vec<Cut>) -> Packing {
    Packing {
        root: Some(root),
        cuts: Listed::of(cuts),
    }
}

// Whether a set stands in ascending order, each vertex once.
fn rises(set: &[u32]) -> bool
    ensures { OnTrue result (IsStrictlyIncreasing set.now) }
{
    for i in 1..set.len() {
        if set[i] <= set[i - 1] {
            return false;
        }
    }
    true
}

// Whether a vertex is required.
fn is_terminal(instance: &Instance, vertex: u32) -> bool
    ensures vertex { OnTrue result (IsVertex instance.now.n vertex) }
    ensures required { OnTrue result (IsTrue (is_required instance.now vertex)) }
{
    if vertex < 1 || instance.vertices() < vertex {
        return false;
    }
    match instance.need(vertex) {
        Need::Required => true,
        Need::Pays(_) => false,
    }
}

// Whether the set of each cut does.
fn all_rise(cuts: &[Cut]) -> bool
    ensures { OnTrue result (All (λ c. IsStrictlyIncreasing c.set) cuts.now) }
{
    cuts.iter().all(|cut| rises(cut.set.as_slice()))
}

// Whether a packing has this root.
fn has_root(packing: &Packing, root: u32) -> bool
    ensures { OnTrue result (packing.now.root ≡ Some root) }
{
    match packing.root {
        Some(at) => at == root,
        None => false,
    }
}

// Whether an ascent can go on from a packing in a branch of all trees, from this root.
fn can_extend_in(
    alloc: Global,
    instance: &Instance,
    branch: &Sides,
    packing: &Packing,
    root: u32,
) -> Result<bool, AllocError>
    requires { branch.now ≡ all_trees }
    ensures start { IfOk result (λ yes. OnTrue yes (IsStart instance.now branch.now packing.now)) }
    ensures root { IfOk result (λ yes. OnTrue yes (IsRootFor instance.now branch.now packing.now root)) }
{
    if !all_rise(packing.cuts.as_slice()) || !has_root(packing, root) {
        return Ok(false);
    }
    if !is_terminal(instance, root) {
        return Ok(false);
    }
    let fit = fits(alloc, instance, branch, packing)?;
    Ok(fit)
}

// The same where the branch isn't made yet.
pub fn can_extend(
    alloc: Global,
    instance: &Instance,
    packing: &Packing,
    root: u32,
) -> Result<bool, AllocError>
    ensures start { IfOk result (λ yes. OnTrue yes (IsStart instance.now all_trees packing.now)) }
    ensures root { IfOk result (λ yes. OnTrue yes (IsRootFor instance.now all_trees packing.now root)) }
{
    let branch = Sides::of(alloc, Branch::all(alloc))?;
    can_extend_in(alloc, instance, &branch, packing, root)
}

// What a packing leaves of all trees, where an ascent can go on from it.
fn left_of_all(
    alloc: Global,
    instance: &Instance,
    packing: &Packing,
    root: u32,
) -> Result<Remainder, AllocError>
    requires start { IsStart instance.now all_trees packing.now }
    requires root { IsRootFor instance.now all_trees packing.now root }
{
    let store = Store::of(alloc, instance)?;
    let branch = Sides::of(alloc, Branch::all(alloc))?;
    left_by(alloc, &store, &branch, packing, root)
}

// What it leaves of them, if an ascent can go on from it.
fn charged(
    alloc: Global,
    instance: &Instance,
    packing: &Packing,
    root: u32,
) -> Result<Option<Remainder>, AllocError> {
    if !can_extend(alloc, instance, packing, root)? {
        return Ok(None);
    }
    Ok(Some(left_of_all(alloc, instance, packing, root)?))
}

// Two cuts of the triangle.
fn packing_of_triangle(alloc: Global) -> Result<Packing, AllocError> {
    let cuts = vec![in alloc; cut(alloc, &[2], 2, 1)?, cut(alloc, &[2, 4], 2, 1)?]?;
    Ok(packing(1, cuts))
}

// What they leave of an arc, if they fit.
fn left_of_triangle(alloc: Global, u: u32, v: u32) -> Result<Option<u64>, AllocError> {
    let packing = packing_of_triangle(alloc)?;
    match charged(alloc, &triangle_with_centre(alloc, 4)?, &packing, 1)? {
        Some(left) => Ok(left.arcs.remaining(u, v)),
        None => Ok(None),
    }
}

#[test]
fn charges_the_triangle(rt: HostRuntime) -> Result<(), Fail> {
    for (u, v, left) in [
        (1, 2, 2),
        (3, 2, 2),
        (4, 2, 1),
        (1, 4, 1),
        (3, 4, 1),
        (2, 4, 2),
        (2, 1, 4),
        (1, 3, 4),
    ] {
        let found = left_of_triangle(rt.alloc(), u, v)?;
        assert_eq!(rt; found, Some(left), "from {u} to {v}");
    }
    Ok(())
}

// Three cuts of the path.
pub fn packing_of_path(alloc: Global) -> Result<Packing, AllocError> {
    let cuts = vec![in alloc;
        cut(alloc, &[2], 2, 2)?,
        cut(alloc, &[2, 3], 3, 1)?,
        cut(alloc, &[3], 3, 1)?,
    ]?;
    Ok(packing(1, cuts))
}

// What is left of the path's arcs from 1 to 2 and back and from 2 to 3 and back, and of the prizes
// of 2 and 3.
pub type OnPath = ([u64; 4], [u64; 2]);

pub fn left_on_path(left: &Remainder) -> OnPath {
    let there = left.arcs.remaining(1, 2).unwrap_or(u64::MAX);
    let back = left.arcs.remaining(2, 1).unwrap_or(u64::MAX);
    let on = left.arcs.remaining(2, 3).unwrap_or(u64::MAX);
    let back_on = left.arcs.remaining(3, 2).unwrap_or(u64::MAX);
    (
        [there, back, on, back_on],
        [left.twins.left(2), left.twins.left(3)],
    )
}

// What three cuts leave there, if they fit.
fn charged_path(alloc: Global) -> Result<Option<OnPath>, AllocError> {
    let packing = packing_of_path(alloc)?;
    match charged(alloc, &path(alloc)?, &packing, 1)? {
        Some(left) => Ok(Some(left_on_path(&left))),
        None => Ok(None),
    }
}

#[test]
fn charges_a_prize(rt: HostRuntime) -> Result<(), Fail> {
    let found = charged_path(rt.alloc())?;
    assert_eq!(rt; found, Some(([2, 5, 3, 2], [1, 0])));
    Ok(())
}

// What an ascent from a packing makes over all trees, where it can go on from it.
fn raised(
    alloc: Global,
    instance: &Instance,
    packing: Packing,
    root: u32,
    target: u64,
) -> Result<Extension, AllocError>
    requires start { IsStart instance.now all_trees packing }
    requires root { IsRootFor instance.now all_trees packing root }
{
    let store = Store::of(alloc, instance)?;
    let branch = Sides::of(alloc, Branch::all(alloc))?;
    extend(alloc, &store, &branch, packing, root, &[], target)
}

// Whether an ascent from a packing ends full, and what all cuts weigh, if it can go on from it.
fn extended(
    alloc: Global,
    instance: &Instance,
    packing: Packing,
    root: u32,
    target: u64,
) -> Result<Option<(bool, u128)>, AllocError> {
    if !can_extend(alloc, instance, &packing, root)? {
        return Ok(None);
    }
    let ascent = raised(alloc, instance, packing, root, target)?.ascent;
    let weighs = base_weight(instance, &Branch::all(alloc), ascent.packing());
    Ok(Some((!ascent.is_reached(), weighs)))
}

// A cut of 1 round vertex 2 of the triangle.
fn start(alloc: Global) -> Result<Packing, AllocError> {
    Ok(packing(1, vec![in alloc; cut(alloc, &[2], 2, 1)?]?))
}

// The same over the triangle from this cut.
fn extended_triangle(alloc: Global, target: u64) -> Result<Option<(bool, u128)>, AllocError> {
    let instance = triangle_with_centre(alloc, 4)?;
    extended(alloc, &instance, start(alloc)?, 1, target)
}

#[test]
fn extends_the_triangle(rt: HostRuntime) -> Result<(), Fail> {
    joined_fits();
    joined_inside_fits();
    joined_is_full();
    for (target, full, weighs) in [(100, true, 6), (5, false, 6), (2, false, 3), (0, false, 1)] {
        let found = extended_triangle(rt.alloc(), target)?;
        assert_eq!(rt; found, Some((full, weighs)), "up to {target}");
    }
    Ok(())
}
