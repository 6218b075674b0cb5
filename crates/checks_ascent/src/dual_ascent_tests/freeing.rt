ghost use Rattle.std.specs.Prelude.{All};
ghost use Rattle.st_model.specs.Branch.{IsVertexSet, all_trees};
ghost use Rattle.graph_store.specs.Whole.{IsWhole};
ghost use Rattle.dual_ascent.specs.Extension.{IsStart, IsRootFor};
ghost use Rattle.dual_ascent.specs.Laws.{IsCharged};
ghost use Rattle.dual_ascent.specs.Left.{AreEndsOf};

use crate::dual_ascent_tests::extending::{
    OnPath, can_extend, left_on_path, packing, packing_of_path, path,
};
use cut_packing::Packing;
use dual_ascent::{Remainder, extend, free, left_by};
use graph_store::Store;
use st_model::{Branch, Instance, Sides};
use std::alloc::{AllocError, Global};
use std::test::Fail;
use test_instances::Draws;

// How many cuts of a packing are kept where marked ones are freed, and what is left on the path.
fn freed(
    alloc: Global,
    store: &Store,
    branch: &Sides,
    packing: &Packing,
    marks: &[bool],
) -> Result<(usize, OnPath), AllocError>
    requires whole { IsWhole store.now }
    requires start { IsStart store.now.network branch.now packing.now }
    requires root { IsRootFor store.now.network branch.now packing.now 1 }
{
    let mut left = left_by(alloc, store, branch, packing, 1)?;
    let kept = free(alloc, store, branch, packing, &mut left, marks)?;
    Ok((kept.cuts.as_slice().len(), left_on_path(&left)))
}

// The same over all trees.
fn freed_of_all(
    alloc: Global,
    instance: &Instance,
    packing: &Packing,
    marks: &[bool],
) -> Result<(usize, OnPath), AllocError>
    requires start { IsStart instance.now all_trees packing.now }
    requires root { IsRootFor instance.now all_trees packing.now 1 }
{
    let store = Store::of(alloc, instance)?;
    let branch = Sides::of(alloc, Branch::all(alloc))?;
    freed(alloc, &store, &branch, packing, marks)
}

// The same, if the packing fits.
fn freed_if_fit(
    alloc: Global,
    instance: &Instance,
    packing: &Packing,
    marks: &[bool],
) -> Result<Option<(usize, OnPath)>, AllocError> {
    if !can_extend(alloc, instance, packing, 1)? {
        return Ok(None);
    }
    Ok(Some(freed_of_all(alloc, instance, packing, marks)?))
}

// The same for three cuts of the path.
fn freed_on_path(alloc: Global, marks: &[bool]) -> Result<Option<(usize, OnPath)>, AllocError> {
    let instance = path(alloc)?;
    let packing = packing_of_path(alloc)?;
    freed_if_fit(alloc, &instance, &packing, marks)
}

#[test]
fn frees_cuts_of_the_path(rt: HostRuntime) -> Result<(), Fail> {
    // The marks, how many cuts are kept, and what is left of the arcs and of the prize of 2.
    for (marks, count, arcs, prize) in [
        ([].as_slice(), 3, [2, 5, 3, 2], 1),
        ([true].as_slice(), 2, [4, 5, 3, 4], 3),
        ([false, true, false].as_slice(), 2, [3, 5, 3, 2], 1),
        ([true, true, true, true].as_slice(), 0, [5, 5, 4, 4], 3),
    ] {
        let found = freed_on_path(rt.alloc(), marks)?;
        assert_eq!(rt; found, Some((count, (arcs, [prize, 0]))), "with {marks:?}");
    }
    Ok(())
}

// Twenty marks, each of which is set in half of all cases.
fn drawn_marks(draws: &mut Draws) -> [bool; 20] {
    let mut marks = [false; 20];
    for mark in marks.iter_mut() {
        *mark = draws.below_ten() < 5;
    }
    marks
}

// Whether as much is left of each arc and each prize.
fn same_left(one: &Remainder, other: &Remainder) -> bool {
    for place in 0..64u32 {
        let (u, v) = (place / 8, place % 8);
        if one.arcs.remaining(u, v) != other.arcs.remaining(u, v)
            || one.twins.left(v) != other.twins.left(v)
        {
            return false;
        }
    }
    true
}

// Whether marked cuts of a packing, once they are freed, leave what the others leave that are charged
// anew.
fn leaves_as_anew(
    alloc: Global,
    store: &Store,
    branch: &Sides,
    packing: &Packing,
    left: &mut Remainder,
    marks: &[bool],
) -> Result<bool, AllocError>
    requires charged { IsCharged store.now branch.now packing.now left.old.arcs left.old.twins }
    requires ends { AreEndsOf left.old.arcs left.old.twins }
    requires sets { All (λ c. IsVertexSet store.now.network.n c.set) packing.now.cuts }
{
    let kept = free(alloc, store, branch, packing, left, marks)?;
    let anew = left_by(alloc, store, branch, &kept, left.arcs.root())?;
    Ok(same_left(left, &anew))
}

// Whether drawn cuts of an ascent from a packing do so.
fn frees_raised(
    alloc: Global,
    draws: &mut Draws,
    store: &Store,
    branch: &Sides,
    packing: Packing,
    root: u32,
) -> Result<bool, AllocError>
    requires whole { IsWhole store.now }
    requires start { IsStart store.now.network branch.now packing }
    requires root { IsRootFor store.now.network branch.now packing root }
{
    let raised = extend(alloc, store, branch, packing, root, &[], draws.below(20))?;
    let mut left = raised.left.copied(alloc)?;
    let marks = drawn_marks(draws);
    leaves_as_anew(
        alloc,
        store,
        branch,
        raised.ascent.packing(),
        &mut left,
        &marks,
    )
}

// Whether they do so over all trees.
fn frees_of_all(
    alloc: Global,
    draws: &mut Draws,
    instance: &Instance,
    packing: Packing,
    root: u32,
) -> Result<bool, AllocError>
    requires start { IsStart instance.now all_trees packing }
    requires root { IsRootFor instance.now all_trees packing root }
{
    let store = Store::of(alloc, instance)?;
    let branch = Sides::of(alloc, Branch::all(alloc))?;
    frees_raised(alloc, draws, &store, &branch, packing, root)
}

// Whether they do so, if an ascent can be made from a root.
fn frees_drawn(
    alloc: Global,
    draws: &mut Draws,
    instance: &Instance,
    root: u32,
) -> Result<bool, AllocError> {
    let bare = packing(root, Vec::new(alloc));
    if !can_extend(alloc, instance, &bare, root)? {
        return Ok(true);
    }
    frees_of_all(alloc, draws, instance, bare, root)
}

// Whether they do so over a drawn instance.
fn is_right(alloc: Global, draws: &mut Draws) -> Result<bool, AllocError> {
    let instance = draws.instance(alloc)?;
    let root = draws.vertex();
    frees_drawn(alloc, draws, &instance, root)
}

#[test]
fn leaves_what_the_others_leave(rt: HostRuntime) -> Result<(), Fail> {
    let mut draws = Draws { state: 7 };
    for _ in 0..100 {
        assert!(rt; is_right(rt.alloc(), &mut draws)?);
    }
    Ok(())
}
