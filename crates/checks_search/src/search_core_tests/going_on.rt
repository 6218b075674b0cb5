//! Searches that go on from a packing.
ghost use Rattle.std.specs.Prelude.{◌≡◌, IfOk, IfSome};
ghost use Rattle.st_model.specs.Branch.{all_trees};
ghost use Rattle.cut_packing.specs.Packing.{Fits};

use super::packing;
use cut_packing::{Packing, fits};
use search_core::{Gathered, Search};
use st_model::{Branch, Instance, Sides};
use std::alloc::{AllocError, Global};
use std::test::Fail;
use test_instances::triangle_with_centre;

// The full packing of the triangle, which weighs 6.
fn full(alloc: Global, instance: &Instance) -> Result<Option<Packing>, AllocError>
    ensures { IfOk result (λ found. IfSome found (Fits instance.now all_trees)) }
{
    let packing = packing(alloc, 2)?;
    let all = Sides::of(alloc, Branch::all(alloc))?;
    if !fits(alloc, instance, &all, &packing)? {
        return Ok(None);
    }
    Ok(Some(packing))
}

// How many cuts the only node has that waits.
fn cuts_of(all: &Gathered) -> Option<usize> {
    match all.queued.as_slice() {
        [node] => Some(node.packing.cuts.as_slice().len()),
        _ => None,
    }
}

// The search of the triangle that goes on from a packing.
fn begun_at(alloc: Global, instance: &Instance, packing: Packing) -> Result<Search, AllocError>
    requires { Fits instance.now all_trees packing }
{
    let all = Branch::all(alloc);
    let search = Search::begin_at(alloc, instance, &all, packing, 1, 10, 8)?;
    Ok(search)
}

// How many cuts its first node has.
fn cuts_begun(search: &Search) -> Result<Option<usize>, AllocError> {
    let all = search.segments()?;
    Ok(cuts_of(&all))
}

// How many it has where it goes on from the full packing.
fn cuts_of_full(alloc: Global) -> Result<Option<usize>, AllocError> {
    let instance = triangle_with_centre(alloc, 4)?;
    let Some(packing) = full(alloc, &instance)? else {
        return Ok(None);
    };
    let search = begun_at(alloc, &instance, packing)?;
    cuts_begun(&search)
}

#[test]
fn begins_with_the_cuts(rt: HostRuntime) -> Result<(), Fail> {
    assert_eq!(rt; cuts_of_full(rt.alloc())?, Some(3));
    Ok(())
}

// Whether nothing was done, and the node waits with those cuts.
fn is_untouched(alloc: Global) -> Result<bool, AllocError> {
    let all = Gathered::untouched(alloc, &Branch::all(alloc), packing(alloc, 2)?, 8)?;
    Ok(
        all.segments.as_slice().is_empty()
            && cuts_of(&all) == Some(3)
            && (all.least, all.claimed) == (8, 0),
    )
}

#[test]
fn leaves_the_node_untouched(rt: HostRuntime) -> Result<(), Fail> {
    assert!(rt; is_untouched(rt.alloc())?);
    Ok(())
}
