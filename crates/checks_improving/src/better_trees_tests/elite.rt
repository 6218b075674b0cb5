ghost use Rattle.st_model.specs.Arborescence.{IsTree};

use crate::shared::tree_over;
use better_trees::{Draws, Elite};
use st_model::{Instance, Tree, is_tree};
use std::alloc::{AllocError, Global};
use std::test::Fail;
use test_instances::triangle_with_centre;

// Keeps the tree of these arcs from 1, if it is one.
fn keep(
    alloc: Global,
    elite: &mut Elite,
    instance: &Instance,
    arcs: &[(u32, u32)],
) -> Result<(), AllocError> {
    let tree = tree_over(alloc, arcs)?;
    if is_tree(alloc, instance, &tree)? {
        elite.keep(alloc, instance, &tree)?;
    }
    Ok(())
}

// How many arcs a tree has, if there is one.
fn arcs_of(tree: Option<&Tree>) -> Option<usize> {
    Some(tree?.arcs.as_slice().len())
}

// Whether the vertices of the triangle get these weights from two trees that are kept.
fn weighs(alloc: Global, elite: &Elite, expected: &[u64]) -> Result<bool, AllocError> {
    let weights = elite.between(alloc, 4, &mut Draws::of(1))?;
    Ok(weights.as_slice() == expected)
}

// How many of two trees over the sides are kept, and whether these say what vertices weigh.
fn kept_of_sides(
    alloc: Global,
    elite: &mut Elite,
    instance: &Instance,
) -> Result<(usize, bool), AllocError> {
    keep(alloc, elite, instance, &[(1, 2), (2, 3)])?;
    keep(alloc, elite, instance, &[(1, 3), (3, 2)])?;
    let weighs = weighs(alloc, elite, &[200, 10, 10, 10, 200])?;
    Ok((elite.len(), weighs))
}

// How many trees are kept once there is one over the centre, and how many arcs the cheapest one has
// that costs less than 8, and less than 5.
fn kept_of_centre(
    alloc: Global,
    elite: &mut Elite,
    instance: &Instance,
) -> Result<(usize, Option<usize>, Option<usize>), AllocError> {
    keep(alloc, elite, instance, &[(1, 4), (4, 2), (4, 3)])?;
    let draws = &mut Draws::of(1);
    let below_8 = arcs_of(elite.cheapest(8, draws));
    let below_5 = arcs_of(elite.cheapest(5, draws));
    Ok((elite.len(), below_8, below_5))
}

// Whether one tree over the sides is kept, and then one over the centre too.
fn keeps_both(alloc: Global, elite: &mut Elite, instance: &Instance) -> Result<bool, AllocError> {
    let sides = kept_of_sides(alloc, elite, instance)?;
    let centre = kept_of_centre(alloc, elite, instance)?;
    Ok(sides == (1, true) && centre == (2, Some(3), None))
}

// Whether they are kept in the triangle.
fn keeps_both_of_triangle(alloc: Global) -> Result<bool, AllocError> {
    let instance = triangle_with_centre(alloc, 4)?;
    keeps_both(alloc, &mut Elite::new(alloc), &instance)
}

// Two trees over the sides cost the same and reach as much, so the second isn't kept; one over the
// centre costs something else.
#[test]
fn keeps_trees_that_differ(rt: HostRuntime) -> Result<(), Fail> {
    assert!(rt; keeps_both_of_triangle(rt.alloc())?);
    Ok(())
}
// After two times without a gain there are no more walks, until there is one.
#[test]
fn loses_patience_with_walks(rt: HostRuntime) -> Result<(), Fail> {
    let mut elite = Elite::new(rt.alloc());
    for (has_gained, more) in [(false, true), (true, true), (false, true), (false, false)] {
        elite.walked(has_gained);
        assert_eq!(rt; elite.is_worth_walks(), more);
    }
    Ok(())
}
