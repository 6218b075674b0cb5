ghost use Rattle.std.specs.Bool.{OnTrue};
ghost use Rattle.std.specs.List.Sorted.{IsNonDecreasing};

use st_model::{Branch, Instance, Need, Sides, SplitAt};
use std::alloc::{AllocError, Global};
use std::test::Fail;

// Whether a branch has these vertices inside and these outside, in this order.
fn has(branch: &Branch, inside: &[u32], outside: &[u32]) -> bool {
    branch.inside.as_slice() == inside && branch.outside.as_slice() == outside
}

// The branch with 4, 2 and 9 inside and 3 outside.
fn halved(alloc: Global) -> Result<Branch, AllocError> {
    let branch = Branch::all(alloc).with_inside(alloc, 4)?;
    let branch = branch.with_inside(alloc, 2)?;
    let branch = branch.with_outside(alloc, 3)?;
    branch.with_inside(alloc, 9)
}

// Whether a branch has them in their order, and a copy of it as well.
fn is_copied(alloc: Global, branch: &Branch) -> Result<bool, AllocError> {
    let copy = branch.copied(alloc)?;
    Ok(has(branch, &[2, 4, 9], &[3]) && has(&copy, &[2, 4, 9], &[3]))
}

#[test]
fn halves_keep_the_order_of_vertices(rt: HostRuntime) -> Result<(), Fail> {
    assert!(rt; has(&Branch::all(rt.alloc()), &[], &[]));
    assert!(rt; is_copied(rt.alloc(), &halved(rt.alloc())?)?);
    Ok(())
}

// Whether a branch has these links as a must and these barred, in this order.
fn tells(branch: &Branch, must: &[(u32, u32)], barred: &[(u32, u32)]) -> bool {
    branch.must.as_slice() == must && branch.barred.as_slice() == barred
}

// Whether the halves of the branch above at a vertex have it on their sides, and nothing else.
fn are_split(alloc: Global, branch: &Branch) -> Result<bool, AllocError> {
    let yes = branch.yes_half(alloc, SplitAt::Vertex(3))?;
    let no = branch.no_half(alloc, SplitAt::Vertex(1))?;
    Ok(has(&yes, &[2, 3, 4, 9], &[3]) && has(&no, &[2, 4, 9], &[1, 3]) && tells(&yes, &[], &[]))
}

// Whether at a link the one half has it as a must, with each end inside once, and the other has it barred.
fn are_split_at_links(alloc: Global, branch: &Branch) -> Result<bool, AllocError> {
    let yes = branch.yes_half(alloc, SplitAt::Link(1, 4))?;
    let no = yes.no_half(alloc, SplitAt::Link(2, 9))?;
    let both = no.yes_half(alloc, SplitAt::Link(4, 9))?;
    Ok(
        has(&yes, &[1, 2, 4, 9], &[3])
            && tells(&yes, &[(1, 4)], &[])
            && has(&both, &[1, 2, 4, 9], &[3])
            && tells(&both, &[(1, 4), (4, 9)], &[(2, 9)]),
    )
}

// Whether sides tell of these links, in either order of their ends.
fn are_told(alloc: Global) -> Result<bool, AllocError> {
    let branch = Branch::all(alloc).with_must(alloc, 1, 4)?;
    let sides = Sides::of(alloc, branch.with_barred(alloc, 2, 5)?)?;
    let told = sides.is_must(4, 1) && sides.is_barred(2, 5) && sides.is_barred(5, 2);
    Ok(told && !sides.is_must(2, 5) && !sides.is_barred(1, 4) && !sides.is_barred(2, 4))
}

#[test]
fn splits_by_kind(rt: HostRuntime) -> Result<(), Fail> {
    assert!(rt; are_split(rt.alloc(), &halved(rt.alloc())?)?);
    assert!(rt; are_split_at_links(rt.alloc(), &halved(rt.alloc())?)?);
    assert!(rt; are_told(rt.alloc())?);
    Ok(())
}

fn ascends(vertices: &[u32]) -> bool
    ensures { OnTrue result (IsNonDecreasing vertices.now) }
{
    vertices.is_sorted()
}

// Whether a vertex is undecided in a branch whose lists ascend.
fn undecided(branch: &Branch, vertex: u32) -> Option<bool> {
    if !ascends(branch.inside.as_slice()) || !ascends(branch.outside.as_slice()) {
        return None;
    }
    Some(branch.is_undecided(vertex))
}

// The branch with 5, 2 and 9 inside and 1, 8 and 6 outside.
fn halved_by_six(alloc: Global) -> Result<Branch, AllocError> {
    let mut branch = Branch::all(alloc);
    for (inside, outside) in [(5, 1), (2, 8), (9, 6)] {
        branch = branch.with_inside(alloc, inside)?;
        branch = branch.with_outside(alloc, outside)?;
    }
    Ok(branch)
}

// Whether just these of the vertices below 12 are undecided.
fn leaves(branch: &Branch, free: &[u32]) -> bool {
    (0..12).all(|vertex| undecided(branch, vertex) == Some(free.contains(&vertex)))
}

#[test]
fn undecided_vertices_are_neither_inside_nor_outside(rt: HostRuntime) -> Result<(), Fail> {
    assert!(rt; leaves(&halved_by_six(rt.alloc())?, &[0, 3, 4, 7, 10, 11]));
    Ok(())
}

// Whether a vertex is inside, outside, certain and free, where it is one of the instance.
fn answers(
    instance: &Instance,
    sides: &Sides,
    vertex: u32,
) -> Option<((bool, bool), (bool, bool))> {
    if vertex < 1 || instance.vertices() < vertex {
        return None;
    }
    let decided = (sides.is_inside(vertex), sides.is_outside(vertex));
    let left = (
        sides.is_certain(instance, vertex),
        sides.is_free(instance, vertex),
    );
    Some((decided, left))
}

// Four vertices, of which the first is required.
fn four(alloc: Global) -> Result<Instance, AllocError> {
    Instance::build(alloc, 4, &[], &[(1, Need::Required)])
}

// The branch with 2 inside and 3 outside.
fn parted(alloc: Global) -> Result<Sides, AllocError> {
    let branch = Branch::all(alloc).with_inside(alloc, 2)?;
    Sides::of(alloc, branch.with_outside(alloc, 3)?)
}

// Vertex 1 is required, 2 is inside and 3 outside; 4 is free.
const WHERE: &[(u32, (bool, bool), (bool, bool))] = &[
    (1, (false, false), (true, false)),
    (2, (true, false), (true, false)),
    (3, (false, true), (false, false)),
    (4, (false, false), (false, true)),
];

// Whether sides tell so of each vertex.
fn tell(instance: &Instance, sides: &Sides) -> bool {
    for row in WHERE {
        let (vertex, decided, left) = *row;
        if answers(instance, sides, vertex) != Some((decided, left)) {
            return false;
        }
    }
    true
}

// The same of the sides that are parted.
fn parted_tell(alloc: Global, instance: &Instance) -> Result<bool, AllocError> {
    Ok(tell(instance, &parted(alloc)?))
}

#[test]
fn sides_tell_where_a_vertex_is(rt: HostRuntime) -> Result<(), Fail> {
    assert!(rt; parted_tell(rt.alloc(), &four(rt.alloc())?)?);
    Ok(())
}

// Whether these sides are those of a branch, with 2 inside and 3 outside.
fn are_parted(sides: &Sides) -> bool {
    !sides.is_inside(70) && !sides.is_outside(70) && has(sides.branch(), &[2], &[3])
}

#[test]
fn sides_are_those_of_a_branch(rt: HostRuntime) -> Result<(), Fail> {
    let sides = parted(rt.alloc())?;
    assert!(rt; are_parted(&sides));
    assert!(rt; has(&sides.into_branch(), &[2], &[3]));
    Ok(())
}
