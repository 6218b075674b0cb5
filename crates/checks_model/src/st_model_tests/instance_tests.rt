ghost use Rattle.std.specs.Prelude.{◌≡◌};

use crate::st_model_tests::tree_tests::triangle;
use st_model::{Instance, Link, Listed, Need, Tree, is_tree, tree_cost};
use std::alloc::{AllocError, Global};
use std::test::Fail;

fn link(a: u32, b: u32, cost: u64) -> Link
    ensures { result ≡ record { a = a; b = b; cost = cost } }
{
    Link { a, b, cost }
}

// Four vertices: of links between the same ends, and of needs of one vertex, the first, a middle or the last one counts.
fn of_repeated_lines(alloc: Global) -> Result<Instance, AllocError> {
    let links = [
        link(1, 2, 5),
        link(3, 2, 7),
        link(2, 1, 3),
        link(4, 4, 1),
        link(2, 3, 9),
        link(1, 2, 4),
    ];
    let needs = [
        (1, Need::Pays(3)),
        (2, Need::Pays(4)),
        (2, Need::Required),
        (1, Need::Pays(9)),
        (3, Need::Required),
        (3, Need::Pays(8)),
        (1, Need::Pays(2)),
    ];
    Instance::build(alloc, 4, &links, &needs)
}

// Whether an instance has just these links.
fn has_links(instance: &Instance, links: &[Link]) -> bool {
    instance.links() == links
}

// Whether an instance has as many vertices as these needs, and each has its own.
fn has_needs(instance: &Instance, needs: &[Need]) -> bool {
    instance.vertices() as usize == needs.len()
        && (0..instance.vertices()).all(|before| {
            needs.get(before as usize) == Some(&instance.need(before + 1))
        })
}

// What the vertices need: of the needs that are given to one, the dearest counts.
const NEEDS: &[Need] = &[Need::Pays(9), Need::Required, Need::Required, Need::Pays(0)];

#[test]
fn builds_one_link_and_one_need_each(rt: HostRuntime) -> Result<(), Fail> {
    let instance = of_repeated_lines(rt.alloc())?;
    assert!(rt; has_links(&instance, &[link(1, 2, 3), link(2, 3, 7)]));
    assert!(rt; has_needs(&instance, NEEDS));
    Ok(())
}

// The instance of another's links and needs.
fn of_the_parts(alloc: Global, instance: &Instance) -> Result<Instance, AllocError> {
    let links = Vec::from_slice(alloc, instance.links())?;
    let needs = Vec::from_slice(alloc, instance.needs())?;
    Instance::from_parts(alloc, instance.vertices(), links, needs)
}

// Whether two instances have as many vertices, the same links and the same needs.
fn are_alike(one: &Instance, other: &Instance) -> bool {
    one.vertices() == other.vertices()
        && one.links() == other.links()
        && one.needs() == other.needs()
}

// Whether an instance's parts make one that is like it, with four vertices.
fn is_made_again(alloc: Global, instance: &Instance) -> Result<bool, AllocError> {
    let again = of_the_parts(alloc, instance)?;
    Ok(
        are_alike(&again, instance)
            && again.vertices() == 4
            && again.link_cost(3, 2) == Some(7)
            && again.link_cost(1, 3).is_none(),
    )
}

#[test]
fn the_parts_make_the_same_instance(rt: HostRuntime) -> Result<(), Fail> {
    assert!(rt; is_made_again(rt.alloc(), &of_repeated_lines(rt.alloc())?)?);
    Ok(())
}

// Two vertices, and what a link between them costs, if there is one.
const COSTS: &[(u32, u32, Option<u64>)] = &[
    (1, 2, Some(3)),
    (2, 1, Some(3)),
    (2, 3, Some(7)),
    (3, 2, Some(7)),
    (1, 3, None),
    (4, 4, None),
    (0, 1, None),
    (1, 5, None),
];

// Whether an instance tells so.
fn tells_costs(instance: &Instance) -> bool {
    for row in COSTS {
        let (a, b, cost) = *row;
        if instance.link_cost(a, b) != cost {
            return false;
        }
    }
    true
}

#[test]
fn tells_what_a_link_costs(rt: HostRuntime) -> Result<(), Fail> {
    assert!(rt; tells_costs(&of_repeated_lines(rt.alloc())?));
    Ok(())
}

// Whether an instance has one vertex that pays nothing, and no link, and that vertex is a tree for nothing.
fn is_single(alloc: Global, instance: &Instance) -> Result<bool, AllocError> {
    let is_alone = has_links(instance, &[]) && has_needs(instance, &[Need::Pays(0)]);
    Ok(is_alone && cost_of(alloc, instance, 1, &[])? == Some(0))
}

#[test]
fn builds_a_single_vertex(rt: HostRuntime) -> Result<(), Fail> {
    assert!(rt; is_single(rt.alloc(), &Instance::build(rt.alloc(), 1, &[], &[])?)?);
    Ok(())
}

// What the tree costs, if it is one.
fn cost_of(
    alloc: Global,
    instance: &Instance,
    start: u32,
    arcs: &[(u32, u32)],
) -> Result<Option<u64>, AllocError> {
    let tree = Tree {
        start,
        arcs: Listed::of(Vec::from_slice(alloc, arcs)?),
    };
    if is_tree(alloc, instance, &tree)? {
        Ok(Some(tree_cost(instance, &tree)))
    } else {
        Ok(None)
    }
}

// What the tree costs in the triangle, if it is one.
fn cost_in_triangle(
    alloc: Global,
    start: u32,
    arcs: &[(u32, u32)],
) -> Result<Option<u64>, AllocError> {
    let instance = triangle(alloc)?;
    cost_of(alloc, &instance, start, arcs)
}

// A start, the arcs from it, and what the tree of the triangle costs that they are: over the centre, from the centre,
// by two sides, and by a side and the centre.
const TREES: &[(u32, &[(u32, u32)], u64)] = &[
    (1, &[(1, 4), (4, 2), (4, 3)], 6),
    (4, &[(4, 2), (4, 1), (4, 3)], 6),
    (1, &[(1, 2), (2, 3)], 8),
    (1, &[(1, 2), (1, 4), (4, 3)], 8),
];

#[test]
fn finds_trees_of_the_triangle(rt: HostRuntime) -> Result<(), Fail> {
    for row in TREES {
        let (start, arcs, cost) = *row;
        assert!(rt; cost_in_triangle(rt.alloc(), start, arcs)? == Some(cost));
    }
    Ok(())
}

// A start and arcs from it that are no tree of the triangle, and why.
const NO_TREES: &[(u32, &[(u32, u32)], &str)] = &[
    (1, &[(1, 2), (2, 3), (1, 3)], "a head that is reached"),
    (1, &[(1, 2), (2, 3), (2, 1)], "the start as a head"),
    (1, &[(1, 2), (4, 3)], "a tail that isn't reached"),
    (1, &[(4, 2), (1, 4), (4, 3)], "a tail that is reached later"),
    (1, &[(1, 2), (2, 5), (2, 3)], "no such vertex"),
    (1, &[(1, 2), (2, 2), (2, 3)], "no such link"),
    (1, &[(1, 4), (4, 2)], "a required vertex that isn't reached"),
    (0, &[], "the start is 0"),
    (5, &[], "the start is past the last vertex"),
];

#[test]
fn finds_what_is_no_tree_of_the_triangle(rt: HostRuntime) -> Result<(), Fail> {
    for row in NO_TREES {
        let (start, arcs, why) = *row;
        assert!(rt;
            cost_in_triangle(rt.alloc(), start, arcs)?.is_none(),
            "{why}"
        );
    }
    Ok(())
}

// What the tree costs, if it is one, where 2 pays 50 and 3 pays 700.
fn cost_with_prizes(
    alloc: Global,
    start: u32,
    arcs: &[(u32, u32)],
) -> Result<Option<u64>, AllocError> {
    let links = [link(1, 2, 2), link(2, 3, 4)];
    let needs = [
        (1, Need::Required),
        (2, Need::Pays(50)),
        (3, Need::Pays(700)),
    ];
    let instance = Instance::build(alloc, 3, &links, &needs)?;
    cost_of(alloc, &instance, start, arcs)
}

// A start, the arcs from it, and what they cost with what is missed, if they are a tree.
const PAID: &[(u32, &[(u32, u32)], Option<u64>)] = &[
    (1, &[], Some(750)),
    (1, &[(1, 2)], Some(702)),
    (1, &[(1, 2), (2, 3)], Some(6)),
    (3, &[(3, 2), (2, 1)], Some(6)),
    (3, &[(3, 2)], None),
];

#[test]
fn prizes_that_are_missed_are_paid(rt: HostRuntime) -> Result<(), Fail> {
    for row in PAID {
        let (start, arcs, cost) = *row;
        assert!(rt; cost_with_prizes(rt.alloc(), start, arcs)? == cost);
    }
    Ok(())
}
