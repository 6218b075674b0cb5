ghost use Rattle.std.specs.Prelude.{◌≡◌, IfOk, IfSome};
ghost use Rattle.branching.specs.Node.{IsNode};

use branching::{Node, choose, halves, halves_are_no_lighter, halves_at, halves_link, may_split};
use cut_packing::{Cut, Packing, SharedSet};
use st_model::{Branch, Instance, Listed, Need, SplitAt};
use std::alloc::{AllocError, Global};
use std::test::Fail;
use test_instances::{Draws, link, triangle_with_centre};

// The node of all trees, without a cut.
fn root(alloc: Global, instance: &Instance) -> Node
    ensures { IsNode instance.now result }
{
    prove!(instance.vertices() > 0);
    Node {
        id: 0,
        branch: Branch::all(alloc),
        packing: Packing {
            root: None,
            cuts: Listed::of(Vec::new(alloc)),
        },
    }
}

// The vertex that is chosen, and the halves there, under the numbers 1 and 2.
fn split(
    alloc: Global,
    instance: &Instance,
    node: Node,
) -> Result<Option<(u32, Node, Node)>, AllocError>
    requires { IsNode instance.now node }
    ensures { IfOk result (λ r. IfSome r (λ h. IsNode instance.now h.1 × IsNode instance.now h.2)) }
{
    prove!(instance.vertices() > 0);
    halves_are_no_lighter();
    let Some(vertex) = choose(&node, instance) else {
        return Ok(None);
    };
    match halves(alloc, node, vertex, 1, 2) {
        Ok((inside, outside)) => Ok(Some((vertex, inside, outside))),
        Err((_, error)) => Err(error),
    }
}

// Where a node splits, if anywhere.
fn vertex_of(alloc: Global, instance: &Instance, node: Node) -> Result<Option<u32>, AllocError>
    requires { IsNode instance.now node }
{
    Ok(split(alloc, instance, node)?.map(|halves| halves.0))
}

// Whether a node has this number and this branch.
fn is_node(node: &Node, id: u64, inside: &[u32], outside: &[u32]) -> bool {
    node.id == id
        && node.branch.inside.as_slice() == inside
        && node.branch.outside.as_slice() == outside
}

// Whether only the centre of the triangle may be left out.
fn splits_at_the_centre(alloc: Global) -> Result<bool, AllocError> {
    let instance = triangle_with_centre(alloc, 4)?;
    let node = root(alloc, &instance);
    let Some((vertex, inside, outside)) = split(alloc, &instance, node)? else {
        return Ok(false);
    };
    let right = vertex == 4 && is_node(&inside, 1, &[4], &[]) && is_node(&outside, 2, &[], &[4]);
    let within = vertex_of(alloc, &instance, inside)?;
    let without = vertex_of(alloc, &instance, outside)?;
    Ok(right && within.is_none() && without.is_none())
}

#[test]
fn the_triangle_splits_at_its_centre(rt: HostRuntime) -> Result<(), Fail> {
    assert!(rt; splits_at_the_centre(rt.alloc())?);
    Ok(())
}

// Where the halves of the triangle may be split, and the triangle itself, of the numbers from 0 to 5.
fn the_centre_decides_all(alloc: Global) -> Result<bool, AllocError> {
    let instance = triangle_with_centre(alloc, 4)?;
    let node = root(alloc, &instance);
    let at_first = (0..6).all(|vertex| may_split(&instance, &node.branch, vertex) == (vertex == 4));
    let Some((_, inside, outside)) = split(alloc, &instance, node)? else {
        return Ok(false);
    };
    let later = (0..6).any(|vertex| {
        may_split(&instance, &inside.branch, vertex)
            || may_split(&instance, &outside.branch, vertex)
    });
    Ok(at_first && !later)
}

#[test]
fn the_triangle_may_split_at_its_centre_alone(rt: HostRuntime) -> Result<(), Fail> {
    assert!(rt; the_centre_decides_all(rt.alloc())?);
    Ok(())
}

// Prizes of 7, 9 and 8, and vertex 3, which is required.
fn of_prizes(alloc: Global) -> Result<Instance, AllocError> {
    let needs = [
        (1, Need::Pays(7)),
        (2, Need::Pays(9)),
        (3, Need::Required),
        (4, Need::Pays(8)),
    ];
    Instance::build(alloc, 4, &[link(1, 2, 3)], &needs)
}

// The halves, where the node splits at this vertex.
fn halves_where(
    alloc: Global,
    instance: &Instance,
    node: Node,
    expected: u32,
) -> Result<Option<(Node, Node)>, AllocError>
    requires { IsNode instance.now node }
    ensures { IfOk result (λ r. IfSome r (λ h. IsNode instance.now h.0 × IsNode instance.now h.1)) }
{
    match split(alloc, instance, node)? {
        Some((vertex, inside, outside)) if vertex == expected => Ok(Some((inside, outside))),
        _ => Ok(None),
    }
}

// The node with 2 inside, 4 outside and 1 inside, where the vertices are split at in this order.
fn decided(alloc: Global, instance: &Instance) -> Result<Option<Node>, AllocError>
    ensures { IfOk result (λ r. IfSome r (IsNode instance.now)) }
{
    let node = root(alloc, instance);
    let Some((inside, _)) = halves_where(alloc, instance, node, 2)? else {
        return Ok(None);
    };
    let Some((_, outside)) = halves_where(alloc, instance, inside, 4)? else {
        return Ok(None);
    };
    let Some((inside, _)) = halves_where(alloc, instance, outside, 1)? else {
        return Ok(None);
    };
    Ok(Some(inside))
}

// Whoever pays most comes first, then the next; the required vertex never comes.
#[test]
fn the_dearest_prize_is_decided_first(rt: HostRuntime) -> Result<(), Fail> {
    let instance = of_prizes(rt.alloc())?;
    let node = decided(rt.alloc(), &instance)?.ok_or("another order")?;
    assert!(rt; is_node(&node, 1, &[1, 2], &[4]));
    assert_eq!(rt; vertex_of(rt.alloc(), &instance, node)?, None);
    Ok(())
}

// The sets of some cuts, the vertices that they name, and their values.
const CUTS: [(&[u32], u32, u64); 4] = [
    (&[4], 4, 1),
    (&[2, 4], 2, 5),
    (&[3, 4], 4, 2),
    (&[3], 3, 6),
];

fn cuts(alloc: Global) -> Result<Vec<Cut>, AllocError> {
    let mut cuts = Vec::new(alloc);
    for (set, q, y) in CUTS {
        let set = SharedSet::of(Vec::from_slice(alloc, set)?)?;
        cuts.push(Cut { set, q, y })?;
    }
    Ok(cuts)
}

// A node with 7 inside.
fn with_cuts(alloc: Global) -> Result<Node, AllocError> {
    let packing = Packing {
        root: Some(1),
        cuts: Listed::of(cuts(alloc)?),
    };
    let branch = Branch::all(alloc).with_inside(alloc, 7)?;
    Ok(Node {
        id: 9,
        branch,
        packing,
    })
}

// Whether a node's packing has the root 1, and its cuts name these vertices.
fn names(alloc: Global, node: &Node, named: &[u32]) -> Result<bool, AllocError> {
    let cuts = node.packing.cuts.as_slice();
    let all: Vec<u32> = cuts.iter().map(|cut| cut.q).collect(alloc)?;
    Ok(node.packing.root == Some(1) && all.as_slice() == named)
}

// Where 4 is outside the cuts that name it go, and the others stay in their order.
#[test]
fn the_half_outside_loses_the_cuts_of_its_vertex(rt: HostRuntime) -> Result<(), Fail> {
    let node = with_cuts(rt.alloc())?;
    let Ok((inside, outside)) = halves(rt.alloc(), node, 4, 20, 30) else {
        return Err("no memory".into());
    };
    assert!(rt; is_node(&inside, 20, &[4, 7], &[]));
    assert!(rt; is_node(&outside, 30, &[7], &[4]));
    assert!(rt; names(rt.alloc(), &inside, &[4, 2, 4, 3])?);
    assert!(rt; names(rt.alloc(), &outside, &[2, 3])?);
    Ok(())
}

// Whether these links are a must of a node's branch, and those barred.
fn has_links(node: &Node, must: &[(u32, u32)], barred: &[(u32, u32)]) -> bool {
    node.branch.must.as_slice() == must && node.branch.barred.as_slice() == barred
}

// Whether of the halves of a node of all trees at the link between 1 and 2 one has it as a must, with both ends inside,
// and the other has it barred.
fn decides_a_link(alloc: Global, node: Node) -> Result<bool, AllocError> {
    let Ok((must, barred)) = halves_link(alloc, node, 1, 2, 20, 30) else {
        return Err(AllocError);
    };
    Ok(
        is_node(&must, 20, &[1, 2], &[])
            && has_links(&must, &[(1, 2)], &[])
            && is_node(&barred, 30, &[], &[])
            && has_links(&barred, &[], &[(1, 2)]),
    )
}

// Whether those of the triangle's node do.
fn splits_at_a_link(alloc: Global) -> Result<bool, AllocError> {
    let instance = triangle_with_centre(alloc, 4)?;
    let node = root(alloc, &instance);
    decides_a_link(alloc, node)
}

#[test]
fn the_halves_at_a_link_say_whether_it_is_used(rt: HostRuntime) -> Result<(), Fail> {
    assert!(rt; splits_at_a_link(rt.alloc())?);
    Ok(())
}

// An end comes inside only where it isn't there: 7 stands once. Both halves keep all cuts, those too that name an end.
#[test]
fn the_halves_at_a_link_keep_what_is_there(rt: HostRuntime) -> Result<(), Fail> {
    let node = with_cuts(rt.alloc())?;
    let Ok((must, barred)) = halves_at(rt.alloc(), node, SplitAt::Link(4, 7), 20, 30) else {
        return Err("no memory".into());
    };
    assert!(rt; is_node(&must, 20, &[4, 7], &[]) && has_links(&must, &[(4, 7)], &[]));
    assert!(rt; is_node(&barred, 30, &[7], &[]) && has_links(&barred, &[], &[(4, 7)]));
    assert!(rt; names(rt.alloc(), &must, &[4, 2, 4, 3])?);
    assert!(rt; names(rt.alloc(), &barred, &[4, 2, 4, 3])?);
    Ok(())
}

// Of the six vertices those that may be left out and aren't decided; one that pays most comes next.
fn is_a_right_choice(instance: &Instance, decided: &[u32], chosen: Option<u32>) -> bool {
    if instance.vertices() != 6 {
        return false;
    }
    let may = |v: u32| {
        1 <= v && v <= 6 && instance.need(v) != Need::Required && !decided.contains(&v)
    };
    match chosen {
        None => !(1..7).any(may),
        Some(chosen) => may(chosen)
            && !(1..7).any(|v| may(v) && instance.prize(v) > instance.prize(chosen)),
    }
}

// Whether the first choice is right, and that of each half.
fn choices_are_right(alloc: Global, instance: &Instance) -> Result<bool, AllocError> {
    let node = root(alloc, instance);
    let Some((vertex, inside, outside)) = split(alloc, instance, node)? else {
        return Ok(is_a_right_choice(instance, &[], None));
    };
    let within = vertex_of(alloc, instance, inside)?;
    let without = vertex_of(alloc, instance, outside)?;
    Ok(
        is_a_right_choice(instance, &[], Some(vertex))
            && is_a_right_choice(instance, &[vertex], within)
            && is_a_right_choice(instance, &[vertex], without),
    )
}

#[test]
fn drawn_nodes_split_at_the_dearest_prize(rt: HostRuntime) -> Result<(), Fail> {
    let mut draws = Draws { state: 11 };
    for _ in 0..50 {
        let instance = draws.instance(rt.alloc())?;
        assert!(rt; choices_are_right(rt.alloc(), &instance)?);
    }
    Ok(())
}
