ghost use Rattle.std.specs.Prelude.{◌≡◌, ◌≤◌, IfOk};
ghost use Rattle.st_model.specs.Network.{IsVertex};

use super::price_beside;
use crate::shared::{all, tree_over};
use better_trees::{Effort, Elite, Incumbent, Means, Place, random_tree, wandered_tree};
use bidirected_form::Arcs;
use graph_store::Whole;
use st_model::{Instance, Need, Tree, VertexSet};
use std::alloc::{AllocError, Global};
use std::test::Fail;
use std::thread::Threads;
use test_instances::link;

// Required vertices 1 and 3 with a path of cost 4 over vertex 2 and another one over vertex 4, and required
// vertex 5, 3 from vertex 1 and 2 from vertex 4; and further vertices without links.
fn two_ways(alloc: Global, vertices: u32) -> Result<Instance, AllocError>
    requires { (5 ≤ vertices) × (vertices ≤ 10_000) }
    ensures { IfOk result (λ instance. instance.n ≡ vertices) }
{
    let links = [
        link(1, 2, 2),
        link(2, 3, 2),
        link(1, 4, 2),
        link(3, 4, 2),
        link(1, 5, 3),
        link(4, 5, 2),
    ];
    let needs = [
        (1, Need::Required),
        (3, Need::Required),
        (5, Need::Required),
    ];
    Instance::build(alloc, vertices, &links, &needs)
}

// What the tree costs that walks from the one over vertex 2 come to among its vertices and those that are near, if it
// costs less than the least cost known.
fn price_near<R: Threads + Sync>(
    rt: &R,
    alloc: Global,
    place: &Place<'_>,
    near: &VertexSet,
    cost: u64,
) -> Result<Option<u64>, AllocError> {
    let tree = tree_over(alloc, &[(1, 2), (2, 3), (1, 5)])?;
    let incumbent = Incumbent { tree: &tree, cost };
    let mut elite = Elite::new(alloc);
    let effort = Effort::at(place.branch.branch(), true, 1);
    let means = Means { rt, alloc, effort };
    let found = wandered_tree(&means, place, near, &incumbent, &mut elite, 0)?;
    Ok(found.map(|found| found.price))
}

// The same at the first node. There are enough vertices for a walk.
fn price_of_walks<R: Threads + Sync>(
    rt: &R,
    alloc: Global,
    near: &[u32],
    least: u64,
) -> Result<Option<u64>, AllocError> {
    let near = VertexSet::of(alloc, 21, near)?;
    let branch = all(alloc)?;
    let whole = Whole::of(alloc, two_ways(alloc, 20)?)?;
    let place = Place {
        whole: &whole,
        branch: &branch,
    };
    price_near(rt, alloc, &place, &near, least)
}

// No move gains at the tree over vertex 2, which costs 7. A walk that may reach vertex 4 comes to one of cost 6, and
// among the tree's own vertices to none.
#[test]
fn walks_where_no_move_gains(rt: HostRuntime) -> Result<(), Fail> {
    assert_eq!(rt; price_of_walks(&rt, rt.alloc(), &[4], 7)?, Some(6));
    assert_eq!(rt; price_of_walks(&rt, rt.alloc(), &[4], 6)?, None);
    assert_eq!(rt; price_of_walks(&rt, rt.alloc(), &[], 7)?, None);
    Ok(())
}

// The work on the first node, and on another one.
fn efforts(alloc: Global) -> Result<(Effort, Effort), AllocError> {
    let branch = all(alloc)?;
    let first = Effort::at(branch.branch(), true, 1);
    let other = Effort::at(branch.branch(), false, 1);
    Ok((first, other))
}

// Where the bound lacks little, but for the first node, where such walks are among the candidates.
#[test]
fn walks_where_a_tree_is_wanting(rt: HostRuntime) -> Result<(), Fail> {
    let (first, other) = efforts(rt.alloc())?;
    assert_eq!(rt; (first.steps(9, 10, 1), other.steps(9, 10, 1)), (0, 0));
    assert_eq!(rt; (other.steps(1, 301, 1), other.steps(1, 300, 1)), (2, 0));
    assert_eq!(rt; first.steps(1, 301, 1), 0);
    Ok(())
}

// The more links there are, the fewer trees are looked for.
#[test]
fn does_less_where_there_are_many_links(rt: HostRuntime) -> Result<(), Fail> {
    let (first, other) = efforts(rt.alloc())?;
    assert_eq!(rt;
        (
            first.growths(25_000),
            first.growths(200_000),
            first.growths(2_000_000)
        ),
        (40, 5, 0)
    );
    assert_eq!(rt;
        (
            first.walks(4, 25_000),
            first.walks(4, 50_000),
            first.walks(4, 200_000)
        ),
        (4, 2, 0)
    );
    assert_eq!(rt;
        (
            first.rounds(60_000),
            first.rounds(200_000),
            other.rounds(1_000_000)
        ),
        (6, 2, 1)
    );
    assert_eq!(rt;
        (other.steps(1, 301, 50_000), other.steps(1, 301, 200_000)),
        (2, 0)
    );
    Ok(())
}

// What the best tree costs that is found beside the one over vertex 2 at the first node, and at another one.
fn prices_beside<R: Threads + Sync>(
    rt: &R,
    alloc: Global,
    whole: &Whole,
) -> Result<[Option<u64>; 2], AllocError>
    requires { IsVertex whole.now.instance.n 1 }
{
    let known = [(1, 2), (2, 3), (1, 5)];
    Ok([
        price_beside(rt, alloc, whole, &known, 8, true, 1)?,
        price_beside(rt, alloc, whole, &known, 8, false, 1)?,
    ])
}

// The same among so many vertices that there is no random tree.
fn prices_of_many<R: Threads + Sync>(
    rt: &R,
    alloc: Global,
) -> Result<[Option<u64>; 2], AllocError> {
    let whole = Whole::of(alloc, two_ways(alloc, 8_200)?)?;
    prices_beside(rt, alloc, &whole)
}

// At the first node walks lead from the tree known to one of cost 6; at others there are none.
#[test]
fn walks_at_the_first_node(rt: HostRuntime) -> Result<(), Fail> {
    assert_eq!(rt; prices_of_many(&rt, rt.alloc())?, [Some(6), None]);
    Ok(())
}

// What the random tree costs, or the one led on from that over saturated arcs if there is one, if it costs less
// than 7.
fn random_price<R: Threads + Sync>(
    rt: &R,
    alloc: Global,
    place: &Place<'_>,
    arcs: &Arcs,
    saturated: &Option<Tree>,
) -> Result<Option<u64>, AllocError> {
    let mut elite = Elite::new(alloc);
    let effort = Effort::at(place.branch.branch(), true, 1);
    let means = Means { rt, alloc, effort };
    let found = random_tree(&means, place, arcs, saturated, &mut elite, 7, 0)?;
    Ok(found.map(|found| found.price))
}

// The same where the one over saturated arcs is the one over vertex 2, and where there is none.
fn random_prices<R: Threads + Sync>(
    rt: &R,
    alloc: Global,
    whole: &Whole,
) -> Result<[Option<u64>; 2], AllocError>
    requires { IsVertex whole.now.instance.n 1 }
{
    let branch = all(alloc)?;
    let arcs = Arcs::of(alloc, &whole.store, &branch, 1)?;
    let saturated = Some(tree_over(alloc, &[(1, 2), (2, 3), (1, 5)])?);
    let place = Place {
        whole,
        branch: &branch,
    };
    Ok([
        random_price(rt, alloc, &place, &arcs, &saturated)?,
        random_price(rt, alloc, &place, &arcs, &None)?,
    ])
}

// The same among so many vertices that there is no random tree.
fn random_prices_of_many<R: Threads + Sync>(
    rt: &R,
    alloc: Global,
) -> Result<[Option<u64>; 2], AllocError> {
    let whole = Whole::of(alloc, two_ways(alloc, 8_200)?)?;
    random_prices(rt, alloc, &whole)
}

// A walk from the tree over saturated arcs comes to one of cost 6.
#[test]
fn leads_on_the_tree_over_saturated_arcs(rt: HostRuntime) -> Result<(), Fail> {
    assert_eq!(rt; random_prices_of_many(&rt, rt.alloc())?, [Some(6), None]);
    Ok(())
}
