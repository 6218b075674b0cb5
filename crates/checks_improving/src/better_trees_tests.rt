ghost use Rattle.std.specs.Prelude.{◌≤◌};
ghost use Rattle.st_model.specs.Network.{IsVertex};

use crate::shared::{all, tree_over};
use better_trees::{
    Draws, Effort, Elite, Incumbent, KeyVertices, Means, Place, better_tree, gap, later,
    least_after, narrowed, near_root, trees_at,
};
use bidirected_form::Arcs;
use cut_packing::Packing;
use graph_store::{Store, Whole};
use st_model::{Instance, Listed, Need, VertexSet};
use std::alloc::{AllocError, Global};
use std::test::Fail;
use std::thread::Threads;
use test_instances::{link, triangle_with_centre};

mod elite;
mod wandering;

// No cuts.
fn bare(alloc: Global) -> Packing {
    Packing {
        root: None,
        cuts: Listed::of(Vec::new(alloc)),
    }
}

// What the best tree costs that is found beside the incumbent at a node of this branch.
fn price_at<R: Threads + Sync>(
    means: &Means<'_, R>,
    place: &Place<'_>,
    arcs: &Arcs,
    incumbent: &Incumbent<'_>,
) -> Result<Option<u64>, AllocError> {
    let mut elite = Elite::new(means.alloc);
    let packing = bare(means.alloc);
    let trees = trees_at(means, place, &packing, arcs, incumbent, &mut elite)?;
    Ok(trees.better.map(|found| found.price))
}

// What the best tree costs that is found beside the one of these arcs from 1, at a first node or another one, by so
// many threads.
fn price_beside<R: Threads + Sync>(
    rt: &R,
    alloc: Global,
    whole: &Whole,
    known: &[(u32, u32)],
    cost: u64,
    is_bare: bool,
    threads: usize,
) -> Result<Option<u64>, AllocError>
    requires { IsVertex whole.now.instance.n 1 }
{
    let tree = tree_over(alloc, known)?;
    let branch = all(alloc)?;
    let arcs = Arcs::of(alloc, &whole.store, &branch, 1)?;
    let effort = Effort::at(branch.branch(), is_bare, threads);
    let place = Place {
        whole,
        branch: &branch,
    };
    let incumbent = Incumbent { tree: &tree, cost };
    price_at(&Means { rt, alloc, effort }, &place, &arcs, &incumbent)
}

// The same in the triangle, beside a tree over the sides.
fn price_over_the_centre<R: Threads + Sync>(
    rt: &R,
    alloc: Global,
    least: u64,
    threads: usize,
) -> Result<Option<u64>, AllocError> {
    let whole = Whole::of(alloc, triangle_with_centre(alloc, 4)?)?;
    price_beside(rt, alloc, &whole, &[(1, 2), (2, 3)], least, true, threads)
}

// Over the sides a tree costs 8, and over the centre 6; none costs less.
#[test]
fn finds_the_way_over_the_centre(rt: HostRuntime) -> Result<(), Fail> {
    for (least, threads, wanted) in [(8, 1, Some(6)), (8, 3, Some(6)), (6, 1, None), (6, 3, None)] {
        let got = price_over_the_centre(&rt, rt.alloc(), least, threads)?;
        assert_eq!(rt; got, wanted, "below {least} by {threads}");
    }
    Ok(())
}

// What a tree costs over saturated arcs, if one costs less.
fn price_over(
    alloc: Global,
    place: &Place<'_>,
    arcs: &Arcs,
    least: u64,
) -> Result<Option<u64>, AllocError> {
    let effort = Effort::at(place.branch.branch(), false, 1);
    let found = better_tree(alloc, place, arcs, least, effort)?;
    Ok(found.map(|found| found.price))
}

// The same over the arcs from 1.
fn price_from_1(alloc: Global, whole: &Whole, least: u64) -> Result<Option<u64>, AllocError>
    requires { IsVertex whole.now.instance.n 1 }
{
    let branch = all(alloc)?;
    let arcs = Arcs::of(alloc, &whole.store, &branch, 1)?;
    let place = Place {
        whole,
        branch: &branch,
    };
    price_over(alloc, &place, &arcs, least)
}

// The same where one of two links joins the required vertices at no cost, and the other one at this.
fn price_over_saturated(alloc: Global, cost: u64, least: u64) -> Result<Option<u64>, AllocError>
    requires { cost ≤ 1 }
{
    let links = [link(1, 2, 0), link(2, 3, cost)];
    let needs = [(1, Need::Required), (3, Need::Required)];
    let instance = Instance::build(alloc, 3, &links, &needs)?;
    price_from_1(alloc, &Whole::of(alloc, instance)?, least)
}

// Two links that cost nothing join the required vertices. Where one of them costs something, no arc with
// nothing left leads on.
#[test]
fn grows_where_nothing_is_left(rt: HostRuntime) -> Result<(), Fail> {
    for (cost, least, wanted) in [(0, 5, Some(0)), (0, 0, None), (1, 5, None)] {
        let got = price_over_saturated(rt.alloc(), cost, least)?;
        assert_eq!(rt; got, wanted, "at a cost of {cost} below {least}");
    }
    Ok(())
}

// Whether these vertices are left out of an instance of four where those are reached.
fn leaves_out_of(
    alloc: Global,
    instance: &Instance,
    reached: &[u32],
    out: &[u32],
) -> Result<bool, AllocError> {
    let branch = all(alloc)?;
    let reached = VertexSet::of(alloc, 5, reached)?;
    let part = narrowed(alloc, instance, &branch, &reached)?;
    Ok(part.outside.as_slice() == out)
}

// Whether they are left out of the triangle.
fn leaves_out(alloc: Global, reached: &[u32], out: &[u32]) -> Result<bool, AllocError> {
    leaves_out_of(alloc, &triangle_with_centre(alloc, 4)?, reached, out)
}

// Of the triangle's vertices only the centre needn't be reached.
#[test]
fn leaves_out_who_is_not_reached(rt: HostRuntime) -> Result<(), Fail> {
    assert!(rt; leaves_out(rt.alloc(), &[], &[4])?);
    assert!(rt; leaves_out(rt.alloc(), &[4], &[])?);
    Ok(())
}

// How many vertices are nearer to the root of arcs than a limit.
fn count_of(alloc: Global, arcs: &Arcs, limit: u64) -> Result<usize, AllocError> {
    let near = near_root(alloc, arcs, limit)?;
    Ok(near.members().len())
}

// How many vertices of a store are nearer to 1.
fn count_in(alloc: Global, store: &Store, limit: u64) -> Result<usize, AllocError>
    requires { IsVertex store.now.network.n 1 }
{
    let branch = all(alloc)?;
    let arcs = Arcs::of(alloc, store, &branch, 1)?;
    count_of(alloc, &arcs, limit)
}

// How many vertices of the triangle are.
fn count_near(alloc: Global, limit: u64) -> Result<usize, AllocError> {
    let store = Store::of(alloc, &triangle_with_centre(alloc, 5)?)?;
    count_in(alloc, &store, limit)
}

// The centre is 2 away, and the other two are 4 by there.
#[test]
fn measures_from_the_root(rt: HostRuntime) -> Result<(), Fail> {
    for (limit, count) in [(0, 0), (1, 1), (2, 1), (3, 2), (4, 2), (5, 4)] {
        assert_eq!(rt; count_near(rt.alloc(), limit)?, count, "below {limit}");
    }
    Ok(())
}

// How many links meet at 2 and at 4 where trees branch, once that of these arcs is counted too.
fn counted(
    alloc: Global,
    key_vertices: &mut KeyVertices,
    arcs: &[(u32, u32)],
) -> Result<(u32, u32), AllocError> {
    key_vertices.count(alloc, &tree_over(alloc, arcs)?)?;
    Ok((key_vertices.at(2), key_vertices.at(4)))
}

// The same in the triangle, of a tree over the sides, and then of one over the centre too.
fn counted_in_turn(alloc: Global) -> Result<[(u32, u32); 2], AllocError> {
    let mut key_vertices = KeyVertices::of_none(alloc, &triangle_with_centre(alloc, 4)?)?;
    Ok([
        counted(alloc, &mut key_vertices, &[(1, 2), (2, 3)])?,
        counted(alloc, &mut key_vertices, &[(1, 4), (4, 2), (4, 3)])?,
    ])
}

#[test]
fn counts_where_trees_branch(rt: HostRuntime) -> Result<(), Fail> {
    assert_eq!(rt; counted_in_turn(rt.alloc())?, [(0, 0), (0, 3)]);
    Ok(())
}

// What is lacking of 7 in the triangle where there are no cuts.
fn gap_without_cuts(alloc: Global) -> Result<u64, AllocError> {
    let instance = triangle_with_centre(alloc, 4)?;
    Ok(gap(&instance, &all(alloc)?, &bare(alloc), 7))
}

// No cuts weigh nothing, and no tree changes nothing.
#[test]
fn changes_nothing_without_a_tree(rt: HostRuntime) -> Result<(), Fail> {
    assert_eq!(rt; gap_without_cuts(rt.alloc())?, 7);
    assert_eq!(rt; least_after(7, &None), 7);
    assert!(rt; later(None, None).is_none());
    Ok(())
}

// Whether two seeds draw two orders of nine vertices.
fn orders_differ(alloc: Global) -> Result<bool, AllocError> {
    let one = Draws::of(1).order(alloc, 9)?;
    let other = Draws::of(2).order(alloc, 9)?;
    Ok(one.as_slice() != other.as_slice())
}

// Whether each vertex is in an order once.
fn is_order(alloc: Global) -> Result<bool, AllocError> {
    let mut sorted = Draws::of(1).order(alloc, 9)?;
    sorted.sort()?;
    Ok(sorted.as_slice() == [1, 2, 3, 4, 5, 6, 7, 8, 9].as_slice())
}

// Each vertex once, and another order for another seed.
#[test]
fn draws_orders(rt: HostRuntime) -> Result<(), Fail> {
    assert!(rt; orders_differ(rt.alloc())?);
    assert!(rt; is_order(rt.alloc())?);
    Ok(())
}
