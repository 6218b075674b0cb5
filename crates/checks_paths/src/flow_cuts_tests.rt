ghost use Rattle.std.specs.Prelude.{◌≡◌, ◌≤◌, ◌↔◌, All, IfOk, IsTrue, IsFalse, unwrap_or};
ghost use Rattle.st_model.specs.Branch.{IsVertexSet};
ghost use Rattle.st_model.specs.Lists.{has, total};
ghost use Rattle.st_model.specs.Network.{IsVertex};
ghost use Rattle.bidirected_form.specs.Digraph.{remaining};

mod brute_force;

use bidirected_form::Arcs;
use flow_cuts::fewest;
use graph_store::Store;
use st_model::{Branch, Instance, Link, Sides};
use std::alloc::{AllocError, Global};
use std::test::Fail;
use test_instances::{link, triangle_with_centre};

// The arcs of an instance from vertex 1 on.
fn whole(alloc: Global, instance: &Instance) -> Result<Arcs, AllocError>
    requires { 1 ≤ instance.now.n }
    ensures count { IfOk result (λ arcs. arcs.n ≡ instance.now.n) }
    ensures root { IfOk result (λ arcs. arcs.root ≡ 1) }
{
    let store = Store::of(alloc, instance)?;
    let branch = Sides::of(alloc, Branch::all(alloc))?;
    Arcs::of(alloc, &store, &branch, 1)
}

// What remains of an arc is this at least.
fn bears(arcs: &Arcs, arc: (u32, u32), y: u64) -> bool
    ensures { IsTrue result ↔ (y ≤ unwrap_or (remaining arcs.now arc.0 arc.1) 0) }
{
    arcs.remaining(arc.0, arc.1).unwrap_or(0) >= y
}

fn all_bear(arcs: &Arcs, entering: &[(u32, u32)], y: u64) -> bool
    ensures { IsTrue result ↔ All (λ arc. y ≤ unwrap_or (remaining arcs.now arc.0 arc.1) 0) entering.now }
{
    entering.iter().all(|arc| bears(arcs, *arc, y))
}

// Charges a set, if each arc that enters it bears as much.
fn charge(alloc: Global, arcs: &mut Arcs, set: &[u32], y: u64) -> Result<(), AllocError>
    requires set { IsVertexSet arcs.old.n set.now }
    requires root { IsFalse (has set.now arcs.old.root) }
    ensures count { arcs.new.n ≡ arcs.old.n }
    ensures root { arcs.new.root ≡ arcs.old.root }
{
    let entering = arcs.entering(alloc, set)?;
    if all_bear(arcs, &entering, y) {
        arcs.charge(set, y);
    }
    Ok(())
}

fn charge_two_and_four(alloc: Global, arcs: &mut Arcs) -> Result<(), AllocError>
    requires count { arcs.old.n ≡ 4 }
    requires root { arcs.old.root ≡ 1 }
    ensures count { arcs.new.n ≡ 4 }
    ensures root { arcs.new.root ≡ 1 }
{
    charge(alloc, arcs, &[2, 4], 2)
}

// How many arcs enter a set.
fn entering(alloc: Global, arcs: &mut Arcs, set: &[u32]) -> Result<usize, AllocError>
    requires { IsVertexSet arcs.old.n set.now }
    ensures { arcs.new ≡ arcs.old }
{
    Ok(arcs.entering(alloc, set)?.len())
}

// The set for a vertex over the arcs of an instance, and how many arcs enter it.
fn cut_whole(
    alloc: Global,
    instance: &Instance,
    q: u32,
) -> Result<Option<(Vec<u32>, usize)>, AllocError>
    requires above { 2 ≤ q }
    requires vertex { q ≤ instance.now.n }
{
    let mut arcs = whole(alloc, instance)?;
    let Some(set) = fewest(alloc, &arcs, q)? else {
        return Ok(None);
    };
    let count = entering(alloc, &mut arcs, &set)?;
    Ok(Some((set, count)))
}

#[test]
fn cuts_the_fresh_triangle(rt: HostRuntime) -> Result<(), Fail> {
    let found = cut_whole(rt.alloc(), &triangle_with_centre(rt.alloc(), 4)?, 2)?;
    let (set, count) = found.ok_or("no set")?;
    assert!(rt;
        set.as_slice() == [2].as_slice() || set.as_slice() == [2, 3, 4].as_slice(),
        "{set:?}"
    );
    assert_eq!(rt; count, 3);
    Ok(())
}

// The set for vertex 2 where 2 is charged round it, and then 2 round 2 and 4 as well.
fn cuts_of_charged(
    alloc: Global,
    arcs: &mut Arcs,
) -> Result<(Option<Vec<u32>>, Option<Vec<u32>>), AllocError>
    requires count { arcs.old.n ≡ 4 }
    requires root { arcs.old.root ≡ 1 }
{
    charge(alloc, arcs, &[2], 2)?;
    let before = fewest(alloc, arcs, 2)?;
    charge_two_and_four(alloc, arcs)?;
    Ok((before, fewest(alloc, arcs, 2)?))
}

// The same over the triangle.
fn cuts_of_triangle(alloc: Global) -> Result<(Option<Vec<u32>>, Option<Vec<u32>>), AllocError> {
    let mut arcs = whole(alloc, &triangle_with_centre(alloc, 4)?)?;
    cuts_of_charged(alloc, &mut arcs)
}

#[test]
fn finds_no_set_once_saturated_arcs_lead_there(rt: HostRuntime) -> Result<(), Fail> {
    let (before, after) = cuts_of_triangle(rt.alloc())?;
    assert_eq!(rt; before.as_deref(), Some([2, 3, 4].as_slice()));
    assert_eq!(rt; after, None);
    Ok(())
}

#[test]
fn cuts_a_path_and_a_star_once(rt: HostRuntime) -> Result<(), Fail> {
    let path = [link(1, 2, 1), link(2, 3, 1), link(3, 4, 1)];
    let star = [link(1, 5, 1), link(2, 5, 1), link(3, 5, 1), link(4, 5, 1)];
    for (links, count) in [(path.as_slice(), 1), (star.as_slice(), 1)] {
        let instance = Instance::build(rt.alloc(), 5, links, &[])?;
        let (_, found) = cut_whole(rt.alloc(), &instance, 4)?.ok_or("no set")?;
        assert_eq!(rt; found, count);
    }
    Ok(())
}

// Links of 1 between any two of 40 vertices, each in both orders, and from each vertex to itself.
fn all_links(alloc: Global) -> Result<Vec<Link>, AllocError>
    ensures ends { IfOk result (λ links. All (λ l. IsVertex 40 l.a × IsVertex 40 l.b) links.items) }
    ensures costs { IfOk result (λ links. total (λ l. l.cost) links.items ≤ 1600) }
{
    let mut links = Vec::new(alloc);
    for place in 0..1600u32 {
        links.push(link(place / 40 + 1, place % 40 + 1, 1))?;
    }
    Ok(links)
}

#[test]
fn cuts_the_root_or_the_vertex_off_a_complete_graph(rt: HostRuntime) -> Result<(), Fail> {
    let links = all_links(rt.alloc())?;
    let instance = Instance::build(rt.alloc(), 40, &links, &[])?;
    let (set, count) = cut_whole(rt.alloc(), &instance, 40)?.ok_or("no set")?;
    assert!(rt; set.len() == 1 || set.len() == 39, "{set:?}");
    assert_eq!(rt; count, 39);
    Ok(())
}
