ghost use Rattle.std.specs.Prelude.{◌≡◌, ◌≢◌, ◌+◌, ◌^◌, ◌<◌, ◌≤◌, IfOk, OnOk};
ghost use Rattle.st_model.specs.Network.{IsVertex, amount};

use graph_store::{Half, Store};
use st_model::{Instance, Link, Need};
use std::alloc::{AllocError, Global};
use std::test::Fail;

// A link between two vertices.
fn link(a: u32, b: u32, cost: u64) -> Link
    ensures { result ≡ record { a = a; b = b; cost = cost } }
{
    Link { a, b, cost }
}

// A triangle 1, 2, 3 of required vertices whose sides cost 4, and its centre 4 at 2 from each.
fn triangle(alloc: Global) -> Result<Store, AllocError>
    ensures count { IfOk result (λ store. store.network.n ≡ 4) }
    ensures amount { IfOk result (λ store. amount store.network ≤ 18) }
{
    let links = [
        link(1, 4, 2),
        link(2, 4, 2),
        link(3, 4, 2),
        link(1, 2, 4),
        link(2, 3, 4),
        link(1, 3, 4),
    ];
    let needs = [
        (1, Need::Required),
        (2, Need::Required),
        (3, Need::Required),
    ];
    let instance = Instance::build(alloc, 4, &links, &needs)?;
    Store::of(alloc, &instance)
}

// Puts a link where both its ends are present.
fn put(store: &mut Store, a: u32, b: u32, cost: u64) -> Result<(), AllocError>
    requires a { IsVertex store.old.network.n a }
    requires b { IsVertex store.old.network.n b }
    requires different { a ≢ b }
    requires amount { amount store.old.network + cost < 2 ^ 63 }
    ensures count { store.new.network.n ≡ store.old.network.n }
    ensures amount { OnOk result (amount store.new.network ≤ amount store.old.network + cost) }
{
    if store.is_present(a) && store.is_present(b) {
        return store.put_link(a, b, cost);
    }
    Ok(())
}

// Three vertices, with a link from each of the first two to the last.
fn path(alloc: Global) -> Result<Store, AllocError>
    ensures count { IfOk result (λ store. store.network.n ≡ 3) }
    ensures amount { IfOk result (λ store. amount store.network ≤ 6) }
{
    let instance = Instance::build(alloc, 3, &[link(1, 3, 4), link(2, 3, 2)], &[])?;
    Store::of(alloc, &instance)
}

// The path with a new link, a cheaper one and a dearer one.
fn linked_more(alloc: Global) -> Result<Store, AllocError> {
    let mut store = path(alloc)?;
    put(&mut store, 2, 1, 6)?;
    put(&mut store, 3, 1, 1)?;
    put(&mut store, 2, 3, 9)?;
    Ok(store)
}

// Whether the links of a store are these, in this order.
fn has_links(alloc: Global, store: &Store, want: &[Link]) -> Result<bool, AllocError> {
    let instance = store.instance(alloc)?;
    Ok(instance.links() == want)
}

#[test]
fn puts_links_in_order(rt: HostRuntime) -> Result<(), Fail> {
    let store = linked_more(rt.alloc())?;
    let want = [link(1, 3, 1), link(2, 3, 2), link(1, 2, 6)];
    assert!(rt; has_links(rt.alloc(), &store, &want)?);
    assert!(rt; store.link_cost(2, 1) == Some(6) && store.link_cost(1, 3) == Some(1));
    Ok(())
}

// Whether a store has two links at 1, of which none leads to 2.
fn lacks_side(store: &Store) -> bool
    requires { store.now.network.n ≡ 4 }
{
    store.degree(1) == 2 && store.link_cost(2, 1).is_none()
}

// Whether a store has one link at 1, and 4 is gone with its links.
fn lacks_centre(store: &Store) -> bool
    requires { store.now.network.n ≡ 4 }
{
    store.degree(1) == 1 && store.degree(4) == 0 && store.is_present(1) && !store.is_present(4)
}

// Whether the instance of a store has two links, from 1 and 2 to 3, which cost 4.
fn has_two_sides(alloc: Global, store: &Store) -> Result<bool, AllocError> {
    let instance = store.instance(alloc)?;
    Ok(
        instance.link_cost(1, 3) == Some(4)
            && instance.link_cost(2, 3) == Some(4)
            && instance.links().len() == 2,
    )
}

// Whether a side of the triangle goes, and then its centre.
fn removes(alloc: Global) -> Result<bool, AllocError> {
    let mut store = triangle(alloc)?;
    store.remove_link(2, 1);
    let is_removed = lacks_side(&store);
    store.remove_vertex(4);
    Ok(is_removed && lacks_centre(&store) && has_two_sides(alloc, &store)?)
}

#[test]
fn removes_links_and_vertices(rt: HostRuntime) -> Result<(), Fail> {
    assert!(rt; removes(rt.alloc())?);
    Ok(())
}

#[test]
fn tells_what_it_keeps(rt: HostRuntime) -> Result<(), Fail> {
    let store = triangle(rt.alloc())?;
    assert!(rt; store.neighbours(3).contains(&Half { to: 4, cost: 2 }));
    assert!(rt; store.vertices() == 4 && store.need(4) == Need::Pays(0));
    Ok(())
}

// Whether a vertex of a store needs this, and pays so much.
fn keeps(store: &Store, vertex: u32, need: Need, prize: u64) -> bool
    requires { IsVertex store.now.network.n vertex }
{
    store.need(vertex) == need && store.prize(vertex) == prize
}

// Whether the instance of a store has six links, and its first vertex pays 5.
fn pays_five(alloc: Global, store: &Store) -> Result<bool, AllocError>
    requires { 1 ≤ store.now.network.n }
{
    let instance = store.instance(alloc)?;
    Ok(instance.need(1) == Need::Pays(5) && instance.links().len() == 6)
}

// Whether a store keeps a need that is set in place of another.
fn keeps_what_is_set(alloc: Global) -> Result<bool, AllocError> {
    let mut store = triangle(alloc)?;
    let is_required = keeps(&store, 1, Need::Required, 0);
    store.set_need(1, Need::Pays(5));
    Ok(is_required && keeps(&store, 1, Need::Pays(5), 5) && pays_five(alloc, &store)?)
}

#[test]
fn keeps_the_need_that_is_set(rt: HostRuntime) -> Result<(), Fail> {
    assert!(rt; keeps_what_is_set(rt.alloc())?);
    Ok(())
}
