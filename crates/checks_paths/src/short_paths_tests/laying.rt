ghost use Rattle.std.specs.Prelude.{◌≡◌, IfOk, OnOk};
ghost use Rattle.short_paths.specs.Laid.{IsLaid};

use graph_store::Store;
use short_paths::{Laid, from_many};
use st_model::{Instance, Need};
use std::alloc::{AllocError, Global};
use std::test::Fail;
use test_instances::link;

// A path 1, 2, 3, 4 whose links cost 1, 2 and 3, a link between its ends that costs 10, and
// vertex 5 alone.
fn bow(alloc: Global) -> Result<Store, AllocError>
    ensures { IfOk result (λ store. store.network.n ≡ 5) }
{
    let links = [link(1, 2, 1), link(2, 3, 2), link(3, 4, 3), link(1, 4, 10)];
    let instance = Instance::build(alloc, 5, &links, &[(1, Need::Required)])?;
    Store::of(alloc, &instance)
}

// Goes along a link, if there is one and it leads on from what is reached.
fn go(laid: &mut Laid, store: &Store, from: u32, to: u32) -> Result<(), AllocError>
    requires { IsLaid store.now.network laid.old }
    ensures { OnOk result (IsLaid store.now.network laid.new) }
{
    if laid.reached.contains(from) && store.link_cost(from, to).is_some() {
        laid.follow(store, from, to)?;
    }
    Ok(())
}

// From vertex 2 both ways round: the last link leads to what is reached by then.
fn lay_links(alloc: Global, store: &Store) -> Result<Laid, AllocError>
    requires { store.now.network.n ≡ 5 }
{
    let mut laid = Laid::at(alloc, store, 2)?;
    go(&mut laid, store, 2, 3)?;
    go(&mut laid, store, 3, 4)?;
    go(&mut laid, store, 2, 1)?;
    go(&mut laid, store, 1, 4)?;
    Ok(laid)
}

// From vertex 1 along the cheapest path to 4, and then along the link to it.
fn lay_path(alloc: Global, store: &Store) -> Result<Laid, AllocError>
    requires { store.now.network.n ≡ 5 }
{
    let distances = from_many(alloc, store, &[1], 10)?;
    let mut laid = Laid::at(alloc, store, 1)?;
    if let Some(path) = distances.path_to(alloc, 4)? {
        laid.follow_path(store, &path)?;
    }
    go(&mut laid, store, 1, 4)?;
    Ok(laid)
}

// Whether what is laid out reaches these vertices in turn, and is this tree.
fn is_tree(laid: Laid, reached: &[u32], start: u32, arcs: &[(u32, u32)]) -> bool {
    if laid.reached.members() != reached {
        return false;
    }
    let tree = laid.into_tree();
    tree.start == start && tree.arcs.as_slice() == arcs
}

#[test]
fn lays_out_links(rt: HostRuntime) -> Result<(), Fail> {
    let alloc = rt.alloc();
    let laid = lay_links(alloc, &bow(alloc)?)?;
    assert!(rt; is_tree(laid, &[2, 3, 4, 1], 2, &[(2, 3), (3, 4), (2, 1)]));
    Ok(())
}

#[test]
fn lays_out_a_path(rt: HostRuntime) -> Result<(), Fail> {
    let alloc = rt.alloc();
    let laid = lay_path(alloc, &bow(alloc)?)?;
    assert!(rt; is_tree(laid, &[1, 2, 3, 4], 1, &[(1, 2), (2, 3), (3, 4)]));
    Ok(())
}
