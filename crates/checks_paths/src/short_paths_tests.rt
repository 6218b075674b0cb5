ghost use Rattle.std.specs.Prelude.{◌≡◌, length, All, IfOk};
ghost use Rattle.st_model.specs.Network.{IsVertex};

use graph_store::Store;
use short_paths::{Distances, from_many};
use st_model::{Instance, Need};
use std::alloc::{AllocError, Global};
use std::test::Fail;
use test_instances::link;

mod brute_force;
mod laying;

// A triangle 1, 2, 3 whose sides cost 4, its centre 4 at 2 from each, two vertices 5 and 6 that
// are linked at no cost, and vertex 7 alone.
fn triangle(alloc: Global) -> Result<Store, AllocError>
    ensures { IfOk result (λ store. store.network.n ≡ 7) }
{
    let links = [
        link(1, 4, 2),
        link(2, 4, 2),
        link(3, 4, 2),
        link(1, 2, 4),
        link(2, 3, 4),
        link(1, 3, 4),
        link(5, 6, 0),
    ];
    let instance = Instance::build(alloc, 7, &links, &[(1, Need::Required)])?;
    Store::of(alloc, &instance)
}

// The distances of vertices 1 to 7, and 99 where there is none.
fn all_at(distances: &Distances) -> [u64; 7]
    requires { length distances.now ≡ 7 }
{
    [
        distances.at(1).unwrap_or(99),
        distances.at(2).unwrap_or(99),
        distances.at(3).unwrap_or(99),
        distances.at(4).unwrap_or(99),
        distances.at(5).unwrap_or(99),
        distances.at(6).unwrap_or(99),
        distances.at(7).unwrap_or(99),
    ]
}

// The distances from some sources within a limit.
fn distances_in(
    alloc: Global,
    store: &Store,
    sources: &[u32],
    limit: u64,
) -> Result<[u64; 7], AllocError>
    requires count { store.now.network.n ≡ 7 }
    requires sources { All (IsVertex 7) sources.now }
{
    let distances = from_many(alloc, store, sources, limit)?;
    Ok(all_at(&distances))
}

// The same in the triangle.
fn distances_from(alloc: Global, sources: &[u32], limit: u64) -> Result<[u64; 7], AllocError>
    requires { All (IsVertex 7) sources.now }
{
    distances_in(alloc, &triangle(alloc)?, sources, limit)
}

#[test]
fn finds_distances_within_the_limit(rt: HostRuntime) -> Result<(), Fail> {
    let alloc = rt.alloc();
    assert_eq!(rt; distances_from(alloc, &[1], 10)?, [0, 4, 4, 2, 99, 99, 99]);
    assert_eq!(rt; distances_from(alloc, &[1], 3)?, [0, 99, 99, 2, 99, 99, 99]);
    assert_eq!(rt;
        distances_from(alloc, &[2, 2, 3], 2)?,
        [99, 0, 0, 2, 99, 99, 99]
    );
    assert_eq!(rt; distances_from(alloc, &[5], 0)?, [99, 99, 99, 99, 0, 0, 99]);
    assert_eq!(rt;
        distances_from(alloc, &[], u64::MAX)?,
        [99, 99, 99, 99, 99, 99, 99]
    );
    Ok(())
}

// Whether this is the path from some sources to a vertex within a limit, if there is one.
fn is_path_in(
    alloc: Global,
    store: &Store,
    sources: &[u32],
    to: u32,
    limit: u64,
    path: Option<&[u32]>,
) -> Result<bool, AllocError>
    requires count { store.now.network.n ≡ 7 }
    requires sources { All (IsVertex 7) sources.now }
    requires to { IsVertex 7 to }
{
    let distances = from_many(alloc, store, sources, limit)?;
    let found = distances.path_to(alloc, to)?;
    Ok(found.as_deref() == path)
}

// The same in the triangle.
fn is_path(
    alloc: Global,
    sources: &[u32],
    to: u32,
    limit: u64,
    path: Option<&[u32]>,
) -> Result<bool, AllocError>
    requires sources { All (IsVertex 7) sources.now }
    requires to { IsVertex 7 to }
{
    is_path_in(alloc, &triangle(alloc)?, sources, to, limit, path)
}

#[test]
fn finds_paths(rt: HostRuntime) -> Result<(), Fail> {
    let alloc = rt.alloc();
    assert!(rt; is_path(alloc, &[1], 4, 10, Some([1, 4].as_slice()))?);
    assert!(rt; is_path(alloc, &[1], 1, 0, Some([1].as_slice()))?);
    assert!(rt; is_path(alloc, &[1], 2, 3, None)?);
    assert!(rt; is_path(alloc, &[1], 5, 100, None)?);
    assert!(rt; is_path(alloc, &[5, 6], 6, 0, Some([6].as_slice()))?);
    Ok(())
}

// Whether these are the sources of vertices 0 to 7 in the triangle.
fn are_sources(
    alloc: Global,
    sources: &[u32],
    limit: u64,
    found: &[u32],
) -> Result<bool, AllocError>
    requires { All (IsVertex 7) sources.now }
{
    let distances = from_many(alloc, &triangle(alloc)?, sources, limit)?;
    Ok(distances.sources(alloc)?.as_slice() == found)
}

#[test]
fn finds_sources(rt: HostRuntime) -> Result<(), Fail> {
    let alloc = rt.alloc();
    assert!(rt; are_sources(alloc, &[5, 2], 10, &[0, 2, 2, 2, 2, 5, 5, 0])?);
    assert!(rt; are_sources(alloc, &[1, 3], 1, &[0, 1, 0, 3, 0, 0, 0, 0])?);
    Ok(())
}
