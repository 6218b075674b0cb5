ghost use Rattle.std.specs.Prelude.{◌≡◌, length};

use graph_store::Store;
use short_paths::{Distances, from_many};
use st_model::Link;
use std::alloc::{AllocError, Global};
use std::test::Fail;
use test_instances::Draws;

// Lowers what a vertex costs to what it costs from another one.
fn lower(least: &mut [u64], from: u32, to: u32, cost: u64) {
    let before = least.get(from as usize).copied().unwrap_or(u64::MAX);
    if let Some(slot) = least.get_mut(to as usize) {
        *slot = before.saturating_add(cost).min(*slot);
    }
}

// Lowers along each link, both ways.
fn lower_all(least: &mut [u64], links: &[Link]) {
    for link in links {
        lower(least, link.a, link.b, link.cost);
        lower(least, link.b, link.a, link.cost);
    }
}

// What vertex 0 to 6 cost from vertices 1 and 2, and u64::MAX where nothing leads there: each
// link is tried as often as there are vertices.
fn plain_distances(links: &[Link]) -> [u64; 7] {
    let mut least = [u64::MAX; 7];
    least[1] = 0;
    least[2] = 0;
    for _ in 0..6 {
        lower_all(&mut least, links);
    }
    least
}

// Whether distances within a limit are those of the plain program.
fn are_those(distances: &Distances, plain: &[u64], limit: u64) -> bool
    requires { length distances.now ≡ 6 }
{
    for before in 0..6u32 {
        let cost = plain
            .get(before as usize + 1)
            .copied()
            .filter(|cost| *cost <= limit);
        let at = distances.at(before + 1).filter(|cost| *cost < u64::MAX);
        if at != cost.filter(|cost| *cost < u64::MAX) {
            return false;
        }
    }
    true
}

// Whether those from vertices 1 and 2 in a store are.
fn agrees_in(alloc: Global, store: &Store, plain: &[u64], limit: u64) -> Result<bool, AllocError>
    requires { store.now.network.n ≡ 6 }
{
    let distances = from_many(alloc, store, &[2, 1], limit)?;
    Ok(are_those(&distances, plain, limit))
}

// Whether those in a drawn instance are.
fn agrees(alloc: Global, seed: u64, limit: u64) -> Result<bool, AllocError> {
    let instance = Draws { state: seed }.instance(alloc)?;
    let plain = plain_distances(instance.links());
    agrees_in(alloc, &Store::of(alloc, &instance)?, &plain, limit)
}

#[test]
fn agrees_with_a_plain_program(rt: HostRuntime) -> Result<(), Fail> {
    for seed in 0..20u64 {
        for limit in [9, u64::MAX] {
            assert!(rt;
                agrees(rt.alloc(), seed, limit)?,
                "seed {seed}, limit {limit}"
            );
        }
    }
    Ok(())
}
