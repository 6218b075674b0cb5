ghost use Rattle.std.specs.Prelude.{◌≡◌, ◌≤◌, ◌*◌, All, IfOk};
ghost use Rattle.st_model.specs.Lists.{total};
ghost use Rattle.st_model.specs.Network.{IsVertex};

use super::{charge, whole};
use bidirected_form::Arcs;
use flow_cuts::fewest;
use st_model::{Instance, Link};
use std::alloc::{AllocError, Global};
use std::test::Fail;
use test_instances::Draws;

// Whether a set of vertices, as bits, holds one.
fn holds(set: u32, v: u32) -> bool {
    set.wrapping_shr(v) & 1 == 1
}

// The set of some vertices as bits.
fn bits(vertices: &[u32]) -> u32 {
    let mut set = 0u32;
    for v in vertices {
        set |= 1u32.wrapping_shl(*v);
    }
    set
}

// How many arcs enter a set, unless a saturated one does.
fn plain_count(arcs: &Arcs, set: u32) -> Option<u32> {
    let mut count = 0u32;
    for place in 0..64u32 {
        let (u, v) = (place / 8 + 1, place % 8 + 1);
        let is_entering = holds(set, v) && !holds(set, u);
        match arcs.remaining(u, v) {
            Some(0) if is_entering => return None,
            Some(_) if is_entering => count = count.saturating_add(1),
            Some(_) | None => {}
        }
    }
    Some(count)
}

// By how few arcs a set is entered that holds a vertex and not 1, and that no saturated arc enters.
fn plain_least(arcs: &Arcs, q: u32) -> Option<u32> {
    let mut least: Option<u32> = None;
    for half in 0..128u32 {
        let set = half.wrapping_shl(2);
        if holds(set, q) {
            let count = plain_count(arcs, set);
            least = match (least, count) {
                (Some(a), Some(b)) => Some(a.min(b)),
                (a, None) => a,
                (None, b) => b,
            };
        }
    }
    least
}

// Whether the set for a vertex is as few arcs enter as any.
fn is_least(alloc: Global, arcs: &Arcs, q: u32) -> Result<bool, AllocError>
    requires count { arcs.now.n ≡ 8 }
    requires root { arcs.now.root ≡ 1 }
    requires q { 2 ≤ q }
    requires vertex { q ≤ 8 }
{
    let least = plain_least(arcs, q);
    match fewest(alloc, arcs, q)? {
        Some(set) => {
            let set = bits(&set);
            Ok(
                holds(set, q)
                    && !holds(set, 1)
                    && plain_count(arcs, set) == least
                    && least.is_some(),
            )
        }
        None => Ok(least.is_none()),
    }
}

fn all_are_least(alloc: Global, arcs: &Arcs) -> Result<bool, AllocError>
    requires count { arcs.now.n ≡ 8 }
    requires root { arcs.now.root ≡ 1 }
{
    for q in 2..9u32 {
        if !is_least(alloc, arcs, q)? {
            return Ok(false);
        }
    }
    Ok(true)
}

fn draw_link(draws: &mut Draws) -> Link
    ensures ends { IsVertex 8 result.a × IsVertex 8 result.b }
    ensures cost { result.cost ≤ 9 }
{
    Link {
        a: draws.below(8) as u32 + 1,
        b: draws.below(8) as u32 + 1,
        cost: draws.below(4),
    }
}

fn draw_links(alloc: Global, draws: &mut Draws, count: u32) -> Result<Vec<Link>, AllocError>
    ensures ends { IfOk result (λ drawn. All (λ l. IsVertex 8 l.a × IsVertex 8 l.b) drawn.items) }
    ensures costs { IfOk result (λ drawn. total (λ l. l.cost) drawn.items ≤ 9 * count) }
{
    let mut drawn = Vec::new(alloc);
    for _ in 0..count {
        drawn.push(draw_link(draws))?;
    }
    Ok(drawn)
}

// Eight vertices with up to twelve links.
fn draw_instance(alloc: Global, draws: &mut Draws) -> Result<Instance, AllocError>
    ensures { IfOk result (λ instance. instance.n ≡ 8) }
{
    let links = draw_links(alloc, draws, 12)?;
    Instance::build(alloc, 8, &links, &[])
}

// Charges the set that was found for a drawn vertex, and then the vertex alone.
fn charge_some(alloc: Global, draws: &mut Draws, arcs: &mut Arcs) -> Result<(), AllocError>
    requires count { arcs.old.n ≡ 8 }
    requires root { arcs.old.root ≡ 1 }
    ensures count { arcs.new.n ≡ 8 }
    ensures root { arcs.new.root ≡ 1 }
{
    let q = draws.below(7) as u32 + 2;
    if let Some(set) = fewest(alloc, arcs, q)? {
        charge(alloc, arcs, &set, draws.below(3))?;
    }
    let v = draws.below(7) as u32 + 2;
    charge(alloc, arcs, &[v], draws.below(3))
}

// Whether the sets are least, and after each of four charges.
fn stay_least(alloc: Global, draws: &mut Draws, arcs: &mut Arcs) -> Result<bool, AllocError>
    requires count { arcs.old.n ≡ 8 }
    requires root { arcs.old.root ≡ 1 }
{
    for _turn in 0..4 {
        if !all_are_least(alloc, arcs)? {
            return Ok(false);
        }
        charge_some(alloc, draws, arcs)?;
    }
    Ok(true)
}

// Whether they are and stay so in a drawn graph.
fn agrees(alloc: Global, seed: u64) -> Result<bool, AllocError> {
    let mut draws = Draws { state: seed };
    let instance = draw_instance(alloc, &mut draws)?;
    let mut arcs = whole(alloc, &instance)?;
    stay_least(alloc, &mut draws, &mut arcs)
}

#[test]
fn agrees_with_a_plain_program(rt: HostRuntime) -> Result<(), Fail> {
    for seed in 0..60u64 {
        assert!(rt; agrees(rt.alloc(), seed)?, "with seed {seed}");
    }
    Ok(())
}
