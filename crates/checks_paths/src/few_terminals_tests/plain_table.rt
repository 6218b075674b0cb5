ghost use Rattle.std.specs.Prelude.{◌≡◌, ◌≤◌, ◌*◌, All, IfOk};
ghost use Rattle.st_model.specs.Lists.{total};
ghost use Rattle.st_model.specs.Network.{IsVertex};

use super::{costs, unpaid_need};
use st_model::{Instance, Link, Need};
use std::alloc::{AllocError, Global};
use std::test::Fail;
use test_instances::{Draws, bit};

// What stands in a table of rows of sixteen.
fn at(table: &[u64], row: u32, vertex: u32) -> u64 {
    let place = (row as usize).wrapping_mul(16);
    table
        .get(place.wrapping_add(vertex as usize))
        .copied()
        .unwrap_or(u64::MAX)
}

// Lowers it to a cost.
fn lower(table: &mut [u64], row: u32, vertex: u32, cost: u64) {
    let place = (row as usize).wrapping_mul(16);
    if let Some(slot) = table.get_mut(place.wrapping_add(vertex as usize)) {
        *slot = cost.min(*slot);
    }
}

// A table of which nothing is known.
fn unknown(alloc: Global, places: usize) -> Result<Vec<u64>, AllocError> {
    vec![in alloc; u64::MAX; places]
}

// Lowers how far any two of ten vertices are to the way over another one.
fn pass(table: &mut [u64], over: u32) {
    for pair in 0..100u32 {
        let (from, to) = (pair / 10 + 1, pair % 10 + 1);
        let cost = at(table, from, over).saturating_add(at(table, over, to));
        lower(table, from, to, cost);
    }
}

fn put_links(table: &mut [u64], links: &[Link]) {
    for link in links {
        lower(table, link.a, link.b, link.cost);
        lower(table, link.b, link.a, link.cost);
    }
}

// How far ten vertices are from each other (Floyd 1962).
fn distances(alloc: Global, links: &[Link]) -> Result<Vec<u64>, AllocError> {
    let mut table = unknown(alloc, 256)?;
    put_links(&mut table, links);
    for over in 1..11u32 {
        pass(&mut table, over);
    }
    Ok(table)
}

// Each vertex alone costs nothing.
fn begin(table: &mut [u64]) {
    for vertex in 1..11u32 {
        lower(table, bit(vertex), vertex, 0);
    }
}

// Joins at each vertex trees that reach a part of a set and the rest of it.
fn join(table: &mut [u64], set: u32, part: u32) {
    for vertex in 1..11u32 {
        let cost = at(table, part, vertex).saturating_add(at(table, set & !part, vertex));
        lower(table, set, vertex, cost);
    }
}

// The same of all its parts.
fn join_all(table: &mut [u64], set: u32) {
    let mut part = set;
    for _ in 0..set {
        part = part.wrapping_sub(1) & set;
        if part == 0 {
            break;
        }
        join(table, set, part);
    }
}

// Goes on from each vertex to any other one.
fn spread(table: &mut [u64], distances: &[u64], set: u32) {
    for pair in 0..100u32 {
        let (from, to) = (pair / 10 + 1, pair % 10 + 1);
        let cost = at(table, set, from).saturating_add(at(distances, from, to));
        lower(table, set, to, cost);
    }
}

// By set of required vertices and vertex, the least that a tree costs which reaches both (Dreyfus
// and Wagner 1972).
fn filled(alloc: Global, instance: &Instance, required: u32) -> Result<Vec<u64>, AllocError> {
    let distances = distances(alloc, instance.links())?;
    let mut table = unknown(alloc, 32_768)?;
    begin(&mut table);
    for set in 1..2048u32 {
        if set & required == set {
            join_all(&mut table, set);
            spread(&mut table, &distances, set);
        }
    }
    Ok(table)
}

// The set of required vertices.
fn required_set(instance: &Instance) -> u32 {
    let mut set = 0;
    for before in 0..instance.vertices() {
        if instance.need(before + 1) == Need::Required {
            set |= bit(before + 1);
        }
    }
    set
}

// The least of a row.
fn least_in(table: &[u64], row: u32) -> u64 {
    let mut least = u64::MAX;
    for vertex in 1..11u32 {
        least = least.min(at(table, row, vertex));
    }
    least
}

// What a least tree costs where nobody pays, u64::MAX where there is none.
fn plain_least(alloc: Global, instance: &Instance) -> Result<u64, AllocError> {
    let required = required_set(instance);
    if required == 0 {
        return Ok(0);
    }
    let table = filled(alloc, instance, required)?;
    Ok(least_in(&table, required))
}

// A link between two of ten vertices, that costs 0 to 4.
fn draw_link(draws: &mut Draws) -> Link
    ensures ends { IsVertex 10 result.a × IsVertex 10 result.b }
    ensures cost { result.cost ≤ 9 }
{
    Link {
        a: draws.below(10) as u32 + 1,
        b: draws.below(10) as u32 + 1,
        cost: draws.below(5),
    }
}

fn draw_links(alloc: Global, draws: &mut Draws, count: u32) -> Result<Vec<Link>, AllocError>
    ensures ends { IfOk result (λ drawn. All (λ l. IsVertex 10 l.a × IsVertex 10 l.b) drawn.items) }
    ensures costs { IfOk result (λ drawn. total (λ l. l.cost) drawn.items ≤ 9 * count) }
{
    let mut drawn = Vec::new(alloc);
    for _ in 0..count {
        drawn.push(draw_link(draws))?;
    }
    Ok(drawn)
}

// Ten vertices with up to sixteen links.
fn draw_instance(alloc: Global, draws: &mut Draws) -> Result<Instance, AllocError>
    ensures { IfOk result (λ instance. instance.n ≡ 10) }
{
    let links = draw_links(alloc, draws, 16)?;
    let needs = [
        (1, unpaid_need(draws)),
        (2, unpaid_need(draws)),
        (3, unpaid_need(draws)),
        (4, unpaid_need(draws)),
        (5, unpaid_need(draws)),
        (6, unpaid_need(draws)),
        (7, unpaid_need(draws)),
        (8, unpaid_need(draws)),
    ];
    Instance::build(alloc, 10, &links, &needs)
}

// Whether a drawn instance has a tree of just the least cost of the table.
fn agrees(alloc: Global, draws: &mut Draws) -> Result<bool, AllocError> {
    let instance = draw_instance(alloc, draws)?;
    let least = plain_least(alloc, &instance)?;
    Ok(costs(alloc, &instance, least))
}

#[test]
fn finds_what_a_plain_table_says(rt: HostRuntime) -> Result<(), Fail> {
    let mut draws = Draws { state: 7 };
    for round in 0..300u32 {
        let agreed = agrees(rt.alloc(), &mut draws)?;
        assert!(rt; agreed, "in round {round}");
    }
    Ok(())
}
