ghost use Rattle.std.specs.Prelude.{◌≤◌};
ghost use Rattle.st_model.specs.Network.{IsVertex};

use super::{charge, give_back, go_back};
use bidirected_form::Arcs;
use graph_store::Store;
use prize_transform::Twins;
use st_model::{Branch, Instance, Listed, Need, Sides};
use std::alloc::{AllocError, Global};
use std::test::Fail;
use test_instances::Draws;

// So many numbers from 1 to 10, some of them more than once.
fn numbers(alloc: Global, draws: &mut Draws, count: u32) -> Result<Vec<u32>, AllocError> {
    let mut numbers = Vec::new(alloc);
    for _turn in 0..count {
        numbers.push(draws.below_ten() as u32 + 1)?;
    }
    Ok(numbers)
}

// A list with an end and its vertex among drawn numbers.
fn list_with(alloc: Global, draws: &mut Draws, end: u32, q: u32) -> Result<Vec<u32>, AllocError> {
    let mut list = numbers(alloc, draws, 3)?;
    list.push(end)?;
    list.extend_from_slice(&numbers(alloc, draws, 3)?)?;
    list.push(q)?;
    list.extend_from_slice(&numbers(alloc, draws, 2)?)?;
    Ok(list)
}

// A branch where one drawn number is inside and one is outside.
fn drawn_sides(alloc: Global, draws: &mut Draws) -> Result<Sides, AllocError> {
    let branch = Branch::of(
        alloc,
        Listed::of(numbers(alloc, draws, 1)?),
        Listed::of(numbers(alloc, draws, 1)?),
    );
    Sides::of(alloc, branch)
}

fn twins_in(alloc: Global, instance: &Instance, sides: &Sides) -> Result<Twins, AllocError>
    requires { 1 ≤ instance.now.n }
{
    let store = Store::of(alloc, instance)?;
    let arcs = Arcs::of(alloc, &store, sides, 1)?;
    Twins::of(alloc, &arcs)
}

fn plain_prize(instance: &Instance, branch: &Branch, v: u32) -> u64
    requires { IsVertex instance.now.n v }
{
    let is_decided = branch.inside.as_slice().contains(&v)
        || branch.outside.as_slice().contains(&v);
    match instance.need(v) {
        Need::Pays(prize) if !is_decided => prize,
        Need::Pays(_) | Need::Required => 0,
    }
}

// The prize of each vertex that may be left out for more than 0.
fn plain_prizes(
    alloc: Global,
    instance: &Instance,
    branch: &Branch,
) -> Result<Vec<(u32, u64)>, AllocError> {
    let mut prizes = Vec::new(alloc);
    for before in 0..instance.vertices() {
        let prize = plain_prize(instance, branch, before + 1);
        if prize > 0 {
            prizes.push((before + 1, prize))?;
        }
    }
    Ok(prizes)
}

// Each end with its vertex; they are numbered from 7 on, for there are six vertices.
fn plain_ends(alloc: Global, prizes: &[(u32, u64)]) -> Result<Vec<(u32, u32)>, AllocError> {
    let mut ends = Vec::new(alloc);
    let mut number = 7u32;
    for (q, _) in prizes {
        ends.push((number, *q))?;
        number = number.wrapping_add(1);
    }
    Ok(ends)
}

fn plain_left(prizes: &[(u32, u64)], v: u32) -> u64 {
    for (q, left) in prizes {
        if *q == v {
            return *left;
        }
    }
    0
}

fn lower(prizes: &mut [(u32, u64)], v: u32, y: u64) {
    for (q, left) in prizes.iter_mut() {
        if *q == v {
            *left = left.saturating_sub(y);
        }
    }
}

fn raise(prizes: &mut [(u32, u64)], v: u32, y: u64) {
    for (q, left) in prizes.iter_mut() {
        if *q == v {
            *left = left.saturating_add(y);
        }
    }
}

fn plain_vertices(alloc: Global, list: &[u32]) -> Result<Vec<u32>, AllocError> {
    let mut vertices = Vec::new(alloc);
    for v in list {
        if *v <= 6 {
            vertices.push(*v)?;
        }
    }
    Ok(vertices)
}

fn same_left(twins: &Twins, prizes: &[(u32, u64)]) -> bool {
    for v in 0..10u32 {
        if twins.left(v) != plain_left(prizes, v) {
            return false;
        }
    }
    true
}

// Whether each end goes back from a drawn list as in the plain program.
fn same_back(
    alloc: Global,
    draws: &mut Draws,
    twins: &Twins,
    ends: &[(u32, u32)],
) -> Result<bool, AllocError> {
    for (end, q) in ends {
        let list = list_with(alloc, draws, *end, *q)?;
        let plain = plain_vertices(alloc, &list)?;
        match go_back(alloc, twins, &list, *end)? {
            Some((vertices, vertex)) if vertex == *q && vertices.as_slice() == plain.as_slice() =>
                {}
            _ => return Ok(false),
        }
    }
    Ok(true)
}

// Gives 1 back to a drawn vertex in both.
fn give_one_back(draws: &mut Draws, twins: &mut Twins, prizes: &mut [(u32, u64)]) {
    let q = draws.below_ten() as u32 + 1;
    give_back(twins, q, 1);
    raise(prizes, q, 1);
}

// Whether what is left is as in the plain program after drawn charges, each of which is followed by
// giving back to a drawn vertex.
fn same_charges(draws: &mut Draws, twins: &mut Twins, prizes: &mut [(u32, u64)]) -> bool {
    for _turn in 0..9 {
        let q = draws.below_ten() as u32 + 1;
        let y = draws.below_ten().min(plain_left(prizes, q));
        charge(twins, q, y);
        lower(prizes, q, y);
        give_one_back(draws, twins, prizes);
        if !same_left(twins, prizes) {
            return false;
        }
    }
    true
}

// Whether twins with these prizes are as in the plain program, also while they are charged.
fn same_twins(
    alloc: Global,
    draws: &mut Draws,
    twins: &mut Twins,
    prizes: &mut [(u32, u64)],
) -> Result<bool, AllocError> {
    let ends = plain_ends(alloc, prizes)?;
    Ok(
        twins.ends() == ends.as_slice()
            && same_left(twins, prizes)
            && same_charges(draws, twins, prizes)
            && same_back(alloc, draws, twins, &ends)?,
    )
}

fn agrees_in(
    alloc: Global,
    draws: &mut Draws,
    instance: &Instance,
    sides: &Sides,
) -> Result<bool, AllocError>
    requires { 1 ≤ instance.now.n }
{
    let mut twins = twins_in(alloc, instance, sides)?;
    let mut prizes = plain_prizes(alloc, instance, sides.branch())?;
    same_twins(alloc, draws, &mut twins, &mut prizes)
}

fn agrees(alloc: Global, seed: u64) -> Result<bool, AllocError> {
    let mut draws = Draws { state: seed };
    let instance = draws.instance(alloc)?;
    let sides = drawn_sides(alloc, &mut draws)?;
    agrees_in(alloc, &mut draws, &instance, &sides)
}

#[test]
fn agrees_with_a_plain_program(rt: HostRuntime) -> Result<(), Fail> {
    for seed in 0..20u64 {
        assert!(rt; agrees(rt.alloc(), seed)?, "with seed {seed}");
    }
    Ok(())
}
