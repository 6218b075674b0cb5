ghost use Rattle.std.specs.Prelude.{◌≡◌, [], ◌∷◌, false, filter, IfOk, OnOk, slice_index_or};
ghost use Rattle.st_model.specs.Branch.{IsVertexSet};
ghost use Rattle.st_model.specs.Lists.{has};
ghost use Rattle.st_model.specs.Network.{IsVertex};

use super::drawn::{Case, draw_case, draw_set, holds};
use super::plain::{
    Table, least_remaining, lower, plain_arcs_into, plain_entering, plain_kind, plain_neighbours,
    plain_remaining, plain_table, raise,
};
use super::{charge, give_back};
use bidirected_form::Arcs;
use graph_store::Store;
use st_model::{Branch, Listed, Sides};
use std::alloc::{AllocError, Global};
use std::test::Fail;
use test_instances::Draws;

// The vertices of 1 to 6 that have a mark, ascending.
fn members(alloc: Global, set: &[bool]) -> Result<Vec<u32>, AllocError>
    ensures { IfOk result (λ list. list.items
        ≡ filter (λ v. slice_index_or set.now v false) (1 ∷ 2 ∷ 3 ∷ 4 ∷ 5 ∷ 6 ∷ [])) }
{
    [1, 2, 3, 4, 5, 6u32]
        .iter()
        .copied()
        .filter(|v| holds(set, *v))
        .collect(alloc)
}

fn vertex_set(alloc: Global, set: &[bool]) -> Result<Vec<u32>, AllocError>
    ensures { IfOk result (λ list. IsVertexSet 6 list.items) }
{
    Ok(members(alloc, set)?)
}

fn remove_all(store: &mut Store, removed: &[bool])
    requires { store.old.network.n ≡ 6 }
    ensures { store.new.network.n ≡ 6 }
{
    for before in 0..6u32 {
        if holds(removed, before + 1) {
            store.remove_vertex(before + 1);
        }
    }
}

fn sides_of(alloc: Global, case: &Case) -> Result<Sides, AllocError> {
    let branch = Branch::of(
        alloc,
        Listed::of(members(alloc, &case.inside)?),
        Listed::of(members(alloc, &case.outside)?),
    );
    Sides::of(alloc, branch)
}

fn arcs_of(alloc: Global, case: &Case, root: u32) -> Result<Arcs, AllocError>
    requires count { case.now.instance.n ≡ 6 }
    requires root { IsVertex 6 root }
    ensures { IfOk result (λ arcs. arcs.n ≡ 6) }
{
    let mut store = Store::of(alloc, &case.instance)?;
    remove_all(&mut store, &case.removed);
    let sides = sides_of(alloc, case)?;
    Arcs::of(alloc, &store, &sides, root)
}

fn same_kinds(case: &Case, arcs: &Arcs) -> bool
    requires { arcs.now.n ≡ 6 }
{
    for before in 0..6u32 {
        if arcs.kind(before + 1) != plain_kind(case, before + 1) {
            return false;
        }
    }
    true
}

fn same_arcs_into(alloc: Global, arcs: &Arcs, table: &Table) -> Result<bool, AllocError>
    requires { arcs.now.n ≡ 6 }
{
    for before in 0..6u32 {
        let plain = plain_arcs_into(alloc, table, before + 1)?;
        let tails = plain_neighbours(alloc, table, before + 1)?;
        if arcs.arcs_into(before + 1) != plain.as_slice()
            || arcs.neighbours(before + 1) != tails.as_slice()
        {
            return Ok(false);
        }
    }
    Ok(true)
}

fn same_remaining(arcs: &Arcs, table: &Table) -> bool {
    for place in 0..64u32 {
        let (u, v) = (place / 8, place % 8);
        if arcs.remaining(u, v) != plain_remaining(table, u, v) {
            return false;
        }
    }
    true
}

fn same_entering(
    alloc: Global,
    arcs: &mut Arcs,
    table: &Table,
    set: &[bool],
) -> Result<bool, AllocError>
    requires { arcs.old.n ≡ 6 }
    ensures { arcs.new ≡ arcs.old }
{
    let list = vertex_set(alloc, set)?;
    let plain = plain_entering(alloc, table, set)?;
    let found = arcs.entering(alloc, &list)?;
    Ok(found.as_slice() == plain.as_slice())
}

// Charges a set without the root in both, as much as its arcs bear but at most so much.
fn charge_both(
    alloc: Global,
    arcs: &mut Arcs,
    table: &mut Table,
    set: &[bool],
    most: u64,
) -> Result<(), AllocError>
    requires { arcs.old.n ≡ 6 }
    ensures { arcs.new.n ≡ 6 }
{
    let list = vertex_set(alloc, set)?;
    let plain = plain_entering(alloc, table, set)?;
    let y = least_remaining(table, &plain).min(most);
    lower(table, &plain, y);
    if !list.contains(&arcs.root()) {
        charge(alloc, arcs, &list, y)?;
    }
    Ok(())
}

// Gives so much back to a set in both.
fn give_both(
    alloc: Global,
    arcs: &mut Arcs,
    table: &mut Table,
    set: &[bool],
    y: u64,
) -> Result<(), AllocError>
    requires { arcs.old.n ≡ 6 }
    ensures { arcs.new.n ≡ 6 }
{
    let list = vertex_set(alloc, set)?;
    let plain = plain_entering(alloc, table, set)?;
    raise(table, &plain, y);
    give_back(alloc, arcs, &list, y)
}

fn without(mut set: [bool; 7], vertex: u32) -> [bool; 7] {
    if let Some(mark) = set.get_mut(vertex as usize) {
        *mark = false;
    }
    set
}

// Charges a drawn set and gives back to one; whether all is as in the plain program before and after.
fn same_turn(
    alloc: Global,
    draws: &mut Draws,
    arcs: &mut Arcs,
    table: &mut Table,
) -> Result<bool, AllocError>
    requires { arcs.old.n ≡ 6 }
    ensures { arcs.new.n ≡ 6 }
{
    if !same_entering(alloc, arcs, table, &draw_set(draws, 5))? {
        return Ok(false);
    }
    let set = without(draw_set(draws, 4), arcs.root());
    charge_both(alloc, arcs, table, &set, draws.below_ten())?;
    give_both(alloc, arcs, table, &draw_set(draws, 4), draws.below(3))?;
    Ok(same_remaining(arcs, table) && same_arcs_into(alloc, arcs, table)?)
}

// Whether arcs are as in the plain program, also after each of six turns.
fn same_turns(
    alloc: Global,
    draws: &mut Draws,
    arcs: &mut Arcs,
    table: &mut Table,
) -> Result<bool, AllocError>
    requires { arcs.old.n ≡ 6 }
    ensures { arcs.new.n ≡ 6 }
{
    if !same_remaining(arcs, table) || !same_arcs_into(alloc, arcs, table)? {
        return Ok(false);
    }
    for _turn in 0..6 {
        if !same_turn(alloc, draws, arcs, table)? {
            return Ok(false);
        }
    }
    Ok(true)
}

// Whether a copy is as in the plain program.
fn same_copy(
    alloc: Global,
    case: &Case,
    arcs: &Arcs,
    table: &Table,
    root: u32,
) -> Result<bool, AllocError>
    requires { arcs.now.n ≡ 6 }
{
    let copy = arcs.copied(alloc)?;
    Ok(
        same_kinds(case, &copy)
            && same_remaining(&copy, table)
            && copy.root() == root
            && copy.vertices() == 6,
    )
}

// Whether a case, six turns with it, and a copy of it are as in the plain program.
fn same_case(alloc: Global, draws: &mut Draws, case: &Case) -> Result<bool, AllocError>
    requires { case.now.instance.n ≡ 6 }
{
    let root = draws.vertex();
    let mut arcs = arcs_of(alloc, case, root)?;
    let mut table = plain_table(case);
    if !same_turns(alloc, draws, &mut arcs, &mut table)? {
        return Ok(false);
    }
    same_copy(alloc, case, &arcs, &table, root)
}

fn agrees(alloc: Global, seed: u64) -> Result<bool, AllocError> {
    let mut draws = Draws { state: seed };
    let case = draw_case(alloc, &mut draws)?;
    same_case(alloc, &mut draws, &case)
}

#[test]
fn agrees_with_a_plain_program(rt: HostRuntime) -> Result<(), Fail> {
    for seed in 0..20u64 {
        assert!(rt; agrees(rt.alloc(), seed)?, "with seed {seed}");
    }
    Ok(())
}
