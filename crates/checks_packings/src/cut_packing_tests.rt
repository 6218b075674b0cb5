ghost use Rattle.std.specs.Prelude.{◌≡◌, ◌<◌, [], length, IfOk, OnOk};
ghost use Rattle.st_model.specs.Branch.{IsBranch, all_trees, with_outside};

mod judge;
mod links;

use crate::told::{branch_of, outside};
use cut_packing::{
    Cut, LoadedArc, LoadedArcs, Packing, SetTable, SharedSet, can_bear, fits, heads_of, is_full,
    lay, named_values, proof_tree_bounds, weak_duality, weight,
};
use judge::{plain_fits, plain_full};
use st_model::{Branch, Instance, Listed, Need, Sides, VertexSet};
use std::alloc::{AllocError, Global};
use std::test::Fail;
use test_instances::{Draws, links_of_triangle};

// The triangle with sides of 4, where the centre pays so much.
fn triangle(alloc: Global, centre: u64) -> Result<Instance, AllocError>
    requires { centre < 100 }
{
    let needs = [
        (1, Need::Required),
        (2, Need::Required),
        (3, Need::Required),
        (4, Need::Pays(centre)),
    ];
    Instance::build(alloc, 4, &links_of_triangle(4), &needs)
}

fn cut(alloc: Global, set: &[u32], q: u32, y: u64) -> Result<Cut, AllocError> {
    Ok(Cut {
        set: SharedSet::of(Vec::from_slice(alloc, set)?)?,
        q,
        y,
    })
}

// The branch of all trees.
fn everything(alloc: Global) -> Result<Sides, AllocError>
    ensures { IfOk result (λ sides. sides ≡ all_trees) }
{
    Sides::of(alloc, Branch::all(alloc))
}

// The branch of the trees that avoid a vertex.
fn avoiding(alloc: Global, vertex: u32) -> Result<Sides, AllocError>
    ensures { IfOk result (λ sides. sides ≡ with_outside all_trees vertex) }
{
    Sides::of(alloc, Branch::all(alloc).with_outside(alloc, vertex)?)
}

// The packing of the triangle's proof, its first cut with a value of its own.
fn packing(alloc: Global, first: u64) -> Result<Packing, AllocError> {
    let cuts = vec![in alloc;
        cut(alloc, &[2], 2, first)?,
        cut(alloc, &[3], 3, 2)?,
        cut(alloc, &[2, 3, 4], 2, 2)?,
    ]?;
    Ok(Packing {
        root: Some(1),
        cuts: Listed::of(cuts),
    })
}

// Whether a packing fits a branch, whether it is full, and what it weighs.
fn judged_in(
    alloc: Global,
    instance: &Instance,
    branch: &Sides,
    packing: &Packing,
) -> Result<(bool, bool, u128), AllocError>
    requires { IsBranch instance.now branch.now }
{
    let fits = fits(alloc, instance, branch, packing)?;
    let is_full = is_full(alloc, instance, branch, packing)?;
    Ok((fits, is_full, weight(instance, branch.branch(), packing)))
}

// The same in the branch of all trees of the triangle where the centre pays so much.
fn judged_with(
    alloc: Global,
    centre: u64,
    packing: &Packing,
) -> Result<(bool, bool, u128), AllocError>
    requires { centre < 100 }
{
    let instance = triangle(alloc, centre)?;
    let branch = branch_of(alloc, &instance, &[])?;
    judged_in(alloc, &instance, &branch, packing)
}

// The same of the packing with this first value, where the centre pays nothing.
fn judged_first(alloc: Global, first: u64) -> Result<(bool, bool, u128), AllocError> {
    judged_with(alloc, 0, &packing(alloc, first)?)
}

#[test]
fn the_triangle_is_packed(rt: HostRuntime) -> Result<(), Fail> {
    for (first, wanted) in [
        (1, (true, false, 5)),
        (2, (true, true, 6)),
        (3, (false, false, 7)),
    ] {
        assert!(rt; judged_first(rt.alloc(), first)? == wanted, "with {first}");
    }
    Ok(())
}

#[test]
fn packings_bound_trees(_rt: HostRuntime) {
    weak_duality();
    proof_tree_bounds();
}

// A packing of one cut.
fn alone(
    alloc: Global,
    root: Option<u32>,
    set: &[u32],
    q: u32,
    y: u64,
) -> Result<Packing, AllocError> {
    let cuts = vec![in alloc; cut(alloc, set, q, y)?]?;
    Ok(Packing {
        root,
        cuts: Listed::of(cuts),
    })
}

// Whether a packing fits a branch of the triangle, where the centre pays 1.
fn fits_triangle(alloc: Global, branch: &Sides, packing: &Packing) -> Result<bool, AllocError> {
    fits(alloc, &triangle(alloc, 1)?, branch, packing)
}

// The same of one cut.
fn fits_alone(
    alloc: Global,
    branch: &Sides,
    root: Option<u32>,
    set: &[u32],
    q: u32,
    y: u64,
) -> Result<bool, AllocError> {
    let packing = alone(alloc, root, set, q, y)?;
    fits_triangle(alloc, branch, &packing)
}

// A root and a cut, by its set, its vertex and its value, that don't fit the branch of all trees.
const UNFIT: &[(Option<u32>, &[u32], u32, u64)] = &[
    (Some(4), &[2, 2], 2, 2),
    (Some(5), &[2, 2], 2, 2),
    (Some(0), &[2, 2], 2, 2),
    (Some(2), &[2, 2], 2, 2),
    (Some(1), &[2, 5], 2, 2),
    (Some(1), &[0, 2], 2, 2),
    (Some(1), &[2, 2], 3, 2),
    (Some(1), &[2, 2], 2, 3),
    (Some(1), &[4, 4], 4, 2),
    (None, &[2, 2], 2, 2),
];

#[test]
fn each_condition_is_needed(rt: HostRuntime) -> Result<(), Fail> {
    for row in UNFIT {
        let (root, set, q, y) = *row;
        assert!(rt; !fits_alone(rt.alloc(), &everything(rt.alloc())?, root, set, q, y)?);
    }
    Ok(())
}

// How a cut is judged whose set names a vertex twice.
fn judged_repeated(alloc: Global) -> Result<(bool, bool, u128), AllocError> {
    judged_with(alloc, 1, &alone(alloc, Some(1), &[2, 4, 2], 2, 2)?)
}

#[test]
fn a_repeated_vertex_counts_once(rt: HostRuntime) -> Result<(), Fail> {
    assert!(rt; judged_repeated(rt.alloc())? == (true, false, 2));
    Ok(())
}

#[test]
fn outside_vertices_are_left_alone(rt: HostRuntime) -> Result<(), Fail> {
    let alloc = rt.alloc();
    for (set, q, y, wanted) in [([2, 4], 2, 4, true), ([4, 2], 4, 0, false)] {
        let fits = fits_alone(alloc, &avoiding(alloc, 4)?, Some(1), &set, q, y)?;
        assert!(rt; fits == wanted, "with {q}");
    }
    Ok(())
}

// An instance of two vertices that aren't joined, of which 2 pays.
fn apart(alloc: Global) -> Result<Instance, AllocError>
    ensures { IfOk result (λ i. i.n ≡ 2) }
{
    Instance::build(alloc, 2, &[], &[(1, Need::Required), (2, Need::Pays(7))])
}

// A packing without cuts.
fn no_cuts(alloc: Global) -> Packing {
    Packing {
        root: None,
        cuts: Listed::of(Vec::new(alloc)),
    }
}

// What no cuts weigh where the vertex that pays is outside.
fn outside_weight(alloc: Global) -> Result<u128, AllocError> {
    let instance = apart(alloc)?;
    let avoided = branch_of(alloc, &instance, &[outside(2)])?;
    Ok(weight(&instance, avoided.branch(), &no_cuts(alloc)))
}

#[test]
fn outside_vertices_pay(rt: HostRuntime) -> Result<(), Fail> {
    assert_eq!(rt; outside_weight(rt.alloc())?, 7);
    Ok(())
}

// What three cuts name of each vertex up to 3.
fn named_up_to_3(alloc: Global) -> Result<Vec<u128>, AllocError> {
    let cuts = [
        cut(alloc, &[2], 2, 3)?,
        cut(alloc, &[2, 3], 2, 1)?,
        cut(alloc, &[3], 3, 2)?,
    ];
    named_values(alloc, 4, &cuts)
}

#[test]
fn values_are_named(rt: HostRuntime) -> Result<(), Fail> {
    assert!(rt; named_up_to_3(rt.alloc())?.as_slice() == [0, 0, 4, 2].as_slice());
    Ok(())
}

// Whether an arc of cost 3 can bear a cut of so much that it enters.
fn bears(alloc: Global, value: u64) -> Result<bool, AllocError> {
    let mut arcs = LoadedArcs::new(alloc, 3)?;
    let (tail, cost, load) = (1, 3, 0);
    arcs.add(2, LoadedArc { tail, cost, load })?;
    let mut set = VertexSet::new(alloc, 3)?;
    set.insert(2)?;
    lay(&mut arcs, &set, value);
    Ok(can_bear(&arcs))
}

#[test]
fn an_arc_bears_what_it_costs(rt: HostRuntime) -> Result<(), Fail> {
    for (value, wanted) in [(2, true), (3, true), (4, false)] {
        assert!(rt; bears(rt.alloc(), value)? == wanted, "with {value}");
    }
    Ok(())
}

// How many heads are listed at 1 and at 2, of an arc to 2 of cost 0 and one back of cost 4.
fn heads_at(alloc: Global) -> Result<[usize; 2], AllocError> {
    let mut arcs = LoadedArcs::new(alloc, 3)?;
    let load = 0;
    arcs.add(
        2,
        LoadedArc {
            tail: 1,
            cost: 0,
            load,
        },
    )?;
    arcs.add(
        1,
        LoadedArc {
            tail: 2,
            cost: 4,
            load,
        },
    )?;
    let heads = heads_of(alloc, &arcs, 3)?;
    Ok([heads.at(1).len(), heads.at(2).len()])
}

#[test]
fn saturated_arcs_have_heads(rt: HostRuntime) -> Result<(), Fail> {
    assert!(rt; heads_at(rt.alloc())? == [1, 0]);
    Ok(())
}

// The numbers of three sets, of which the last is the first again.
fn put_three(table: &mut SetTable) -> Result<[u32; 3], AllocError>
    requires { table.old ≡ [] }
    ensures { OnOk result (length table.new ≡ 2) }
{
    Ok([table.put(&[2])?, table.put(&[3])?, table.put(&[2])?])
}

// Whether the last set has the number of the first, and the second is the one that was put.
fn are_numbered(alloc: Global) -> Result<bool, AllocError> {
    let mut table = SetTable::new(alloc);
    let numbers = put_three(&mut table)?;
    Ok(numbers == [0, 1, 0] && table.set(1) == [3].as_slice())
}

#[test]
fn equal_sets_have_one_number(rt: HostRuntime) -> Result<(), Fail> {
    assert!(rt; are_numbered(rt.alloc())?);
    Ok(())
}

// Some of the numbers from low to high.
fn some_of(alloc: Global, draws: &mut Draws, low: u32, high: u32) -> Result<Vec<u32>, AllocError> {
    let mut some = Vec::new(alloc);
    for v in low..high {
        if draws.below(2) == 0 {
            some.push(v)?;
        }
    }
    Ok(some)
}

// Some of 2, 3 and 4, and maybe a stray vertex.
fn random_set(alloc: Global, draws: &mut Draws) -> Result<Vec<u32>, AllocError> {
    let stray = draws.below(12) as u32;
    let mut set = some_of(alloc, draws, 2, 5)?;
    if stray < 6 {
        set.push(stray)?;
    }
    Ok(set)
}

fn random_cut(alloc: Global, draws: &mut Draws) -> Result<Cut, AllocError> {
    let set = SharedSet::of(random_set(alloc, draws)?)?;
    Ok(Cut {
        set,
        q: 2 + draws.below(3) as u32,
        y: draws.below(3),
    })
}

fn random_packing(alloc: Global, draws: &mut Draws) -> Result<Packing, AllocError> {
    let mut cuts = Vec::new(alloc);
    for _ in 0..draws.below(4) {
        cuts.push(random_cut(alloc, draws)?)?;
    }
    let root = if draws.below(8) == 0 {
        None
    } else {
        Some(1 + draws.below(6) as u32 / 5)
    };
    Ok(Packing {
        root,
        cuts: Listed::of(cuts),
    })
}

fn random_branch(alloc: Global, draws: &mut Draws) -> Result<Sides, AllocError> {
    match draws.below(4) {
        0 => Sides::of(alloc, Branch::all(alloc).with_inside(alloc, 4)?),
        1 => avoiding(alloc, 4),
        2 => avoiding(alloc, 3),
        _ => everything(alloc),
    }
}

// Whether a packing fits and is full: by the calls, and by the plain program.
fn judged_both(
    alloc: Global,
    instance: &Instance,
    branch: &Sides,
    packing: &Packing,
) -> Result<([bool; 2], [bool; 2]), AllocError> {
    let called = [
        fits(alloc, instance, branch, packing)?,
        is_full(alloc, instance, branch, packing)?,
    ];
    let plain = [
        plain_fits(instance, branch.branch(), packing),
        plain_full(instance, branch.branch(), packing),
    ];
    Ok((called, plain))
}

// The same of a random packing in a random branch.
fn judged_random(
    alloc: Global,
    instance: &Instance,
    draws: &mut Draws,
) -> Result<([bool; 2], [bool; 2]), AllocError> {
    let packing = random_packing(alloc, draws)?;
    judged_both(alloc, instance, &random_branch(alloc, draws)?, &packing)
}

// How many random packings fit, and how many are full. Err comes where the plain program says otherwise.
fn judged_alike(alloc: Global, instance: &Instance) -> Result<(u32, u32), Fail> {
    let mut draws = Draws { state: 2027 };
    let mut fitting = 0u32;
    let mut full = 0u32;
    for _ in 0..2000 {
        let ([fit, filled], plain) = judged_random(alloc, instance, &mut draws)?;
        if [fit, filled] != plain {
            return Err(Fail::new("another answer than the plain program's"));
        }
        fitting = fitting.saturating_add(u32::from(fit));
        full = full.saturating_add(u32::from(filled));
    }
    Ok((fitting, full))
}

#[test]
fn random_packings_are_judged_alike(rt: HostRuntime) -> Result<(), Fail> {
    let (fitting, full) = judged_alike(rt.alloc(), &triangle(rt.alloc(), 1)?)?;
    assert!(rt; 100 < fitting && fitting < 1900);
    assert!(rt; 2 < full && full < 1900);
    Ok(())
}

// Whether the last set of some cuts is the triangle's without 1.
fn ends_alike(cuts: &[Cut]) -> bool {
    match cuts.last() {
        Some(cut) => cut.set.as_slice() == [2, 3, 4].as_slice(),
        None => false,
    }
}

// Whether a shared packing fits as well, and has the same last set.
fn shares(alloc: Global) -> Result<bool, AllocError> {
    let shared = packing(alloc, 2)?.shared(alloc)?;
    let (fits, _, _) = judged_with(alloc, 1, &shared)?;
    Ok(fits && ends_alike(shared.cuts.as_slice()))
}

#[test]
fn a_shared_packing_is_the_same(rt: HostRuntime) -> Result<(), Fail> {
    assert!(rt; shares(rt.alloc())?);
    Ok(())
}
