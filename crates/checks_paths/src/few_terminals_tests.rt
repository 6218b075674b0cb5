ghost use Rattle.std.specs.Prelude.{◌≡◌, ◌≤◌, ◌<◌, All, IfOk};
ghost use Rattle.st_model.specs.Lists.{total};
ghost use Rattle.st_model.specs.Network.{IsVertex, prize};

use few_terminals::{FewFault, few, tables_bound};
use st_model::{Instance, Link, Need, tree_cost};
use std::alloc::{AllocError, Global};
use std::test::Fail;
use test_instances::{Draws, cost_of_set, link, odd_wheel, pair, triangle_with_centre};

mod plain_table;

// What the tree costs that is found, u64::MAX where there is none.
fn cost_found(alloc: Global, instance: &Instance) -> Result<u64, FewFault> {
    match few(alloc, instance)? {
        Some(tree) => Ok(tree_cost(instance, &tree)),
        None => Ok(u64::MAX),
    }
}

// Whether a tree of this cost is found; u64::MAX stands for none.
fn costs(alloc: Global, instance: &Instance, cost: u64) -> bool {
    match cost_found(alloc, instance) {
        Ok(found) => found == cost,
        Err(_) => false,
    }
}

// Whether the instance has this fault.
fn fails(alloc: Global, instance: &Instance, fault: FewFault) -> bool {
    match few(alloc, instance) {
        Ok(_) => false,
        Err(found) => found == fault,
    }
}

// The least that a set of vertices costs which hangs together and has all that are required,
// u64::MAX where there is none: every set is looked at.
fn least_of_all_sets(instance: &Instance) -> u64 {
    let mut least = u64::MAX;
    for set in 1..64 {
        let cost = cost_of_set(instance, set * 2).unwrap_or(u64::MAX);
        least = least.min(cost);
    }
    least
}

// A need of which nothing is paid: required in three of ten cases.
fn unpaid_need(draws: &mut Draws) -> Need
    ensures { prize result ≡ 0 }
{
    match draws.need() {
        Need::Required => Need::Required,
        Need::Pays(_) => Need::Pays(0),
    }
}

// An instance of six vertices with up to ten links of cost 0 to 9, in which nobody pays.
fn drawn(alloc: Global, draws: &mut Draws) -> Result<Instance, AllocError>
    ensures { IfOk result (λ instance. instance.n ≡ 6) }
{
    let links = [
        draws.link(1, 2),
        draws.link(1, 3),
        draws.link(1, 4),
        draws.link(2, 3),
        draws.link(2, 5),
        draws.link(3, 4),
        draws.link(3, 6),
        draws.link(4, 5),
        draws.link(4, 6),
        draws.link(5, 6),
    ];
    let needs = [
        (1, unpaid_need(draws)),
        (2, unpaid_need(draws)),
        (3, unpaid_need(draws)),
        (4, unpaid_need(draws)),
        (5, unpaid_need(draws)),
        (6, unpaid_need(draws)),
    ];
    Instance::build(alloc, 6, &links, &needs)
}

// Whether a drawn instance has a tree of just the least cost of all sets.
fn agrees(alloc: Global, draws: &mut Draws) -> Result<bool, AllocError> {
    let instance = drawn(alloc, draws)?;
    let least = least_of_all_sets(&instance);
    Ok(costs(alloc, &instance, least))
}

#[test]
fn finds_what_the_best_set_costs(rt: HostRuntime) -> Result<(), Fail> {
    let mut draws = Draws { state: 12 };
    for _round in 0..300 {
        let agreed = agrees(rt.alloc(), &mut draws)?;
        assert!(rt; agreed);
    }
    Ok(())
}

// Whether the named instances cost what they are known to cost.
fn named_ones_agree(alloc: Global) -> Result<bool, AllocError> {
    let far = triangle_with_centre(alloc, 4)?;
    let near = triangle_with_centre(alloc, 2)?;
    let wheel = odd_wheel(alloc)?;
    Ok(costs(alloc, &far, 6) && costs(alloc, &near, 4) && costs(alloc, &wheel, 10))
}

// Whether a link of 5 is taken just where both of its ends have to be reached.
fn pairs_agree(alloc: Global) -> Result<bool, AllocError> {
    let both = pair(alloc, Need::Required, Need::Required)?;
    let one = pair(alloc, Need::Required, Need::Pays(0))?;
    let none = pair(alloc, Need::Pays(0), Need::Pays(0))?;
    Ok(costs(alloc, &both, 5) && costs(alloc, &one, 0) && costs(alloc, &none, 0))
}

#[test]
fn finds_trees_of_known_cost(rt: HostRuntime) -> Result<(), Fail> {
    tables_bound();
    let named = named_ones_agree(rt.alloc())?;
    assert!(rt; named);
    let pairs = pairs_agree(rt.alloc())?;
    assert!(rt; pairs);
    Ok(())
}

// A row of fourteen vertices with links at 3, of which the first eleven have to be reached.
fn row(alloc: Global, twelfth: Need, next: Need, last: Need) -> Result<Instance, AllocError>
    requires twelfth { prize twelfth ≤ 100 }
    requires next { prize next ≤ 100 }
    requires last { prize last ≤ 100 }
{
    let links = [
        link(1, 2, 3),
        link(2, 3, 3),
        link(3, 4, 3),
        link(4, 5, 3),
        link(5, 6, 3),
        link(6, 7, 3),
        link(7, 8, 3),
        link(8, 9, 3),
        link(9, 10, 3),
        link(10, 11, 3),
        link(11, 12, 3),
        link(12, 13, 3),
        link(13, 14, 3),
    ];
    let needs = [
        (1, Need::Required),
        (2, Need::Required),
        (3, Need::Required),
        (4, Need::Required),
        (5, Need::Required),
        (6, Need::Required),
        (7, Need::Required),
        (8, Need::Required),
        (9, Need::Required),
        (10, Need::Required),
        (11, Need::Required),
        (12, twelfth),
        (13, next),
        (14, last),
    ];
    Instance::build(alloc, 14, &links, &needs)
}

// So many vertices with these links, of which the first twelve have to be reached.
fn twelve_of(alloc: Global, vertices: u32, links: &[Link]) -> Result<Instance, AllocError>
    requires low { 12 ≤ vertices }
    requires high { vertices ≤ 1000000 }
    requires ends { All (λ l. IsVertex 12 l.a × IsVertex 12 l.b) links.now }
    requires cheap { total (λ l. l.cost) links.now < 100 }
{
    let needs = [
        (1, Need::Required),
        (2, Need::Required),
        (3, Need::Required),
        (4, Need::Required),
        (5, Need::Required),
        (6, Need::Required),
        (7, Need::Required),
        (8, Need::Required),
        (9, Need::Required),
        (10, Need::Required),
        (11, Need::Required),
        (12, Need::Required),
    ];
    Instance::build(alloc, vertices, links, &needs)
}

// Whether the row costs 33 where its first twelve have to be reached.
fn twelve_are_few(alloc: Global) -> Result<bool, AllocError> {
    let twelve = row(alloc, Need::Required, Need::Pays(0), Need::Pays(0))?;
    Ok(costs(alloc, &twelve, 33))
}

// Whether it has too many terminals where thirteen have to be, also where one more pays.
fn thirteen_are_many(alloc: Global) -> Result<bool, AllocError> {
    let thirteen = row(alloc, Need::Required, Need::Required, Need::Pays(0))?;
    let also = row(alloc, Need::Required, Need::Required, Need::Pays(4))?;
    Ok(fails(alloc, &thirteen, FewFault::TooMany) && fails(alloc, &also, FewFault::TooMany))
}

// Whether a vertex that pays is a fault where twelve have to be reached.
fn a_prize_is_a_fault(alloc: Global) -> Result<bool, AllocError> {
    let pays = row(alloc, Need::Required, Need::Pays(4), Need::Pays(0))?;
    Ok(fails(alloc, &pays, FewFault::Prizes))
}

// Whether twelve terminals are too many cells at 16,385 vertices, and can't be reached without a link.
fn cells_are_counted(alloc: Global) -> Result<bool, AllocError> {
    let large = twelve_of(alloc, 16_385, &[])?;
    let small = twelve_of(alloc, 12, &[])?;
    Ok(fails(alloc, &large, FewFault::TooLarge) && costs(alloc, &small, u64::MAX))
}

// Whether a tree is found where the table of twelve terminals is as large as it may be.
fn the_largest_is_filled(alloc: Global) -> Result<bool, AllocError> {
    let links = [
        link(1, 2, 3),
        link(2, 3, 3),
        link(3, 4, 3),
        link(4, 5, 3),
        link(5, 6, 3),
        link(6, 7, 3),
        link(7, 8, 3),
        link(8, 9, 3),
        link(9, 10, 3),
        link(10, 11, 3),
        link(11, 12, 3),
    ];
    let large = twelve_of(alloc, 16_384, &links)?;
    Ok(costs(alloc, &large, 33))
}

// Whether no tree is found where links join six of twelve terminals, and the other six.
fn parts_have_no_tree(alloc: Global) -> Result<bool, AllocError> {
    let links = [
        link(1, 2, 3),
        link(2, 3, 3),
        link(3, 4, 3),
        link(4, 5, 3),
        link(5, 6, 3),
        link(7, 8, 3),
        link(8, 9, 3),
        link(9, 10, 3),
        link(10, 11, 3),
        link(11, 12, 3),
    ];
    let parts = twelve_of(alloc, 16_384, &links)?;
    Ok(costs(alloc, &parts, u64::MAX))
}

#[test]
fn finds_no_tree_of_two_parts(rt: HostRuntime) -> Result<(), Fail> {
    let none = parts_have_no_tree(rt.alloc())?;
    assert!(rt; none);
    Ok(())
}

#[test]
fn fills_the_largest_table_of_twelve(rt: HostRuntime) -> Result<(), Fail> {
    let filled = the_largest_is_filled(rt.alloc())?;
    assert!(rt; filled);
    Ok(())
}

#[test]
fn tells_faults_in_their_order(rt: HostRuntime) -> Result<(), Fail> {
    let alloc = rt.alloc();
    let few_enough = twelve_are_few(alloc)?;
    assert!(rt; few_enough);
    let many = thirteen_are_many(alloc)?;
    assert!(rt; many);
    let paid = a_prize_is_a_fault(alloc)?;
    assert!(rt; paid);
    let counted = cells_are_counted(alloc)?;
    assert!(rt; counted);
    Ok(())
}

#[test]
fn faults_are_named(rt: HostRuntime) -> Result<(), Fail> {
    assert_eq!(rt; FewFault::TooLarge.code(), 3);
    assert_eq!(rt; FewFault::Prizes.name(), "Prizes");
    Ok(())
}
