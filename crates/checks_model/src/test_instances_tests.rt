ghost use Rattle.std.specs.Prelude.{◌<◌, ◌≤◌};
ghost use Rattle.st_model.specs.Network.{IsVertex};

use st_model::{Instance, Link, Listed, Need, Tree, is_tree, tree_cost};
use std::alloc::{AllocError, Global};
use std::test::Fail;
use test_instances::{
    Draws, bit, cost_of_set, link, links_of_triangle, odd_wheel, pair, triangle_with_centre,
};

// The sides and the ways to the centre, and what each costs.
const COSTS: &[(u32, u32, u64)] = &[
    (1, 2, 5),
    (3, 2, 5),
    (1, 3, 5),
    (1, 4, 2),
    (2, 4, 2),
    (4, 3, 2),
];

// Whether these are the links of an instance.
fn has_costs(instance: &Instance) -> bool {
    for row in COSTS {
        let (a, b, cost) = *row;
        if instance.link_cost(a, b) != Some(cost) {
            return false;
        }
    }
    instance.links().len() == links_of_triangle(5).len()
}

// Whether the way over the centre is a tree of an instance, and costs 6.
fn has_star(alloc: Global, instance: &Instance) -> Result<bool, AllocError> {
    let star = Tree {
        start: 1,
        arcs: Listed::of(vec![in alloc; (1, 4), (4, 2), (4, 3)]?),
    };
    Ok(is_tree(alloc, instance, &star)? && tree_cost(instance, &star) == 6)
}

#[test]
fn has_a_centre(rt: HostRuntime) -> Result<(), Fail> {
    let instance = triangle_with_centre(rt.alloc(), 5)?;
    assert!(rt; has_costs(&instance));
    assert!(rt; instance.need(3) == Need::Required && instance.need(4) == Need::Pays(0));
    assert!(rt; has_star(rt.alloc(), &instance)?);
    Ok(())
}

// Whether an instance has only this link, and vertices of which the first is required and the second pays 3.
fn is_pair(instance: &Instance, only: Link) -> bool
    requires { 2 ≤ instance.now.n }
{
    instance.links() == [only].as_slice()
        && instance.need(1) == Need::Required
        && instance.need(2) == Need::Pays(3)
}

#[test]
fn joins_a_pair(rt: HostRuntime) -> Result<(), Fail> {
    let only = Link {
        a: 1,
        b: 2,
        cost: 5,
    };
    assert!(rt; is_pair(&pair(rt.alloc(), Need::Required, Need::Pays(3))?, only));
    assert!(rt; link(1, 2, 5) == only);
    Ok(())
}

// All vertices, all but 4, all but the required 5, and the required ones alone, which no link joins.
#[test]
fn weighs_sets_of_an_odd_wheel(rt: HostRuntime) -> Result<(), Fail> {
    let wheel = odd_wheel(rt.alloc())?;
    let all: u32 = 254;
    assert!(rt; cost_of_set(&wheel, all) == Some(12));
    assert!(rt; cost_of_set(&wheel, all & !bit(4)) == Some(10));
    assert!(rt; cost_of_set(&wheel, all & !bit(5)).is_none());
    assert!(rt; cost_of_set(&wheel, 226).is_none());
    Ok(())
}

// Whether these are the next numbers that are drawn below a limit.
fn are_drawn(draws: &mut Draws, limit: u64, wanted: &[u64]) -> bool
    requires { 0 < limit }
{
    for want in wanted {
        if draws.below(limit) != *want {
            return false;
        }
    }
    true
}

// Whether these are the next ones below ten.
fn are_digits(draws: &mut Draws, wanted: &[u64]) -> bool {
    for want in wanted {
        if draws.below_ten() != *want {
            return false;
        }
    }
    true
}

// Whether these are the next vertices.
fn are_vertices(draws: &mut Draws, wanted: &[u32]) -> bool {
    for want in wanted {
        if draws.vertex() != *want {
            return false;
        }
    }
    true
}

// From state 1, by the recurrence in exact arithmetic.
#[test]
fn draws_the_same_again(rt: HostRuntime) -> Result<(), Fail> {
    let mut draws = Draws { state: 1 };
    assert!(rt; are_digits(&mut draws, &[4, 3, 6, 0, 4, 5, 0, 2]));
    draws.state = 1;
    assert!(rt; are_drawn(&mut draws, 1000, &[774, 153, 196]));
    assert!(rt; are_vertices(&mut draws, &[1, 1, 6]));
    Ok(())
}

// Whether a link is drawn at this cost, and then this need.
fn is_followed(draws: &mut Draws, wanted: Link, need: Need) -> bool
    requires a { IsVertex 6 wanted.a }
    requires b { IsVertex 6 wanted.b }
{
    draws.link(wanted.a, wanted.b) == wanted && draws.need() == need
}

// Whether a drawn instance has six vertices, and a link of this cost between the first two.
fn starts_with(instance: &Instance, cost: u64) -> bool {
    instance.vertices() == 6 && instance.link_cost(1, 2) == Some(cost)
}

// The first numbers from state 1 are 4, 3, 6, 0, 4, 5, 0 and 2.
#[test]
fn draws_what_the_numbers_say(rt: HostRuntime) -> Result<(), Fail> {
    let mut draws = Draws { state: 1 };
    assert!(rt; is_followed(&mut draws, link(1, 2, 3), Need::Pays(0)));
    assert!(rt; is_followed(&mut draws, link(3, 4, 5), Need::Required));
    draws.state = 1;
    assert!(rt; starts_with(&draws.instance(rt.alloc())?, 3));
    Ok(())
}
