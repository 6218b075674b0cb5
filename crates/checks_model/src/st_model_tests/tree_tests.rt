ghost use Rattle.std.specs.Prelude.{◌≡◌, ◌↔◌, ◌≤◌, All, IfOk, IsSome, IsTrue};
ghost use Rattle.st_model.specs.Network.{link};
ghost use Rattle.st_model.specs.Made.{AreConnectedFrom};

use st_model::{Instance, Link, Listed, Need, RegrowError, Tree, is_tree, regrow, thin, tree_cost};
use std::alloc::{AllocError, Global};
use std::test::Fail;

// A triangle 1, 2, 3 of required vertices whose sides cost 4, and its centre 4 at 2 from each.
pub fn triangle(alloc: Global) -> Result<Instance, AllocError>
    ensures { IfOk result (λ i. i.n ≡ 4) }
{
    let links = [
        Link {
            a: 1,
            b: 4,
            cost: 2,
        },
        Link {
            a: 2,
            b: 4,
            cost: 2,
        },
        Link {
            a: 3,
            b: 4,
            cost: 2,
        },
        Link {
            a: 1,
            b: 2,
            cost: 4,
        },
        Link {
            a: 2,
            b: 3,
            cost: 4,
        },
        Link {
            a: 1,
            b: 3,
            cost: 4,
        },
    ];
    let needs = [
        (1, Need::Required),
        (2, Need::Required),
        (3, Need::Required),
    ];
    Instance::build(alloc, 4, &links, &needs)
}

// The tree over the centre from 1.
fn over_the_centre(alloc: Global) -> Result<Tree, AllocError> {
    Ok(Tree {
        start: 1,
        arcs: Listed::of(vec![in alloc; (1, 4), (4, 2), (4, 3)]?),
    })
}

// Whether that tree, grown again from 3, goes over the centre to the others, and costs as much.
fn regrows_from_three(alloc: Global, instance: &Instance) -> Result<bool, RegrowError> {
    let tree = over_the_centre(alloc)?;
    if !is_tree(alloc, instance, &tree)? {
        return Ok(false);
    }
    let regrown = regrow(alloc, instance, &tree, 3)?;
    Ok(
        regrown.start == 3
            && regrown.arcs.as_slice() == [(3, 4), (4, 1), (4, 2)].as_slice()
            && tree_cost(instance, &regrown) == 6,
    )
}

#[test]
fn regrows_at_a_leaf(rt: HostRuntime) -> Result<(), Fail> {
    let instance = triangle(rt.alloc())?;
    assert!(rt; regrows_from_three(rt.alloc(), &instance)?);
    Ok(())
}

// Whether vertex 1 alone isn't grown again from another vertex, since it doesn't reach it.
fn is_refused(alloc: Global, at: u32) -> Result<bool, AllocError> {
    let instance = triangle(alloc)?;
    let tree = Tree {
        start: 1,
        arcs: Listed::of(Vec::new(alloc)),
    };
    let refused = regrow(alloc, &instance, &tree, at).err();
    Ok(refused == Some(RegrowError::NotReached))
}

// Whether that error says so.
fn says_why(alloc: Global) -> Result<bool, AllocError> {
    let message = format!(in alloc; "{}", RegrowError::NotReached)?;
    Ok(message.as_str() == "the tree doesn't reach the vertex")
}

#[test]
fn regrows_only_where_it_reaches(rt: HostRuntime) -> Result<(), Fail> {
    for at in [0, 2, 4, 5] {
        assert!(rt; is_refused(rt.alloc(), at)?, "at {at}");
    }
    assert!(rt; says_why(rt.alloc())?);
    Ok(())
}

fn are_links(instance: &Instance, pairs: &[(u32, u32)]) -> bool
    ensures { IsTrue result ↔ All (λ pair. IsSome (link instance.now.links pair.0 pair.1)) pairs.now }
{
    pairs
        .iter()
        .all(|pair| instance.link_cost(pair.0, pair.1).is_some())
}

// Whether links of the triangle, thinned from a vertex of it, leave these arcs, which cost so much.
fn thins_to(
    alloc: Global,
    links: &[(u32, u32)],
    start: u32,
    arcs: &[(u32, u32)],
    cost: u64,
) -> Result<bool, AllocError>
    requires start { (1 ≤ start) × (start ≤ 4) }
    requires connected { AreConnectedFrom start links.now }
{
    let instance = triangle(alloc)?;
    if !are_links(&instance, links) {
        return Ok(false);
    }
    let tree = thin(alloc, &instance, links, start)?;
    Ok(tree.start == start && tree.arcs.as_slice() == arcs && tree_cost(&instance, &tree) == cost)
}

#[test]
fn thins_the_sides(rt: HostRuntime) -> Result<(), Fail> {
    let sides = [(1, 2), (2, 3), (1, 3)];
    assert!(rt; thins_to(rt.alloc(), &sides, 1, &[(1, 2), (1, 3)], 8)?);
    Ok(())
}

#[test]
fn thins_no_links(rt: HostRuntime) -> Result<(), Fail> {
    assert!(rt; thins_to(rt.alloc(), &[], 2, &[], 0)?);
    Ok(())
}
