ghost use Rattle.std.specs.Prelude.{◌≡◌, [], ◌∷◌, IfOk};
ghost use Rattle.st_model.specs.Branch.{deciding};

use super::{ascended, cost, first, is_closed_at};
use arborescence::{DiInstance, di_wall};
use st_model::{Branch, Link, Listed, Sides};
use std::alloc::{AllocError, Global};
use std::test::Fail;
use test_instances::Draws;

// A vertex of those that hang on others.
const HANGING: [u32; 4] = [2, 3, 4, 5];

// How many ways there are for each of them to hang on one of 0 to 5.
const WAYS: u32 = 1296;

// A digraph of six vertices, of which the last has no arc, with the root 1 and two terminals.
fn digraph(draws: &mut Draws, alloc: Global) -> Result<DiInstance, AllocError> {
    let arcs: [Link; 12] = [
        draws.link(1, 2),
        draws.link(1, 3),
        draws.link(2, 3),
        draws.link(3, 2),
        draws.link(2, 4),
        draws.link(4, 2),
        draws.link(3, 4),
        draws.link(4, 5),
        draws.link(5, 3),
        draws.link(3, 5),
        draws.link(5, 4),
        draws.link(4, 1),
    ];
    let other = if draws.below_ten() < 5 { 4 } else { 3 };
    DiInstance::build(alloc, 6, 1, &arcs, &[other, 5])
}

// What a vertex hangs on.
fn parent(way: u32, vertex: u32) -> u32 {
    match vertex {
        2 => way % 6,
        3 => way / 6 % 6,
        4 => way / 36 % 6,
        5 => way / 216 % 6,
        _ => 0,
    }
}

// Whether a vertex hangs on the root.
fn hangs(way: u32, vertex: u32) -> bool {
    let mut here = vertex;
    for _step in 0..5 {
        if here == 1 {
            return true;
        }
        here = parent(way, here);
    }
    false
}

// Whether a vertex is on the way from one that is sought to the root.
fn is_used(sought: &[u32], way: u32, vertex: u32) -> bool {
    for start in sought {
        let mut here = *start;
        for _step in 0..5 {
            if here == vertex {
                return true;
            }
            here = parent(way, here);
        }
    }
    false
}

// What the arcs cost by which those that are sought hang on the root; none where one is missing.
fn cost_of(instance: &DiInstance, sought: &[u32], way: u32) -> Option<u64> {
    let mut cost: u64 = 0;
    for vertex in HANGING {
        if is_used(sought, way, vertex) {
            if !hangs(way, vertex) {
                return None;
            }
            cost = cost.saturating_add(instance.arc_cost(parent(way, vertex), vertex)?);
        }
    }
    Some(cost)
}

// What the cheapest arborescence costs that reaches those that are sought, of all ways.
fn least(instance: &DiInstance, sought: &[u32]) -> Option<u64> {
    let mut least: Option<u64> = None;
    for way in 0..WAYS {
        if let Some(cost) = cost_of(instance, sought, way) {
            least = Some(least.map_or(cost, |other| other.min(cost)));
        }
    }
    least
}

// Whether what is found agrees with all ways: a wall where there is none, and else a tree that costs no
// less, and a full packing that weighs no more.
fn agrees(alloc: Global, instance: &DiInstance) -> Result<bool, AllocError> {
    let Some(least) = least(instance, instance.terminals()) else {
        return Ok(di_wall(alloc, instance)?.is_some() && first(alloc, instance)?.is_none());
    };
    let Some(tree) = first(alloc, instance)? else {
        return Ok(false);
    };
    let dear = cost(alloc, instance, &tree)?;
    let bound = ascended(alloc, instance, 1000)?;
    Ok(
        dear.is_some_and(|dear| least <= dear)
            && bound.is_some_and(|bound| bound <= u128::from(least)),
    )
}

// The branch of the trees that reach all vertices but the last.
fn all_but_the_last(alloc: Global) -> Result<Sides, AllocError>
    ensures { IfOk result (λ sides. sides ≡ deciding (2 ∷ 3 ∷ 4 ∷ 5 ∷ []) (6 ∷ [])) }
{
    let inside = Listed::of(Vec::from_slice(alloc, &HANGING)?);
    let outside = Listed::of(Vec::from_slice(alloc, &[6])?);
    Sides::of(alloc, Branch::of(alloc, inside, outside))
}

// Whether that branch is closed as all ways say.
fn closes(alloc: Global, instance: &DiInstance) -> Result<bool, AllocError> {
    if instance.vertices() != 6 || instance.root() != 1 || instance.is_terminal(6) {
        return Ok(false);
    }
    let branch = all_but_the_last(alloc)?;
    let answer = is_closed_at(alloc, instance, &branch, least(instance, &HANGING))?;
    Ok(answer)
}

#[test]
fn drawn_digraphs_are_closed_as_all_ways_say(rt: HostRuntime) -> Result<(), Fail> {
    let mut draws = Draws { state: 26 };
    for _round in 0..12 {
        let instance = digraph(&mut draws, rt.alloc())?;
        assert!(rt; closes(rt.alloc(), &instance)?);
    }
    Ok(())
}

#[test]
fn drawn_digraphs_agree_with_all_ways(rt: HostRuntime) -> Result<(), Fail> {
    let mut draws = Draws { state: 62 };
    for _round in 0..12 {
        let instance = digraph(&mut draws, rt.alloc())?;
        assert!(rt; agrees(rt.alloc(), &instance)?);
    }
    Ok(())
}
