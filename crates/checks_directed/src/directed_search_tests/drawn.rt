use super::{Numbers, searched};
use arborescence::DiInstance;
use st_model::Link;
use std::alloc::{AllocError, Global};
use std::test::Fail;
use test_instances::{Draws, bit};

// A digraph of six vertices, of which the last has no arc, with the root 1 and two terminals.
fn digraph(draws: &mut Draws, alloc: Global) -> Result<DiInstance, AllocError> {
    let arcs: [Link; 10] = [
        draws.link(1, 2),
        draws.link(1, 3),
        draws.link(2, 3),
        draws.link(3, 2),
        draws.link(2, 4),
        draws.link(4, 2),
        draws.link(3, 4),
        draws.link(4, 5),
        draws.link(3, 5),
        draws.link(5, 4),
    ];
    let other = if draws.below_ten() < 5 { 4 } else { 2 };
    DiInstance::build(alloc, 6, 1, &arcs, &[other, 5])
}

// What the arcs of a set lead to from what was reached before. The first arc is the lowest bit of the set.
fn further(arcs: &[Link], set: u32, before: u32) -> u32 {
    let mut reached = before;
    let mut mark: u32 = 1;
    for arc in arcs {
        if set & mark != 0 && reached & bit(arc.a) != 0 {
            reached |= bit(arc.b);
        }
        mark = mark.wrapping_shl(1);
    }
    reached
}

// All that they lead to.
fn reached(instance: &DiInstance, set: u32) -> u32 {
    let mut reached = bit(instance.root());
    for _round in 0..instance.vertices() {
        reached = further(instance.arcs(), set, reached);
    }
    reached
}

// What the arcs of a set cost.
fn cost_of(arcs: &[Link], set: u32) -> u64 {
    let mut cost: u64 = 0;
    let mut mark: u32 = 1;
    for arc in arcs {
        if set & mark != 0 {
            cost = cost.saturating_add(arc.cost);
        }
        mark = mark.wrapping_shl(1);
    }
    cost
}

// What the cheapest set of arcs costs that lead from the root to each terminal.
fn least(instance: &DiInstance) -> Option<u64> {
    let mut least: Option<u64> = None;
    for set in 0..1024 {
        let reached = reached(instance, set);
        let spans = instance
            .terminals()
            .iter()
            .all(|terminal| reached & bit(*terminal) != 0);
        if spans {
            let cost = cost_of(instance.arcs(), set);
            least = Some(least.map_or(cost, |other| other.min(cost)));
        }
    }
    least
}

// Whether what was found agrees with the least cost of all sets of arcs.
fn agrees(found: Option<Numbers>, least: Option<u64>, budget: u64) -> bool {
    match (found, least) {
        (Some(found), Some(least)) => {
            let between = found.dual <= least && least <= found.primal;
            between && found.expanded <= budget && (budget < 16 || found.dual == found.primal)
        }
        (None, None) => true,
        _ => false,
    }
}

// Whether searches within several budgets agree with all sets of arcs; three vertices aren't sought.
fn all_agree(alloc: Global, instance: &DiInstance) -> Result<bool, AllocError> {
    let least = least(instance);
    for budget in [0, 1, 2, 16, 100] {
        let found = searched(alloc, instance, budget)?;
        if !agrees(found, least, budget) {
            return Ok(false);
        }
    }
    Ok(true)
}

#[test]
fn drawn_digraphs_agree_with_all_sets_of_arcs(rt: HostRuntime) -> Result<(), Fail> {
    let mut draws = Draws { state: 71 };
    for _round in 0..12 {
        let instance = digraph(&mut draws, rt.alloc())?;
        assert!(rt; all_agree(rt.alloc(), &instance)?);
    }
    Ok(())
}
