use super::{PRIZES, TRIANGLE, WHEEL, solved};
use std::alloc::{AllocError, Global};
use std::sync::Wait;
use std::sync::atomic::{AtomicU64, Ordering};
use std::test::Fail;
use std::thread::Threads;
use steiner_top::Gate;

/// Counts the nodes that it is shown, as long as each is a new one below 64 and from seat 0.
#[derive(Drop)]
struct CountingGate {
    nodes: AtomicU64,
    /// A bit for each number that was shown.
    seen: AtomicU64,
    strays: AtomicU64,
}

impl CountingGate {
    fn new() -> CountingGate {
        CountingGate {
            nodes: AtomicU64::new(0),
            seen: AtomicU64::new(0),
            strays: AtomicU64::new(0),
        }
    }
}

impl Gate for CountingGate {
    fn at(&self, seat: u32, id: u64) {
        self.nodes.fetch_add(1, Ordering::SeqCst);
        let bit = if id < 64 {
            1u64.wrapping_shl(id as u32)
        } else {
            0
        };
        let seen = self.seen.fetch_or(bit, Ordering::SeqCst);
        if seat != 0 || bit == 0 || seen & bit != 0 {
            self.strays.store(1, Ordering::SeqCst);
        }
    }
}

/// Whether as many nodes are shown as the proof has lines, which are as many as a search has worked on that ended
/// within its budget, each once.
fn shows_each_line<R: Threads + Wait + Sync>(
    rt: &R,
    alloc: Global,
    lines: &str,
    nodes: u64,
    plain: bool,
) -> Result<bool, AllocError> {
    let gate = CountingGate::new();
    let Some(found) = solved(rt, alloc, lines, nodes, plain, &gate)? else {
        return Ok(false);
    };
    let expanded = gate.nodes.load(Ordering::SeqCst);
    let strays = gate.strays.load(Ordering::SeqCst);
    Ok(expanded > 0 && expanded == found.lines as u64 && strays == 0)
}

/// Files and budgets that suffice for them.
const FILES: &[(&str, u64)] = &[(TRIANGLE, 16), (WHEEL, 16), (PRIZES, 8)];

#[test]
fn shows_each_node_to_the_gate_once(rt: HostRuntime) -> Result<(), Fail> {
    for (lines, nodes) in FILES {
        for plain in [true, false] {
            let shown = shows_each_line(&rt, rt.alloc(), lines, *nodes, plain)?;
            assert!(rt; shown, "for {lines}");
        }
    }
    Ok(())
}

/// Whether the wheel isn't proved by so few nodes, and all of them are shown.
fn shows_budget<R: Threads + Wait + Sync>(
    rt: &R,
    alloc: Global,
    budget: u64,
) -> Result<bool, AllocError> {
    let gate = CountingGate::new();
    let Some(found) = solved(rt, alloc, WHEEL, budget, false, &gate)? else {
        return Ok(false);
    };
    Ok(found.dual < found.primal && gate.nodes.load(Ordering::SeqCst) == budget)
}

/// The wheel needs more than one node.
#[test]
fn shows_no_more_nodes_than_the_budget(rt: HostRuntime) -> Result<(), Fail> {
    for budget in [0, 1] {
        assert!(rt; shows_budget(&rt, rt.alloc(), budget)?, "with {budget}");
    }
    Ok(())
}
