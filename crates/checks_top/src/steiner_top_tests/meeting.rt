use super::{WHEEL, solution_of, text_of};
use std::alloc::{AllocError, Global};
use std::sync::Wait;
use std::sync::atomic::{AtomicU64, Ordering};
use std::test::Fail;
use std::thread;
use std::thread::Threads;
use steiner_top::{Gate, Wanted, solve_bytes};

/// Holds the first seat that comes with a half until another seat comes with another half.
#[derive(Drop)]
struct MeetingGate {
    /// The seat that came first and 1, or 0 where none came.
    first: AtomicU64,
    met: AtomicU64,
}

impl MeetingGate {
    fn new() -> MeetingGate {
        MeetingGate {
            first: AtomicU64::new(0),
            met: AtomicU64::new(0),
        }
    }

    fn has_met(&self) -> bool {
        self.met.load(Ordering::SeqCst) == 1
    }

    fn wait(&self) {
        for _ in 0..10_000_000 {
            if self.has_met() {
                return;
            }
            thread::yield_now();
        }
    }
}

impl Gate for MeetingGate {
    fn at(&self, seat: u32, id: u64) {
        if id == 0 {
            return;
        }
        let mine = u64::from(seat) + 1;
        match self
            .first
            .compare_exchange(0, mine, Ordering::SeqCst, Ordering::SeqCst)
        {
            Ok(_) => self.wait(),
            Err(first) => {
                if first != mine {
                    self.met.store(1, Ordering::SeqCst);
                }
            }
        }
    }
}

/// By two workers, as it is.
const BY_TWO: Wanted = Wanted {
    workers: 2,
    nodes: 1_000,
    plain: true,
    links: false,
};

/// Whether two workers share the halves of the wheel's first node, and find the least cost.
fn meets<R: Threads + Wait + Sync>(rt: &R, alloc: Global) -> Result<bool, AllocError> {
    let text = text_of(alloc, WHEEL)?;
    let gate = MeetingGate::new();
    let Ok(outcome) = solve_bytes(rt, alloc, &text, BY_TWO, &gate) else {
        return Ok(false);
    };
    Ok(gate.has_met() && solution_of(&outcome).map(|found| found.primal) == Some(10))
}

#[test]
fn two_share_the_halves(rt: HostRuntime) -> Result<(), Fail> {
    assert!(rt; meets(&rt, rt.alloc())?);
    Ok(())
}
