use std::sync::atomic::{AtomicU64, Ordering};
use std::thread;
use worker_loop::Gate;

// Counts the nodes that it is shown, as long as each is a new one below 64 and from one of so many
// seats.
#[derive(Drop)]
pub struct CountingGate {
    seats: u32,
    nodes: AtomicU64,
    // A bit for each number that was shown.
    seen: AtomicU64,
    strays: AtomicU64,
}

impl CountingGate {
    pub fn new(seats: u32) -> CountingGate {
        CountingGate {
            seats,
            nodes: AtomicU64::new(0),
            seen: AtomicU64::new(0),
            strays: AtomicU64::new(0),
        }
    }

    // How many nodes it was shown, if none came twice.
    pub fn count(&self) -> Option<u64> {
        if self.strays.load(Ordering::SeqCst) == 0 {
            Some(self.nodes.load(Ordering::SeqCst))
        } else {
            None
        }
    }
}

impl Gate for CountingGate {
    fn at(&self, seat: u32, id: u64) {
        self.nodes.fetch_add(1, Ordering::SeqCst);
        let bit = if id < 64 {
            1u64.wrapping_shl(id as u32)
        } else {
            0
        };
        let seen = self.seen.fetch_or(bit, Ordering::SeqCst);
        if seat >= self.seats || bit == 0 || seen & bit != 0 {
            self.strays.store(1, Ordering::SeqCst);
        }
    }
}

// Holds the first node but the root until another seat comes with one.
#[derive(Drop)]
pub struct MeetingGate {
    // The seat that came first and 1, or 0 where none came.
    first: AtomicU64,
    met: AtomicU64,
}

impl MeetingGate {
    pub fn new() -> MeetingGate {
        MeetingGate {
            first: AtomicU64::new(0),
            met: AtomicU64::new(0),
        }
    }

    // Whether two seats met.
    pub fn has_met(&self) -> bool {
        self.met.load(Ordering::SeqCst) == 1
    }
}

impl Gate for MeetingGate {
    fn at(&self, seat: u32, id: u64) {
        if id == 0 {
            return;
        }
        let mine = u64::from(seat) + 1;
        match self
            .first
            .compare_exchange(0, mine, Ordering::SeqCst, Ordering::SeqCst)
        {
            Ok(_) => {
                for _ in 0..10_000_000 {
                    if self.has_met() {
                        return;
                    }
                    thread::yield_now();
                }
            }
            Err(first) => {
                if first != mine {
                    self.met.store(1, Ordering::SeqCst);
                }
            }
        }
    }
}
