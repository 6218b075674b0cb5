use std::sync::atomic::{AtomicBool, Ordering};

/// Whether a worker has all processors at work, in as many threads as there are workers. Nobody waits for
/// it, and nothing is claimed of it: it says who naps, and not what is found.
#[derive(Drop)]
pub struct Processors {
    are_taken: AtomicBool,
}

impl Processors {
    /// Nobody has them.
    pub fn free() -> Processors {
        Processors {
            are_taken: AtomicBool::new(false),
        }
    }

    /// Takes them, unless another worker has them: whether it did.
    pub fn take(&self) -> bool {
        !self.are_taken.swap(true, Ordering::SeqCst)
    }

    /// Gives them back. Only the worker that took them calls this.
    pub fn give_back(&self) {
        self.are_taken.store(false, Ordering::SeqCst);
    }

    /// Whether some worker has them.
    pub fn are_taken(&self) -> bool {
        self.are_taken.load(Ordering::SeqCst)
    }
}
