use crate::effort::Effort;
use std::alloc::Global;

/// With what trees are looked for: who makes threads, an allocator, and how much work there is.
#[derive(Drop)]
pub struct Means<'a, R> {
    pub rt: &'a R,
    pub alloc: Global,
    pub effort: Effort,
}

impl<'a, R> Means<'a, R> {
    /// The same for other work.
    pub fn with(&self, effort: Effort) -> Means<'a, R> {
        Means {
            rt: self.rt,
            alloc: self.alloc,
            effort,
        }
    }

    /// The same in no more than so many threads.
    pub fn within(&self, threads: usize) -> Means<'a, R> {
        let threads = self.effort.threads.min(threads);
        self.with(Effort {
            threads,
            ..self.effort
        })
    }
}
