use st_model::Listed;

/// One step of a reduction.
#[derive(Debug, Drop)]
pub enum Step {
    /// A vertex goes that pays nothing and has one link at most.
    Pendant(u32),
    /// A vertex goes that pays nothing and has two links; their other ends are linked instead.
    Through(u32),
    /// A required vertex goes with its only link, which every tree uses.
    Forced(u32),
    /// A link goes that a walk over these inner vertices stands in for.
    Detour { a: u32, b: u32, inner: Listed<u32> },
}
