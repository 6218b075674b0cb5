/// An arc into some vertex.
#[derive(Clone, Copy, Debug, PartialEq, Eq)]
pub struct Arc {
    /// The vertex that it comes from.
    pub tail: u32,
    /// What remains of its cost.
    pub remaining: u64,
}
