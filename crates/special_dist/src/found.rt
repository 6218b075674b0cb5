/// What a search for a detour finds.
#[derive(Debug, Drop)]
pub enum Found {
    /// The inner vertices of one.
    Detour(Vec<u32>),
    /// There is none.
    Nothing,
    /// The search went on for as long as it was allowed to.
    GaveUp,
}
