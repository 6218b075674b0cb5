/// What a vertex is to a tree of the branch.
#[derive(Clone, Copy, Debug, PartialEq, Eq)]
pub enum VertexKind {
    /// It isn't reached.
    Outside,
    /// It is reached.
    Must,
    /// It is reached, or this is paid for it.
    May(u64),
}
