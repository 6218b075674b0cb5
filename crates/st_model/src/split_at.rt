/// Where a branch is split into two halves: at a vertex, which one half reaches and the other
/// avoids, or at the link between two vertices, the lower first, which one half uses and the other
/// does without.
#[derive(Clone, Copy, Debug, PartialEq, Eq)]
pub enum SplitAt {
    Vertex(u32),
    Link(u32, u32),
}
