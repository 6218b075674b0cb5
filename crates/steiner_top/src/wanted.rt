/// How a file is to be solved: by how many workers, by at most how many nodes, whether the graph is
/// left as it is, and whether nodes may be split at links.
#[derive(Clone, Copy, Debug, PartialEq, Eq)]
pub struct Wanted {
    /// How many workers search.
    pub workers: u32,
    /// How many nodes may be expanded at most.
    pub nodes: u64,
    /// Whether the graph is left as it is, without reductions.
    pub plain: bool,
    /// Whether nodes may be split at links.
    pub links: bool,
}
