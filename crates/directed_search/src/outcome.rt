use log_format::Log;
use st_model::Tree;

/// What a search of a directed instance gave.
#[derive(Debug, Drop)]
pub enum DiOutcome {
    /// A tree of cost `primal`, and that no tree costs less than `dual`; how many nodes were expanded.
    Found {
        tree: Tree,
        primal: u64,
        dual: u64,
        expanded: u64,
        certificate: Log,
    },
    /// There is no tree.
    NoTree {
        certificate: Log,
    },
}
