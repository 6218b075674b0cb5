use cut_packing::Packing;

/// How a branch of a directed instance with nothing left to decide is closed.
#[derive(Debug, Drop)]
pub enum DiLeaf {
    /// A tree that reaches exactly the present vertices, and a packing of its weight.
    Tree(st_model::Tree, Packing),
    /// The root doesn't reach all present vertices: a packing that weighs at least the target.
    Wall(Packing),
}
