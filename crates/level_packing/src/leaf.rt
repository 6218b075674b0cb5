use cut_packing::Packing;

/// How a branch with nothing left to decide is closed.
#[derive(Debug, Drop)]
pub enum Leaf {
    /// A tree that reaches exactly the present vertices, and a packing of its weight.
    Tree(st_model::Tree, Packing),
    /// The present vertices aren't connected: a packing that weighs at least the target.
    Wall(Packing),
}
