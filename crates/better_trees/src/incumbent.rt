use st_model::Tree;

/// The incumbent: the best tree that is known here, and the least cost known of a tree, which may be another's.
#[derive(Clone, Copy)]
pub struct Incumbent<'a> {
    pub tree: &'a Tree,
    pub cost: u64,
}
