/// A link as its one end sees it: the other end, and the cost.
#[derive(Clone, Copy, Debug, PartialEq, Eq)]
pub struct Half {
    pub to: u32,
    pub cost: u64,
}
