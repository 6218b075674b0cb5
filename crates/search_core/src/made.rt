use branching::Node;

/// Where a node is: in a worker's queue or hand, among its fresh halves, left undone by it, split
/// or closed.
#[derive(Clone, Copy, Debug)]
pub enum Place {
    Queue(u32),
    Hand(u32),
    Fresh(u32),
    Left(u32),
    Split,
    Closed,
}

/// A node that was made, where it is, and whether it is claimed.
#[derive(Debug, Drop)]
pub struct Made {
    pub node: Node,
    pub place: Place,
    pub claimed: bool,
}
