/// A split on the way to a branch, and the half that is gone into.
#[derive(Clone, Copy, Debug, PartialEq, Eq)]
pub enum Turn {
    /// The half with the vertex inside; the other one waits.
    Inside(u32),
    /// The half with the vertex outside; the other one is done with.
    Outside(u32),
    /// The half in which the link is a must, and whether each of its ends came inside by this turn;
    /// the other one waits.
    Used {
        low: u32,
        high: u32,
        low_came: bool,
        high_came: bool,
    },
    /// The half in which the link is barred; the other one is done with.
    Barred(u32, u32),
}
