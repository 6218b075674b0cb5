/// Which files are read.
#[derive(Clone, Copy, Debug, PartialEq, Eq)]
pub enum Mode {
    /// Those of links; a line of arcs is refused.
    Plain,
    /// Those of links, and directed ones.
    Any,
}
