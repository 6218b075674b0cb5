/// What a number of a file counts.
#[derive(Clone, Copy, Debug, PartialEq, Eq)]
pub enum Scale {
    /// Wholes, as in a file without decimals.
    Whole,
    /// Millionths of a whole.
    Millionths,
}
