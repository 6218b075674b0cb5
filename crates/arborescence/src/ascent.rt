use cut_packing::Packing;

/// How a directed ascent ended, with its packing.
#[derive(Debug, Drop)]
pub enum DiAscent {
    /// The packing weighs less than the target, and no cut can be added.
    Full(Packing),
    /// The packing weighs at least the target.
    Reached(Packing),
}
