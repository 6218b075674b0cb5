use better_trees::Place;

/// What packings are raised for: a place, a root for their cuts, and what they may weigh at most.
#[derive(Clone, Copy)]
pub struct Target<'a> {
    pub place: Place<'a>,
    pub root: u32,
    pub least: u64,
}
