// A vertex whose distance is known.
#[derive(Clone, Copy, Debug)]
pub struct Settled {
    pub cost: u64,
    pub vertex: u32,
    // The place of the vertex that the path comes from, or this place or a later one where the
    // vertex is a source.
    pub before: u32,
}
