// How an entry came about: it is a terminal alone, goes along a link from the entry at a place, or
// joins two.
#[derive(Clone, Copy, Debug)]
pub enum Way {
    Alone,
    Along(u32),
    Joined(u32, u32),
}

// A tree from a vertex. Which terminals it reaches and what it costs follows from its way and the
// entries before it, so neither is kept.
#[derive(Clone, Copy, Debug)]
pub struct Entry {
    pub vertex: u32,
    pub way: Way,
}
