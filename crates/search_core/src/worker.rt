use crate::{End, Records};

/// What is known of a worker.
#[derive(Debug, Drop)]
pub struct Worker {
    /// The id of the node in its hand.
    pub hand: Option<u64>,
    /// The least value as it saw it last.
    pub seen: u64,
    /// The least value that it offered.
    pub offered: u64,
    /// Whether a claim of its was refused.
    pub refused: bool,
    /// Whether an up of its waits for its split.
    pub up: bool,
    /// How many closes of its wait for their down.
    pub closes: u64,
    pub done: Records,
    pub end: End,
}
