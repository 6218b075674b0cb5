/// Learns of each node of the search before it is worked on. It changes no answer.
pub trait Gate: Sync {
    /// The worker in this seat has taken the node; nodes are numbered from 0 as they are made.
    fn at(&self, seat: u32, id: u64);
}

/// Lets each node through at once.
#[derive(Debug, Clone, Copy)]
pub struct OpenGate;

impl Gate for OpenGate {
    fn at(&self, _seat: u32, _id: u64) {}
}
