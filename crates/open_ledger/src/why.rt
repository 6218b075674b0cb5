/// Why a seat halted.
#[derive(Debug, Clone, Copy, PartialEq, Eq, Drop)]
pub enum Why {
    /// A claim of the seat was refused.
    Refused,
    /// The worker in the seat was refused memory.
    Memory,
}
