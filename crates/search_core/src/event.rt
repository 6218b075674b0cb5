use cut_packing::Packing;
use st_model::SplitAt;

/// What a worker does next.
#[derive(Debug, Drop)]
pub enum Event {
    /// It takes a node from a queue.
    Take {
        w: u32,
        id: u64,
    },
    /// It takes one of its fresh halves.
    Pick {
        w: u32,
        id: u64,
    },
    /// It puts one of its fresh halves into its queue.
    Give {
        w: u32,
        id: u64,
    },
    /// It claims the node in its hand, which is refused where the budget is spent.
    Claim {
        w: u32,
    },
    /// It sees the least value.
    See {
        w: u32,
    },
    /// It offers a value.
    Offer {
        w: u32,
        value: u64,
    },
    /// It counts one more open node, before a split.
    Up {
        w: u32,
    },
    /// It splits the node in its hand.
    Split {
        w: u32,
        at: SplitAt,
        inside: u64,
        outside: u64,
        packing: Packing,
    },
    /// It closes the node in its hand.
    Close {
        w: u32,
        packing: Packing,
    },
    /// It counts one open node less, after a close.
    Down {
        w: u32,
    },
    /// It sees how many nodes are open.
    SeeOpen {
        w: u32,
    },
    /// It sees whether the search is halted.
    SeeHalt {
        w: u32,
    },
    /// It halts the search.
    Halt {
        w: u32,
    },
    /// It leaves a node undone.
    Keep {
        w: u32,
        id: u64,
    },
}

/// Why an event can't happen; where several hold, the first one counts.
#[derive(Clone, Copy, Debug, PartialEq, Eq)]
pub enum EventFault {
    /// There is no such worker.
    NoWorker,
    /// The worker holds a node.
    HandFull,
    /// The worker holds no node.
    HandEmpty,
    /// The node isn't where the event needs it.
    NotThere,
    /// The node in hand isn't claimed.
    NotClaimed,
    /// The node in hand is claimed.
    IsClaimed,
    /// A claim of the worker was refused.
    WasRefused,
    /// No claim of the worker was refused.
    NotRefused,
    /// An up or a close waits, or doesn't, against the need.
    OutOfTurn,
    /// The node can't be split at the vertex.
    BadVertex,
    /// An id was made before, or the two are one.
    UsedId,
    /// The packing doesn't fit, or a split's packing is not full or too heavy.
    BadPacking,
    /// The packing weighs less than the value seen.
    TooLight,
    /// The node can't be split at the link: it isn't there, its lower end doesn't come first, an end
    /// is outside, or it is a must or barred already.
    BadLink,
}

/// Why a step changed nothing.
#[derive(Clone, Copy, Debug)]
pub enum StepError {
    Event(EventFault),
    NoMemory,
}
