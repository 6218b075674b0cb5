use cut_packing::Packing;
use st_model::SplitAt;

/// What was done with a node, under its id: it was split into two halves, the one that says yes
/// and the one that says no, on the strength of a packing, or closed by a packing.
#[derive(Debug, Drop)]
pub enum Done {
    Split {
        id: u64,
        at: SplitAt,
        inside: u64,
        outside: u64,
        packing: Packing,
    },
    Close {
        id: u64,
        packing: Packing,
    },
}

/// Why a worker ended: no node was left undone, its claim was refused, or it saw that the search
/// was halted.
#[derive(Clone, Copy, Debug)]
pub enum End {
    OpenZero,
    ClaimRefused,
    HaltSeen,
}
