//! Records in numbers.
use cut_packing::Packing;
use search_core::Done;
use st_model::SplitAt;

/// The id of a node, where it was split, and the ids of the half that says yes and of the one that
/// says no. A node that was closed has no halves.
#[derive(Clone, Copy, PartialEq, Eq)]
pub struct Note {
    pub id: u64,
    pub halves: Option<(SplitAt, u64, u64)>,
}

/// What a record says, but for its packing.
pub fn note_of(done: &Done) -> Note {
    match done {
        Done::Split {
            id,
            at,
            inside,
            outside,
            ..
        } => Note {
            id: *id,
            halves: Some((*at, *inside, *outside)),
        },
        Done::Close { id, .. } => Note {
            id: *id,
            halves: None,
        },
    }
}

/// The packing of a record.
pub fn packing_of(done: &Done) -> &Packing {
    match done {
        Done::Split { packing, .. } => packing,
        Done::Close { packing, .. } => packing,
    }
}

/// What the cuts of a packing weigh together.
pub fn cuts_weigh(packing: &Packing) -> u64 {
    let mut weight: u64 = 0;
    for cut in packing.cuts.as_slice() {
        weight = weight.saturating_add(cut.y);
    }
    weight
}
