use crate::room::Room;
use better_trees::Place;
use better_trees::by_vertex::at;
use cut_packing::Packing;
use st_model::{Sides, SplitAt};
use std::alloc::{AllocError, Global};

/// The vertices of a branch that have to be outside for a packing of a part of it to fit it: tails of
/// arcs that bear more of its cuts than they cost. Those whose prizes the packing counts are with them.
pub fn needed(
    alloc: Global,
    place: &Place<'_>,
    part: &Sides,
    packing: &Packing,
) -> Result<Vec<SplitAt>, AllocError> {
    let whole = place.whole;
    let vertices = whole.instance.vertices();
    let mut room = Room::of(alloc, &whole.store, &whole.instance, place.branch)?;
    let mut short = vec![in alloc; false; vertices as usize + 1]?;
    for cut in packing.cuts.as_slice() {
        room.charge(cut.set.as_slice(), cut.y, &mut short);
    }
    let mut needed = Vec::new(alloc);
    for before in 0..vertices {
        let vertex = before + 1;
        let is_deleted = part.is_outside(vertex) && !place.branch.is_outside(vertex);
        if is_deleted && (at(&short, vertex, false) || whole.instance.prize(vertex) > 0) {
            needed.push(SplitAt::Vertex(vertex))?;
        }
    }
    Ok(needed)
}
