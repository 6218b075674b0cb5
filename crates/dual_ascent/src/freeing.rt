ghost use Rattle.std.specs.Prelude.{◌≡◌, ◌≤◌, false, All, IfOk, OnOk, slice_index_or};
ghost use Rattle.st_model.specs.Branch.{IsVertexSet};
ghost use Rattle.cut_packing.specs.Packing.{base_weight};
ghost use Rattle.dual_ascent.specs.Freed.{without_freed};
ghost use Rattle.dual_ascent.specs.Laws.{IsCharged};
ghost use Rattle.dual_ascent.specs.Left.{AreEndsOf};

use crate::Remainder;
use crate::charging::give_back_cut;
use cut_packing::Packing;
use graph_store::Store;
use st_model::{Listed, Sides};
use std::alloc::{AllocError, Global};

/// Frees the cuts of a packing at whose places a mark is set: what they took of arcs and prizes is
/// given back to what the packing leaves, and what is left of it is the packing of the others. Takes
/// time in what the freed cuts touch, and shares the sets of the others. After want of memory some
/// of the marked cuts are given back.
pub fn free(
    alloc: Global,
    store: &Store,
    branch: &Sides,
    packing: &Packing,
    left: &mut Remainder,
    freed: &[bool],
) -> Result<Packing, AllocError>
    requires charged { IsCharged store.now branch.now packing.now left.old.arcs left.old.twins }
    requires ends { AreEndsOf left.old.arcs left.old.twins }
    requires sets { All (λ c. IsVertexSet store.now.network.n c.set) packing.now.cuts }
    ensures kept { IfOk result (λ P. P ≡ without_freed packing.now freed.now) }
    ensures charged { IfOk result (λ P. IsCharged store.now branch.now P left.new.arcs left.new.twins) }
    ensures ends { OnOk result (AreEndsOf left.new.arcs left.new.twins) }
    ensures root { OnOk result (left.new.arcs.root ≡ left.old.arcs.root) }
    ensures sets { IfOk result (λ P. All (λ c. IsVertexSet store.now.network.n c.set) P.cuts) }
    ensures lighter { IfOk result (λ P.
        base_weight store.now.network branch.now P ≤ base_weight store.now.network branch.now packing.now) }
{
    prove!(left.arcs.vertices() == store.vertices());
    let mut cuts = Vec::new(alloc);
    for (place, cut) in packing.cuts.as_slice().iter().enumerate() {
        if is_marked(freed, place) {
            give_back_cut(&mut left.arcs, &mut left.twins, cut);
        } else {
            cuts.push(cut.shared()?)?;
        }
    }
    Ok(Packing {
        root: packing.root,
        cuts: Listed::of(cuts),
    })
}

// Whether a place has a mark.
fn is_marked(marks: &[bool], place: usize) -> bool
    ensures { result ≡ slice_index_or marks.now place false }
{
    marks.get(place).copied().unwrap_or(false)
}
