use bidirected_form::Arcs;
use st_model::{Branch, SplitAt};
use std::alloc::{AllocError, Global};

// How many links are barred by a plan, at most.
const MOST_BARRED: usize = 20;

/// Links that no tree cheaper than the least cost known uses: what a full packing leaves of both their arcs
/// is as much as it lacks, so where one of them is a must it weighs enough. Of these the ones of which least
/// is left, since they are next to hinder it; none where the branch bars many for the vertices that it has
/// decided. Nothing is claimed of them: a split is judged as any other.
pub fn too_dear(
    alloc: Global,
    arcs: &Arcs,
    branch: &Branch,
    lack: u64,
) -> Result<Vec<SplitAt>, AllocError> {
    let mut places = Vec::new(alloc);
    if bars_many(branch) {
        return Ok(places);
    }
    let mut links = dear_links(alloc, arcs, lack)?;
    links.sort()?;
    for (_, low, high) in links.iter().take(MOST_BARRED) {
        places.push(SplitAt::Link(*low, *high))?;
    }
    Ok(places)
}

// Whether a branch bars more links than a plan does for each vertex that it has decided, and for none.
fn bars_many(branch: &Branch) -> bool {
    let decided = branch.inside.as_slice().len() + branch.outside.as_slice().len();
    branch.barred.as_slice().len() / MOST_BARRED > decided
}

// All links of which both arcs have so much left, with the less of both, the lower end first.
fn dear_links(alloc: Global, arcs: &Arcs, lack: u64) -> Result<Vec<(u64, u32, u32)>, AllocError> {
    let mut links = Vec::new(alloc);
    for before in 0..arcs.vertices() {
        let head = before + 1;
        for arc in arcs.arcs_into(head) {
            if arc.tail < head && arc.remaining >= lack {
                let back = arcs.remaining(head, arc.tail).unwrap_or(0);
                if back >= lack {
                    links.push((arc.remaining.min(back), arc.tail, head))?;
                }
            }
        }
    }
    Ok(links)
}
