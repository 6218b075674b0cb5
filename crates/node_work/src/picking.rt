ghost use Rattle.std.specs.Prelude.{◌≡◌};
ghost use Rattle.cut_packing.specs.ProofTree.{IsSplit};

use better_trees::KeyVertices;
use bidirected_form::{Arc, Arcs};
use st_model::{Instance, Sides, VertexSet};

/// The vertex to split at, of those near the root at which the branch can be split: one at which most
/// links of trees meet that branch there, of these one into which most saturated arcs lead,
/// and of these one with most arcs; or the one given where none of this tells any of them.
pub fn pick(
    arcs: &Arcs,
    instance: &Instance,
    branch: &Sides,
    near: &VertexSet,
    key_vertices: &KeyVertices,
    given: u32,
) -> u32
    requires count { arcs.now.n ≡ instance.now.n }
    requires given { IsSplit instance.now branch.now given }
    ensures { IsSplit instance.now branch.now result }
{
    let mut best = given;
    let mut most = (0, 0, 0);
    for before in 0..instance.vertices() {
        let vertex = before + 1;
        let into = arcs.arcs_into(vertex);
        let rank = (key_vertices.at(vertex), saturated_of(into), into.len());
        if rank > most && near.contains(vertex) && branch.is_free(instance, vertex) {
            best = vertex;
            most = rank;
        }
    }
    best
}

// How many of the arcs are saturated.
fn saturated_of(arcs: &[Arc]) -> usize {
    arcs.iter().filter(|arc| arc.remaining == 0).count()
}
