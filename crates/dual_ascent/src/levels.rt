ghost use Rattle.std.specs.Prelude.{◌≡◌, ◌+◌, ◌-◌, ◌^◌, ◌<◌, IfOk, length, slice_index_or};
ghost use Rattle.st_model.specs.Network.{IsVertex};
ghost use Rattle.dual_ascent.specs.Left.{IsThere};
ghost use Rattle.dual_ascent.specs.Levels.{AreLevels};
ghost use Rattle.dual_ascent.specs.Searching.{AreBelow, AreNear, distances_of};

use crate::ascending::packing;
use crate::raising::cut_round;
use crate::searching::distances_to;
use bidirected_form::Arcs;
use cut_packing::Packing;
use st_model::VertexSet;
use std::alloc::{AllocError, Global};

// A vertex, and how far it is.
#[derive(Clone, Copy)]
pub struct Near {
    pub distance: u64,
    pub vertex: u32,
}

/// Cuts for a vertex that are worth as much as it is far from the root over what remains of the
/// arcs, or the target, if that is less: a cut for each distance below, round all that is no
/// farther. (Dijkstra 1959 finds the distances.)
pub fn fix_levels(
    alloc: Global,
    arcs: &Arcs,
    vertex: u32,
    target: u64,
) -> Result<Packing, AllocError>
    requires vertex { IsVertex arcs.now.n vertex }
    requires there { IsThere arcs.now vertex }
    ensures { IfOk result (AreLevels arcs.now vertex target) }
{
    let least = distances_to(alloc, arcs, vertex, target)?;
    let limit = least[arcs.root() as usize];
    let near = nearer(alloc, arcs.vertices(), &least, limit)?;
    let mut set = VertexSet::new(alloc, arcs.vertices() as usize + 1)?;
    let mut cuts = Vec::new(alloc);
    for place in 0..near.len() {
        set.insert(near[place].vertex)?;
        let step = distance_at(&near, place + 1, limit) - near[place].distance;
        if step > 0 {
            cuts.push(cut_round(alloc, arcs.vertices(), &set, vertex, step)?)?;
        }
    }
    Ok(packing(arcs.root(), cuts))
}

// The distance at a place, and the limit past the last one.
fn distance_at(near: &[Near], place: usize, limit: u64) -> u64
    ensures { result ≡ slice_index_or (distances_of near.now) place limit }
{
    match near.get(place) {
        Some(at) => at.distance,
        None => limit,
    }
}

// The vertices that are nearer than a limit, the nearest first.
fn nearer(alloc: Global, vertices: u32, least: &[u64], limit: u64) -> Result<Vec<Near>, AllocError>
    requires few { vertices < 2 ^ 32 - 1 }
    requires long { length least.now ≡ vertices + 1 }
    ensures { IfOk result (λ near. AreNear vertices limit least.now near.items) }
{
    let mut near = below(alloc, vertices, least, limit)?;
    near.sort_by_key(|at| at.distance)?;
    Ok(near)
}

// The vertices that are nearer than a limit.
fn below(alloc: Global, vertices: u32, least: &[u64], limit: u64) -> Result<Vec<Near>, AllocError>
    requires few { vertices < 2 ^ 32 - 1 }
    requires long { length least.now ≡ vertices + 1 }
    ensures { IfOk result (λ near. AreBelow vertices limit least.now vertices near.items) }
{
    let mut near = Vec::new(alloc);
    for before in 0..vertices {
        let vertex = before + 1;
        let distance = least[vertex as usize];
        if distance < limit {
            near.push(Near { distance, vertex })?;
        }
    }
    Ok(near)
}
