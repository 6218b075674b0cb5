//! Kinds, and what remains of each arc, as a plain program over all pairs of vertices.
use super::drawn::{Case, holds};
use bidirected_form::{Arc, VertexKind};
use st_model::Need;
use std::alloc::{AllocError, Global};

/// What remains of the arc from u to v, at place 8 u + v; u and v are 0 to 7.
pub type Table = [Option<u64>; 64];

fn is_open(case: &Case, v: u32) -> bool {
    !holds(&case.removed, v) && !holds(&case.outside, v)
}

/// What a vertex is.
pub fn plain_kind(case: &Case, v: u32) -> VertexKind {
    if v < 1 || v > case.instance.vertices() || !is_open(case, v) {
        return VertexKind::Outside;
    }
    match case.instance.need(v) {
        Need::Pays(prize) if !holds(&case.inside, v) => VertexKind::May(prize),
        Need::Pays(_) | Need::Required => VertexKind::Must,
    }
}

// What the link between two vertices costs that are open.
fn plain_cost(case: &Case, u: u32, v: u32) -> Option<u64> {
    for link in case.instance.links() {
        let is_between = link.a == u && link.b == v || link.a == v && link.b == u;
        if is_between && is_open(case, u) && is_open(case, v) {
            return Some(link.cost);
        }
    }
    None
}

pub fn plain_table(case: &Case) -> Table {
    let mut table = [None; 64];
    for (place, slot) in table.iter_mut().enumerate() {
        *slot = plain_cost(case, place as u32 / 8, place as u32 % 8);
    }
    table
}

fn place(u: u32, v: u32) -> usize {
    u.wrapping_mul(8).wrapping_add(v) as usize
}

pub fn plain_remaining(table: &Table, u: u32, v: u32) -> Option<u64> {
    table.get(place(u, v)).copied().unwrap_or(None)
}

pub fn plain_arcs_into(alloc: Global, table: &Table, v: u32) -> Result<Vec<Arc>, AllocError> {
    let mut arcs = Vec::new(alloc);
    for tail in 0..8 {
        if let Some(remaining) = plain_remaining(table, tail, v) {
            arcs.push(Arc { tail, remaining })?;
        }
    }
    Ok(arcs)
}

pub fn plain_neighbours(alloc: Global, table: &Table, v: u32) -> Result<Vec<u32>, AllocError> {
    let mut tails = Vec::new(alloc);
    for u in 0..8 {
        if plain_remaining(table, u, v).is_some() {
            tails.push(u)?;
        }
    }
    Ok(tails)
}

/// The arcs that enter a set, in the order of the table.
pub fn plain_entering(
    alloc: Global,
    table: &Table,
    set: &[bool],
) -> Result<Vec<(u32, u32)>, AllocError> {
    let mut found = Vec::new(alloc);
    for place in 0..64u32 {
        let (u, v) = (place / 8, place % 8);
        let is_entering = holds(set, v) && !holds(set, u);
        if is_entering && plain_remaining(table, u, v).is_some() {
            found.push((u, v))?;
        }
    }
    Ok(found)
}

/// The least that remains of some arcs, or 9 if there are none.
pub fn least_remaining(table: &Table, arcs: &[(u32, u32)]) -> u64 {
    let mut least = 9;
    for (u, v) in arcs {
        least = plain_remaining(table, *u, *v).unwrap_or(0).min(least);
    }
    least
}

pub fn lower(table: &mut Table, arcs: &[(u32, u32)], y: u64) {
    for (u, v) in arcs {
        if let Some(Some(left)) = table.get_mut(place(*u, *v)) {
            *left = left.saturating_sub(y);
        }
    }
}

pub fn raise(table: &mut Table, arcs: &[(u32, u32)], y: u64) {
    for (u, v) in arcs {
        if let Some(Some(left)) = table.get_mut(place(*u, *v)) {
            *left = left.saturating_add(y);
        }
    }
}
