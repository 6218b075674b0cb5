//! When a step may be taken, by a plain program over all links, apart from the calls that are tested.
use lift_back::Step;
use st_model::{Instance, Need};

fn need(instance: &Instance, vertex: u32) -> Option<Need> {
    if vertex < 1 || instance.vertices() < vertex {
        return None;
    }
    Some(instance.need(vertex))
}

fn is_required(instance: &Instance, vertex: u32) -> bool {
    need(instance, vertex) == Some(Need::Required)
}

fn degree(instance: &Instance, vertex: u32) -> usize {
    let links = instance.links();
    links
        .iter()
        .filter(|link| link.a == vertex || link.b == vertex)
        .count()
}

// Whether a vertex is left that isn't required and pays nothing.
fn is_idle(instance: &Instance, gone: &[u32], vertex: u32) -> bool {
    !gone.contains(&vertex) && need(instance, vertex) == Some(Need::Pays(0))
}

fn may_hang(instance: &Instance, gone: &[u32], vertex: u32) -> bool {
    is_idle(instance, gone, vertex)
        && degree(instance, vertex) <= 1
        && instance.vertices() as usize >= gone.len().saturating_add(2)
}

fn may_lead_through(instance: &Instance, gone: &[u32], vertex: u32) -> bool {
    is_idle(instance, gone, vertex) && degree(instance, vertex) == 2
}

fn may_be_forced(instance: &Instance, vertex: u32) -> bool {
    let mut others = 0u32;
    for other in 1..10 {
        if other != vertex && is_required(instance, other) {
            others = others.saturating_add(1);
        }
    }
    is_required(instance, vertex) && degree(instance, vertex) == 1 && others > 0
}

// What a walk has come to: its last vertex, and what its last piece costs.
#[derive(Clone, Copy)]
struct Place {
    vertex: u32,
    paid: u64,
}

// The place after one more vertex, if the walk may go there.
fn walked(instance: &Instance, place: Place, next: u32, limit: u64) -> Option<Place> {
    let paid = place
        .paid
        .saturating_add(instance.link_cost(place.vertex, next)?);
    if paid > limit {
        return None;
    }
    let paid = if is_required(instance, next) { 0 } else { paid };
    Some(Place { vertex: next, paid })
}

// Whether a step of a walk uses a link, in either direction.
fn uses(a: u32, b: u32, tail: u32, head: u32) -> bool {
    (tail, head) == (a, b) || (tail, head) == (b, a)
}

fn stands_in(instance: &Instance, a: u32, b: u32, inner: &[u32], limit: u64) -> bool {
    let mut place = Place { vertex: a, paid: 0 };
    for next in inner {
        if uses(a, b, place.vertex, *next) {
            return false;
        }
        match walked(instance, place, *next, limit) {
            Some(further) => place = further,
            None => return false,
        }
    }
    !uses(a, b, place.vertex, b) && walked(instance, place, b, limit).is_some()
}

fn is_detour(instance: &Instance, a: u32, b: u32, inner: &[u32]) -> bool {
    match instance.link_cost(a, b) {
        Some(limit) => !inner.is_empty() && stands_in(instance, a, b, inner, limit),
        None => false,
    }
}

/// Whether a step may be taken of what is left of an instance of at most nine vertices.
pub fn may_take(instance: &Instance, gone: &[u32], step: &Step) -> bool {
    match step {
        Step::Pendant(vertex) => may_hang(instance, gone, *vertex),
        Step::Through(vertex) => may_lead_through(instance, gone, *vertex),
        Step::Forced(vertex) => may_be_forced(instance, *vertex),
        Step::Detour { a, b, inner } => is_detour(instance, *a, *b, inner.as_slice()),
    }
}
