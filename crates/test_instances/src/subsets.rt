use st_model::{Instance, Link, Need};

/// A set of vertices as a number: vertex 1 is 2, vertex 2 is 4, and so on up to 31.
pub fn bit(vertex: u32) -> u32 {
    1u32.wrapping_shl(vertex)
}

// A cheapest link from the vertices that are reached to those that are missing.
fn cheapest(instance: &Instance, reached: u32, missing: u32) -> Option<Link> {
    let mut best: Option<Link> = None;
    for link in instance.links() {
        let ends = bit(link.a) | bit(link.b);
        let least = match best {
            Some(other) => other.cost,
            None => u64::MAX,
        };
        if ends & reached != 0 && ends & missing != 0 && link.cost < least {
            best = Some(*link);
        }
    }
    best
}

// What a least spanning tree of the set costs, if the set hangs together (Prim).
fn spanning_cost(instance: &Instance, set: u32) -> Option<u64> {
    let mut reached = set & set.wrapping_neg();
    let mut cost: u64 = 0;
    for _turn in 0..instance.vertices() {
        if set & !reached == 0 {
            return Some(cost);
        }
        let link = cheapest(instance, reached, set & !reached)?;
        reached = reached | bit(link.a) | bit(link.b);
        cost = cost.saturating_add(link.cost);
    }
    None
}

// The prizes outside the set, if each required vertex is in it.
fn prizes_left(instance: &Instance, set: u32) -> Option<u64> {
    let mut prizes: u64 = 0;
    for before in 0..instance.vertices() {
        if set & bit(before + 1) == 0 {
            match instance.need(before + 1) {
                Need::Required => return None,
                Need::Pays(prize) => prizes = prizes.saturating_add(prize),
            }
        }
    }
    Some(prizes)
}

/// What a least spanning tree of a set of vertices costs, with the prizes outside: by this file's own sums.
/// None where the set doesn't hang together or lacks a required vertex.
pub fn cost_of_set(instance: &Instance, set: u32) -> Option<u64> {
    let prizes = prizes_left(instance, set)?;
    let links = spanning_cost(instance, set)?;
    Some(links.saturating_add(prizes))
}
