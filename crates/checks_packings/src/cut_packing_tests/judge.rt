//! The definitions as a plain program over all vertices, apart from the calls that are tested.
use cut_packing::{Cut, Packing};
use st_model::{Branch, Instance, Need};

fn holds(vertices: &[u32], vertex: u32) -> bool {
    vertices.contains(&vertex)
}

fn load(cuts: &[Cut], u: u32, v: u32) -> u128 {
    let mut sum = 0u128;
    for cut in cuts {
        if holds(cut.set.as_slice(), v) && !holds(cut.set.as_slice(), u) {
            sum = sum.saturating_add(u128::from(cut.y));
        }
    }
    sum
}

fn named(cuts: &[Cut], q: u32) -> u128 {
    let mut sum = 0u128;
    for cut in cuts {
        if cut.q == q {
            sum = sum.saturating_add(u128::from(cut.y));
        }
    }
    sum
}

fn is_present(branch: &Branch, v: u32) -> bool {
    !holds(branch.outside.as_slice(), v)
}

fn need(instance: &Instance, v: u32) -> Option<Need> {
    if 1 <= v && v <= instance.vertices() {
        Some(instance.need(v))
    } else {
        None
    }
}

fn is_certain(instance: &Instance, branch: &Branch, v: u32) -> bool {
    match need(instance, v) {
        Some(Need::Required) => true,
        Some(Need::Pays(_)) => holds(branch.inside.as_slice(), v),
        None => false,
    }
}

fn root_fits(instance: &Instance, branch: &Branch, packing: &Packing) -> bool {
    let cuts = packing.cuts.as_slice();
    match packing.root {
        None => cuts.is_empty(),
        Some(r) => {
            is_certain(instance, branch, r) && cuts.iter().all(|c| !holds(c.set.as_slice(), r))
        }
    }
}

fn cut_fits(instance: &Instance, branch: &Branch, cut: &Cut) -> bool {
    for v in cut.set.as_slice() {
        if need(instance, *v).is_none() {
            return false;
        }
    }
    holds(cut.set.as_slice(), cut.q) && is_present(branch, cut.q)
}

fn arc_fits(instance: &Instance, branch: &Branch, packing: &Packing, u: u32, v: u32) -> bool {
    if !is_present(branch, u) || !is_present(branch, v) {
        return true;
    }
    match instance.link_cost(u, v) {
        None => true,
        Some(cost) => load(packing.cuts.as_slice(), u, v) <= u128::from(cost),
    }
}

fn prize_fits(instance: &Instance, branch: &Branch, packing: &Packing, q: u32) -> bool {
    match need(instance, q) {
        Some(Need::Pays(prize)) => {
            is_certain(instance, branch, q)
                || named(packing.cuts.as_slice(), q) <= u128::from(prize)
        }
        _ => true,
    }
}

pub fn plain_fits(instance: &Instance, branch: &Branch, packing: &Packing) -> bool {
    for cut in packing.cuts.as_slice() {
        if !cut_fits(instance, branch, cut) {
            return false;
        }
    }
    for u in 0..8 {
        if !prize_fits(instance, branch, packing, u) {
            return false;
        }
        for v in 0..8 {
            if !arc_fits(instance, branch, packing, u, v) {
                return false;
            }
        }
    }
    root_fits(instance, branch, packing)
}

fn is_saturated(instance: &Instance, branch: &Branch, packing: &Packing, u: u32, v: u32) -> bool {
    match instance.link_cost(u, v) {
        None => false,
        Some(cost) => {
            is_present(branch, u)
                && is_present(branch, v)
                && load(packing.cuts.as_slice(), u, v) == u128::from(cost)
        }
    }
}

// Whether v is reached from u over at most so many saturated arcs.
fn leads(
    instance: &Instance,
    branch: &Branch,
    packing: &Packing,
    steps: u32,
    u: u32,
    v: u32,
) -> bool {
    if u == v {
        return true;
    }
    if steps == 0 {
        return false;
    }
    for w in 0..8 {
        if is_saturated(instance, branch, packing, u, w)
            && leads(instance, branch, packing, steps - 1, w, v)
        {
            return true;
        }
    }
    false
}

fn is_open(instance: &Instance, branch: &Branch, packing: &Packing, v: u32) -> bool {
    match need(instance, v) {
        Some(Need::Pays(prize)) => {
            holds(branch.inside.as_slice(), v)
                || is_present(branch, v) && named(packing.cuts.as_slice(), v) < u128::from(prize)
        }
        Some(Need::Required) => true,
        None => false,
    }
}

pub fn plain_full(instance: &Instance, branch: &Branch, packing: &Packing) -> bool {
    match packing.root {
        None => false,
        Some(root) => {
            for v in 0..8 {
                if is_open(instance, branch, packing, v)
                    && !leads(instance, branch, packing, 4, root, v)
                {
                    return false;
                }
            }
            true
        }
    }
}
