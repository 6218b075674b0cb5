ghost use Rattle.std.specs.Prelude.{◌≡◌, ◌+◌, ◌<◌, ◌≤◌, ◌*◌, ◌^◌, ◌&&◌, not, length};
ghost use Rattle.st_model.specs.Branch.{IsBranch, IsVertexSet};
ghost use Rattle.st_model.specs.Lists.{has, total};
ghost use Rattle.st_model.specs.Network.{pays};
ghost use Rattle.cut_packing.specs.Packing.{base_weight, load, spare, weight};

use crate::fitting::holds;
use crate::{Cut, Packing};
use st_model::{Branch, Instance};

// What some vertices pay where they are left out: less than 2^63 together.
fn prizes(instance: &Instance, vertices: &[u32]) -> u128
    requires { IsVertexSet instance.now.n vertices.now }
    ensures sum { result ≡ total (pays instance.now) vertices.now }
    ensures bound { result < 2 ^ 63 }
{
    let needs = instance.needs();
    let mut sum = 0;
    for vertex in vertices {
        sum += u128::from(needs[*vertex as usize - 1].prize());
    }
    sum
}

// The values of some cuts: each less than 2^64.
fn values(cuts: &[Cut]) -> u128
    ensures sum { result ≡ total (λ c. c.y) cuts.now }
    ensures bound { result ≤ length cuts.now * 2 ^ 64 }
{
    let mut sum = 0;
    for cut in cuts {
        sum += u128::from(cut.y);
    }
    sum
}

// What the cuts lay on an arc: the value of each is less than 2^64.
fn load(cuts: &[Cut], tail: u32, head: u32) -> u128
    ensures sum { result ≡ load cuts.now (tail, head) }
    ensures bound { result ≤ length cuts.now * 2 ^ 64 }
{
    let mut sum = 0;
    for cut in cuts {
        if is_entered(cut.set.as_slice(), tail, head) {
            sum += u128::from(cut.y);
        }
    }
    sum
}

// Whether an arc enters a set.
fn is_entered(set: &[u32], tail: u32, head: u32) -> bool
    ensures { result ≡ (has set.now head && not (has set.now tail)) }
{
    holds(set, head) && !holds(set, tail)
}

// What a link costs beyond the greater of what the cuts lay on its two arcs.
fn spare(instance: &Instance, cuts: &[Cut], pair: (u32, u32)) -> u64
    ensures { result ≡ spare instance.now cuts.now pair }
{
    let (low, high) = pair;
    let cost = instance.link_cost(low, high).unwrap_or(0);
    let loaded = load(cuts, low, high).max(load(cuts, high, low));
    if loaded >= u128::from(cost) {
        return 0;
    }
    cost - loaded as u64
}

// What some links cost beyond the greater of what the cuts lay on their two arcs.
fn spares(instance: &Instance, cuts: &[Cut], pairs: &[(u32, u32)]) -> u128
    ensures sum { result ≡ total (spare instance.now cuts.now) pairs.now }
    ensures bound { result ≤ length pairs.now * 2 ^ 64 }
{
    let mut sum = 0;
    for pair in pairs {
        sum += u128::from(spare(instance, cuts, *pair));
    }
    sum
}

// The prizes of the outside vertices, all less than 2^63 together, and the values of all cuts.
fn base(instance: &Instance, outside: &[u32], cuts: &[Cut]) -> u128
    requires { IsVertexSet instance.now.n outside.now }
    ensures sum { result ≡ total (pays instance.now) outside.now + total (λ c. c.y) cuts.now }
    ensures bound { result < 2 ^ 63 + length cuts.now * 2 ^ 64 }
{
    prizes(instance, outside) + values(cuts)
}

/// What a packing weighs in a branch but for the links that are a must: the prizes of the outside
/// vertices, and the values of all cuts. Takes time linear in both lists, and no memory.
pub fn base_weight(instance: &Instance, branch: &Branch, packing: &Packing) -> u128
    requires { IsBranch instance.now branch.now }
    ensures { result ≡ base_weight instance.now branch.now packing.now }
{
    base(instance, branch.outside.as_slice(), packing.cuts.as_slice())
}

/// What a packing weighs in a branch: the prizes of the outside vertices, the values of all cuts,
/// and what each link that is a must costs beyond the greater of what they lay on its two arcs. Takes
/// no memory, and time linear in both lists and, for each must, in the sizes of all sets.
pub fn weight(instance: &Instance, branch: &Branch, packing: &Packing) -> u128
    requires { IsBranch instance.now branch.now }
    ensures { result ≡ weight instance.now branch.now packing.now }
{
    let cuts = packing.cuts.as_slice();
    base(instance, branch.outside.as_slice(), cuts) + spares(instance, cuts, branch.must.as_slice())
}
