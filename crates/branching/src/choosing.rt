ghost use Rattle.std.specs.Prelude.{◌≡◌, ◌↔◌, ◌<◌, ◌≤◌, IfSome, IfNone, IsTrue, MatchOption};
ghost use Rattle.st_model.specs.Branch.{IsBranch};
ghost use Rattle.st_model.specs.Network.{IsVertex, pays};
ghost use Rattle.st_model.specs.Lists.{has};
ghost use Rattle.st_model.specs.Made.{has_pair};
ghost use Rattle.cut_packing.specs.ProofTree.{IsSplit, IsLinkSplit, IsSplitAt};
ghost use Rattle.branching.specs.Choice.{IsChoice, IsDecided};

use crate::Node;
use st_model::{Branch, Instance, Need, SplitAt};

/// A vertex at which a node may be split, of those one that pays most; None where there is none.
pub fn choose(node: &Node, instance: &Instance) -> Option<u32>
    requires { IsBranch instance.now node.now.branch }
    ensures some { IfSome result (IsChoice instance.now node.now.branch) }
    ensures none { IfNone result (IsDecided instance.now node.now.branch) }
{
    let mut best = None;
    for before in 0..instance.vertices() {
        let vertex = before + 1;
        if may_split(instance, &node.branch, vertex) && pays_more(instance, vertex, best) {
            best = Some(vertex);
        }
    }
    best
}

/// Whether a branch may be split at a vertex: where it is one that is neither required nor inside nor outside.
pub fn may_split(instance: &Instance, branch: &Branch, vertex: u32) -> bool
    requires { IsBranch instance.now branch.now }
    ensures { IsTrue result ↔ IsSplit instance.now branch.now vertex }
{
    if vertex < 1 || instance.vertices() < vertex {
        return false;
    }
    instance.need(vertex) != Need::Required && branch.is_undecided(vertex)
}

/// Whether a branch may be split here: at a vertex as above, or at a link between vertices that aren't
/// outside, its lower end first, that is neither a must nor barred.
pub fn may_split_at(instance: &Instance, branch: &Branch, at: SplitAt) -> bool
    requires { IsBranch instance.now branch.now }
    ensures { IsTrue result ↔ IsSplitAt instance.now branch.now at }
{
    match at {
        SplitAt::Vertex(vertex) => may_split(instance, branch, vertex),
        SplitAt::Link(low, high) => may_split_link(instance, branch, low, high),
    }
}

// Whether a branch may be split at the link between two vertices.
fn may_split_link(instance: &Instance, branch: &Branch, low: u32, high: u32) -> bool
    ensures { IsTrue result ↔ IsLinkSplit instance.now branch.now low high }
{
    if high <= low || instance.link_cost(low, high).is_none() {
        return false;
    }
    let outside = branch.outside.as_slice();
    if is_among(outside, low) || is_among(outside, high) {
        return false;
    }
    !is_linked(branch.must.as_slice(), low, high) && !is_linked(branch.barred.as_slice(), low, high)
}

// Whether a list has a vertex.
fn is_among(vertices: &[u32], vertex: u32) -> bool
    ensures { result ≡ has vertices.now vertex }
{
    vertices.iter().any(|other| *other == vertex)
}

// Whether one of the pairs is of two vertices, in either order.
fn is_linked(pairs: &[(u32, u32)], u: u32, v: u32) -> bool
    ensures { result ≡ has_pair pairs.now u v }
{
    pairs.iter().any(|pair| (pair.0 == u && pair.1 == v) || (pair.0 == v && pair.1 == u))
}

// Whether a vertex pays more than another, if there is another.
fn pays_more(instance: &Instance, vertex: u32, other: Option<u32>) -> bool
    requires vertex { IsVertex instance.now.n vertex }
    requires other { IfSome other (IsVertex instance.now.n) }
    ensures { IsTrue result ↔ MatchOption other (Unit {0}) (λ w. pays instance.now w < pays instance.now vertex) }
{
    match other {
        Some(other) => instance.prize(other) < instance.prize(vertex),
        None => true,
    }
}
