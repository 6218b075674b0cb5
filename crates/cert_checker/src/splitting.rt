ghost use Rattle.std.specs.Prelude.{◌↔◌, IsTrue};
ghost use Rattle.cut_packing.specs.ProofTree.{IsSplit, IsLinkSplit, IsSplitAt, IsSplitAtIn, IsSplitIn};
ghost use Rattle.arborescence.specs.DiNetwork.{di_ground};
ghost use Rattle.cert_checker.specs.Path.{IsInOrder};
ghost use Rattle.cert_checker.specs.Posed.{ground_on};

use crate::lists::{has_pair, holds};
use crate::posed::Posed;
use arborescence::DiInstance;
use st_model::{Branch, Instance, Need, SplitAt};

// Whether a branch can be split here.
pub fn is_split_at(posed: &Posed, branch: &Branch, at: SplitAt) -> bool
    requires { IsInOrder branch.now }
    ensures { IsTrue result ↔ IsSplitAtIn (ground_on posed.now) branch.now at }
{
    match posed {
        Posed::Plain(instance) => is_plain_split(instance, branch, at),
        Posed::Directed(instance) => is_di_split(instance, branch, at),
    }
}

// Whether a branch of an instance can be split here.
fn is_plain_split(instance: &Instance, branch: &Branch, at: SplitAt) -> bool
    requires { IsInOrder branch.now }
    ensures { IsTrue result ↔ IsSplitAt instance.now branch.now at }
{
    match at {
        SplitAt::Vertex(vertex) => is_split(instance, branch, vertex),
        SplitAt::Link(low, high) => is_link_split(instance, branch, low, high),
    }
}

// Whether a branch can be split at a vertex.
fn is_split(instance: &Instance, branch: &Branch, vertex: u32) -> bool
    requires { IsInOrder branch.now }
    ensures { IsTrue result ↔ IsSplit instance.now branch.now vertex }
{
    if vertex < 1 || instance.vertices() < vertex {
        return false;
    }
    instance.need(vertex) != Need::Required && branch.is_undecided(vertex)
}

// Whether a branch can be split at the link between two vertices, the lower first.
fn is_link_split(instance: &Instance, branch: &Branch, low: u32, high: u32) -> bool
    requires { IsInOrder branch.now }
    ensures { IsTrue result ↔ IsLinkSplit instance.now branch.now low high }
{
    if low >= high || instance.link_cost(low, high).is_none() {
        return false;
    }
    let outside = branch.outside.as_slice();
    if holds(outside, low) || holds(outside, high) {
        return false;
    }
    !has_pair(branch.must.as_slice(), low, high) && !has_pair(branch.barred.as_slice(), low, high)
}

// Whether a branch of a directed instance can be split here: at no link.
fn is_di_split(instance: &DiInstance, branch: &Branch, at: SplitAt) -> bool
    requires { IsInOrder branch.now }
    ensures { IsTrue result ↔ IsSplitAtIn (di_ground instance.now) branch.now at }
{
    match at {
        SplitAt::Vertex(vertex) => is_di_vertex_split(instance, branch, vertex),
        SplitAt::Link(_, _) => false,
    }
}

// Whether it can be split at a vertex.
fn is_di_vertex_split(instance: &DiInstance, branch: &Branch, vertex: u32) -> bool
    requires { IsInOrder branch.now }
    ensures { IsTrue result ↔ IsSplitIn (di_ground instance.now) branch.now vertex }
{
    if vertex < 1 || instance.vertices() < vertex {
        return false;
    }
    !instance.is_sought(vertex) && branch.is_undecided(vertex)
}
