ghost use Rattle.std.specs.Prelude.{◌≡◌, ◌==◌, not, IfOk, IfErr, filter};
ghost use Rattle.st_model.specs.Branch.{yes_half, no_half};
ghost use Rattle.branching.specs.Node.{inside_half, outside_half, must_half, barred_half, no_node, no_packing, without, yes_node};

use crate::Node;
use cut_packing::{Cut, Packing};
use st_model::{Branch, Listed, SplitAt};
use std::alloc::{AllocError, Global};

/// The halves of a node at a vertex, each under its number: the one with the vertex inside, which
/// keeps the packing, and the one with it outside, which keeps the cuts that don't name it. Where
/// memory is refused the node is handed back.
pub fn halves(
    alloc: Global,
    node: Node,
    vertex: u32,
    inside_id: u64,
    outside_id: u64,
) -> Result<(Node, Node), (Node, AllocError)>
    ensures inside { IfOk result (λ halves. halves.0 ≡ inside_half node vertex inside_id) }
    ensures outside { IfOk result (λ halves. halves.1 ≡ outside_half node vertex outside_id) }
    ensures err { IfErr result (λ refused. refused.0 ≡ node) }
{
    halves_at(alloc, node, SplitAt::Vertex(vertex), inside_id, outside_id)
}

/// The halves of a node at the link between two vertices, the lower first, each under its number:
/// the one where the link is a must, with both ends inside, and the one where it is barred. Both
/// keep the packing. Where memory is refused the node is handed back.
pub fn halves_link(
    alloc: Global,
    node: Node,
    low: u32,
    high: u32,
    must_id: u64,
    barred_id: u64,
) -> Result<(Node, Node), (Node, AllocError)>
    ensures must { IfOk result (λ halves. halves.0 ≡ must_half node low high must_id) }
    ensures barred { IfOk result (λ halves. halves.1 ≡ barred_half node low high barred_id) }
    ensures err { IfErr result (λ refused. refused.0 ≡ node) }
{
    halves_at(alloc, node, SplitAt::Link(low, high), must_id, barred_id)
}

/// The halves of a node, each under its number: the one that says yes to a split, which keeps the
/// packing, and the one that says no, which keeps the cuts that don't name the vertex, or all where
/// the split is at a link. Where memory is refused the node is handed back.
pub fn halves_at(
    alloc: Global,
    node: Node,
    at: SplitAt,
    yes_id: u64,
    no_id: u64,
) -> Result<(Node, Node), (Node, AllocError)>
    ensures says_yes { IfOk result (λ halves. halves.0 ≡ yes_node node at yes_id) }
    ensures says_no { IfOk result (λ halves. halves.1 ≡ no_node node at no_id) }
    ensures err { IfErr result (λ refused. refused.0 ≡ node) }
{
    match parts(alloc, &node, at) {
        Ok((yes, no, kept)) => {
            let Node { packing, .. } = node;
            let yes_node = Node {
                id: yes_id,
                branch: yes,
                packing,
            };
            let no_node = Node {
                id: no_id,
                branch: no,
                packing: kept,
            };
            Ok((yes_node, no_node))
        }
        Err(error) => Err((node, error)),
    }
}

// The branches of the halves, and the packing of the one that says no.
fn parts(alloc: Global, node: &Node, at: SplitAt) -> Result<(Branch, Branch, Packing), AllocError>
    ensures says_yes { IfOk result (λ parts. parts.0 ≡ yes_half node.now.branch at) }
    ensures says_no { IfOk result (λ parts. parts.1 ≡ no_half node.now.branch at) }
    ensures kept { IfOk result (λ parts. parts.2 ≡ no_packing node.now.packing at) }
{
    let yes = node.branch.yes_half(alloc, at)?;
    let no = node.branch.no_half(alloc, at)?;
    let kept = no_packing(alloc, &node.packing, at)?;
    Ok((yes, no, kept))
}

// The packing of the half that says no.
fn no_packing(alloc: Global, packing: &Packing, at: SplitAt) -> Result<Packing, AllocError>
    ensures { IfOk result (λ kept. kept ≡ no_packing packing.now at) }
{
    match at {
        SplitAt::Vertex(vertex) => without(alloc, packing, vertex),
        SplitAt::Link(_, _) => packing.shared(alloc),
    }
}

// A packing without the cuts that name a vertex.
fn without(alloc: Global, packing: &Packing, vertex: u32) -> Result<Packing, AllocError>
    ensures { IfOk result (λ kept. kept ≡ without packing.now vertex) }
{
    let cuts = cuts_without(alloc, packing.cuts.as_slice(), vertex)?;
    Ok(Packing {
        root: packing.root,
        cuts: Listed::of(cuts),
    })
}

// The cuts that don't name a vertex.
fn cuts_without(alloc: Global, cuts: &[Cut], vertex: u32) -> Result<Vec<Cut>, AllocError>
    ensures { IfOk result (λ kept. kept.items ≡ filter (λ c. not (c.q == vertex)) cuts.now) }
{
    let mut kept = Vec::new(alloc);
    for cut in cuts {
        if cut.q != vertex {
            kept.push(cut.shared()?)?;
        }
    }
    Ok(kept)
}
