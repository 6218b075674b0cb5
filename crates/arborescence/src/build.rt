ghost use Rattle.std.specs.Prelude.{◌≡◌, IfOk, OnOk, filter, map};
ghost use Rattle.st_model.specs.Lists.{has};
ghost use Rattle.arborescence.specs.Stated.{merged_arcs, stated_terminals, tail_head};
ghost use Rattle.arborescence.specs.Steps.{put_arc};

use indexmap::IndexSet;
use st_model::{Link, VertexSet};
use std::alloc::{AllocError, Global};

// One arc for each ordered pair, and beside them the pairs.
pub fn merge_arcs(
    alloc: Global,
    stated: &[Link],
) -> Result<(Vec<Link>, IndexSet<(u32, u32)>), AllocError>
    ensures arcs { IfOk result (λ r. r.0.items ≡ merged_arcs stated.now) }
    ensures pairs { IfOk result (λ r. r.1.keys ≡ map tail_head (merged_arcs stated.now)) }
{
    let mut arcs = Vec::new(alloc);
    let mut pairs = IndexSet::new(alloc);
    for arc in stated {
        if arc.a != arc.b {
            put(&mut arcs, &mut pairs, *arc)?;
        }
    }
    Ok((arcs, pairs))
}

// Makes the pair's arc cheaper, or adds it.
fn put(arcs: &mut Vec<Link>, pairs: &mut IndexSet<(u32, u32)>, arc: Link) -> Result<(), AllocError>
    requires { pairs.old.keys ≡ map tail_head arcs.old.items }
    ensures arcs { OnOk result (arcs.new.items ≡ put_arc arcs.old.items arc) }
    ensures pairs { OnOk result (pairs.new.keys ≡ map tail_head arcs.new.items) }
{
    let (index, is_new) = pairs.insert_full((arc.a, arc.b))?;
    if is_new {
        arcs.push(arc)?;
    } else {
        let kept = &mut arcs[index];
        kept.cost = kept.cost.min(arc.cost);
    }
    Ok(())
}

// Of the vertices from 1 to the last, those that are stated, ascending.
pub fn ascending_terminals(
    alloc: Global,
    vertices: u32,
    stated: &VertexSet,
) -> Result<Vec<u32>, AllocError>
    ensures { IfOk result
        (λ terminals. terminals.items ≡ stated_terminals stated.now.members vertices) }
{
    let mut terminals = Vec::new(alloc);
    for before in 0..vertices {
        let vertex = before + 1;
        if stated.contains(vertex) {
            terminals.push(vertex)?;
        }
    }
    Ok(terminals)
}
