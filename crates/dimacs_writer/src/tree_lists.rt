ghost use Rattle.std.specs.Prelude.{◌≡◌, ◌↔◌, ◌++◌, ◌∷◌, [], IfOk, IsTrue, Contains, map};
ghost use Rattle.std.specs.List.Sorted.{IsStrictlySortedBy};
ghost use Rattle.dimacs_writer.specs.Solution.{AreVertices, AreEdgesIn, ends_written};

use st_model::Tree;
use std::alloc::{AllocError, Global};

/// The vertices that the tree reaches, ascending and each once.
pub fn vertices_of(alloc: Global, tree: &Tree) -> Result<Vec<u32>, AllocError>
    ensures { IfOk result (λ vertices. AreVertices tree.now vertices.items) }
{
    let mut vertices = heads_and_start(alloc, tree)?;
    put_in_order(&mut vertices);
    Ok(vertices)
}

/// The ends of the tree's arcs as they are written, ascending and each once.
pub fn edges_of(alloc: Global, tree: &Tree, directed: bool) -> Result<Vec<(u32, u32)>, AllocError>
    ensures { IfOk result (λ edges. AreEdgesIn directed tree.now edges.items) }
{
    let mut edges = all_ends(alloc, tree, directed)?;
    put_in_order(&mut edges);
    Ok(edges)
}

// Sorts the items and drops those that repeat another one.
fn put_in_order<T: Ord + Drop>(items: &mut Vec<T>)
    requires { (x y : T) → IsTrue (T.eq x y) → x ≡ y }
    ensures ascending { IsStrictlySortedBy T.cmp items.new.items }
    ensures same { (x : T) → Contains items.new.items x ↔ Contains items.old.items x }
{
    items.sort_unstable();
    items.dedup();
}

// The heads of the arcs, and the start after them.
fn heads_and_start(alloc: Global, tree: &Tree) -> Result<Vec<u32>, AllocError>
    ensures { IfOk result (λ list. list.items ≡ map (λ arc. arc.1) tree.now.arcs ++ tree.now.start ∷ []) }
{
    let arcs = tree.arcs.as_slice();
    let mut list: Vec<u32> = arcs.iter().map(|arc| arc.1).collect(alloc)?;
    list.push(tree.start)?;
    Ok(list)
}

// The ends of each arc as they are written.
fn all_ends(alloc: Global, tree: &Tree, directed: bool) -> Result<Vec<(u32, u32)>, AllocError>
    ensures { IfOk result (λ list. list.items ≡ map (ends_written directed) tree.now.arcs) }
{
    let arcs = tree.arcs.as_slice();
    arcs.iter()
        .map(|arc| ends_written(*arc, directed))
        .collect(alloc)
}

// The ends of an arc as it goes where the instance is directed, else the lower one first.
fn ends_written(arc: (u32, u32), directed: bool) -> (u32, u32)
    ensures { result ≡ ends_written directed arc }
{
    if directed {
        arc
    } else {
        (arc.0.min(arc.1), arc.0.max(arc.1))
    }
}
