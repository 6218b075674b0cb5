ghost use Rattle.std.specs.Prelude.{◌≡◌, ◌==◌, ℕ, IsTrue, IsFalse, IfOk, IfSome};
ghost use Rattle.std.specs.Bool.{OnTrue};
ghost use Rattle.std.specs.List.{list_any};
ghost use Rattle.st_model.specs.Arborescence.{reached};
ghost use Rattle.st_model.specs.Lists.{has};
ghost use Rattle.lift_back.specs.State.{IsTreeOf};

use lift_back::Reduced;
use st_model::{Instance, Tree, is_tree, tree_cost};
use std::alloc::{AllocError, Global};
use std::test::Fail;

fn is_head(arcs: &[(u32, u32)], vertex: u32) -> bool
    ensures { result ≡ list_any (λ arc. arc.1 == vertex) arcs.now }
{
    arcs.iter().any(|arc| arc.1 == vertex)
}

fn reaches(tree: &Tree, vertex: u32) -> bool
    ensures { result ≡ has (reached tree.now) vertex }
{
    tree.start == vertex || is_head(tree.arcs.as_slice(), vertex)
}

// Whether the tree reaches none of these.
fn misses(tree: &Tree, gone: &[u32]) -> bool
    ensures { OnTrue result ((v : ℕ) → IsTrue (has gone.now v) → IsFalse (has (reached tree.now) v)) }
{
    for vertex in gone {
        if reaches(tree, *vertex) {
            return false;
        }
    }
    true
}

// What a tree costs in the first instance, and Err where it is none.
fn cost_of(alloc: Global, first: &Instance, tree: &Tree) -> Result<u64, Fail> {
    if !is_tree(alloc, first, tree)? {
        return Err(Fail::new("no tree of the first instance"));
    }
    Ok(tree_cost(first, tree))
}

// What a tree of what is left costs there and what is paid besides, if it is one.
fn cost_left(alloc: Global, reduced: &Reduced, tree: &Tree) -> Result<Option<u64>, AllocError>
    ensures { IfOk result (λ cost. IfSome cost (λ _. IsTreeOf reduced.now.state tree.now)) }
{
    let left = reduced.instance(alloc)?;
    let gone = reduced.gone(alloc)?;
    if !is_tree(alloc, &left, tree)? || !misses(tree, &gone) {
        return Ok(None);
    }
    Ok(Some(tree_cost(&left, tree).saturating_add(reduced.offset())))
}

// What the tree costs in the first instance that a tree of what is left leads back to, if this is
// one. Err comes where that is not what it costs here, and what is paid besides.
pub fn lifted_cost(
    alloc: Global,
    reduced: &Reduced,
    first: &Instance,
    tree: &Tree,
) -> Result<Option<u64>, Fail> {
    let Some(wanted) = cost_left(alloc, reduced, tree)? else {
        return Ok(None);
    };
    let back = reduced.lift(alloc, tree)?;
    let cost = cost_of(alloc, first, &back)?;
    if cost != wanted {
        return Err(Fail::new("another cost than before"));
    }
    Ok(Some(cost))
}
