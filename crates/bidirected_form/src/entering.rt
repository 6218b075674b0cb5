ghost use Rattle.std.specs.Prelude.{◌≡◌, ℕ, ◌+◌, ◌<◌, ◌≤◌, ◌↔◌, ◌++◌, false, IsTrue, IsFalse, IsSome, IfOk, OnOk, length, map, All, AllPairs, Contains, slice_index_or, if◌then◌else◌};
ghost use Rattle.st_model.specs.Branch.{IsVertexSet};
ghost use Rattle.st_model.specs.Lists.{has};
ghost use Rattle.bidirected_form.specs.Rows.{row_of, altered, unmarked, IsAllowed};
ghost use Rattle.bidirected_form.specs.Digraph.{left_from};
ghost use Rattle.bidirected_form.specs.Entering.{IsBefore};

use crate::arc::Arc;
use crate::change::Change;
use crate::rows::{Rows, is_marked};
use std::alloc::{AllocError, Global};

// Changes the arcs into the vertices of a set from vertices without a mark.
pub fn alter_entering(rows: &mut Rows, marks: &[bool], set: &[u32], change: Change)
    requires set { (n : ℕ) × IsVertexSet n set.now × (length rows.old ≡ n + 1) }
    requires allowed { (v : ℕ) → IsTrue (has set.now v) → All (IsAllowed marks.now change) (row_of rows.old v) }
    ensures length { length rows.new ≡ length rows.old }
    ensures altered { (v : ℕ) → row_of rows.new v
        ≡ (if has set.now v then map (altered marks.now change) (row_of rows.old v) else row_of rows.old v) }
{
    for vertex in set {
        rows.alter(*vertex, marks, change);
    }
}

// The arcs into the vertices of a set from vertices without a mark, in the order of pairs.
pub fn entering_arcs(
    alloc: Global,
    rows: &Rows,
    marks: &[bool],
    set: &[u32],
) -> Result<Vec<(u32, u32)>, AllocError>
    requires set { (n : ℕ) × IsVertexSet n set.now × (length rows.now ≡ n + 1) }
    requires ascending { (v : ℕ) → AllPairs (λ a b. a.tail < b.tail) (row_of rows.now v) }
    ensures arcs { IfOk result (λ arcs. (u v : ℕ) →
        Contains arcs.items (u, v) ↔ (IsTrue (has set.now v) × IsFalse (slice_index_or marks.now u false) ×
        IsSome (left_from (row_of rows.now v) u))) }
    ensures ascending { IfOk result (λ arcs. AllPairs IsBefore arcs.items) }
{
    let mut found = Vec::new(alloc);
    for vertex in set {
        push_arcs(&mut found, rows.row(*vertex), marks, *vertex)?;
    }
    found.sort()?;
    Ok(found)
}

// Adds the arcs from vertices without a mark to those found.
fn push_arcs(
    found: &mut Vec<(u32, u32)>,
    arcs: &[Arc],
    marks: &[bool],
    head: u32,
) -> Result<(), AllocError>
    ensures { OnOk result (found.new.items ≡ found.old.items ++ unmarked marks.now head arcs.now) }
{
    for arc in arcs {
        if !is_marked(marks, arc.tail) {
            found.push((arc.tail, head))?;
        }
    }
    Ok(())
}
