ghost use Rattle.std.specs.Prelude.{◌≡◌, ◌↔◌, ◌+◌, ◌≤◌, ℕ, List, [], length, vec_len, IfOk, IsTrue, ◌∷◌};
ghost use Rattle.std.specs.Bool.{OnTrue};
ghost use Rattle.st_model.specs.Arborescence.{Grows, reached_from};
ghost use Rattle.st_model.specs.Lists.{has};
ghost use Rattle.st_model.specs.Marks.{AreMarks, IsNewArc};
ghost use Rattle.st_model.specs.Network.{IsVertex, is_required};

use crate::{Instance, Need};
use std::alloc::{AllocError, Global};

// The flags of the start alone.
pub fn marks_of(alloc: Global, vertices: u32, start: u32) -> Result<Vec<bool>, AllocError>
    requires { start ≤ vertices }
    ensures { IfOk result (λ marks. AreMarks vertices marks.items (start ∷ [])) }
{
    let mut marks = vec![in alloc; false; vertices as usize + 1]?;
    marks[start as usize] = true;
    Ok(marks)
}

// Whether the arcs grow from the marked vertices. Where they do, their heads are marked too.
pub fn grows(instance: &Instance, arcs: &[(u32, u32)], marks: &mut Vec<bool>) -> bool
    requires { vec_len marks.old ≡ instance.now.n + 1 }
    ensures answer { (r : List ℕ) → AreMarks instance.now.n marks.old.items r
        → IsTrue result ↔ Grows instance.now r arcs.now }
    ensures marked { (r : List ℕ) → AreMarks instance.now.n marks.old.items r
        → OnTrue result (AreMarks instance.now.n marks.new.items (reached_from r arcs.now)) }
{
    for arc in arcs {
        if !mark_arc(instance, *arc, marks) {
            return false;
        }
    }
    true
}

// Whether one arc goes from a marked vertex to one that isn't; if so, that one is marked.
fn mark_arc(instance: &Instance, arc: (u32, u32), marks: &mut Vec<bool>) -> bool
    requires { vec_len marks.old ≡ instance.now.n + 1 }
    ensures long { vec_len marks.new ≡ instance.now.n + 1 }
    ensures answer { (r : List ℕ) → AreMarks instance.now.n marks.old.items r
        → IsTrue result ↔ IsNewArc instance.now r arc }
    ensures marked { (r : List ℕ) → AreMarks instance.now.n marks.old.items r
        → OnTrue result (AreMarks instance.now.n marks.new.items (arc.1 ∷ r)) }
{
    let (tail, head) = arc;
    if instance.link_cost(tail, head).is_none() {
        return false;
    }
    if !marks[tail as usize] || marks[head as usize] {
        return false;
    }
    marks[head as usize] = true;
    true
}

// Whether every required vertex is marked.
pub fn reaches_required(instance: &Instance, marks: &[bool]) -> bool
    requires { length marks.now ≡ instance.now.n + 1 }
    ensures { (r : List ℕ) → AreMarks instance.now.n marks.now r →
        IsTrue result ↔ ((v : ℕ) → IsVertex instance.now.n v → IsTrue (is_required instance.now v) → IsTrue (has r v)) }
{
    for before in 0..instance.vertices() {
        let vertex = before + 1;
        if instance.need(vertex) == Need::Required && !marks[vertex as usize] {
            return false;
        }
    }
    true
}
