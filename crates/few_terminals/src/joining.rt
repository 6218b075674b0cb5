ghost use Rattle.std.specs.Prelude.{◌≡◌, ℕ, ◌+◌, ◌<◌, ◌≤◌, List, [], ◌∷◌, length, replicate, All, IfOk, IfSome, IsTrue, Some};
ghost use Rattle.st_model.specs.Lists.{has};
ghost use Rattle.st_model.specs.Network.{Network};
ghost use Rattle.st_model.specs.VertexSet.{AllApart};
ghost use Rattle.few_terminals.specs.Entries.{Meaning};
ghost use Rattle.few_terminals.specs.Filling.{unknown, IsBegun, IsJoinedBelow, Joins};
ghost use Rattle.few_terminals.specs.Rows.{costs_of, places_of, AreRows};
ghost use Rattle.few_terminals.specs.Under.{mask};

use crate::entry::Way;
use crate::mark::Mark;
use crate::row::Row;
use std::alloc::{AllocError, Global};

// What is known of the row of a set before any link: a terminal alone costs nothing, and two
// disjoint sets what both cost.
pub fn joined(
    alloc: Global,
    vertices: u32,
    terminals: &[u32],
    reached: &[u32],
    rows: &[Row],
    bits: u32,
) -> Result<Vec<Mark>, AllocError>
    requires few { length terminals.now ≤ 11 }
    requires apart { AllApart terminals.now }
    requires vertices { (k : ℕ) → IsTrue (has terminals.now k) → k ≤ vertices }
    requires reached { AllApart reached.now }
    requires range { All (λ v. v < vertices + 1) reached.now }
    requires within { bits ≤ length rows.now }
    requires costs { (m : ℕ) → 1 ≤ m → m < length rows.now → length (costs_of rows.now m) ≡ length reached.now }
    requires places { (m : ℕ) → 1 ≤ m → m < length rows.now → length (places_of rows.now m) ≡ length reached.now }
    ensures { IfOk result (λ marks. (I : Network) (es : List Meaning) → I.n ≡ vertices →
        AreRows I terminals.now es reached.now rows.now →
        IsJoinedBelow I terminals.now es reached.now rows.now bits bits marks.items) }
{
    let mut marks = begun(alloc, vertices, terminals, bits)?;
    join_parts(&mut marks, reached, rows, bits);
    Ok(marks)
}

// Nothing is known, but that a terminal costs nothing where it alone is the set.
fn begun(
    alloc: Global,
    vertices: u32,
    terminals: &[u32],
    bits: u32,
) -> Result<Vec<Mark>, AllocError>
    requires few { length terminals.now ≤ 11 }
    requires apart { AllApart terminals.now }
    requires vertices { (k : ℕ) → IsTrue (has terminals.now k) → k ≤ vertices }
    ensures begun { IfOk result (λ marks. (I : Network) (es : List Meaning) → I.n ≡ vertices →
        IsBegun I terminals.now es bits marks.items) }
    ensures long { IfOk result (λ marks. length marks.items ≡ vertices + 1) }
{
    let mut marks = unknown_marks(alloc, vertices)?;
    let Some(terminal) = alone(terminals, bits) else {
        return Ok(marks);
    };
    marks[terminal as usize].cost = 0;
    Ok(marks)
}

fn unknown_marks(alloc: Global, vertices: u32) -> Result<Vec<Mark>, AllocError>
    ensures { IfOk result (λ marks. marks.items ≡ replicate (vertices + 1) unknown) }
{
    vec![in alloc; Mark::unknown(); vertices as usize + 1]
}

// The terminal of which alone this is the set.
fn alone(terminals: &[u32], bits: u32) -> Option<u32>
    requires few { length terminals.now ≤ 11 }
    requires apart { AllApart terminals.now }
    ensures some { IfSome result (λ k. IsTrue (has terminals.now k) × (mask terminals.now (k ∷ []) ≡ bits)) }
    ensures all { (k : ℕ) → IsTrue (has terminals.now k) → mask terminals.now (k ∷ []) ≡ bits → result ≡ Some k }
{
    let mut bit = 1;
    for &terminal in terminals {
        if bit == bits {
            return Some(terminal);
        }
        bit *= 2;
    }
    None
}

// Joins each two rows of disjoint sets that together are the set.
fn join_parts(marks: &mut Vec<Mark>, reached: &[u32], rows: &[Row], bits: u32)
    requires apart { AllApart reached.now }
    requires range { All (λ v. v < length marks.old.items) reached.now }
    requires within { bits ≤ length rows.now }
    requires costs { (m : ℕ) → 1 ≤ m → m < length rows.now →
        length (costs_of rows.now m) ≡ length reached.now }
    requires places { (m : ℕ) → 1 ≤ m → m < length rows.now →
        length (places_of rows.now m) ≡ length reached.now }
    ensures { (I : Network) (ks : List ℕ) (es : List Meaning) → AreRows I ks es reached.now rows.now →
        IsBegun I ks es bits marks.old.items → IsJoinedBelow I ks es reached.now rows.now bits bits marks.new.items }
{
    for part in 1..bits {
        join_part(marks, reached, rows, bits, part);
    }
}

// Joins the rows of a part and the rest, where the part is the lesser and they share no terminal.
fn join_part(marks: &mut Vec<Mark>, reached: &[u32], rows: &[Row], bits: u32, part: u32)
    requires apart { AllApart reached.now }
    requires range { All (λ v. v < length marks.old.items) reached.now }
    requires part { (1 ≤ part) × (part < bits) }
    requires within { bits ≤ length rows.now }
    requires costs { (m : ℕ) → 1 ≤ m → m < length rows.now →
        length (costs_of rows.now m) ≡ length reached.now }
    requires places { (m : ℕ) → 1 ≤ m → m < length rows.now →
        length (places_of rows.now m) ≡ length reached.now }
    ensures long { length marks.new.items ≡ length marks.old.items }
    ensures joined { (I : Network) (ks : List ℕ) (es : List Meaning) → AreRows I ks es reached.now rows.now →
        IsJoinedBelow I ks es reached.now rows.now bits part marks.old.items →
        IsJoinedBelow I ks es reached.now rows.now bits (part + 1) marks.new.items }
{
    let rest = bits - part;
    if part >= rest {
        return;
    }
    if part & rest != 0 {
        return;
    }
    join(marks, reached, &rows[part as usize], &rows[rest as usize]);
}

// Joins two rows at each vertex that they are over.
fn join(marks: &mut Vec<Mark>, reached: &[u32], first: &Row, second: &Row)
    requires apart { AllApart reached.now }
    requires range { All (λ v. v < length marks.old.items) reached.now }
    requires first_costs { length first.now.costs.items ≡ length reached.now }
    requires first_places { length first.now.places.items ≡ length reached.now }
    requires second_costs { length second.now.costs.items ≡ length reached.now }
    requires second_places { length second.now.places.items ≡ length reached.now }
    ensures { Joins reached.now (length reached.now) marks.old.items first.now second.now marks.new.items }
{
    for slot in 0..reached.len() {
        let vertex = reached[slot] as usize;
        let cost = first.costs[slot].saturating_add(second.costs[slot]);
        if cost < marks[vertex].cost {
            marks[vertex] = Mark {
                cost,
                way: Way::Joined(first.places[slot], second.places[slot]),
                place: 0,
            };
        }
    }
}
