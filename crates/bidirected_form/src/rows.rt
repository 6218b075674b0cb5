ghost use Rattle.std.specs.Prelude.{◌≡◌, ◌-◌, ◌<◌, ◌≤◌, false, [], length, map, All, AllPairs, IfOk, slice_index_or, slice_range, slice_set, take, drop, ◌++◌};
ghost use Rattle.bidirected_form.specs.Rows.{rows_from, row_of, altered, IsLaidOut, IsAllowed};
ghost use Rattle.bidirected_form.specs.Digraph.{left_from};

use crate::arc::Arc;
use crate::change::Change;
use std::alloc::{AllocError, Global};
use std::marker::Model;

// The arcs into each vertex, in one list.
#[derive(Drop)]
pub struct Rows {
    // Where the arcs into vertex 0, 1, .. end, and those into the next one begin.
    ends: Vec<usize>,
    arcs: Vec<Arc>,
    // The tail of each arc.
    tails: Vec<u32>,
}

impl Model for Rows {
    ghost use Rattle.std.specs.Prelude.{◌≡◌, List, length, map};
    ghost use Rattle.bidirected_form.specs.declared.arc.Arc.{Arc};
    ghost use Rattle.bidirected_form.specs.Rows.{rows_from, IsLaidOut};

    ghost Value = { List (List Arc) };

    ghost view = { λ r. rows_from 0 r.ends.items r.arcs.items };

    ghost invariant = { λ r. IsLaidOut 0 r.ends.items (length r.arcs.items)
        × (r.tails.items ≡ map (λ a. a.tail) r.arcs.items) };
}

impl Rows {
    // The arcs up to each of these ends, in turn.
    pub fn of(alloc: Global, ends: Vec<usize>, arcs: Vec<Arc>) -> Result<Rows, AllocError>
        requires { IsLaidOut 0 ends.items (length arcs.items) }
        ensures { IfOk result (λ rows. rows ≡ rows_from 0 ends.items arcs.items) }
    {
        let tails = arcs.iter().map(|arc| arc.tail).collect(alloc)?;
        Ok(Rows { ends, arcs, tails })
    }

    // The same arcs.
    pub fn copied(&self, alloc: Global) -> Result<Rows, AllocError>
        ensures { IfOk result (λ copy. copy ≡ self.now) }
    {
        Ok(Rows {
            ends: Vec::from_slice(alloc, &self.ends)?,
            arcs: Vec::from_slice(alloc, &self.arcs)?,
            tails: Vec::from_slice(alloc, &self.tails)?,
        })
    }

    // The arcs into a vertex.
    pub fn row(&self, vertex: u32) -> &[Arc]
        requires some { 1 ≤ vertex }
        requires few { vertex < length self.now }
        ensures { result.now ≡ row_of self.now vertex }
    {
        let (begin, end) = bounds(&self.ends, vertex);
        part(&self.arcs, begin, end)
    }

    // The tails of the arcs into a vertex.
    pub fn tails(&self, vertex: u32) -> &[u32]
        requires some { 1 ≤ vertex }
        requires few { vertex < length self.now }
        ensures { result.now ≡ map (λ a. a.tail) (row_of self.now vertex) }
    {
        let (begin, end) = bounds(&self.ends, vertex);
        part(&self.tails, begin, end)
    }

    // Changes the arcs into a vertex from vertices without a mark.
    pub fn alter(&mut self, vertex: u32, marks: &[bool], change: Change)
        requires some { 1 ≤ vertex }
        requires few { vertex < length self.old }
        requires allowed { All (IsAllowed marks.now change) (row_of self.old vertex) }
        ensures { self.new ≡ slice_set self.old vertex (map (altered marks.now change) (row_of self.old vertex)) }
    {
        let (begin, end) = bounds(&self.ends, vertex);
        alter_part(&mut self.arcs, begin, end, marks, change);
    }
}

// Where the arcs into a vertex begin, and where they end.
fn bounds(ends: &[usize], vertex: u32) -> (usize, usize)
    requires some { 1 ≤ vertex }
    requires few { vertex < length ends.now }
    ensures begin { result.0 ≡ slice_index_or ends.now (vertex - 1) 0 }
    ensures end { result.1 ≡ slice_index_or ends.now vertex 0 }
{
    (ends[vertex as usize - 1], ends[vertex as usize])
}

// The items from a place up to another one.
fn part<T>(items: &[T], begin: usize, end: usize) -> &[T]
    requires rise { begin ≤ end }
    requires within { end ≤ length items.now }
    ensures { result.now ≡ slice_range items.now begin end }
{
    &items[begin..end]
}

// Changes the arcs from a place up to another one that come from vertices without a mark.
fn alter_part(arcs: &mut Vec<Arc>, begin: usize, end: usize, marks: &[bool], change: Change)
    requires rise { begin ≤ end }
    requires within { end ≤ length arcs.old.items }
    requires allowed { All (IsAllowed marks.now change) (slice_range arcs.old.items begin end) }
    ensures { arcs.new.items ≡ take begin arcs.old.items ++ (map (altered marks.now change)
        (slice_range arcs.old.items begin end) ++ drop end arcs.old.items) }
{
    alter_all(&mut arcs[begin..end], marks, change);
}

// Changes the arcs from vertices without a mark.
fn alter_all(arcs: &mut [Arc], marks: &[bool], change: Change)
    requires { All (IsAllowed marks.now change) arcs.old }
    ensures { arcs.new ≡ map (altered marks.now change) arcs.old }
{
    for arc in arcs.iter_mut() {
        if !is_marked(marks, arc.tail) {
            arc.remaining = change.applied(arc.remaining);
        }
    }
}

// Whether a vertex has a mark.
pub fn is_marked(marks: &[bool], vertex: u32) -> bool
    ensures { result ≡ slice_index_or marks.now vertex false }
{
    marks.get(vertex as usize).copied().unwrap_or(false)
}

// What remains of the arc from a vertex, if there is one; `tails` are those of the arcs.
pub fn find(tails: &[u32], arcs: &[Arc], tail: u32) -> Option<u64>
    requires tails { tails.now ≡ map (λ a. a.tail) arcs.now }
    requires ascending { AllPairs (λ a b. a.tail < b.tail) arcs.now }
    ensures { result ≡ left_from arcs.now tail }
{
    match tails.binary_search(&tail) {
        Ok(place) => Some(arcs[place].remaining),
        Err(_) => None,
    }
}
