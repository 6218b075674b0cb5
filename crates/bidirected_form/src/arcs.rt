ghost use Rattle.std.specs.Prelude.{◌≡◌, ℕ, ◌↔◌, ◌<◌, ◌≤◌, IfOk, IsTrue, IsFalse, Contains, AllPairs};
ghost use Rattle.st_model.specs.Branch.{IsVertexSet};
ghost use Rattle.st_model.specs.Lists.{has};
ghost use Rattle.st_model.specs.Network.{IsVertex};
ghost use Rattle.bidirected_form.specs.Bidirected.{kind_in, arc_cost};
ghost use Rattle.bidirected_form.specs.Digraph.{kind_of, arcs_into, neighbours, remaining, IsDigraph};
ghost use Rattle.bidirected_form.specs.Entering.{Alters, IsEntering, IsBefore, CanBear, Charges, HasRoom, Returns};
ghost use Rattle.bidirected_form.specs.Rows.{after, CanAlter};

use crate::building::{kinds_of, no_marks, rows_of};
use crate::change::Change;
use crate::entering::{alter_entering, entering_arcs};
use crate::marks::{mark, unmark};
use crate::rows::{Rows, find};
use crate::{Arc, VertexKind};
use graph_store::Store;
use st_model::Sides;
use std::alloc::{AllocError, Global};
use std::marker::Model;

/// The links between the vertices that a branch leaves, as two arcs each, with what remains of
/// each arc's cost. A link that is barred gives no arc. (Wong 1984 takes from it in dual ascent.)
#[derive(Drop)]
pub struct Arcs {
    root: u32,
    vertices: u32,
    // What vertex 0, 1, .. n is.
    kinds: Vec<VertexKind>,
    rows: Rows,
    // Scratch: a mark for vertex 0, 1, .. n, and none is set between calls.
    marks: Vec<bool>,
}

impl Model for Arcs {
    ghost use Rattle.std.specs.Prelude.{◌≡◌, ◌+◌, ℕ, false, length, slice_index_or};
    ghost use Rattle.bidirected_form.specs.Digraph.{Digraph, IsDigraph};

    ghost Value = { Digraph };

    ghost view = { λ a. record { root = a.root; n = a.vertices; kinds = a.kinds.items; arcs = a.rows } };

    ghost invariant = { λ a. IsDigraph (record { root = a.root; n = a.vertices; kinds = a.kinds.items; arcs = a.rows })
        × (length a.marks.items ≡ a.vertices + 1)
        × ((v : ℕ) → slice_index_or a.marks.items v false ≡ false) };
}

impl Arcs {
    /// Both arcs of each link between vertices that are present in the store and not outside in
    /// the branch, at the link's cost, unless the branch bars the link. Linear but for the sorting of
    /// each vertex's neighbours, and a look-up for each arc where any link is barred.
    pub fn of(alloc: Global, store: &Store, branch: &Sides, root: u32) -> Result<Arcs, AllocError>
        requires { IsVertex store.now.network.n root }
        ensures root { IfOk result (λ arcs. arcs.root ≡ root) }
        ensures count { IfOk result (λ arcs. arcs.n ≡ store.now.network.n) }
        ensures kinds { IfOk result (λ arcs. (v : ℕ) → kind_of arcs v ≡ kind_in store.now branch.now v) }
        ensures remaining { IfOk result (λ arcs. (u v : ℕ) → remaining arcs u v ≡ arc_cost store.now branch.now u v) }
    {
        let vertices = store.vertices();
        let kinds = kinds_of(alloc, store, branch)?;
        let rows = rows_of(alloc, store, branch, &kinds)?;
        let marks = no_marks(alloc, vertices)?;
        Ok(Arcs {
            root,
            vertices,
            kinds,
            rows,
            marks,
        })
    }

    /// The same arcs, with as much left of each.
    pub fn copied(&self, alloc: Global) -> Result<Arcs, AllocError>
        ensures { IfOk result (λ copy. copy ≡ self.now) }
    {
        Ok(Arcs {
            root: self.root,
            vertices: self.vertices,
            kinds: Vec::from_slice(alloc, &self.kinds)?,
            rows: self.rows.copied(alloc)?,
            marks: Vec::from_slice(alloc, &self.marks)?,
        })
    }

    /// The vertex from which all others are to be reached.
    pub fn root(&self) -> u32
        ensures root { result ≡ self.now.root }
        ensures digraph { IsDigraph self.now }
    {
        self.root
    }

    /// How many vertices there are, outside or not; they are numbered from 1.
    pub fn vertices(&self) -> u32
        ensures count { result ≡ self.now.n }
        ensures digraph { IsDigraph self.now }
    {
        self.vertices
    }

    /// What a vertex is.
    pub fn kind(&self, vertex: u32) -> VertexKind
        requires { IsVertex self.now.n vertex }
        ensures { result ≡ kind_of self.now vertex }
    {
        self.kinds[vertex as usize]
    }

    /// The other ends of a vertex's arcs, ascending.
    pub fn neighbours(&self, vertex: u32) -> &[u32]
        requires { IsVertex self.now.n vertex }
        ensures all { result.now ≡ neighbours self.now vertex }
        ensures digraph { IsDigraph self.now }
    {
        self.rows.tails(vertex)
    }

    /// The arcs into a vertex, ascending by where they come from, with what remains of each.
    pub fn arcs_into(&self, vertex: u32) -> &[Arc]
        requires { IsVertex self.now.n vertex }
        ensures all { result.now ≡ arcs_into self.now vertex }
        ensures digraph { IsDigraph self.now }
    {
        self.rows.row(vertex)
    }

    /// What remains of the arc from `u` to `v`; None where there is no such arc. Takes time
    /// logarithmic in the degree of `v`.
    pub fn remaining(&self, u: u32, v: u32) -> Option<u64>
        ensures { result ≡ remaining self.now u v }
    {
        if v == 0 || v > self.vertices {
            return None;
        }
        find(self.rows.tails(v), self.rows.row(v), u)
    }

    /// The arcs (u, v) with v in the set and u not, ascending by u, and by v where u is the same.
    /// Takes time linear in the set and its vertices' degrees, up to the sorting of what it gives.
    pub fn entering(&mut self, alloc: Global, set: &[u32]) -> Result<Vec<(u32, u32)>, AllocError>
        requires { IsVertexSet self.old.n set.now }
        ensures arcs { IfOk result (λ arcs. (u v : ℕ) →
            Contains arcs.items (u, v) ↔ IsEntering self.old set.now (u, v)) }
        ensures ascending { IfOk result (λ arcs. AllPairs IsBefore arcs.items) }
        ensures same { self.new ≡ self.old }
    {
        mark(&mut self.marks, set);
        let found = entering_arcs(alloc, &self.rows, &self.marks, set);
        unmark(&mut self.marks, set);
        found
    }

    /// Lowers what remains of each arc that enters a set, in time linear in the set and its
    /// vertices' degrees.
    pub fn charge(&mut self, set: &[u32], y: u64)
        requires set { IsVertexSet self.old.n set.now }
        requires root { IsFalse (has set.now self.old.root) }
        requires enough { CanBear self.old set.now y }
        ensures { Charges self.old self.new set.now y }
    {
        self.alter(set, Change::Take(y));
    }

    /// Gives so much back to each arc that enters a set: the reverse of `charge`, in as much time.
    pub fn give_back(&mut self, set: &[u32], y: u64)
        requires set { IsVertexSet self.old.n set.now }
        requires room { HasRoom self.old set.now y }
        ensures { Returns self.old self.new set.now y }
    {
        self.alter(set, Change::Give(y));
    }

    // Changes what remains of each arc that enters a set.
    fn alter(&mut self, set: &[u32], change: Change)
        requires set { IsVertexSet self.old.n set.now }
        requires allowed { CanAlter self.old set.now change }
        ensures { Alters self.old self.new set.now (after change) }
    {
        mark(&mut self.marks, set);
        alter_entering(&mut self.rows, &self.marks, set, change);
        unmark(&mut self.marks, set);
    }
}
