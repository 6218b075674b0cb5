ghost use Rattle.std.specs.Prelude.{◌≡◌, ◌^◌, ◌<◌, ◌≤◌, IfOk, OnSome, All};
ghost use Rattle.st_model.specs.Lists.{has, total};
ghost use Rattle.st_model.specs.Network.{IsVertex};
ghost use Rattle.arborescence.specs.DiNetwork.{IsDiNetwork, arc_from, away_price, is_sought};
ghost use Rattle.arborescence.specs.Stated.{di_network_of};

use crate::build::{ascending_terminals, merge_arcs};
use indexmap::IndexSet;
use st_model::{Link, VertexSet};
use std::alloc::{AllocError, Global};
use std::marker::Model;

/// A directed graph whose arcs have costs, with a root and the terminals that are to be reached from it.
#[derive(Drop)]
pub struct DiInstance {
    vertices: u32,
    root: u32,
    // An arc leads from a to b.
    arcs: Vec<Link>,
    // The tail and the head of each arc, at the arc's own index.
    pairs: IndexSet<(u32, u32)>,
    terminals: Vec<u32>,
    // The terminals, as a set.
    stated: VertexSet,
}

impl Model for DiInstance {
    ghost use Rattle.std.specs.Prelude.{◌≡◌, ℕ, ◌+◌, ◌<◌, map};
    ghost use Rattle.st_model.specs.Lists.{has};
    ghost use Rattle.arborescence.specs.DiNetwork.{DiNetwork, IsDiNetwork};
    ghost use Rattle.arborescence.specs.Stated.{tail_head};

    ghost Value = { DiNetwork };

    ghost view = { λ i. record { n = i.vertices; root = i.root; arcs = i.arcs.items; terminals = i.terminals.items } };

    ghost invariant = { λ i. IsDiNetwork (record { n = i.vertices; root = i.root; arcs = i.arcs.items; terminals = i.terminals.items })
        × (i.pairs.keys ≡ map tail_head i.arcs.items)
        × ((v : ℕ) → v < i.vertices + 1 → has i.stated.members v ≡ has i.terminals.items v) };
}

impl DiInstance {
    /// The instance of these vertices, root, arcs and terminals. A link stands for the arc from a to b: of
    /// several from one vertex to another the cheapest counts, and one with equal ends is no arc. A terminal
    /// may be stated several times, and the root may be one.
    pub fn build(
        alloc: Global,
        vertices: u32,
        root: u32,
        arcs: &[Link],
        terminals: &[u32],
    ) -> Result<DiInstance, AllocError>
        requires few_vertices { vertices ≤ 1000000 }
        requires root { IsVertex vertices root }
        requires ends { All (λ l. IsVertex vertices l.a × IsVertex vertices l.b) arcs.now }
        requires terminals { All (IsVertex vertices) terminals.now }
        requires amount { total (λ l. l.cost) arcs.now < 2 ^ 63 }
        ensures { IfOk result (λ i. i ≡ di_network_of vertices root arcs.now terminals.now) }
    {
        let (arcs, pairs) = merge_arcs(alloc, arcs)?;
        let stated = VertexSet::of(alloc, vertices as usize + 1, terminals)?;
        let terminals = ascending_terminals(alloc, vertices, &stated)?;
        Ok(DiInstance {
            vertices,
            root,
            arcs,
            pairs,
            terminals,
            stated,
        })
    }

    /// How many vertices there are; they are numbered from 1.
    pub fn vertices(&self) -> u32
        ensures count { result ≡ self.now.n }
        ensures instance { IsDiNetwork self.now }
    {
        self.vertices
    }

    /// The vertex from which all terminals are to be reached.
    pub fn root(&self) -> u32
        ensures root { result ≡ self.now.root }
        ensures vertex { IsVertex self.now.n result }
        ensures instance { IsDiNetwork self.now }
    {
        self.root
    }

    /// One arc for each ordered pair of vertices between which one leads, those into the root too.
    pub fn arcs(&self) -> &[Link]
        ensures all { result.now ≡ self.now.arcs }
        ensures instance { IsDiNetwork self.now }
    {
        &self.arcs
    }

    /// The terminals, ascending.
    pub fn terminals(&self) -> &[u32]
        ensures all { result.now ≡ self.now.terminals }
        ensures instance { IsDiNetwork self.now }
    {
        &self.terminals
    }

    /// Whether a vertex is a terminal.
    pub fn is_terminal(&self, vertex: u32) -> bool
        ensures { result ≡ has self.now.terminals vertex }
    {
        vertex <= self.vertices && self.stated.contains(vertex)
    }

    /// Whether a vertex has to be reached: it is a terminal, or the root.
    pub fn is_sought(&self, vertex: u32) -> bool
        ensures { result ≡ is_sought self.now vertex }
    {
        vertex == self.root || self.is_terminal(vertex)
    }

    /// The cost of the arc from one vertex to another, into the root too.
    pub fn arc_cost(&self, tail: u32, head: u32) -> Option<u64>
        ensures cost { result ≡ arc_from self.now.arcs tail head }
        ensures in_range { OnSome result (IsVertex self.now.n tail × IsVertex self.now.n head) }
    {
        let index = self.pairs.get_index_of(&(tail, head))?;
        Some(self.arcs[index].cost)
    }

    /// The cost of the arc from one vertex to another, of which none leads to the root: no tree has one.
    pub fn away_cost(&self, tail: u32, head: u32) -> Option<u64>
        ensures cost { result ≡ away_price self.now tail head }
        ensures in_range { OnSome result (IsVertex self.now.n tail × IsVertex self.now.n head) }
    {
        if head == self.root {
            return None;
        }
        self.arc_cost(tail, head)
    }
}
