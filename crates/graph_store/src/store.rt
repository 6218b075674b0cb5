ghost use Rattle.std.specs.Prelude.{◌≡◌, ◌≢◌, ℕ, ◌+◌, ◌^◌, ◌<◌, ◌≤◌, ◌↔◌, true, IsTrue, IsSome, None, IfOk, IfSome, IfNone, OnOk, OnErr, length, replicate, unwrap_or};
ghost use Rattle.st_model.specs.Network.{IsVertex, amount, link, need_of, pays, prize};
ghost use Rattle.graph_store.specs.Graph.{is_in, IsGraph};
ghost use Rattle.graph_store.specs.Changes.{RemovesVertex, RemovesLink, with_link, with_link_cost, with_need};
ghost use Rattle.graph_store.specs.Neighbours.{AreNeighbours, IsDegree};

use crate::Half;
use crate::building::{link_all, present_all};
use crate::links::Links;
use st_model::{Instance, Link, Need};
use std::alloc::{AllocError, Global};
use std::marker::Model;

/// A graph under change: an instance, and which of its vertices are present.
#[derive(Drop)]
pub struct Store {
    links: Links,
    needs: Vec<Need>,
    present: Vec<bool>,
}

impl Model for Store {
    ghost use Rattle.graph_store.specs.Graph.{Graph, IsGraph};
    ghost use Rattle.graph_store.specs.Joined.{graph_of};

    ghost Value = { Graph };

    ghost view = { λ s. graph_of s.links s.needs.items s.present.items };

    ghost invariant = { λ s. IsGraph (graph_of s.links s.needs.items s.present.items) };
}

impl Store {
    /// The instance, all of whose vertices are present.
    pub fn of(alloc: Global, instance: &Instance) -> Result<Store, AllocError>
        ensures { IfOk result (λ store. store
            ≡ record { network = instance.now; present = replicate instance.now.n true }) }
    {
        let links = link_all(alloc, instance)?;
        let needs = Vec::from_slice(alloc, instance.needs())?;
        let present = present_all(alloc, instance.vertices())?;
        Ok(Store {
            links,
            needs,
            present,
        })
    }

    /// How many vertices there are, present or not; they are numbered from 1.
    pub fn vertices(&self) -> u32
        ensures count { result ≡ self.now.network.n }
        ensures graph { IsGraph self.now }
    {
        self.links.vertices()
    }

    /// What a vertex needs.
    pub fn need(&self, vertex: u32) -> Need
        requires { IsVertex self.now.network.n vertex }
        ensures { result ≡ need_of self.now.network vertex }
    {
        self.needs[vertex as usize - 1]
    }

    /// Whether a vertex is present.
    pub fn is_present(&self, vertex: u32) -> bool
        requires { IsVertex self.now.network.n vertex }
        ensures { result ≡ is_in self.now vertex }
    {
        self.present[vertex as usize - 1]
    }

    /// What leaving out a vertex costs, which is nothing where it is required.
    pub fn prize(&self, vertex: u32) -> u64
        requires { IsVertex self.now.network.n vertex }
        ensures { result ≡ pays self.now.network vertex }
    {
        match self.need(vertex) {
            Need::Required => 0,
            Need::Pays(prize) => prize,
        }
    }

    /// What the link between two vertices costs, if there is one, in constant expected time.
    pub fn link_cost(&self, a: u32, b: u32) -> Option<u64>
        ensures { result ≡ link self.now.network.links a b }
    {
        self.links.cost(a, b)
    }

    /// How many vertices a vertex is linked with.
    pub fn degree(&self, vertex: u32) -> u32
        requires { IsVertex self.now.network.n vertex }
        ensures { IsDegree self.now.network vertex result }
    {
        self.neighbours(vertex).len() as u32
    }

    /// The vertices that a vertex is linked with, each once and in a free order.
    pub fn neighbours(&self, vertex: u32) -> &[Half]
        requires { IsVertex self.now.network.n vertex }
        ensures halves { AreNeighbours self.now.network vertex result.now }
        ensures graph { IsGraph self.now }
    {
        self.links.halves(vertex)
    }

    /// All links, in time linear in their number.
    pub fn links(&self, alloc: Global) -> Result<Vec<Link>, AllocError>
        ensures { IfOk result (λ links. links.items ≡ self.now.network.links) }
    {
        self.links.all(alloc)
    }

    /// The graph as an instance; of its vertices none is missing, but those that aren't present
    /// have no links.
    pub fn instance(&self, alloc: Global) -> Result<Instance, AllocError>
        ensures { IfOk result (λ instance. instance ≡ self.now.network) }
    {
        let links = self.links(alloc)?;
        let needs = Vec::from_slice(alloc, &self.needs)?;
        Instance::from_parts(alloc, self.links.vertices(), links, needs)
    }

    /// Removes a vertex and its links, in time linear in its degree.
    pub fn remove_vertex(&mut self, vertex: u32)
        requires { IsVertex self.old.network.n vertex }
        ensures removes { RemovesVertex self.old self.new vertex }
        ensures graph { IsGraph self.new }
        ensures amount { amount self.new.network ≤ amount self.old.network }
    {
        while let Some(other) = self.last_neighbour(vertex) {
            self.remove_link(vertex, other);
        }
        self.present[vertex as usize - 1] = false;
    }

    // One of the vertices that a vertex is linked with.
    fn last_neighbour(&self, vertex: u32) -> Option<u32>
        requires { IsVertex self.now.network.n vertex }
        ensures linked { IfSome result (λ other. IsSome (link self.now.network.links vertex other) ×
            IsVertex self.now.network.n other) }
        ensures alone { IfNone result ((other : ℕ) → link self.now.network.links vertex other ≡ None) }
    {
        Some(self.neighbours(vertex).last()?.to)
    }

    /// Removes the link between two vertices, if there is one, in constant expected time.
    pub fn remove_link(&mut self, a: u32, b: u32)
        requires a { IsVertex self.old.network.n a }
        requires b { IsVertex self.old.network.n b }
        ensures removes { RemovesLink self.old self.new a b }
        ensures graph { IsGraph self.new }
        ensures fewer { IsSome (link self.old.network.links a b) →
            length self.new.network.links + 1 ≡ length self.old.network.links }
        ensures unchanged { link self.old.network.links a b ≡ None → self.new ≡ self.old }
        ensures amount { amount self.new.network + unwrap_or (link self.old.network.links a b) 0
            ≡ amount self.old.network }
    {
        self.links.remove(a, b);
    }

    /// Links two present vertices at a cost, or at what their link costs so far if that is less,
    /// in constant expected time. A new link stands last, and no other changes its place.
    pub fn put_link(&mut self, a: u32, b: u32, cost: u64) -> Result<(), AllocError>
        requires a { IsTrue (is_in self.old a) }
        requires b { IsTrue (is_in self.old b) }
        requires different { a ≢ b }
        requires amount { amount (with_link self.old a b cost).network < 2 ^ 63 }
        ensures ok { OnOk result (self.new ≡ with_link self.old a b cost) }
        ensures amount { OnOk result (amount self.new.network ≤ amount self.old.network + cost) }
        ensures err { OnErr result (self.new ≡ self.old) }
    {
        let (low, high) = (a.min(b), a.max(b));
        if self.links.cheapen(low, high, cost) {
            return Ok(());
        }
        self.links.attach(low, high, cost)
    }

    /// Says what the link between two vertices costs from now on, in constant expected time.
    pub fn set_cost(&mut self, a: u32, b: u32, cost: u64)
        requires linked { IsSome (link self.old.network.links a b) }
        requires amount { amount self.old.network + cost
            < 2 ^ 63 + unwrap_or (link self.old.network.links a b) 0 }
        ensures cost { self.new ≡ with_link_cost self.old a b cost }
        ensures graph { IsGraph self.new }
        ensures amount { amount self.new.network + unwrap_or (link self.old.network.links a b) 0
            ≡ amount self.old.network + cost }
    {
        self.links.set_cost(a.min(b), a.max(b), cost);
    }

    /// Says what a vertex needs from now on.
    pub fn set_need(&mut self, vertex: u32, need: Need)
        requires vertex { IsVertex self.old.network.n vertex }
        requires amount { amount self.old.network + prize need < 2 ^ 63 + pays self.old.network vertex }
        ensures need { self.new ≡ with_need self.old vertex need }
        ensures graph { IsGraph self.new }
        ensures amount { amount self.new.network + pays self.old.network vertex
            ≡ amount self.old.network + prize need }
    {
        self.needs[vertex as usize - 1] = need;
    }
}
