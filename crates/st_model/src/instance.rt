ghost use Rattle.std.specs.Prelude.{◌≡◌, ◌+◌, ◌^◌, ◌<◌, ◌≤◌, IfOk, OnSome, All};
ghost use Rattle.st_model.specs.Lists.{total};
ghost use Rattle.st_model.specs.Network.{IsInstance, IsVertex, link, need_of, pays, prize};
ghost use Rattle.st_model.specs.Stated.{network_of};

use crate::build::{merge_links, merge_needs, pairs_of};
use crate::{Link, Need};
use indexmap::IndexSet;
use std::alloc::{AllocError, Global};
use std::marker::Model;

/// The greatest number of vertices of an instance.
pub const MAX_VERTICES: u32 = 1_000_000;

/// A graph whose links have costs, and what each of its vertices needs.
#[derive(Debug, Drop)]
pub struct Instance {
    vertices: u32,
    links: Vec<Link>,
    // The ends of each link, the lower first, at the link's own index.
    pairs: IndexSet<(u32, u32)>,
    needs: Vec<Need>,
}

impl Model for Instance {
    ghost use Rattle.std.specs.Prelude.{◌≡◌, map};
    ghost use Rattle.st_model.specs.Network.{Network, IsInstance};
    ghost use Rattle.st_model.specs.Stated.{ends};

    ghost Value = { Network };

    ghost view = { λ i. record { n = i.vertices; links = i.links.items; needs = i.needs.items } };

    ghost invariant = { λ i. IsInstance (record { n = i.vertices; links = i.links.items; needs = i.needs.items })
        × (i.pairs.keys ≡ map ends i.links.items) };
}

impl Instance {
    /// The instance of these vertices, links and needs. Of several links between two vertices the
    /// cheapest counts, and a link with equal ends none. Of several needs of a vertex Required
    /// wins, else the greatest prize; a vertex of which nothing is stated pays 0.
    pub fn build(
        alloc: Global,
        vertices: u32,
        links: &[Link],
        needs: &[(u32, Need)],
    ) -> Result<Instance, AllocError>
        requires some_vertex { 1 ≤ vertices }
        requires few_vertices { vertices ≤ 1000000 }
        requires ends { All (λ l. IsVertex vertices l.a × IsVertex vertices l.b) links.now }
        requires needs { All (λ stated. IsVertex vertices stated.0) needs.now }
        requires amount { total (λ l. l.cost) links.now + total (λ stated. prize stated.1) needs.now < 2 ^ 63 }
        ensures { IfOk result (λ i. i ≡ network_of vertices links.now needs.now) }
    {
        let (links, pairs) = merge_links(alloc, links)?;
        let needs = merge_needs(alloc, vertices, needs)?;
        Ok(Instance {
            vertices,
            links,
            pairs,
            needs,
        })
    }

    /// The instance of just these links and needs, those of the first vertex first.
    pub fn from_parts(
        alloc: Global,
        vertices: u32,
        links: Vec<Link>,
        needs: Vec<Need>,
    ) -> Result<Instance, AllocError>
        requires { IsInstance (record { n = vertices; links = links.items; needs = needs.items }) }
        ensures { IfOk result
            (λ i. i ≡ record { n = vertices; links = links.items; needs = needs.items }) }
    {
        let pairs = pairs_of(alloc, &links)?;
        Ok(Instance {
            vertices,
            links,
            pairs,
            needs,
        })
    }

    /// The same instance again.
    pub fn copied(&self, alloc: Global) -> Result<Instance, AllocError>
        ensures { IfOk result (λ copy. copy ≡ self.now) }
    {
        let links = Vec::from_slice(alloc, &self.links)?;
        let needs = Vec::from_slice(alloc, &self.needs)?;
        Instance::from_parts(alloc, self.vertices, links, needs)
    }

    /// How many vertices there are; they are numbered from 1.
    pub fn vertices(&self) -> u32
        ensures count { result ≡ self.now.n }
        ensures instance { IsInstance self.now }
    {
        self.vertices
    }

    /// What a vertex needs.
    pub fn need(&self, vertex: u32) -> Need
        requires { IsVertex self.now.n vertex }
        ensures { result ≡ need_of self.now vertex }
    {
        self.needs[vertex as usize - 1]
    }

    /// What each vertex needs, the first one first.
    pub fn needs(&self) -> &[Need]
        ensures all { result.now ≡ self.now.needs }
        ensures instance { IsInstance self.now }
    {
        &self.needs
    }

    /// What a vertex pays where it is left out: 0 where it is required.
    pub fn prize(&self, vertex: u32) -> u64
        requires { IsVertex self.now.n vertex }
        ensures { result ≡ pays self.now vertex }
    {
        self.need(vertex).prize()
    }

    /// The cost of the link between two vertices, in either order.
    pub fn link_cost(&self, a: u32, b: u32) -> Option<u64>
        ensures cost { result ≡ link self.now.links a b }
        ensures in_range { OnSome result (IsVertex self.now.n a × IsVertex self.now.n b) }
    {
        let index = self.pairs.get_index_of(&(a.min(b), a.max(b)))?;
        Some(self.links[index].cost)
    }

    /// One link for each pair of joined vertices, the lower end first.
    pub fn links(&self) -> &[Link]
        ensures all { result.now ≡ self.now.links }
        ensures instance { IsInstance self.now }
    {
        &self.links
    }
}
