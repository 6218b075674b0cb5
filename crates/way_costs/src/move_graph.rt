use crate::by_vertex::ByVertex;
use crate::noise::Noise;
use graph_store::{Half, Store};
use st_model::{Need, Sides};
use std::alloc::{AllocError, Global};

/// The graph that a tree is changed in, the branch that it is to stay in, and the noise on what links cost.
#[derive(Drop)]
pub struct MoveGraph<'a> {
    store: &'a Store,
    branch: &'a Sides,
    noise: Noise,
    // The links, vertex by vertex: first those to vertices that a tree may reach, the cheapest first.
    links: Vec<Half>,
    spans: ByVertex<Span>,
    // What all vertices together pay that a tree may leave out.
    prizes: u64,
}

// Where the links of a vertex begin, where those end that lead to vertices that a tree may reach, and
// where all end.
#[derive(Clone, Copy)]
struct Span {
    begin: usize,
    open: usize,
    end: usize,
}

const NO_LINKS: Span = Span {
    begin: 0,
    open: 0,
    end: 0,
};

impl<'a> MoveGraph<'a> {
    /// The graph as it stands, with its links by cost.
    pub fn of(
        alloc: Global,
        store: &'a Store,
        branch: &'a Sides,
        noise: Noise,
    ) -> Result<MoveGraph<'a>, AllocError> {
        let mut graph = MoveGraph {
            store,
            branch,
            noise,
            links: Vec::new(alloc),
            spans: ByVertex::new(alloc, store.vertices() as usize + 1, NO_LINKS)?,
            prizes: 0,
        };
        for before in 0..store.vertices() {
            graph.add(alloc, before + 1)?;
            let worth = graph.worth(before + 1);
            // All is worth what a tree may not leave out.
            if worth < u64::MAX {
                graph.prizes = graph.prizes.saturating_add(worth);
            }
        }
        Ok(graph)
    }

    // Adds the links of the next vertex.
    fn add(&mut self, alloc: Global, vertex: u32) -> Result<(), AllocError> {
        let begin = self.links.len();
        self.add_some(vertex, true)?;
        let open = self.links.len();
        self.add_some(vertex, false)?;
        let end = self.links.len();
        self.spans.put(vertex, Span { begin, open, end });
        match self.links.as_mut_slice().get_mut(begin..open) {
            Some(links) => links.sort_by_key(alloc, |half: &Half| half.cost),
            None => Ok(()),
        }
    }

    // Adds the links of a vertex to those that a tree may reach, or to the others.
    fn add_some(&mut self, vertex: u32, are_open: bool) -> Result<(), AllocError> {
        for half in links_of(self.store, vertex) {
            if self.is_open(half.to) == are_open {
                let cost = self.noise.cost(vertex, half.to, half.cost);
                self.links.push(Half { to: half.to, cost })?;
            }
        }
        Ok(())
    }
}

impl MoveGraph<'_> {
    /// How many vertices there are.
    pub fn vertices(&self) -> u32 {
        self.store.vertices()
    }

    /// How many places a list by vertex has.
    pub fn count(&self) -> usize {
        self.store.vertices() as usize + 1
    }

    /// What all vertices together pay that a tree may leave out.
    pub fn prizes(&self) -> u64 {
        self.prizes
    }

    /// How many of a share fall to each link: at most so many, and one at least.
    pub fn times(&self, most: u64, share: u64) -> u64 {
        let links = self.links.len() as u64 / 2;
        most.min(share / links.max(1)).max(1)
    }

    /// The links of a vertex.
    pub fn neighbours(&self, vertex: u32) -> &[Half] {
        let span = self.spans.at(vertex);
        let links = self.links.as_slice().get(span.begin..span.end);
        links.unwrap_or(&[])
    }

    /// The links of a vertex to those that a tree may reach, the cheapest first.
    pub fn open_neighbours(&self, vertex: u32) -> &[Half] {
        let span = self.spans.at(vertex);
        let links = self.links.as_slice().get(span.begin..span.open);
        links.unwrap_or(&[])
    }

    /// What the link between two vertices costs; nothing where there is none.
    pub fn link_cost(&self, a: u32, b: u32) -> u64 {
        match self.store.link_cost(a, b) {
            Some(cost) => self.noise.cost(a, b, cost),
            None => 0,
        }
    }

    /// Whether a tree may reach a vertex.
    pub fn is_open(&self, vertex: u32) -> bool {
        !self.branch.is_outside(vertex)
    }

    /// What it is worth to reach a vertex: its prize, and all where it is required or inside.
    pub fn worth(&self, vertex: u32) -> u64 {
        if vertex == 0 || vertex > self.store.vertices() {
            return 0;
        }
        match self.store.need(vertex) {
            Need::Pays(prize) if !self.branch.is_inside(vertex) => self.noise.scaled(prize),
            _ => u64::MAX,
        }
    }
}

// The links of a vertex, if there is such a vertex.
fn links_of(store: &Store, vertex: u32) -> &[Half] {
    if vertex == 0 || vertex > store.vertices() {
        return &[];
    }
    store.neighbours(vertex)
}
