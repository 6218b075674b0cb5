use st_model::{Instance, Tree};
use std::alloc::{AllocError, Global};

// How many links of a tree meet at a key vertex, at least.
const BRANCHING: u32 = 3;

/// Key vertices of trees, where these branch: by vertex, how many of their links meet there, of those trees of
/// which three or more do.
#[derive(Drop)]
pub struct KeyVertices {
    links: Vec<u32>,
}

impl KeyVertices {
    /// Of no tree of the instance.
    pub fn of_none(alloc: Global, instance: &Instance) -> Result<KeyVertices, AllocError> {
        Ok(KeyVertices {
            links: vec![in alloc; 0; instance.vertices() as usize + 1]?,
        })
    }

    /// Counts those of a tree too.
    pub fn count(&mut self, alloc: Global, tree: &Tree) -> Result<(), AllocError> {
        let mut met = vec![in alloc; 0; self.links.len()]?;
        for (tail, head) in tree.arcs.as_slice() {
            meet(&mut met, *tail);
            meet(&mut met, *head);
        }
        for (links, met) in self.links.iter_mut().zip(met) {
            if met >= BRANCHING {
                *links = links.saturating_add(met);
            }
        }
        Ok(())
    }

    /// How many links there are at a vertex.
    pub fn at(&self, vertex: u32) -> u32 {
        self.links.get(vertex as usize).copied().unwrap_or(0)
    }
}

// Counts a link at a vertex.
fn meet(met: &mut Vec<u32>, vertex: u32) {
    if let Some(links) = met.get_mut(vertex as usize) {
        *links = links.saturating_add(1);
    }
}
