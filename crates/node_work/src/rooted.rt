use better_trees::by_vertex::{at, put};
use st_model::{Instance, Sides, Tree};
use std::alloc::{AllocError, Global};

/// A tree, its arcs led away from a root. Nothing is claimed of it: it says where to look.
#[derive(Drop)]
pub struct Rooted {
    // By vertex where the tree comes from: the root's own is the root, and 0 where it doesn't come.
    tails: Vec<u32>,
}

impl Rooted {
    /// The tree from a root. None where it reaches a vertex that is outside, or not the root.
    pub fn of(
        alloc: Global,
        instance: &Instance,
        branch: &Sides,
        tree: &Tree,
        root: u32,
    ) -> Result<Option<Rooted>, AllocError> {
        let mut tails = vec![in alloc; 0; instance.vertices() as usize + 1]?;
        put(&mut tails, tree.start, tree.start);
        for (tail, head) in tree.arcs.as_slice() {
            put(&mut tails, *head, *tail);
            if branch.is_outside(*head) {
                return Ok(None);
            }
        }
        if branch.is_outside(tree.start) || at(&tails, root, 0) == 0 {
            return Ok(None);
        }
        turn_round(&mut tails, root);
        Ok(Some(Rooted { tails }))
    }

    /// Whether the tree reaches a vertex.
    pub fn has(&self, vertex: u32) -> bool {
        at(&self.tails, vertex, 0) > 0
    }

    /// From where the tree comes to a vertex, if it does and that isn't the root.
    pub fn tail(&self, vertex: u32) -> Option<u32> {
        let tail = at(&self.tails, vertex, 0);
        if tail == 0 || tail == vertex {
            return None;
        }
        Some(tail)
    }
}

// Turns the arcs round that lead to a vertex from the root so far.
fn turn_round(tails: &mut [u32], root: u32) {
    let mut vertex = root;
    let mut new = root;
    for _step in 0..tails.len() {
        let old = at(tails, vertex, 0);
        put(tails, vertex, new);
        if old == vertex || old == 0 {
            return;
        }
        new = vertex;
        vertex = old;
    }
}
