ghost use Rattle.st_model.specs.Network.{IsVertex};

use bidirected_form::Arcs;
use graph_store::{Half, Store};
use std::alloc::{AllocError, Global};

/// The saturated arcs, which have nothing left, tail by tail.
#[derive(Drop)]
pub struct Saturated {
    pub root: u32,
    // Where they lead, and what their links cost; and where those of each tail end.
    halves: Vec<Half>,
    ends: Vec<usize>,
}

impl Saturated {
    /// Those of some arcs between the vertices of a store.
    pub fn of(alloc: Global, store: &Store, arcs: &Arcs) -> Result<Saturated, AllocError> {
        let mut saturated = Saturated {
            root: arcs.root(),
            halves: Vec::new(alloc),
            ends: vec![in alloc; 0; 1]?,
        };
        for before in 0..store.vertices() {
            saturated.add(store, arcs, before + 1)?;
        }
        Ok(saturated)
    }

    // Adds those of the next tail.
    fn add(&mut self, store: &Store, arcs: &Arcs, tail: u32) -> Result<(), AllocError>
        requires { IsVertex store.now.network.n tail }
    {
        for half in store.neighbours(tail) {
            if arcs.remaining(tail, half.to) == Some(0) {
                self.halves.push(*half)?;
            }
        }
        self.ends.push(self.halves.len())?;
        Ok(())
    }

    /// Those of a tail.
    pub fn from(&self, tail: u32) -> &[Half] {
        let Some(before) = tail.checked_sub(1) else {
            return &[];
        };
        let begin = self.ends.get(before as usize).copied().unwrap_or(0);
        let end = self.ends.get(tail as usize).copied().unwrap_or(0);
        self.halves.as_slice().get(begin..end).unwrap_or(&[])
    }
}
