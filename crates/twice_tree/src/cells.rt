ghost use Rattle.std.specs.Prelude.{◌<◌, IfOk, length};
ghost use Rattle.st_model.specs.Branch.{AreThose};
ghost use Rattle.st_model.specs.Network.{Network, IsVertex, is_required};
ghost use Rattle.twice_tree.specs.Cells.{AreCells, IsFirst, IsPlace, terminal_of};

use crate::chains::{Chains, Place};
use graph_store::Store;
use short_paths::{Distances, from_many};
use std::alloc::{AllocError, Global};

// For each terminal the vertices to which it is nearest (Mehlhorn 1988).
#[derive(Drop)]
pub struct Cells {
    pub distances: Distances,
    pub chains: Chains,
}

impl Cells {
    // The cells of all terminals.
    pub fn of(alloc: Global, store: &Store, terminals: &[u32]) -> Result<Cells, AllocError>
        requires { AreThose (is_required store.now.network) store.now.network.n terminals.now }
        ensures { IfOk result (AreCells store.now.network) }
    {
        prove!(1 <= store.vertices());
        let distances = from_many(alloc, store, terminals, u64::MAX)?;
        let sources = distances.sources(alloc)?;
        let chains = Chains::of(alloc, store, &distances, &sources)?;
        Ok(Cells { distances, chains })
    }

    // Where a vertex is.
    pub fn place(&self, vertex: u32) -> Place
        requires { vertex < length self.now.chains.places.items }
        ensures { (I : Network) → AreCells I self.now → IsVertex I.n vertex
            → IsPlace I self.now.distances vertex result }
    {
        self.chains.places[vertex as usize]
    }

    // The first vertex of a terminal's cell, and the number after all vertices where there is none.
    pub fn first(&self, terminal: u32) -> u32
        requires { terminal < length self.now.chains.firsts.items }
        ensures { (I : Network) → AreCells I self.now
            → IsFirst (terminal_of I self.now.distances) I.n 0 terminal result }
    {
        self.chains.firsts[terminal as usize]
    }
}
