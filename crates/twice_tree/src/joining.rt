ghost use Rattle.std.specs.Prelude.{◌≡◌, ◌+◌, ◌^◌, ◌<◌, ◌≤◌, ◌⊎◌, ◌∷◌, ◌++◌, [], IfOk, IsFalse, OnOk, length};
ghost use Rattle.st_model.specs.Lists.{has};
ghost use Rattle.st_model.specs.Terminals.{IsTerminal};
ghost use Rattle.twice_tree.specs.Cells.{AreCells};
ghost use Rattle.twice_tree.specs.Joining.{IsJoining, IsTaking, waiting};
ghost use Rattle.twice_tree.specs.Opening.{OpensCell};

use crate::cells::Cells;
use crate::laying::lay;
use crate::offers::Offer;
use crate::opening::Opening;
use graph_store::Store;
use short_paths::Laid;
use st_model::VertexSet;
use std::alloc::{AllocError, Global};

// Terminals that are joined one by one, each to the one that is nearest (Prim 1957), and the tree
// that joins them.
#[derive(Drop)]
pub struct Joining {
    pub laid: Laid,
    pub joined: VertexSet,
    // Links that lead from joined cells to others, and some that did.
    pub opening: Opening,
}

impl Joining {
    // From a first terminal on, until so many are joined or no link leads on.
    pub fn over(
        alloc: Global,
        store: &Store,
        cells: &Cells,
        first: u32,
        count: usize,
    ) -> Result<Joining, AllocError>
        requires cells { AreCells store.now.network cells.now }
        requires first { IsTerminal store.now.network first }
        ensures joining { IfOk result (λ joining. IsJoining store.now.network cells.now joining
            joining.opening.offers) }
        ensures ended { IfOk result (λ joining. (count ≤ length joining.joined.members)
            ⊎ (joining.opening.offers ≡ [])) }
    {
        let mut joining = Joining::at(alloc, store, cells, first)?;
        while joining.joined.members().len() < count {
            let Some(offer) = joining.opening.offers.next() else {
                return Ok(joining);
            };
            joining.take(alloc, store, cells, offer)?;
        }
        Ok(joining)
    }

    // The first terminal alone.
    fn at(alloc: Global, store: &Store, cells: &Cells, first: u32) -> Result<Joining, AllocError>
        requires cells { AreCells store.now.network cells.now }
        requires first { IsTerminal store.now.network first }
        ensures { IfOk result (λ joining. IsJoining store.now.network cells.now joining joining.opening.offers) }
    {
        let laid = Laid::at(alloc, store, first)?;
        let joined = VertexSet::new(alloc, store.vertices() as usize + 1)?;
        let opening = Opening::new(alloc, store.vertices())?;
        let mut joining = Joining {
            laid,
            joined,
            opening,
        };
        joining.open(store, cells, first)?;
        Ok(joining)
    }

    // Takes the cheapest of the offers: the terminal of the cell to which it leads is joined,
    // unless it was before.
    fn take(
        &mut self,
        alloc: Global,
        store: &Store,
        cells: &Cells,
        offer: Offer,
    ) -> Result<(), AllocError>
        requires cells { AreCells store.now.network cells.now }
        requires taking { IsTaking store.now.network cells.now self.old offer }
        ensures joining { OnOk result (IsJoining store.now.network cells.now self.new self.new.opening.offers) }
        ensures fewer { OnOk result (waiting store.now.network self.new ≤ waiting store.now.network self.old) }
    {
        let terminal = cells.place(offer.to).terminal;
        if self.joined.contains(terminal) {
            return Ok(());
        }
        lay(alloc, store, cells, &mut self.laid, offer)?;
        self.open(store, cells, terminal)?;
        Ok(())
    }

    // Joins a terminal, and offers the links that lead from its cell to others.
    fn open(&mut self, store: &Store, cells: &Cells, terminal: u32) -> Result<(), AllocError>
        requires cells { AreCells store.now.network cells.now }
        requires terminal { terminal ≤ store.now.network.n }
        requires count { self.old.joined.count ≡ store.now.network.n + 1 }
        requires least { length self.old.opening.least.items ≡ store.now.network.n + 1 }
        requires fresh { IsFalse (has self.old.joined.members terminal) }
        ensures laid { self.new.laid ≡ self.old.laid }
        ensures joined { OnOk result (self.new.joined.members ≡ self.old.joined.members ++ terminal ∷ []) }
        ensures count { self.new.joined.count ≡ self.old.joined.count }
        ensures opens { OnOk result (OpensCell store.now.network cells.now terminal self.old.opening self.new.opening) }
        ensures few { OnOk result (length self.new.opening.offers < 2 ^ 64) }
    {
        self.joined.insert(terminal)?;
        self.opening.open(store, cells, terminal)?;
        prove!(self.opening.offers.len() <= usize::MAX);
        Ok(())
    }
}
