ghost use Rattle.std.specs.Prelude.{◌≡◌, ◌+◌, ◌-◌, ◌^◌, ◌<◌, ◌≤◌, [], min, IfOk, OnOk, length, replicate};
ghost use Rattle.st_model.specs.Network.{IsVertex};
ghost use Rattle.twice_tree.specs.Cells.{AreCells};
ghost use Rattle.twice_tree.specs.Opening.{OffersCell, OffersVertex, OpensCell};

use crate::cells::Cells;
use crate::offers::{Offer, Offers};
use graph_store::Store;
use std::alloc::{AllocError, Global};

// Offers that wait, each cheaper than those that came to the same cell before it.
#[derive(Drop)]
pub struct Opening {
    pub offers: Offers,
    // By terminal, the least at which its cell was offered, and u64::MAX where it wasn't. It is 0
    // where the terminal is joined, so that nothing is offered to its cell any more.
    pub least: Vec<u64>,
}

impl Opening {
    // No cell is offered.
    pub fn new(alloc: Global, vertices: u32) -> Result<Opening, AllocError>
        ensures offers { IfOk result (λ opening. opening.offers ≡ []) }
        ensures least { IfOk result (λ opening. opening.least.items ≡ replicate (vertices + 1) (2 ^ 64 - 1)) }
    {
        Ok(Opening {
            offers: Offers::new(alloc),
            least: vec![in alloc; u64::MAX; vertices as usize + 1]?,
        })
    }

    // Offers each link from a terminal's cell that costs less than any before to the cell that it
    // leads to.
    pub fn open(&mut self, store: &Store, cells: &Cells, terminal: u32) -> Result<(), AllocError>
        requires cells { AreCells store.now.network cells.now }
        requires terminal { terminal ≤ store.now.network.n }
        requires least { length self.old.least.items ≡ store.now.network.n + 1 }
        ensures { OnOk result (OpensCell store.now.network cells.now terminal self.old self.new) }
    {
        self.least[terminal as usize] = 0;
        let mut vertex = cells.first(terminal);
        while vertex <= store.vertices() {
            self.offer_links(store, cells, vertex)?;
            vertex = cells.place(vertex).next;
        }
        Ok(())
    }

    // Offers each link from a vertex that costs less than any before to the cell that it leads to.
    fn offer_links(&mut self, store: &Store, cells: &Cells, vertex: u32) -> Result<(), AllocError>
        requires cells { AreCells store.now.network cells.now }
        requires vertex { IsVertex store.now.network.n vertex }
        requires least { length self.old.least.items ≡ store.now.network.n + 1 }
        ensures { OnOk result (OffersVertex store.now.network cells.now vertex self.old self.new) }
    {
        let far = cells.place(vertex).far;
        for half in store.neighbours(vertex) {
            let place = cells.place(half.to);
            let cost = sum(far, half.cost, place.far);
            let offer = Offer {
                cost,
                from: vertex,
                to: half.to,
            };
            self.offer(place.terminal, offer)?;
        }
        Ok(())
    }

    // Offers a cell, unless it was offered at no more before. Each half comes by here.
    #[inline(always)]
    fn offer(&mut self, terminal: u32, offer: Offer) -> Result<(), AllocError>
        requires { terminal < length self.old.least.items }
        ensures { OnOk result (OffersCell terminal offer self.old self.new) }
    {
        if offer.cost < self.least[terminal as usize] {
            self.offers.push(offer)?;
            self.least[terminal as usize] = offer.cost;
        }
        Ok(())
    }
}

// What it costs to go from one terminal to another by a link between their cells, or u64::MAX
// where that is less.
#[inline(always)]
fn sum(before: u64, cost: u64, after: u64) -> u64
    ensures { result ≡ min (before + cost + after) (2 ^ 64 - 1) }
{
    before.saturating_add(cost).saturating_add(after)
}
