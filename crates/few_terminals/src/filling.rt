ghost use Rattle.std.specs.Prelude.{◌≡◌, ℕ, ◌+◌, ◌^◌, ◌<◌, ◌≤◌, [], ◌∷◌, ◌++◌, length, map, slice_set, All, Contains, IfOk, IfSome, IfNone, OnOk, OnSome, IsPermutation};
ghost use Rattle.std.specs.BinaryHeap.{heap_items};
ghost use Rattle.st_model.specs.Network.{IsVertex};
ghost use Rattle.few_terminals.specs.Filling.{mark_at, offer_of, weight, Offers, Relaxes, Takes};

use crate::entry::{Entry, Way};
use crate::mark::{FAR, Mark};
use crate::row::Row;
use graph_store::Store;
use std::alloc::{AllocError, Global};
use std::cmp::Reverse;
use std::collections::BinaryHeap;

// A row that is filled by offers along links.
#[derive(Drop)]
pub struct Filling {
    // By vertex, what is known of it.
    pub marks: Vec<Mark>,
    // Offers that wait: what a vertex costs, and the vertex.
    pub queue: BinaryHeap<Reverse<(u64, u32)>>,
}

impl Filling {
    // What is known so far of each vertex is offered to it.
    pub fn of(alloc: Global, vertices: u32, marks: Vec<Mark>) -> Result<Filling, AllocError>
        requires marks { length marks.items ≡ vertices + 1 }
        requires few { vertices ≤ 1000000 }
        ensures marks { IfOk result (λ filling. filling.marks.items ≡ marks.items) }
        ensures offered { IfOk result (λ filling. (v : ℕ) → IsVertex vertices v → (mark_at marks.items v).cost < 2 ^ 63 →
            Contains (heap_items filling.queue) (offer_of (mark_at marks.items v).cost v)) }
        ensures queued { IfOk result (λ filling. All (λ offer. IsVertex vertices offer.0.1 × (offer.0.0 < 2 ^ 63))
            (heap_items filling.queue)) }
    {
        let mut queue = BinaryHeap::new(alloc);
        for vertex in 1..vertices + 1 {
            let cost = marks[vertex as usize].cost;
            if cost < FAR {
                queue.push(Reverse((cost, vertex)))?;
            }
        }
        Ok(Filling { marks, queue })
    }

    // The cheapest of the offers that wait, which waits no longer.
    pub fn next(&mut self) -> Option<(u64, u32)>
        ensures marks { self.new.marks.items ≡ self.old.marks.items }
        ensures moved { IfSome result (λ offer. IsPermutation (heap_items self.old.queue)
            (offer_of offer.0 offer.1 ∷ heap_items self.new.queue)) }
        ensures none { IfNone result (heap_items self.old.queue ≡ []) }
        ensures fewer { OnSome result (weight self.new < weight self.old) }
    {
        let Reverse(offer) = self.queue.pop()?;
        Some(offer)
    }

    // Takes an offer, unless a cheaper one came later: its vertex is entered, and all its links
    // are offered.
    pub fn take(
        &mut self,
        store: &Store,
        entries: &mut Vec<Entry>,
        cost: u64,
        vertex: u32,
    ) -> Result<(), AllocError>
        requires vertex { IsVertex store.now.network.n vertex }
        requires marks { length self.old.marks.items ≡ store.now.network.n + 1 }
        ensures takes { OnOk result (Takes store.now.network entries.old.items entries.new.items
            self.old self.new (offer_of cost vertex)) }
        ensures fewer { OnOk result (weight self.new ≤ weight self.old) }
    {
        if cost != self.marks[vertex as usize].cost {
            return Ok(());
        }
        self.settle(entries, vertex)?;
        self.relax(store, vertex)?;
        Ok(())
    }

    // What is known of a vertex is entered.
    fn settle(&mut self, entries: &mut Vec<Entry>, vertex: u32) -> Result<(), AllocError>
        requires { vertex < length self.old.marks.items }
        ensures entries { OnOk result (entries.new.items ≡ entries.old.items ++ record {
          vertex = vertex;
          way = (mark_at self.old.marks.items vertex).way;
        } ∷ []) }
        ensures marks { OnOk result (self.new.marks.items ≡ slice_set self.old.marks.items vertex (record {
          cost = (mark_at self.old.marks.items vertex).cost;
          way = (mark_at self.old.marks.items vertex).way;
          place = length entries.old.items;
        })) }
        ensures queue { heap_items self.new.queue ≡ heap_items self.old.queue }
        ensures same { OnOk result (weight self.new ≡ weight self.old) }
    {
        let place = place_after(entries)?;
        let mark = self.marks[vertex as usize];
        entries.push(Entry {
            vertex,
            way: mark.way,
        })?;
        self.marks[vertex as usize] = Mark {
            cost: mark.cost,
            way: mark.way,
            place,
        };
        Ok(())
    }

    // Offers each neighbour of a vertex, which has its entry, what it costs by there.
    fn relax(&mut self, store: &Store, vertex: u32) -> Result<(), AllocError>
        requires vertex { IsVertex store.now.network.n vertex }
        requires marks { length self.old.marks.items ≡ store.now.network.n + 1 }
        ensures relaxes { OnOk result (Relaxes store.now.network vertex self.old self.new) }
        ensures fewer { OnOk result (weight self.new ≤ weight self.old) }
    {
        let mark = self.marks[vertex as usize];
        for half in store.neighbours(vertex) {
            let cost = mark.cost.saturating_add(half.cost);
            self.offer(cost, half.to, Way::Along(mark.place))?;
        }
        Ok(())
    }

    // Offers a vertex to be reached at a cost, unless what is known costs no more.
    fn offer(&mut self, cost: u64, to: u32, way: Way) -> Result<(), AllocError>
        requires { to < length self.old.marks.items }
        ensures offers { OnOk result (Offers self.old self.new cost to way) }
        ensures fewer { OnOk result (weight self.new ≤ weight self.old) }
    {
        let mark = self.marks[to as usize];
        if cost < mark.cost {
            self.queue.push(Reverse((cost, to)))?;
            self.marks[to as usize] = Mark {
                cost,
                way,
                place: mark.place,
            };
        }
        Ok(())
    }

    // The row over these vertices, as it is filled.
    pub fn row(&self, alloc: Global, reached: &[u32]) -> Result<Row, AllocError>
        requires { All (λ v. v < length self.now.marks.items) reached.now }
        ensures costs { IfOk result (λ row. row.costs.items
            ≡ map (λ v. (mark_at self.now.marks.items v).cost) reached.now) }
        ensures places { IfOk result (λ row. row.places.items
            ≡ map (λ v. (mark_at self.now.marks.items v).place) reached.now) }
    {
        let mut costs = Vec::with_capacity(alloc, reached.len())?;
        let mut places = Vec::with_capacity(alloc, reached.len())?;
        for &vertex in reached {
            let mark = self.marks[vertex as usize];
            costs.push(mark.cost)?;
            places.push(mark.place)?;
        }
        Ok(Row { costs, places })
    }
}

// The place of an entry that is pushed next. Places have 32 bits, so that a table takes little
// memory: more entries than that are refused as want of memory.
fn place_after(entries: &[Entry]) -> Result<u32, AllocError>
    ensures { IfOk result (λ place. place ≡ length entries.now) }
{
    match u32::try_from(entries.len()) {
        Ok(place) => Ok(place),
        Err(_) => Err(AllocError),
    }
}
