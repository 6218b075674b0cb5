ghost use Rattle.std.specs.Prelude.{◌≡◌, ℕ, ◌+◌, ◌-◌, ◌^◌, ◌<◌, ◌≤◌, length, All, IfOk, IfSome, IfNone, OnOk, OnSome, IsPermutation, ◌∷◌, None, [], List, replicate};
ghost use Rattle.st_model.specs.Network.{IsVertex};
ghost use Rattle.st_model.specs.declared.link.Link.{Link};
ghost use Rattle.short_paths.specs.Marks.{bests_of, places_of};
ghost use Rattle.short_paths.specs.Steps.{Offers, Follows, Relaxes, Settles, Takes, IsGoing};

use crate::mark::Mark;
use crate::queue::{Offer, Queue};
use crate::settled::Settled;
use graph_store::{Half, Store};
use std::alloc::{AllocError, Global};

// A search in progress.
#[derive(Drop)]
pub struct Search {
    pub queue: Queue,
    // By vertex, what is known of it.
    pub marks: Vec<Mark>,
    pub settled: Vec<Settled>,
}

impl Search {
    // Nothing is settled, and each source is offered to be reached at no cost.
    pub fn start(alloc: Global, vertices: u32, sources: &[u32]) -> Result<Search, AllocError>
        requires { All (IsVertex vertices) sources.now }
        ensures going { IfOk result (λ made. (links : List Link) (limit : ℕ) →
            IsGoing links vertices sources.now limit made made.queue) }
        ensures settled { IfOk result (λ made. made.settled.items ≡ []) }
        ensures places { IfOk result (λ made. places_of made.marks.items ≡ replicate (vertices + 1) None) }
    {
        let mut search = Search::new(alloc, vertices)?;
        for &source in sources {
            search.offer(0, source, 0)?;
        }
        Ok(search)
    }

    // Nothing is settled, and nothing offered.
    fn new(alloc: Global, vertices: u32) -> Result<Search, AllocError>
        ensures best { IfOk result (λ made. bests_of made.marks.items ≡ replicate (vertices + 1) None) }
        ensures places { IfOk result (λ made. places_of made.marks.items ≡ replicate (vertices + 1) None) }
        ensures settled { IfOk result (λ made. made.settled.items ≡ []) }
        ensures queue { IfOk result (λ made. made.queue ≡ []) }
    {
        Ok(Search {
            queue: Queue::new(alloc),
            marks: vec![in alloc; Mark::new(); vertices as usize + 1]?,
            settled: Vec::new(alloc),
        })
    }

    // Offers a vertex to be reached at a cost, unless it was offered as much before. Each half
    // comes by here, so a call would cost about as much as what it does.
    #[inline(always)]
    fn offer(&mut self, cost: u64, to: u32, from: u32) -> Result<(), AllocError>
        requires { to < length self.old.marks.items }
        ensures ok { OnOk result (Offers self.old self.new cost to from) }
        ensures length { length self.new.queue ≤ length self.old.queue + 1 }
    {
        let mark = self.marks[to as usize];
        if mark.is_offered(cost) {
            return Ok(());
        }
        self.queue.push(Offer { cost, to, from })?;
        self.marks[to as usize] = mark.offered(cost);
        Ok(())
    }

    // Offers the other end of a half what it costs by there, if that is within the limit.
    fn follow(&mut self, limit: u64, cost: u64, half: Half, from: u32) -> Result<(), AllocError>
        requires { half.to < length self.old.marks.items }
        ensures ok { OnOk result (Follows self.old self.new limit (cost + half.cost) half.to from) }
        ensures length { length self.new.queue ≤ length self.old.queue + 1 }
    {
        match cost.checked_add(half.cost) {
            Some(reach) if reach <= limit => self.offer(reach, half.to, from),
            _ => Ok(()),
        }
    }

    // Follows each half from a settled vertex.
    fn relax(&mut self, store: &Store, limit: u64, vertex: u32, cost: u64) -> Result<(), AllocError>
        requires vertex { IsVertex store.now.network.n vertex }
        requires marks { length self.old.marks.items ≡ store.now.network.n + 1 }
        ensures { OnOk result (Relaxes store.now.network.links store.now.network.n limit vertex cost self.old
            self.new) }
    {
        for half in store.neighbours(vertex) {
            self.follow(limit, cost, *half, vertex)?;
        }
        Ok(())
    }

    // Settles a vertex at a cost.
    fn settle(&mut self, vertex: u32, cost: u64, from: u32) -> Result<(), AllocError>
        requires vertex { vertex < length self.old.marks.items }
        requires from { from < length self.old.marks.items }
        requires few { length self.old.settled.items < 2 ^ 32 - 1 }
        ensures ok { OnOk result (Settles self.old self.new vertex cost from) }
        ensures queue { self.new.queue ≡ self.old.queue }
    {
        let before = self.marks[from as usize].place().unwrap_or(u32::MAX);
        let place = self.settled.len() as u32;
        self.settled.push(Settled {
            cost,
            vertex,
            before,
        })?;
        self.marks[vertex as usize] = self.marks[vertex as usize].settled(place);
        Ok(())
    }

    // The cheapest of the offers that wait.
    pub fn next(&mut self) -> Option<Offer>
        ensures moved { IfSome result (λ offer. IsPermutation self.old.queue (offer ∷ self.new.queue)) }
        ensures cheapest { IfSome result (λ offer. All (λ other. offer.cost ≤ other.cost) self.old.queue) }
        ensures length { OnSome result (length self.new.queue + 1 ≡ length self.old.queue) }
        ensures empty { IfNone result (self.old.queue ≡ []) }
        ensures none { IfNone result (self.new.queue ≡ []) }
        ensures marks { self.new.marks ≡ self.old.marks }
        ensures settled { self.new.settled ≡ self.old.settled }
    {
        self.queue.pop()
    }

    // Takes the cheapest offer: its vertex is settled, unless it was before.
    pub fn take(&mut self, store: &Store, limit: u64, offer: Offer) -> Result<(), AllocError>
        requires to { IsVertex store.now.network.n offer.to }
        requires from { offer.from ≤ store.now.network.n }
        requires marks { length self.old.marks.items ≡ store.now.network.n + 1 }
        requires few { length self.old.settled.items < 2 ^ 32 - 1 }
        ensures { OnOk result (Takes store.now.network.links store.now.network.n limit self.old self.new offer) }
    {
        if self.marks[offer.to as usize].place().is_some() {
            return Ok(());
        }
        self.settle(offer.to, offer.cost, offer.from)?;
        self.relax(store, limit, offer.to, offer.cost)
    }
}
