ghost use Rattle.std.specs.Prelude.{◌≡◌, ℕ, ◌+◌, ◌<◌, ◌≤◌, ◌∷◌, [], List, length, IfOk, IfSome, IfNone, IsSome, OnOk, Some, slice_get};
ghost use Rattle.std.specs.Bool.{OnTrue, OnFalse};
ghost use Rattle.st_model.specs.Network.{Network, IsVertex, link};
ghost use Rattle.special_dist.specs.declared.quest.Quest.{Quest};
ghost use Rattle.special_dist.specs.Visits.{GoesTo, IsQuest, paid_after};
ghost use Rattle.special_dist.specs.Searching.{IsReached, IsSearch, paid_at, waiting, weight};
ghost use Rattle.special_dist.specs.Steps.{HasGone, Visits};
ghost use Rattle.special_dist.specs.Answers.{Ends, IsReachedFrom};

use crate::quest::{Quest, Visit};
use graph_store::{Half, Store};
use st_model::Need;
use std::alloc::{AllocError, Global};
use std::cmp::Reverse;
use std::collections::BinaryHeap;

// How a search ends.
#[derive(Clone, Copy, Debug)]
pub enum End {
    // The link's other end is reached from the visit at this place.
    Reached(usize),
    // Nothing is left to go on from.
    Closed,
    // It went on for as long as it was allowed to.
    Stopped,
}

// A search for a detour in progress.
#[derive(Drop)]
pub struct Search {
    // By vertex, the place of its latest visit, if the visit there is one of that vertex.
    pub places: Vec<usize>,
    pub visits: Vec<Visit>,
    // The places of the visits that wait to be gone on from, and what was paid there.
    pub queue: BinaryHeap<Reverse<(u64, usize)>>,
}

impl Search {
    // Nobody is visited, of vertices up to this number.
    pub fn new(alloc: Global, vertices: u32) -> Result<Search, AllocError>
        ensures { IfOk result (λ made. length made.places.items ≡ vertices + 1) }
    {
        Ok(Search {
            places: vec![in alloc; 0; vertices as usize + 1]?,
            visits: Vec::new(alloc),
            queue: BinaryHeap::new(alloc),
        })
    }

    // Looks for a walk that stands in for a link, from its end a on. Where a number is given, it
    // goes on from no more than so many visits.
    pub fn run(&mut self, store: &Store, quest: Quest, most: Option<u32>) -> Result<End, AllocError>
        requires quest { IsQuest store.now.network quest }
        requires places { length self.old.places.items ≡ store.now.network.n + 1 }
        ensures ends { IfOk result (Ends store.now.network quest most self.new.visits.items) }
        ensures places { length self.new.places.items ≡ length self.old.places.items }
    {
        prove!(quest.a <= store.vertices());
        self.begin(quest.a)?;
        let mut done = 0;
        while let Some(place) = self.next() {
            if is_spent(most, done) {
                return Ok(End::Stopped);
            }
            if self.spread(store, quest, place)? {
                return Ok(End::Reached(place));
            }
            done = done.saturating_add(1);
        }
        Ok(End::Closed)
    }

    // A new search, which begins at a vertex.
    fn begin(&mut self, vertex: u32) -> Result<(), AllocError>
        requires { vertex < length self.old.places.items }
        ensures search { OnOk result ((I : Network) (q : Quest) → q.a ≡ vertex → IsVertex I.n vertex →
            IsSearch I q self.new (waiting self.new)) }
        ensures places { length self.new.places.items ≡ length self.old.places.items }
    {
        self.visits.clear();
        self.queue.clear();
        let first = Visit {
            vertex,
            paid: 0,
            before: 0,
        };
        self.visit(first)?;
        Ok(())
    }

    // The place of the visit that was paid least for, of those that wait.
    fn next(&mut self) -> Option<usize>
        ensures search { IfSome result (λ place. (I : Network) (q : Quest) →
            IsSearch I q self.old (waiting self.old) → IsSearch I q self.new (place ∷ waiting self.new)) }
        ensures weight { IfSome result (λ _. (n : ℕ) → weight n self.new < weight n self.old) }
        ensures empty { IfNone result (waiting self.old ≡ []) }
        ensures places { self.new.places ≡ self.old.places }
    {
        let Reverse((_, place)) = self.queue.pop()?;
        Some(place)
    }

    // Visits a vertex, unless it was reached at this or less before.
    fn visit(&mut self, visit: Visit) -> Result<(), AllocError>
        requires { visit.vertex < length self.old.places.items }
        ensures visits { OnOk result (Visits self.old self.new visit) }
        ensures places { length self.new.places.items ≡ length self.old.places.items }
    {
        if self.is_reached(visit.vertex, visit.paid) {
            return Ok(());
        }
        let place = self.visits.len();
        self.visits.push(visit)?;
        self.queue.push(Reverse((visit.paid, place)))?;
        self.places[visit.vertex as usize] = place;
        Ok(())
    }

    // Whether a vertex was reached at this or less.
    fn is_reached(&self, vertex: u32, paid: u64) -> bool
        requires { vertex < length self.now.places.items }
        ensures yes { OnTrue result (IsReached self.now vertex paid) }
        ensures no { OnFalse result ((least : ℕ) → paid_at self.now vertex ≡ Some least → paid < least) }
    {
        match self.paid_at(vertex) {
            Some(least) => least <= paid,
            None => false,
        }
    }

    // What is paid at a vertex by its latest visit, if it was visited.
    fn paid_at(&self, vertex: u32) -> Option<u64>
        requires { vertex < length self.now.places.items }
        ensures { result ≡ paid_at self.now vertex }
    {
        let visit = self.visits.get(self.places[vertex as usize])?;
        if visit.vertex == vertex {
            Some(visit.paid)
        } else {
            None
        }
    }

    // Goes on from the visit at a place, unless a later one of its vertex paid less. Answers
    // whether it leads to the link's other end.
    fn spread(&mut self, store: &Store, quest: Quest, place: usize) -> Result<bool, AllocError>
        requires search { IsSearch store.now.network quest self.old (place ∷ waiting self.old) }
        requires places { length self.old.places.items ≡ store.now.network.n + 1 }
        ensures reached { IfOk result (λ reached. OnTrue reached
            (IsReachedFrom store.now.network quest self.new.visits.items place)) }
        ensures spread { IfOk result (λ reached. OnFalse reached
            (IsSearch store.now.network quest self.new (waiting self.new))) }
        ensures weight { OnOk result (weight store.now.network.n self.new ≤ weight store.now.network.n self.old) }
        ensures places { length self.new.places.items ≡ length self.old.places.items }
    {
        let visit = self.visits[place];
        if self.paid_at(visit.vertex) != Some(visit.paid) {
            return Ok(false);
        }
        for half in store.neighbours(visit.vertex) {
            if self.go(store, quest, place, visit, *half)? {
                return Ok(true);
            }
        }
        Ok(false)
    }

    // Goes on from a visit over a half, where a walk that stands in for the link may do so.
    // Answers whether that leads to the link's other end.
    fn go(
        &mut self,
        store: &Store,
        quest: Quest,
        place: usize,
        visit: Visit,
        half: Half,
    ) -> Result<bool, AllocError>
        requires visit { slice_get self.old.visits.items place ≡ Some visit }
        requires within { visit.paid ≤ quest.limit }
        requires linked { link store.now.network.links visit.vertex half.to ≡ Some half.cost }
        requires vertex { IsVertex store.now.network.n half.to }
        requires places { length self.old.places.items ≡ store.now.network.n + 1 }
        ensures reached { IfOk result (λ reached. OnTrue reached
            (GoesTo store.now.network quest visit quest.b × (self.new ≡ self.old))) }
        ensures gone { IfOk result (λ reached. OnFalse reached
            (HasGone store.now.network quest place visit (half ∷ []) self.old self.new)) }
        ensures places { length self.new.places.items ≡ length self.old.places.items }
    {
        if !quest.lets_go(visit, half) {
            return Ok(false);
        }
        if half.to == quest.b {
            return Ok(true);
        }
        self.visit(Visit {
            vertex: half.to,
            paid: paid_after(store, half.to, visit.paid + half.cost),
            before: place,
        })?;
        Ok(false)
    }
}

// What is paid at a vertex since the last required one, where this much was before it.
fn paid_after(store: &Store, vertex: u32, paid: u64) -> u64
    requires { IsVertex store.now.network.n vertex }
    ensures { result ≡ paid_after store.now.network vertex paid }
{
    match store.need(vertex) {
        Need::Required => 0,
        Need::Pays(_) => paid,
    }
}

// Whether as many are done as may be.
fn is_spent(most: Option<u32>, done: u32) -> bool
    ensures { OnTrue result (IsSome most) }
{
    match most {
        Some(most) => most <= done,
        None => false,
    }
}
