ghost use Rattle.std.specs.Prelude.{◌≡◌, ℕ, ◌+◌, ◌<◌, ◌≤◌, ◌∷◌, [], length, IfOk, IfNone, IfSome, OnOk, OnSome, IsPermutation};
ghost use Rattle.std.specs.BinaryHeap.{heap_items};
ghost use Rattle.st_model.specs.Network.{IsVertex};
ghost use Rattle.dual_ascent.specs.Searching.{AreDistances, Goes, IsSearch, Offers, least_of, still};

use bidirected_form::Arcs;
use std::alloc::{AllocError, Global};
use std::cmp::Reverse;
use std::collections::BinaryHeap;

// A search for how far the vertices are from one of them, against the arcs.
#[derive(Drop)]
pub struct Search {
    // Offers that wait: a distance, and the vertex.
    pub queue: BinaryHeap<Reverse<(u64, u32)>>,
    // By vertex, the least that it was offered; the target, where nothing less was.
    pub least: Vec<u64>,
}

// By vertex, how far the walks lead from it to a vertex, up to a target and to how far that is
// from the root. (Dijkstra 1959)
pub fn distances_to(
    alloc: Global,
    arcs: &Arcs,
    vertex: u32,
    target: u64,
) -> Result<Vec<u64>, AllocError>
    requires { IsVertex arcs.now.n vertex }
    ensures { IfOk result (λ least. AreDistances arcs.now vertex target least.items) }
{
    let mut search = Search::start(alloc, arcs, vertex, target)?;
    while let Some((distance, head)) = search.next() {
        search.take(arcs, distance, head)?;
    }
    Ok(search.least)
}

impl Search {
    // The vertex is at no distance from itself, and nothing else was offered.
    fn start(alloc: Global, arcs: &Arcs, vertex: u32, target: u64) -> Result<Search, AllocError>
        requires { IsVertex arcs.now.n vertex }
        ensures { IfOk result (λ s. IsSearch arcs.now vertex target (heap_items s.queue) s.least.items) }
    {
        let mut least = vec![in alloc; target; arcs.vertices() as usize + 1]?;
        least[vertex as usize] = 0;
        let mut queue = BinaryHeap::new(alloc);
        queue.push(Reverse((0, vertex)))?;
        Ok(Search { queue, least })
    }

    // The nearest of the offers that wait.
    fn next(&mut self) -> Option<(u64, u32)>
        ensures moved { IfSome result (λ offer. IsPermutation (heap_items self.old.queue)
            (record { 0 = offer } ∷ heap_items self.new.queue)) }
        ensures fewer { OnSome result (still self.new < still self.old) }
        ensures empty { IfNone result (heap_items self.old.queue ≡ []) }
        ensures least { self.new.least ≡ self.old.least }
    {
        let Reverse(offer) = self.queue.pop()?;
        Some(offer)
    }

    // Offers a vertex to be so far, unless it was offered as little before, or the root was.
    fn offer(&mut self, root: u32, distance: u64, vertex: u32) -> Result<(), AllocError>
        requires root { root < length self.old.least.items }
        requires vertex { vertex < length self.old.least.items }
        ensures offers { OnOk result (Offers root self.old self.new distance vertex) }
        ensures fewer { OnOk result (still self.new ≤ still self.old) }
    {
        if distance < self.least[root as usize] && distance < self.least[vertex as usize] {
            self.queue.push(Reverse((distance, vertex)))?;
            self.least[vertex as usize] = distance;
        }
        Ok(())
    }

    // Takes an offer, unless a nearer one came later, or the root is as near.
    fn take(&mut self, arcs: &Arcs, distance: u64, head: u32) -> Result<(), AllocError>
        requires head { IsVertex arcs.now.n head }
        requires long { length self.old.least.items ≡ arcs.now.n + 1 }
        ensures goes { OnOk result (Goes arcs.now self.old self.new distance head) }
        ensures fewer { OnOk result (still self.new ≤ still self.old) }
    {
        let is_late = self.least[head as usize] != distance;
        if is_late || self.least[arcs.root() as usize] <= distance {
            return Ok(());
        }
        self.follow(arcs, distance, head)
    }

    // Offers the tail of each arc to a vertex how far it is by there.
    fn follow(&mut self, arcs: &Arcs, distance: u64, head: u32) -> Result<(), AllocError>
        requires head { IsVertex arcs.now.n head }
        requires long { length self.old.least.items ≡ arcs.now.n + 1 }
        requires least { least_of self.old.least.items head ≡ distance }
        requires root { distance < least_of self.old.least.items arcs.now.root }
        ensures goes { OnOk result (Goes arcs.now self.old self.new distance head) }
        ensures fewer { OnOk result (still self.new ≤ still self.old) }
    {
        for arc in arcs.arcs_into(head) {
            self.offer(
                arcs.root(),
                distance.saturating_add(arc.remaining),
                arc.tail,
            )?;
        }
        Ok(())
    }
}
