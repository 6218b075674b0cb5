ghost use Rattle.std.specs.Prelude.{◌≡◌, not, ◌||◌, is_none, is_some};
ghost use Rattle.st_model.specs.Lists.{has};
ghost use Rattle.st_model.specs.Made.{has_pair, is_between};
ghost use Rattle.cut_packing.specs.declared.packing.Packing.{Packing};
ghost use Rattle.search_core.specs.State.{hand};
ghost use Rattle.search_core.specs.Needs.{early_fault, is_queue, is_fresh_of, is_queued, is_fresh, holds, is_claimed, was_refused, up_waits, close_waits, may_split_at, splits_at, splits_link, bad_split, can_split, is_used, no_worker};

use crate::{Event, EventFault, Place, Search};
use st_model::{Branch, Instance, Need, SplitAt};

impl Search {
    /// The first fault of an event that looks at no packing, if it has one.
    pub(crate) fn early_fault(&self, event: &Event) -> Option<EventFault>
        ensures { result ≡ early_fault self.now event.now }
    {
        match event {
            Event::Take { w, id } => self.take_fault(*w, *id),
            Event::Pick { w, id } => self.pick_fault(*w, *id),
            Event::Give { w, id } => self.give_fault(*w, *id),
            Event::Claim { w } => self.claim_fault(*w),
            Event::Up { w } => self.up_fault(*w),
            Event::Split {
                w,
                at,
                inside,
                outside,
                ..
            } => self.split_fault(*w, *at, *inside, *outside),
            Event::Close { w, .. } => self.up_fault(*w),
            Event::Down { w } => self.down_fault(*w),
            Event::Halt { w } => self.halt_fault(*w),
            Event::Keep { w, id } => self.keep_fault(*w, *id),
            Event::See { w } => self.worker_fault(*w),
            Event::Offer { w, .. } => self.worker_fault(*w),
            Event::SeeOpen { w } => self.worker_fault(*w),
            Event::SeeHalt { w } => self.worker_fault(*w),
        }
    }

    fn worker_fault(&self, w: u32) -> Option<EventFault>
        ensures { result ≡ early_fault self.now (Event.See w) }
    {
        if self.no_worker(w) {
            return Some(EventFault::NoWorker);
        }
        None
    }

    fn take_fault(&self, w: u32, id: u64) -> Option<EventFault>
        ensures { result ≡ early_fault self.now (Event.Take w id) }
    {
        if self.no_worker(w) {
            return Some(EventFault::NoWorker);
        }
        if self.hand(w).is_some() {
            return Some(EventFault::HandFull);
        }
        if !self.is_queued(id) {
            return Some(EventFault::NotThere);
        }
        None
    }

    fn pick_fault(&self, w: u32, id: u64) -> Option<EventFault>
        ensures { result ≡ early_fault self.now (Event.Pick w id) }
    {
        if self.no_worker(w) {
            return Some(EventFault::NoWorker);
        }
        if self.hand(w).is_some() {
            return Some(EventFault::HandFull);
        }
        if !self.is_fresh(w, id) {
            return Some(EventFault::NotThere);
        }
        None
    }

    fn give_fault(&self, w: u32, id: u64) -> Option<EventFault>
        ensures { result ≡ early_fault self.now (Event.Give w id) }
    {
        if self.no_worker(w) {
            return Some(EventFault::NoWorker);
        }
        if !self.is_fresh(w, id) {
            return Some(EventFault::NotThere);
        }
        None
    }

    fn claim_fault(&self, w: u32) -> Option<EventFault>
        ensures { result ≡ early_fault self.now (Event.Claim w) }
    {
        if self.no_worker(w) {
            return Some(EventFault::NoWorker);
        }
        if self.held(w).is_none() {
            return Some(EventFault::HandEmpty);
        }
        if self.is_claimed(w) {
            return Some(EventFault::IsClaimed);
        }
        if self.was_refused(w) {
            return Some(EventFault::WasRefused);
        }
        None
    }

    fn up_fault(&self, w: u32) -> Option<EventFault>
        ensures { result ≡ early_fault self.now (Event.Up w) }
    {
        if self.no_worker(w) {
            return Some(EventFault::NoWorker);
        }
        if self.held(w).is_none() {
            return Some(EventFault::HandEmpty);
        }
        if !self.is_claimed(w) {
            return Some(EventFault::NotClaimed);
        }
        if self.up_waits(w) {
            return Some(EventFault::OutOfTurn);
        }
        None
    }

    fn split_fault(&self, w: u32, at: SplitAt, inside: u64, outside: u64) -> Option<EventFault>
        ensures { (P : Packing) → result ≡ early_fault self.now (Event.Split w at inside outside P) }
    {
        if self.no_worker(w) {
            return Some(EventFault::NoWorker);
        }
        if self.held(w).is_none() {
            return Some(EventFault::HandEmpty);
        }
        if !self.up_waits(w) {
            return Some(EventFault::OutOfTurn);
        }
        if !self.can_split(w, at) {
            return Some(bad_split(at));
        }
        if inside == outside || self.is_used(inside) || self.is_used(outside) {
            return Some(EventFault::UsedId);
        }
        None
    }

    fn down_fault(&self, w: u32) -> Option<EventFault>
        ensures { result ≡ early_fault self.now (Event.Down w) }
    {
        if self.no_worker(w) {
            return Some(EventFault::NoWorker);
        }
        if !self.close_waits(w) {
            return Some(EventFault::OutOfTurn);
        }
        None
    }

    fn halt_fault(&self, w: u32) -> Option<EventFault>
        ensures { result ≡ early_fault self.now (Event.Halt w) }
    {
        if self.no_worker(w) {
            return Some(EventFault::NoWorker);
        }
        if !self.was_refused(w) {
            return Some(EventFault::NotRefused);
        }
        None
    }

    fn keep_fault(&self, w: u32, id: u64) -> Option<EventFault>
        ensures { result ≡ early_fault self.now (Event.Keep w id) }
    {
        if self.no_worker(w) {
            return Some(EventFault::NoWorker);
        }
        let holds = self.holds(w, id);
        if !(self.is_fresh(w, id) || holds) {
            return Some(EventFault::NotThere);
        }
        if holds && self.is_claimed(w) {
            return Some(EventFault::IsClaimed);
        }
        None
    }
}

impl Search {
    // Whether there is no such worker.
    fn no_worker(&self, w: u32) -> bool
        ensures { result ≡ no_worker self.now w }
    {
        self.workers().len() <= w as usize
    }

    // Whether the node under an id is in a queue.
    fn is_queued(&self, id: u64) -> bool
        ensures { result ≡ is_queued self.now id }
    {
        match self.made_as(id) {
            Some(made) => is_queue(made.place),
            None => false,
        }
    }

    // Whether the node under an id is fresh, and of this worker.
    fn is_fresh(&self, w: u32, id: u64) -> bool
        ensures { result ≡ is_fresh self.now w id }
    {
        match self.made_as(id) {
            Some(made) => is_fresh_of(w, made.place),
            None => false,
        }
    }

    // Whether a worker holds the node under an id.
    fn holds(&self, w: u32, id: u64) -> bool
        ensures { result ≡ holds self.now w id }
    {
        match self.hand(w) {
            Some(held) => held == id,
            None => false,
        }
    }

    // Whether the node in the hand of a worker is claimed.
    fn is_claimed(&self, w: u32) -> bool
        ensures { result ≡ is_claimed self.now w }
    {
        match self.held(w) {
            Some(made) => made.claimed,
            None => false,
        }
    }

    // Whether a claim of a worker was refused.
    fn was_refused(&self, w: u32) -> bool
        ensures { result ≡ was_refused self.now w }
    {
        match self.workers().get(w as usize) {
            Some(worker) => worker.refused,
            None => false,
        }
    }

    // Whether an up of a worker waits for its split.
    fn up_waits(&self, w: u32) -> bool
        ensures { result ≡ up_waits self.now w }
    {
        match self.workers().get(w as usize) {
            Some(worker) => worker.up,
            None => false,
        }
    }

    // Whether a close of a worker waits for its down.
    fn close_waits(&self, w: u32) -> bool
        ensures { result ≡ close_waits self.now w }
    {
        match self.workers().get(w as usize) {
            Some(worker) => worker.closes > 0,
            None => false,
        }
    }

    // Whether the node in the hand of a worker can be split there.
    fn can_split(&self, w: u32, at: SplitAt) -> bool
        ensures { result ≡ can_split self.now w at }
    {
        match self.held(w) {
            Some(made) => may_split_at(self.instance(), &made.node.branch, at),
            None => false,
        }
    }

    // Whether a node was made under an id.
    fn is_used(&self, id: u64) -> bool
        ensures { result ≡ is_used self.now id }
    {
        self.made_as(id).is_some()
    }
}

// Whether a place is a queue.
pub(crate) fn is_queue(place: Place) -> bool
    ensures { result ≡ is_queue place }
{
    matches!(place, Place::Queue(_))
}

// Whether a place is among the fresh halves of a worker.
fn is_fresh_of(w: u32, place: Place) -> bool
    ensures { result ≡ is_fresh_of w place }
{
    match place {
        Place::Fresh(of) => of == w,
        _ => false,
    }
}

// The fault of a split where the node can't be split.
fn bad_split(at: SplitAt) -> EventFault
    ensures { result ≡ bad_split at }
{
    match at {
        SplitAt::Vertex(_) => EventFault::BadVertex,
        SplitAt::Link(_, _) => EventFault::BadLink,
    }
}

// Whether a branch can be split there.
fn may_split_at(instance: &Instance, branch: &Branch, at: SplitAt) -> bool
    ensures { result ≡ may_split_at instance.now branch.now at }
{
    match at {
        SplitAt::Vertex(vertex) => splits_at(instance, branch, vertex),
        SplitAt::Link(low, high) => splits_link(instance, branch, low, high),
    }
}

// Whether a branch can be split at a vertex.
fn splits_at(instance: &Instance, branch: &Branch, v: u32) -> bool
    ensures { result ≡ splits_at instance.now branch.now v }
{
    if v < 1 || instance.vertices() < v {
        return false;
    }
    if holds(branch.inside.as_slice(), v) || holds(branch.outside.as_slice(), v) {
        return false;
    }
    instance.need(v) != Need::Required
}

// Whether a branch can be split at the link between two vertices, the lower first.
fn splits_link(instance: &Instance, branch: &Branch, low: u32, high: u32) -> bool
    ensures { result ≡ splits_link instance.now branch.now low high }
{
    if high <= low || instance.link_cost(low, high).is_none() {
        return false;
    }
    if holds(branch.outside.as_slice(), low) || holds(branch.outside.as_slice(), high) {
        return false;
    }
    !has_pair(branch.must.as_slice(), low, high) && !has_pair(branch.barred.as_slice(), low, high)
}

// Whether a list has a pair of vertices, in either order.
fn has_pair(pairs: &[(u32, u32)], a: u32, b: u32) -> bool
    ensures { result ≡ has_pair pairs.now a b }
{
    pairs.iter().any(|pair| is_between(*pair, a, b))
}

// Whether a pair is these two vertices, in either order.
fn is_between(pair: (u32, u32), a: u32, b: u32) -> bool
    ensures { result ≡ is_between pair a b }
{
    (pair.0 == a && pair.1 == b) || (pair.0 == b && pair.1 == a)
}

// Whether a list has a vertex.
fn holds(vertices: &[u32], vertex: u32) -> bool
    ensures { result ≡ has vertices.now vertex }
{
    vertices.iter().any(|other| *other == vertex)
}
