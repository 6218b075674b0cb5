//! A plain book of a search: the nodes that were made, with their places, and what each worker knows.
use super::draft::{Draft, Kind};
use super::ground::{Ground, VERTICES, bit};
use super::notes::Note;
use search_core::{End, EventFault};
use st_model::SplitAt;
use std::alloc::{AllocError, Global};

/// Where a node is: in some queue, with a worker, or done with.
#[derive(Clone, Copy, PartialEq, Eq)]
pub enum Spot {
    Queue,
    Hand(u32),
    Fresh(u32),
    Left(u32),
    Done,
}

/// A node that was made, with the sets of its branch.
#[derive(Clone, Copy)]
pub struct Entry {
    pub id: u64,
    pub inside: u32,
    pub outside: u32,
    pub spot: Spot,
    pub claimed: bool,
}

/// What a worker knows.
#[derive(Clone, Copy)]
pub struct Desk {
    pub seen: u64,
    pub refused: bool,
    pub up: bool,
    pub closes: u64,
    pub end: End,
}

/// What is known of a search.
#[derive(Drop)]
pub struct Book {
    pub ground: Ground,
    pub entries: Vec<Entry>,
    pub desks: Vec<Desk>,
    /// What was done, and by whom.
    pub notes: Vec<(u32, Note)>,
    budget: u64,
    pub claims: u64,
    pub opened: u64,
    pub least: u64,
    halted: bool,
    /// How many events happened.
    pub happened: u64,
}

// The first fault whose test holds.
fn first(tests: &[(bool, EventFault)]) -> Option<EventFault> {
    for (holds, fault) in tests {
        if *holds {
            return Some(*fault);
        }
    }
    None
}

impl Book {
    pub fn begin(
        alloc: Global,
        ground: Ground,
        workers: u32,
        budget: u64,
        start: u64,
    ) -> Result<Book, AllocError> {
        let mut desks = Vec::new(alloc);
        for _ in 0..workers {
            desks.push(Desk {
                seen: start,
                refused: false,
                up: false,
                closes: 0,
                end: End::OpenZero,
            })?;
        }
        let mut entries = Vec::new(alloc);
        entries.push(made(0, 0, 0, Spot::Queue))?;
        Ok(Book {
            ground,
            entries,
            desks,
            notes: Vec::new(alloc),
            budget,
            claims: 0,
            opened: 1,
            least: start,
            halted: false,
            happened: 0,
        })
    }

    /// What a worker knows, if there is such a worker.
    pub fn desk(&self, w: u32) -> Option<Desk> {
        self.desks.get(w as usize).copied()
    }

    // The node under an id.
    fn entry(&self, id: u64) -> Option<Entry> {
        self.entries.iter().copied().find(|entry| entry.id == id)
    }

    /// A node in this place.
    pub fn at(&self, spot: Spot) -> Option<Entry> {
        self.entries
            .iter()
            .copied()
            .find(|entry| entry.spot == spot)
    }

    // Whether the node under an id is in this place.
    fn is_at(&self, id: u64, spot: Spot) -> bool {
        match self.entry(id) {
            Some(entry) => entry.spot == spot,
            None => false,
        }
    }

    /// The fault that an event has to have, if it has one.
    pub fn fault(&self, draft: &Draft) -> Option<EventFault> {
        let Some(desk) = self.desk(draft.w) else {
            return Some(EventFault::NoWorker);
        };
        match draft.kind {
            Kind::Take | Kind::Pick | Kind::Give | Kind::Keep => self.node_fault(draft),
            Kind::Claim | Kind::Up | Kind::Split | Kind::Close => {
                match self.at(Spot::Hand(draft.w)) {
                    Some(held) => self.held_fault(&desk, &held, draft),
                    None => Some(EventFault::HandEmpty),
                }
            }
            Kind::Down => first(&[(desk.closes == 0, EventFault::OutOfTurn)]),
            Kind::Halt => first(&[(!desk.refused, EventFault::NotRefused)]),
            Kind::See | Kind::Offer | Kind::SeeOpen | Kind::SeeHalt => None,
        }
    }

    // The fault of an event that names a node.
    fn node_fault(&self, draft: &Draft) -> Option<EventFault> {
        let held = self.at(Spot::Hand(draft.w));
        let is_held = self.is_at(draft.id, Spot::Hand(draft.w));
        let is_fresh = self.is_at(draft.id, Spot::Fresh(draft.w));
        let is_queued = self.is_at(draft.id, Spot::Queue);
        let is_claimed = match held {
            Some(entry) => is_held && entry.claimed,
            None => false,
        };
        match draft.kind {
            Kind::Take => first(&[
                (held.is_some(), EventFault::HandFull),
                (!is_queued, EventFault::NotThere),
            ]),
            Kind::Pick => first(&[
                (held.is_some(), EventFault::HandFull),
                (!is_fresh, EventFault::NotThere),
            ]),
            Kind::Keep => first(&[
                (!is_fresh && !is_held, EventFault::NotThere),
                (is_claimed, EventFault::IsClaimed),
            ]),
            _ => first(&[(!is_fresh, EventFault::NotThere)]),
        }
    }

    // The fault of an event that needs a node in the hand.
    fn held_fault(&self, desk: &Desk, held: &Entry, draft: &Draft) -> Option<EventFault> {
        let weight = self.ground.prizes(held.outside);
        match draft.kind {
            Kind::Claim => first(&[
                (held.claimed, EventFault::IsClaimed),
                (desk.refused, EventFault::WasRefused),
            ]),
            Kind::Up => first(&[
                (!held.claimed, EventFault::NotClaimed),
                (desk.up, EventFault::OutOfTurn),
            ]),
            Kind::Split => first(&[
                (!desk.up, EventFault::OutOfTurn),
                (!self.is_free(held, draft.v), EventFault::BadVertex),
                (self.is_used(draft), EventFault::UsedId),
                (
                    !self.may_split(held, draft.root, desk.seen),
                    EventFault::BadPacking,
                ),
            ]),
            _ => first(&[
                (!held.claimed, EventFault::NotClaimed),
                (desk.up, EventFault::OutOfTurn),
                (!self.fits(held, draft.root), EventFault::BadPacking),
                (weight < desk.seen, EventFault::TooLight),
            ]),
        }
    }

    pub fn is_free(&self, held: &Entry, v: u32) -> bool {
        self.ground.may_pay(v) && (held.inside | held.outside) & bit(v) == 0
    }

    pub fn is_certain(&self, held: &Entry, v: u32) -> bool {
        self.ground.is_required(v) || held.inside & bit(v) != 0
    }

    fn is_used(&self, draft: &Draft) -> bool {
        draft.inside == draft.outside
            || self.entry(draft.inside).is_some()
            || self.entry(draft.outside).is_some()
    }

    // Whether a packing with this root fits: the root has to be certain.
    fn fits(&self, held: &Entry, root: Option<u32>) -> bool {
        match root {
            Some(root) => self.is_certain(held, root),
            None => true,
        }
    }

    // Whether a node may be split on a packing with this root: it is full and weighs too little, or
    // nobody is certain.
    fn may_split(&self, held: &Entry, root: Option<u32>, seen: u64) -> bool {
        let some_certain = VERTICES.iter().any(|v| self.is_certain(held, *v));
        let is_light = self.ground.prizes(held.outside) < seen;
        self.fits(held, root) && (!some_certain || (root.is_some() && is_light))
    }
}

// A node that was just made.
fn made(id: u64, inside: u32, outside: u32, spot: Spot) -> Entry {
    Entry {
        id,
        inside,
        outside,
        spot,
        claimed: false,
    }
}

// What an event that happens changes.
impl Book {
    /// Writes down what an event changes, where it has no fault.
    pub fn note(&mut self, draft: &Draft) -> Result<(), AllocError> {
        if self.fault(draft).is_none() {
            self.happened = self.happened.saturating_add(1);
            self.happen(draft)?;
        }
        Ok(())
    }

    fn happen(&mut self, draft: &Draft) -> Result<(), AllocError> {
        let w = draft.w;
        match draft.kind {
            Kind::Take | Kind::Pick => self.put(draft.id, Spot::Hand(w)),
            Kind::Give => self.put(draft.id, Spot::Queue),
            Kind::Keep => self.put(draft.id, Spot::Left(w)),
            Kind::Claim => self.claim(w),
            Kind::Split => self.split(draft)?,
            Kind::Close => self.close(w)?,
            Kind::Offer => self.least = self.least.min(draft.value),
            Kind::Up => self.opened = self.opened.saturating_add(1),
            Kind::Down => self.opened = self.opened.saturating_sub(1),
            Kind::Halt => self.halted = true,
            Kind::See | Kind::SeeOpen | Kind::SeeHalt => {}
        }
        self.at_desk(draft);
        Ok(())
    }

    fn put(&mut self, id: u64, spot: Spot) {
        for entry in self.entries.iter_mut() {
            if entry.id == id {
                entry.spot = spot;
            }
        }
    }

    fn claim(&mut self, w: u32) {
        if self.claims < self.budget {
            self.claims = self.claims.saturating_add(1);
            for entry in self.entries.iter_mut() {
                if entry.spot == Spot::Hand(w) {
                    entry.claimed = true;
                }
            }
        } else if let Some(desk) = self.desks.get_mut(w as usize) {
            desk.refused = true;
            desk.end = End::ClaimRefused;
        }
    }

    fn split(&mut self, draft: &Draft) -> Result<(), AllocError> {
        let Some(held) = self.at(Spot::Hand(draft.w)) else {
            return Ok(());
        };
        let note = Note {
            id: held.id,
            halves: Some((SplitAt::Vertex(draft.v), draft.inside, draft.outside)),
        };
        self.notes.push((draft.w, note))?;
        self.put(held.id, Spot::Done);
        let v = bit(draft.v);
        self.entries.push(made(
            draft.inside,
            held.inside | v,
            held.outside,
            Spot::Hand(draft.w),
        ))?;
        self.entries.push(made(
            draft.outside,
            held.inside,
            held.outside | v,
            Spot::Fresh(draft.w),
        ))?;
        Ok(())
    }

    fn close(&mut self, w: u32) -> Result<(), AllocError> {
        let Some(held) = self.at(Spot::Hand(w)) else {
            return Ok(());
        };
        let note = Note {
            id: held.id,
            halves: None,
        };
        self.notes.push((w, note))?;
        self.put(held.id, Spot::Done);
        Ok(())
    }

    // What the worker keeps in mind.
    fn at_desk(&mut self, draft: &Draft) {
        let (least, opened, halted) = (self.least, self.opened, self.halted);
        let Some(desk) = self.desks.get_mut(draft.w as usize) else {
            return;
        };
        match draft.kind {
            Kind::See | Kind::Offer => desk.seen = least,
            Kind::Up => desk.up = true,
            Kind::Split => desk.up = false,
            Kind::Close => desk.closes = desk.closes.saturating_add(1),
            Kind::Down => desk.closes = desk.closes.saturating_sub(1),
            Kind::SeeOpen if opened == 0 => desk.end = End::OpenZero,
            Kind::SeeHalt if halted => desk.end = End::HaltSeen,
            _ => {}
        }
    }
}
