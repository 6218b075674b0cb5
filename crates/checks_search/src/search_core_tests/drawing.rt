//! Drawn events, mostly such as a worker would come to next.
use super::book::{Book, Desk, Entry, Spot};
use super::draft::{Draft, Kind, any_kind};
use super::ground::VERTICES;
use test_instances::Draws;

impl Book {
    /// An event: in seven of eight cases one that the worker could come to next.
    pub fn drawn(&self, draws: &mut Draws) -> Draft {
        let w = self.any_worker(draws);
        let any = any_kind(draws);
        let is_likely = draws.below(8) > 0;
        let kind = match self.desk(w) {
            Some(desk) if is_likely => self.next_kind(&desk, w, draws),
            _ => any,
        };
        self.completed(kind, w, draws)
    }

    // One of the workers, or, now and then, the number after theirs.
    fn any_worker(&self, draws: &mut Draws) -> u32 {
        let count = self.desks.len() as u64;
        let one = draws.below(count.max(1));
        let w = if draws.below(20) == 0 { count } else { one };
        u32::try_from(w).unwrap_or(0)
    }

    fn next_kind(&self, desk: &Desk, w: u32, draws: &mut Draws) -> Kind {
        let fresh = self.at(Spot::Fresh(w)).is_some();
        let aside = draws.below(24);
        match self.at(Spot::Hand(w)) {
            _ if desk.up => Kind::Split,
            _ if aside == 0 => Kind::See,
            _ if aside == 1 => Kind::Offer,
            _ if fresh && aside < 6 => Kind::Give,
            _ if fresh && aside == 6 => Kind::Keep,
            Some(held) => self.next_of_held(desk, &held),
            None => self.next_without(desk, fresh),
        }
    }

    // What comes next with a node in the hand.
    fn next_of_held(&self, desk: &Desk, held: &Entry) -> Kind {
        let is_light = self.ground.prizes(held.outside) < desk.seen;
        let is_free = VERTICES.iter().any(|v| self.is_free(held, *v));
        if !held.claimed && desk.refused {
            Kind::Keep
        } else if !held.claimed {
            Kind::Claim
        } else if !is_light {
            Kind::Close
        } else if is_free {
            Kind::Up
        } else {
            Kind::Offer
        }
    }

    // What comes next with an empty hand.
    fn next_without(&self, desk: &Desk, fresh: bool) -> Kind {
        if desk.closes > 0 {
            Kind::Down
        } else if fresh {
            Kind::Pick
        } else if self.at(Spot::Queue).is_some() {
            Kind::Take
        } else if desk.refused {
            Kind::Halt
        } else if self.opened == 0 {
            Kind::SeeOpen
        } else {
            Kind::SeeHalt
        }
    }

    // The event of a kind, mostly with numbers that serve.
    fn completed(&self, kind: Kind, w: u32, draws: &mut Draws) -> Draft {
        let held = self.at(Spot::Hand(w));
        let next = (self.entries.len() as u64).saturating_mul(5);
        let odd = draws.below(12);
        let outside = if odd == 1 { 3 } else { 4 };
        Draft {
            kind,
            w,
            id: self.next_id(kind, w, draws),
            v: self.next_vertex(held, draws),
            inside: if odd == 0 { 0 } else { next.saturating_add(3) },
            outside: next.saturating_add(outside),
            value: self.next_value(held, draws),
            root: self.next_root(held, draws),
        }
    }

    fn next_id(&self, kind: Kind, w: u32, draws: &mut Draws) -> u64 {
        let count = self.entries.len() as u64;
        let place = draws.below(count.saturating_add(1));
        let any = self.entries.get(place as usize).copied();
        let served = match kind {
            _ if draws.below(12) == 0 => any,
            Kind::Take => self.at(Spot::Queue),
            Kind::Keep => self.at(Spot::Fresh(w)).or(self.at(Spot::Hand(w))),
            _ => self.at(Spot::Fresh(w)),
        };
        match served.or(any) {
            Some(entry) => entry.id,
            None => 1,
        }
    }

    fn next_vertex(&self, held: Option<Entry>, draws: &mut Draws) -> u32 {
        let any = draws.below(7) as u32;
        let Some(held) = held else { return any };
        let is_any = draws.below(12) == 0;
        let free = VERTICES
            .iter()
            .copied()
            .find(|v| *v >= any && self.is_free(&held, *v));
        match free {
            Some(v) if !is_any => v,
            _ => any,
        }
    }

    fn next_root(&self, held: Option<Entry>, draws: &mut Draws) -> Option<u32> {
        let any = draws.below(7) as u32;
        let held = held?;
        if draws.below(12) == 0 {
            return Some(any);
        }
        VERTICES
            .iter()
            .copied()
            .find(|v| self.is_certain(&held, *v))
    }

    // What is offered is no less than what the node in the hand can't do without.
    fn next_value(&self, held: Option<Entry>, draws: &mut Draws) -> u64 {
        let more = draws.below(8);
        match held {
            Some(held) => self.ground.prizes(held.outside).saturating_add(more),
            None => self.least.saturating_add(more),
        }
    }
}
