//! What is gathered of a search beside a book.
use super::book::{Book, Entry, Spot};
use super::ground::set_of;
use super::notes::note_of;
use branching::Node;
use search_core::{Done, End, Gathered, Segment};

fn same_end(a: End, b: End) -> bool {
    match (a, b) {
        (End::OpenZero, End::OpenZero) => true,
        (End::ClaimRefused, End::ClaimRefused) => true,
        (End::HaltSeen, End::HaltSeen) => true,
        _ => false,
    }
}

fn is_entry(node: &Node, entry: &Entry) -> bool {
    node.id == entry.id
        && set_of(node.branch.inside.as_slice()) == entry.inside
        && set_of(node.branch.outside.as_slice()) == entry.outside
}

impl Book {
    /// Whether what is gathered is what stands here.
    pub fn agrees_with(&self, all: &Gathered) -> bool {
        let mut w: u32 = 0;
        for segment in all.segments.as_slice() {
            if !self.agrees_on(w, segment) {
                return false;
            }
            w = w.saturating_add(1);
        }
        w as usize == self.desks.len()
            && self.has_at(all.queued.as_slice(), Spot::Queue)
            && all.claimed == self.claims
            && all.least == self.least
    }

    fn agrees_on(&self, w: u32, segment: &Segment) -> bool {
        let Some(desk) = self.desk(w) else {
            return false;
        };
        self.has_done(segment.done.as_slice(), w)
            && self.has_at(segment.left.as_slice(), Spot::Left(w))
            && segment.best.is_none()
            && segment.seen == desk.seen
            && same_end(segment.end, desk.end)
    }

    // Whether these are the nodes in a place, in the order in which they were made.
    fn has_at(&self, nodes: &[Node], spot: Spot) -> bool {
        let mut place: usize = 0;
        for entry in &self.entries {
            if entry.spot == spot {
                match nodes.get(place) {
                    Some(node) if is_entry(node, entry) => {}
                    _ => return false,
                }
                place = place.saturating_add(1);
            }
        }
        place == nodes.len()
    }

    // Whether these are the records of a worker.
    fn has_done(&self, done: &[Done], w: u32) -> bool {
        let mut place: usize = 0;
        for (by, note) in &self.notes {
            if *by == w {
                match done.get(place) {
                    Some(record) if note_of(record) == *note => {}
                    _ => return false,
                }
                place = place.saturating_add(1);
            }
        }
        place == done.len()
    }
}
