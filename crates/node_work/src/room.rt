use better_trees::by_vertex::{at, put};
use graph_store::Store;
use st_model::{Instance, Sides};
use std::alloc::{AllocError, Global};

// What cuts leave of a branch's links, in either direction, and of its prizes. Nothing is claimed of
// it: what is made with its help is judged.
#[derive(Drop)]
pub struct Room<'a> {
    store: &'a Store,
    branch: &'a Sides,
    // By vertex where its links begin among all.
    firsts: Vec<usize>,
    // What is left of each link towards the vertex at which it is listed.
    links: Vec<u64>,
    // By vertex what is left of its prize; where it has to be reached, more than any cut takes.
    prizes: Vec<u64>,
    // Which vertices are in the set that is looked at.
    marks: Vec<bool>,
}

impl<'a> Room<'a> {
    // All costs and prizes.
    pub fn of(
        alloc: Global,
        store: &'a Store,
        instance: &Instance,
        branch: &'a Sides,
    ) -> Result<Room<'a>, AllocError> {
        let count = instance.vertices() as usize + 1;
        let mut room = Room {
            store,
            branch,
            firsts: vec![in alloc; 0; count]?,
            links: Vec::new(alloc),
            prizes: vec![in alloc; u64::MAX; count]?,
            marks: vec![in alloc; false; count]?,
        };
        for before in 0..instance.vertices() {
            let vertex = before + 1;
            if !branch.is_certain(instance, vertex) {
                put(&mut room.prizes, vertex, instance.prize(vertex));
            }
            room.list_links(vertex)?;
        }
        Ok(room)
    }

    fn list_links(&mut self, vertex: u32) -> Result<(), AllocError> {
        put(&mut self.firsts, vertex, self.links.len());
        if vertex < 1 || self.store.vertices() < vertex {
            return Ok(());
        }
        for half in self.store.neighbours(vertex) {
            self.links.push(half.cost)?;
        }
        Ok(())
    }

    // Takes as much of a cut's value as is left of the arcs that enter its set and of the prize of the
    // vertex that it names; how much that is.
    pub fn take(&mut self, set: &[u32], named: u32, value: u64) -> u64 {
        self.mark(set, true);
        let most = self.left_for(set, value.min(at(&self.prizes, named, 0)));
        self.lower(set, most);
        let prize = at(&self.prizes, named, 0);
        if prize < u64::MAX {
            put(&mut self.prizes, named, prize.saturating_sub(most));
        }
        self.mark(set, false);
        most
    }

    // Charges a cut, and marks whoever an arc comes from of which less is left than the cut's value.
    pub fn charge(&mut self, set: &[u32], value: u64, short: &mut [bool]) {
        self.mark(set, true);
        for vertex in set {
            self.mark_short(*vertex, value, short);
        }
        self.lower(set, value);
        self.mark(set, false);
    }

    fn mark_short(&self, vertex: u32, value: u64, short: &mut [bool]) {
        if vertex < 1 || self.store.vertices() < vertex {
            return;
        }
        let mut place = at(&self.firsts, vertex, 0);
        for half in self.store.neighbours(vertex) {
            if self.enters(half.to) && self.links.get(place).copied().unwrap_or(0) < value {
                put(short, half.to, true);
            }
            place = place.wrapping_add(1);
        }
    }

    fn mark(&mut self, set: &[u32], is_in: bool) {
        for vertex in set {
            put(&mut self.marks, *vertex, is_in);
        }
    }

    // The less of a value and of what is left of the arcs that enter the marked set.
    fn left_for(&self, set: &[u32], value: u64) -> u64 {
        let mut most = value;
        for vertex in set {
            most = self.left_into(*vertex, most);
        }
        most
    }

    fn left_into(&self, vertex: u32, value: u64) -> u64 {
        if vertex < 1 || self.store.vertices() < vertex {
            return value;
        }
        let mut most = value;
        let mut place = at(&self.firsts, vertex, 0);
        for half in self.store.neighbours(vertex) {
            if self.enters(half.to) {
                most = most.min(self.links.get(place).copied().unwrap_or(0));
            }
            place = place.wrapping_add(1);
        }
        most
    }

    fn lower(&mut self, set: &[u32], value: u64) {
        for vertex in set {
            self.lower_into(*vertex, value);
        }
    }

    fn lower_into(&mut self, vertex: u32, value: u64) {
        if vertex < 1 || self.store.vertices() < vertex {
            return;
        }
        let mut place = at(&self.firsts, vertex, 0);
        for half in self.store.neighbours(vertex) {
            if self.enters(half.to) {
                if let Some(left) = self.links.get_mut(place) {
                    *left = left.saturating_sub(value);
                }
            }
            place = place.wrapping_add(1);
        }
    }

    // Whether an arc from a vertex enters the marked set.
    fn enters(&self, tail: u32) -> bool {
        !at(&self.marks, tail, false) && !self.branch.is_outside(tail)
    }
}
