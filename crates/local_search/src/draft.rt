use graph_store::Half;
use st_model::{Listed, Tree};
use std::alloc::{AllocError, Global};
use way_costs::{ByVertex, MoveGraph};

// How a vertex stands in a tree.
#[derive(Clone, Copy)]
struct Seat {
    reached: bool,
    // How many links of the tree end here.
    degree: u32,
    // The next vertex towards the root, and what the link there costs; 0 at the top of a part.
    up: u32,
    cost: u64,
}

const UNREACHED: Seat = Seat {
    reached: false,
    degree: 0,
    up: 0,
    cost: 0,
};

// A tree under change. Changes are either kept or taken back, all since the last time together.
#[derive(Drop)]
pub struct Draft {
    root: u32,
    seats: ByVertex<Seat>,
    // More than a way to the root has steps.
    count: usize,
    // How things stood before each change that isn't kept yet.
    old_root: u32,
    changed: Vec<(u32, Seat)>,
    // What the changes save, and what they cost.
    saved: u64,
    spent: u64,
    // Ends of links that were taken out.
    loose: Vec<u32>,
}

impl Draft {
    pub fn of(alloc: Global, graph: &MoveGraph, tree: &Tree) -> Result<Draft, AllocError> {
        let mut draft = Draft {
            root: tree.start,
            seats: ByVertex::new(alloc, graph.count(), UNREACHED)?,
            count: graph.count(),
            old_root: tree.start,
            changed: Vec::new(alloc),
            saved: 0,
            spent: 0,
            loose: Vec::new(alloc),
        };
        draft.enter(graph, tree.start)?;
        for (tail, head) in tree.arcs.as_slice() {
            draft.enter(graph, *head)?;
            draft.hang(*head, *tail, graph.link_cost(*tail, *head))?;
        }
        draft.keep();
        Ok(draft)
    }

    // The tree as it stands, from the root on.
    pub fn tree(&self, alloc: Global, graph: &MoveGraph) -> Result<Tree, AllocError> {
        let mut arcs = Vec::new(alloc);
        self.lead(graph, self.root, &mut arcs)?;
        for place in 0..self.count {
            let Some((_, tail)) = arcs.get(place).copied() else {
                break;
            };
            self.lead(graph, tail, &mut arcs)?;
        }
        Ok(Tree {
            start: self.root,
            arcs: Listed::of(arcs),
        })
    }

    // Adds the arcs from a tail.
    fn lead(
        &self,
        graph: &MoveGraph,
        tail: u32,
        arcs: &mut Vec<(u32, u32)>,
    ) -> Result<(), AllocError> {
        for half in graph.neighbours(tail) {
            if self.is_below(half.to, tail) {
                arcs.push((tail, half.to))?;
            }
        }
        Ok(())
    }

    pub fn is_root(&self, vertex: u32) -> bool {
        vertex == self.root
    }

    pub fn is_reached(&self, vertex: u32) -> bool {
        self.seats.at(vertex).reached
    }

    pub fn degree(&self, vertex: u32) -> u32 {
        self.seats.at(vertex).degree
    }

    // The next vertex towards the root, and what the link there costs; 0 at the top of a part.
    pub fn up(&self, vertex: u32) -> (u32, u64) {
        let seat = self.seats.at(vertex);
        (seat.up, seat.cost)
    }

    // Whether a vertex is linked with the next one towards the root.
    pub fn is_below(&self, vertex: u32, above: u32) -> bool {
        let seat = self.seats.at(vertex);
        seat.reached && seat.up == above
    }

    // Whether a vertex is one that key paths lead between: the root, a fork or a leaf, or worth
    // something.
    pub fn is_key(&self, graph: &MoveGraph, vertex: u32) -> bool {
        self.is_root(vertex) || self.degree(vertex) != 2 || graph.worth(vertex) > 0
    }

    // What the changes gain.
    pub fn gain(&self) -> u64 {
        self.saved.saturating_sub(self.spent)
    }

    fn put(&mut self, vertex: u32, seat: Seat) -> Result<(), AllocError> {
        self.changed.push((vertex, self.seats.at(vertex)))?;
        self.seats.put(vertex, seat);
        Ok(())
    }

    // Reaches a vertex.
    pub fn enter(&mut self, graph: &MoveGraph, vertex: u32) -> Result<(), AllocError> {
        let seat = self.seats.at(vertex);
        self.put(
            vertex,
            Seat {
                reached: true,
                ..seat
            },
        )?;
        self.saved = self.saved.saturating_add(graph.worth(vertex));
        Ok(())
    }

    // Reaches a vertex no longer.
    pub fn leave(&mut self, graph: &MoveGraph, vertex: u32) -> Result<(), AllocError> {
        let seat = self.seats.at(vertex);
        self.put(
            vertex,
            Seat {
                reached: false,
                ..seat
            },
        )?;
        self.spent = self.spent.saturating_add(graph.worth(vertex));
        Ok(())
    }

    // Links the top of a part with a vertex above it.
    pub fn hang(&mut self, top: u32, above: u32, cost: u64) -> Result<(), AllocError> {
        let seat = self.seats.at(top);
        self.put(
            top,
            Seat {
                degree: seat.degree.saturating_add(1),
                up: above,
                cost,
                ..seat
            },
        )?;
        let seat = self.seats.at(above);
        self.put(
            above,
            Seat {
                degree: seat.degree.saturating_add(1),
                ..seat
            },
        )?;
        self.spent = self.spent.saturating_add(cost);
        Ok(())
    }

    // Takes out the link of a vertex towards the root.
    fn loosen(&mut self, vertex: u32) -> Result<(), AllocError> {
        let seat = self.seats.at(vertex);
        self.put(
            vertex,
            Seat {
                degree: seat.degree.saturating_sub(1),
                up: 0,
                cost: 0,
                ..seat
            },
        )?;
        let above = self.seats.at(seat.up);
        self.put(
            seat.up,
            Seat {
                degree: above.degree.saturating_sub(1),
                ..above
            },
        )?;
        self.saved = self.saved.saturating_add(seat.cost);
        Ok(())
    }

    // Makes a vertex the top of its part: the links on its way there turn round.
    fn turn(&mut self, vertex: u32) -> Result<(), AllocError> {
        let mut here = vertex;
        let mut below = (0, 0);
        for _step in 0..self.count {
            let seat = self.seats.at(here);
            let (up, cost) = below;
            self.put(here, Seat { up, cost, ..seat })?;
            if seat.up == 0 {
                break;
            }
            below = (here, seat.cost);
            here = seat.up;
        }
        Ok(())
    }

    // Makes a vertex of the root's part the root.
    pub fn root_at(&mut self, vertex: u32) -> Result<(), AllocError> {
        self.turn(vertex)?;
        self.root = vertex;
        Ok(())
    }

    // The top of a vertex's part.
    fn top(&self, vertex: u32) -> u32 {
        let mut here = vertex;
        for _step in 0..self.count {
            let up = self.seats.at(here).up;
            if up == 0 {
                break;
            }
            here = up;
        }
        here
    }

    // Links two parts by a link between these vertices.
    pub fn join(&mut self, tail: u32, head: u32, cost: u64) -> Result<(), AllocError> {
        let (below, above) = if self.top(tail) == self.root {
            (head, tail)
        } else {
            (tail, head)
        };
        self.turn(below)?;
        self.hang(below, above, cost)
    }

    // Reaches a vertex by a link, and makes it the root.
    pub fn crown(&mut self, graph: &MoveGraph, vertex: u32, link: Half) -> Result<(), AllocError> {
        self.root_at(link.to)?;
        self.enter(graph, vertex)?;
        self.hang(link.to, vertex, link.cost)?;
        self.root = vertex;
        Ok(())
    }

    // Takes a link of the root in place of the dearest one on the way between its ends, if that
    // one costs more.
    pub fn close(&mut self, link: Half) -> Result<(), AllocError> {
        let dearest = self.dearest(link.to);
        let seat = self.seats.at(dearest);
        if seat.cost <= link.cost {
            return Ok(());
        }
        self.loosen(dearest)?;
        self.loose.push(dearest)?;
        self.loose.push(seat.up)?;
        self.turn(link.to)?;
        self.hang(link.to, self.root, link.cost)
    }

    // On the way from a vertex to the root the one from which the dearest link leads on.
    fn dearest(&self, vertex: u32) -> u32 {
        let mut here = vertex;
        let mut best = (0, vertex);
        for _step in 0..self.count {
            let seat = self.seats.at(here);
            if seat.up == 0 {
                break;
            }
            if seat.cost > best.0 {
                best = (seat.cost, here);
            }
            here = seat.up;
        }
        best.1
    }

    // Takes out the key path from a vertex towards the root, up to its other end.
    pub fn drop_above(&mut self, graph: &MoveGraph, vertex: u32) -> Result<(), AllocError> {
        let mut here = vertex;
        for _step in 0..self.count {
            let up = self.seats.at(here).up;
            let ends = up == 0 || self.is_key(graph, up);
            self.loosen(here)?;
            if here != vertex {
                self.leave(graph, here)?;
            }
            here = up;
            if ends {
                break;
            }
        }
        self.loose.push(here)?;
        Ok(())
    }

    // Takes out the key path that begins with the link from a vertex towards the root, down to its
    // other end, which is the top of a part then.
    pub fn drop_below(&mut self, graph: &MoveGraph, vertex: u32) -> Result<u32, AllocError> {
        let mut here = vertex;
        for _step in 0..self.count {
            let ends = self.is_key(graph, here);
            self.loosen(here)?;
            if ends {
                break;
            }
            let below = self.below(graph, here);
            self.leave(graph, here)?;
            here = below;
        }
        Ok(here)
    }

    // The other end of a key path that leads from a vertex away from the root; the vertex itself
    // where there is none.
    pub fn key_below(&self, graph: &MoveGraph, vertex: u32) -> u32 {
        let mut here = vertex;
        for _step in 0..self.count {
            let below = self.below(graph, here);
            if below == 0 {
                break;
            }
            here = below;
            if self.is_key(graph, here) {
                break;
            }
        }
        here
    }

    // A vertex that is linked with this one and farther from the root; 0 where there is none.
    pub fn below(&self, graph: &MoveGraph, vertex: u32) -> u32 {
        for half in graph.neighbours(vertex) {
            if self.is_below(half.to, vertex) {
                return half.to;
            }
        }
        0
    }

    // Takes leaves off that aren't worth their links, from this one on towards the root.
    fn trim(&mut self, graph: &MoveGraph, vertex: u32) -> Result<(), AllocError> {
        let mut here = vertex;
        for _step in 0..self.count {
            let seat = self.seats.at(here);
            let is_leaf = seat.reached && seat.degree == 1 && seat.up != 0;
            if !is_leaf || graph.worth(here) >= seat.cost {
                break;
            }
            self.loosen(here)?;
            self.leave(graph, here)?;
            here = seat.up;
        }
        Ok(())
    }

    // Keeps the changes if they gain, and else takes them back; whether they gain.
    pub fn settle(&mut self, graph: &MoveGraph) -> Result<bool, AllocError> {
        for place in 0..self.loose.len() {
            let vertex = self.loose.get(place).copied().unwrap_or(0);
            self.trim(graph, vertex)?;
        }
        let gains = self.spent < self.saved;
        if gains {
            self.keep();
        } else {
            self.take_back();
        }
        Ok(gains)
    }

    pub fn keep(&mut self) {
        self.changed.clear();
        self.old_root = self.root;
        self.begin();
    }

    pub fn take_back(&mut self) {
        while let Some((vertex, seat)) = self.changed.pop() {
            self.seats.put(vertex, seat);
        }
        self.root = self.old_root;
        self.begin();
    }

    fn begin(&mut self) {
        self.saved = 0;
        self.spent = 0;
        self.loose.clear();
    }
}
