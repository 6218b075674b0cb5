use crate::faults::{Fault, random_fault};
use crate::rooted::Rooted;
use better_trees::by_vertex::{at, put};
use better_trees::{Draws, Place};
use cut_packing::{Cut, Packing};
use dual_ascent::Extension;
use st_model::Instance;
use std::alloc::{AllocError, Global};

// Of the cuts round a fault each is freed with a chance of so many percent at least.
const LEAST_PERCENT: u64 = 40;

// A ball has so many vertices at least, and at most about so many more: a third of all, within limits.
const BALL: u64 = 3;

const BALL_MORE: (u64, u64) = (4, 60);

/// Which cuts of a packing are freed: one with a fault, and some of those round it.
#[derive(Drop)]
pub struct Freeing {
    faulty: Option<usize>,
    // Which vertices are near the fault.
    ball: Vec<bool>,
    percent: u64,
}

impl Freeing {
    /// Round a random fault of an extension's packing, or where there is none round a vertex.
    pub fn random(
        alloc: Global,
        place: &Place<'_>,
        extension: &Extension,
        tree: &Option<Rooted>,
        draws: &mut Draws,
    ) -> Result<Freeing, AllocError> {
        let fault = match tree {
            Some(tree) => random_fault(alloc, place, extension, tree, draws)?,
            None => None,
        };
        let instance = &place.whole.instance;
        let centre = centre(instance, extension.ascent.packing(), fault, draws);
        Ok(Freeing {
            faulty: match fault {
                Some(Fault::Cut(place)) => Some(place),
                Some(Fault::Vertex(_)) | None => None,
            },
            ball: ball(alloc, place, centre, size(instance, draws))?,
            percent: draws
                .below(100 - LEAST_PERCENT)
                .saturating_add(LEAST_PERCENT),
        })
    }

    /// At the place of each cut of a packing, whether that is freed.
    pub fn marks(
        &self,
        alloc: Global,
        packing: &Packing,
        draws: &mut Draws,
    ) -> Result<Vec<bool>, AllocError> {
        let mut marks = Vec::new(alloc);
        for (place, cut) in packing.cuts.as_slice().iter().enumerate() {
            marks.push(self.frees(place, cut, draws))?;
        }
        Ok(marks)
    }

    // Whether the cut at a place is freed.
    fn frees(&self, place: usize, cut: &Cut, draws: &mut Draws) -> bool {
        self.faulty == Some(place) || self.meets(cut) && draws.below(100) < self.percent
    }

    // Whether the set of a cut has a vertex that is near.
    fn meets(&self, cut: &Cut) -> bool {
        cut.set
            .as_slice()
            .iter()
            .any(|vertex| at(&self.ball, *vertex, false))
    }
}

// Where a fault is; a random vertex where there is none.
fn centre(instance: &Instance, packing: &Packing, fault: Option<Fault>, draws: &mut Draws) -> u32 {
    match fault {
        Some(Fault::Vertex(vertex)) => vertex,
        Some(Fault::Cut(place)) => match packing.cuts.as_slice().get(place) {
            Some(cut) => random_of(cut.set.as_slice(), draws),
            None => 0,
        },
        None => draws.vertex(instance.vertices()),
    }
}

// A random one of some vertices; 0 where there are none.
fn random_of(vertices: &[u32], draws: &mut Draws) -> u32 {
    let place = draws.below(vertices.len() as u64) as usize;
    vertices.get(place).copied().unwrap_or(0)
}

// How many vertices a ball has.
fn size(instance: &Instance, draws: &mut Draws) -> usize {
    let (least, most) = BALL_MORE;
    let third = u64::from(instance.vertices() / 3);
    draws.below(third.min(most).max(least)).saturating_add(BALL) as usize
}

// The first so many vertices that a walk from a centre comes to over links, the nearest first, without
// those that are outside.
fn ball(
    alloc: Global,
    place: &Place<'_>,
    centre: u32,
    size: usize,
) -> Result<Vec<bool>, AllocError> {
    let store = &place.whole.store;
    let mut marks = vec![in alloc; false; store.vertices() as usize + 1]?;
    let mut reached = Vec::new(alloc);
    put(&mut marks, centre, true);
    reached.push(centre)?;
    for index in 0..size {
        let Some(vertex) = reached.get(index).copied() else {
            break;
        };
        if vertex < 1 || store.vertices() < vertex {
            break;
        }
        for half in store.neighbours(vertex) {
            let is_new = !at(&marks, half.to, true) && !place.branch.is_outside(half.to);
            if is_new && reached.len() < size {
                put(&mut marks, half.to, true);
                reached.push(half.to)?;
            }
        }
    }
    Ok(marks)
}
