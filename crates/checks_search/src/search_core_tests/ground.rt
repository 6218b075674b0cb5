//! Instances in which a branch is judged in one look.
use st_model::{Instance, Need};
use std::alloc::{AllocError, Global};
use test_instances::{Draws, link};

/// The vertices, any two of which are joined at no cost. So a packing without a cut is full where it
/// has a root, and weighs what those outside pay.
pub const VERTICES: [u32; 5] = [1, 2, 3, 4, 5];

/// The bit of a vertex in a set.
pub fn bit(v: u32) -> u32 {
    1_u32.wrapping_shl(v)
}

/// The set of some vertices.
pub fn set_of(vertices: &[u32]) -> u32 {
    let mut set = 0;
    for v in vertices {
        set = set | bit(*v);
    }
    set
}

/// What each vertex needs.
#[derive(Clone, Copy)]
pub struct Ground {
    needs: [Need; 5],
}

impl Ground {
    /// The needs are drawn; they make this instance.
    pub fn drawn(alloc: Global, draws: &mut Draws) -> Result<(Ground, Instance), AllocError> {
        let (a, b, c, d, e) = (
            draws.need(),
            draws.need(),
            draws.need(),
            draws.need(),
            draws.need(),
        );
        let links = [
            link(1, 2, 0),
            link(1, 3, 0),
            link(1, 4, 0),
            link(1, 5, 0),
            link(2, 3, 0),
            link(2, 4, 0),
            link(2, 5, 0),
            link(3, 4, 0),
            link(3, 5, 0),
            link(4, 5, 0),
        ];
        let needs = [(1, a), (2, b), (3, c), (4, d), (5, e)];
        let instance = Instance::build(alloc, 5, &links, &needs)?;
        let needs = [a, b, c, d, e];
        Ok((Ground { needs }, instance))
    }

    fn need(&self, v: u32) -> Option<Need> {
        let place = v.checked_sub(1)?;
        self.needs.get(place as usize).copied()
    }

    pub fn is_required(&self, v: u32) -> bool {
        self.need(v) == Some(Need::Required)
    }

    /// Whether there is such a vertex, which may be left out.
    pub fn may_pay(&self, v: u32) -> bool {
        matches!(self.need(v), Some(Need::Pays(_)))
    }

    // What a vertex pays.
    fn prize(&self, v: u32) -> u64 {
        match self.need(v) {
            Some(Need::Pays(prize)) => prize,
            _ => 0,
        }
    }

    /// What the vertices of a set pay.
    pub fn prizes(&self, set: u32) -> u64 {
        let mut sum: u64 = 0;
        for v in VERTICES {
            if set & bit(v) != 0 {
                sum = sum.saturating_add(self.prize(v));
            }
        }
        sum
    }
}
