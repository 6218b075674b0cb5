use std::alloc::{AllocError, Global};

// The multiplier and the modulus of Park and Miller (1993).
const MULTIPLIER: u64 = 48_271;

const MODULUS: u64 = 2_147_483_647;

/// Numbers that look random, the same for the same seed. Nothing is claimed of them: what they lead to
/// is judged.
#[derive(Drop)]
pub struct Draws {
    state: u64,
}

impl Draws {
    /// The draws for a seed.
    pub fn of(seed: u64) -> Draws {
        Draws {
            state: 1 + seed % (MODULUS - 1),
        }
    }

    /// The next number below a bound; 0 where nothing is below it.
    pub fn below(&mut self, bound: u64) -> u64 {
        self.state = self.state.wrapping_mul(MULTIPLIER) % MODULUS;
        self.state % bound.max(1)
    }

    /// One of the vertices 1 to the last one.
    pub fn vertex(&mut self, last: u32) -> u32 {
        let before = self.below(u64::from(last));
        u32::try_from(before).unwrap_or(0).saturating_add(1)
    }

    /// By vertex up to the last one, weights of at least so much, each up to so much more.
    pub fn weights(
        &mut self,
        alloc: Global,
        last: u32,
        least: u64,
        more: u64,
    ) -> Result<Vec<u64>, AllocError> {
        let mut weights = Vec::with_capacity(alloc, last as usize + 1)?;
        weights.push(least)?;
        for _vertex in 0..last {
            weights.push(least.saturating_add(self.below(more)))?;
        }
        Ok(weights)
    }

    /// The vertices 1 to the last one, in an order that is drawn.
    pub fn order(&mut self, alloc: Global, last: u32) -> Result<Vec<u32>, AllocError> {
        let mut order = Vec::with_capacity(alloc, last as usize)?;
        for before in 0..last {
            let vertex = before + 1;
            let place = self.below(u64::from(vertex)) as usize;
            let moved = order.get(place).copied().unwrap_or(vertex);
            if let Some(old) = order.get_mut(place) {
                *old = vertex;
            }
            order.push(moved)?;
        }
        Ok(order)
    }
}
