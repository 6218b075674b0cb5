// How much is taken off what a link costs is below this; and by what costs are multiplied, so that ways of up to
// sixteen links that differ in what they cost still do so in the same direction.
const BOUND: u64 = 256;

const SCALE: u64 = 4_096;

// By what is mixed (Steele, Lea and Flood 2014), and what is left out of what comes of it.
const ONE: u64 = 0x9E37_79B9_7F4A_7C15;

const OTHER: u64 = 0xBF58_476D_1CE4_E5B9;

const LOW: u64 = 0x1_0000_0000;

/// What is taken off costs that are multiplied, so that of ways that cost the same one is cheaper, more often one of
/// more links: another one for another seed.
#[derive(Clone, Copy)]
pub struct Noise {
    seed: u64,
    scale: u64,
    bound: u64,
}

impl Noise {
    /// Costs stay as they are.
    pub fn none() -> Noise {
        Noise {
            seed: 0,
            scale: 1,
            bound: 1,
        }
    }

    /// The noise of a seed.
    pub fn of(seed: u64) -> Noise {
        Noise {
            seed,
            scale: SCALE,
            bound: BOUND,
        }
    }

    /// What a link between two vertices costs.
    pub fn cost(self, a: u32, b: u32, cost: u64) -> u64 {
        let less = self.mixed(a, b) % self.bound.max(1);
        self.scaled(cost).saturating_sub(less)
    }

    /// What is neither more nor less for the noise.
    pub fn scaled(self, cost: u64) -> u64 {
        cost.saturating_mul(self.scale)
    }

    // A number that looks random, the same in both directions of a link.
    fn mixed(self, a: u32, b: u32) -> u64 {
        let low = u64::from(a.min(b)).wrapping_add(self.seed);
        let high = u64::from(a.max(b)).wrapping_add(low.wrapping_mul(ONE));
        let once = (high / LOW).wrapping_add(high).wrapping_mul(OTHER);
        (once / LOW).wrapping_add(once).wrapping_mul(ONE) / LOW
    }
}
