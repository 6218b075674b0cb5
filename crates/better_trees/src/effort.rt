ghost use Rattle.std.specs.Prelude.{◌<◌};

use st_model::Branch;

/// How much work a node gets: most where it has no cuts yet, and so most is to gain.
#[derive(Clone, Copy)]
pub struct Effort {
    /// What is drawn at the node hangs on this.
    pub seed: u64,
    pub is_bare: bool,
    /// In how many threads trees are drawn and attempts made, at most.
    pub threads: usize,
}

// What is added to the seed from round to round.
const STEP: u64 = 1_000_003;

// With what a branch's number begins, by what it is multiplied from vertex to vertex, and what is added
// between its sides.
const FIRST: u64 = 2;

const FACTOR: u64 = 2_000_003;

const SIDE: u64 = 1_009;

// A bound lacks little of what is so many times as much.
const LITTLE: u64 = 300;

// How many links all rounds at a node go over together, about: up to 66,666 links all rounds are made, and above
// 200,000 one.
const FOR_ROUNDS: u64 = 400_000;

// How many links all growths of a tree go over together, about: up to 25,000 links there are all forty, and none above
// 1,000,000.
const FOR_GROWTHS: u64 = 1_000_000;

// How many links all walks of a turn go over in a step, about: up to 25,000 links there are all four, and none above
// 100,000.
const FOR_WALKS: u64 = 100_000;

// How many links all steps of a walk go over that leads a tree on, about: up to 25,000 links it has all four, and none
// above 100,000.
const FOR_STEPS: u64 = 100_000;

impl Effort {
    /// The work on a node of a branch. What is drawn there hangs on the branch alone, and not on who works
    /// on it.
    pub fn at(branch: &Branch, is_bare: bool, threads: usize) -> Effort {
        let inside = mixed(FIRST, branch.inside.as_slice());
        let seed = mixed(inside.wrapping_add(SIDE), branch.outside.as_slice());
        let threads = if is_bare { threads } else { 1 };
        Effort {
            seed,
            is_bare,
            threads,
        }
    }

    /// For how many rounds packings are refined and trees are looked for, at most, in a network of so many links: one
    /// at least.
    pub fn rounds(self, links: usize) -> u64 {
        let rounds = if self.is_bare { 6 } else { 1 };
        at_most(rounds, FOR_ROUNDS, links).max(1)
    }

    /// For how many turns a packing is refined in a round.
    pub fn turns(self) -> u64 {
        if self.is_bare { 60 } else { 10 }
    }

    /// How many trees grow over saturated arcs by chance, for one that is improved, in a network of so many links.
    pub fn growths(self, links: usize) -> u64 {
        let growths = if self.is_bare { 40 } else { 10 };
        at_most(growths, FOR_GROWTHS, links)
    }

    /// How many of so many walks there are in a turn, in a network of so many links.
    pub fn walks(self, walks: u64, links: usize) -> u64 {
        at_most(walks, FOR_WALKS, links)
    }

    /// How many steps a walk from a tree over saturated arcs has as soon as this has grown, where the bound lacks
    /// so much of the least cost known: none unless it lacks little, since then a tree is wanting and not a bound;
    /// none at a node without cuts, where the walk is a candidate.
    pub fn steps(self, below: u64, least: u64, links: usize) -> u64 {
        if !self.is_bare && below.saturating_mul(LITTLE) < least {
            steps_for(2, links)
        } else {
            0
        }
    }

    /// For how many turns a packing is refined that is made of one for a part of the branch.
    pub fn repairs(self) -> u64 {
        if self.is_bare { 120 } else { 20 }
    }

    /// After how many turns in a row without a gain refining ends.
    pub fn patience(self) -> u64 {
        if self.is_bare { u64::MAX } else { 4 }
    }

    /// How many attempts at a packing there are in a turn.
    pub fn attempts(self) -> u64
        ensures { 0 < result }
    {
        if self.is_bare { 4 } else { 1 }
    }

    /// The work of a round.
    pub fn of_round(self, round: u64) -> Effort {
        let seed = self.seed.wrapping_add(round.wrapping_mul(STEP));
        Effort { seed, ..self }
    }
}

/// How many of so many steps a walk has that leads a tree on, in a network of so many links.
pub fn steps_for(steps: u64, links: usize) -> u64 {
    at_most(steps, FOR_STEPS, links)
}

// How many of a share fall to each of so many links, at most so many.
fn at_most(times: u64, share: u64, links: usize) -> u64 {
    times.min(share / (links as u64).max(1))
}

// A number into which those of vertices are mixed.
fn mixed(seed: u64, vertices: &[u32]) -> u64 {
    let mut mixed = seed;
    for vertex in vertices {
        mixed = mixed.wrapping_mul(FACTOR).wrapping_add(u64::from(*vertex));
    }
    mixed
}
