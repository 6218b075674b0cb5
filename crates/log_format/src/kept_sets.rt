ghost use Rattle.std.specs.Prelude.{◌≡◌, IfOk};

use cut_packing::SharedSet;
use std::alloc::{AllocError, Global};
use std::collections::HashMap;

// An odd number whose bits are spread, by which marks are multiplied.
const SPREAD: u64 = 0x9E37_79B9_7F4A_7C15;

/// The sets that a log said so far, so that one which comes again takes no memory for its vertices.
#[derive(Drop)]
pub struct KeptSets {
    // By their marks. Of sets with one mark the first is kept.
    sets: HashMap<u64, SharedSet>,
}

// A number of the vertices, which sets that differ seldom have in common.
fn mark_of(vertices: &[u32]) -> u64 {
    let mut mark: u64 = 0;
    for vertex in vertices {
        mark = (mark ^ u64::from(*vertex))
            .wrapping_mul(SPREAD)
            .rotate_left(29);
    }
    mark
}

impl KeptSets {
    /// No set.
    pub fn new(alloc: Global) -> Self {
        KeptSets {
            sets: HashMap::new(alloc),
        }
    }

    /// The same set: the one that was kept, where it came before.
    pub fn share(&mut self, set: SharedSet) -> Result<SharedSet, AllocError>
        ensures { IfOk result (λ same. same ≡ set) }
    {
        let mark = mark_of(set.as_slice());
        match self.sets.get(&mark) {
            Some(kept) => {
                if kept.as_slice() == set.as_slice() {
                    return kept.shared();
                }
            }
            None => {
                self.sets.insert(mark, set.shared()?)?;
            }
        }
        Ok(set)
    }
}
