ghost use Rattle.std.specs.Prelude.{◌≡◌, ◌≢◌, ◌^◌, ◌<◌, [], length, AllPairs, Some, IfOk, OnOk, OnErr, slice_get};
ghost use Rattle.cut_packing.specs.SetTable.{with_set};

use indexmap::IndexSet;
use std::alloc::{AllocError, Global};
use std::marker::Model;

/// Sets in the order in which they were put, no two alike. A set is the list that it is written as.
#[derive(Drop)]
pub struct SetTable {
    sets: IndexSet<Vec<u32>>,
}

impl Model for SetTable {
    ghost use Rattle.std.specs.Prelude.{◌≢◌, ℕ, List, map, AllPairs};

    ghost Value = { List (List ℕ) };

    ghost view = { λ t. map (λ set. set.items) t.sets.keys };

    ghost invariant = { λ t. AllPairs (λ a b. a ≢ b) (map (λ set. set.items) t.sets.keys) };
}

impl SetTable {
    /// A table of no sets.
    pub fn new(alloc: Global) -> Self
        ensures { result ≡ [] }
    {
        SetTable {
            sets: IndexSet::new(alloc),
        }
    }

    /// The number of a set: its own where it is held, and else the number of sets held so far.
    pub fn put(&mut self, set: &[u32]) -> Result<u32, AllocError>
        requires { length self.old < 2 ^ 32 }
        ensures sets { OnOk result (self.new ≡ with_set self.old set.now) }
        ensures number { IfOk result (λ i. slice_get self.new i ≡ Some set.now) }
        ensures err { OnErr result (self.new ≡ self.old) }
    {
        if let Some(index) = self.sets.get_index_of(set) {
            return Ok(index as u32);
        }
        let owned = Vec::from_slice(*self.sets.allocator(), set)?;
        let (index, _) = self.sets.insert_full(owned)?;
        Ok(index as u32)
    }

    /// The set of a number.
    pub fn set(&self, i: u32) -> &[u32]
        requires { i < length self.now }
        ensures set { slice_get self.now i ≡ Some result.now }
        ensures apart { AllPairs (λ a b. a ≢ b) self.now }
    {
        &self.sets[i as usize]
    }
}
