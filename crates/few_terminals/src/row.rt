ghost use Rattle.std.specs.Prelude.{◌≡◌, []};

use std::alloc::Global;

// For each of the vertices that the table is over, in their order, the least that a tree from there
// costs that reaches the row's set, 2^63 where nothing is known, and the place of its entry.
#[derive(Drop)]
pub struct Row {
    pub costs: Vec<u64>,
    pub places: Vec<u32>,
}

impl Row {
    // What stands for the row of the empty set, which has none.
    pub fn none(alloc: Global) -> Row
        ensures costs { result.costs.items ≡ [] }
        ensures places { result.places.items ≡ [] }
    {
        Row {
            costs: Vec::new(alloc),
            places: Vec::new(alloc),
        }
    }
}
