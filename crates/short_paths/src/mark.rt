ghost use Rattle.std.specs.Prelude.{◌≡◌, ℕ, ◌<◌, ◌≤◌, Some, None, IsSomeAnd, IfSome};
ghost use Rattle.std.specs.Bool.{OnTrue, OnFalse};
ghost use Rattle.short_paths.specs.Marks.{best_of, place_in};

// How far a search has come with a vertex.
#[derive(Clone, Copy, Debug)]
pub enum Stage {
    Unseen,
    Offered,
    // Its place among the settled vertices.
    At(u32),
}

// What a search knows of a vertex, in sixteen bytes, since each look at a vertex waits for memory.
#[derive(Clone, Copy, Debug)]
pub struct Mark {
    // The least that was offered, if anything was.
    pub least: u64,
    pub stage: Stage,
}

impl Mark {
    // Nothing was offered.
    pub fn new() -> Mark
        ensures best { best_of result ≡ None }
        ensures place { place_in result ≡ None }
    {
        Mark {
            least: u64::MAX,
            stage: Stage::Unseen,
        }
    }

    // Whether something at most so dear was offered.
    pub fn is_offered(self, cost: u64) -> bool
        ensures yes { OnTrue result (IsSomeAnd (best_of self) (λ least. least ≤ cost)) }
        ensures no { OnFalse result (IfSome (best_of self) (λ least. cost < least)) }
    {
        if cost < self.least {
            return false;
        }
        match self.stage {
            Stage::Unseen => false,
            Stage::Offered | Stage::At(_) => true,
        }
    }

    // The place among the settled vertices.
    pub fn place(self) -> Option<u32>
        ensures { result ≡ place_in self }
    {
        match self.stage {
            Stage::At(place) => Some(place),
            _ => None,
        }
    }

    // The same with an offer.
    pub fn offered(self, least: u64) -> Mark
        ensures best { best_of result ≡ Some least }
        ensures place { place_in result ≡ place_in self }
    {
        let stage = match self.stage {
            Stage::At(place) => Stage::At(place),
            _ => Stage::Offered,
        };
        Mark { least, stage }
    }

    // The same, settled.
    pub fn settled(self, place: u32) -> Mark
        ensures best { (least : ℕ) → best_of self ≡ Some least → best_of result ≡ Some least }
        ensures place { place_in result ≡ Some place }
    {
        Mark {
            least: self.least,
            stage: Stage::At(place),
        }
    }
}
