ghost use Rattle.std.specs.Prelude.{◌≡◌, ◌<◌, ◌≤◌};

// As many seats as there can be.
const MOST_WORKERS: u32 = 64;

/// What a search may use: how many workers, at least 1 and at most 64 of which run; how many nodes may be
/// worked on, its budget; and whether nodes may be split at links.
#[derive(Clone, Copy, Debug)]
pub struct Limits {
    pub workers: u32,
    pub budget: u64,
    pub links: bool,
}

impl Limits {
    // The same, with as many workers as are run.
    pub(crate) fn seated(self) -> Limits
        ensures few { (0 < result.workers) × (result.workers ≤ 64) }
        ensures budget { result.budget ≡ self.budget }
        ensures links { result.links ≡ self.links }
    {
        Limits {
            workers: self.workers.clamp(1, MOST_WORKERS),
            ..self
        }
    }
}
