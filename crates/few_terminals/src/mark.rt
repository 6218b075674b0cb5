ghost use Rattle.std.specs.Prelude.{◌≡◌};
ghost use Rattle.few_terminals.specs.Filling.{unknown};

use crate::entry::Way;

// What stands for a cost where nothing is known: more than all that an instance can cost.
pub const FAR: u64 = 1 << 63;

// What is known of a vertex while a row is filled: the least cost so far, how it came about, and
// where its entry stands, once it has one.
#[derive(Clone, Copy, Debug)]
pub struct Mark {
    pub cost: u64,
    pub way: Way,
    pub place: u32,
}

impl Mark {
    // Nothing is known.
    pub fn unknown() -> Mark
        ensures { result ≡ unknown }
    {
        Mark {
            cost: FAR,
            way: Way::Alone,
            place: 0,
        }
    }
}
