ghost use Rattle.st_model.specs.Network.{IsVertex};
ghost use Rattle.lift_back.specs.Ends.{HasEnds};

use graph_store::Store;

/// Where the links of a vertex lead.
#[derive(Clone, Copy, Debug)]
pub enum Ends {
    Nobody,
    One(u32),
    Two(u32, u32),
    /// To three vertices or more.
    More,
}

// Where the links of a vertex lead.
pub fn ends_of(store: &Store, vertex: u32) -> Ends
    requires { IsVertex store.now.network.n vertex }
    ensures { HasEnds store.now.network.links vertex result }
{
    match store.neighbours(vertex) {
        [] => Ends::Nobody,
        [half] => Ends::One(half.to),
        [first, second] => Ends::Two(first.to, second.to),
        _ => Ends::More,
    }
}
