ghost use Rattle.std.specs.Prelude.{◌≡◌, ℕ, ◌+◌, ◌<◌, ◌≤◌, length, All, IfOk, [], ◌∷◌, map, slice_index_or};
ghost use Rattle.std.specs.Option.{option_map};
ghost use Rattle.st_model.specs.Network.{IsVertex};
ghost use Rattle.short_paths.specs.Routes.{route_of, source_of, AreRoutes};
ghost use Rattle.short_paths.specs.Searching.{paths_of};

use crate::mark::Mark;
use crate::search::Search;
use crate::settled::Settled;
use crate::sources::sources_of;
use graph_store::Store;
use std::alloc::{AllocError, Global};
use std::marker::Model;

/// How far each vertex is from the sources, and by which path.
#[derive(Drop)]
pub struct Distances {
    settled: Vec<Settled>,
    // By vertex, what the search knew of it at its end.
    marks: Vec<Mark>,
}

impl Model for Distances {
    ghost use Rattle.std.specs.Prelude.{List, Option};
    ghost use Rattle.short_paths.specs.Routes.{Route};
    ghost use Rattle.short_paths.specs.Marks.{places_of};
    ghost use Rattle.short_paths.specs.Searching.{routes_of, ArePlaces};

    ghost Value = { List (Option Route) };

    ghost view = { λ d. routes_of d.settled.items (places_of d.marks.items) };

    ghost invariant = { λ d. ArePlaces d.settled.items (places_of d.marks.items) };
}

/// The least that a walk from one of the sources to each vertex costs, where that is at most the
/// limit, and a path of that cost. Sources may repeat, and need not be present. The vertices are
/// settled in the order of their distance (Dijkstra 1959), in a time near linear in the links.
pub fn from_many(
    alloc: Global,
    store: &Store,
    sources: &[u32],
    limit: u64,
) -> Result<Distances, AllocError>
    requires { All (IsVertex store.now.network.n) sources.now }
    ensures { IfOk result (AreRoutes store.now.network.links store.now.network.n sources.now limit) }
{
    let mut search = Search::start(alloc, store.vertices(), sources)?;
    while let Some(offer) = search.next() {
        search.take(store, limit, offer)?;
    }
    Ok(Distances {
        settled: search.settled,
        marks: search.marks,
    })
}

impl Distances {
    /// How far a vertex is from the sources, if it is within the limit.
    pub fn at(&self, vertex: u32) -> Option<u64>
        requires { IsVertex (length self.now) vertex }
        ensures { result ≡ option_map (λ route. route.cost) (route_of self.now vertex) }
    {
        let place = self.marks[vertex as usize].place()?;
        Some(self.settled[place as usize].cost)
    }

    /// A path from a source to a vertex, if it is within the limit: each two next vertices are
    /// linked, none is passed twice, and the links cost what `at` returns.
    pub fn path_to(&self, alloc: Global, vertex: u32) -> Result<Option<Vec<u32>>, AllocError>
        requires { IsVertex (length self.now) vertex }
        ensures { IfOk result (λ path. option_map (λ vertices. vertices.items) path
            ≡ option_map (λ route. route.path) (route_of self.now vertex)) }
    {
        match self.marks[vertex as usize].place() {
            Some(place) => Ok(Some(path_back(alloc, &self.settled, place)?)),
            None => Ok(None),
        }
    }

    /// By vertex the source that the path to it begins with, and 0 where there is none. At place
    /// 0 stands a 0.
    pub fn sources(&self, alloc: Global) -> Result<Vec<u32>, AllocError>
        ensures { IfOk result (λ sources. sources.items ≡ 0 ∷ map source_of self.now) }
    {
        sources_of(alloc, &self.settled, &self.marks)
    }
}

// The path to the vertex that was settled at a place.
fn path_back(alloc: Global, settled: &[Settled], place: u32) -> Result<Vec<u32>, AllocError>
    requires { place < length settled.now }
    ensures { IfOk result (λ path. path.items ≡ slice_index_or (paths_of settled.now) place []) }
{
    let mut path = Vec::new(alloc);
    let mut here = place;
    path.push(settled[here as usize].vertex)?;
    while settled[here as usize].before < here {
        here = settled[here as usize].before;
        path.push(settled[here as usize].vertex)?;
    }
    path.reverse();
    Ok(path)
}
