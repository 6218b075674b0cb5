ghost use Rattle.std.specs.Prelude.{◌≡◌, ℕ, ◌+◌, ◌<◌, ◌≤◌, ◌∷◌, IfOk, length, map, replicate, if◌then◌else◌, slice_index_or, slice_set};
ghost use Rattle.short_paths.specs.Routes.{source_of};
ghost use Rattle.st_model.specs.Network.{IsVertex, is_required as required};
ghost use Rattle.twice_tree.specs.Cells.{AreChained, terminal_of};

use graph_store::Store;
use short_paths::Distances;
use st_model::Need;
use std::alloc::{AllocError, Global};

// Where a vertex is, in sixteen bytes, since each half of a link looks at one.
#[derive(Clone, Copy)]
pub struct Place {
    // How far it is from the nearest terminal, and u64::MAX where that is too far.
    pub far: u64,
    // The terminal of its cell, and 0 where none reaches it.
    pub terminal: u32,
    // The next vertex of its cell, and the number after all vertices where there is none.
    pub next: u32,
}

// Where each vertex is. The vertices of a cell are a chain that leads up from the first one.
#[derive(Drop)]
pub struct Chains {
    // By vertex, after a place for 0.
    pub places: Vec<Place>,
    // By terminal, the first vertex of its cell, and the number after all vertices where there is
    // none.
    pub firsts: Vec<u32>,
}

impl Chains {
    // The chains of all cells, from the last vertex down.
    pub fn of(
        alloc: Global,
        store: &Store,
        distances: &Distances,
        sources: &[u32],
    ) -> Result<Chains, AllocError>
        requires count { length distances.now ≡ store.now.network.n }
        requires sources { sources.now ≡ 0 ∷ map source_of distances.now }
        requires terminals { (v : ℕ) → IsVertex store.now.network.n v
            → terminal_of store.now.network distances.now v ≤ store.now.network.n }
        ensures { IfOk result (AreChained store.now.network distances.now 0) }
    {
        let mut chains = Chains::new(alloc, store.vertices())?;
        for before in (0..store.vertices()).rev() {
            let vertex = before + 1;
            let far = distances.at(vertex).unwrap_or(u64::MAX);
            chains.put(vertex, far, terminal_in(store, sources, vertex));
        }
        Ok(chains)
    }

    // No vertex is in a cell.
    fn new(alloc: Global, vertices: u32) -> Result<Chains, AllocError>
        requires { vertices ≤ 1000000 }
        ensures places { IfOk result (λ chains. length chains.places.items ≡ vertices + 1) }
        ensures firsts { IfOk result (λ chains. chains.firsts.items ≡ replicate (vertices + 1) (vertices + 1)) }
    {
        let count = vertices as usize + 1;
        let nowhere = Place {
            far: u64::MAX,
            terminal: 0,
            next: vertices + 1,
        };
        Ok(Chains {
            places: vec![in alloc; nowhere; count]?,
            firsts: vec![in alloc; vertices + 1; count]?,
        })
    }

    // A vertex is so far, and the first one of the cell of a terminal from now on.
    fn put(&mut self, vertex: u32, far: u64, terminal: u32)
        requires vertex { vertex < length self.old.places.items }
        requires terminal { terminal < length self.old.firsts.items }
        ensures places { self.new.places.items ≡ slice_set self.old.places.items vertex
            (record { far = far; terminal = terminal; next = slice_index_or self.old.firsts.items terminal 0 }) }
        ensures firsts { self.new.firsts.items ≡ slice_set self.old.firsts.items terminal vertex }
    {
        let next = self.firsts[terminal as usize];
        self.places[vertex as usize] = Place {
            far,
            terminal,
            next,
        };
        self.firsts[terminal as usize] = vertex;
    }
}

// The terminal in whose cell a vertex is.
fn terminal_in(store: &Store, sources: &[u32], vertex: u32) -> u32
    requires { IsVertex store.now.network.n vertex }
    ensures { result ≡ (if required store.now.network vertex then vertex else slice_index_or sources.now vertex 0) }
{
    match store.need(vertex) {
        Need::Required => vertex,
        Need::Pays(_) => sources.get(vertex as usize).copied().unwrap_or(0),
    }
}
