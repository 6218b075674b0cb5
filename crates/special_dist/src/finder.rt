ghost use Rattle.std.specs.Prelude.{◌≡◌, IfOk, IfSome, IfNone, IsSome};
ghost use Rattle.st_model.specs.Network.{link};
ghost use Rattle.lift_back.specs.Detours.{IsDetour};
ghost use Rattle.special_dist.specs.Answers.{HasNoDetour, IsAnswer};

use crate::Found;
use crate::quest::Quest;
use crate::search::{End, Search};
use crate::walk_back::inner_to;
use graph_store::Store;
use std::alloc::{AllocError, Global};
use std::marker::Model;

/// Room for searches in graphs of so many vertices, one after another. Contracts see that number.
#[derive(Drop)]
pub struct Finder {
    vertices: u32,
    search: Search,
}

impl Model for Finder {
    ghost use Rattle.std.specs.Prelude.{◌≡◌, ◌+◌, ℕ, length};

    ghost Value = { ℕ };

    ghost view = { λ f. f.vertices };

    ghost invariant = { λ f. length f.search.places.items ≡ f.vertices + 1 };
}

/// The inner vertices of a detour for a link, if there is one.
pub fn detour(alloc: Global, store: &Store, a: u32, b: u32) -> Result<Option<Vec<u32>>, AllocError>
    requires { IsSome (link store.now.network.links a b) }
    ensures found { IfOk result (λ answer. IfSome answer (λ inner. IsDetour store.now.network a b inner.items)) }
    ensures none { IfOk result (λ answer. IfNone answer (HasNoDetour store.now.network a b)) }
{
    let mut finder = Finder::new(alloc, store.vertices())?;
    match finder.find(alloc, store, a, b, None)? {
        Found::Detour(inner) => Ok(Some(inner)),
        Found::Nothing => Ok(None),
        Found::GaveUp => unreachable!(),
    }
}

impl Finder {
    /// Room for graphs of so many vertices.
    pub fn new(alloc: Global, vertices: u32) -> Result<Finder, AllocError>
        ensures { IfOk result (λ finder. finder ≡ vertices) }
    {
        let search = Search::new(alloc, vertices)?;
        Ok(Finder { vertices, search })
    }

    /// Looks for a detour for a link. Where a number is given, the search goes on from no more than
    /// so many places, and may give up; else it never does. Its time depends on what it reaches
    /// alone, and not on the size of the graph.
    pub fn find(
        &mut self,
        alloc: Global,
        store: &Store,
        a: u32,
        b: u32,
        most: Option<u32>,
    ) -> Result<Found, AllocError>
        requires linked { IsSome (link store.now.network.links a b) }
        requires vertices { self.old ≡ store.now.network.n }
        ensures answer { IfOk result (IsAnswer store.now.network a b most) }
        ensures vertices { self.new ≡ self.old }
    {
        let limit = store.link_cost(a, b).unwrap();
        let quest = Quest { a, b, limit };
        match self.search.run(store, quest, most)? {
            End::Reached(place) => {
                let inner = inner_to(alloc, &self.search.visits, place)?;
                Ok(Found::Detour(inner))
            }
            End::Closed => Ok(Found::Nothing),
            End::Stopped => Ok(Found::GaveUp),
        }
    }
}
