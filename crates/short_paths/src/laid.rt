ghost use Rattle.std.specs.Prelude.{◌≡◌, ℕ, ◌+◌, ◌≤◌, ◌||◌, ◌==◌, IfOk, OnOk, IsTrue, IsSome, Some};
ghost use Rattle.st_model.specs.Arborescence.{IsArborescence, arc_cost, reached};
ghost use Rattle.st_model.specs.Lists.{has, total};
ghost use Rattle.st_model.specs.Network.{Network, IsVertex, link};
ghost use Rattle.short_paths.specs.Laid.{IsLaid, spent};
ghost use Rattle.short_paths.specs.Walk.{first_of, path_cost};

use graph_store::Store;
use st_model::{Listed, Tree, VertexSet};
use std::alloc::{AllocError, Global};

/// A tree that is laid out along links from a start, and the vertices that it reaches. After an
/// error it is no tree any more.
#[derive(Drop)]
pub struct Laid {
    pub start: u32,
    pub arcs: Vec<(u32, u32)>,
    pub reached: VertexSet,
}

impl Laid {
    /// The start alone.
    pub fn at(alloc: Global, store: &Store, start: u32) -> Result<Laid, AllocError>
        requires { IsVertex store.now.network.n start }
        ensures laid { IfOk result (IsLaid store.now.network) }
        ensures start { IfOk result (λ laid. laid.start ≡ start) }
        ensures reached { IfOk result (λ laid. (v : ℕ) → has laid.reached.members v ≡ (start == v)) }
        ensures free { IfOk result (λ laid. spent store.now.network laid ≡ 0) }
    {
        let mut reached = VertexSet::new(alloc, store.vertices() as usize + 1)?;
        reached.insert(start)?;
        let arcs = Vec::with_capacity(alloc, store.vertices() as usize)?;
        Ok(Laid {
            start,
            arcs,
            reached,
        })
    }

    /// Goes along a link from a vertex that is reached: the arc is taken, unless its head is
    /// reached.
    pub fn follow(&mut self, store: &Store, from: u32, to: u32) -> Result<(), AllocError>
        requires laid { IsLaid store.now.network self.old }
        requires from { IsTrue (has self.old.reached.members from) }
        requires linked { IsSome (link store.now.network.links from to) }
        ensures laid { OnOk result (IsLaid store.now.network self.new) }
        ensures start { self.new.start ≡ self.old.start }
        ensures reached { OnOk result ((v : ℕ) → has self.new.reached.members v
            ≡ (has self.old.reached.members v || (to == v))) }
        ensures cost { OnOk result (spent store.now.network self.new
            ≤ spent store.now.network self.old + arc_cost store.now.network (from, to)) }
    {
        prove!(to <= store.vertices());
        if self.reached.contains(to) {
            return Ok(());
        }
        self.arcs.push((from, to))?;
        self.reached.insert(to)?;
        Ok(())
    }

    /// Goes along a path, as `path_to` gives it, from its first vertex, which is reached.
    pub fn follow_path(&mut self, store: &Store, path: &[u32]) -> Result<(), AllocError>
        requires laid { IsLaid store.now.network self.old }
        requires from { IsTrue (has self.old.reached.members (first_of path.now)) }
        requires linked { IsSome (path_cost store.now.network.links path.now) }
        ensures laid { OnOk result (IsLaid store.now.network self.new) }
        ensures start { self.new.start ≡ self.old.start }
        ensures reached { OnOk result ((v : ℕ) → has self.new.reached.members v
            ≡ (has self.old.reached.members v || has path.now v)) }
        ensures cost { OnOk result ((c : ℕ) → path_cost store.now.network.links path.now ≡ Some c
            → spent store.now.network self.new ≤ spent store.now.network self.old + c) }
    {
        for place in 1..path.len() {
            self.follow(store, path[place - 1], path[place])?;
        }
        Ok(())
    }

    /// The tree, with the same arcs; takes no memory.
    pub fn into_tree(self) -> Tree
        ensures tree { (I : Network) → IsLaid I self → IsArborescence I result }
        ensures start { result.start ≡ self.start }
        ensures reached { (I : Network) → IsLaid I self
            → (v : ℕ) → has (reached result) v ≡ has self.reached.members v }
        ensures cost { (I : Network) → total (arc_cost I) result.arcs ≡ spent I self }
    {
        Tree {
            start: self.start,
            arcs: Listed::of(self.arcs),
        }
    }
}
