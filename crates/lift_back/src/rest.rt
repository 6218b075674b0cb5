ghost use Rattle.std.specs.Prelude.{◌≡◌, ◌↔◌, ◌+◌, ◌-◌, ◌^◌, ◌≤◌, ℕ, if◌then◌else◌, IsTrue, IfSome, IfNone, IfOk, OnOk, OnErr, ◌<◌, ◌++◌, ◌∷◌, [], length, slice_index_or};
ghost use Rattle.std.specs.Bool.{OnTrue, OnFalse};
ghost use Rattle.st_model.specs.declared.need.Need.TheVariants.{Pays, Required};
ghost use Rattle.st_model.specs.Lists.{has};
ghost use Rattle.st_model.specs.Network.{IsVertex, is_needed, is_required};
ghost use Rattle.st_model.specs.Arborescence.{arc_cost};
ghost use Rattle.st_model.specs.Made.{is_between};
ghost use Rattle.graph_store.specs.Graph.{is_in};
ghost use Rattle.lift_back.specs.Steps.{IsForced, IsIdle, IsPendant, IsThrough, TakesDetour, TakesForced, TakesPendant, TakesThrough, least};
ghost use Rattle.lift_back.specs.Detours.{IsDetour, MayGo};
ghost use Rattle.lift_back.specs.State.{whole};
ghost use Rattle.lift_back.specs.Undoing.{FitsThrough};
ghost use Rattle.lift_back.specs.Keeping.{count_to, state_of, IsKept};

use crate::ends::{Ends, ends_of};
use crate::removing::{remove_leaf, remove_middle};
use crate::undo::Undo;
use graph_store::Store;
use st_model::{Instance, Need};
use std::alloc::{AllocError, Global};

// What is left of an instance under reduction.
#[derive(Drop)]
pub struct Rest {
    // Of its vertices those who are gone aren't present.
    pub store: Store,
    // How many vertices aren't gone, and how many are required.
    pub left: u32,
    pub required: u32,
    pub offset: u64,
}

impl Rest {
    // All of an instance.
    pub fn of(alloc: Global, instance: &Instance) -> Result<Rest, AllocError>
        ensures kept { IfOk result IsKept }
        ensures all { IfOk result (λ rest. state_of rest ≡ whole instance.now) }
    {
        let store = Store::of(alloc, instance)?;
        Ok(Rest {
            store,
            left: instance.vertices(),
            required: count_required(instance.needs()),
            offset: 0,
        })
    }

    // The vertices that are gone, ascending.
    pub fn gone_vertices(&self, alloc: Global) -> Result<Vec<u32>, AllocError>
        ensures { IfOk result (λ gone. gone.items ≡ (state_of self.now).gone) }
    {
        let mut gone = Vec::new(alloc);
        for before in 0..self.store.vertices() {
            self.push_gone(&mut gone, before + 1)?;
        }
        Ok(gone)
    }

    // Puts a vertex after the others if it is gone.
    fn push_gone(&self, gone: &mut Vec<u32>, vertex: u32) -> Result<(), AllocError>
        requires { IsVertex self.now.store.network.n vertex }
        ensures { OnOk result (gone.new.items ≡ gone.old.items
            ++ (if is_in self.now.store vertex then [] else vertex ∷ [])) }
    {
        if self.store.is_present(vertex) {
            return Ok(());
        }
        gone.push(vertex)?;
        Ok(())
    }

    // Whether a vertex isn't gone, isn't required and pays nothing.
    fn is_idle(&self, vertex: u32) -> bool
        ensures { IsTrue result ↔ IsIdle (state_of self.now) vertex }
    {
        if !self.is_vertex(vertex) {
            return false;
        }
        if self.is_gone(vertex) {
            return false;
        }
        pays_nothing(self.store.need(vertex))
    }

    fn is_gone(&self, vertex: u32) -> bool
        requires { IsVertex self.now.store.network.n vertex }
        ensures { result ≡ has (state_of self.now).gone vertex }
    {
        !self.store.is_present(vertex)
    }

    // Whether this is the number of a vertex, gone or not.
    fn is_vertex(&self, vertex: u32) -> bool
        ensures { IsTrue result ↔ IsVertex self.now.store.network.n vertex }
    {
        vertex >= 1 && vertex <= self.store.vertices()
    }

    fn is_needed(&self, vertex: u32) -> bool
        requires { IsVertex self.now.store.network.n vertex }
        ensures { result ≡ is_required self.now.store.network vertex }
    {
        must_be_reached(self.store.need(vertex))
    }

    // Takes a vertex with one link at most that needs nothing, where another vertex is left.
    pub fn pendant(&mut self, vertex: u32) -> bool
        requires { IsKept self.old }
        ensures kept { IsKept self.new }
        ensures taken { OnTrue result (TakesPendant (state_of self.old) (state_of self.new) vertex) }
        ensures refused { OnFalse result (¬ IsPendant (state_of self.old) vertex) }
        ensures same { OnFalse result (self.new ≡ self.old) }
    {
        if !self.is_pendant(vertex) {
            return false;
        }
        self.store.remove_vertex(vertex);
        self.left -= 1;
        true
    }

    // Whether there is such a vertex.
    fn is_pendant(&self, vertex: u32) -> bool
        requires { IsKept self.now }
        ensures { IsTrue result ↔ IsPendant (state_of self.now) vertex }
    {
        if self.left < 2 {
            return false;
        }
        if !self.is_idle(vertex) {
            return false;
        }
        match ends_of(&self.store, vertex) {
            Ends::Nobody => true,
            Ends::One(_) => true,
            Ends::Two(_, _) => false,
            Ends::More => false,
        }
    }

    // The two links of a vertex that needs nothing, if there are just two: where they lead, and
    // what they cost.
    pub fn through_at(&self, vertex: u32) -> Option<(u32, u32, u64, u64)>
        ensures found { IfSome result (λ links. IsThrough (state_of self.now) vertex links.0 links.1 links.2 links.3) }
        ensures none { IfNone result ((a b x y : ℕ) → ¬ IsThrough (state_of self.now) vertex a b x y) }
    {
        if !self.is_idle(vertex) {
            return None;
        }
        let Ends::Two(a, b) = ends_of(&self.store, vertex) else {
            return None;
        };
        let first = self.store.link_cost(vertex, a)?;
        let second = self.store.link_cost(vertex, b)?;
        Some((a, b, first, second))
    }

    // What leads trees back over a step that takes the vertex between two others.
    pub fn undo_through(&self, vertex: u32, a: u32, b: u32, first: u64, second: u64) -> Undo
        requires kept { IsKept self.now }
        requires through { IsThrough (state_of self.now) vertex a b first second }
        ensures { FitsThrough (state_of self.now) vertex a b (first + second) result }
    {
        match self.store.link_cost(a, b) {
            Some(known) if known <= first + second => Undo::Keep,
            _ => Undo::Past { vertex, a, b },
        }
    }

    // The vertex between two others goes, and they are linked for what its links cost together.
    // Until these are removed that link costs nothing, so that all costs together stay within their bound.
    pub fn take_through(
        &mut self,
        vertex: u32,
        a: u32,
        b: u32,
        first: u64,
        second: u64,
    ) -> Result<(), AllocError>
        requires kept { IsKept self.old }
        requires through { IsThrough (state_of self.old) vertex a b first second }
        ensures kept { IsKept self.new }
        ensures ok { OnOk result (TakesThrough (state_of self.old) (state_of self.new) vertex a b first second) }
        ensures err { OnErr result (self.new ≡ self.old) }
    {
        let cost = self.cost_within(a, b, first + second);
        self.store.put_link(a, b, 0)?;
        remove_middle(&mut self.store, vertex, a, b);
        self.store.set_cost(a, b, cost);
        self.left -= 1;
        Ok(())
    }

    // What the link between two vertices costs, if there is one, or this where it is less.
    fn cost_within(&self, a: u32, b: u32, cost: u64) -> u64
        ensures { result ≡ least (state_of self.now) a b cost }
    {
        match self.store.link_cost(a, b) {
            Some(known) => cost.min(known),
            None => cost,
        }
    }

    // Where the only link of a required vertex leads, and what it costs, where another vertex is
    // required.
    pub fn forced_at(&self, vertex: u32) -> Option<(u32, u64)>
        requires { IsKept self.now }
        ensures found { IfSome result (λ link. IsForced (state_of self.now) vertex link.0 link.1) }
        ensures none { IfNone result ((u c : ℕ) → ¬ IsForced (state_of self.now) vertex u c) }
    {
        if !self.is_vertex(vertex) {
            return None;
        }
        if !self.is_needed(vertex) {
            return None;
        }
        if self.required < 2 {
            return None;
        }
        let Ends::One(neighbour) = ends_of(&self.store, vertex) else {
            return None;
        };
        let cost = self.store.link_cost(vertex, neighbour)?;
        Some((neighbour, cost))
    }

    // A required vertex goes with its only link, and its neighbour is required from now on.
    pub fn take_forced(&mut self, vertex: u32, neighbour: u32, cost: u64)
        requires kept { IsKept self.old }
        requires forced { IsForced (state_of self.old) vertex neighbour cost }
        ensures kept { IsKept self.new }
        ensures taken { TakesForced (state_of self.old) (state_of self.new) vertex neighbour cost }
    {
        let required = self.required_without(neighbour);
        remove_leaf(&mut self.store, vertex, neighbour);
        self.store.set_need(vertex, Need::Pays(0));
        self.store.set_need(neighbour, Need::Required);
        self.left -= 1;
        self.required = required;
        self.offset += cost;
    }

    // How many are required once one is not, and another one is.
    fn required_without(&self, other: u32) -> u32
        requires kept { IsKept self.now }
        requires other { IsVertex self.now.store.network.n other }
        ensures { result + (if is_required self.now.store.network other then 1 else 0) ≡ self.now.required }
    {
        if self.is_needed(other) {
            self.required - 1
        } else {
            self.required
        }
    }

    // Takes the link between two vertices, where a walk over the inner ones stands in for it.
    pub fn detour(&mut self, a: u32, b: u32, inner: &[u32]) -> bool
        requires { IsKept self.old }
        ensures kept { IsKept self.new }
        ensures taken { OnTrue result (TakesDetour (state_of self.old) (state_of self.new) a b inner.now) }
        ensures refused { OnFalse result (¬ IsDetour (state_of self.old).instance a b inner.now) }
        ensures same { OnFalse result (self.new ≡ self.old) }
    {
        if !self.is_detour(a, b, inner) {
            return false;
        }
        self.store.remove_link(a, b);
        true
    }

    // Whether such a walk is there.
    fn is_detour(&self, a: u32, b: u32, inner: &[u32]) -> bool
        requires { IsKept self.now }
        ensures { IsTrue result ↔ IsDetour (state_of self.now).instance a b inner.now }
    {
        let Some(limit) = self.store.link_cost(a, b) else {
            return false;
        };
        if inner.is_empty() {
            return false;
        }
        let mut paid = 0;
        let mut at = a;
        for &next in inner {
            match self.paid_along(a, b, limit, paid, at, next) {
                Some(more) => paid = more,
                None => return false,
            }
            at = next;
        }
        self.paid_along(a, b, limit, paid, at, b).is_some()
    }

    // What is paid since the last required vertex once the walk goes over one link more, where it
    // may.
    fn paid_along(&self, a: u32, b: u32, limit: u64, paid: u64, from: u32, to: u32) -> Option<u64>
        requires kept { IsKept self.now }
        requires paid { paid ≤ limit }
        ensures some { IfSome result (λ more. (more ≡ (let I = (state_of self.now).instance in
            if is_required I to then 0 else paid + arc_cost I (from, to)))
            × MayGo (state_of self.now).instance a b limit paid from to) }
        ensures none { IfNone result (¬ MayGo (state_of self.now).instance a b limit paid from to) }
    {
        if is_same_pair(a, b, from, to) {
            return None;
        }
        let cost = self.store.link_cost(from, to)?;
        if cost > limit - paid {
            return None;
        }
        Some(if self.is_needed(to) { 0 } else { paid + cost })
    }
}

// How many needs are Required.
fn count_required(needs: &[Need]) -> u32
    requires { length needs.now < 2 ^ 32 }
    ensures { result ≡ count_to (λ v. is_needed (slice_index_or needs.now (v - 1) Required)) (length needs.now) }
{
    let mut count = 0;
    for need in needs {
        if must_be_reached(*need) {
            count += 1;
        }
    }
    count
}

fn pays_nothing(need: Need) -> bool
    ensures { IsTrue result ↔ (need ≡ Pays 0) }
{
    matches!(need, Need::Pays(0))
}

fn must_be_reached(need: Need) -> bool
    ensures { result ≡ is_needed need }
{
    matches!(need, Need::Required)
}

// Whether these are the same two vertices, in either order.
fn is_same_pair(a: u32, b: u32, from: u32, to: u32) -> bool
    ensures { result ≡ is_between (a, b) from to }
{
    (a == from && b == to) || (a == to && b == from)
}
