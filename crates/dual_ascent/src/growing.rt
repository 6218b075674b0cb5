ghost use Rattle.std.specs.Prelude.{◌≡◌, ◌+◌, ◌<◌, length, All, IfOk, IsTrue, MatchBool, OnOk, slice_index_or};
ghost use Rattle.bidirected_form.specs.Digraph.{kind_of};
ghost use Rattle.st_model.specs.Network.{IsVertex};
ghost use Rattle.st_model.specs.VertexSet.{Extends};
ghost use Rattle.dual_ascent.specs.Turns.{AreCertain, IsGathered, IsGrowth, IsLooked, free_tails, leads, stops};

use crate::waiting::is_certain;
use bidirected_form::{Arc, Arcs};
use st_model::VertexSet;
use std::alloc::{AllocError, Global};

// Sets of vertices that are kept from turn to turn.
#[derive(Drop)]
pub struct Growth {
    // Scratch: what reaches the vertex whose turn it is.
    pub set: VertexSet,
    pub known: Known,
}

// Vertices at which a search for what reaches one can stop.
#[derive(Drop)]
pub struct Known {
    // Some of those that the root reaches.
    pub reached: VertexSet,
    // By vertex, whether it has to be reached and waits for its turn: whoever it reaches needn't be
    // raised, since that one is reached with it.
    pub leads: Vec<bool>,
}

impl Growth {
    // The root reaches itself, and all that have to be reached wait.
    pub fn start(alloc: Global, arcs: &Arcs) -> Result<Growth, AllocError>
        ensures growth { IfOk result (IsGrowth arcs.now) }
        ensures leads { IfOk result (λ g. AreCertain arcs.now g.known.leads.items) }
    {
        let places = arcs.vertices() as usize + 1;
        let mut reached = VertexSet::new(alloc, places)?;
        reached.insert(arcs.root())?;
        let set = VertexSet::new(alloc, places)?;
        let leads = certain_of(alloc, arcs)?;
        Ok(Growth {
            set,
            known: Known { reached, leads },
        })
    }

    // Whether the root reaches a vertex over arcs with nothing left, or another one that leads does;
    // it leads no more then. Else the set is all that reaches it.
    pub fn is_covered(&mut self, arcs: &Arcs, vertex: u32) -> Result<bool, AllocError>
        requires vertex { IsVertex arcs.now.n vertex }
        requires growth { IsGrowth arcs.now self.old }
        ensures growth { OnOk result (IsGrowth arcs.now self.new) }
        ensures looked { IfOk result (IsLooked arcs.now self.old.known.leads.items
            self.new.known.leads.items self.new.set.members vertex) }
    {
        let Some(met) = grow(arcs, &mut self.set, &self.known, vertex)? else {
            return Ok(false);
        };
        self.known.leads[vertex as usize] = false;
        if !self.known.reached.contains(met) {
            return Ok(true);
        }
        self.known.reached.insert(vertex)?;
        Ok(true)
    }
}

impl Known {
    // Whether the root is known to reach a vertex, or that is another than the one given, and leads.
    fn stops(&self, given: u32, vertex: u32) -> bool
        ensures { result ≡ stops self.now given vertex }
    {
        self.reached.contains(vertex) || (self.is_leading(vertex) && vertex != given)
    }

    // Whether a vertex leads.
    fn is_leading(&self, vertex: u32) -> bool
        ensures { result ≡ leads self.now.leads.items vertex }
    {
        self.leads.get(vertex as usize).copied().unwrap_or(false)
    }
}

// By vertex, whether it has to be reached.
fn certain_of(alloc: Global, arcs: &Arcs) -> Result<Vec<bool>, AllocError>
    ensures { IfOk result (λ certain. AreCertain arcs.now certain.items) }
{
    let mut certain = vec![in alloc; false]?;
    for before in 0..arcs.vertices() {
        certain.push(is_certain(arcs, before + 1))?;
    }
    Ok(certain)
}

// Makes the set what reaches a vertex over arcs with nothing left, as far as the search doesn't stop;
// where it did.
fn grow(
    arcs: &Arcs,
    set: &mut VertexSet,
    known: &Known,
    vertex: u32,
) -> Result<Option<u32>, AllocError>
    requires vertex { IsVertex arcs.now.n vertex }
    requires count { set.old.count ≡ arcs.now.n + 1 }
    ensures count { set.new.count ≡ set.old.count }
    ensures in_range { OnOk result (All (IsVertex arcs.now.n) set.new.members) }
    ensures gathered { IfOk result (IsGathered arcs.now vertex (stops known.now vertex) set.new.members) }
{
    set.clear();
    set.insert(vertex)?;
    let mut next = 0;
    while let Some(member) = set.member(next) {
        if known.stops(vertex, member) {
            return Ok(Some(member));
        }
        add_tails(arcs.arcs_into(member), set)?;
        next += 1;
    }
    Ok(None)
}

// Adds the tails of the arcs with nothing left.
fn add_tails(arcs: &[Arc], set: &mut VertexSet) -> Result<(), AllocError>
    requires { All (λ a. a.tail < set.old.count) arcs.now }
    ensures count { set.new.count ≡ set.old.count }
    ensures extends { OnOk result (Extends set.old.members set.new.members (free_tails arcs.now)) }
{
    for arc in arcs {
        if arc.remaining == 0 {
            set.insert(arc.tail)?;
        }
    }
    Ok(())
}
