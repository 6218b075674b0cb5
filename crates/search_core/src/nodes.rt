ghost use Rattle.std.specs.Prelude.{◌≡◌, ◌++◌, ◌∷◌, [], find, None, OnOk, OnErr, true, false, ◌==◌, length, ◌<◌, ◌^◌};
ghost use Rattle.std.specs.Option.{option_copied};
ghost use Rattle.search_core.specs.State.{has_id, with_made};

use crate::{Made, Place};
use indexmap::IndexSet;
use std::alloc::{AllocError, Global};
use std::marker::Model;

/// Nodes in the order in which they were made, each found by its id in constant expected time.
#[derive(Drop)]
pub struct Nodes {
    ids: IndexSet<u64>,
    made: Vec<Made>,
}

impl Model for Nodes {
    ghost use Rattle.std.specs.Prelude.{◌≡◌, List, map};
    ghost use Rattle.search_core.specs.declared.made.Made.{Made as MadeSpec};

    ghost Value = { List MadeSpec };

    ghost view = { λ s. s.made.items };

    ghost invariant = { λ s. s.ids.keys ≡ map (λ m. m.node.id) s.made.items };
}

impl Nodes {
    /// No nodes.
    pub fn new(alloc: Global) -> Nodes
        ensures { result ≡ [] }
    {
        Nodes {
            ids: IndexSet::new(alloc),
            made: Vec::new(alloc),
        }
    }

    pub fn allocator(&self) -> Global {
        *self.ids.allocator()
    }

    pub fn as_slice(&self) -> &[Made]
        ensures { result.now ≡ self.now }
    {
        &self.made
    }

    /// The node under an id.
    pub fn find(&self, id: u64) -> Option<&Made>
        ensures { option_copied result ≡ find (has_id id) self.now }
    {
        match self.ids.get_index_of(&id) {
            Some(index) => Some(&self.made[index]),
            None => None,
        }
    }

    /// Puts the node under an id into a place.
    pub fn set_place(&mut self, id: u64, place: Place)
        ensures { self.new ≡ with_made self.old id (λ m. record m { place = place }) }
    {
        if let Some(index) = self.ids.get_index_of(&id) {
            self.made[index].place = place;
        }
    }

    /// Claims the node under an id.
    pub fn claim(&mut self, id: u64)
        ensures { self.new ≡ with_made self.old id (λ m. record m { claimed = true }) }
    {
        if let Some(index) = self.ids.get_index_of(&id) {
            self.made[index].claimed = true;
        }
    }

    /// Adds a node under a new id.
    pub fn add(&mut self, made: Made) -> Result<(), AllocError>
        requires { find (has_id made.node.id) self.old ≡ None }
        ensures ok { OnOk result (self.new ≡ self.old ++ made ∷ []) }
        ensures err { OnErr result (self.new ≡ self.old) }
    {
        self.made.reserve(1)?;
        self.ids.insert(made.node.id)?;
        self.made.push_reserved(made);
        Ok(())
    }

    /// Adds two nodes under new ids.
    pub fn add_both(&mut self, first: Made, second: Made) -> Result<(), AllocError>
        requires apart { (first.node.id == second.node.id) ≡ false }
        requires first { find (has_id first.node.id) self.old ≡ None }
        requires second { find (has_id second.node.id) self.old ≡ None }
        ensures ok { OnOk result (self.new ≡ self.old ++ first ∷ second ∷ []) }
        ensures err { OnErr result (self.new ≡ self.old) }
    {
        self.made.reserve(2)?;
        self.ids.reserve(2)?;
        self.ids.insert(first.node.id)?;
        self.ids.insert(second.node.id)?;
        self.made.push_reserved(first);
        self.made.push_reserved(second);
        Ok(())
    }

    /// How many nodes there are.
    pub fn len(&self) -> usize
        ensures count { result ≡ length self.now }
        ensures small { result < 2 ^ 63 }
    {
        self.ids.len()
    }
}
