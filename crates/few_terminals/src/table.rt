ghost use Rattle.std.specs.Prelude.{◌≡◌, ℕ, ◌-◌, ◌^◌, ◌<◌, ◌≤◌, length, IfOk, IfSome, IfNone, OnOk, IsTrue};
ghost use Rattle.st_model.specs.Lists.{has};
ghost use Rattle.st_model.specs.Network.{IsVertex};
ghost use Rattle.st_model.specs.VertexSet.{AllApart};
ghost use Rattle.few_terminals.specs.Entries.{meanings, GoesOn, HaveParts};
ghost use Rattle.few_terminals.specs.Reach.{slot_of, IsReach};
ghost use Rattle.few_terminals.specs.Rows.{cost_in, costs_of, place_in, places_of, AreRows, IsRow, IsTable};

use crate::entry::Entry;
use crate::filling::Filling;
use crate::joining::joined;
use crate::mark::FAR;
use crate::reach::slot_of;
use crate::row::Row;
use graph_store::Store;
use std::alloc::{AllocError, Global};

// A row for each set of terminals, at the place that its bits say, over the vertices that are
// reached, and the entries of all rows.
#[derive(Drop)]
pub struct Table {
    pub terminals: Vec<u32>,
    pub reached: Vec<u32>,
    pub rows: Vec<Row>,
    pub entries: Vec<Entry>,
}

impl Table {
    // The place of the entry of all terminals at a vertex, if a tree from there reaches them.
    pub fn top(&self, vertex: u32) -> Option<u32>
        requires some { 1 < length self.now.rows.items }
        requires within { slot_of self.now.reached.items vertex
            < length (costs_of self.now.rows.items (length self.now.rows.items - 1)) }
        requires places { slot_of self.now.reached.items vertex
            < length (places_of self.now.rows.items (length self.now.rows.items - 1)) }
        ensures some { IfSome result (λ place. (cost_in self.now.reached.items self.now.rows.items
            (length self.now.rows.items - 1) vertex < 2 ^ 63) × (place ≡ place_in self.now.reached.items
            self.now.rows.items (length self.now.rows.items - 1) vertex)) }
        ensures none { IfNone result (2 ^ 63 ≤ cost_in self.now.reached.items self.now.rows.items
            (length self.now.rows.items - 1) vertex) }
    {
        let slot = slot_of(&self.reached, vertex);
        let row = &self.rows[self.rows.len() - 1];
        if row.costs[slot] < FAR {
            Some(row.places[slot])
        } else {
            None
        }
    }
}

// The table of a graph and some of its terminals, over vertices that no link leads out of: the rows
// of lesser sets come first.
pub fn fill(
    alloc: Global,
    store: &Store,
    terminals: Vec<u32>,
    reached: Vec<u32>,
) -> Result<Table, AllocError>
    requires few { length terminals.items ≤ 11 }
    requires apart { AllApart terminals.items }
    requires vertices { (k : ℕ) → IsTrue (has terminals.items k) → IsVertex store.now.network.n k }
    requires reach { IsReach store.now.network terminals.items reached.items }
    ensures table { IfOk result (IsTable store.now.network) }
    ensures terminals { IfOk result (λ table. table.terminals.items ≡ terminals.items) }
    ensures reached { IfOk result (λ table. table.reached.items ≡ reached.items) }
{
    let mut rows = Vec::new(alloc);
    rows.push(Row::none(alloc))?;
    let mut entries = Vec::new(alloc);
    for bits in 1..sets_of(&terminals) {
        let row = fill_row(
            alloc,
            store,
            &terminals,
            &reached,
            &rows,
            &mut entries,
            bits,
        )?;
        rows.push(row)?;
    }
    Ok(Table {
        terminals,
        reached,
        rows,
        entries,
    })
}

// How many sets there are.
fn sets_of(terminals: &[u32]) -> u32
    requires { length terminals.now ≤ 11 }
    ensures { result ≡ 2 ^ length terminals.now }
{
    2u32.pow(terminals.len() as u32)
}

// The row of a set, where those of all lesser ones are there.
fn fill_row(
    alloc: Global,
    store: &Store,
    terminals: &[u32],
    reached: &[u32],
    rows: &[Row],
    entries: &mut Vec<Entry>,
    bits: u32,
) -> Result<Row, AllocError>
    requires few { length terminals.now ≤ 11 }
    requires apart { AllApart terminals.now }
    requires vertices { (k : ℕ) → IsTrue (has terminals.now k) → IsVertex store.now.network.n k }
    requires reach { IsReach store.now.network terminals.now reached.now }
    requires rows { AreRows store.now.network terminals.now
        (meanings store.now.network terminals.now entries.old.items) reached.now rows.now }
    requires parts { HaveParts store.now.network terminals.now (meanings store.now.network terminals.now entries.old.items) }
    requires place { length rows.now ≡ bits }
    ensures row { IfOk result (λ row. IsRow store.now.network terminals.now
        (meanings store.now.network terminals.now entries.new.items) reached.now rows.now bits
        row.costs.items row.places.items) }
    ensures parts { OnOk result (HaveParts store.now.network terminals.now
        (meanings store.now.network terminals.now entries.new.items)) }
    ensures goes_on { OnOk result (GoesOn (meanings store.now.network terminals.now entries.old.items)
        (meanings store.now.network terminals.now entries.new.items)) }
{
    let marks = joined(alloc, store.vertices(), terminals, reached, rows, bits)?;
    let mut filling = Filling::of(alloc, store.vertices(), marks)?;
    while let Some((cost, vertex)) = filling.next() {
        filling.take(store, entries, cost, vertex)?;
    }
    let row = filling.row(alloc, reached)?;
    Ok(row)
}
