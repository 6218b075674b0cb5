ghost use Rattle.std.specs.Prelude.{◌≡◌, ℕ, ◌+◌, ◌<◌, length, replicate, IfOk, OnOk, IsTrue, slice_set, true, false};
ghost use Rattle.few_terminals.specs.Back.{is_wanted, IsOnTheWay, IsWayBack};
ghost use Rattle.few_terminals.specs.Entries.{at, HaveParts};
ghost use Rattle.few_terminals.specs.Rows.{meanings_of};
ghost use Rattle.short_paths.specs.Laid.{IsLaid};
ghost use Rattle.st_model.specs.Lists.{has};

use crate::entry::Way;
use crate::table::Table;
use graph_store::Store;
use short_paths::Laid;
use std::alloc::{AllocError, Global};

// The tree to which an entry leads back: it reaches the entry's terminals, and its arcs cost no
// more than the entry does.
pub fn way_back(alloc: Global, store: &Store, table: &Table, top: u32) -> Result<Laid, AllocError>
    requires parts { HaveParts store.now.network table.now.terminals.items (meanings_of store.now.network table.now) }
    requires top { top < length table.now.entries.items }
    ensures { IfOk result (IsWayBack store.now.network table.now.terminals.items (meanings_of store.now.network table.now) top) }
{
    let mut wanted = marks(alloc, top)?;
    let mut laid = Laid::at(alloc, store, table.entries[top as usize].vertex)?;
    let mut place = top as usize + 1;
    while place > 0 {
        place -= 1;
        if wanted[place] {
            follow_parts(&mut laid, &mut wanted, store, table, place)?;
        }
    }
    Ok(laid)
}

// The top alone is wanted.
fn marks(alloc: Global, top: u32) -> Result<Vec<bool>, AllocError>
    ensures { IfOk result (λ marks. marks.items ≡ slice_set (replicate (top + 1) false) top true) }
{
    let mut marks = vec![in alloc; false; top as usize + 1]?;
    marks[top as usize] = true;
    Ok(marks)
}

// Wants the parts of an entry that is wanted, and goes along its link.
fn follow_parts(
    laid: &mut Laid,
    wanted: &mut Vec<bool>,
    store: &Store,
    table: &Table,
    place: usize,
) -> Result<(), AllocError>
    requires parts { HaveParts store.now.network table.now.terminals.items (meanings_of store.now.network table.now) }
    requires place { place < length table.now.entries.items }
    requires long { place < length wanted.old.items }
    requires wanted { IsTrue (is_wanted wanted.old.items place) }
    requires laid { IsLaid store.now.network laid.old }
    requires reached { IsTrue (has laid.old.reached.members (at (meanings_of store.now.network table.now) place).vertex) }
    ensures { OnOk result ((top : ℕ) → IsOnTheWay store.now.network table.now.terminals.items
        (meanings_of store.now.network table.now) top wanted.old.items (place + 1) laid.old → IsOnTheWay store.now.network
        table.now.terminals.items (meanings_of store.now.network table.now) top wanted.new.items place laid.new) }
{
    let entry = table.entries[place];
    match entry.way {
        Way::Alone => {}
        Way::Along(before) => {
            let to = table.entries[before as usize].vertex;
            laid.follow(store, entry.vertex, to)?;
            wanted[before as usize] = true;
        }
        Way::Joined(first, second) => {
            wanted[first as usize] = true;
            wanted[second as usize] = true;
        }
    }
    Ok(())
}
