ghost use Rattle.std.specs.Prelude.{◌-◌, ◌^◌, ◌<◌, IsTrue, OnOk};
ghost use Rattle.st_model.specs.Lists.{has};
ghost use Rattle.st_model.specs.Network.{IsVertex};
ghost use Rattle.short_paths.specs.Laid.{IsLaid};
ghost use Rattle.twice_tree.specs.Cells.{AreCells, far_in, terminal_of};
ghost use Rattle.twice_tree.specs.Laying.{GoesTo};
ghost use Rattle.twice_tree.specs.Opening.{IsMade};

use crate::cells::Cells;
use crate::offers::Offer;
use graph_store::Store;
use short_paths::Laid;
use std::alloc::{AllocError, Global};

// Goes from a terminal that is reached to another one by the link that was offered.
pub fn lay(
    alloc: Global,
    store: &Store,
    cells: &Cells,
    laid: &mut Laid,
    offer: Offer,
) -> Result<(), AllocError>
    requires cells { AreCells store.now.network cells.now }
    requires made { IsMade store.now.network cells.now
        (terminal_of store.now.network cells.now.distances offer.from) (record { 0 = offer }) }
    requires laid { IsLaid store.now.network laid.old }
    requires from { IsTrue (has laid.old.reached.members
        (terminal_of store.now.network cells.now.distances offer.from)) }
    ensures { OnOk result (GoesTo store.now.network laid.old laid.new
        (terminal_of store.now.network cells.now.distances offer.to) offer.cost) }
{
    go_out(alloc, store, cells, laid, offer.from)?;
    laid.follow(store, offer.from, offer.to)?;
    go_home(alloc, store, cells, laid, offer.to)?;
    Ok(())
}

// Goes from the terminal of a vertex's cell to the vertex.
fn go_out(
    alloc: Global,
    store: &Store,
    cells: &Cells,
    laid: &mut Laid,
    vertex: u32,
) -> Result<(), AllocError>
    requires cells { AreCells store.now.network cells.now }
    requires vertex { IsVertex store.now.network.n vertex }
    requires near { far_in cells.now.distances vertex < 2 ^ 64 - 1 }
    requires laid { IsLaid store.now.network laid.old }
    requires from { IsTrue (has laid.old.reached.members
        (terminal_of store.now.network cells.now.distances vertex)) }
    ensures { OnOk result (GoesTo store.now.network laid.old laid.new vertex
        (far_in cells.now.distances vertex)) }
{
    if laid.reached.contains(vertex) {
        return Ok(());
    }
    let Some(path) = cells.distances.path_to(alloc, vertex)? else {
        return Ok(());
    };
    laid.follow_path(store, &path)?;
    Ok(())
}

// Goes from a vertex to the terminal of its cell.
fn go_home(
    alloc: Global,
    store: &Store,
    cells: &Cells,
    laid: &mut Laid,
    vertex: u32,
) -> Result<(), AllocError>
    requires cells { AreCells store.now.network cells.now }
    requires vertex { IsVertex store.now.network.n vertex }
    requires near { far_in cells.now.distances vertex < 2 ^ 64 - 1 }
    requires laid { IsLaid store.now.network laid.old }
    requires from { IsTrue (has laid.old.reached.members vertex) }
    ensures { OnOk result (GoesTo store.now.network laid.old laid.new
        (terminal_of store.now.network cells.now.distances vertex) (far_in cells.now.distances vertex)) }
{
    if cells.place(vertex).terminal == vertex {
        return Ok(());
    }
    let Some(mut path) = cells.distances.path_to(alloc, vertex)? else {
        return Ok(());
    };
    path.reverse();
    laid.follow_path(store, &path)?;
    Ok(())
}
