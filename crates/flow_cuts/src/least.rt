ghost use Rattle.std.specs.Prelude.{◌≡◌, ◌≢◌, ℕ, ◌+◌, ◌↔◌, List, IsFalse, IfOk, IfSome, OnOk, None};
ghost use Rattle.st_model.specs.Lists.{has};
ghost use Rattle.st_model.specs.Network.{IsVertex};
ghost use Rattle.flow_cuts.specs.Fewest.{IsFewest, LeadsTo, Separates};
ghost use Rattle.flow_cuts.specs.Sending.{IsFlow, IsSearched};

use crate::flow::Flow;
use crate::searching::Search;
use crate::sending::send_one;
use bidirected_form::Arcs;
use std::alloc::{AllocError, Global};

/// Among the sets that hold a vertex and not the root, and that no arc enters of which nothing
/// remains, one that the fewest arcs enter. None exactly where the root leads to the vertex over
/// arcs of which nothing remains. It searches the graph at most twice more than arcs enter the set,
/// each time linear in the arcs. (Ford and Fulkerson 1956.)
pub fn fewest(alloc: Global, arcs: &Arcs, q: u32) -> Result<Option<Vec<u32>>, AllocError>
    requires vertex { IsVertex arcs.now.n q }
    requires apart { q ≢ arcs.now.root }
    ensures set { IfOk result (λ found. IfSome found (λ set. IsFewest arcs.now q set.items)) }
    ensures none { IfOk result (λ found. (found ≡ None) ↔ LeadsTo arcs.now q arcs.now.root) }
{
    let mut search = Search::new(alloc, arcs)?;
    search.run(arcs, &Flow::none(alloc), 0, q)?;
    if search.reaching.contains(arcs.root()) {
        return Ok(None);
    }
    send_all(alloc, arcs, q, &mut search)?;
    let set = search.reaching.ascending(alloc)?;
    Ok(Some(set))
}

// Sends units from the root to a vertex until the root no longer reaches it.
fn send_all(alloc: Global, arcs: &Arcs, q: u32, search: &mut Search) -> Result<(), AllocError>
    requires vertex { IsVertex arcs.now.n q }
    requires apart { q ≢ arcs.now.root }
    requires count { search.old.reaching.count ≡ arcs.now.n + 1 }
    requires separate { (set : List ℕ) × Separates arcs.now q set }
    ensures flow { OnOk result ((f : ℕ → ℕ → ℕ) × (k : ℕ) × IsFlow arcs.now q k f
        × IsSearched arcs.now f 1 q search.new) }
    ensures apart { OnOk result (IsFalse (has search.new.reaching.members arcs.now.root)) }
{
    let root = arcs.root();
    let mut flow = Flow::none(alloc);
    search.run(arcs, &flow, 1, q)?;
    while search.reaching.contains(root) {
        send_one(arcs, &mut search.steps, &mut flow)?;
        search.run(arcs, &flow, 1, q)?;
    }
    Ok(())
}
