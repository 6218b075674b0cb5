ghost use Rattle.std.specs.Prelude.{◌≡◌, ◌≢◌, ◌⊎◌, ◌-◌, ◌<◌, length, IfOk, IfErr, IfSome, IfNone, Err};
ghost use Rattle.st_model.specs.declared.tree.Tree.{Tree};
ghost use Rattle.st_model.specs.Arborescence.{IsBest, IsTree};
ghost use Rattle.few_terminals.specs.declared.fault.FewFault.{FewFault};
ghost use Rattle.few_terminals.specs.declared.fault.FewFault.TheVariants.{NoMemory};
ghost use Rattle.few_terminals.specs.Fault.{IsFew, IsFewFault};
ghost use Rattle.few_terminals.specs.Terminals.{AreTerminals};
ghost use Rattle.st_model.specs.Network.{IsInstance};
ghost use Rattle.st_model.specs.Terminals.{NobodyPays};

use crate::FewFault;
use crate::back::way_back;
use crate::choice::{Terminals, choose};
use crate::judging::judge;
use crate::reach::{reach, unreached};
use crate::table::fill;
use graph_store::Store;
use short_paths::Laid;
use st_model::{Instance, Tree};
use std::alloc::{AllocError, Global};

/// A tree of least cost of an instance with at most twelve terminals in which no other vertex
/// pays, and None where no tree reaches them all. With n vertices and m links that links lead to
/// from a terminal, and t terminals, it takes time in the order of n 3^t + m 2^t log n, and memory
/// in that of n 2^t; no more than 67,108,864 are allowed for all vertices times 2^t. (Dreyfus and
/// Wagner 1972; Erickson, Monma and Veinott 1987.)
pub fn few(alloc: Global, instance: &Instance) -> Result<Option<Tree>, FewFault>
    ensures best { IfOk result (λ found. IfSome found (IsBest instance.now)) }
    ensures none { IfOk result (λ found. IfNone found ((t : Tree) → IsTree instance.now t → ⊥)) }

    ensures fault { IfErr result (IsFewFault instance.now) }
    ensures only { (f : FewFault) → IsFewFault instance.now f → f ≢ NoMemory
        → (result ≡ Err f) ⊎ (result ≡ Err NoMemory) }
{
    judge(instance)?;
    let found = best_tree(alloc, instance)?;
    Ok(found)
}

// A tree of least cost, if there is a tree.
fn best_tree(alloc: Global, instance: &Instance) -> Result<Option<Tree>, AllocError>
    requires { IsFew instance.now }
    ensures best { IfOk result (λ found. IfSome found (IsBest instance.now)) }
    ensures none { IfOk result (λ found. IfNone found ((t : Tree) → IsTree instance.now t → ⊥)) }
{
    let terminals = choose(alloc, instance)?;
    let store = Store::of(alloc, instance)?;
    if terminals.others.is_empty() {
        let laid = Laid::at(alloc, &store, terminals.root)?;
        return Ok(Some(laid.into_tree()));
    }
    let found = joined_tree(alloc, &store, terminals)?;
    Ok(found)
}

// The same, where there are two terminals or more.
fn joined_tree(
    alloc: Global,
    store: &Store,
    terminals: Terminals,
) -> Result<Option<Tree>, AllocError>
    requires instance { IsInstance store.now.network }
    requires terminals { AreTerminals store.now.network terminals }
    requires some { 0 < length terminals.others.items }
    requires nobody { NobodyPays store.now.network }
    ensures best { IfOk result (λ found. IfSome found (IsBest store.now.network)) }
    ensures none { IfOk result (λ found. IfNone found ((t : Tree) → IsTree store.now.network t → ⊥)) }
{
    let root = terminals.root;
    let reached = reach(alloc, store, root)?;
    if unreached(&reached, &terminals.others).is_some() {
        return Ok(None);
    }
    let vertices = reached.ascending(alloc)?;
    let table = fill(alloc, store, terminals.others, vertices)?;
    let Some(top) = table.top(root) else {
        return Ok(None);
    };
    let laid = way_back(alloc, store, &table, top)?;
    Ok(Some(laid.into_tree()))
}
