ghost use Rattle.std.specs.Prelude.{◌+◌, ◌≤◌, IfOk, OnOk};
ghost use Rattle.st_model.specs.Network.{IsInstance};
ghost use Rattle.st_model.specs.Terminals.{terminal_count};
ghost use Rattle.few_terminals.specs.Terminals.{AreTerminals, AreTerminalsBelow};

use crate::judging::is_terminal;
use st_model::Instance;
use std::alloc::{AllocError, Global};

// The vertices that have to be reached: the last of them is the root of all trees.
#[derive(Drop)]
pub struct Terminals {
    pub root: u32,
    pub others: Vec<u32>,
}

// The terminals of an instance that has few. Where it has none, vertex 1 is the root.
pub fn choose(alloc: Global, instance: &Instance) -> Result<Terminals, AllocError>
    requires { terminal_count instance.now ≤ 12 }
    ensures terminals { IfOk result (AreTerminals instance.now) }
    ensures instance { OnOk result (IsInstance instance.now) }
{
    let mut others = all_terminals(alloc, instance)?;
    let root = others.pop().unwrap_or(1);
    Ok(Terminals { root, others })
}

// All vertices that have to be reached, ascending.
fn all_terminals(alloc: Global, instance: &Instance) -> Result<Vec<u32>, AllocError>
    ensures terminals { IfOk result
        (λ list. AreTerminalsBelow instance.now list.items (instance.now.n + 1)) }
    ensures instance { OnOk result (IsInstance instance.now) }
{
    let mut list = Vec::new(alloc);
    for vertex in 1..instance.vertices() + 1 {
        if is_terminal(instance, vertex) {
            list.push(vertex)?;
        }
    }
    Ok(list)
}
