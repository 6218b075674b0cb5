ghost use Rattle.std.specs.Prelude.{◌≡◌, ◌+◌, IfOk};
ghost use Rattle.lift_back.specs.Chains.{AreLed};
ghost use Rattle.lift_back.specs.Undoing.{arcs_at_first};

use crate::chain::Chain;
use crate::undo::Undo;
use std::alloc::{AllocError, Global};

// The arcs of a tree before all steps, the last of which is undone first.
pub fn lifted(
    alloc: Global,
    vertices: u32,
    start: u32,
    undos: &[Undo],
    arcs: &[(u32, u32)],
) -> Result<Vec<(u32, u32)>, AllocError>
    requires { AreLed (vertices + 1) start (arcs_at_first undos.now arcs.now) }
    ensures { IfOk result (λ all. all.items ≡ arcs_at_first undos.now arcs.now) }
{
    let mut chain = Chain::of(alloc, start, vertices, arcs)?;
    let mut left = undos.len();
    while left > 0 {
        left -= 1;
        chain.undo(undos[left]);
    }
    let all = chain.arcs(alloc)?;
    Ok(all)
}
