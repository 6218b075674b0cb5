ghost use Rattle.std.specs.Prelude.{ℕ, ◌<◌, ◌^◌, OnOk, IsTrue, reverse};
ghost use Rattle.flow_cuts.specs.Sending.{AreSteps, SendsOne, is_led, sent};

use crate::flow::Flow;
use bidirected_form::Arcs;
use std::alloc::AllocError;

// Sends one unit more from the root along the steps that lead it to a vertex, and uses them up.
pub fn send_one(arcs: &Arcs, steps: &mut Vec<(u32, u32)>, flow: &mut Flow) -> Result<(), AllocError>
    requires few { (u v : ℕ) → sent flow.old u v < 2 ^ 63 }
    ensures { OnOk result ((q : ℕ) → AreSteps arcs.now (sent flow.old) 1 q (reverse steps.old.items)
        → IsTrue (is_led q (reverse steps.old.items) arcs.now.root)
        → SendsOne arcs.now q (sent flow.old) (sent flow.new)) }
{
    let mut current = arcs.root();
    while let Some((tail, head)) = steps.pop() {
        if tail == current {
            flow.send(tail, head)?;
            current = head;
        }
    }
    Ok(())
}
