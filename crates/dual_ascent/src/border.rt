ghost use Rattle.std.specs.Prelude.{◌≡◌, ℕ, ◌≤◌, ◌⊎◌, All, IsTrue, Some};
ghost use Rattle.st_model.specs.Network.{IsVertex};
ghost use Rattle.bidirected_form.specs.Digraph.{remaining};
ghost use Rattle.bidirected_form.specs.Entering.{CanBear};
ghost use Rattle.dual_ascent.specs.Turns.{HasAnArcLeft, IsLeastOf};

use bidirected_form::{Arc, Arcs};
use st_model::VertexSet;

// What enters a set.
#[derive(Clone, Copy)]
pub struct Border {
    // The least that remains of an arc, up to a limit.
    pub least: u64,
    // How many arcs there are; no promise rests on it.
    pub arcs: usize,
}

// The border of a set, with a limit to what remains of an arc.
pub fn border_of(arcs: &Arcs, set: &VertexSet, limit: u64) -> Border
    requires { All (IsVertex arcs.now.n) set.now.members }
    ensures limit { result.least ≤ limit }
    ensures arcs { CanBear arcs.now set.now.members result.least }
    ensures attained { (result.least ≡ limit) ⊎ HasAnArcLeft arcs.now set.now.members result.least }
{
    let mut border = Border {
        least: limit,
        arcs: 0,
    };
    for vertex in set.members() {
        border.pass(arcs.arcs_into(*vertex), set);
    }
    border
}

impl Border {
    // Takes in the arcs into a vertex of the set.
    fn pass(&mut self, arcs: &[Arc], set: &VertexSet)
        ensures { IsLeastOf set.now.members arcs.now self.old.least self.new.least }
    {
        for arc in arcs {
            if !set.contains(arc.tail) {
                self.least = self.least.min(arc.remaining);
                self.arcs = self.arcs.saturating_add(1);
            }
        }
    }
}
