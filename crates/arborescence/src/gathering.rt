ghost use Rattle.std.specs.Prelude.{◌≡◌, ℕ, ◌<◌, length, All, OnOk};
ghost use Rattle.st_model.specs.Led.{AreLed};
ghost use Rattle.st_model.specs.VertexSet.{Extends};
ghost use Rattle.cut_packing.specs.Loads.{arcs_into};
ghost use Rattle.arborescence.specs.Gathering.{used_into, used_tails};

use cut_packing::{LoadedArc, LoadedArcs};
use st_model::VertexSet;
use std::alloc::AllocError;

// Makes the set all that leads to a vertex over arcs that bear just what they cost.
pub fn gather(arcs: &LoadedArcs, set: &mut VertexSet, vertex: u32) -> Result<(), AllocError>
    requires vertex { vertex < length arcs.now }
    requires count { set.old.count ≡ length arcs.now }
    requires tails { (v : ℕ) → All (λ arc. arc.tail < length arcs.now) (arcs_into arcs.now v) }
    ensures count { OnOk result (set.new.count ≡ set.old.count) }
    ensures gathered { OnOk result (AreLed (used_into arcs.now) vertex set.new.members) }
{
    prove!(vertex as usize <= arcs.count());
    set.clear();
    set.insert(vertex)?;
    let mut next = 0;
    while let Some(member) = set.member(next) {
        add_tails(arcs.at(member), set)?;
        next += 1;
    }
    Ok(())
}

// Adds the tails of the arcs that bear just what they cost.
fn add_tails(arcs: &[LoadedArc], set: &mut VertexSet) -> Result<(), AllocError>
    requires { All (λ arc. arc.tail < set.old.count) arcs.now }
    ensures count { set.new.count ≡ set.old.count }
    ensures extends { OnOk result (Extends set.old.members set.new.members (used_tails arcs.now)) }
{
    for arc in arcs {
        if arc.load == u128::from(arc.cost) {
            set.insert(arc.tail)?;
        }
    }
    Ok(())
}
