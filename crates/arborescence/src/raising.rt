ghost use Rattle.std.specs.Prelude.{◌≡◌, ℕ, ◌+◌, ◌<◌, ◌≤◌, ◌⊎◌, Some, length, All, IfOk, OnOk, IsTrue, IsFalse};
ghost use Rattle.std.specs.List.Sorted.{IsStrictlyIncreasing};
ghost use Rattle.st_model.specs.Lists.{has};
ghost use Rattle.cut_packing.specs.Loads.{arcs_into};

use crate::DiInstance;
use crate::fitting::is_certain;
use crate::gathering::gather;
use cut_packing::{Cut, LoadedArc, LoadedArcs, Packing, SharedSet, lay};
use st_model::{Listed, Sides, VertexSet};
use std::alloc::{AllocError, Global};

// Cuts that are being raised.
#[derive(Drop)]
pub struct Raising {
    // The open arcs, with what the cuts lay on them.
    pub arcs: LoadedArcs,
    pub cuts: Vec<Cut>,
    // How much more the cuts may weigh.
    pub room: u64,
    // Scratch: what leads to the vertex in hand.
    pub set: VertexSet,
}

impl Raising {
    ghost use Rattle.st_model.specs.Branch.{IsBranchIn, LeavesRequiredIn, certain_in, is_present};
    ghost use Rattle.st_model.specs.Network.{IsVertex};
    ghost use Rattle.st_model.specs.Led.{AreLed};
    ghost use Rattle.cut_packing.specs.Full.{IsReachedIn};
    ghost use Rattle.arborescence.specs.Ascending.{HasRaised, IsRaising, raised_packing};
    ghost use Rattle.arborescence.specs.DiNetwork.{di_ground};
    ghost use Rattle.arborescence.specs.Gathering.{used_into};

    // Raises cuts for a vertex until the root reaches it over arcs that bear just what they cost, or
    // no room is left.
    pub fn reach(
        &mut self,
        alloc: Global,
        instance: &DiInstance,
        branch: &Sides,
        vertex: u32,
    ) -> Result<(), AllocError>
        requires raising { IsRaising instance.now branch.now self.old }
        requires vertex { IsVertex instance.now.n vertex }
        requires present { IsTrue (is_present branch.now vertex) }
        requires certain { IsTrue (certain_in (di_ground instance.now) branch.now vertex) }
        ensures raised { OnOk result (HasRaised instance.now branch.now self.old self.new) }
        ensures reached { OnOk result ((self.new.room ≡ 0) ⊎ IsReachedIn (di_ground instance.now) branch.now
            (raised_packing instance.now self.new) instance.now.root vertex) }
    {
        while self.room > 0 {
            gather(&self.arcs, &mut self.set, vertex)?;
            if self.set.contains(instance.root()) {
                return Ok(());
            }
            self.raise(alloc, instance, branch, vertex)?;
        }
        Ok(())
    }

    // Looks at a vertex: raises a cut for it, if at most so many lead to it. How many do; none where it needs no
    // cut, since no room is left, the root reaches it, or it doesn't have to be reached.
    pub fn look(
        &mut self,
        alloc: Global,
        instance: &DiInstance,
        branch: &Sides,
        vertex: u32,
        most: usize,
    ) -> Result<Option<usize>, AllocError>
        requires branch { IsBranchIn (di_ground instance.now) branch.now }
        requires required { LeavesRequiredIn (di_ground instance.now) branch.now }
        requires raising { IsRaising instance.now branch.now self.old }
        ensures { OnOk result (HasRaised instance.now branch.now self.old self.new) }
    {
        if self.room == 0 || vertex < 1 || instance.vertices() < vertex {
            return Ok(None);
        }
        if !is_certain(instance, branch, vertex) {
            return Ok(None);
        }
        gather(&self.arcs, &mut self.set, vertex)?;
        if self.set.contains(instance.root()) {
            return Ok(None);
        }
        let size = self.set.members().len();
        if size <= most {
            self.raise(alloc, instance, branch, vertex)?;
        }
        Ok(Some(size))
    }

    // Raises a cut round what leads to a vertex, by the least that is left of the arcs that enter it.
    fn raise(
        &mut self,
        alloc: Global,
        instance: &DiInstance,
        branch: &Sides,
        vertex: u32,
    ) -> Result<(), AllocError>
        requires raising { IsRaising instance.now branch.now self.old }
        requires vertex { IsVertex instance.now.n vertex }
        requires present { IsTrue (is_present branch.now vertex) }
        requires certain { IsTrue (certain_in (di_ground instance.now) branch.now vertex) }
        requires gathered { AreLed (used_into self.old.arcs) vertex self.old.set.members }
        requires away { IsFalse (has self.old.set.members instance.now.root) }
        requires room { 0 < self.old.room }
        ensures raised { OnOk result (HasRaised instance.now branch.now self.old self.new) }
        ensures less { OnOk result (self.new.room < self.old.room) }
    {
        prove!(instance.vertices() <= 1_000_000);
        prove!(!branch.is_outside(vertex));
        let value = least_left(&self.arcs, &self.set, self.room);
        let cut = cut_round(alloc, &self.set, vertex, value)?;
        self.cuts.push(cut)?;
        lay(&mut self.arcs, &self.set, value);
        self.room -= value;
        Ok(())
    }

    // The cuts, as a packing for the root.
    pub fn into_packing(self, root: u32) -> Packing
        ensures { result ≡ record { root = Some root; cuts = self.cuts.items } }
    {
        Packing {
            root: Some(root),
            cuts: Listed::of(self.cuts),
        }
    }
}

// The least that is left of the arcs that enter a set, or what there is room for.
pub fn least_left(arcs: &LoadedArcs, set: &VertexSet, room: u64) -> u64
    requires bears { All (All (λ arc. arc.load ≤ arc.cost)) arcs.now }
    requires count { set.now.count ≡ length arcs.now }
    ensures most { result ≤ room }
    ensures borne { (v : ℕ) → IsTrue (has set.now.members v) → All (λ arc. IsFalse (has set.now.members arc.tail)
        → arc.load + result ≤ arc.cost) (arcs_into arcs.now v) }
    ensures positive { 0 < room → ((v : ℕ) → IsTrue (has set.now.members v) → All (λ arc.
        IsFalse (has set.now.members arc.tail) → arc.load < arc.cost) (arcs_into arcs.now v)) → 0 < result }
{
    let mut least = room;
    for member in set.members() {
        least = least_into(arcs.at(*member), set, least);
    }
    least
}

// The least that is left of the arcs from outside a set, or the given number.
fn least_into(arcs: &[LoadedArc], set: &VertexSet, most: u64) -> u64
    requires { All (λ arc. arc.load ≤ arc.cost) arcs.now }
    ensures most { result ≤ most }
    ensures borne { All (λ arc. IsFalse (has set.now.members arc.tail) → arc.load + result ≤ arc.cost)
        arcs.now }
    ensures positive { 0 < most → All (λ arc. IsFalse (has set.now.members arc.tail) → arc.load < arc.cost)
        arcs.now → 0 < result }
{
    let mut least = most;
    for arc in arcs {
        if !set.contains(arc.tail) {
            least = least.min(left(arc));
        }
    }
    least
}

// What is left of an arc.
pub fn left(arc: &LoadedArc) -> u64
    requires { arc.now.load ≤ arc.now.cost }
    ensures { arc.now.load + result ≡ arc.now.cost }
{
    arc.cost - arc.load as u64
}

// A cut of value `y` round the members of a set, which names `q`.
pub fn cut_round(alloc: Global, set: &VertexSet, q: u32, y: u64) -> Result<Cut, AllocError>
    ensures q { IfOk result (λ c. c.q ≡ q) }
    ensures y { IfOk result (λ c. c.y ≡ y) }
    ensures members { IfOk result (λ c. (v : ℕ) → has c.set v ≡ has set.now.members v) }
    ensures ascending { IfOk result (λ c. IsStrictlyIncreasing c.set) }
{
    let members = set.ascending(alloc)?;
    let set = SharedSet::of(members)?;
    Ok(Cut { set, q, y })
}
