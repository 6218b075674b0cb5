ghost use Rattle.std.specs.Prelude.{◌≡◌, ℕ, [], IfNone, IfOk, IfSome, IsFalse, IsTrue};
ghost use Rattle.st_model.specs.Branch.{IsBranchIn, LeavesRequiredIn, certain_in, is_present};
ghost use Rattle.st_model.specs.Lists.{has};
ghost use Rattle.st_model.specs.Network.{IsVertex};
ghost use Rattle.arborescence.specs.Choosing.{AllCertain, IsClosing, IsSource, NoneEnters};
ghost use Rattle.arborescence.specs.DiNetwork.{di_ground};
ghost use Rattle.arborescence.specs.Leaves.{IsDiLeaf, IsWalledBy};

use crate::DiInstance;
use crate::entering::{Entering, least_entering};
use crate::leaf::DiLeaf;
use crate::loads::free_arcs;
use crate::pruning::{first_apart, heads_of_both, pruned};
use crate::raising::cut_round;
use crate::spreading::Spread;
use cut_packing::{Cut, LoadedArcs, Packing, lay};
use st_model::{Listed, Sides, Tree, VertexLists, VertexSet, walk};
use std::alloc::{AllocError, Global};

// Arcs that are chosen one by one until the root reaches all present vertices over them.
#[derive(Drop)]
pub struct Closing {
    // The open arcs, with what the cuts lay on them.
    arcs: LoadedArcs,
    cuts: Vec<Cut>,
    // The chosen arcs in their order, each of which bears just what it costs.
    chosen: Vec<(u32, u32)>,
    // The heads of the chosen arcs at their tails, and their tails at their heads.
    heads: VertexLists<u32>,
    tails: VertexLists<u32>,
}

/// Closes a branch in which each present vertex is the root, a terminal or inside: by a tree that reaches
/// exactly the present vertices, and a packing that weighs what the tree costs; or, where the root doesn't
/// reach them all, by one cut of the target's value. (Chu and Liu 1965, Edmonds 1967: sets that are strongly
/// connected by the arcs chosen so far are raised, each by the least that is left of the arcs into it.)
/// Takes time in proportion to the vertices times the arcs that are chosen, and the sets' degrees.
pub fn di_close_all(
    alloc: Global,
    instance: &DiInstance,
    branch: &Sides,
    target: u64,
) -> Result<DiLeaf, AllocError>
    requires branch { IsBranchIn (di_ground instance.now) branch.now }
    requires required { LeavesRequiredIn (di_ground instance.now) branch.now }
    requires no_must { branch.now.must ≡ [] }
    requires certain { (v : ℕ) → IsVertex instance.now.n v → IsTrue (is_present branch.now v)
        → IsTrue (certain_in (di_ground instance.now) branch.now v) }
    ensures { IfOk result (IsDiLeaf instance.now branch.now target) }
{
    let mut closing = Closing::start(alloc, instance, branch)?;
    while let Some(vertex) = closing.unreached(alloc, instance, branch)? {
        let set = closing.source(alloc, instance, branch, vertex)?;
        match closing.entering(instance, branch, &set) {
            None => {
                let packing = walled(alloc, instance, branch, &closing, &set, target)?;
                return Ok(DiLeaf::Wall(packing));
            }
            Some(arc) => closing.choose(alloc, instance, branch, &set, arc)?,
        }
    }
    let (tree, packing) = closing.into_tree(alloc, instance, branch)?;
    Ok(DiLeaf::Tree(tree, packing))
}

impl Closing {
    ghost use Rattle.std.specs.Prelude.{◌<◌, OnOk};
    ghost use Rattle.cut_packing.specs.Full.{IsSaturatedIn};
    ghost use Rattle.arborescence.specs.Ascending.{rooted_packing};
    ghost use Rattle.arborescence.specs.Choosing.{IsEntering, pairs_apart};
    ghost use Rattle.arborescence.specs.Closing.{Misses, Spans};
    ghost use Rattle.arborescence.specs.Leaves.{IsClosedBy};

    // No arcs are chosen, and there are no cuts.
    fn start(alloc: Global, instance: &DiInstance, branch: &Sides) -> Result<Self, AllocError>
        ensures { IfOk result (IsClosing instance.now branch.now) }
    {
        let arcs = free_arcs(alloc, instance, branch)?;
        let heads = heads_of_both(alloc, instance.vertices(), &[], &[])?;
        let tails = heads_of_both(alloc, instance.vertices(), &[], &[])?;
        Ok(Closing {
            arcs,
            cuts: Vec::new(alloc),
            chosen: Vec::new(alloc),
            heads,
            tails,
        })
    }

    // The first present vertex that the root doesn't reach over chosen arcs.
    fn unreached(
        &self,
        alloc: Global,
        instance: &DiInstance,
        branch: &Sides,
    ) -> Result<Option<u32>, AllocError>
        requires { IsClosing instance.now branch.now self.now }
        ensures found { IfOk result (λ found. IfSome found
            (Misses instance.now.n branch.now instance.now.root self.now.chosen.items)) }
        ensures none { IfOk result (λ found. IfNone found
            (Spans instance.now.n branch.now instance.now.root self.now.chosen.items)) }
    {
        let reached = walk(alloc, &self.heads, instance.root())?;
        let apart = first_apart(instance, branch, &reached);
        Ok(apart)
    }

    // A set that the chosen arcs connect strongly and that none of them enters, of those that lead to a
    // vertex: whoever leads there and isn't led to from there leads to less.
    fn source(
        &self,
        alloc: Global,
        instance: &DiInstance,
        _branch: &Sides,
        vertex: u32,
    ) -> Result<VertexSet, AllocError>
        requires closing { IsClosing instance.now _branch.now self.now }
        requires missed { Misses instance.now.n _branch.now instance.now.root self.now.chosen.items vertex }
        ensures { IfOk result (IsSource instance.now _branch.now self.now.chosen.items) }
    {
        let mut here = vertex;
        let mut set = Spread::over(alloc, &self.tails, here)?.reached;
        loop {
            let led = walk(alloc, &self.heads, here)?;
            match last_apart(&set, &led) {
                None => return Ok(set),
                Some(other) => {
                    here = other;
                    set = Spread::over(alloc, &self.tails, here)?.reached;
                }
            }
        }
    }

    // The arc into a set of which the least is left.
    fn entering(&self, _instance: &DiInstance, _branch: &Sides, set: &VertexSet) -> Option<Entering>
        requires closing { IsClosing _instance.now _branch.now self.now }
        requires source { IsSource _instance.now _branch.now self.now.chosen.items set.now }
        ensures some { IfSome result (IsEntering _instance.now _branch.now self.now.cuts.items
            self.now.arcs set.now.members) }
        ensures none { IfNone result (NoneEnters self.now.arcs set.now.members) }
    {
        least_entering(&self.arcs, set)
    }

    // Raises a set by what is left of an arc into it, and chooses the arc.
    fn choose(
        &mut self,
        alloc: Global,
        instance: &DiInstance,
        branch: &Sides,
        set: &VertexSet,
        arc: Entering,
    ) -> Result<(), AllocError>
        requires closing { IsClosing instance.now branch.now self.old }
        requires source { IsSource instance.now branch.now self.old.chosen.items set.now }
        requires entering { IsEntering instance.now branch.now self.old.cuts.items self.old.arcs
            set.now.members arc }
        requires certain { AllCertain instance.now branch.now }
        ensures closing { OnOk result (IsClosing instance.now branch.now self.new) }
        ensures nearer { OnOk result (pairs_apart instance.now.n self.new.chosen.items
            < pairs_apart instance.now.n self.old.chosen.items) }
    {
        self.raise(alloc, instance, branch, set, arc)?;
        self.heads.add(arc.tail, arc.head)?;
        self.tails.add(arc.head, arc.tail)?;
        self.chosen.push((arc.tail, arc.head))?;
        Ok(())
    }

    // Raises a set by what is left of an arc into it, if there is something.
    fn raise(
        &mut self,
        alloc: Global,
        _instance: &DiInstance,
        _branch: &Sides,
        set: &VertexSet,
        arc: Entering,
    ) -> Result<(), AllocError>
        requires closing { IsClosing _instance.now _branch.now self.old }
        requires source { IsSource _instance.now _branch.now self.old.chosen.items set.now }
        requires entering { IsEntering _instance.now _branch.now self.old.cuts.items self.old.arcs
            set.now.members arc }
        requires certain { AllCertain _instance.now _branch.now }
        ensures closing { OnOk result (IsClosing _instance.now _branch.now self.new) }
        ensures chosen { OnOk result (self.new.chosen.items ≡ self.old.chosen.items) }
        ensures saturated { OnOk result (IsSaturatedIn (di_ground _instance.now) _branch.now
            (rooted_packing _instance.now self.new.cuts.items) arc.tail arc.head) }
    {
        if arc.left == 0 {
            return Ok(());
        }
        let cut = cut_round(alloc, set, arc.head, arc.left)?;
        self.cuts.push(cut)?;
        lay(&mut self.arcs, set, arc.left);
        Ok(())
    }

    // The tree of the chosen arcs that can't be done without, with the cuts.
    fn into_tree(
        self,
        alloc: Global,
        instance: &DiInstance,
        branch: &Sides,
    ) -> Result<(Tree, Packing), AllocError>
        requires branch { IsBranchIn (di_ground instance.now) branch.now }
        requires required { LeavesRequiredIn (di_ground instance.now) branch.now }
        requires no_must { branch.now.must ≡ [] }
        requires certain { AllCertain instance.now branch.now }
        requires closing { IsClosing instance.now branch.now self }
        requires spans { Spans instance.now.n branch.now instance.now.root self.chosen.items }
        ensures { IfOk result (λ r. IsClosedBy instance.now branch.now r.0 r.1) }
    {
        let root = instance.root();
        let kept = pruned(alloc, instance, branch, &self.chosen)?;
        let heads = heads_of_both(alloc, instance.vertices(), &kept, &[])?;
        let spread = Spread::over(alloc, &heads, root)?;
        let tree = Tree {
            start: root,
            arcs: Listed::of(spread.arcs),
        };
        let packing = Packing {
            root: Some(root),
            cuts: Listed::of(self.cuts),
        };
        Ok((tree, packing))
    }
}

// The last member of a set that isn't in another one.
fn last_apart(set: &VertexSet, other: &VertexSet) -> Option<u32>
    ensures found { IfSome result
        (λ v. IsTrue (has set.now.members v) × IsFalse (has other.now.members v)) }
    ensures none { IfNone result ((v : ℕ) → IsTrue (has set.now.members v)
        → IsTrue (has other.now.members v)) }
{
    let mut found = None;
    for member in set.members() {
        if !other.contains(*member) {
            found = Some(*member);
        }
    }
    found
}

// One cut of any value round a set that no arc enters.
fn walled(
    alloc: Global,
    instance: &DiInstance,
    _branch: &Sides,
    _closing: &Closing,
    set: &VertexSet,
    target: u64,
) -> Result<Packing, AllocError>
    requires closing { IsClosing instance.now _branch.now _closing.now }
    requires source { IsSource instance.now _branch.now _closing.now.chosen.items set.now }
    requires none { NoneEnters _closing.now.arcs set.now.members }
    requires no_must { _branch.now.must ≡ [] }
    requires certain { AllCertain instance.now _branch.now }
    ensures { IfOk result (IsWalledBy instance.now _branch.now target) }
{
    let q = set.member(0).unwrap_or(0);
    let cut = cut_round(alloc, set, q, target)?;
    Ok(Packing {
        root: Some(instance.root()),
        cuts: Listed::of(vec![in alloc; cut]?),
    })
}
