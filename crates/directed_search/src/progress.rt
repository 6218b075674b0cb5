ghost use Rattle.std.specs.Prelude.{◌≡◌, ◌≤◌, ◌<◌, ◌^◌, ◌↔◌, IsTrue, length, All, IfOk, OnOk, []};
ghost use Rattle.st_model.specs.Arborescence.{IsTreeIn, cost_in};
ghost use Rattle.arborescence.specs.DiNetwork.{di_ground};
ghost use Rattle.directed_search.specs.Found.{IsDiOutcome};
ghost use Rattle.directed_search.specs.Searching.{HasLines, IsSearching};

use crate::outcome::DiOutcome;
use crate::weighing::worth;
use arborescence::{DiInstance, di_cost, di_is_tree};
use cut_packing::Packing;
use log_format::{Claim, Log, Proof, ProofLine, Version};
use st_model::{Listed, SplitAt, Tree};
use std::alloc::{AllocError, Global};
use std::marker::Model;

// How far a search came.
#[derive(Drop)]
pub struct Progress {
    // The best tree so far, and what it costs.
    best: Tree,
    primal: u64,
    // The least that a close weighs, or what the best tree costs, if that is less.
    least: u64,
    // The splits and closes so far.
    lines: Vec<ProofLine>,
    // How many nodes may be expanded, and how many were.
    budget: u64,
    expanded: u64,
}

impl Model for Progress {
    ghost use Rattle.directed_search.specs.State.{State};

    ghost Value = { State };

    ghost view = { λ p. record { best = p.best; primal = p.primal; least = p.least; lines = p.lines.items; budget = p.budget; expanded = p.expanded } };
}

impl Progress {
    ghost use Rattle.directed_search.specs.State.{begun, closed_by, counted, split_at, IsImproved};

    // Nothing done yet, with a first tree.
    pub fn begin(alloc: Global, instance: &DiInstance, tree: Tree, budget: u64) -> Progress
        requires { IsTreeIn (di_ground instance.now) tree }
        ensures { result ≡ begun tree (cost_in (di_ground instance.now) tree) budget }
    {
        let primal = di_cost(instance, &tree);
        Progress {
            best: tree,
            primal,
            least: primal,
            lines: Vec::new(alloc),
            budget,
            expanded: 0,
        }
    }

    // What the best tree so far costs.
    pub fn primal(&self) -> u64
        ensures { result ≡ self.now.primal }
    {
        self.primal
    }

    // Whether all of the budget is spent.
    pub fn is_spent(&self) -> bool
        ensures { IsTrue result ↔ (self.now.budget ≤ self.now.expanded) }
    {
        self.budget <= self.expanded
    }

    // One more node is expanded.
    pub fn count(&mut self)
        requires { self.old.expanded < self.old.budget }
        ensures { self.new ≡ counted self.old }
    {
        prove!(self.expanded < self.budget);
        self.expanded += 1;
    }

    // A node is closed by a packing.
    pub fn close(&mut self, packing: Packing) -> Result<(), AllocError>
        ensures closed { OnOk result (self.new ≡ closed_by self.old packing) }
        ensures small { All (λ c. c.y < 2 ^ 64) packing.cuts }
        ensures few { length packing.cuts < 2 ^ 64 }
    {
        let weight = worth(packing.cuts.as_slice());
        self.lines.push(ProofLine::Close(packing))?;
        if weight < u128::from(self.least) {
            self.least = weight as u64;
        }
        Ok(())
    }

    // A node is split at a vertex.
    pub fn split(&mut self, vertex: u32) -> Result<(), AllocError>
        ensures { OnOk result (self.new ≡ split_at self.old vertex) }
    {
        self.lines.push(ProofLine::Split(SplitAt::Vertex(vertex)))?;
        Ok(())
    }

    // Keeps a tree if it is cheaper than the best so far.
    pub fn offer(&mut self, instance: &DiInstance, tree: Tree)
        requires { IsTreeIn (di_ground instance.now) tree }
        ensures improved { IsImproved instance.now self.old self.new }
        ensures most { self.new.primal ≤ cost_in (di_ground instance.now) tree }
    {
        let cost = di_cost(instance, &tree);
        if cost < self.primal {
            self.best = tree;
            self.primal = cost;
            self.least = self.least.min(cost);
        }
    }

    // Keeps what is maybe a tree if it is one, and cheaper than the best so far.
    pub fn try_tree(
        &mut self,
        alloc: Global,
        instance: &DiInstance,
        tree: Tree,
    ) -> Result<(), AllocError>
        ensures { OnOk result (IsImproved instance.now self.old self.new) }
    {
        if di_is_tree(alloc, instance, &tree)? {
            self.offer(instance, tree);
        }
        Ok(())
    }

    // What was found, where no node waits any more.
    pub fn into_outcome(self, alloc: Global, instance: &DiInstance) -> Result<DiOutcome, AllocError>
        requires searching { IsSearching instance.now self 0 [] }
        requires worked { HasLines self 0 }
        ensures { IfOk result (IsDiOutcome self.budget instance.now) }
    {
        prove!(instance.vertices() <= 1_000_000);
        prove!(arcs_of(&self.best) <= usize::MAX);
        let tree = self.best.copied(alloc)?;
        let Some(proof) = Proof::of(self.lines) else {
            unreachable!()
        };
        Ok(DiOutcome::Found {
            tree,
            primal: self.primal,
            dual: self.least,
            expanded: self.expanded,
            certificate: Log {
                version: Version::Two,
                claim: Claim::Found {
                    primal: self.primal,
                    dual: self.least,
                    tree: self.best,
                    steps: Listed::of(Vec::new(alloc)),
                    proof,
                },
            },
        })
    }
}

// How many arcs a tree has.
fn arcs_of(tree: &Tree) -> usize
    ensures count { result ≡ length tree.now.arcs }
    ensures few { length tree.now.arcs < 2 ^ 64 }
{
    let arcs = tree.arcs.as_slice();
    prove!(arcs.len() <= usize::MAX);
    arcs.len()
}
