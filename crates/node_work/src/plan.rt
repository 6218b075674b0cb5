ghost use Rattle.std.specs.Prelude.{All, IfSome};
ghost use Rattle.std.specs.Bool.{OnTrue};
ghost use Rattle.st_model.specs.Branch.{IsBranch, IsVertexSet};
ghost use Rattle.cut_packing.specs.ProofTree.{IsSplitAt};
ghost use Rattle.node_work.specs.Step.{MaySplit};

use branching::may_split_at;
use cut_packing::Packing;
use st_model::{Branch, Instance, SplitAt};
use std::marker::Model;

/// How a node goes on: where it splits, one after another, so that each time the half that says yes closes
/// at once. At vertices these are so far from the root that to reach them costs too much, and there is a
/// packing for the branch where all of them are outside; at links each bears so much less than it costs
/// that to use them does. Nothing is claimed of it but that the packing's cuts are of the instance: halves
/// and packings are judged as any others.
#[derive(Debug, Drop)]
pub struct Plan {
    places: Vec<SplitAt>,
    closing: Option<Packing>,
    // How many vertices the instance has.
    count: u32,
}

impl Model for Plan {
    ghost use Rattle.std.specs.Prelude.{All, IfSome, Option};
    ghost use Rattle.st_model.specs.Branch.{IsVertexSet};
    ghost use Rattle.cut_packing.specs.declared.packing.Packing.{Packing};

    // The packing.
    ghost Value = { Option Packing };

    ghost view = { λ p. p.closing };

    ghost invariant = { λ p. IfSome p.closing (λ P. All (λ c. IsVertexSet p.count c.set) P.cuts) };
}

impl Plan {
    /// To split at these places of an instance, and then to close by this packing, if there is one.
    pub fn of(instance: &Instance, places: Vec<SplitAt>, closing: Option<Packing>) -> Plan
        requires { IfSome closing (λ P. All (λ c. IsVertexSet instance.now.n c.set) P.cuts) }
    {
        Plan {
            places,
            closing,
            count: instance.vertices(),
        }
    }

    /// The first of its places at which a branch may be split, at a link only if links are to be split.
    pub fn next(&self, instance: &Instance, branch: &Branch, links: bool) -> Option<SplitAt>
        requires { IsBranch instance.now branch.now }
        ensures split { IfSome result (IsSplitAt instance.now branch.now) }
        ensures allowed { IfSome result (MaySplit links) }
    {
        for place in self.places.as_slice() {
            if is_allowed(*place, links) && may_split_at(instance, branch, *place) {
                return Some(*place);
            }
        }
        None
    }

    /// Its packing, if it has one and that is of this instance.
    pub fn into_closing(self, instance: &Instance) -> Option<Packing>
        ensures { IfSome result (λ P. All (λ c. IsVertexSet instance.now.n c.set) P.cuts) }
    {
        if self.count == instance.vertices() {
            self.closing
        } else {
            None
        }
    }
}

// Whether it is at a vertex, or links are to be split.
fn is_allowed(place: SplitAt, links: bool) -> bool
    ensures { OnTrue result (MaySplit links place) }
{
    match place {
        SplitAt::Vertex(_) => true,
        SplitAt::Link(_, _) => links,
    }
}
