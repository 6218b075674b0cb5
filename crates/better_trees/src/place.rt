ghost use Rattle.std.proofs.Props.{props};
ghost use Rattle.st_model.specs.Branch.{IsBranch};
ghost use Rattle.better_trees.specs.Branched.{AreApart-prop};

use graph_store::Whole;
use st_model::Sides;

/// Where trees are looked for: a network, and a branch of it.
#[derive(Clone, Copy)]
pub struct Place<'a> {
    pub whole: &'a Whole,
    pub branch: &'a Sides,
    pub ghost branched: { IsBranch whole.now.instance branch.now } by { Prim.hlevel (AreApart-prop, props) },
}
