ghost use Rattle.std.specs.Prelude.{◌≡◌, ◌-◌, ◌≤◌, IfSome, IfNone};
ghost use Rattle.st_model.specs.declared.branch.Branch.{Branch as Part};
ghost use Rattle.st_model.specs.Arborescence.{IsTree, cost};
ghost use Rattle.st_model.specs.Branch.{IsBranch, ReachesAsTold};
ghost use Rattle.cut_packing.specs.Packing.{base_weight};
ghost use Rattle.better_trees.specs.Better.{IsBetter, IsBetterAt, IsTreeAt, later, least_after};

use crate::place::Place;
use crate::price::Priced;
use cut_packing::{Packing, base_weight};
use st_model::{Instance, Sides, Tree, tree_cost};

/// A tree and its price, if that is less than the least cost known.
pub fn priced(instance: &Instance, tree: Tree, least: u64) -> Option<Priced>
    requires { IsTree instance.now tree }
    ensures better { (B : Part) → ReachesAsTold B tree → IfSome result (IsBetter instance.now B least) }
    ensures price { IfSome result (λ p. p.price ≡ cost instance.now tree) }
    ensures none { IfNone result (least ≤ cost instance.now tree) }
{
    let price = tree_cost(instance, &tree);
    if price < least {
        Some(Priced { tree, price })
    } else {
        None
    }
}

/// The tree with its price, if there is one that costs less than the least cost known.
pub fn cheaper(place: &Place<'_>, tree: Option<Tree>, least: u64) -> Option<Priced>
    requires { IfSome tree (IsTreeAt place.now) }
    ensures { IfSome result (IsBetterAt place.now least) }
{
    priced(&place.whole.instance, tree?, least)
}

/// The least cost known once a better tree is, if there is one.
pub fn least_after(least: u64, better: &Option<Priced>) -> u64
    ensures { result ≡ least_after least better.now }
{
    match better {
        Some(found) => found.price,
        None => least,
    }
}

/// The better tree, if there is one, and else the one known before.
pub fn tree_of<'a>(known: &'a Tree, better: &'a Option<Priced>) -> &'a Tree {
    match better {
        Some(found) => &found.tree,
        None => known,
    }
}

/// Of a better tree and the one found after it, if there is one, the later.
pub fn later(better: Option<Priced>, more: Option<Priced>) -> Option<Priced>
    ensures { result ≡ later better more }
{
    match more {
        Some(found) => Some(found),
        None => better,
    }
}

/// How much the cuts of a packing and the prizes of the outside vertices lack of the least cost known.
/// An ascent adds cuts; what the links that are a must cost beyond these may fall by it, so it isn't
/// counted here.
pub fn gap(instance: &Instance, branch: &Sides, packing: &Packing, least: u64) -> u64
    requires { IsBranch instance.now branch.now }
    ensures { result ≡ least - base_weight instance.now branch.now packing.now }
{
    let weighs = base_weight(instance, branch.branch(), packing);
    if weighs < u128::from(least) {
        least.saturating_sub(weighs as u64)
    } else {
        0
    }
}
