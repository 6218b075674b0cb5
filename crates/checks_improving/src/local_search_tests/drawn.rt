ghost use Rattle.std.specs.Prelude.{◌≡◌, ◌≢◌, IfOk};
ghost use Rattle.st_model.specs.Arborescence.{IsTree};
ghost use Rattle.st_model.specs.Branch.{IsBranch, ReachesAsTold};
ghost use Rattle.st_model.specs.Network.{IsVertex};

use super::brute_force::least_over_sets;
use graph_store::Whole;
use local_search::{improve, wander};
use st_model::{Branch, Instance, Sides, Tree, is_tree, tree_cost};
use std::alloc::{AllocError, Global};
use std::test::Fail;
use test_instances::Draws;
use tree_heuristic::first_tree;

// The branch of the trees that reach one vertex and not another one.
fn sides(alloc: Global, instance: &Instance, inside: u32, outside: u32) -> Result<Sides, AllocError>
    requires inside { IsVertex instance.now.n inside }
    requires outside { IsVertex instance.now.n outside }
    requires apart { inside ≢ outside }
    ensures { IfOk result (IsBranch instance.now) }
{
    let half = Branch::all(alloc).with_inside(alloc, inside)?;
    let branch = half.with_outside(alloc, outside)?;
    let sides = Sides::of(alloc, branch)?;
    Ok(sides)
}

// What trees of a drawn branch cost: the first one, it improved, what a walk from there comes to, and the
// cheapest one; and whether what the walk comes to is a tree that reaches what the branch says.
#[derive(Drop)]
struct Costs {
    first: u64,
    better: u64,
    walked: u64,
    least: u64,
    holds: bool,
}

// What a walk from a tree comes to, and whether that is a tree that reaches vertex 2 and not vertex 5.
fn walked(
    alloc: Global,
    whole: &Whole,
    branch: &Sides,
    tree: Tree,
) -> Result<(u64, bool), AllocError>
    requires branch { IsBranch whole.now.instance branch.now }
    requires tree { IsTree whole.now.instance tree }
    requires reaches { ReachesAsTold branch.now tree }
{
    let tree = wander(alloc, whole, branch, tree, 7, 4)?;
    let holds = is_tree(alloc, &whole.instance, &tree)? && reaches(&tree, 2) && !reaches(&tree, 5);
    Ok((tree_cost(&whole.instance, &tree), holds))
}

// Improves a tree that reaches what the branch says, and walks on from there.
fn improved(
    alloc: Global,
    whole: &Whole,
    branch: &Sides,
    tree: Tree,
    least: u64,
) -> Result<Costs, AllocError>
    requires branch { IsBranch whole.now.instance branch.now }
    requires tree { IsTree whole.now.instance tree }
    requires reaches { ReachesAsTold branch.now tree }
{
    let first = tree_cost(&whole.instance, &tree);
    let tree = improve(alloc, whole, branch, tree)?;
    let better = tree_cost(&whole.instance, &tree);
    let (walked, holds) = walked(alloc, whole, branch, tree)?;
    Ok(Costs {
        first,
        better,
        walked,
        least,
        holds,
    })
}

fn reaches(tree: &Tree, vertex: u32) -> bool {
    let mut found = tree.start == vertex;
    for (_, head) in tree.arcs.as_slice() {
        found = found || *head == vertex;
    }
    found
}

// The costs in a branch, if it has a tree.
fn costs_of(
    alloc: Global,
    whole: &Whole,
    branch: &Sides,
    least: u64,
) -> Result<Option<Costs>, AllocError>
    requires { IsBranch whole.now.instance branch.now }
{
    match first_tree(alloc, &whole.store, branch)? {
        Some(tree) => Ok(Some(improved(alloc, whole, branch, tree, least)?)),
        None => Ok(None),
    }
}

// The same in the branch that reaches vertex 2 and not vertex 5.
fn costs_in(alloc: Global, whole: &Whole) -> Result<Option<Costs>, AllocError>
    requires { whole.now.instance.n ≡ 6 }
{
    let least = least_over_sets(&whole.instance, 2, 5);
    let branch = sides(alloc, &whole.instance, 2, 5)?;
    costs_of(alloc, whole, &branch, least)
}

// The costs in a drawn instance, if the branch has a tree there.
fn drawn_costs(alloc: Global, seed: u64) -> Result<Option<Costs>, AllocError> {
    let instance = Draws { state: seed }.instance(alloc)?;
    costs_in(alloc, &Whole::of(alloc, instance)?)
}

// Of drawn branches, how many have a tree, in how many of these what is improved costs no more than the
// first one, and what is walked to no more than that and no less than the cheapest one, and in how many what is
// improved is cheapest.
#[derive(Drop)]
struct Tally {
    trees: u32,
    sound: u32,
    cheapest: u32,
}

impl Tally {
    fn count(&mut self, costs: &Costs) {
        self.trees = self.trees.saturating_add(1);
        let (better, walked) = (costs.better, costs.walked);
        if costs.holds && better <= costs.first && walked <= better && costs.least <= walked {
            self.sound = self.sound.saturating_add(1);
        }
        if costs.better == costs.least {
            self.cheapest = self.cheapest.saturating_add(1);
        }
    }
}

fn tallied(alloc: Global) -> Result<Tally, AllocError> {
    let mut tally = Tally {
        trees: 0,
        sound: 0,
        cheapest: 0,
    };
    for seed in 1..41u64 {
        if let Some(costs) = drawn_costs(alloc, seed)? {
            tally.count(&costs);
        }
    }
    Ok(tally)
}

// Whether there are trees, all are sound, and nine of ten are cheapest.
fn is_good(tally: &Tally) -> bool {
    tally.trees >= 10
        && tally.sound == tally.trees
        && tally.cheapest.saturating_mul(10) >= tally.trees.saturating_mul(9)
}

#[test]
fn improves_what_is_drawn(rt: HostRuntime) -> Result<(), Fail> {
    let tally = tallied(rt.alloc())?;
    assert!(rt; is_good(&tally));
    Ok(())
}
