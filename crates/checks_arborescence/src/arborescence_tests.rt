ghost use Rattle.std.specs.Prelude.{◌≡◌, ℕ, [], IfOk, IsTrue};
ghost use Rattle.st_model.specs.Branch.{IsBranchIn, LeavesRequiredIn, all_trees, certain_in, is_present};
ghost use Rattle.st_model.specs.Network.{IsVertex};
ghost use Rattle.arborescence.specs.DiNetwork.{di_ground};

mod drawn;

use arborescence::{
    DiAscent, DiInstance, DiLeaf, di_ascend, di_close_all, di_cost, di_first_tree, di_fits,
    di_is_full, di_is_tree, di_wall, di_weight, directed_words, packings_bound,
    walls_leave_no_tree,
};
use cut_packing::{Cut, Packing, SharedSet};
use st_model::{Branch, Link, Listed, Sides, Tree};
use std::alloc::{AllocError, Global};
use std::test::Fail;

// An arc from 1 to 2 at 3, one from 2 to 3 at 4, and one past 2 at 8, with 3 as the terminal.
fn three(alloc: Global, root: u32) -> Result<DiInstance, AllocError>
    requires { IsVertex 3 root }
{
    let arcs = [
        Link {
            a: 1,
            b: 2,
            cost: 3,
        },
        Link {
            a: 2,
            b: 3,
            cost: 4,
        },
        Link {
            a: 1,
            b: 3,
            cost: 8,
        },
    ];
    DiInstance::build(alloc, 3, root, &arcs, &[3])
}

// The branch of all trees.
fn everything(alloc: Global) -> Result<Sides, AllocError>
    ensures { IfOk result (λ sides. sides ≡ all_trees) }
{
    Sides::of(alloc, Branch::all(alloc))
}

fn cut(alloc: Global, set: &[u32], q: u32, y: u64) -> Result<Cut, AllocError> {
    Ok(Cut {
        set: SharedSet::of(Vec::from_slice(alloc, set)?)?,
        q,
        y,
    })
}

// A cut round 3 and one round 2 and 3, with values of their own.
fn two_cuts(alloc: Global, root: u32, q: u32, first: u64) -> Result<Packing, AllocError> {
    let cuts = vec![in alloc; cut(alloc, &[3], 3, first)?, cut(alloc, &[2, 3], q, 3)?]?;
    Ok(Packing {
        root: Some(root),
        cuts: Listed::of(cuts),
    })
}

fn tree(alloc: Global, start: u32, arcs: &[(u32, u32)]) -> Result<Tree, AllocError> {
    Ok(Tree {
        start,
        arcs: Listed::of(Vec::from_slice(alloc, arcs)?),
    })
}

fn judged(alloc: Global, start: u32, arcs: &[(u32, u32)]) -> Result<bool, AllocError> {
    let instance = three(alloc, 1)?;
    let tree = tree(alloc, start, arcs)?;
    let answer = di_is_tree(alloc, &instance, &tree)?;
    Ok(answer)
}

// What a tree of the instance costs; none where it is no tree.
fn cost(alloc: Global, instance: &DiInstance, tree: &Tree) -> Result<Option<u64>, AllocError> {
    if !di_is_tree(alloc, instance, tree)? {
        return Ok(None);
    }
    Ok(Some(di_cost(instance, tree)))
}

// The tree of the instance that is found first, if there is one.
fn first(alloc: Global, instance: &DiInstance) -> Result<Option<Tree>, AllocError> {
    let branch = everything(alloc)?;
    let tree = di_first_tree(alloc, instance, &branch)?;
    Ok(tree)
}

// What cuts weigh that are added to none, up to a target; none where they don't fit, or aren't full below it.
fn ascended(alloc: Global, instance: &DiInstance, target: u64) -> Result<Option<u128>, AllocError> {
    let branch = everything(alloc)?;
    let weight = raised(alloc, instance, &branch, target)?;
    Ok(weight)
}

// The same in the branch of all trees.
fn raised(
    alloc: Global,
    instance: &DiInstance,
    branch: &Sides,
    target: u64,
) -> Result<Option<u128>, AllocError>
    requires { branch.now ≡ all_trees }
{
    let none = Packing {
        root: None,
        cuts: Listed::of(Vec::new(alloc)),
    };
    if !di_fits(alloc, instance, branch, &none)? {
        return Ok(None);
    }
    let ascent = di_ascend(alloc, instance, branch, none, target)?;
    let weight = weight_of(alloc, instance, branch, &ascent)?;
    Ok(weight)
}

// What the packing weighs with which an ascent ended.
fn weight_of(
    alloc: Global,
    instance: &DiInstance,
    branch: &Sides,
    ascent: &DiAscent,
) -> Result<Option<u128>, AllocError>
    requires { branch.now ≡ all_trees }
{
    match ascent {
        DiAscent::Full(packing) => weighed(alloc, instance, branch, packing, true),
        DiAscent::Reached(packing) => weighed(alloc, instance, branch, packing, false),
    }
}

// What a packing weighs, if it fits, and is full where it is said to be.
fn weighed(
    alloc: Global,
    instance: &DiInstance,
    branch: &Sides,
    packing: &Packing,
    is_full: bool,
) -> Result<Option<u128>, AllocError>
    requires { branch.now.must ≡ [] }
{
    if !di_fits(alloc, instance, branch, packing)? {
        return Ok(None);
    }
    if is_full && !di_is_full(alloc, instance, branch, packing)? {
        return Ok(None);
    }
    Ok(Some(di_weight(instance, branch.branch(), packing)))
}

// Whether a branch is closed by a tree that costs this, and a packing of that weight; or by a packing of
// the target's weight, where there is no cost.
fn is_closed_at(
    alloc: Global,
    instance: &DiInstance,
    branch: &Sides,
    least: Option<u64>,
) -> Result<bool, AllocError>
    requires branch { IsBranchIn (di_ground instance.now) branch.now }
    requires required { LeavesRequiredIn (di_ground instance.now) branch.now }
    requires no_must { branch.now.must ≡ [] }
    requires certain { (v : ℕ) → IsVertex instance.now.n v → IsTrue (is_present branch.now v)
        → IsTrue (certain_in (di_ground instance.now) branch.now v) }
{
    let leaf = di_close_all(alloc, instance, branch, 1000)?;
    let answer = leaf_is(alloc, instance, branch, &leaf, least)?;
    Ok(answer)
}

// Whether a leaf is a tree that costs this with a packing of that weight, or a wall where there is no cost.
fn leaf_is(
    alloc: Global,
    instance: &DiInstance,
    branch: &Sides,
    leaf: &DiLeaf,
    least: Option<u64>,
) -> Result<bool, AllocError>
    requires { branch.now.must ≡ [] }
{
    match leaf {
        DiLeaf::Tree(tree, packing) => {
            let weight = weighed(alloc, instance, branch, packing, false)?;
            let cost = cost(alloc, instance, tree)?;
            Ok(least.is_some() && cost == least && weight == least.map(u128::from))
        }
        DiLeaf::Wall(packing) => {
            let weight = weighed(alloc, instance, branch, packing, false)?;
            Ok(least.is_none() && weight == Some(1000))
        }
    }
}

// Whether the two cuts fit, and whether they are full.
fn fit_and_full(alloc: Global, root: u32, q: u32, first: u64) -> Result<(bool, bool), AllocError> {
    let instance = three(alloc, 1)?;
    let packing = two_cuts(alloc, root, q, first)?;
    let answers = both_judged(alloc, &instance, &packing)?;
    Ok(answers)
}

// Whether a packing fits the branch of all trees, and whether it is full there.
fn both_judged(
    alloc: Global,
    instance: &DiInstance,
    packing: &Packing,
) -> Result<(bool, bool), AllocError> {
    let branch = everything(alloc)?;
    let fit = di_fits(alloc, instance, &branch, packing)?;
    let full = di_is_full(alloc, instance, &branch, packing)?;
    Ok((fit, full))
}

// The weight of the two cuts at their best.
fn best_weight(alloc: Global) -> Result<Option<u128>, AllocError> {
    let instance = three(alloc, 1)?;
    let packing = two_cuts(alloc, 1, 3, 4)?;
    let weight = full_weight(alloc, &instance, &packing)?;
    Ok(weight)
}

fn full_weight(
    alloc: Global,
    instance: &DiInstance,
    packing: &Packing,
) -> Result<Option<u128>, AllocError> {
    let branch = everything(alloc)?;
    let weight = weighed(alloc, instance, &branch, packing, true)?;
    Ok(weight)
}

// What a tree costs in the instance with a root.
fn cost_from(alloc: Global, root: u32, arcs: &[(u32, u32)]) -> Result<Option<u64>, AllocError>
    requires { IsVertex 3 root }
{
    let instance = three(alloc, root)?;
    let tree = tree(alloc, root, arcs)?;
    let cost = cost(alloc, &instance, &tree)?;
    Ok(cost)
}

// What cuts for the instance with a root weigh, up to a target.
fn bound_from(alloc: Global, root: u32, target: u64) -> Result<Option<u128>, AllocError>
    requires { IsVertex 3 root }
{
    let instance = three(alloc, root)?;
    let weight = ascended(alloc, &instance, target)?;
    Ok(weight)
}

// Whether one vertex is closed by a tree without arcs.
fn closes_one(alloc: Global) -> Result<bool, AllocError> {
    let instance = DiInstance::build(alloc, 1, 1, &[], &[])?;
    let branch = everything(alloc)?;
    let answer = is_closed_at(alloc, &instance, &branch, Some(0))?;
    Ok(answer)
}

// Whether two vertices with an arc to the root alone are closed by a wall.
fn closes_two(alloc: Global) -> Result<bool, AllocError> {
    let arcs = [Link {
        a: 2,
        b: 1,
        cost: 3,
    }];
    let instance = DiInstance::build(alloc, 2, 1, &arcs, &[2])?;
    let branch = everything(alloc)?;
    let answer = is_closed_at(alloc, &instance, &branch, None)?;
    Ok(answer)
}

// Whether the instance has a tree that is found, and no wall.
fn has_tree(alloc: Global, instance: &DiInstance) -> Result<bool, AllocError> {
    if di_wall(alloc, instance)?.is_some() {
        return Ok(false);
    }
    let Some(tree) = first(alloc, instance)? else {
        return Ok(false);
    };
    let answer = di_is_tree(alloc, instance, &tree)?;
    Ok(answer)
}

// Whether a wall is found round the root, and no tree.
fn has_wall(alloc: Global, instance: &DiInstance) -> Result<bool, AllocError> {
    let Some(wall) = di_wall(alloc, instance)? else {
        return Ok(false);
    };
    if wall.as_slice() != [1].as_slice() {
        return Ok(false);
    }
    Ok(first(alloc, instance)?.is_none())
}

// Whether the costs of arcs are as they should be.
fn has_costs(instance: &DiInstance, costs: &[(u32, u32, Option<u64>)]) -> bool {
    costs.iter().all(|(tail, head, cost)| instance.arc_cost(*tail, *head) == *cost)
}

// A pair either way, each arc several times, an arc with equal ends, and terminals twice.
fn pair(alloc: Global) -> Result<DiInstance, AllocError> {
    let arcs = [
        Link {
            a: 1,
            b: 2,
            cost: 9,
        },
        Link {
            a: 2,
            b: 1,
            cost: 4,
        },
        Link {
            a: 1,
            b: 2,
            cost: 3,
        },
        Link {
            a: 2,
            b: 2,
            cost: 1,
        },
        Link {
            a: 2,
            b: 1,
            cost: 6,
        },
    ];
    DiInstance::build(alloc, 2, 1, &arcs, &[2, 1, 2])
}

#[test]
fn keeps_the_cheapest_arc_of_each_direction(rt: HostRuntime) -> Result<(), Fail> {
    let instance = pair(rt.alloc())?;
    let costs = [
        (1, 2, Some(3)),
        (2, 1, Some(4)),
        (2, 2, None),
        (1, 3, None),
        (0, 1, None),
    ];
    assert!(rt; has_costs(&instance, &costs));
    assert!(rt; instance.away_cost(2, 1).is_none() && instance.arcs().len() == 2);
    Ok(())
}

#[test]
fn knows_its_root_and_terminals(rt: HostRuntime) -> Result<(), Fail> {
    let instance = pair(rt.alloc())?;
    assert_eq!(rt; instance.terminals(), [1, 2].as_slice());
    assert!(rt; instance.is_terminal(2) && instance.is_sought(1) && !instance.is_terminal(3));
    assert_eq!(rt; (instance.vertices(), instance.root()), (2, 1));
    Ok(())
}

#[test]
fn tells_trees_from_the_root(rt: HostRuntime) -> Result<(), Fail> {
    let alloc = rt.alloc();
    assert!(rt; judged(alloc, 1, &[(1, 2), (2, 3)])?);
    assert!(rt; judged(alloc, 1, &[(1, 3)])?);
    assert!(rt; !judged(alloc, 1, &[(1, 2)])?, "misses the terminal");
    assert!(rt; !judged(alloc, 2, &[(2, 3)])?, "starts elsewhere");
    assert!(rt;
        !judged(alloc, 1, &[(1, 3), (3, 2)])?,
        "goes against an arc"
    );
    assert!(rt; !judged(alloc, 1, &[(2, 3), (1, 2)])?, "in another order");
    assert!(rt; !judged(alloc, 0, &[])?, "no vertex");
    Ok(())
}

#[test]
fn a_tree_costs_its_arcs(rt: HostRuntime) -> Result<(), Fail> {
    let alloc = rt.alloc();
    assert_eq!(rt; cost_from(alloc, 1, &[(1, 2), (2, 3)])?, Some(7));
    assert_eq!(rt; cost_from(alloc, 2, &[(2, 3)])?, Some(4));
    Ok(())
}

#[test]
fn a_lone_root_is_a_tree(rt: HostRuntime) -> Result<(), Fail> {
    let alloc = rt.alloc();
    let instance = DiInstance::build(alloc, 1, 1, &[], &[])?;
    assert!(rt; has_tree(alloc, &instance)?);
    assert_eq!(rt; ascended(alloc, &instance, 5)?, Some(0));
    Ok(())
}

#[test]
fn packings_have_the_root_alone(rt: HostRuntime) -> Result<(), Fail> {
    let alloc = rt.alloc();
    assert_eq!(rt; fit_and_full(alloc, 1, 3, 4)?, (true, true));
    assert_eq!(rt; fit_and_full(alloc, 1, 3, 3)?, (true, false));
    assert_eq!(rt;
        fit_and_full(alloc, 1, 3, 5)?,
        (false, true),
        "an arc bears too much"
    );
    assert_eq!(rt;
        fit_and_full(alloc, 2, 3, 4)?,
        (false, false),
        "another root"
    );
    assert_eq!(rt;
        fit_and_full(alloc, 1, 2, 4)?,
        (false, true),
        "names no terminal"
    );
    Ok(())
}

#[test]
fn weighs_the_values_of_the_cuts(rt: HostRuntime) -> Result<(), Fail> {
    assert_eq!(rt; best_weight(rt.alloc())?, Some(7));
    Ok(())
}

#[test]
fn a_wall_keeps_a_terminal_from_the_root(rt: HostRuntime) -> Result<(), Fail> {
    let arcs = [Link {
        a: 2,
        b: 1,
        cost: 3,
    }];
    let instance = DiInstance::build(rt.alloc(), 2, 1, &arcs, &[2])?;
    assert!(rt; has_wall(rt.alloc(), &instance)?);
    Ok(())
}

#[test]
fn finds_trees(rt: HostRuntime) -> Result<(), Fail> {
    let instance = three(rt.alloc(), 1)?;
    assert!(rt; has_tree(rt.alloc(), &instance)?);
    Ok(())
}

#[test]
fn ascends_to_the_target_or_until_full(rt: HostRuntime) -> Result<(), Fail> {
    let alloc = rt.alloc();
    assert_eq!(rt; bound_from(alloc, 1, 0)?, Some(0));
    assert_eq!(rt; bound_from(alloc, 1, 5)?, Some(5));
    assert_eq!(rt; bound_from(alloc, 1, 7)?, Some(7));
    assert_eq!(rt; bound_from(alloc, 1, 100)?, Some(7));
    assert_eq!(rt; bound_from(alloc, 2, 100)?, Some(4));
    Ok(())
}

#[test]
fn closes_where_all_is_decided(rt: HostRuntime) -> Result<(), Fail> {
    assert!(rt; closes_one(rt.alloc())?, "a lone root");
    assert!(rt; closes_two(rt.alloc())?, "a wall");
    Ok(())
}

#[test]
fn laws_hold() {
    walls_leave_no_tree();
    packings_bound();
    directed_words();
}
