//! Branches that are closed where links are told.
ghost use Rattle.st_model.specs.Branch.{IsBranch};

use super::{Closing, closed, is_tree_of, tree_closing};
use crate::told::{Told, barred, branch_of, must, required_triangle};
use cut_packing::{Packing, fits, weight};
use level_packing::Leaf;
use st_model::{Instance, Sides, Tree};
use std::alloc::{AllocError, Global};
use std::test::Fail;

// What a packing weighs in a branch, up to the greatest number of 64 bits.
fn weighed(instance: &Instance, branch: &Sides, packing: &Packing) -> u64
    requires { IsBranch instance.now branch.now }
{
    weight(instance, branch.branch(), packing).min(u128::from(u64::MAX)) as u64
}

// Whether no arc of a tree goes over a link that is barred.
fn is_open(branch: &Sides, tree: &Tree) -> bool {
    let arcs = tree.arcs.as_slice();
    arcs.iter().all(|arc| !branch.is_barred(arc.0, arc.1))
}

// How a leaf closes a branch.
fn leaf_closing(
    alloc: Global,
    instance: &Instance,
    branch: &Sides,
    leaf: &Leaf,
) -> Result<Closing, AllocError>
    requires { IsBranch instance.now branch.now }
{
    let (tree, packing) = match leaf {
        Leaf::Tree(tree, packing) => (Some(tree), packing),
        Leaf::Wall(packing) => (None, packing),
    };
    if !fits(alloc, instance, branch, packing)? {
        return Ok(Closing::Overloaded);
    }
    let weight = weighed(instance, branch, packing);
    let outside = branch.branch().outside.as_slice();
    match tree {
        Some(tree) if is_open(branch, tree) => {
            tree_closing(alloc, instance, outside, tree, weight)
        }
        Some(_) => Ok(Closing::NoSpanningTree),
        None => Ok(Closing::Wall { weight }),
    }
}

// How the branch of the triangle that is told this is closed, where 1-2 costs 5 and the other sides 1.
fn told_closing(alloc: Global, told: &[Told]) -> Result<Closing, AllocError> {
    let instance = required_triangle(alloc, 5, 1)?;
    let branch = branch_of(alloc, &instance, told)?;
    match closed(alloc, &instance, &branch, 9)? {
        Some(leaf) => leaf_closing(alloc, &instance, &branch, &leaf),
        None => Ok(Closing::Undecided),
    }
}

#[test]
fn closes_where_links_are_told(rt: HostRuntime) -> Result<(), Fail> {
    let alloc = rt.alloc();
    assert!(rt; is_tree_of(told_closing(alloc, &[])?, 2));
    assert!(rt; is_tree_of(told_closing(alloc, &[must(1, 2)])?, 6));
    assert!(rt; is_tree_of(told_closing(alloc, &[barred(1, 3)])?, 6));
    let wall = told_closing(alloc, &[barred(1, 3), barred(2, 3)])?;
    assert!(rt; matches!(wall, Closing::Wall { weight: 9.. }));
    Ok(())
}
