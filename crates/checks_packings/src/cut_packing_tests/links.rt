//! Packings in branches that are told of links.
ghost use Rattle.std.specs.Prelude.{◌<◌};

use super::{alone, judged_in, no_cuts};
use crate::told::{Told, barred, branch_of, must, required_triangle};
use cut_packing::{Packing, base_weight};
use std::alloc::{AllocError, Global};
use std::test::Fail;

// Whether a packing fits the branch of the triangle that is told this, whether it is full, and what it weighs.
fn judged_told(
    alloc: Global,
    first: u64,
    others: u64,
    told: &[Told],
    packing: &Packing,
) -> Result<(bool, bool, u128), AllocError>
    requires first { first < 100 }
    requires others { others < 100 }
{
    let instance = required_triangle(alloc, first, others)?;
    let branch = branch_of(alloc, &instance, told)?;
    judged_in(alloc, &instance, &branch, packing)
}

// What it weighs there but for the links, where all sides cost 1.
fn base_told(alloc: Global, told: &[Told], packing: &Packing) -> Result<u128, AllocError> {
    let instance = required_triangle(alloc, 1, 1)?;
    let branch = branch_of(alloc, &instance, told)?;
    Ok(base_weight(&instance, branch.branch(), packing))
}

// Whether two links that are a must weigh what they cost, but for what cuts lay on them.
fn two_weigh(alloc: Global) -> Result<bool, AllocError> {
    let both = [must(1, 2), must(1, 3)];
    let none = no_cuts(alloc);
    let one = alone(alloc, Some(1), &[2, 3], 2, 1)?;
    Ok(
        judged_told(alloc, 1, 1, &both, &none)? == (true, false, 2)
            && base_told(alloc, &both, &none)? == 0
            && judged_told(alloc, 1, 1, &both, &one)? == (true, true, 1)
            && base_told(alloc, &both, &one)? == 1,
    )
}

// How a cut of so much round 2 is judged where 1-2 costs 3 and is a must.
fn judged_must(alloc: Global, value: u64) -> Result<(bool, bool, u128), AllocError> {
    let cut = alone(alloc, Some(1), &[2], 2, value)?;
    judged_told(alloc, 3, 5, &[must(1, 2)], &cut)
}

#[test]
fn weighs_links_that_are_a_must(rt: HostRuntime) -> Result<(), Fail> {
    assert!(rt; two_weigh(rt.alloc())?);
    assert!(rt; judged_must(rt.alloc(), 2)? == (true, false, 3));
    assert!(rt; judged_must(rt.alloc(), 4)? == (false, false, 4));
    Ok(())
}

// How a cut beyond what 1-2 costs is judged in the branch that is told this.
fn judged_beyond(alloc: Global, told: &[Told]) -> Result<(bool, bool, u128), AllocError> {
    let cut = alone(alloc, Some(1), &[2], 2, 3)?;
    judged_told(alloc, 1, 5, told, &cut)
}

// How a cut is judged that takes the whole cost of 1-2 and 1-3.
fn judged_whole(alloc: Global, told: &[Told]) -> Result<(bool, bool, u128), AllocError> {
    let cut = alone(alloc, Some(1), &[2, 3], 2, 1)?;
    judged_told(alloc, 1, 1, told, &cut)
}

#[test]
fn bears_nothing_over_barred_links(rt: HostRuntime) -> Result<(), Fail> {
    let alloc = rt.alloc();
    assert!(rt; judged_beyond(alloc, &[])? == (false, false, 3));
    assert!(rt; judged_beyond(alloc, &[barred(1, 2)])? == (true, false, 3));
    assert!(rt; judged_whole(alloc, &[])? == (true, true, 1));
    assert!(rt; judged_whole(alloc, &[barred(1, 2)])? == (true, false, 1));
    Ok(())
}
