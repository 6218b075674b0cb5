//! Cases and sets that look random, the same in each run.
ghost use Rattle.std.specs.Prelude.{◌≡◌, false, IfOk, slice_index_or};

use st_model::Instance;
use std::alloc::{AllocError, Global};
use test_instances::Draws;

/// An instance some of whose vertices are removed, and a branch.
#[derive(Drop)]
pub struct Case {
    pub instance: Instance,
    pub removed: [bool; 7],
    pub inside: [bool; 7],
    pub outside: [bool; 7],
}

pub fn draw_case(alloc: Global, draws: &mut Draws) -> Result<Case, AllocError>
    ensures { IfOk result (λ case. case.instance.n ≡ 6) }
{
    Ok(Case {
        instance: draws.instance(alloc)?,
        removed: draw_set(draws, 1),
        inside: draw_set(draws, 2),
        outside: draw_set(draws, 1),
    })
}

/// A mark for vertex 0 to 6, each of which is set in so many of ten cases.
pub fn draw_set(draws: &mut Draws, tenths: u64) -> [bool; 7] {
    let mut set = [false; 7];
    for mark in set.iter_mut() {
        *mark = draws.below_ten() < tenths;
    }
    set
}

/// Whether a vertex has a mark.
pub fn holds(set: &[bool], vertex: u32) -> bool
    ensures { result ≡ slice_index_or set.now vertex false }
{
    set.get(vertex as usize).copied().unwrap_or(false)
}
