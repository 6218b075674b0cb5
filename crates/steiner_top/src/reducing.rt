ghost use Rattle.std.specs.Prelude.{◌≡◌, ◌<◌, ◌^◌, All, IfOk, false, true, length};
ghost use Rattle.log_format.specs.Accepts.{left_over};
ghost use Rattle.steiner_top.specs.Left.{CanBeCounted, IsLeftOf};

use crate::left::Left;
use lift_back::{Reduced, Step};
use reductions::reduce;
use st_model::{Branch, Instance};
use std::alloc::{AllocError, Global};

/// What is left of an instance: all of it, where it is to be plain, and else what a reduction leaves.
pub fn left_of(alloc: Global, instance: &Instance, plain: bool) -> Result<Left, AllocError>
    ensures { IfOk result (IsLeftOf instance.now plain) }
{
    if plain {
        all_of(alloc, instance)
    } else {
        rest_of(alloc, instance)
    }
}

// All of an instance, without a step.
fn all_of(alloc: Global, instance: &Instance) -> Result<Left, AllocError>
    ensures { IfOk result (IsLeftOf instance.now true) }
{
    let reduced = Reduced::of(alloc, instance)?;
    Ok(Left {
        steps: Vec::new(alloc),
        reduced,
    })
}

// What a reduction leaves of an instance.
fn rest_of(alloc: Global, instance: &Instance) -> Result<Left, AllocError>
    ensures { IfOk result (IsLeftOf instance.now false) }
{
    let (steps, reduced) = reduce(alloc, instance)?;
    Ok(Left { steps, reduced })
}

/// The branch of the trees that reach nobody who is gone.
pub fn left_over(alloc: Global, reduced: &Reduced) -> Result<Branch, AllocError>
    ensures { IfOk result (λ branch. branch ≡ left_over reduced.now.state) }
{
    Ok(Branch::leaving_out(alloc, reduced.gone(alloc)?))
}

/// How many steps there are, each of whose vertices can be counted.
pub fn count_steps(steps: &[Step]) -> usize
    ensures count { length steps.now < 2 ^ 64 }
    ensures vertices { All CanBeCounted steps.now }
{
    for step in steps {
        count_vertices(step);
    }
    steps.len()
}

// How many vertices a step names besides its first two.
fn count_vertices(step: &Step) -> usize
    ensures { CanBeCounted step.now }
{
    match step {
        Step::Detour { inner, .. } => inner.as_slice().len(),
        _ => 0,
    }
}
