use lift_back::{Reduced, Step};
use reductions::reduce;
use st_model::{Instance, Link, Listed};
use std::alloc::{AllocError, Global};
use std::test::Fail;
use test_instances::{Draws, triangle_with_centre};

// Whether these are 6 steps that paid 6, and three vertices are gone and no link is left.
fn is_used_up(alloc: Global, steps: &[Step], reduced: &Reduced) -> Result<bool, AllocError> {
    let gone = reduced.gone(alloc)?.len();
    let links = reduced.instance(alloc)?.links().len();
    Ok(steps.len() == 6 && reduced.offset() == 6 && gone == 3 && links == 0)
}

// Whether that becomes of an instance.
fn uses_up(alloc: Global, first: &Instance) -> Result<bool, AllocError> {
    let (steps, reduced) = reduce(alloc, first)?;
    is_used_up(alloc, &steps, &reduced)
}

// The sides go for the ways over the centre, and then each corner with its link but the last.
#[test]
fn uses_up_a_triangle(rt: HostRuntime) -> Result<(), Fail> {
    assert!(rt; uses_up(rt.alloc(), &triangle_with_centre(rt.alloc(), 4)?)?);
    Ok(())
}

// Whether these steps may be taken in this order.
fn replays(reduced: &mut Reduced, steps: &[Step]) -> bool {
    for step in steps {
        if reduced.apply(step).is_err() {
            return false;
        }
    }
    true
}

// Whether a vertex may still go by a step.
fn goes(reduced: &mut Reduced, vertex: u32) -> bool {
    reduced.apply(&Step::Pendant(vertex)).is_ok()
        || reduced.apply(&Step::Through(vertex)).is_ok()
        || reduced.apply(&Step::Forced(vertex)).is_ok()
}

// Whether a walk over these vertices may stand in for a link.
fn is_detour(
    alloc: Global,
    reduced: &mut Reduced,
    link: &Link,
    inner: &[u32],
) -> Result<bool, AllocError> {
    let step = Step::Detour {
        a: link.a,
        b: link.b,
        inner: Listed::of(Vec::from_slice(alloc, inner)?),
    };
    Ok(reduced.apply(&step).is_ok())
}

// Whether a link has a detour over one of the vertices 1 to 6 or over two of them.
fn has_detour(alloc: Global, reduced: &mut Reduced, link: &Link) -> Result<bool, AllocError> {
    for u in 1..7 {
        for w in 1..7 {
            if is_detour(alloc, reduced, link, &[u])? || is_detour(alloc, reduced, link, &[u, w])? {
                return Ok(true);
            }
        }
    }
    Ok(false)
}

// Whether some of these links has one.
fn has_detours(alloc: Global, reduced: &mut Reduced, links: &[Link]) -> Result<bool, AllocError> {
    for link in links {
        if has_detour(alloc, reduced, link)? {
            return Ok(true);
        }
    }
    Ok(false)
}

// Whether a vertex from 1 to 6 still goes by a step, or a link for a short detour.
fn has_step(alloc: Global, reduced: &mut Reduced) -> Result<bool, AllocError> {
    for vertex in 1..7 {
        if goes(reduced, vertex) {
            return Ok(true);
        }
    }
    let left = reduced.instance(alloc)?;
    has_detours(alloc, reduced, left.links())
}

// Whether these steps may be taken and no other one after them, and this much is paid then.
fn is_end(
    alloc: Global,
    reduced: &mut Reduced,
    steps: &[Step],
    offset: u64,
) -> Result<bool, AllocError> {
    if !replays(reduced, steps) || reduced.offset() != offset {
        return Ok(false);
    }
    Ok(!has_step(alloc, reduced)?)
}

// How many steps these are; None where they don't lead to what is left of an instance, or where
// another one may be taken there.
fn counted(
    alloc: Global,
    first: &Instance,
    steps: &[Step],
    left: &Reduced,
) -> Result<Option<usize>, AllocError> {
    let mut again = Reduced::of(alloc, first)?;
    let is_end = is_end(alloc, &mut again, steps, left.offset())?;
    Ok(is_end.then_some(steps.len()))
}

// How many steps of an instance are taken, if they are right and all.
fn steps_of(alloc: Global, first: &Instance) -> Result<Option<usize>, AllocError> {
    let (steps, reduced) = reduce(alloc, first)?;
    counted(alloc, first, &steps, &reduced)
}

#[test]
fn leaves_no_step_of_drawn_instances(rt: HostRuntime) -> Result<(), Fail> {
    let mut count = 0usize;
    for seed in 0..40u64 {
        let steps = steps_of(rt.alloc(), &Draws { state: seed }.instance(rt.alloc())?)?;
        let steps = steps.ok_or("a step is wrong, or one is left")?;
        count = count.saturating_add(steps);
    }
    assert!(rt; count > 100, "steps: {count}");
    Ok(())
}
