ghost use Rattle.std.specs.Prelude.{◌≡◌, ◌≤◌, IfOk};

use judging::lifted_cost;
use lift_back::{ApplyError, Ends, Reduced, Step};
use st_model::{Instance, Listed, Need, Tree};
use std::alloc::{AllocError, Global};
use std::test::Fail;
use test_instances::{link, triangle_with_centre};

mod drawn;
mod judging;
mod plain;

// A tree of one vertex, or with an arc from it.
fn tree_at(alloc: Global, start: u32, arcs: &[(u32, u32)]) -> Result<Tree, AllocError> {
    Ok(Tree {
        start,
        arcs: Listed::of(Vec::from_slice(alloc, arcs)?),
    })
}

// Takes a link for which a walk over these vertices stands in.
fn detour(
    alloc: Global,
    reduced: &mut Reduced,
    a: u32,
    b: u32,
    inner: &[u32],
) -> Result<(), ApplyError> {
    let inner = Listed::of(Vec::from_slice(alloc, inner)?);
    let step = Step::Detour { a, b, inner };
    reduced.apply(&step)
}

// Takes the sides of a triangle, and all corners with their links to the centre.
fn use_up(alloc: Global, reduced: &mut Reduced) -> Result<(), ApplyError> {
    for (a, b) in [(1, 2), (1, 3), (2, 3)] {
        detour(alloc, reduced, a, b, &[4])?;
    }
    for vertex in [1, 2, 3] {
        reduced.apply(&Step::Forced(vertex))?;
    }
    Ok(())
}

// A triangle without its sides, of which all corners went with their links to the centre.
fn used_up(alloc: Global, first: &Instance) -> Result<Reduced, ApplyError> {
    let mut reduced = Reduced::of(alloc, first)?;
    use_up(alloc, &mut reduced)?;
    Ok(reduced)
}

// Whether 6 is paid, and just the corners are gone.
fn is_paid_for(alloc: Global, reduced: &Reduced) -> Result<bool, AllocError> {
    let gone = reduced.gone(alloc)?;
    Ok(reduced.offset() == 6 && gone.as_slice() == [1, 2, 3].as_slice())
}

// Whether that is left of the triangle once it is used up.
fn is_used_up(alloc: Global, first: &Instance) -> Result<bool, ApplyError> {
    Ok(is_paid_for(alloc, &used_up(alloc, first)?)?)
}

#[test]
fn uses_up_a_triangle(rt: HostRuntime) -> Result<(), Fail> {
    assert!(rt; is_used_up(rt.alloc(), &triangle_with_centre(rt.alloc(), 4)?)?);
    Ok(())
}

// What the centre of the used up triangle costs once it is led back.
fn centre_cost(alloc: Global, first: &Instance) -> Result<Option<u64>, Fail> {
    let centre = tree_at(alloc, 4, &[])?;
    lifted_cost(alloc, &used_up(alloc, first)?, first, &centre)
}

#[test]
fn leads_the_centre_back(rt: HostRuntime) -> Result<(), Fail> {
    let cost = centre_cost(rt.alloc(), &triangle_with_centre(rt.alloc(), 4)?)?;
    assert!(rt; cost == Some(6));
    Ok(())
}

// Whether the centre of the used up triangle may not go as well, and nothing more is paid then.
fn keeps_centre(alloc: Global, first: &Instance) -> Result<bool, ApplyError> {
    let mut reduced = used_up(alloc, first)?;
    let answer = reduced.apply(&Step::Forced(4));
    Ok(answer == Err(ApplyError::StepFault) && reduced.offset() == 6)
}

#[test]
fn keeps_the_last_required_vertex(rt: HostRuntime) -> Result<(), Fail> {
    assert!(rt; keeps_centre(rt.alloc(), &triangle_with_centre(rt.alloc(), 4)?)?);
    Ok(())
}

// What a detour answers over a triangle with these sides.
fn detour_answer(alloc: Global, side: u64, a: u32, b: u32, inner: &[u32]) -> Result<(), ApplyError>
    requires { side ≤ 100 }
{
    let mut reduced = Reduced::of(alloc, &triangle_with_centre(alloc, side)?)?;
    detour(alloc, &mut reduced, a, b, inner)
}

const FAULT: Result<(), ApplyError> = Err(ApplyError::StepFault);

// The way over the centre costs 4 in two pieces of 2, of which neither end is required.
#[test]
fn judges_detours(rt: HostRuntime) {
    for (side, a, b, inner, want) in [
        (4, 1, 2, [4].as_slice(), Ok(())),
        (3, 1, 2, [4].as_slice(), FAULT),
        (4, 1, 9, [4].as_slice(), FAULT),
        (4, 4, 4, [1].as_slice(), FAULT),
        (4, 1, 2, [].as_slice(), FAULT),
        (4, 1, 2, [2, 1].as_slice(), FAULT),
        (4, 1, 2, [4, 4].as_slice(), FAULT),
        (3, 1, 2, [3].as_slice(), Ok(())),
    ] {
        let answer = detour_answer(rt.alloc(), side, a, b, inner);
        assert!(rt; answer == want, "between {a} and {b} at {side}");
    }
}

// 1 and 4 are required; 2 lies between them, and 3 hangs at 4.
fn path(alloc: Global) -> Result<Instance, AllocError>
    ensures { IfOk result (λ instance. instance.n ≡ 4) }
{
    let links = [link(1, 2, 3), link(2, 4, 5), link(4, 3, 7), link(1, 4, 9)];
    let needs = [(1, Need::Required), (4, Need::Required)];
    Instance::build(alloc, 4, &links, &needs)
}

// What a step answers on the path.
fn path_answer(alloc: Global, step: &Step) -> Result<(), ApplyError> {
    let mut reduced = Reduced::of(alloc, &path(alloc)?)?;
    reduced.apply(step)
}

#[test]
fn judges_vertices(rt: HostRuntime) {
    for (step, want) in [
        (Step::Pendant(3), Ok(())),
        (Step::Pendant(2), FAULT),
        (Step::Pendant(0), FAULT),
        (Step::Through(2), Ok(())),
        (Step::Through(3), FAULT),
        (Step::Through(4), FAULT),
        (Step::Through(5), FAULT),
        (Step::Forced(1), FAULT),
        (Step::Forced(3), FAULT),
        (Step::Forced(9), FAULT),
    ] {
        assert!(rt; path_answer(rt.alloc(), &step) == want, "{step:?}");
    }
}

// Whether on the path the links of 3 lead to 4 alone, and those of 4 to more than two.
fn has_ends(alloc: Global) -> Result<bool, AllocError> {
    let mut reduced = Reduced::of(alloc, &path(alloc)?)?;
    Ok(matches!(reduced.ends(3), Ends::One(4)) && matches!(reduced.ends(4), Ends::More))
}

#[test]
fn tells_where_links_lead(rt: HostRuntime) -> Result<(), Fail> {
    assert!(rt; has_ends(rt.alloc())?);
    Ok(())
}

// Takes what hangs at the path and the vertex in its middle.
fn shorten(reduced: &mut Reduced) -> Result<(), ApplyError> {
    reduced.apply(&Step::Pendant(3))?;
    reduced.apply(&Step::Through(2))
}

// The path without them.
fn shortened(alloc: Global, first: &Instance) -> Result<Reduced, ApplyError> {
    let mut reduced = Reduced::of(alloc, first)?;
    shorten(&mut reduced)?;
    Ok(reduced)
}

// Whether just a link between 1 and 4 is left, which costs 8.
fn has_one_left(alloc: Global, reduced: &Reduced) -> Result<bool, AllocError> {
    let left = reduced.instance(alloc)?;
    Ok(left.link_cost(1, 4) == Some(8) && left.links().len() == 1)
}

// Whether that is left of the path once it is shortened.
fn is_shortened(alloc: Global, first: &Instance) -> Result<bool, ApplyError> {
    Ok(has_one_left(alloc, &shortened(alloc, first)?)?)
}

#[test]
fn shortens_a_path(rt: HostRuntime) -> Result<(), Fail> {
    assert!(rt; is_shortened(rt.alloc(), &path(rt.alloc())?)?);
    Ok(())
}

// Whether the store of the shortened path has that link alone, between 1 and 4, of which both are present.
fn lends_the_rest(alloc: Global, reduced: &Reduced) -> Result<bool, AllocError> {
    let store = reduced.store();
    let links = store.links(alloc)?;
    Ok(
        store.vertices() == 4
            && store.is_present(1)
            && !store.is_present(2)
            && !store.is_present(3)
            && store.is_present(4)
            && store.link_cost(1, 4) == Some(8)
            && links.len() == 1,
    )
}

// Whether that is lent of the path once it is shortened.
fn lends_a_path(alloc: Global, first: &Instance) -> Result<bool, ApplyError> {
    Ok(lends_the_rest(alloc, &shortened(alloc, first)?)?)
}

#[test]
fn lends_a_store(rt: HostRuntime) -> Result<(), Fail> {
    assert!(rt; lends_a_path(rt.alloc(), &path(rt.alloc())?)?);
    Ok(())
}

// What that link costs once it is led back.
fn path_cost(alloc: Global, first: &Instance) -> Result<Option<u64>, Fail> {
    let tree = tree_at(alloc, 4, &[(4, 1)])?;
    lifted_cost(alloc, &shortened(alloc, first)?, first, &tree)
}

#[test]
fn leads_a_path_back(rt: HostRuntime) -> Result<(), Fail> {
    let cost = path_cost(rt.alloc(), &path(rt.alloc())?)?;
    assert!(rt; cost == Some(8));
    Ok(())
}
