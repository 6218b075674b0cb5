ghost use Rattle.std.specs.Prelude.{◌≤◌};
ghost use Rattle.st_model.specs.Network.{prize};

use graph_store::Store;
use special_dist::detour;
use st_model::{Instance, Need};
use std::alloc::{AllocError, Global};
use std::test::Fail;
use test_instances::{link, triangle_with_centre};

mod drawn;

// The inner vertices of a detour, if the link is there and has one.
fn detour_for(
    alloc: Global,
    instance: &Instance,
    a: u32,
    b: u32,
) -> Result<Option<Vec<u32>>, AllocError> {
    let store = Store::of(alloc, instance)?;
    if store.link_cost(a, b).is_none() {
        return Ok(None);
    }
    detour(alloc, &store, a, b)
}

// Whether a link of the triangle with sides of so much has a detour.
fn has_detour(alloc: Global, side: u64, a: u32, b: u32) -> Result<bool, AllocError>
    requires { side ≤ 100 }
{
    let instance = triangle_with_centre(alloc, side)?;
    Ok(detour_for(alloc, &instance, a, b)?.is_some())
}

// A side of 4 is as dear as the way over the centre, and a link to the centre is dearer than a side
// of 1 to a required corner.
#[test]
fn finds_detours_of_a_triangle(rt: HostRuntime) -> Result<(), Fail> {
    for (side, a, b, want) in [
        (4, 1, 2, true),
        (4, 2, 1, true),
        (4, 1, 4, false),
        (4, 4, 2, false),
        (3, 1, 2, true),
        (1, 1, 4, true),
    ] {
        let found = has_detour(rt.alloc(), side, a, b)?;
        assert_eq!(rt; found, want, "between {a} and {b} at {side}");
    }
    Ok(())
}

// Links 1-2, 2-3, 3-4 at 2, 3 and 3, and 1-4 at 5; 3 is required where `stop` says so.
fn square(alloc: Global, stop: Need) -> Result<Instance, AllocError>
    requires { prize stop ≤ 9 }
{
    let links = [link(1, 2, 2), link(2, 3, 3), link(3, 4, 3), link(1, 4, 5)];
    Instance::build(alloc, 4, &links, &[(3, stop)])
}

// Whether a detour for a link of the square has these inner vertices.
fn has_inner(
    alloc: Global,
    stop: Need,
    a: u32,
    b: u32,
    want: Option<&[u32]>,
) -> Result<bool, AllocError>
    requires { prize stop ≤ 9 }
{
    let instance = square(alloc, stop)?;
    let found = detour_for(alloc, &instance, a, b)?;
    Ok(match (found, want) {
        (Some(inner), Some(wanted)) => inner.as_slice() == wanted,
        (None, None) => true,
        _ => false,
    })
}

// Without the stop the way round costs 8 in one piece.
#[test]
fn finds_the_inner_vertices(rt: HostRuntime) -> Result<(), Fail> {
    let alloc = rt.alloc();
    assert!(rt; has_inner(alloc, Need::Required, 1, 4, Some(&[2, 3]))?);
    assert!(rt; has_inner(alloc, Need::Required, 4, 1, Some(&[3, 2]))?);
    assert!(rt; has_inner(alloc, Need::Pays(9), 1, 4, None)?);
    Ok(())
}
