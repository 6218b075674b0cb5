ghost use Rattle.std.specs.Prelude.{◌≡◌, ◌∷◌, ◌≤◌, map, take, length, IfOk, slice_index_or, unwrap_or};
ghost use Rattle.std.specs.Option.{option_map};
ghost use Rattle.short_paths.specs.Marks.{places_of};
ghost use Rattle.short_paths.specs.Routes.{source_of};
ghost use Rattle.short_paths.specs.Searching.{paths_of, routes_of};
ghost use Rattle.short_paths.specs.Walk.{first_of};

use crate::mark::Mark;
use crate::settled::Settled;
use std::alloc::{AllocError, Global};

// By vertex the source that its path begins with, after a 0 at place 0.
pub fn sources_of(
    alloc: Global,
    settled: &[Settled],
    marks: &[Mark],
) -> Result<Vec<u32>, AllocError>
    requires { 1 ≤ length marks.now }
    ensures { IfOk result (λ sources. sources.items
        ≡ 0 ∷ map source_of (routes_of settled.now (places_of marks.now))) }
{
    let firsts = firsts_of(alloc, settled)?;
    let mut sources = vec![in alloc; 0; marks.len()]?;
    for vertex in 0..marks.len() {
        sources[vertex] = first_at(&firsts, marks[vertex].place());
    }
    // Place 0 is of no vertex.
    sources[0] = 0;
    Ok(sources)
}

// By place the source that the path there begins with.
fn firsts_of(alloc: Global, settled: &[Settled]) -> Result<Vec<u32>, AllocError>
    ensures { IfOk result (λ firsts. firsts.items ≡ map first_of (paths_of settled.now)) }
{
    let mut firsts = vec![in alloc; 0; settled.len()]?;
    for place in 0..settled.len() {
        firsts[place] = first_on(&firsts, place, settled[place]);
    }
    Ok(firsts)
}

// The source that the path to a settled vertex begins with, where those before a place are known.
fn first_on(firsts: &[u32], place: usize, one: Settled) -> u32
    requires { place ≤ length firsts.now }
    ensures { result ≡ slice_index_or (take place firsts.now) one.before one.vertex }
{
    if (one.before as usize) < place {
        return firsts[one.before as usize];
    }
    one.vertex
}

// The source at a place, and 0 where there is no place.
fn first_at(firsts: &[u32], place: Option<u32>) -> u32
    ensures { result ≡ unwrap_or (option_map (λ k. slice_index_or firsts.now k 0) place) 0 }
{
    match place {
        Some(place) => firsts.get(place as usize).copied().unwrap_or(0),
        None => 0,
    }
}
