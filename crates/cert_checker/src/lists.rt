ghost use Rattle.std.specs.Prelude.{◌≡◌, ◌≤◌, [], ◌∷◌, ◌++◌, length, IfOk};
ghost use Rattle.std.specs.List.Sorted.{IsNonDecreasing};
ghost use Rattle.st_model.specs.Branch.{joined, with_vertex};
ghost use Rattle.st_model.specs.Lists.{has};
ghost use Rattle.st_model.specs.Made.{has_pair};
ghost use Rattle.cert_checker.specs.Path.{place_of, without, without_new, without_last};

use st_model::Listed;
use std::alloc::AllocError;

// Whether an ascending list has a vertex.
pub fn holds(vertices: &[u32], vertex: u32) -> bool
    requires { IsNonDecreasing vertices.now }
    ensures { result ≡ has vertices.now vertex }
{
    vertices.binary_search(&vertex).is_ok()
}

// How many vertices an ascending list has below one.
fn place_of(vertices: &[u32], vertex: u32) -> usize
    requires { IsNonDecreasing vertices.now }
    ensures value { result ≡ place_of vertices.now vertex }
    ensures in_range { result ≤ length vertices.now }
{
    vertices.partition_point(|other| *other < vertex)
}

// The list with a vertex in its place.
pub fn with(list: Listed<u32>, vertex: u32) -> Result<Listed<u32>, AllocError>
    requires { IsNonDecreasing list }
    ensures { IfOk result (λ more. more ≡ with_vertex list vertex) }
{
    let mut vertices = list.into_vec();
    let place = place_of(&vertices, vertex);
    vertices.insert(place, vertex)?;
    Ok(Listed::of(vertices))
}

// The list with a vertex in its place, once.
pub fn joined(list: Listed<u32>, vertex: u32) -> Result<Listed<u32>, AllocError>
    requires { IsNonDecreasing list }
    ensures { IfOk result (λ more. more ≡ joined list vertex) }
{
    if holds(list.as_slice(), vertex) {
        return Ok(list);
    }
    with(list, vertex)
}

// The list but for the vertex in this one's place.
pub fn without(list: Listed<u32>, vertex: u32) -> Listed<u32>
    requires { IsNonDecreasing list }
    ensures { result ≡ without list vertex }
{
    let mut vertices = list.into_vec();
    let place = place_of(&vertices, vertex);
    if place < vertices.len() {
        vertices.remove(place);
    }
    Listed::of(vertices)
}

// The list but for the vertex in this one's place, if that came.
pub fn without_new(list: Listed<u32>, vertex: u32, came: bool) -> Listed<u32>
    requires { IsNonDecreasing list }
    ensures { result ≡ without_new list vertex came }
{
    if came {
        return without(list, vertex);
    }
    list
}

// Whether some pairs have this one, in either order.
pub fn has_pair(pairs: &[(u32, u32)], low: u32, high: u32) -> bool
    ensures { result ≡ has_pair pairs.now low high }
{
    pairs.iter().any(|(u, v)| (*u == low && *v == high) || (*u == high && *v == low))
}

// The pairs, and one more after them.
pub fn with_last(
    list: Listed<(u32, u32)>,
    pair: (u32, u32),
) -> Result<Listed<(u32, u32)>, AllocError>
    ensures { IfOk result (λ more. more ≡ list ++ pair ∷ []) }
{
    let mut pairs = list.into_vec();
    pairs.push(pair)?;
    Ok(Listed::of(pairs))
}

// The pairs but for the last.
pub fn without_last(list: Listed<(u32, u32)>) -> Listed<(u32, u32)>
    ensures { result ≡ without_last list }
{
    let mut pairs = list.into_vec();
    pairs.pop();
    Listed::of(pairs)
}
