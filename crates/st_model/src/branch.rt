ghost use Rattle.std.specs.Prelude.{◌≡◌, ◌++◌, [], ◌∷◌, IfOk};
ghost use Rattle.std.specs.List.Sorted.{IsNonDecreasing};
ghost use Rattle.st_model.specs.Branch.{all_trees, avoiding, deciding, is_undecided, joined, with_vertex, with_inside, with_outside, with_must, with_barred, yes_half, no_half};
ghost use Rattle.st_model.specs.Lists.{has};

use crate::{Listed, SplitAt};
use std::alloc::{AllocError, Global};

/// A part of the search: the trees that reach every vertex inside and none outside, use every link
/// that is a must, in either direction, and no link that is barred. The vertices are ascending lists
/// without repeats; a link is a pair of vertices, the lower first, and stands in no more than one list.
#[derive(Debug, Drop)]
pub struct Branch {
    pub inside: Listed<u32>,
    pub outside: Listed<u32>,
    pub must: Listed<(u32, u32)>,
    pub barred: Listed<(u32, u32)>,
}

impl Branch {
    /// The branch of the trees that reach the vertices inside and none outside, whatever links they
    /// use; takes no memory.
    pub fn of(alloc: Global, inside: Listed<u32>, outside: Listed<u32>) -> Branch
        ensures { result ≡ deciding inside outside }
    {
        Branch {
            inside,
            outside,
            must: Listed::of(Vec::new(alloc)),
            barred: Listed::of(Vec::new(alloc)),
        }
    }

    /// The branch of the trees that reach nobody gone; takes no memory.
    pub fn leaving_out(alloc: Global, gone: Vec<u32>) -> Branch
        ensures { result ≡ avoiding gone.items }
    {
        Branch::of(alloc, Listed::of(Vec::new(alloc)), Listed::of(gone))
    }

    /// The branch of all trees.
    pub fn all(alloc: Global) -> Branch
        ensures { result ≡ all_trees }
    {
        Branch::leaving_out(alloc, Vec::new(alloc))
    }

    /// The same branch again.
    pub fn copied(&self, alloc: Global) -> Result<Branch, AllocError>
        ensures { IfOk result (λ copy. copy ≡ self.now) }
    {
        Ok(Branch {
            inside: again(alloc, &self.inside)?,
            outside: again(alloc, &self.outside)?,
            must: again(alloc, &self.must)?,
            barred: again(alloc, &self.barred)?,
        })
    }

    /// Whether a vertex is neither inside nor outside.
    pub fn is_undecided(&self, vertex: u32) -> bool
        requires inside { IsNonDecreasing self.now.inside }
        requires outside { IsNonDecreasing self.now.outside }
        ensures { result ≡ is_undecided self.now vertex }
    {
        !holds(self.inside.as_slice(), vertex) && !holds(self.outside.as_slice(), vertex)
    }

    /// The branch with a vertex inside as well.
    pub fn with_inside(&self, alloc: Global, vertex: u32) -> Result<Branch, AllocError>
        ensures { IfOk result (λ half. half ≡ with_inside self.now vertex) }
    {
        let inside = with(alloc, self.inside.as_slice(), vertex)?;
        Ok(Branch {
            inside: Listed::of(inside),
            outside: again(alloc, &self.outside)?,
            must: again(alloc, &self.must)?,
            barred: again(alloc, &self.barred)?,
        })
    }

    /// The branch with a vertex outside as well.
    pub fn with_outside(&self, alloc: Global, vertex: u32) -> Result<Branch, AllocError>
        ensures { IfOk result (λ half. half ≡ with_outside self.now vertex) }
    {
        let outside = with(alloc, self.outside.as_slice(), vertex)?;
        Ok(Branch {
            inside: again(alloc, &self.inside)?,
            outside: Listed::of(outside),
            must: again(alloc, &self.must)?,
            barred: again(alloc, &self.barred)?,
        })
    }

    /// The branch with the link between two vertices as a must as well, and both of them inside.
    pub fn with_must(&self, alloc: Global, low: u32, high: u32) -> Result<Branch, AllocError>
        ensures { IfOk result (λ half. half ≡ with_must self.now low high) }
    {
        let first = joined(alloc, self.inside.as_slice(), low)?;
        let inside = joined(alloc, &first, high)?;
        let must = with_last(alloc, self.must.as_slice(), (low, high))?;
        Ok(Branch {
            inside: Listed::of(inside),
            outside: again(alloc, &self.outside)?,
            must: Listed::of(must),
            barred: again(alloc, &self.barred)?,
        })
    }

    /// The branch with the link between two vertices barred as well.
    pub fn with_barred(&self, alloc: Global, low: u32, high: u32) -> Result<Branch, AllocError>
        ensures { IfOk result (λ half. half ≡ with_barred self.now low high) }
    {
        let barred = with_last(alloc, self.barred.as_slice(), (low, high))?;
        Ok(Branch {
            inside: again(alloc, &self.inside)?,
            outside: again(alloc, &self.outside)?,
            must: again(alloc, &self.must)?,
            barred: Listed::of(barred),
        })
    }

    /// The half that says yes to a split: its trees reach the vertex, or use the link.
    pub fn yes_half(&self, alloc: Global, at: SplitAt) -> Result<Branch, AllocError>
        ensures { IfOk result (λ half. half ≡ yes_half self.now at) }
    {
        match at {
            SplitAt::Vertex(vertex) => self.with_inside(alloc, vertex),
            SplitAt::Link(low, high) => self.with_must(alloc, low, high),
        }
    }

    /// The half that says no to a split: its trees avoid the vertex, or do without the link.
    pub fn no_half(&self, alloc: Global, at: SplitAt) -> Result<Branch, AllocError>
        ensures { IfOk result (λ half. half ≡ no_half self.now at) }
    {
        match at {
            SplitAt::Vertex(vertex) => self.with_outside(alloc, vertex),
            SplitAt::Link(low, high) => self.with_barred(alloc, low, high),
        }
    }
}

// The same list again.
fn again<T: Copy>(alloc: Global, list: &Listed<T>) -> Result<Listed<T>, AllocError>
    ensures { IfOk result (λ copy. copy ≡ list.now) }
{
    Ok(Listed::of(Vec::from_slice(alloc, list.as_slice())?))
}

// The vertices of an ascending list with one, once.
fn joined(alloc: Global, vertices: &[u32], vertex: u32) -> Result<Vec<u32>, AllocError>
    ensures { IfOk result (λ more. more.items ≡ joined vertices.now vertex) }
{
    if is_among(vertices, vertex) {
        return Vec::from_slice(alloc, vertices);
    }
    with(alloc, vertices, vertex)
}

// Whether a list, in a free order, has a vertex.
fn is_among(vertices: &[u32], vertex: u32) -> bool
    ensures { result ≡ has vertices.now vertex }
{
    vertices.iter().any(|other| *other == vertex)
}

// The pairs of a list, and one more after them.
fn with_last(
    alloc: Global,
    pairs: &[(u32, u32)],
    pair: (u32, u32),
) -> Result<Vec<(u32, u32)>, AllocError>
    ensures { IfOk result (λ more. more.items ≡ pairs.now ++ pair ∷ []) }
{
    let mut more = Vec::with_capacity(alloc, pairs.len() + 1)?;
    more.extend_from_slice(pairs)?;
    more.push(pair)?;
    Ok(more)
}

// The vertices of an ascending list and one more, in its place.
fn with(alloc: Global, vertices: &[u32], vertex: u32) -> Result<Vec<u32>, AllocError>
    ensures { IfOk result (λ more. more.items ≡ with_vertex vertices.now vertex) }
{
    let mut more = Vec::with_capacity(alloc, vertices.len() + 1)?;
    let mut placed = false;
    for next in vertices {
        if !placed && *next >= vertex {
            more.push(vertex)?;
            placed = true;
        }
        more.push(*next)?;
    }
    if !placed {
        more.push(vertex)?;
    }
    Ok(more)
}

// Whether an ascending list has a vertex.
fn holds(vertices: &[u32], vertex: u32) -> bool
    requires { IsNonDecreasing vertices.now }
    ensures { result ≡ has vertices.now vertex }
{
    vertices.binary_search(&vertex).is_ok()
}
