ghost use Rattle.std.specs.Prelude.{◌≡◌, ℕ, ◌<◌, All, IfOk};
ghost use Rattle.st_model.specs.Lists.{has};
ghost use Rattle.st_model.specs.Made.{has_pair};
ghost use Rattle.st_model.specs.Sides.{is_kept};

use crate::{Branch, Instance, Need, VertexSet};
use indexmap::IndexSet;
use std::alloc::{AllocError, Global};
use std::marker::Model;

/// A branch, of which it takes one step to ask where a vertex is, or whether a link is a must or
/// barred. It is seen as the branch that it holds.
#[derive(Drop)]
pub struct Sides {
    branch: Branch,
    inside: VertexSet,
    outside: VertexSet,
    // The links that are a must and the barred ones, the lower end of each first.
    must: IndexSet<(u32, u32)>,
    barred: IndexSet<(u32, u32)>,
}

impl Model for Sides {
    ghost use Rattle.st_model.specs.declared.branch.Branch.{Branch as BranchSpec};
    ghost use Rattle.st_model.specs.Sides.{AreSides};

    ghost Value = { BranchSpec };

    ghost view = { λ s. s.branch };

    ghost invariant = { λ s. AreSides s.branch s.inside.members s.outside.members
        s.must.keys s.barred.keys };
}

impl Sides {
    ghost use Rattle.st_model.specs.Branch.{is_certain, is_free};
    ghost use Rattle.st_model.specs.Made.{has_pair};
    ghost use Rattle.st_model.specs.Network.{IsVertex};

    /// The sides of a branch. Takes time and memory linear in its greatest vertex and its links.
    pub fn of(alloc: Global, branch: Branch) -> Result<Sides, AllocError>
        ensures { IfOk result (λ sides. sides ≡ branch) }
    {
        let inside = set_of(alloc, branch.inside.as_slice())?;
        let outside = set_of(alloc, branch.outside.as_slice())?;
        let must = pairs_of(alloc, branch.must.as_slice())?;
        let barred = pairs_of(alloc, branch.barred.as_slice())?;
        Ok(Sides {
            branch,
            inside,
            outside,
            must,
            barred,
        })
    }

    /// The branch itself.
    pub fn branch(&self) -> &Branch
        ensures { result.now ≡ self.now }
    {
        &self.branch
    }

    /// The branch again; takes no memory.
    pub fn into_branch(self) -> Branch
        ensures { result ≡ self }
    {
        self.branch
    }

    /// Whether a vertex is inside.
    pub fn is_inside(&self, vertex: u32) -> bool
        ensures { result ≡ has self.now.inside vertex }
    {
        self.inside.contains(vertex)
    }

    /// Whether a vertex is outside.
    pub fn is_outside(&self, vertex: u32) -> bool
        ensures { result ≡ has self.now.outside vertex }
    {
        self.outside.contains(vertex)
    }

    /// Whether the link between two vertices, in either order, is a must. Where none is, that takes
    /// no look-up.
    pub fn is_must(&self, u: u32, v: u32) -> bool
        ensures { result ≡ has_pair self.now.must u v }
    {
        !self.must.is_empty() && self.must.contains(&(u.min(v), u.max(v)))
    }

    /// Whether the link between two vertices, in either order, is barred. Where none is, that takes
    /// no look-up.
    pub fn is_barred(&self, u: u32, v: u32) -> bool
        ensures { result ≡ has_pair self.now.barred u v }
    {
        !self.barred.is_empty() && self.barred.contains(&(u.min(v), u.max(v)))
    }

    /// Whether every tree of the branch reaches a vertex: it is required or inside.
    pub fn is_certain(&self, instance: &Instance, vertex: u32) -> bool
        requires { IsVertex instance.now.n vertex }
        ensures { result ≡ is_certain instance.now self.now vertex }
    {
        instance.need(vertex) == Need::Required || self.is_inside(vertex)
    }

    /// Whether a vertex is neither required nor inside nor outside.
    pub fn is_free(&self, instance: &Instance, vertex: u32) -> bool
        requires { IsVertex instance.now.n vertex }
        ensures { result ≡ is_free instance.now self.now vertex }
    {
        match instance.need(vertex) {
            Need::Required => false,
            Need::Pays(_) => !self.is_inside(vertex) && !self.is_outside(vertex),
        }
    }
}

// The set of the vertices of a list.
fn set_of(alloc: Global, vertices: &[u32]) -> Result<VertexSet, AllocError>
    ensures { IfOk result (λ set. (v : ℕ) → has set.members v ≡ has vertices.now v) }
{
    let mut set = VertexSet::new(alloc, above(vertices))?;
    set.extend(vertices)?;
    Ok(set)
}

// The pairs of a list, the lower end of each first.
fn pairs_of(alloc: Global, pairs: &[(u32, u32)]) -> Result<IndexSet<(u32, u32)>, AllocError>
    ensures { IfOk result (λ set. (u v : ℕ) → is_kept set.keys u v ≡ has_pair pairs.now u v) }
{
    let mut set = IndexSet::new(alloc);
    for (u, v) in pairs {
        set.insert(((*u).min(*v), (*u).max(*v)))?;
    }
    Ok(set)
}

// A number above all of some.
fn above(vertices: &[u32]) -> usize
    ensures { All (λ v. v < result) vertices.now }
{
    match vertices.iter().max() {
        None => 0,
        Some(greatest) => *greatest as usize + 1,
    }
}
