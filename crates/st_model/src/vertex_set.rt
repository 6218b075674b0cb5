ghost use Rattle.std.specs.Prelude.{◌≡◌, ℕ, ◌<◌, ◌≤◌, [], ◌∷◌, ◌++◌, length, take, slice_get, OnOk, OnErr, IfOk, All, if◌then◌else◌};
ghost use Rattle.std.specs.List.Sorted.{IsStrictlyIncreasing};
ghost use Rattle.st_model.specs.Lists.{has};
ghost use Rattle.st_model.specs.VertexSet.{AllApart, Extends, IsMarked};

use std::alloc::{AllocError, Global};
use std::marker::Model;

/// A set of vertices below a count, which is asked, walked and emptied in time linear in its size.
#[derive(Drop)]
pub struct VertexSet {
    // Whether each vertex below the count is a member.
    marks: Vec<bool>,
    members: Vec<u32>,
}

impl Model for VertexSet {
    ghost use Rattle.std.specs.Prelude.{length};
    ghost use Rattle.st_model.specs.VertexSet.{VertexSet, IsMarked};

    ghost Value = { VertexSet };

    ghost view = { λ s. record { count = length s.marks.items; members = s.members.items } };

    ghost invariant = { λ s. IsMarked s.marks.items s.members.items };
}

impl VertexSet {
    /// The empty set of vertices below a count.
    pub fn new(alloc: Global, count: usize) -> Result<Self, AllocError>
        ensures count { IfOk result (λ s. s.count ≡ count) }
        ensures empty { IfOk result (λ s. s.members ≡ []) }
    {
        Ok(VertexSet {
            marks: vec![in alloc; false; count]?,
            members: Vec::new(alloc),
        })
    }

    /// The vertices of a list that are below a count, whatever else it holds.
    pub fn of(alloc: Global, count: usize, vertices: &[u32]) -> Result<Self, AllocError>
        ensures count { IfOk result (λ s. s.count ≡ count) }
        ensures members { IfOk result
            (λ s. (v : ℕ) → v < count → has s.members v ≡ has vertices.now v) }
    {
        let mut set = VertexSet::new(alloc, count)?;
        set.fill(vertices)?;
        Ok(set)
    }

    fn count(&self) -> usize
        ensures { result ≡ self.now.count }
    {
        self.marks.len()
    }

    pub fn contains(&self, vertex: u32) -> bool
        ensures { result ≡ has self.now.members vertex }
    {
        self.marks.get(vertex as usize).copied().unwrap_or(false)
    }

    /// The members in the order in which they came.
    pub fn members(&self) -> &[u32]
        ensures all { result.now ≡ self.now.members }
        ensures apart { AllApart self.now.members }
        ensures in_range { All (λ v. v < self.now.count) self.now.members }
    {
        &self.members
    }

    /// The member that came at a place, if there are so many.
    pub fn member(&self, place: usize) -> Option<u32>
        ensures member { result ≡ slice_get self.now.members place }
        ensures few { length self.now.members ≤ self.now.count }
        ensures in_range { All (λ v. v < self.now.count) self.now.members }
    {
        self.members.get(place).copied()
    }

    /// The members, ascending.
    pub fn ascending(&self, alloc: Global) -> Result<Vec<u32>, AllocError>
        ensures members { IfOk result (λ list. (v : ℕ) → has list.items v ≡ has self.now.members v) }
        ensures ascending { IfOk result (λ list. IsStrictlyIncreasing list.items) }
    {
        let mut members = Vec::from_slice(alloc, self.members())?;
        members.sort()?;
        Ok(members)
    }

    /// Adds a vertex, unless it is there.
    pub fn insert(&mut self, vertex: u32) -> Result<(), AllocError>
        requires { vertex < self.old.count }
        ensures members { OnOk result (self.new.members ≡ (if has self.old.members vertex
            then self.old.members else self.old.members ++ vertex ∷ [])) }
        ensures count { self.new.count ≡ self.old.count }
        ensures err { OnErr result (self.new ≡ self.old) }
    {
        if !self.marks[vertex as usize] {
            self.members.push(vertex)?;
            self.marks[vertex as usize] = true;
        }
        Ok(())
    }

    /// Adds all of the vertices of a list. After an error it has those of a front of the list.
    pub fn extend(&mut self, vertices: &[u32]) -> Result<(), AllocError>
        requires { All (λ v. v < self.old.count) vertices.now }
        ensures count { self.new.count ≡ self.old.count }
        ensures extends { OnOk result
            (Extends self.old.members self.new.members vertices.now) }
        ensures err { OnErr result
            ((k : ℕ) × Extends self.old.members self.new.members (take k vertices.now)) }
    {
        for &vertex in vertices {
            self.insert(vertex)?;
        }
        Ok(())
    }

    /// Replaces the members by the vertices of a list that are below the count.
    pub fn fill(&mut self, vertices: &[u32]) -> Result<(), AllocError>
        ensures members { OnOk result
            ((v : ℕ) → v < self.old.count → has self.new.members v ≡ has vertices.now v) }
        ensures count { self.new.count ≡ self.old.count }
    {
        self.clear();
        for vertex in vertices {
            if (*vertex as usize) < self.count() {
                self.insert(*vertex)?;
            }
        }
        Ok(())
    }

    /// Takes all members out.
    pub fn clear(&mut self)
        ensures members { self.new.members ≡ [] }
        ensures count { self.new.count ≡ self.old.count }
    {
        unmark(&mut self.marks, &self.members);
        self.members.clear();
    }
}

// Takes the marks of the members away.
fn unmark(marks: &mut [bool], members: &[u32])
    requires { IsMarked marks.old members.now }
    ensures { IsMarked marks.new [] }
{
    for member in members {
        marks[*member as usize] = false;
    }
}
