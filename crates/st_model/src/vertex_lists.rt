ghost use Rattle.std.specs.Prelude.{◌≡◌, ◌<◌, [], ◌∷◌, ◌++◌, length, map, replicate, IfOk, OnOk, OnErr, slice_index_or, slice_set};

use std::alloc::{AllocError, Global};
use std::marker::Model;

/// A list for each vertex below a count.
#[derive(Drop)]
pub struct VertexLists<T> {
    lists: Vec<Vec<T>>,
}

impl<T> Model for VertexLists<T> {
    ghost use Rattle.std.specs.Prelude.{List, map};

    ghost Value = { List (List T) };

    ghost view = { λ l. map (λ list. list.items) l.lists.items };
}

impl<T: Drop> VertexLists<T> {
    /// An empty list for each vertex below a count.
    pub fn new(alloc: Global, count: usize) -> Result<Self, AllocError>
        ensures { IfOk result (λ l. l ≡ replicate count []) }
    {
        let mut lists = Vec::with_capacity(alloc, count)?;
        for _vertex in 0..count {
            lists.push(Vec::new(alloc))?;
        }
        Ok(VertexLists { lists })
    }

    /// How many vertices there are lists for.
    pub fn count(&self) -> usize
        ensures { result ≡ length self.now }
    {
        self.lists.len()
    }

    /// The list of a vertex.
    pub fn at(&self, vertex: u32) -> &[T]
        requires { vertex < length self.now }
        ensures { result.now ≡ slice_index_or self.now vertex [] }
    {
        &self.lists[vertex as usize]
    }

    /// All of the lists, each in a vector.
    pub fn lists(&self) -> &[Vec<T>]
        ensures { map (λ list. list.items) result.now ≡ self.now }
    {
        &self.lists
    }

    /// Adds an item to the list of a vertex.
    pub fn add(&mut self, vertex: u32, item: T) -> Result<(), AllocError>
        requires { vertex < length self.old }
        ensures ok { OnOk result (self.new ≡ slice_set self.old vertex
            (slice_index_or self.old vertex [] ++ item ∷ [])) }
        ensures err { OnErr result (self.new ≡ self.old) }
    {
        self.lists[vertex as usize].push(item)?;
        Ok(())
    }
    /// Replaces the item at a place in the list of a vertex.
    pub fn set(&mut self, vertex: u32, place: usize, item: T)
        requires vertex { vertex < length self.old }
        requires place { place < length (slice_index_or self.old vertex []) }
        ensures { self.new ≡ slice_set self.old vertex
            (slice_set (slice_index_or self.old vertex []) place item) }
    {
        self.lists[vertex as usize][place] = item;
    }
}
