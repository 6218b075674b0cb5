use std::alloc::{AllocError, Global};

/// A value for each vertex below a count, and a usual one for all others.
#[derive(Drop)]
pub struct ByVertex<T> {
    values: Vec<T>,
    usual: T,
}

impl<T: Copy> ByVertex<T> {
    /// The usual value for each vertex.
    pub fn new(alloc: Global, count: usize, usual: T) -> Result<Self, AllocError> {
        let mut values = Vec::with_capacity(alloc, count)?;
        for _vertex in 0..count {
            values.push(usual)?;
        }
        Ok(ByVertex { values, usual })
    }

    /// The value of a vertex.
    pub fn at(&self, vertex: u32) -> T {
        self.values
            .get(vertex as usize)
            .copied()
            .unwrap_or(self.usual)
    }

    /// Changes the value of a vertex, if it is below the count.
    pub fn put(&mut self, vertex: u32, value: T) {
        if let Some(old) = self.values.get_mut(vertex as usize) {
            *old = value;
        }
    }
}
