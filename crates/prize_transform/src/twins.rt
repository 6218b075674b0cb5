ghost use Rattle.std.specs.Prelude.{◌≡◌, ℕ, ◌+◌, ◌^◌, ◌++◌, ◌∷◌, [], ◌<◌, ◌≤◌, IsTrue, IfOk, OnOk, length, filter, nat_le, nat_lt, if◌then◌else◌};
ghost use Rattle.st_model.specs.Lists.{has};
ghost use Rattle.st_model.specs.Network.{IsVertex};
ghost use Rattle.prize_transform.specs.Twins.{left_of, is_end, vertex_of, has_end, prized, numbered_from, prize_in, AreTwins, Charges, Returns};

use crate::sets::below;
use bidirected_form::{Arcs, VertexKind};
use std::alloc::{AllocError, Global};
use std::marker::Model;

/// The ends of the vertices that may be left out, and what is left of their prizes.
#[derive(Drop)]
pub struct Twins {
    vertices: u32,
    ends: Vec<(u32, u32)>,
    // What is left for vertex 0, 1, .. n.
    left: Vec<u64>,
}

impl Model for Twins {
    ghost use Rattle.prize_transform.specs.Twins.{Ends, AreTwins};

    ghost Value = { Ends };

    ghost view = { λ t. record { n = t.vertices; ends = t.ends.items; left = t.left.items } };

    ghost invariant = { λ t. AreTwins (record { n = t.vertices; ends = t.ends.items; left = t.left.items }) };
}

impl Twins {
    /// An end for each vertex that may be left out for more than 0, in ascending order of these
    /// vertices and numbered from the last vertex's number on, with the whole prize left.
    pub fn of(alloc: Global, arcs: &Arcs) -> Result<Twins, AllocError>
        ensures count { IfOk result (λ twins. twins.n ≡ arcs.now.n) }
        ensures ends { IfOk result (λ twins. twins.ends ≡ numbered_from (arcs.now.n + 1) (prized arcs.now)) }
        ensures left { IfOk result (λ twins. (v : ℕ) → left_of twins v ≡ prize_in arcs.now v) }
    {
        let vertices = arcs.vertices();
        let mut ends = Vec::new(alloc);
        let mut left = vec![in alloc; 0]?;
        for before in 0..vertices {
            let prize = prize_of(arcs, before + 1);
            push_end(&mut ends, vertices, before + 1, prize)?;
            left.push(prize)?;
        }
        Ok(Twins {
            vertices,
            ends,
            left,
        })
    }

    /// The same ends, with as much left for each.
    pub fn copied(&self, alloc: Global) -> Result<Twins, AllocError>
        ensures { IfOk result (λ copy. copy ≡ self.now) }
    {
        Ok(Twins {
            vertices: self.vertices,
            ends: Vec::from_slice(alloc, &self.ends)?,
            left: Vec::from_slice(alloc, &self.left)?,
        })
    }

    /// Each end with its vertex, ascending.
    pub fn ends(&self) -> &[(u32, u32)]
        ensures all { result.now ≡ self.now.ends }
        ensures twins { AreTwins self.now }
    {
        &self.ends
    }

    /// What is left of a vertex's prize; 0 where it has no end.
    pub fn left(&self, q: u32) -> u64
        ensures { result ≡ left_of self.now q }
    {
        self.left.get(q as usize).copied().unwrap_or(0)
    }

    /// Takes from what is left of a vertex's prize.
    pub fn charge(&mut self, q: u32, y: u64)
        requires end { IsTrue (has_end self.old.ends q) }
        requires enough { y ≤ left_of self.old q }
        ensures { Charges self.old self.new q y }
    {
        self.left[q as usize] -= y;
    }

    /// Gives so much of a vertex's prize back: the reverse of `charge`.
    pub fn give_back(&mut self, q: u32, y: u64)
        requires end { IsTrue (has_end self.old.ends q) }
        requires room { left_of self.old q + y < 2 ^ 64 }
        ensures { Returns self.old self.new q y }
    {
        let left = self.left(q);
        self.left[q as usize] = left + y;
    }

    /// The vertices of a set that holds an end and its vertex, without its ends, and that vertex.
    pub fn back(&self, alloc: Global, set: &[u32], end: u32) -> Result<(Vec<u32>, u32), AllocError>
        requires end { IsTrue (is_end self.now.ends end) }
        requires set { IsTrue (has set.now end) }
        requires vertex { IsTrue (has set.now (vertex_of self.now.ends end)) }
        ensures set { IfOk result (λ back. back.0.items ≡ filter (λ v. nat_le v self.now.n) set.now) }
        ensures vertex { IfOk result (λ back. back.1 ≡ vertex_of self.now.ends end) }
        ensures held { IfOk result (λ back. IsTrue (has back.0.items back.1)) }
    {
        let (_, vertex) = self.ends[(end - self.vertices - 1) as usize];
        Ok((below(alloc, set, self.vertices)?, vertex))
    }
}

// What a vertex may be left out for, or 0 where it may not.
fn prize_of(arcs: &Arcs, vertex: u32) -> u64
    requires { IsVertex arcs.now.n vertex }
    ensures { result ≡ prize_in arcs.now vertex }
{
    match arcs.kind(vertex) {
        VertexKind::May(prize) => prize,
        VertexKind::Outside | VertexKind::Must => 0,
    }
}

// Adds the next end, if the prize of its vertex is above 0.
fn push_end(
    ends: &mut Vec<(u32, u32)>,
    vertices: u32,
    vertex: u32,
    prize: u64,
) -> Result<(), AllocError>
    requires { vertices + length ends.old.items < 2000000 }
    ensures { OnOk result (ends.new.items
        ≡ (if nat_lt 0 prize
        then ends.old.items ++ (vertices + 1 + length ends.old.items, vertex) ∷ [] else ends.old.items)) }
{
    if prize > 0 {
        ends.push((vertices + 1 + ends.len() as u32, vertex))?;
    }
    Ok(())
}
