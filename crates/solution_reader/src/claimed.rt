ghost use Rattle.std.specs.Prelude.{◌≡◌, ◌↔◌, ◌++◌, IfOk, OnOk, IsTrue, Contains};
ghost use Rattle.std.specs.List.Sorted.{IsStrictlySortedBy, IsStrictlyIncreasing};
ghost use Rattle.solution_reader.specs.Claim.{IsClaim, IsClaimOf, ends_of};
ghost use Rattle.solution_reader.specs.Seen.{whole_from};

use crate::stage::WholePart;
use crate::tree_part::TreePart;
use std::alloc::{AllocError, Global};
use std::marker::Model;

/// What a solution file claims: vertices and edges of a tree, and what it is said to cost.
#[derive(Debug, Drop)]
pub struct Claimed {
    // Ascending, each once, the ends of all edges among them.
    vertices: Vec<u32>,
    edges: Vec<(u32, u32)>,
    // In millionths.
    primal: Option<u128>,
}

impl Model for Claimed {
    ghost use Rattle.solution_reader.specs.Claim.{Claim, IsClaim};

    ghost Value = { Claim };

    ghost view = { λ c. record { vertices = c.vertices.items; edges = c.edges.items; primal = c.primal } };

    ghost invariant = { λ c. IsClaim (record { vertices = c.vertices.items; edges = c.edges.items; primal = c.primal }) };
}

// Sorts the items and drops those that repeat another one.
fn put_in_order<T: Ord + Drop>(items: &mut Vec<T>)
    requires { (x y : T) → IsTrue (T.eq x y) → x ≡ y }
    ensures ascending { IsStrictlySortedBy T.cmp items.new.items }
    ensures same { (x : T) → Contains items.new.items x ↔ Contains items.old.items x }
{
    items.sort_unstable();
    items.dedup();
}

// Adds the ends of edges to a list of vertices.
fn add_ends(vertices: &mut Vec<u32>, edges: &[(u32, u32)]) -> Result<(), AllocError>
    ensures { OnOk result (vertices.new.items ≡ vertices.old.items ++ ends_of edges.now) }
{
    for &(a, b) in edges {
        vertices.push(a)?;
        vertices.push(b)?;
    }
    Ok(())
}

impl Claimed {
    /// The claim of a whole text.
    pub fn of(whole: WholePart) -> Result<Claimed, AllocError>
        ensures { IfOk result (IsClaimOf (whole_from whole)) }
    {
        let primal = whole.primal;
        let TreePart {
            mut vertices,
            edges,
            ..
        } = whole.tree;
        add_ends(&mut vertices, &edges)?;
        put_in_order(&mut vertices);
        Ok(Claimed {
            vertices,
            edges,
            primal,
        })
    }

    /// The vertices of the lines V and the ends of the lines E, ascending, each once.
    pub fn vertices(&self) -> &[u32]
        ensures all { result.now ≡ self.now.vertices }
        ensures claim { IsClaim self.now }
    {
        &self.vertices
    }

    /// The edges of the lines E, in their order.
    pub fn edges(&self) -> &[(u32, u32)]
        ensures all { result.now ≡ self.now.edges }
        ensures claim { IsClaim self.now }
    {
        &self.edges
    }

    /// The cost that the text states, in millionths, if it states one.
    pub fn primal(&self) -> Option<u128>
        ensures { result ≡ self.now.primal }
    {
        self.primal
    }
}
