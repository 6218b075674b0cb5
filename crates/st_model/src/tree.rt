ghost use Rattle.std.specs.Prelude.{◌≡◌, ◌↔◌, IsTrue, IfOk};
ghost use Rattle.st_model.specs.Arborescence.{IsArborescence, IsTree, cost};

use crate::judge::{grows, marks_of, reaches_required};
use crate::{Instance, Listed, Need};
use std::alloc::{AllocError, Global};

/// A tree as a start and arcs (tail, head), each from a vertex that is reached to one that isn't.
#[derive(Debug, Drop)]
pub struct Tree {
    pub start: u32,
    pub arcs: Listed<(u32, u32)>,
}

impl Tree {
    /// The same tree again.
    pub fn copied(&self, alloc: Global) -> Result<Tree, AllocError>
        ensures { IfOk result (λ copy. copy ≡ self.now) }
    {
        let arcs = Vec::from_slice(alloc, self.arcs.as_slice())?;
        Ok(Tree {
            start: self.start,
            arcs: Listed::of(arcs),
        })
    }
}

/// Whether this is a tree of the instance: each arc is a link from a vertex that is reached to one
/// that isn't, and at the end every required vertex is reached.
pub fn is_tree(alloc: Global, instance: &Instance, tree: &Tree) -> Result<bool, AllocError>
    ensures { IfOk result (λ answer. IsTrue answer ↔ IsTree instance.now tree.now) }
{
    let start = tree.start;
    if start == 0 || start > instance.vertices() {
        return Ok(false);
    }
    let mut marks = marks_of(alloc, instance.vertices(), start)?;
    if !grows(instance, tree.arcs.as_slice(), &mut marks) {
        return Ok(false);
    }
    Ok(reaches_required(instance, &marks))
}
