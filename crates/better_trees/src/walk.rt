ghost use Rattle.std.specs.Prelude.{IfOk, IfSome};
ghost use Rattle.better_trees.specs.Better.{IsTreeAt};

use crate::narrowing::narrowed;
use crate::place::Place;
use local_search::{judged, wander};
use st_model::{Instance, Sides, Tree, VertexSet};
use std::alloc::{AllocError, Global};

// How many steps a walk has.
const STEPS: u64 = 6;

/// A walk from a tree over others that cost the same, among some vertices.
#[derive(Drop)]
pub struct Walk {
    from: Tree,
    among: VertexSet,
}

impl Walk {
    /// From a tree of an instance, among its vertices and others that are near.
    pub fn of(
        alloc: Global,
        instance: &Instance,
        tree: &Tree,
        near: &[u32],
    ) -> Result<Walk, AllocError> {
        let mut among = Vec::from_slice(alloc, near)?;
        among.push(tree.start)?;
        for (_, head) in tree.arcs.as_slice() {
            among.push(*head)?;
        }
        Ok(Walk {
            from: tree.copied(alloc)?,
            among: VertexSet::of(alloc, instance.vertices() as usize + 1, &among)?,
        })
    }

    /// The tree that the walk comes to, if it begins at one that reaches what the branch says; so does this.
    pub fn end(
        &self,
        alloc: Global,
        place: &Place<'_>,
        seed: u64,
    ) -> Result<Option<Tree>, AllocError>
        ensures { IfOk result (λ tree. IfSome tree (IsTreeAt place.now)) }
    {
        let part = narrowed(alloc, &place.whole.instance, place.branch, &self.among)?;
        let part = Sides::of(alloc, part)?;
        let among = Place {
            whole: place.whole,
            branch: &part,
        };
        let tree = end_of_walk(alloc, &among, &self.from, seed, STEPS)?;
        Ok(tree)
    }
}

/// The tree that a walk of so many steps comes to, if it begins at one that reaches what the branch says; so
/// does this.
pub fn end_of_walk(
    alloc: Global,
    place: &Place<'_>,
    from: &Tree,
    seed: u64,
    steps: u64,
) -> Result<Option<Tree>, AllocError>
    ensures { IfOk result (λ tree. IfSome tree (IsTreeAt place.now)) }
{
    let from = from.copied(alloc)?;
    let Some(tree) = judged(alloc, &place.whole.instance, place.branch, from)? else {
        return Ok(None);
    };
    let end = wander(alloc, place.whole, place.branch, tree, seed, steps)?;
    Ok(Some(end))
}
