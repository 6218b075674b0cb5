ghost use Rattle.std.specs.Prelude.{◌≡◌, ◌+◌, ◌-◌, ◌≤◌, ◌<◌, ◌∷◌, ◌++◌, ℕ, [], All, length, IfOk, map, take, drop};
ghost use Rattle.branching.specs.declared.node.Node.{Node as NodeSpec};
ghost use Rattle.node_pool.specs.Lane.{hand, first_hand};
ghost use Rattle.node_pool.specs.Ends.{queue_of};
ghost use Rattle.node_pool.specs.Pool.{own_queue, all_gave, all_took, AreAllPasses};
ghost use Rattle.node_pool.specs.Sides.{AreSides, AreNewPasses, IsSeat};

use crate::kept::Sound;
use crate::lane::{Owner, Thief};
use crate::pass::Pass;
use branching::Node;
use st_model::Listed;
use std::alloc::{AllocError, Global};

/// The passes of a new pool, one for each of 1 to 64 workers; the root waits in the first one's
/// queue.
pub fn begin<S: Sound>(alloc: Global, workers: u32, root: Node) -> Result<Vec<Pass<S>>, AllocError>
    requires few { (0 < workers) × (workers ≤ 64) }
    requires sound { S.sound root }
    ensures count { IfOk result (λ passes. length passes.items ≡ workers) }
    ensures all { IfOk result (λ passes. AreAllPasses passes.items) }
    ensures root { IfOk result
        (λ passes. (h : NodeSpec → ℕ) → all_gave h passes.items ≡ all_took h passes.items + h root) }
{
    let owners = owners(alloc, workers)?;
    let (owners, sides) = sides(alloc, owners)?;
    rooted(seated(alloc, owners, sides)?, root)
}

// New passes, the first of which gives the root.
fn rooted<S: Sound>(passes: Vec<Pass<S>>, root: Node) -> Result<Vec<Pass<S>>, AllocError>
    requires some { 0 < length passes.items }
    requires new { AreNewPasses (map own_queue passes.items) passes.items }
    requires sound { S.sound root }
    ensures count { IfOk result (λ rooted. length rooted.items ≡ length passes.items) }
    ensures all { IfOk result (λ rooted. AreAllPasses rooted.items) }
    ensures root { IfOk result
        (λ rooted. (h : NodeSpec → ℕ) → all_gave h rooted.items ≡ all_took h rooted.items + h root) }
{
    let mut passes = passes;
    match passes[0].give(root) {
        Ok(()) => Ok(passes),
        Err(_) => Err(AllocError),
    }
}

// So many queues without nodes.
fn owners<S: Sound>(alloc: Global, workers: u32) -> Result<Vec<Owner<S>>, AllocError>
    ensures count { IfOk result (λ all. length all.items ≡ workers) }
    ensures fresh { IfOk result (λ all. All (λ w. w.hand ≡ first_hand) all.items) }
{
    let mut all = Vec::new(alloc);
    for _ in 0..workers {
        all.push(Owner::new(alloc)?)?;
    }
    Ok(all)
}

// As many sides as there are queues, each with an end of each queue.
fn sides<S: Sound>(
    alloc: Global,
    owners: Vec<Owner<S>>,
) -> Result<(Vec<Owner<S>>, Vec<Listed<Thief<S>>>), AllocError>
    requires few { length owners.items ≤ 64 }
    requires fresh { All (λ w. w.hand ≡ first_hand) owners.items }
    ensures owners { IfOk result (λ r. map queue_of r.0.items ≡ map queue_of owners.items) }
    ensures fresh { IfOk result (λ r. All (λ w. w.hand ≡ hand (65 - length owners.items) [] []) r.0.items) }
    ensures count { IfOk result (λ r. length r.1.items ≡ length owners.items) }
    ensures sides { IfOk result (λ r. AreSides (map queue_of owners.items) r.1.items) }
    ensures unused { IfOk result (λ r. All (λ side. All (λ t. t.hand ≡ hand 1 [] []) side) r.1.items) }
{
    let count = owners.len();
    let mut all = owners;
    let mut sides = Vec::new(alloc);
    for made in 0..count {
        let (same, side) = side(alloc, all, 64 - made)?;
        all = same;
        sides.push(Listed::of(side))?;
    }
    Ok((all, sides))
}

// An end of each queue, whose owners keep this many parts.
fn side<S: Sound>(
    alloc: Global,
    owners: Vec<Owner<S>>,
    parts: usize,
) -> Result<(Vec<Owner<S>>, Vec<Thief<S>>), AllocError>
    requires some { 1 ≤ parts }
    requires fresh { All (λ w. w.hand ≡ hand (parts + 1) [] []) owners.items }
    ensures owners { IfOk result (λ r. map queue_of r.0.items ≡ map queue_of owners.items) }
    ensures side { IfOk result (λ r. map queue_of r.1.items ≡ map queue_of owners.items) }
    ensures fresh { IfOk result (λ r. All (λ w. w.hand ≡ hand parts [] []) r.0.items) }
    ensures unused { IfOk result (λ r. All (λ t. t.hand ≡ hand 1 [] []) r.1.items) }
{
    let mut all = Vec::new(alloc);
    let mut ends = Vec::new(alloc);
    for mut owner in owners {
        ends.push(owner.thief()?)?;
        all.push(owner)?;
    }
    Ok((all, ends))
}

// The passes of these queues and sides. Each queue takes in the end of its own side.
fn seated<S: Sound>(
    alloc: Global,
    owners: Vec<Owner<S>>,
    sides: Vec<Listed<Thief<S>>>,
) -> Result<Vec<Pass<S>>, AllocError>
    requires few { length owners.items ≤ 64 }
    requires fresh { All (λ w. w.hand ≡ hand (65 - length owners.items) [] []) owners.items }
    requires count { length sides.items ≡ length owners.items }
    requires sides { AreSides (map queue_of owners.items) sides.items }
    requires unused { All (λ side. All (λ t. t.hand ≡ hand 1 [] []) side) sides.items }
    ensures { IfOk result (λ passes. AreNewPasses (map queue_of owners.items) passes.items) }
{
    let mut passes = Vec::new(alloc);
    let mut sides = sides.into_iter();
    for owner in owners {
        let Some(side) = sides.next() else {
            return Err(AllocError);
        };
        let place = passes.len();
        passes.push(seat(alloc, owner, side.into_vec(), place))?;
    }
    Ok(passes)
}

// The pass of this queue, and of these ends of all queues, among which its own is at this place.
fn seat<S: Sound>(alloc: Global, own: Owner<S>, ends: Vec<Thief<S>>, place: usize) -> Pass<S>
    requires { IsSeat place own ends.items }
    ensures own { (result.own.queue ≡ own.queue) × (result.own.hand ≡ hand (66 - length ends.items) [] []) }
    ensures others { result.others ≡ take place ends.items ++ drop (place + 1) ends.items }
    ensures list { result.list ≡ [] }
{
    let mut own = own;
    let mut others = ends;
    let mine = others.remove(place);
    own.take_in(mine);
    Pass::of(alloc, own, others)
}
