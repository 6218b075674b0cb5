ghost use Rattle.std.specs.Prelude.{◌≡◌, ◌+◌, ◌-◌, ◌≤◌, ◌<◌, ℕ, All, length, IfOk, OnOk, map, flat_map, []};
ghost use Rattle.std.specs.List.{sum_by};
ghost use Rattle.branching.specs.declared.node.Node.{Node as NodeSpec};
ghost use Rattle.node_pool.specs.Ends.{queue_of, put_by, rest_of};
ghost use Rattle.node_pool.specs.Pool.{gave, took, puts, takes, queues_at, own_put, list_of, all_gave, all_took, AreAllPasses, IsLeftOf};
ghost use Rattle.node_pool.specs.Sides.{rejoined, all_puts, all_takes, AreSides};

use crate::kept::{Kept, Sound};
use crate::lane::{Owner, Thief};
use crate::pass::Pass;
use branching::Node;
use st_model::Listed;
use std::alloc::{AllocError, Global};
use std::collections::VecDeque;

/// The nodes that are left in a pool, all passes of which are handed back: however nodes are
/// weighed, what all passes gave weighs what they took and what is left. These are the nodes of each
/// pass's list, and then, of each queue, the last of what was put there. Each is sound. After want of
/// memory the nodes are gone.
pub fn close<S: Sound>(alloc: Global, passes: Vec<Pass<S>>) -> Result<Vec<Node>, AllocError>
    requires { AreAllPasses passes.items }
    ensures left { IfOk result (λ left. (h : NodeSpec → ℕ)
        → all_gave h passes.items ≡ all_took h passes.items + sum_by h left.items) }
    ensures order { IfOk result (λ left. IsLeftOf passes.items left.items) }
    ensures sound { IfOk result (λ left. All (λ node. S.sound node) left.items) }
{
    let parts = taken_apart(alloc, passes)?;
    let mut left = parts.left;
    let owners = rejoin_all(alloc, parts.owners, parts.sides)?;
    let mut more = drain_all(alloc, owners)?;
    left.append(&mut more)?;
    Ok(left)
}

// Passes taken apart: the queues, each pass's ends of all queues, and what stood in their lists.
#[derive(Drop)]
struct Parts<S: Sound> {
    owners: Vec<Owner<S>>,
    sides: Vec<Listed<Thief<S>>>,
    left: Vec<Node>,
}

fn taken_apart<S: Sound>(alloc: Global, passes: Vec<Pass<S>>) -> Result<Parts<S>, AllocError>
    requires { AreAllPasses passes.items }
    ensures sides { IfOk result (λ p. AreSides (map queue_of p.owners.items) p.sides.items) }
    ensures whole { IfOk result (λ p. All (λ o. o.hand.parts + length p.sides.items ≡ 65) p.owners.items) }
    ensures gave { IfOk result (λ p. (h : NodeSpec → ℕ)
        → puts h p.owners.items + all_puts h p.sides.items + sum_by h p.left.items ≡ all_gave h passes.items) }
    ensures took { IfOk result (λ p. (h : NodeSpec → ℕ)
        → takes h p.owners.items + all_takes h p.sides.items ≡ all_took h passes.items) }
    ensures put { IfOk result (λ p. map put_by p.owners.items ≡ map own_put passes.items) }
    ensures lists { IfOk result (λ p. p.left.items ≡ flat_map list_of passes.items) }
    ensures sound { IfOk result (λ p. All (λ node. S.sound node) p.left.items) }
{
    let mut owners = Vec::new(alloc);
    let mut sides = Vec::new(alloc);
    let mut left = Vec::new(alloc);
    for pass in passes {
        let place = owners.len();
        let (owner, side, mut kept) = unseat(alloc, pass, place)?;
        owners.push(owner)?;
        sides.push(Listed::of(side))?;
        left.append(&mut kept)?;
    }
    Ok(Parts {
        owners,
        sides,
        left,
    })
}

// A pass's queue, its ends of all queues, its own at this place, and what stood in its list.
fn unseat<S: Sound>(
    alloc: Global,
    pass: Pass<S>,
    place: usize,
) -> Result<(Owner<S>, Vec<Thief<S>>, Vec<Node>), AllocError>
    requires { place ≤ length pass.others }
    ensures own { IfOk result (λ r. r.0.queue ≡ pass.own.queue) }
    ensures side { IfOk result (λ r. map queue_of r.1.items ≡ queues_at place pass) }
    ensures parts { IfOk result (λ r. r.0.hand.parts + length r.1.items ≡ 65) }
    ensures gave { IfOk result (λ r. (h : NodeSpec → ℕ)
        → sum_by h r.0.hand.put + puts h r.1.items + sum_by h r.2.items ≡ gave h pass) }
    ensures took { IfOk result (λ r. (h : NodeSpec → ℕ) → sum_by h r.0.hand.taken + takes h r.1.items ≡ took h pass) }
    ensures put { IfOk result (λ r. (r.0.hand.put ≡ pass.own.hand.put) × (r.2.items ≡ pass.list)) }
    ensures sound { IfOk result (λ r. All (λ node. S.sound node) r.2.items) }
{
    let Pass {
        mut own,
        mut others,
        list,
    } = pass;
    let end = own.thief()?;
    others.insert(place, end)?;
    Ok((own, others, nodes(alloc, list)?))
}

// The nodes of a list.
fn nodes<S: Sound>(alloc: Global, list: VecDeque<Kept<S>>) -> Result<Vec<Node>, AllocError>
    ensures same { IfOk result (λ nodes. nodes.items ≡ list.items) }
    ensures sound { IfOk result (λ nodes. All (λ node. S.sound node) nodes.items) }
{
    let mut nodes = Vec::with_capacity(alloc, list.len())?;
    for kept in list {
        nodes.push(kept.into_node())?;
    }
    Ok(nodes)
}

// The queues, each of which took in its end of a side.
fn rejoin<S: Sound>(
    alloc: Global,
    owners: Vec<Owner<S>>,
    side: Vec<Thief<S>>,
) -> Result<Vec<Owner<S>>, AllocError>
    requires { map queue_of side.items ≡ map queue_of owners.items }
    ensures all { IfOk result (λ all. all.items ≡ rejoined owners.items side.items) }
    ensures ones { OnOk result (All (λ t. (t.hand.parts ≡ 1) × (t.hand.put ≡ [])) side.items) }
{
    let mut all = Vec::new(alloc);
    let mut ends = side.into_iter();
    for mut owner in owners {
        let Some(end) = ends.next() else {
            return Err(AllocError);
        };
        owner.take_in(end);
        all.push(owner)?;
    }
    Ok(all)
}

// The queues, each of which took in its ends of all sides.
fn rejoin_all<S: Sound>(
    alloc: Global,
    owners: Vec<Owner<S>>,
    sides: Vec<Listed<Thief<S>>>,
) -> Result<Vec<Owner<S>>, AllocError>
    requires sides { AreSides (map queue_of owners.items) sides.items }
    requires whole { All (λ o. o.hand.parts + length sides.items ≡ 65) owners.items }
    ensures whole { IfOk result (λ all. All (λ o. o.hand.parts ≡ 65) all.items) }
    ensures puts { IfOk result (λ all. (h : NodeSpec → ℕ)
        → puts h all.items ≡ puts h owners.items + all_puts h sides.items) }
    ensures takes { IfOk result (λ all. (h : NodeSpec → ℕ)
        → takes h all.items ≡ takes h owners.items + all_takes h sides.items) }
    ensures put { IfOk result (λ all. map put_by all.items ≡ map put_by owners.items) }
{
    let mut all = owners;
    for side in sides {
        all = rejoin(alloc, all, side.into_vec())?;
    }
    Ok(all)
}

// The nodes that are left in queues whose owners have every part.
fn drain_all<S: Sound>(alloc: Global, owners: Vec<Owner<S>>) -> Result<Vec<Node>, AllocError>
    requires { All (λ o. o.hand.parts ≡ 65) owners.items }
    ensures left { IfOk result (λ left. (h : NodeSpec → ℕ)
        → puts h owners.items ≡ takes h owners.items + sum_by h left.items) }
    ensures last { IfOk result (λ left. left.items ≡ flat_map rest_of owners.items) }
    ensures sound { IfOk result (λ left. All (λ node. S.sound node) left.items) }
{
    let mut left = Vec::new(alloc);
    for mut owner in owners {
        let mut more = owner.drain(alloc)?;
        left.append(&mut more)?;
    }
    Ok(left)
}
