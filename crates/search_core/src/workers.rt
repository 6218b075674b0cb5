ghost use Rattle.std.specs.Prelude.{◌≡◌, ◌+◌, ◌-◌, ◌<◌, ◌≤◌, ◌^◌, ◌++◌, ◌∷◌, [], ◌==◌, true, false, Some, None, find, min, length, slice_index_or, OnOk, OnErr};
ghost use Rattle.search_core.specs.State.{changed_at, has_id};
ghost use Rattle.search_core.specs.Effects.{put_down};

use crate::nodes::Nodes;
use crate::{Done, End, Made, Worker};
use std::alloc::AllocError;

/// A worker has this in its hand.
pub fn hold(workers: &mut Vec<Worker>, w: u32, id: Option<u64>)
    requires { w < length workers.old.items }
    ensures { workers.new.items ≡ changed_at workers.old.items w (λ x. record x { hand = id }) }
{
    workers[w as usize].hand = id;
}

/// A worker puts down a node, if it holds it.
pub fn put_down(workers: &mut Vec<Worker>, w: u32, id: u64)
    requires { w < length workers.old.items }
    ensures { workers.new.items ≡ changed_at workers.old.items w (λ x. record x { hand = put_down x.hand id }) }
{
    let worker = &mut workers[w as usize];
    worker.hand = without(worker.hand, id);
}

// A hand without an id.
fn without(hand: Option<u64>, id: u64) -> Option<u64>
    ensures { result ≡ put_down hand id }
{
    match hand {
        Some(held) if held == id => None,
        hand => hand,
    }
}

/// The claim of a worker is refused.
pub fn refuse(workers: &mut Vec<Worker>, w: u32)
    requires { w < length workers.old.items }
    ensures { workers.new.items
        ≡ changed_at workers.old.items w (λ x. record x { refused = true; end = End.ClaimRefused }) }
{
    let worker = &mut workers[w as usize];
    worker.refused = true;
    worker.end = End::ClaimRefused;
}

/// A worker sees a value.
pub fn see(workers: &mut Vec<Worker>, w: u32, value: u64)
    requires { w < length workers.old.items }
    ensures { workers.new.items ≡ changed_at workers.old.items w (λ x. record x { seen = value }) }
{
    workers[w as usize].seen = value;
}

/// A worker offers a value, and sees the least.
pub fn offer(workers: &mut Vec<Worker>, w: u32, value: u64, least: u64)
    requires { w < length workers.old.items }
    ensures { workers.new.items
        ≡ changed_at workers.old.items w (λ x. record x { seen = least; offered = min x.offered value }) }
{
    let worker = &mut workers[w as usize];
    worker.seen = least;
    worker.offered = worker.offered.min(value);
}

/// An up of a worker waits for its split.
pub fn await_split(workers: &mut Vec<Worker>, w: u32)
    requires { w < length workers.old.items }
    ensures { workers.new.items ≡ changed_at workers.old.items w (λ x. record x { up = true }) }
{
    workers[w as usize].up = true;
}

/// A close of a worker waits no more.
pub fn come_down(workers: &mut Vec<Worker>, w: u32)
    requires { w < length workers.old.items }
    ensures { workers.new.items ≡ changed_at workers.old.items w (λ x. record x { closes = x.closes - 1 }) }
{
    let worker = &mut workers[w as usize];
    worker.closes = worker.closes.saturating_sub(1);
}

/// A worker ends for a reason.
pub fn end(workers: &mut Vec<Worker>, w: u32, why: End)
    requires { w < length workers.old.items }
    ensures { workers.new.items ≡ changed_at workers.old.items w (λ x. record x { end = why }) }
{
    workers[w as usize].end = why;
}

/// A worker closes the node in its hand: that is recorded, and the close waits for its down.
pub fn close(workers: &mut Vec<Worker>, w: u32, done: Done) -> Result<(), AllocError>
    requires worker { w < length workers.old.items }
    requires room { (d : Worker) → (slice_index_or workers.old.items w d).closes + 1 < 2 ^ 64 }
    ensures ok { OnOk result (workers.new.items ≡ changed_at workers.old.items w
        (λ x. record x { hand = None; closes = x.closes + 1; done = x.done ++ done ∷ [] })) }
    ensures err { OnErr result (workers.new.items ≡ workers.old.items) }
{
    let worker = &mut workers[w as usize];
    worker.done.push(done)?;
    worker.closes += 1;
    worker.hand = None;
    Ok(())
}

/// A worker splits the node in its hand: that is recorded, the halves join the nodes, and it has
/// the half that says yes in its hand.
pub fn split(
    workers: &mut Vec<Worker>,
    nodes: &mut Nodes,
    w: u32,
    done: Done,
    inside: Made,
    outside: Made,
) -> Result<(), AllocError>
    requires worker { w < length workers.old.items }
    requires apart { (inside.node.id == outside.node.id) ≡ false }
    requires inside { find (has_id inside.node.id) nodes.old ≡ None }
    requires outside { find (has_id outside.node.id) nodes.old ≡ None }
    ensures nodes { OnOk result (nodes.new ≡ nodes.old ++ inside ∷ outside ∷ []) }
    ensures workers { OnOk result (workers.new.items ≡ changed_at workers.old.items w
        (λ x. record x { hand = Some inside.node.id; up = false; done = x.done ++ done ∷ [] })) }
    ensures err_nodes { OnErr result (nodes.new ≡ nodes.old) }
    ensures err_workers { OnErr result (workers.new.items ≡ workers.old.items) }
{
    let id = inside.node.id;
    let worker = &mut workers[w as usize];
    worker.done.push(done)?;
    if let Err(error) = nodes.add_both(inside, outside) {
        worker.done.forget();
        return Err(error);
    }
    worker.hand = Some(id);
    worker.up = false;
    Ok(())
}
