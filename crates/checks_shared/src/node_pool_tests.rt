ghost use Rattle.std.specs.Prelude.{◌≡◌, ◌<◌, ◌≤◌, ⊤, IfOk, length};
ghost use Rattle.node_pool.specs.Pool.{AreAllPasses, SamePass};

use branching::Node;
use cut_packing::{Cut, Packing, SharedSet};
use node_pool::{Pass, Sound, begin, close, passes_stay_a_pool};
use st_model::{Branch, Listed};
use std::alloc::{AllocError, Global};
use std::sync::Wait;
use std::sync::atomic::{AtomicU64, Ordering};
use std::test::Fail;
use std::thread;
use std::thread::Threads;

// Every node is sound.
struct Anything;

impl Sound for Anything {
    ghost use Rattle.std.specs.Prelude.{⊤};

    ghost sound = { λ _. ⊤ };
}

type Passes = Vec<Pass<Anything>>;

// A node with a number that its packing tells too.
fn node(alloc: Global, id: u64) -> Result<Node, AllocError> {
    let cut = Cut {
        set: SharedSet::of(vec![in alloc; 1]?)?,
        q: 1,
        y: id,
    };
    Ok(Node {
        id,
        branch: Branch::all(alloc),
        packing: Packing {
            root: None,
            cuts: Listed::of(vec![in alloc; cut]?),
        },
    })
}

// Whether the node's packing tells its number.
fn is_whole(node: &Node) -> bool {
    match node.packing.cuts.as_slice() {
        [cut] => cut.y == node.id,
        _ => false,
    }
}

fn pool(alloc: Global, workers: u32) -> Result<Passes, AllocError>
    requires { (0 < workers) × (workers ≤ 64) }
    ensures all { IfOk result (λ passes. AreAllPasses passes.items) }
    ensures count { IfOk result (λ passes. length passes.items ≡ workers) }
{
    begin(alloc, workers, node(alloc, 0)?)
}

// Gives a node by the pass at a place: whether it was taken.
fn give_at(passes: &mut Passes, place: usize, node: Node) -> bool
    requires place { place < length passes.old.items }
    requires all { AreAllPasses passes.old.items }
    ensures count { length passes.new.items ≡ length passes.old.items }
    ensures all { AreAllPasses passes.new.items }
{
    passes[place].give(node).is_ok()
}

// The number of the node that the pass at a place takes, if there is one.
fn take_at<R: Wait>(rt: &R, passes: &mut Passes, place: usize) -> Option<u64>
    requires place { place < length passes.old.items }
    requires all { AreAllPasses passes.old.items }
    ensures count { length passes.new.items ≡ length passes.old.items }
    ensures all { AreAllPasses passes.new.items }
{
    Some(passes[place].take(rt)?.id)
}

// What the two passes of a pool take by turns, whether what the first gives is taken, and how many
// nodes are left.
fn handed_over<R: Wait>(
    rt: &R,
    alloc: Global,
) -> Result<([Option<u64>; 3], bool, usize), AllocError> {
    let mut passes = pool(alloc, 2)?;
    let root = take_at(rt, &mut passes, 0);
    let nothing = take_at(rt, &mut passes, 1);
    let given = give_at(&mut passes, 0, node(alloc, 7)?);
    let stolen = take_at(rt, &mut passes, 1);
    let left = close(alloc, passes)?;
    Ok(([root, nothing, stolen], given, left.len()))
}

#[test]
fn a_node_is_handed_over(rt: HostRuntime) -> Result<(), Fail> {
    let (taken, given, left) = handed_over(&rt, rt.alloc())?;
    assert!(rt; taken == [Some(0), None, Some(7)]);
    assert!(rt; given && left == 0);
    Ok(())
}

// Whether these are the nodes 2 and 3, in this order.
fn are_two_and_three(nodes: &[Node]) -> bool {
    match nodes {
        [first, second] => first.id == 2 && second.id == 3,
        _ => false,
    }
}

// Whether three nodes that the first pass gives come after the root in their order, where that pass
// takes first and then the one at a place, and the others are left in order.
fn comes_in_order<R: Wait>(
    rt: &R,
    alloc: Global,
    workers: u32,
    place: usize,
) -> Result<bool, AllocError>
    requires { (place < workers) × (workers ≤ 64) }
{
    let mut passes = pool(alloc, workers)?;
    let one = give_at(&mut passes, 0, node(alloc, 1)?);
    let two = give_at(&mut passes, 0, node(alloc, 2)?);
    let three = give_at(&mut passes, 0, node(alloc, 3)?);
    let first = take_at(rt, &mut passes, 0);
    let second = take_at(rt, &mut passes, place);
    let left = close(alloc, passes)?;
    let given = one && two && three;
    Ok(given && first == Some(0) && second == Some(1) && are_two_and_three(left.as_slice()))
}

#[test]
fn a_queue_is_first_in_first_out(rt: HostRuntime) -> Result<(), Fail> {
    assert!(rt; comes_in_order(&rt, rt.alloc(), 1, 0)?);
    assert!(rt; comes_in_order(&rt, rt.alloc(), 2, 1)?);
    Ok(())
}

// How many of a thousand nodes the first pass gives, how many nodes the second then takes, and how
// many are left.
fn thousand<R: Wait>(rt: &R, alloc: Global, takes: u32) -> Result<(u32, u32, usize), AllocError> {
    let mut passes = pool(alloc, 2)?;
    let mut given = 0u32;
    for id in 1..1001 {
        if give_at(&mut passes, 0, node(alloc, id)?) {
            given = given.saturating_add(1);
        }
    }
    let mut taken = 0u32;
    for _ in 0..takes {
        if take_at(rt, &mut passes, 1).is_some() {
            taken = taken.saturating_add(1);
        }
    }
    Ok((given, taken, close(alloc, passes)?.len()))
}

#[test]
fn the_root_and_a_thousand_nodes_are_stolen(rt: HostRuntime) -> Result<(), Fail> {
    assert!(rt; thousand(&rt, rt.alloc(), 2000)? == (1000, 1001, 0));
    Ok(())
}

#[test]
fn what_nobody_takes_is_left(rt: HostRuntime) -> Result<(), Fail> {
    assert!(rt; thousand(&rt, rt.alloc(), 0)? == (1000, 0, 1001));
    Ok(())
}

// How often each number was taken.
type Marks = Vec<AtomicU64>;

fn marks(alloc: Global, count: u64) -> Result<Marks, AllocError> {
    let mut marks = Vec::new(alloc);
    for _ in 0..count {
        marks.push(AtomicU64::new(0))?;
    }
    Ok(marks)
}

// Marks a node as taken, unless something of it was lost.
fn mark(marks: &Marks, node: &Node) {
    if is_whole(node) {
        if let Some(mark) = marks.get(node.id as usize) {
            mark.fetch_add(1, Ordering::SeqCst);
        }
    }
}

// A worker's work: it gives so many nodes, the first of them with this number, and takes one
// whenever the drawn number says so; `leaves` says that it never takes any.
fn work<R: Wait>(
    rt: &R,
    alloc: Global,
    pass: &mut Pass<Anything>,
    share: (u64, u64),
    leaves: bool,
    marks: &Marks,
)
    ensures { SamePass pass.old pass.new }
{
    let (first, count) = share;
    let mut state = first;
    for k in 0..count {
        if let Ok(node) = node(alloc, first.wrapping_add(k)) {
            let _back = pass.give(node);
        }
        state = state
            .wrapping_mul(6_364_136_223_846_793_005)
            .wrapping_add(1_442_695_040_888_963_407);
        if !leaves && (state >> 33) % 3 != 0 {
            if let Some(node) = pass.take(rt) {
                mark(marks, &node);
            }
        }
    }
}

// Whether each of so many nodes for each of so many workers, and the root, is taken or left just
// once, where each worker gives and takes in a thread of its own, and the second may never take.
fn each_once<R: Threads + Wait + Sync>(
    rt: &R,
    alloc: Global,
    workers: u32,
    count: u64,
    one_leaves: bool,
) -> Result<bool, AllocError>
    requires { (0 < workers) × (workers ≤ 64) }
{
    let mut passes = pool(alloc, workers)?;
    let marks = marks(
        alloc,
        u64::from(workers).saturating_mul(count).saturating_add(1),
    )?;
    thread::for_each_mut(
        rt,
        passes.as_mut_slice(),
        workers as usize,
        &|place, pass: &mut Pass<Anything>|
            ensures { SamePass pass.entry.now pass.exit.now }
        {
            let first = (place as u64).saturating_mul(count).saturating_add(1);
            work(
                rt,
                alloc,
                pass,
                (first, count),
                one_leaves && place == 1,
                &marks,
            );
        },
    );
    passes_stay_a_pool();
    for node in close(alloc, passes)?.iter() {
        mark(&marks, node);
    }
    Ok(marks.iter().all(|mark| mark.load(Ordering::SeqCst) == 1))
}

#[test]
fn four_threads_lose_and_double_no_node(rt: HostRuntime) -> Result<(), Fail> {
    for _ in 0..10 {
        assert!(rt; each_once(&rt, rt.alloc(), 4, 25_000, false)?);
    }
    Ok(())
}

#[test]
fn a_worker_that_never_takes_loses_nothing(rt: HostRuntime) -> Result<(), Fail> {
    assert!(rt; each_once(&rt, rt.alloc(), 2, 2_000, true)?);
    Ok(())
}

#[test]
fn sixty_four_workers_share_a_pool(rt: HostRuntime) -> Result<(), Fail> {
    assert!(rt; each_once(&rt, rt.alloc(), 64, 500, false)?);
    assert!(rt; each_once(&rt, rt.alloc(), 1, 500, false)?);
    Ok(())
}
