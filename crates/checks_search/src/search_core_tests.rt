use cut_packing::{Cut, Packing, SharedSet};
use search_core::{Done, Event, EventFault, Gathered, Search, StepError};
use st_model::{Branch, Instance, Listed, SplitAt};
use std::alloc::{AllocError, Global};
use std::test::Fail;
use test_instances::triangle_with_centre;

mod agreeing;
mod book;
mod draft;
mod drawing;
mod drawn;
mod going_on;
mod ground;
mod links;
mod notes;
mod wheel;

// What a step answers: its fault, or none.
fn answer(search: &mut Search, event: Event) -> Result<Option<EventFault>, AllocError> {
    match search.step(event) {
        Ok(()) => Ok(None),
        Err(StepError::Event(fault)) => Ok(Some(fault)),
        Err(StepError::NoMemory) => Err(AllocError),
    }
}

fn cut(alloc: Global, set: &[u32], q: u32, y: u64) -> Result<Cut, AllocError> {
    Ok(Cut {
        set: SharedSet::of(Vec::from_slice(alloc, set)?)?,
        q,
        y,
    })
}

// The packing of the triangle's proof, its first cut with a value of its own: with 2 it is full.
fn packing(alloc: Global, first: u64) -> Result<Packing, AllocError> {
    let cuts = vec![in alloc;
        cut(alloc, &[2], 2, first)?,
        cut(alloc, &[3], 3, 2)?,
        cut(alloc, &[2, 3, 4], 2, 2)?,
    ]?;
    Ok(Packing {
        root: Some(1),
        cuts: Listed::of(cuts),
    })
}

// What a worker of the triangle does, in numbers: a close says what the first cut's value is, and a split at which
// vertex it is, which numbers the halves get, and that value; at a link they get 1 and 2.
#[derive(Clone, Copy)]
enum Act {
    Take(u64),
    Pick(u64),
    Give(u64),
    Claim,
    See,
    Offer(u64),
    Up,
    Split(u32, u64, u64, u64),
    SplitLink(u32, u32, u64),
    Close(u64),
    Down,
    Halt,
    Keep(u64),
}

// The event of it.
fn event(alloc: Global, w: u32, act: Act) -> Result<Event, AllocError> {
    Ok(match act {
        Act::Take(id) => Event::Take { w, id },
        Act::Pick(id) => Event::Pick { w, id },
        Act::Give(id) => Event::Give { w, id },
        Act::Claim => Event::Claim { w },
        Act::See => Event::See { w },
        Act::Offer(value) => Event::Offer { w, value },
        Act::Up => Event::Up { w },
        Act::Split(v, inside, outside, first) => Event::Split {
            w,
            at: SplitAt::Vertex(v),
            inside,
            outside,
            packing: packing(alloc, first)?,
        },
        Act::SplitLink(a, b, first) => Event::Split {
            w,
            at: SplitAt::Link(a, b),
            inside: 1,
            outside: 2,
            packing: packing(alloc, first)?,
        },
        Act::Close(first) => Event::Close {
            w,
            packing: packing(alloc, first)?,
        },
        Act::Down => Event::Down { w },
        Act::Halt => Event::Halt { w },
        Act::Keep(id) => Event::Keep { w, id },
    })
}

// What the workers do one after another, and the fault that it has to have, if any.
type Rows = &'static [(u32, Act, Option<EventFault>)];

// Whether each has its fault.
fn all_answer(alloc: Global, search: &mut Search, rows: Rows) -> Result<bool, AllocError> {
    for (w, act, fault) in rows {
        if answer(search, event(alloc, *w, *act)?)? != *fault {
            return Ok(false);
        }
    }
    Ok(true)
}

// Whether the least value and the number of open nodes are these.
fn has(search: &Search, least: u64, opened: u64) -> bool {
    search.least() == least && search.open_count() == opened
}

// A search for all trees, before any event.
fn begun(
    alloc: Global,
    instance: &Instance,
    workers: u32,
    budget: u64,
    start: u64,
) -> Result<Search, AllocError> {
    Search::begin(alloc, instance, &Branch::all(alloc), workers, budget, start)
}

// The search on the triangle with its centre, of one worker.
fn triangle(alloc: Global, budget: u64, start: u64) -> Result<Search, AllocError> {
    let instance = triangle_with_centre(alloc, 4)?;
    begun(alloc, &instance, 1, budget, start)
}

// How many records there are, nodes left, nodes in queues, and claims.
fn counts(all: &Gathered) -> Option<(usize, usize, usize, u64)> {
    let segment = all.segments.as_slice().first()?;
    let done = segment.done.as_slice().len();
    let left = segment.left.as_slice().len();
    Some((done, left, all.queued.as_slice().len(), all.claimed))
}

// Whether all that was done is one close.
fn is_a_close(all: &Gathered) -> bool {
    let closed = match all.segments.as_slice().first() {
        Some(segment) => match segment.done.as_slice().first() {
            Some(Done::Close { id, .. }) => *id == 0,
            _ => false,
        },
        None => false,
    };
    closed && counts(all) == Some((1, 0, 0, 1))
}

// The root is closed on the spot.
const CLOSING: Rows = &[
    (0, Act::Close(2), Some(EventFault::HandEmpty)),
    (0, Act::Take(0), None),
    (0, Act::Claim, None),
    (0, Act::Close(2), None),
    (0, Act::Down, None),
];

// Whether all that is done in a search is that.
fn closes(alloc: Global, search: &mut Search) -> Result<bool, AllocError> {
    if !all_answer(alloc, search, CLOSING)? || !has(search, 6, 0) {
        return Ok(false);
    }
    let all = search.segments()?;
    Ok(is_a_close(&all))
}

// Whether the root of the triangle is closed on the spot.
fn closes_the_root(alloc: Global) -> Result<bool, AllocError> {
    let mut search = triangle(alloc, 1, 6)?;
    closes(alloc, &mut search)
}

#[test]
fn one_packing_closes_the_triangle(rt: HostRuntime) -> Result<(), Fail> {
    assert!(rt; closes_the_root(rt.alloc())?);
    Ok(())
}

// Each event is refused that needs a node elsewhere, before anything was taken.
const WITHOUT_A_NODE: Rows = &[
    (1, Act::See, Some(EventFault::NoWorker)),
    (1, Act::Take(0), Some(EventFault::NoWorker)),
    (0, Act::Take(5), Some(EventFault::NotThere)),
    (0, Act::Pick(0), Some(EventFault::NotThere)),
    (0, Act::Give(0), Some(EventFault::NotThere)),
    (0, Act::Keep(0), Some(EventFault::NotThere)),
    (0, Act::Claim, Some(EventFault::HandEmpty)),
    (0, Act::Up, Some(EventFault::HandEmpty)),
    (0, Act::Split(4, 1, 2, 2), Some(EventFault::HandEmpty)),
    (0, Act::Down, Some(EventFault::OutOfTurn)),
    (0, Act::Halt, Some(EventFault::NotRefused)),
];

// A node in hand is claimed once, and can't be closed before. Then it is to be split.
const CLAIMED_ONCE: Rows = &[
    (0, Act::Take(0), None),
    (0, Act::Take(0), Some(EventFault::HandFull)),
    (0, Act::Pick(0), Some(EventFault::HandFull)),
    (0, Act::Up, Some(EventFault::NotClaimed)),
    (0, Act::Close(2), Some(EventFault::NotClaimed)),
    (0, Act::Split(4, 1, 2, 2), Some(EventFault::OutOfTurn)),
    (0, Act::Claim, None),
    (0, Act::Claim, Some(EventFault::IsClaimed)),
    (0, Act::Keep(0), Some(EventFault::IsClaimed)),
    (0, Act::Close(3), Some(EventFault::BadPacking)),
    (0, Act::Close(2), Some(EventFault::TooLight)),
    (0, Act::Up, None),
];

// It is split after an up, at its centre alone, and on a full packing.
const SPLIT_ONCE: Rows = &[
    (0, Act::Up, Some(EventFault::OutOfTurn)),
    (0, Act::Close(2), Some(EventFault::OutOfTurn)),
    (0, Act::Split(1, 1, 2, 2), Some(EventFault::BadVertex)),
    (0, Act::Split(5, 1, 2, 2), Some(EventFault::BadVertex)),
    (0, Act::SplitLink(1, 5, 2), Some(EventFault::BadLink)),
    (0, Act::Split(4, 1, 1, 2), Some(EventFault::UsedId)),
    (0, Act::Split(4, 1, 0, 2), Some(EventFault::UsedId)),
    (0, Act::Split(4, 1, 2, 1), Some(EventFault::BadPacking)),
    (0, Act::Split(4, 1, 2, 2), None),
];

// The half inside is claimed, and a value offered.
const OFFERED: Rows = &[(0, Act::Claim, None), (0, Act::Offer(6), None)];

// The half inside is closed, and the other is left where its claim is refused.
const LEFT: Rows = &[
    (0, Act::Close(2), None),
    (0, Act::Pick(2), None),
    (0, Act::Claim, None),
    (0, Act::Claim, Some(EventFault::WasRefused)),
    (0, Act::Halt, None),
    (0, Act::Keep(2), None),
    (0, Act::Down, None),
];

// All these, with the least value and the number of open nodes that are there after each.
const PARTS: &[(Rows, u64, u64)] = &[
    (WITHOUT_A_NODE, 7, 1),
    (CLAIMED_ONCE, 7, 2),
    (SPLIT_ONCE, 7, 2),
    (OFFERED, 6, 2),
    (LEFT, 6, 1),
];

// Whether each fault comes in its order in a search, and what was done and left is told.
fn faults_come(alloc: Global, search: &mut Search) -> Result<bool, AllocError> {
    for (rows, least, opened) in PARTS {
        if !all_answer(alloc, search, rows)? || !has(search, *least, *opened) {
            return Ok(false);
        }
    }
    let all = search.segments()?;
    Ok(counts(&all) == Some((2, 1, 0, 2)))
}

// Whether they do on the triangle.
fn faults_come_in_order(alloc: Global) -> Result<bool, AllocError> {
    let mut search = triangle(alloc, 2, 7)?;
    faults_come(alloc, &mut search)
}

#[test]
fn each_need_is_tested(rt: HostRuntime) -> Result<(), Fail> {
    assert!(rt; faults_come_in_order(rt.alloc())?);
    Ok(())
}
