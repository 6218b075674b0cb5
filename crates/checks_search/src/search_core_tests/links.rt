//! Splits at links.
use super::notes::{Note, note_of};
use super::{Act, Rows, all_answer, answer, begun, counts, has, triangle};
use branching::Node;
use cut_packing::Packing;
use search_core::{Event, EventFault, Gathered, Search};
use st_model::{Listed, Need, SplitAt};
use std::alloc::{AllocError, Global};
use std::test::Fail;
use test_instances::{pair, triangle_with_centre};

/// The first node is split at a link that is there, its lower end first, and on a full packing.
const SPLIT: Rows = &[
    (0, Act::Take(0), None),
    (0, Act::Claim, None),
    (0, Act::SplitLink(1, 2, 2), Some(EventFault::OutOfTurn)),
    (0, Act::Up, None),
    (0, Act::SplitLink(1, 5, 2), Some(EventFault::BadLink)),
    (0, Act::SplitLink(2, 2, 2), Some(EventFault::BadLink)),
    (0, Act::SplitLink(2, 1, 2), Some(EventFault::BadLink)),
    (0, Act::SplitLink(1, 2, 1), Some(EventFault::BadPacking)),
    (0, Act::SplitLink(1, 2, 2), None),
];

/// Where the link is a must it is split no more, but the vertex is.
const MUST: Rows = &[
    (0, Act::Claim, None),
    (0, Act::Up, None),
    (0, Act::SplitLink(1, 2, 2), Some(EventFault::BadLink)),
    (0, Act::Split(4, 3, 4, 2), None),
];

/// Nor is it where it is barred.
const BARRED: Rows = &[
    (0, Act::Give(2), None),
    (1, Act::Take(2), None),
    (1, Act::Claim, None),
    (1, Act::Up, None),
    (1, Act::SplitLink(1, 2, 2), Some(EventFault::BadLink)),
    (1, Act::Split(4, 5, 6, 2), None),
];

/// All these, with the number of open nodes that are there after each.
const PARTS: &[(Rows, u64)] = &[(SPLIT, 2), (MUST, 3), (BARRED, 4)];

// Whether each is answered so.
fn all_are_answered(alloc: Global, search: &mut Search) -> Result<bool, AllocError> {
    for (rows, opened) in PARTS {
        if !all_answer(alloc, search, rows)? || !has(search, 7, *opened) {
            return Ok(false);
        }
    }
    Ok(true)
}

// Whether they are by two workers on the triangle.
fn no_link_is_split_twice(alloc: Global) -> Result<bool, AllocError> {
    let instance = triangle_with_centre(alloc, 4)?;
    let mut search = begun(alloc, &instance, 2, 9, 7)?;
    all_are_answered(alloc, &mut search)
}

#[test]
fn a_link_is_split_once(rt: HostRuntime) -> Result<(), Fail> {
    assert!(rt; no_link_is_split_twice(rt.alloc())?);
    Ok(())
}

// A split of worker 0 on no cuts.
fn split(alloc: Global, at: SplitAt, inside: u64, outside: u64) -> Event {
    Event::Split {
        w: 0,
        at,
        inside,
        outside,
        packing: Packing {
            root: None,
            cuts: Listed::of(Vec::new(alloc)),
        },
    }
}

/// How many events there are.
const EVENTS: u32 = 8;

// The events that put a vertex outside, one after another; then the half without it is up to be split.
fn event(alloc: Global, vertex: u32, turn: u32) -> Event {
    match turn {
        0 => Event::Take { w: 0, id: 0 },
        1 => Event::Claim { w: 0 },
        2 => Event::Up { w: 0 },
        3 => split(alloc, SplitAt::Vertex(vertex), 1, 2),
        4 => Event::Keep { w: 0, id: 1 },
        5 => Event::Pick { w: 0, id: 2 },
        6 => Event::Claim { w: 0 },
        _ => Event::Up { w: 0 },
    }
}

// Whether the link is refused then, and the other vertex isn't.
fn refuses_the_link(alloc: Global, search: &mut Search, vertex: u32) -> Result<bool, AllocError> {
    for turn in 0..EVENTS {
        if answer(search, event(alloc, vertex, turn))?.is_some() {
            return Ok(false);
        }
    }
    let refused = answer(search, split(alloc, SplitAt::Link(1, 2), 3, 4))?;
    let other = if vertex == 1 { 2 } else { 1 };
    let split = answer(search, split(alloc, SplitAt::Vertex(other), 3, 4))?;
    Ok(refused == Some(EventFault::BadLink) && split.is_none())
}

// Whether it is of two vertices of which neither is required.
fn refuses_without(alloc: Global, vertex: u32) -> Result<bool, AllocError> {
    let instance = pair(alloc, Need::Pays(3), Need::Pays(4))?;
    let mut search = begun(alloc, &instance, 1, 9, 10)?;
    refuses_the_link(alloc, &mut search, vertex)
}

#[test]
fn no_link_is_split_with_an_end_outside(rt: HostRuntime) -> Result<(), Fail> {
    assert!(rt; refuses_without(rt.alloc(), 1)?);
    assert!(rt; refuses_without(rt.alloc(), 2)?);
    Ok(())
}

/// Both halves are left.
const LEFT: Rows = &[(0, Act::Keep(1), None), (0, Act::Keep(2), None)];

// Whether a node has this number, these vertices inside and none outside, and these links as a must and barred.
fn is_half(
    node: &Node,
    id: u64,
    inside: &[u32],
    must: &[(u32, u32)],
    barred: &[(u32, u32)],
) -> bool {
    node.id == id
        && node.branch.inside.as_slice() == inside
        && node.branch.outside.as_slice().is_empty()
        && node.branch.must.as_slice() == must
        && node.branch.barred.as_slice() == barred
}

// Whether what is left are the halves of the first node at the link between 1 and 2.
fn are_halves(left: &[Node]) -> bool {
    match (left.first(), left.get(1)) {
        (Some(must), Some(barred)) => is_half(must, 1, &[1, 2], &[(1, 2)], &[])
            && is_half(barred, 2, &[], &[], &[(1, 2)])
            && left.len() == 2,
        _ => false,
    }
}

// Whether the first worker recorded the split at this link first, and its halves are 1 and 2.
fn is_noted(all: &Gathered, at: SplitAt) -> bool {
    let Some(segment) = all.segments.as_slice().first() else {
        return false;
    };
    let note = Note {
        id: 0,
        halves: Some((at, 1, 2)),
    };
    match segment.done.as_slice().first() {
        Some(done) => note_of(done) == note,
        None => false,
    }
}

// Whether these halves are all that is left by the first worker.
fn are_left(all: &Gathered) -> bool {
    let halved = match all.segments.as_slice().first() {
        Some(segment) => are_halves(segment.left.as_slice()),
        None => false,
    };
    halved && is_noted(all, SplitAt::Link(1, 2)) && counts(all) == Some((1, 2, 0, 1))
}

// Whether a search leaves them.
fn leaves_the_halves(alloc: Global, search: &mut Search) -> Result<bool, AllocError> {
    if !all_answer(alloc, search, SPLIT)? || !all_answer(alloc, search, LEFT)? {
        return Ok(false);
    }
    let all = search.segments()?;
    Ok(are_left(&all))
}

// Whether that of the triangle does.
fn halves_have_their_numbers(alloc: Global) -> Result<bool, AllocError> {
    let mut search = triangle(alloc, 9, 7)?;
    leaves_the_halves(alloc, &mut search)
}

#[test]
fn the_halves_at_a_link_have_their_numbers(rt: HostRuntime) -> Result<(), Fail> {
    assert!(rt; halves_have_their_numbers(rt.alloc())?);
    Ok(())
}

/// Both halves are closed, once a tree of cost 6 was found.
const CLOSED: Rows = &[
    (0, Act::Offer(6), None),
    (0, Act::Claim, None),
    (0, Act::Close(2), None),
    (0, Act::Down, None),
    (0, Act::Pick(2), None),
    (0, Act::Claim, None),
    (0, Act::Close(2), None),
    (0, Act::Down, None),
];

// Whether a search is at its end then.
fn ends(alloc: Global, search: &mut Search) -> Result<bool, AllocError> {
    let happened = all_answer(alloc, search, SPLIT)? && all_answer(alloc, search, CLOSED)?;
    let all = search.segments()?;
    Ok(
        happened
            && has(search, 6, 0)
            && is_noted(&all, SplitAt::Link(1, 2))
            && counts(&all) == Some((3, 0, 0, 3)),
    )
}

// Whether that of the triangle is.
fn both_halves_close(alloc: Global) -> Result<bool, AllocError> {
    let mut search = triangle(alloc, 3, 7)?;
    ends(alloc, &mut search)
}

#[test]
fn a_search_ends_that_splits_at_a_link(rt: HostRuntime) -> Result<(), Fail> {
    assert!(rt; both_halves_close(rt.alloc())?);
    Ok(())
}
