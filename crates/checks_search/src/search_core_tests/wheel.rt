//! A whole search of an odd wheel by two workers.
use super::notes::{Note, cuts_weigh, note_of, packing_of};
use super::{answer, begun, cut, has};
use cut_packing::Packing;
use search_core::{Done, End, Event, EventFault, Gathered, Search, Segment};
use st_model::{Listed, SplitAt};
use std::alloc::{AllocError, Global};
use std::test::Fail;
use test_instances::odd_wheel;

/// The sets of cuts, the vertices that they name, and their values.
type Cuts = &'static [(&'static [u32], u32, u64)];

/// A full packing for all trees: no more than 9 can be packed.
const FOR_ALL: Cuts = &[
    (&[5], 5, 2),
    (&[6], 6, 2),
    (&[7], 7, 2),
    (&[3, 4, 6], 6, 1),
    (&[2, 4, 7], 7, 1),
    (&[2, 3, 5], 5, 1),
];

/// A packing of weight 10 for the trees that reach 2.
const WITH_TWO: Cuts = &[
    (&[7], 7, 2),
    (&[2], 2, 2),
    (&[6], 6, 2),
    (&[3, 4, 6], 6, 2),
    (&[5], 5, 2),
];

/// A packing of weight 10 for those that don't.
const WITHOUT_TWO: Cuts = &[
    (&[7], 7, 2),
    (&[5], 5, 2),
    (&[3, 5], 5, 2),
    (&[6], 6, 2),
    (&[4, 7], 7, 2),
];

// These cuts, for the hub as the root.
fn packed(alloc: Global, cuts: Cuts) -> Result<Packing, AllocError> {
    let mut made = Vec::new(alloc);
    for (set, q, y) in cuts {
        made.push(cut(alloc, set, *q, *y)?)?;
    }
    Ok(Packing {
        root: Some(1),
        cuts: Listed::of(made),
    })
}

// How many events there are.
const EVENTS: u32 = 16;

// The events one after another. Worker 0 finds a tree, splits the first node at 2, and gives one
// half away; both workers close one half each, and see that no node is open.
fn event(alloc: Global, turn: u32) -> Result<Event, AllocError> {
    let event = match turn {
        0 => Event::Take { w: 0, id: 0 },
        1 => Event::Claim { w: 0 },
        2 => Event::Offer { w: 0, value: 10 },
        3 => Event::Up { w: 0 },
        4 => Event::Split {
            w: 0,
            at: SplitAt::Vertex(2),
            inside: 1,
            outside: 2,
            packing: packed(alloc, FOR_ALL)?,
        },
        5 => Event::Give { w: 0, id: 2 },
        6 => Event::See { w: 1 },
        7 => Event::Take { w: 1, id: 2 },
        8 => Event::Claim { w: 1 },
        9 => Event::Claim { w: 0 },
        10 => Event::Close {
            w: 0,
            packing: packed(alloc, WITH_TWO)?,
        },
        11 => Event::Close {
            w: 1,
            packing: packed(alloc, WITHOUT_TWO)?,
        },
        12 => Event::Down { w: 1 },
        13 => Event::Down { w: 0 },
        14 => Event::SeeOpen { w: 0 },
        _ => Event::SeeOpen { w: 1 },
    };
    Ok(event)
}

// Whether all events happen, and the least value and the open nodes are right halfway.
fn all_happen(alloc: Global, search: &mut Search) -> Result<bool, AllocError> {
    for turn in 0..EVENTS {
        if answer(search, event(alloc, turn)?)?.is_some() {
            return Ok(false);
        }
        if turn == 5 && !has(search, 10, 2) {
            return Ok(false);
        }
    }
    Ok(true)
}

// Whether a worker has an empty hand, no close of it waits for its down, and no half is fresh.
fn is_idle(search: &mut Search, w: u32) -> Result<bool, AllocError> {
    for id in 0..3 {
        if answer(search, Event::Pick { w, id })? != Some(EventFault::NotThere) {
            return Ok(false);
        }
    }
    Ok(
        answer(search, Event::Up { w })? == Some(EventFault::HandEmpty)
            && answer(search, Event::Down { w })? == Some(EventFault::OutOfTurn),
    )
}

// Whether these records say so, each close weighing 10 and the split 9.
fn say(done: &[Done], notes: &[Note]) -> bool {
    let mut expected = notes.iter();
    for record in done {
        let note = note_of(record);
        let weight = if note.halves.is_some() { 9 } else { 10 };
        if expected.next() != Some(&note) || cuts_weigh(packing_of(record)) != weight {
            return false;
        }
    }
    expected.next().is_none()
}

// Whether a worker has these records, left nothing, saw 10 last, and ended as no node was open.
fn did(segment: Option<&Segment>, notes: &[Note]) -> bool {
    match segment {
        Some(segment) => {
            say(segment.done.as_slice(), notes)
                && segment.left.as_slice().is_empty()
                && segment.best.is_none()
                && segment.seen == 10
                && matches!(segment.end, End::OpenZero)
        }
        None => false,
    }
}

// Whether each of the three nodes was split or closed once, by the worker that had it.
fn is_complete(all: &Gathered) -> bool {
    let halves = Some((SplitAt::Vertex(2), 1, 2));
    let first = [
        Note { id: 0, halves },
        Note {
            id: 1,
            halves: None,
        },
    ];
    let second = [Note {
        id: 2,
        halves: None,
    }];
    let segments = all.segments.as_slice();
    did(segments.first(), &first)
        && did(segments.get(1), &second)
        && segments.len() == 2
        && all.queued.as_slice().is_empty()
        && all.least == 10
        && all.claimed == 3
}

// The search by two workers, who may claim three nodes.
fn on_wheel(alloc: Global) -> Result<Search, AllocError> {
    let instance = odd_wheel(alloc)?;
    begun(alloc, &instance, 2, 3, 12)
}

// Whether both workers are idle.
fn is_settled(search: &mut Search) -> Result<bool, AllocError> {
    Ok(is_idle(search, 0)? && is_idle(search, 1)?)
}

// Whether what is gathered is complete.
fn gathers_all(search: &Search) -> Result<bool, AllocError> {
    let all = search.segments()?;
    Ok(is_complete(&all))
}

// Whether a search ends settled, with the least cost, and with a record for each of its nodes.
fn ends_settled(alloc: Global, search: &mut Search) -> Result<bool, AllocError> {
    Ok(
        all_happen(alloc, search)?
            && is_settled(search)?
            && has(search, 10, 0)
            && gathers_all(search)?,
    )
}

// Whether that of the wheel does.
fn ends_with_ten(alloc: Global) -> Result<bool, AllocError> {
    let mut search = on_wheel(alloc)?;
    ends_settled(alloc, &mut search)
}

#[test]
fn two_workers_search_an_odd_wheel(rt: HostRuntime) -> Result<(), Fail> {
    assert!(rt; ends_with_ten(rt.alloc())?);
    Ok(())
}
