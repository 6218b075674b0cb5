//! Drawn events, of which some have a fault, beside a plain book.
use super::book::Book;
use super::draft::Draft;
use super::ground::Ground;
use super::{answer, begun};
use search_core::Search;
use st_model::Instance;
use std::alloc::{AllocError, Global};
use std::test::Fail;
use test_instances::Draws;

/// The cost that each search starts with.
const START: u64 = 20;

/// How many events are drawn.
const EVENTS: u64 = 200;

// Whether an event is answered as the book says.
fn answers_as(
    alloc: Global,
    search: &mut Search,
    book: &Book,
    draft: &Draft,
) -> Result<bool, AllocError> {
    let expected = book.fault(draft);
    Ok(answer(search, draft.event(alloc))? == expected)
}

// Whether the search tells what stands in the book.
fn agree(search: &Search, book: &Book) -> Result<bool, AllocError> {
    let all = search.segments()?;
    let same = search.least() == book.least && search.open_count() == book.opened;
    Ok(same && book.agrees_with(&all))
}

// Whether each of the drawn events does what the book says.
fn all_agree(
    alloc: Global,
    search: &mut Search,
    book: &mut Book,
    draws: &mut Draws,
) -> Result<bool, AllocError> {
    for _ in 0..EVENTS {
        let draft = book.drawn(draws);
        if !answers_as(alloc, search, book, &draft)? {
            return Ok(false);
        }
        book.note(&draft)?;
        if !agree(search, book)? {
            return Ok(false);
        }
    }
    Ok(true)
}

// Whether they all do, and many of them happen, but not all.
fn follows(
    alloc: Global,
    search: &mut Search,
    book: &mut Book,
    draws: &mut Draws,
) -> Result<bool, AllocError> {
    let agree = all_agree(alloc, search, book, draws)?;
    let is_busy = book.entries.len() > 8 && book.happened > EVENTS / 2;
    Ok(agree && is_busy && book.happened < EVENTS)
}

// The same of a search that begins on a ground, and a book of it.
fn is_followed_on(
    alloc: Global,
    ground: Ground,
    instance: &Instance,
    workers: u32,
    budget: u64,
    draws: &mut Draws,
) -> Result<bool, AllocError> {
    let mut book = Book::begin(alloc, ground, workers, budget, START)?;
    let mut search = begun(alloc, instance, workers, budget, START)?;
    follows(alloc, &mut search, &mut book, draws)
}

// The same on a drawn ground.
fn is_followed(alloc: Global, workers: u32, budget: u64, state: u64) -> Result<bool, AllocError> {
    let mut draws = Draws { state };
    let (ground, instance) = Ground::drawn(alloc, &mut draws)?;
    is_followed_on(alloc, ground, &instance, workers, budget, &mut draws)
}

/// The workers, the budget, and what is drawn from.
const ROWS: &[(u32, u64, u64)] = &[
    (1, 100, 18),
    (1, 6, 7),
    (2, 100, 10),
    (2, 8, 18),
    (3, 100, 7),
    (3, 14, 18),
    (4, 100, 24),
    (4, 14, 3),
];

#[test]
fn drawn_events_do_what_lists_say(rt: HostRuntime) -> Result<(), Fail> {
    for (workers, budget, state) in ROWS {
        assert!(rt;
            is_followed(rt.alloc(), *workers, *budget, *state)?,
            "by {workers} workers from {state}"
        );
    }
    Ok(())
}
