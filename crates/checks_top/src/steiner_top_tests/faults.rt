use super::checks::have_names;
use super::solves::STAR;
use super::{TRIANGLE, ending_of, ends, shelf_of};
use st_edge::{LoadFault, MemoryShelf, MemorySink, SaveFault, Shelf};
use std::alloc::{AllocError, Global};
use std::sync::Wait;
use std::test::Fail;
use std::thread::Threads;
use steiner_top::Status;

/// A name that the shelf doesn't hold, and calls of the shelf that fail; and the names that are asked for.
const READ_FAULTS: &[(&str, u64, &[&str])] = &[
    ("solve b.stp", 99, &["b.stp"]),
    ("solve a.stp --log b", 1, &["a.stp"]),
    ("check a.stp b", 1, &["a.stp"]),
    ("check a.stp a.stp", 2, &["a.stp", "a.stp"]),
];

/// Whether a run with these words ends with a read fault where this call fails, asks for these names, and saves nothing.
fn ends_unread<R: Threads + Wait + Sync>(
    rt: &R,
    alloc: Global,
    line: &str,
    failing: u64,
    names: &[&str],
) -> Result<bool, AllocError> {
    let mut shelf = shelf_of(alloc, TRIANGLE, &[failing])?;
    let want = (Status::ReadFault, 7, "read fault\n");
    let is_unread = ends(rt, alloc, line, &mut shelf, want)?;
    Ok(is_unread && have_names(shelf.asked(), names) && shelf.text_of("b").is_none())
}

#[test]
fn tells_read_faults(rt: HostRuntime) -> Result<(), Fail> {
    for (line, failing, names) in READ_FAULTS {
        assert!(rt;
            ends_unread(&rt, rt.alloc(), line, *failing, names)?,
            "after {line}"
        );
    }
    Ok(())
}

/// Whether a run ends without an outcome where this write fails, and its log stands and the bytes before are taken.
fn ends_at_write<R: Threads + Wait + Sync>(
    rt: &R,
    alloc: Global,
    write: u64,
) -> Result<bool, AllocError> {
    let found = found_at(rt, alloc, &[], &[write], 1_000)?;
    let before = STAR
        .as_bytes()
        .get(..write.saturating_sub(1) as usize)
        .unwrap_or(&[]);
    let is_lost = found.code == 8 && !found.has_outcome;
    Ok(is_lost && found.log == Log::Right && found.sent.as_slice() == before)
}

/// Whichever write fails, the log stands and the bytes before are taken.
#[test]
fn ends_at_each_write_that_fails(rt: HostRuntime) -> Result<(), Fail> {
    for write in 1..=STAR.len() as u64 {
        assert!(rt; ends_at_write(&rt, rt.alloc(), write)?, "at {write}");
    }
    Ok(())
}

/// What stands under the log's name: nothing, a log that shows the least cost of the triangle, or something else.
#[derive(Clone, Copy, PartialEq, Eq)]
enum Log {
    None,
    Right,
    Wrong,
}

/// What stands there, as a check says.
fn log_in<R: Threads + Wait + Sync>(
    rt: &R,
    alloc: Global,
    shelf: &mut MemoryShelf,
) -> Result<Log, AllocError> {
    if shelf.text_of("b").is_none() {
        return Ok(Log::None);
    }
    let want = (Status::Optimal, 0, "optimal 6\n");
    if ends(rt, alloc, "check a.stp b", shelf, want)? {
        Ok(Log::Right)
    } else {
        Ok(Log::Wrong)
    }
}

/// How a run ends: its code, whether it has an outcome, whether the file alone was asked for, what is saved and what is
/// sent.
#[derive(Drop)]
struct Found {
    code: u8,
    has_outcome: bool,
    asks_once: bool,
    log: Log,
    sent: Vec<u8>,
}

/// How a run ends that solves the triangle with a log where such calls fail and so many bytes can be sent.
fn found_at<R: Threads + Wait + Sync>(
    rt: &R,
    alloc: Global,
    calls: &[u64],
    writes: &[u64],
    room: u64,
) -> Result<Found, AllocError> {
    let mut shelf = shelf_of(alloc, TRIANGLE, calls)?;
    let mut out = MemorySink::of(alloc, room, 1, Vec::from_slice(alloc, writes)?)?;
    let ending = ending_of(rt, alloc, "solve a.stp --log b", &mut shelf, &mut out)?;
    let sent = Vec::from_slice(alloc, out.bytes())?;
    let asks_once = have_names(shelf.asked(), &["a.stp"]);
    Ok(Found {
        code: ending.status.code(),
        has_outcome: ending.has_outcome,
        asks_once,
        log: log_in(rt, alloc, &mut shelf)?,
        sent,
    })
}

/// What fails of the devices, by the numbers of their calls, where the triangle is solved with a log.
struct Row {
    name: &'static str,
    calls: &'static [u64],
    writes: &'static [u64],
    room: u64,
    code: u8,
    sent: &'static str,
    log: Log,
}

const ROWS: &[Row] = &[
    Row {
        name: "the file can't be read",
        calls: &[1],
        writes: &[],
        room: 100,
        code: 7,
        sent: "read fault\n",
        log: Log::None,
    },
    Row {
        name: "the file can't be read, and nothing be written",
        calls: &[1],
        writes: &[1],
        room: 100,
        code: 8,
        sent: "",
        log: Log::None,
    },
    Row {
        name: "the log can't be saved",
        calls: &[2],
        writes: &[],
        room: 100,
        code: 8,
        sent: "",
        log: Log::None,
    },
    Row {
        name: "ten bytes can be written",
        calls: &[],
        writes: &[],
        room: 10,
        code: 8,
        sent: "33D32945 S",
        log: Log::Right,
    },
];

/// Whether a run ends as its row says.
fn ends_as<R: Threads + Wait + Sync>(rt: &R, alloc: Global, row: &Row) -> Result<bool, AllocError> {
    let found = found_at(rt, alloc, row.calls, row.writes, row.room)?;
    let ends = found.code == row.code && found.sent.as_slice() == row.sent.as_bytes();
    Ok(ends && found.asks_once && found.log == row.log)
}

#[test]
fn ends_where_devices_fail(rt: HostRuntime) -> Result<(), Fail> {
    for row in ROWS {
        assert!(rt; ends_as(&rt, rt.alloc(), row)?, "where {}", row.name);
    }
    Ok(())
}

/// A shelf of which each text is too long.
#[derive(Drop)]
struct LongShelf;

impl Shelf for LongShelf {
    ghost use Rattle.std.specs.Prelude.{None};

    ghost text = { λ _ _. None };

    ghost asked = { λ _. None };

    ghost read_faults = { λ _. 0 };

    ghost write_faults = { λ _. 0 };

    fn load(&mut self, _: Global, _: &str, _: u64) -> Result<Vec<u8>, LoadFault> {
        Err(LoadFault::TooLong)
    }

    fn save(&mut self, _: &str, _: &[u8]) -> Result<(), SaveFault> {
        Err(SaveFault::NoMemory)
    }
}

#[test]
fn tells_that_a_text_is_too_long(rt: HostRuntime) -> Result<(), Fail> {
    let want = (Status::TooLong, 10, "too long\n");
    assert!(rt; ends(&rt, rt.alloc(), "solve a.stp", &mut LongShelf, want)?);
    Ok(())
}
