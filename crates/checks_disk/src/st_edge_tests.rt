use st_edge::{
    DiskShelf, Failed, LoadFault, MemoryShelf, MemorySink, SaveFault, Shelf, Sink, StdSink,
    read_within, send_all,
};
use std::alloc::{AllocError, Global};
use std::cell::Cell;
use std::fmt::Display;
use std::io;
use std::io::{ErrorKind, Print, Read};
use std::test::Fail;

/// Whether a load through the trait gives this answer.
fn load_through<F: Shelf>(
    shelf: &mut F,
    alloc: Global,
    name: &str,
    limit: u64,
    want: Result<&[u8], LoadFault>,
) -> bool {
    match (shelf.load(alloc, name, limit), want) {
        (Ok(text), Ok(want)) => text.as_slice() == want,
        (Err(fault), Err(want)) => fault == want,
        _ => false,
    }
}

fn save_through<F: Shelf>(shelf: &mut F, name: &str, bytes: &[u8]) -> Result<(), SaveFault> {
    shelf.save(name, bytes)
}

fn write_through<K: Sink>(sink: &mut K, piece: &[u8]) -> Result<usize, Failed> {
    sink.write(piece)
}

fn holds(shelf: &MemoryShelf, name: &str, want: &[u8]) -> bool {
    shelf.text_of(name).is_some_and(|text| text == want)
}

/// Whether these are the names that were asked for.
fn have_names(asked: Option<&[String]>, want: &[&str]) -> bool {
    asked.is_some_and(|names| names
        .iter()
        .map(|name| name.as_str())
        .eq(want.iter().copied()))
}

/// A shelf with `hello` under `a`, twice, and the empty text under `b`.
fn shelf_of(alloc: Global, failing: &[u64]) -> Result<MemoryShelf, AllocError> {
    let mut texts = Vec::new(alloc);
    for (name, text) in [("a", "hello"), ("b", ""), ("a", "other")] {
        let name = String::from_str(alloc, name)?;
        texts.push((name, Vec::from_slice(alloc, text.as_bytes())?))?;
    }
    Ok(MemoryShelf::of(alloc, texts, Vec::from_slice(alloc, failing)?))
}

#[test]
fn a_load_gives_the_first_text_within_the_limit(rt: HostRuntime) -> Result<(), Fail> {
    let mut shelf = shelf_of(rt.alloc(), &[6])?;
    for (name, limit, want) in [
        ("a", 4, Err(LoadFault::TooLong)),
        ("a", 5, Ok(b"hello".as_slice())),
        ("a", u64::MAX, Ok(b"hello".as_slice())),
        ("b", 0, Ok(b"".as_slice())),
        ("c", 5, Err(LoadFault::Failed)),
        ("a", 5, Err(LoadFault::Failed)),
        ("a", 5, Ok(b"hello".as_slice())),
    ] {
        let is_so = load_through(&mut shelf, rt.alloc(), name, limit, want);
        assert!(rt; is_so, "{name} within {limit}");
    }
    Ok(())
}

#[test]
fn loads_and_saves_are_counted_together(rt: HostRuntime) -> Result<(), Fail> {
    let alloc = rt.alloc();
    let mut shelf = shelf_of(alloc, &[2])?;
    assert!(rt; load_through(&mut shelf, alloc, "a", 9, Ok(b"hello".as_slice())));
    assert_eq!(rt;
        save_through(&mut shelf, "a", b"bye"),
        Err(SaveFault::Failed)
    );
    assert!(rt; holds(&shelf, "a", b"hello"));
    for name in ["a", "c"] {
        assert_eq!(rt; save_through(&mut shelf, name, b"bye"), Ok(()));
        assert!(rt; load_through(&mut shelf, alloc, name, 3, Ok(b"bye".as_slice())));
    }
    assert!(rt; holds(&shelf, "b", b""));
    assert!(rt; shelf.text_of("d").is_none());
    assert!(rt; have_names(shelf.asked(), &["a", "a", "c"]));
    Ok(())
}

// Ten bytes, three at a time, are four writes: the fifth isn't made.
#[test]
fn all_bytes_are_sent_or_a_front(rt: HostRuntime) -> Result<(), Fail> {
    let alloc = rt.alloc();
    for (room, failing, want, taken) in [
        (100, 5, Ok(()), b"0123456789".as_slice()),
        (100, 4, Err(Failed), b"012345678".as_slice()),
        (100, 1, Err(Failed), b"".as_slice()),
        (10, 5, Ok(()), b"0123456789".as_slice()),
        (5, 9, Err(Failed), b"01234".as_slice()),
    ] {
        let mut sink = MemorySink::of(alloc, room, 3, Vec::from_slice(alloc, &[failing])?)?;
        assert_eq!(rt; send_all(&mut sink, b"0123456789"), want);
        assert_eq!(rt; sink.bytes(), taken);
    }
    Ok(())
}

#[test]
fn each_write_is_numbered(rt: HostRuntime) -> Result<(), Fail> {
    let alloc = rt.alloc();
    let mut sink = MemorySink::of(alloc, 2, 9, Vec::from_slice(alloc, &[1, 2])?)?;
    for (piece, want) in [
        (b"".as_slice(), Ok(0)),
        (b"abc", Err(Failed)),
        (b"abc", Ok(2)),
        (b"c", Err(Failed)),
        (b"", Ok(0)),
    ] {
        assert_eq!(rt; write_through(&mut sink, piece), want);
    }
    assert_eq!(rt; sink.bytes(), b"ab".as_slice());
    Ok(())
}

#[test]
fn files_are_saved_and_loaded(rt: HostRuntime) -> Result<(), Fail> {
    let alloc = rt.alloc();
    let mut shelf = DiskShelf::new(rt);
    let long = vec![in alloc; 7; 70_000]?;
    assert_eq!(rt; save_through(&mut shelf, "text", b"first"), Ok(()));
    assert_eq!(rt; save_through(&mut shelf, "text", b"hello"), Ok(()));
    assert_eq!(rt; save_through(&mut shelf, "long", &long), Ok(()));
    assert_eq!(rt;
        save_through(&mut shelf, "none/text", b"hello"),
        Err(SaveFault::Failed)
    );
    for (name, limit, want) in [
        ("text", 4, Err(LoadFault::TooLong)),
        ("text", 5, Ok(b"hello".as_slice())),
        ("long", 69_999, Err(LoadFault::TooLong)),
        ("long", 70_000, Ok(long.as_slice())),
        ("none", 5, Err(LoadFault::Failed)),
        (".", 5, Err(LoadFault::Failed)),
    ] {
        let is_so = load_through(&mut shelf, alloc, name, limit, want);
        assert!(rt; is_so, "{name} within {limit}");
    }
    Ok(())
}

/// Gives two bytes at a time, and fails after so many reads.
#[derive(Drop)]
struct Worn(u8);

impl Read for Worn {
    fn read(&mut self, buf: &mut [u8]) -> io::Result<usize> {
        if self.0 == 0 {
            return Err(io::Error::from(ErrorKind::TimedOut));
        }
        self.0 -= 1;
        Ok(buf.len().min(2))
    }
}

/// Fills each buffer, and counts the bytes.
#[derive(Drop)]
struct Endless(u64);

impl Read for Endless {
    fn read(&mut self, buf: &mut [u8]) -> io::Result<usize> {
        self.0 = self.0.saturating_add(buf.len() as u64);
        Ok(buf.len())
    }
}

#[test]
fn one_byte_more_than_the_limit_is_read(rt: HostRuntime) {
    for limit in [0, 3, 4, 9] {
        let mut source = Endless(0);
        let read = read_within(rt.alloc(), &mut source, &mut [0; 4], limit);
        assert_eq!(rt; read.err(), Some(LoadFault::TooLong));
        assert_eq!(rt; source.0, limit + 1);
    }
}

#[test]
fn a_read_that_fails_in_mid_stream_is_told(rt: HostRuntime) {
    for (reads, limit, want) in [
        (0, 9, LoadFault::Failed),
        (2, 9, LoadFault::Failed),
        (2, 4, LoadFault::Failed),
        (2, 3, LoadFault::TooLong),
    ] {
        let read = read_within(rt.alloc(), &mut Worn(reads), &mut [0; 4], limit);
        assert_eq!(rt; read.err(), Some(want), "{reads} reads, limit {limit}");
    }
}

const TEN: [u8; 10] = *b"0123456789";

/// An output that expects `TEN`. It takes at most `most` bytes at a time, or fails if that is `None`.
#[derive(Drop)]
struct Output {
    most: Option<usize>,
    taken: Cell<usize>,
}

impl Print for Output {
    fn print<D: Display + Drop>(&self, _value: D) -> io::Result<()> {
        Ok(())
    }

    fn println<D: Display + Drop>(&self, _value: D) -> io::Result<()> {
        Ok(())
    }

    fn write_all(&self, _bytes: &[u8]) -> io::Result<()> {
        Ok(())
    }

    fn write_some(&self, bytes: &[u8]) -> io::Result<usize> {
        let taken = self.taken.get();
        match (self.most, TEN.get(taken..)) {
            (Some(most), Some(rest)) if bytes == rest => {
                let count = bytes.len().min(most);
                self.taken.set(taken.saturating_add(count));
                Ok(count)
            }
            _ => Err(io::Error::from(ErrorKind::BrokenPipe)),
        }
    }
}

#[test]
fn an_output_gets_all_bytes_or_fails(rt: HostRuntime) -> Result<(), Fail> {
    for (most, want, taken) in [
        (Some(3), Ok(()), 10),
        (Some(0), Err(Failed), 0),
        (None, Err(Failed), 0),
    ] {
        let output = Output {
            most,
            taken: Cell::new(0),
        };
        assert_eq!(rt; send_all(&mut StdSink::new(&output), &TEN), want);
        assert_eq!(rt; output.taken.get(), taken);
    }
    let mut sink = StdSink::new(rt);
    assert_eq!(rt; write_through(&mut sink, b""), Ok(0));
    assert_eq!(rt; send_all(&mut sink, b"ten bytes\n"), Ok(()));
    Ok(())
}
