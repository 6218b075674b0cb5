use st_edge::{MemorySink, Shelf, Sink, send_all};
use std::alloc::{AllocError, Global};
use std::sync::Wait;
use std::thread::Threads;
use steiner_top::{OpenGate, run};

/// More bytes than any run here sends.
const ROOM: u64 = 1 << 22;

/// Writes a title, the code with which a run by these words ends, and what it sends.
pub fn tell<R: Threads + Wait + Sync, F: Shelf, K: Sink>(
    rt: &R,
    alloc: Global,
    title: &str,
    words: &[&str],
    shelf: &mut F,
    out: &mut K,
) -> Result<(), AllocError> {
    let (code, sent) = answer(rt, alloc, words, shelf)?;
    let head = format!(in alloc; "{title}: {code} ")?;
    let _ = send_all(out, head.as_bytes());
    let _ = send_all(out, sent.bytes());
    Ok(())
}

/// Writes how a file is answered as one of few terminals.
pub fn tell_few<R: Threads + Wait + Sync, F: Shelf, K: Sink>(
    rt: &R,
    alloc: Global,
    title: &str,
    file: &str,
    shelf: &mut F,
    out: &mut K,
) -> Result<(), AllocError> {
    let title = format!(in alloc; "{title}, of few terminals")?;
    tell(rt, alloc, &title, &["few", file], shelf, out)
}

/// Writes how a text is answered as a solution of a file.
pub fn tell_solution<R: Threads + Wait + Sync, F: Shelf, K: Sink>(
    rt: &R,
    alloc: Global,
    title: &str,
    file: &str,
    text: &str,
    shelf: &mut F,
    out: &mut K,
) -> Result<(), AllocError> {
    let title = format!(in alloc; "{title}, as a solution")?;
    tell(rt, alloc, &title, &["verify", file, text], shelf, out)
}

/// Writes a title, the code with which a run by these words ends, and how many bytes it sends.
pub fn tell_length<R: Threads + Wait + Sync, F: Shelf, K: Sink>(
    rt: &R,
    alloc: Global,
    title: &str,
    words: &[&str],
    shelf: &mut F,
    out: &mut K,
) -> Result<(), AllocError> {
    let (code, sent) = answer(rt, alloc, words, shelf)?;
    let length = sent.bytes().len();
    let line = format!(in alloc; "{title}: {code} and {length} bytes\n")?;
    let _ = send_all(out, line.as_bytes());
    Ok(())
}

// The code with which a run by these words ends, and the sink that it sent to.
fn answer<R: Threads + Wait + Sync, F: Shelf>(
    rt: &R,
    alloc: Global,
    words: &[&str],
    shelf: &mut F,
) -> Result<(u8, MemorySink), AllocError> {
    let mut owned = Vec::new(alloc);
    for word in words {
        owned.push(String::from_str(alloc, word)?)?;
    }
    let mut sent = MemorySink::of(alloc, ROOM, ROOM, Vec::new(alloc))?;
    let code = run(rt, alloc, &owned, shelf, &mut sent, &OpenGate)
        .status
        .code();
    Ok((code, sent))
}
