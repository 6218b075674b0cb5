//! Bytes in and out, with the faults counted.
//!
//! A `Shelf` holds texts under names (`specs/Shelf.antt`), and a `Sink` takes bytes one after another
//! (`specs/Sink.antt`). Where one tells what it holds, a caller may rely on it to the byte. Where it doesn't,
//! on this: a fault is answered only where one happened, since the count of faults rose in that call
//! (`HasCause` of `specs/Faults.antt`). `MemoryShelf` and `MemorySink` tell all and fail at the calls that
//! they are given. `DiskShelf` and `StdSink` stand over real files and the standard output, and tell nothing.
//! `read_within` reads any source as a `DiskShelf` reads a file.
#![tactic(auto)]

mod disk_shelf;
mod memory_shelf;
mod memory_sink;
mod shelf;
mod sink;
mod std_sink;

pub use disk_shelf::{DiskShelf, read_within};
pub use memory_shelf::MemoryShelf;
pub use memory_sink::MemorySink;
pub use shelf::{LoadFault, SaveFault, Shelf};
pub use sink::{Failed, Sink, send_all};
pub use std_sink::StdSink;
