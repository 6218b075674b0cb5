ghost use Rattle.std.specs.Prelude.{◌≡◌, ◌≢◌, ◌<◌, ◌≤◌, ◌↔◌, length, Err, IfOk, IsErrOf};
ghost use Rattle.std.specs.Io.{ReadsAtMost};
ghost use Rattle.std.specs.IoError.{error_kind};
ghost use Rattle.std.specs.Io.KnownBytes.{ReadConsumes};
ghost use Rattle.st_edge.specs.Faults.{one_more, HasCause};
ghost use Rattle.st_edge.specs.Shelf.{Loads};

use crate::{LoadFault, SaveFault, Shelf};
use std::alloc::{AllocError, Global};
use std::fs::{File, OpenFile};
use std::io;
use std::io::{ErrorKind, Read, Write};
use std::marker::Model;
use std::rt::Files;

/// How many bytes a load asks a file for at once.
const PIECE: usize = 1 << 16;

/// Files, by their paths, as the runtime reaches them. What they hold is not known.
#[derive(Drop)]
pub struct DiskShelf<R> {
    files: R,
    read_faults: u64,
    write_faults: u64,
}

impl<R> Model for DiskShelf<R> {
    ghost use Rattle.st_edge.specs.DiskShelf.{FaultCounts};

    ghost Value = { FaultCounts };

    ghost view = { λ s. record { read_faults = s.read_faults; write_faults = s.write_faults } };
}

impl<R> DiskShelf<R> {
    /// A shelf over the files that the runtime reaches.
    pub fn new(files: R) -> Self
        ensures { result ≡ record { read_faults = 0; write_faults = 0 } }
    {
        DiskShelf {
            files,
            read_faults: 0,
            write_faults: 0,
        }
    }
}

impl<R: Files> Shelf for DiskShelf<R> {
    ghost use Rattle.std.specs.Prelude.{None};

    ghost text = { λ _ _. None };

    ghost asked = { λ _. None };

    ghost read_faults = { λ s. s.read_faults };

    ghost write_faults = { λ s. s.write_faults };

    /// A directory, a name that isn't there and a name without permission are `Failed`. A file whose length the
    /// system knows to be above `limit` is `TooLong` before any of it is read; of a pipe `limit + 1` bytes are read.
    fn load(&mut self, alloc: Global, name: &str, limit: u64) -> Result<Vec<u8>, LoadFault>
        ensures counted { IsErrOf result LoadFault.Failed
            → self.new ≡ record self.old { read_faults = one_more self.old.read_faults } }
        ensures kept { result ≢ Err LoadFault.Failed → self.new ≡ self.old }

        // As of every shelf, where nothing is known of the texts.
        ensures within { IfOk result (λ bytes. length bytes.items ≤ limit) }
        ensures cause { HasCause self.old.read_faults self.new.read_faults (IsErrOf result LoadFault.Failed) }
        ensures write_faults { self.new.write_faults ≡ self.old.write_faults }
    {
        let result = load_file(&self.files, alloc, name, limit);
        if let Err(LoadFault::Failed) = result {
            self.read_faults = self.read_faults.saturating_add(1);
        }
        result
    }

    /// The file is made, or emptied and written again. `NoMemory` comes before that, and whatever fails then is
    /// `Failed`: the file may hold a front of the bytes.
    fn save(&mut self, name: &str, bytes: &[u8]) -> Result<(), SaveFault>
        ensures counted { IsErrOf result SaveFault.Failed
            → self.new ≡ record self.old { write_faults = one_more self.old.write_faults } }
        ensures kept { result ≢ Err SaveFault.Failed → self.new ≡ self.old }

        // As of every shelf, where nothing is known of the texts.
        ensures cause { HasCause self.old.write_faults self.new.write_faults (IsErrOf result SaveFault.Failed) }
        ensures read_faults { self.new.read_faults ≡ self.old.read_faults }
    {
        let result = save_file(&self.files, name, bytes);
        if let Err(SaveFault::Failed) = result {
            self.write_faults = self.write_faults.saturating_add(1);
        }
        result
    }
}

// Whether this is a file of more bytes than `limit`, as the system says. Of a pipe or a device it says nothing.
fn is_longer<T: OpenFile>(file: &T, limit: u64) -> bool {
    match file.metadata() {
        Ok(metadata) => metadata.is_file() && metadata.len() > limit,
        Err(_) => false,
    }
}

fn load_file<R: Files>(
    files: &R,
    alloc: Global,
    name: &str,
    limit: u64,
) -> Result<Vec<u8>, LoadFault>
    ensures { IfOk result (λ bytes. length bytes.items ≤ limit) }
{
    let mut file = File::open(files, name).map_err(load_fault_of)?;
    if is_longer(&file, limit) {
        return Err(LoadFault::TooLong);
    }
    let mut piece = zeros(alloc, PIECE)?;
    read_within(alloc, &mut file, &mut piece, limit)
}

// Makes or empties the file, and writes the bytes. Where the system has no memory for a write the old text is gone, so
// that is a fault of writing.
fn save_file<R: Files>(files: &R, name: &str, bytes: &[u8]) -> Result<(), SaveFault> {
    let mut file = File::create(files, name).map_err(save_fault_of)?;
    file.write_all(bytes).map_err(|_| SaveFault::Failed)
}

// A buffer of this length. A function of its own, so that no proof writes the zeros out.
fn zeros(alloc: Global, len: usize) -> Result<Vec<u8>, AllocError>
    ensures { IfOk result (λ zeros. length zeros.items ≡ len) }
{
    vec![in alloc; 0; len]
}

/// Reads a source to its end, a piece at a time: all its bytes, if these are at most `limit`. Of a longer text it reads
/// `limit + 1` bytes, which is `TooLong`. A read that fails for want of memory is `NoMemory`, any other that fails is
/// `Failed`; what was read before is lost.
pub fn read_within<S: Read>(
    alloc: Global,
    source: &mut S,
    piece: &mut [u8],
    limit: u64,
) -> Result<Vec<u8>, LoadFault>
    requires { 0 < length piece.old }
    ensures { Loads (S.remaining source.old) limit result }
{
    let mut text = Vec::new(alloc);
    loop {
        let left = limit - text.len() as u64;
        let most = piece.len().min(left.saturating_add(1) as usize);
        let count = read_piece(source, &mut piece[..most])?;
        if count == 0 {
            return Ok(text);
        }
        if left < count as u64 {
            return Err(LoadFault::TooLong);
        }
        text.extend_from_slice(&piece[..count])?;
    }
}

fn read_piece<S: Read>(source: &mut S, piece: &mut [u8]) -> Result<usize, LoadFault>
    ensures bound { ReadsAtMost result piece.new }
    ensures bytes { ReadConsumes (S.remaining source.old) (S.remaining source.new) result piece.new }
    ensures never_long { result ≢ Err LoadFault.TooLong }
{
    source.read(piece).map_err(load_fault_of)
}

fn load_fault_of(error: io::Error) -> LoadFault
    ensures no_memory { (result ≡ LoadFault.NoMemory) ↔ (error_kind error ≡ ErrorKind.OutOfMemory) }
    ensures never_long { result ≢ LoadFault.TooLong }
{
    match error.kind() {
        ErrorKind::OutOfMemory => LoadFault::NoMemory,
        _ => LoadFault::Failed,
    }
}

fn save_fault_of(error: io::Error) -> SaveFault
    ensures { (result ≡ SaveFault.NoMemory) ↔ (error_kind error ≡ ErrorKind.OutOfMemory) }
{
    match error.kind() {
        ErrorKind::OutOfMemory => SaveFault::NoMemory,
        _ => SaveFault::Failed,
    }
}
