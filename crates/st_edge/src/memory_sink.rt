ghost use Rattle.std.specs.Prelude.{◌≡◌, ◌≢◌, ◌+◌, ◌<◌, ◌≤◌, ◌++◌, ◌↔◌, [], length, take, Some, Ok, IfOk, OnErr, IsErr, MatchResult};
ghost use Rattle.st_edge.specs.Faults.{one_more, HasCause};
ghost use Rattle.st_edge.specs.MemorySink.{Refuses, portion_of};
ghost use Rattle.std.specs.Io.KnownBytes.{append_known};

use crate::{Failed, Sink};
use std::alloc::{AllocError, Global};
use std::marker::Model;

/// Bytes in memory, with a limit on all of them and one on each write, and with writes that fail.
#[derive(Debug, Drop)]
pub struct MemorySink {
    bytes: Vec<u8>,
    room: usize,
    most: usize,
    failing: Vec<u64>,
    writes: u64,
    faults: u64,
}

impl Model for MemorySink {
    ghost use Rattle.std.specs.Prelude.{◌≤◌, ◌<◌, length, vec_capacity};
    ghost use Rattle.st_edge.specs.MemorySink.{Tape};

    ghost Value = { Tape };

    ghost view = { λ s. record {
      taken = s.bytes.items;
      room = s.room;
      most = s.most;
      failing = s.failing.items;
      writes = s.writes;
      faults = s.faults;
    } };

    ghost invariant = { λ s. (0 < s.most) × (length s.bytes.items ≤ s.room) × (s.room ≤ vec_capacity s.bytes) };
}

impl MemorySink {
    /// An empty sink with room for `room` bytes, all of it taken from memory now. It takes at most `most` bytes
    /// in one write, and the writes fail whose numbers, from 1, are listed in `failing`.
    pub fn of(alloc: Global, room: u64, most: u64, failing: Vec<u64>) -> Result<Self, AllocError>
        requires { 0 < most }
        ensures { IfOk result (λ sink. sink ≡ record {
          taken = [];
          room = room;
          most = most;
          failing = failing.items;
          writes = 0;
          faults = 0;
        }) }
    {
        let room = room as usize;
        Ok(MemorySink {
            bytes: Vec::with_capacity(alloc, room)?,
            room,
            most: most as usize,
            failing,
            writes: 0,
            faults: 0,
        })
    }

    /// The bytes taken so far.
    pub fn bytes(&self) -> &[u8]
        ensures { result.now ≡ self.now.taken }
    {
        &self.bytes
    }
}

impl Sink for MemorySink {
    ghost taken = { λ s. Some s.taken };

    ghost faults = { λ s. s.faults };

    ghost writes = { λ s. s.writes };

    /// Each write is numbered, also that of an empty piece. The number 2^64 - 1 is the last, and then stands still.
    fn write(&mut self, piece: &[u8]) -> Result<usize, Failed>
        ensures refused { IsErr result ↔ Refuses self.old piece.now }
        ensures portion { IfOk result (λ count. count ≡ portion_of self.old piece.now) }
        ensures ok { IfOk result (λ count. self.new ≡ record self.old {
          taken = self.old.taken ++ take count piece.now;
          writes = one_more self.old.writes;
        }) }
        ensures err { OnErr result (self.new ≡ record self.old {
          writes = one_more self.old.writes;
          faults = one_more self.old.faults;
        }) }

        // As of every sink.
        ensures empty { piece.now ≡ [] → result ≡ Ok 0 }
        ensures least { piece.now ≢ [] → IfOk result (λ count. 0 < count) }
        ensures most { IfOk result (λ count. count ≤ length piece.now) }
        ensures taken { MatchResult result
            (λ count. Some self.new.taken ≡ append_known (Some self.old.taken) (take count piece.now))
            (λ _. Some self.new.taken ≡ Some self.old.taken) }
        ensures cause { HasCause self.old.faults self.new.faults (IsErr result) }
        ensures writes_later { self.old.writes ≤ self.new.writes }
        ensures one_write { self.new.writes ≤ self.old.writes + 1 }
    {
        self.writes = self.writes.saturating_add(1);
        if piece.is_empty() {
            return Ok(0);
        }
        let portion = piece.len().min(self.most).min(self.room - self.bytes.len());
        if portion == 0 || self.failing.contains(&self.writes) {
            self.faults = self.faults.saturating_add(1);
            return Err(Failed);
        }
        match self.bytes.extend_from_slice(&piece[..portion]) {
            Ok(()) => Ok(portion),
            Err(_) => unreachable!(),
        }
    }
}
