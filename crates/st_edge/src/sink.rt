ghost use Rattle.std.specs.Prelude.{◌≡◌, ◌≢◌, ℕ, ◌+◌, ◌<◌, ◌≤◌, [], List, length, take, Option, Ok, IfOk, OnOk, OnErr, IsErr, MatchResult};
ghost use Rattle.std.specs.Io.KnownBytes.{append_known};
ghost use Rattle.st_edge.specs.Faults.{HasCause};
ghost use Rattle.st_edge.specs.Sink.{TakesFront};

/// A sink took nothing of a piece, and won't say more.
#[derive(Debug, Clone, Copy, PartialEq, Eq)]
pub struct Failed;

/// Takes bytes, one after another, and counts its faults. The count never falls.
/// In this crate's sinks each count begins at 0 and stands still at 2^64 - 1.
pub trait Sink {
    /// All bytes taken so far. `None` where the sink doesn't tell.
    ghost taken: { Self → Option (List ℕ) };

    /// How often a write failed.
    ghost faults: { Self → ℕ };

    /// How many writes were asked for.
    ghost writes: { Self → ℕ };

    /// Takes a front of the piece, at least a byte if there is one, and answers how many bytes that was.
    fn write(&mut self, piece: &[u8]) -> Result<usize, Failed>
        ensures empty { piece.now ≡ [] → result ≡ Ok 0 }
        ensures least { piece.now ≢ [] → IfOk result (λ count. 0 < count) }
        ensures most { IfOk result (λ count. count ≤ length piece.now) }
        ensures taken { MatchResult result
            (λ count. taken self.new ≡ append_known (taken self.old) (take count piece.now))
            (λ _. taken self.new ≡ taken self.old) }
        ensures cause { HasCause (faults self.old) (faults self.new) (IsErr result) }
        ensures writes_later { writes self.old ≤ writes self.new }
        ensures one_write { writes self.new ≤ writes self.old + 1 };
}

/// Writes until all bytes are taken or a write fails. It takes no memory.
pub fn send_all<K: Sink>(sink: &mut K, bytes: &[u8]) -> Result<(), Failed>
    ensures all { OnOk result (K.taken sink.new ≡ append_known (K.taken sink.old) bytes.now) }
    ensures front { OnErr result (TakesFront (K.taken sink.old) (K.taken sink.new) bytes.now) }
    ensures cause { HasCause (K.faults sink.old) (K.faults sink.new) (IsErr result) }
    ensures writes_later { K.writes sink.old ≤ K.writes sink.new }
    ensures one_write_per_byte { K.writes sink.new ≤ K.writes sink.old + length bytes.now }
{
    let mut sent = 0;
    while sent < bytes.len() {
        sent += sink.write(&bytes[sent..])?;
    }
    Ok(())
}
