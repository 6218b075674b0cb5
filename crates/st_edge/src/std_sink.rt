ghost use Rattle.std.specs.Prelude.{◌≡◌, ◌≢◌, ◌+◌, ◌<◌, ◌≤◌, [], length, Ok, IfOk, OnOk, OnErr, IsErr};
ghost use Rattle.st_edge.specs.Faults.{one_more, HasCause};

use crate::{Failed, Sink};
use std::marker::Model;

/// The standard output, as the runtime prints to it. Each write goes there at once, so nothing is held back
/// when `main` returns. What the output holds is not known.
#[derive(Drop)]
pub struct StdSink<P> {
    output: P,
    writes: u64,
    faults: u64,
}

impl<P> Model for StdSink<P> {
    ghost use Rattle.st_edge.specs.StdSink.{WriteCounts};

    ghost Value = { WriteCounts };

    ghost view = { λ s. record { writes = s.writes; faults = s.faults } };
}

impl<P> StdSink<P> {
    /// A sink over the output that the runtime prints to.
    pub fn new(output: P) -> Self
        ensures { result ≡ record { writes = 0; faults = 0 } }
    {
        StdSink {
            output,
            writes: 0,
            faults: 0,
        }
    }
}

impl<P: Print> Sink for StdSink<P> {
    ghost use Rattle.std.specs.Prelude.{None};

    ghost taken = { λ _. None };

    ghost faults = { λ s. s.faults };

    ghost writes = { λ s. s.writes };

    /// An error of the output fails the write, and so does an output that takes nothing.
    fn write(&mut self, piece: &[u8]) -> Result<usize, Failed>
        ensures ok { OnOk result (self.new ≡ record self.old { writes = one_more self.old.writes }) }
        ensures err { OnErr result (self.new ≡ record {
          writes = one_more self.old.writes;
          faults = one_more self.old.faults;
        }) }

        // As of every sink, where nothing is known of what it took.
        ensures empty { piece.now ≡ [] → result ≡ Ok 0 }
        ensures least { piece.now ≢ [] → IfOk result (λ count. 0 < count) }
        ensures most { IfOk result (λ count. count ≤ length piece.now) }
        ensures cause { HasCause self.old.faults self.new.faults (IsErr result) }
        ensures writes_later { self.old.writes ≤ self.new.writes }
        ensures one_write { self.new.writes ≤ self.old.writes + 1 }
    {
        self.writes = self.writes.saturating_add(1);
        if piece.is_empty() {
            return Ok(0);
        }
        match self.output.write_some(piece) {
            Ok(count) if count > 0 => Ok(count),
            _ => {
                self.faults = self.faults.saturating_add(1);
                Err(Failed)
            }
        }
    }
}
