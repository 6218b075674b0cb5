ghost use Rattle.std.specs.Prelude.{◌≡◌, ◌∷◌, [], ◌++◌, ◌↔◌, OnOk, OnErr, IfOk, IsTrue, Err};
ghost use Rattle.log_format.specs.Text.{AreWhole, Begins};
ghost use Rattle.log_format.specs.Items.{IsItem, item_line};

use crate::fault::LineError;
use crate::log::version_with;
use crate::past::Past;
use crate::place::Place;
use crate::said::said;
use crate::{Item, Version};
use std::alloc::Global;
use std::marker::Model;

/// The lines of a log that were read so far. It keeps nothing of what they said but the version and
/// the counts of what is still expected, so its memory doesn't grow.
#[derive(Drop)]
pub struct LogReader {
    alloc: Global,
    // Version 1 until the first line says it.
    version: Version,
    place: Place,
    past: Past,
}

impl Model for LogReader {
    ghost use Rattle.std.specs.Prelude.{ℕ, List};

    ghost Value = { List (List ℕ) };

    ghost use Rattle.log_format.specs.Places.{IsAfter};

    ghost view = { λ r. r.past.pieces };

    ghost invariant = { λ r. IsAfter r.past.pieces r.version r.place };
}

impl LogReader {
    /// A reader that has read no line.
    pub fn begin(alloc: Global) -> LogReader
        ensures none { result ≡ [] }
        ensures begins { Begins result }
    {
        LogReader {
            alloc,
            version: Version::One,
            place: Place::BeforeHeader,
            past: Past::new(),
        }
    }

    /// Reads one more line, without its end, and answers what it says.
    pub fn line(&mut self, line: &[u8]) -> Result<Item, LineError>
        ensures ok { OnOk result (self.new ≡ self.old ++ line.now ∷ []) }
        ensures begins { OnOk result (Begins self.new) }
        ensures item { IfOk result (λ item. IsItem item × (line.now ≡ item_line item)) }
        ensures refused { result ≡ Err LineError.BadLine → ¬ (Begins (self.old ++ line.now ∷ [])) }
        ensures same { OnErr result (self.new ≡ self.old) }
    {
        let version = version_with(self.version, self.place.is_before_header(), line);
        let (item, place) = said(self.alloc, version, self.place, line)?;
        self.version = version;
        self.place = place;
        self.past.note(line);
        Ok(item)
    }

    /// Whether the lines are all of a log.
    pub fn is_done(&self) -> bool
        ensures { IsTrue result ↔ AreWhole self.now }
    {
        matches!(self.place, Place::AfterEnd)
    }
}
