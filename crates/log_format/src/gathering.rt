ghost use Rattle.std.specs.Prelude.{◌≡◌, ◌∷◌, [], ◌++◌, OnOk, OnErr, MatchOption, Err};
ghost use Rattle.log_format.specs.Text.{IsLog, AreWhole, Begins, log_lines};

use crate::fault::LineError;
use crate::kept_sets::KeptSets;
use crate::log::version_with;
use crate::stage::{Stage, step};
use crate::{Log, Version};
use std::alloc::Global;
use std::marker::Model;
use std::mem;

/// The lines of a log that were read so far, with all that they said.
#[derive(Drop)]
pub(crate) struct Gathering {
    alloc: Global,
    kept: KeptSets,
    // Version 1 until the first line says it.
    version: Version,
    stage: Stage,
}

impl Model for Gathering {
    ghost use Rattle.std.specs.Prelude.{ℕ, List};

    ghost Value = { List (List ℕ) };

    ghost use Rattle.log_format.specs.Reached.{lines_read, IsRead};

    ghost view = { λ r. lines_read r.version r.stage };

    ghost invariant = { λ r. IsRead r.version r.stage };
}

impl Gathering {
    /// A gathering of no line.
    pub(crate) fn new(alloc: Global) -> Gathering
        ensures none { result ≡ [] }
        ensures begins { Begins result }
    {
        Gathering {
            alloc,
            kept: KeptSets::new(alloc),
            version: Version::One,
            stage: Stage::AtHeader,
        }
    }

    /// Reads one more line, without its end. After an error it is as new.
    pub(crate) fn line(&mut self, line: &[u8]) -> Result<(), LineError>
        ensures ok { OnOk result (self.new ≡ self.old ++ line.now ∷ []) }
        ensures begins { OnOk result (Begins self.new) }
        ensures refused { result ≡ Err LineError.BadLine → ¬ (Begins (self.old ++ line.now ∷ [])) }
        ensures err { OnErr result (self.new ≡ []) }
    {
        let version = version_with(self.version, self.stage.is_at_header(), line);
        let stage = mem::replace(&mut self.stage, Stage::AtHeader);
        self.stage = step(self.alloc, &mut self.kept, version, stage, line)?;
        self.version = version;
        Ok(())
    }

    /// The log whose lines these are, exactly where they are all of one.
    pub(crate) fn finish(self) -> Option<Log>
        ensures { MatchOption result (¬ (AreWhole self)) (λ log. IsLog log × (log_lines log ≡ self)) }
    {
        let Gathering { version, stage, .. } = self;
        match stage {
            Stage::AtNothing(claim) => Some(Log { version, claim }),
            _ => None,
        }
    }
}
