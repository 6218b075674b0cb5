ghost use Rattle.std.specs.Prelude.{◌≡◌, ◌++◌, ◌∷◌, ◌-◌, [], OnOk, OnErr, length, take};

use crate::Done;
use std::alloc::{AllocError, Global};
use std::marker::Model;

/// What a worker did, the first first.
#[derive(Debug, Drop)]
pub struct Records {
    done: Vec<Done>,
}

impl Model for Records {
    ghost use Rattle.std.specs.Prelude.{List};
    ghost use Rattle.search_core.specs.declared.done.Done.{Done as DoneSpec};

    ghost Value = { List DoneSpec };

    ghost view = { λ r. r.done.items };
}

impl Records {
    /// Nothing yet.
    pub fn new(alloc: Global) -> Records
        ensures { result ≡ [] }
    {
        Records {
            done: Vec::new(alloc),
        }
    }

    pub fn push(&mut self, done: Done) -> Result<(), AllocError>
        ensures ok { OnOk result (self.new ≡ self.old ++ done ∷ []) }
        ensures err { OnErr result (self.new ≡ self.old) }
    {
        self.done.push(done)?;
        Ok(())
    }

    /// Takes the last record back.
    pub fn forget(&mut self)
        ensures { self.new ≡ take (length self.old - 1) self.old }
    {
        let _ = self.done.pop();
    }

    pub fn as_slice(&self) -> &[Done]
        ensures { result.now ≡ self.now }
    {
        &self.done
    }
}
