ghost use Rattle.std.specs.Prelude.{◌≡◌, ◌+◌, ◌^◌, ◌<◌, [], ◌∷◌, ◌++◌, ◌↔◌, length, IsTrue, IfOk};
ghost use Rattle.arborescence.specs.Problem.{IsProblem};
ghost use Rattle.log_format.specs.Text.{AreWhole, Begins};
ghost use Rattle.cert_checker.specs.Heard.{IsHeard};
ghost use Rattle.cert_checker.specs.Hearing.{AreJudged};
ghost use Rattle.cert_checker.specs.Following.{Follows, IsReady};
ghost use Rattle.cert_checker.specs.Posed.{problem_of};
ghost use Rattle.cert_checker.specs.Held.{AreHeld, opened};

use crate::following::after_item;
use crate::posed::Posed;
use crate::splits::Splits;
use crate::stage::Stage;
use crate::{CheckFault, Verdict};
use log_format::{Item, LineError, LogReader, line_items};
use std::alloc::{AllocError, Global};
use std::marker::Model;

/// The lines of a log that came so far, and what is judged of them.
#[derive(Drop)]
pub struct Hearing {
    alloc: Global,
    posed: Posed,
    reader: LogReader,
    stage: Stage,
    splits: Splits,
    // How many lines there are.
    lines: u64,
}

impl Model for Hearing {
    ghost use Rattle.cert_checker.specs.Lines.{Lines};
    ghost use Rattle.cert_checker.specs.Hearing.{IsHearing};
    ghost use Rattle.cert_checker.specs.Posed.{problem_of};

    ghost Value = { Lines };

    ghost view = { λ h. record { problem = problem_of h.posed; lines = h.reader } };

    ghost invariant = { λ h. IsHearing (problem_of h.posed) h.reader h.stage h.splits h.lines };
}

// The splits that aren't finished after one more item, and what is judged then.
fn next_of(
    alloc: Global,
    posed: &Posed,
    splits: Splits,
    stage: Stage,
    item: Item,
) -> Result<(Splits, Stage), AllocError>
    requires { IsReady (problem_of posed.now) stage }
    ensures opened { IfOk result (λ next. next.0 ≡ opened splits item) }
    ensures follows { IfOk result (λ next. Follows (problem_of posed.now) item stage next.1) }
{
    let splits = splits.after(&item)?;
    let stage = after_item(alloc, posed, stage, item)?;
    Ok((splits, stage))
}

/// What became of a line.
#[derive(Drop)]
pub enum Heard {
    /// It was taken.
    Taken(Hearing),
    /// It may not stand at its place. The lines are those before it.
    Bad(Hearing),
}

impl Hearing {
    // No line, on this problem.
    pub fn new(alloc: Global, posed: Posed) -> Self
        ensures none { result ≡ record { problem = problem_of posed; lines = [] } }
        ensures begins { Begins result.lines }
    {
        Hearing {
            alloc,
            posed,
            reader: LogReader::begin(alloc),
            stage: Stage::BeforeHeader,
            splits: Splits::new(alloc),
            lines: 0,
        }
    }

    // Takes one more line, without its end.
    pub fn line(self, line: &[u8]) -> Result<Heard, AllocError>
        requires { length self.lines < 2 ^ 63 }
        ensures { IfOk result (IsHeard self line.now) }
    {
        let Hearing {
            alloc,
            posed,
            reader,
            stage,
            splits,
            lines,
        } = self;
        let mut reader = reader;
        match reader.line(line) {
            Ok(item) => {
                let (splits, stage) = next_of(alloc, &posed, splits, stage, item)?;
                Ok(Heard::Taken(Hearing {
                    alloc,
                    posed,
                    reader,
                    stage,
                    splits,
                    lines: lines + 1,
                }))
            }
            Err(LineError::BadLine) => Ok(Heard::Bad(Hearing {
                alloc,
                posed,
                reader,
                stage,
                splits,
                lines,
            })),
            Err(LineError::NoMemory) => Err(AllocError),
        }
    }

    // The number of the next line.
    pub fn next_line(&self) -> u64
        requires { length self.now.lines < 2 ^ 63 }
        ensures { result ≡ length self.now.lines + 1 }
    {
        self.lines + 1
    }

    // Whether the lines are all of a log.
    pub fn is_done(&self) -> bool
        ensures { IsTrue result ↔ AreWhole self.now.lines }
    {
        self.reader.is_done()
    }

    // How many splits aren't finished.
    pub fn held(&self) -> u64
        ensures { AreHeld self.now.lines result }
    {
        self.splits.count()
    }

    // What is judged of a log that came to its end.
    pub fn judgement(&self) -> Result<Verdict, CheckFault>
        requires { AreWhole self.now.lines }
        ensures judged { AreJudged self.now.problem self.now.lines result }
        ensures problem { IsProblem self.now.problem }
    {
        line_items();
        prove!(1 <= self.posed.vertices());
        match &self.stage {
            Stage::Right(verdict) => Ok(*verdict),
            Stage::Wrong(fault) => Err(CheckFault::Log(*fault)),
            _ => Err(CheckFault::NoMemory),
        }
    }
}
