ghost use Rattle.std.specs.Prelude.{◌≡◌, ℕ, ◌+◌, ◌^◌, ◌<◌, [], ◌++◌, ◌∷◌, ◌⊎◌, length, None, Ok, Err, IfOk, IfErr, IsErrAnd, MatchResult};
ghost use Rattle.plain_text.specs.Pieces.{cut};
ghost use Rattle.st_model.specs.Network.{Network};
ghost use Rattle.stp_reader.specs.declared.reason.Reason.{Reason};
ghost use Rattle.stp_reader.specs.Answer.{problem_read, scale_read};
ghost use Rattle.stp_reader.specs.Reads.{Reads, ReadsFile, Refused, RefusedFile};
ghost use Rattle.log_format.specs.declared.kind.Kind.{Kind as LogKind};
ghost use Rattle.cert_checker.specs.declared.fault.CheckFault.TheVariants.{Stp, Log, NoMemory};
ghost use Rattle.cert_checker.specs.declared.verdict.Verdict.{Verdict as Conclusion};
ghost use Rattle.arborescence.specs.Problem.{Problem, plain};
ghost use Rattle.cert_checker.specs.Checking.{IsAcceptedTextIn, IsWrongTextIn};
ghost use Rattle.cert_checker.specs.Fault.{IsFaultOfAnyFile, IsFaultOfFile};
ghost use Rattle.cert_checker.specs.Held.{IsHeld};
ghost use Rattle.cert_checker.specs.Pieces.{IsAnswerTo, IsVerdictOn};
ghost use Rattle.amounts.specs.declared.scale.Scale.{Scale as FileScale};
ghost use Rattle.cert_checker.specs.Posed.{problem_of};
ghost use Rattle.cert_checker.specs.Verdict.{ConcludesIn};

use crate::fed::Fed;
use crate::hearing::{Heard, Hearing};
use crate::posed::Posed;
use crate::{CheckFault, Checked, Verdict};
use amounts::Scale;
use log_format::{
    Kind, LogFault, accepted_of_a_problem_holds, one_spelling, refused_exactly,
    rejected_of_a_problem_exactly,
};
use plain_text::cut_at;
use std::alloc::{AllocError, Global};
use std::marker::Model;
use stp_reader::{File, Reading, read_file, read_stp};

/// A checker of a log that comes in pieces.
#[derive(Drop)]
pub struct Checker {
    hearing: Hearing,
    scale: Scale,
    // Whether a line came that may not stand at its place. Nothing after it is looked at.
    is_bad: bool,
    // What came of the line that isn't whole yet.
    part: Vec<u8>,
    fed: Fed,
}

impl Model for Checker {
    ghost use Rattle.cert_checker.specs.Pieces.{Pieces};
    ghost use Rattle.cert_checker.specs.Hearing.{IsFed};

    // The problem and what its numbers count, and the pieces that came, one after the other.
    ghost Value = { Pieces };

    ghost view = { λ c. record { problem = c.hearing.problem; scale = c.scale; text = c.fed } };

    ghost invariant = { λ c. IsFed c.hearing.lines c.is_bad c.part.items c.fed };
}

impl Checker {
    /// A checker of logs on the instance of an STP file, to which nothing was fed.
    pub fn begin(alloc: Global, stp: &[u8]) -> Result<Checker, CheckFault>
        // It is of the instance that the file stands for, and its scale.
        ensures found { IfOk result (λ c. (I : Network) × Reads stp.now I c.scale
            × (c.problem ≡ plain I) × (c.text ≡ [])) }
        // The instance that the file stands for is that of the checker, unless memory runs out.
        ensures only { (I : Network) (scale : FileScale) → Reads stp.now I scale → MatchResult result
            (λ c. c ≡ record { problem = plain I; scale = scale; text = [] }) (λ e. e ≡ NoMemory) }
        // A fault is the first of the file.
        ensures fault { IfErr result (IsFaultOfFile stp.now) }
        // A file that is refused is answered so, unless memory runs out.
        ensures refused { (line : ℕ) (reason : Reason) → Refused stp.now line reason → IsErrAnd result
            (λ e. (e ≡ Stp (record { line = line; reason = reason })) ⊎ (e ≡ NoMemory)) }
    {
        let reading = read_stp(alloc, stp)?;
        let scale = reading.scale;
        Ok(Checker::on(alloc, Posed::Plain(reading.instance), scale))
    }

    /// A checker of logs on the problem of an STP file, undirected or directed, to which nothing was fed.
    pub fn begin_file(alloc: Global, stp: &[u8]) -> Result<Checker, CheckFault>
        // It is of the problem that the file stands for, and its scale.
        ensures found { IfOk result (λ c. ReadsFile stp.now c.problem c.scale × (c.text ≡ [])) }
        // The problem that the file stands for is that of the checker, unless memory runs out.
        ensures only { (p : Problem) (scale : FileScale) → ReadsFile stp.now p scale → MatchResult result
            (λ c. c ≡ record { problem = p; scale = scale; text = [] }) (λ e. e ≡ NoMemory) }
        // A fault is the first of the file.
        ensures fault { IfErr result (IsFaultOfAnyFile stp.now) }
        // A file that is refused is answered so, unless memory runs out.
        ensures refused { (line : ℕ) (reason : Reason) → RefusedFile stp.now line reason → IsErrAnd result
            (λ e. (e ≡ Stp (record { line = line; reason = reason })) ⊎ (e ≡ NoMemory)) }
    {
        let file = read_file(alloc, stp)?;
        Ok(Checker::of_file(alloc, file))
    }

    // A checker of logs on what a file stands for.
    fn of_file(alloc: Global, file: File) -> Checker
        ensures { result ≡ record { problem = problem_read file; scale = scale_read file; text = [] } }
    {
        match file {
            File::Plain(reading) => {
                let Reading { instance, scale } = reading;
                Checker::on(alloc, Posed::Plain(instance), scale)
            }
            File::Directed { instance, scale } => Checker::on(
                alloc,
                Posed::Directed(instance),
                scale,
            ),
        }
    }

    /// A checker of logs on this problem, whose numbers count so much, and to which nothing was fed.
    pub fn on(alloc: Global, posed: Posed, scale: Scale) -> Checker
        ensures { result ≡ record { problem = problem_of posed; scale = scale; text = [] } }
    {
        Checker {
            hearing: Hearing::new(alloc, posed),
            scale,
            is_bad: false,
            part: Vec::new(alloc),
            fed: Fed::new(),
        }
    }

    /// The checker to which the next piece of the log was fed. A piece may end anywhere. What is kept
    /// is the problem and what the steps so far left of it, the splits that are open, one packing,
    /// the arcs of the tree until they are judged, and the line that isn't whole yet. Without memory
    /// the checker comes to its end.
    pub fn feed(self, piece: &[u8]) -> Result<Checker, AllocError>
        requires few { length self.text + length piece.now < 2 ^ 63 }
        ensures problem { IfOk result (λ c. c.problem ≡ self.problem) }
        ensures scale { IfOk result (λ c. c.scale ≡ self.scale) }
        ensures text { IfOk result (λ c. c.text ≡ self.text ++ piece.now) }
    {
        let mut checker = self;
        let mut rest = piece;
        while let Some((line, after)) = cut_at(rest, b'\n') {
            checker = checker.end_line(line)?;
            rest = after;
        }
        checker.go_on(rest)
    }

    // The checker after the last bytes of a line, and its end.
    fn end_line(self, line: &[u8]) -> Result<Checker, AllocError>
        requires few { length self.text + length line.now + 1 < 2 ^ 63 }
        requires one { cut 10 line.now ≡ None }
        ensures problem { IfOk result (λ c. c.problem ≡ self.problem) }
        ensures scale { IfOk result (λ c. c.scale ≡ self.scale) }
        ensures text { IfOk result (λ c. c.text ≡ self.text ++ (line.now ++ 10 ∷ [])) }
    {
        let scale = self.scale;
        let mut fed = self.fed;
        fed.note(line);
        fed.note(b"\n");
        if self.is_bad {
            return Ok(Checker {
                hearing: self.hearing,
                scale: self.scale,
                is_bad: true,
                part: self.part,
                fed,
            });
        }
        let mut part = self.part;
        part.extend_from_slice(line)?;
        let heard = self.hearing.line(&part)?;
        part.clear();
        match heard {
            Heard::Taken(hearing) => Ok(Checker {
                hearing,
                scale,
                is_bad: false,
                part,
                fed,
            }),
            Heard::Bad(hearing) => Ok(Checker {
                hearing,
                scale,
                is_bad: true,
                part,
                fed,
            }),
        }
    }

    // The checker after bytes that end no line.
    fn go_on(self, bytes: &[u8]) -> Result<Checker, AllocError>
        requires few { length self.text + length bytes.now < 2 ^ 63 }
        requires none { cut 10 bytes.now ≡ None }
        ensures problem { IfOk result (λ c. c.problem ≡ self.problem) }
        ensures scale { IfOk result (λ c. c.scale ≡ self.scale) }
        ensures text { IfOk result (λ c. c.text ≡ self.text ++ bytes.now) }
    {
        let mut fed = self.fed;
        fed.note(bytes);
        if self.is_bad {
            return Ok(Checker {
                hearing: self.hearing,
                scale: self.scale,
                is_bad: true,
                part: self.part,
                fed,
            });
        }
        let mut part = self.part;
        part.extend_from_slice(bytes)?;
        Ok(Checker {
            hearing: self.hearing,
            scale: self.scale,
            is_bad: false,
            part,
            fed,
        })
    }

    /// What may be concluded of the problem from the log whose text is all that was fed: what `check`
    /// answers to it, however it was cut into pieces. The faults of the text come first, wherever they
    /// stand, and then those of what it says. It takes no memory.
    pub fn finish(self) -> Result<Checked, CheckFault>
        // The verdict is true of the trees of the problem, and of their costs.
        ensures concludes { IfOk result (λ checked. ConcludesIn self.problem checked.verdict) }
        // Each answer has its reason.
        ensures exact { IsAnswerTo self result }
        // Each reason has its answer.
        ensures accepted { (verdict : Conclusion) → IsAcceptedTextIn self.problem self.text verdict
            → result ≡ Ok (record { verdict = verdict; scale = self.scale }) }
        ensures log { (line : ℕ) (kind : LogKind) → IsWrongTextIn self.problem self.text line kind
            → result ≡ Err (Log (record { line = line; kind = kind })) }
    {
        self.checked()
    }

    // The verdict and its unit, or the first fault, and that each reason has its answer.
    fn checked(&self) -> Result<Checked, CheckFault>
        ensures concludes { IfOk result (λ checked. ConcludesIn self.now.problem checked.verdict) }
        ensures exact { IsAnswerTo self.now result }
        ensures accepted { (verdict : Conclusion) → IsAcceptedTextIn self.now.problem self.now.text verdict
            → result ≡ Ok (record { verdict = verdict; scale = self.now.scale }) }
        ensures log { (line : ℕ) (kind : LogKind) → IsWrongTextIn self.now.problem self.now.text line kind
            → result ≡ Err (Log (record { line = line; kind = kind })) }
    {
        let scale = self.unit();
        match self.reasoned_answer() {
            Ok(verdict) => Ok(Checked { verdict, scale }),
            Err(fault) => Err(fault),
        }
    }

    // What the numbers of the problem count.
    fn unit(&self) -> Scale
        ensures { result ≡ self.now.scale }
    {
        self.scale
    }

    // The verdict, or the first fault, and that each reason has its answer.
    fn reasoned_answer(&self) -> Result<Verdict, CheckFault>
        ensures concludes { IfOk result (ConcludesIn self.now.problem) }
        ensures exact { IsVerdictOn self.now.problem self.now.text result }
        ensures accepted { (verdict : Conclusion) → IsAcceptedTextIn self.now.problem self.now.text verdict
            → result ≡ Ok verdict }
        ensures log { (line : ℕ) (kind : LogKind) → IsWrongTextIn self.now.problem self.now.text line kind
            → result ≡ Err (Log (record { line = line; kind = kind })) }
    {
        one_spelling();
        refused_exactly();
        rejected_of_a_problem_exactly();
        self.answer()
    }

    // The verdict, or the first fault.
    fn answer(&self) -> Result<Verdict, CheckFault>
        ensures exact { IsVerdictOn self.now.problem self.now.text result }
        ensures concludes { IfOk result (ConcludesIn self.now.problem) }
    {
        accepted_of_a_problem_holds();
        if self.is_bad {
            return Err(fault_at(self.hearing.next_line(), Kind::BadLine));
        }
        if !self.hearing.is_done() {
            return Err(fault_at(self.hearing.next_line(), Kind::EndsEarly));
        }
        if !self.part.as_slice().is_empty() {
            return Err(fault_at(self.hearing.next_line(), Kind::BadLine));
        }
        self.hearing.judgement()
    }

    /// How many splits of the log so far, up to the first line that may not stand at its place, have a
    /// proof that isn't finished. It takes no memory.
    pub fn held(&self) -> u64
        ensures { IsHeld self.now.text result }
    {
        self.hearing.held()
    }
}

// The fault of this kind at a line.
fn fault_at(line: u64, kind: Kind) -> CheckFault
    ensures { result ≡ Log (record { line = line; kind = kind }) }
{
    CheckFault::Log(LogFault { line, kind })
}
