//! Reads the text of an STP file into an instance of the Steiner tree problem, `read_stp` files of links,
//! and `read_file` directed files, too.
//!
//! `Reads` and `Refused` say by the lines of a text which instance it stands for, and in which unit its
//! costs and prizes count, or at which line and for which reason it stands for none. A caller may rely on both directions, and on exactly
//! one of the two. The reader goes over the text once, and of the numbers that it states only that
//! of `Nodes` takes memory.
#![tactic(auto)]

ghost use Rattle.std.specs.Prelude.{◌≡◌, ◌⊎◌, ℕ, IfOk, IfErr, Err, MatchResult};
ghost use Rattle.amounts.specs.declared.scale.Scale.{Scale};
ghost use Rattle.st_model.specs.Network.{Network};
ghost use Rattle.arborescence.specs.Problem.{Problem, IsProblem};
ghost use Rattle.stp_reader.specs.Answer.{problem_read, scale_read};
ghost use Rattle.stp_reader.specs.Reads.{Reads, ReadsFile, Refused, RefusedFile, IsRefusedBy, IsFileRefusedBy};
ghost use Rattle.stp_reader.specs.declared.reason.Reason.{Reason as StpReason};
ghost use Rattle.stp_reader.specs.declared.fault.ReadError.TheVariants.{Fault, NoMemory};

mod fault;
mod form;
mod graph;
mod keyword;
mod law;
mod lines;
mod mode;
mod numbers;
mod read;
mod reading;
mod reason;
mod rooted;
mod seen;
mod stage;
mod terminals;
mod words;

pub use fault::{ReadError, StpFault};
pub use keyword::is_word;
pub use law::{file_refused_exactly, reads_alike, refused_exactly};
pub use lines::{next_piece, without_cr};
use mode::Mode;
use read::contents_in;
pub use reading::{File, Reading};
use reading::{di_reading_of, reading_of};
pub use reason::Reason;
use stage::ContentsPart;
use std::alloc::Global;
pub use words::{has_magic, is_remark, next_word, no_word, one_word, two_words};

/// Reads an STP file, all of the bytes. Memory grows with the lines that were read and the number
/// of vertices that they state.
pub fn read_stp(alloc: Global, bytes: &[u8]) -> Result<Reading, ReadError>
    // What is read is the instance that the bytes stand for, and its scale.
    ensures found { IfOk result (λ read. Reads bytes.now read.instance read.scale) }
    // The instance that the bytes stand for, and its scale, is what is read, unless memory runs out.
    ensures only { (I : Network) (scale : Scale) → Reads bytes.now I scale
        → MatchResult result (λ read. (read.instance ≡ I) × (read.scale ≡ scale)) (λ e. e ≡ NoMemory) }
    // A fault is the first line with a reason, and the least of its reasons.
    ensures fault { IfErr result (IsRefusedBy bytes.now) }
    // Bytes that are refused so are answered with that line and reason, unless memory runs out.
    ensures refused { (line : ℕ) (reason : StpReason) → Refused bytes.now line reason
        → (result ≡ Err (Fault (record { line = line; reason = reason }))) ⊎ (result ≡ Err NoMemory) }
{
    let contents = contents_in(alloc, Mode::Plain, bytes)?;
    match contents {
        ContentsPart::Undirected(file) => {
            let read = reading_of(alloc, file)?;
            Ok(read)
        }
        ContentsPart::Directed(_) => unreachable!(),
    }
}

/// Reads an STP file of either kind, all of the bytes. Memory grows as that of `read_stp`.
pub fn read_file(alloc: Global, bytes: &[u8]) -> Result<File, ReadError>
    // What is read is the instance that the bytes stand for, and its scale.
    ensures found { IfOk result (λ file. ReadsFile bytes.now (problem_read file) (scale_read file)) }
    // It is a network of its kind.
    ensures right { IfOk result (λ file. IsProblem (problem_read file)) }
    // The instance that the bytes stand for, and its scale, is what is read, unless memory runs out.
    ensures only { (P : Problem) (scale : Scale) → ReadsFile bytes.now P scale
        → MatchResult result (λ file. (problem_read file ≡ P) × (scale_read file ≡ scale)) (λ e. e ≡ NoMemory) }
    // A fault is the first line with a reason, and the least of its reasons.
    ensures fault { IfErr result (IsFileRefusedBy bytes.now) }
    // Bytes that are refused so are answered with that line and reason, unless memory runs out.
    ensures refused { (line : ℕ) (reason : StpReason) → RefusedFile bytes.now line reason
        → (result ≡ Err (Fault (record { line = line; reason = reason }))) ⊎ (result ≡ Err NoMemory) }
{
    let contents = contents_in(alloc, Mode::Any, bytes)?;
    match contents {
        ContentsPart::Undirected(file) => {
            let read = reading_of(alloc, file)?;
            Ok(File::Plain(read))
        }
        ContentsPart::Directed(file) => {
            let (instance, scale) = di_reading_of(alloc, file)?;
            Ok(File::Directed { instance, scale })
        }
    }
}
