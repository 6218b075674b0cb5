//! Reads a solution file in the sections of the 11th DIMACS Challenge, and judges whether it is a tree of an
//! instance that costs what it says.
//!
//! `ReadsSolution` and `RefusedSolution` say by the lines of a text which claim it makes, or at which line and
//! for which reason it makes none. A caller may rely on both directions, and on exactly one of the two. The
//! reader goes over the text once, and no number that it states takes memory.
#![tactic(auto)]

ghost use Rattle.std.specs.Prelude.{◌≡◌, ◌≢◌, ◌⊎◌, ℕ, IfOk, IfErr, Ok, Err, MatchResult};
ghost use Rattle.solution_reader.specs.Claim.{Claim};
ghost use Rattle.solution_reader.specs.Reads.{ReadsSolution, RefusedSolution, IsRefusedBy};
ghost use Rattle.solution_reader.specs.Stated.{IsStated, IsVerifyFault};
ghost use Rattle.solution_reader.specs.declared.verify_fault.VerifyFault.{VerifyFault as FaultFound};
ghost use Rattle.solution_reader.specs.declared.verify_fault.VerifyFault.TheVariants.{NoMemory as NoMemoryToJudge};
ghost use Rattle.solution_reader.specs.declared.reason.SolReason.{SolReason as SolutionReason};
ghost use Rattle.solution_reader.specs.declared.fault.SolError.TheVariants.{Fault, NoMemory};

mod claimed;
mod fault;
mod form;
mod judge;
mod keyword;
mod law;
mod numbers;
mod read;
mod reason;
mod stage;
mod tree_part;
mod verify_fault;

use amounts::Scale;
pub use claimed::Claimed;
pub use fault::{SolError, SolFault};
use judge::judged;
pub use law::{
    solutions_refused_exactly, stated_has_no_fault, written_pairs_are_read,
    written_solutions_are_read,
};
use read::whole_in;
pub use reason::SolReason;
use st_model::Instance;
use std::alloc::Global;
pub use verify_fault::VerifyFault;

/// Reads a solution file, all of the bytes. Memory grows with the lines that were read. The sections are those
/// of the 11th DIMACS Challenge (2014).
pub fn read_solution(alloc: Global, bytes: &[u8]) -> Result<Claimed, SolError>
    // What is read is the claim that the bytes make.
    ensures found { IfOk result (ReadsSolution bytes.now) }
    // The claim that the bytes make is what is read, unless memory runs out.
    ensures only { (claim : Claim) → ReadsSolution bytes.now claim
        → MatchResult result (λ read. read ≡ claim) (λ e. e ≡ NoMemory) }
    // A fault is the first line with a reason, and that reason.
    ensures fault { IfErr result (IsRefusedBy bytes.now) }
    // Bytes that are refused so are answered with that line and reason, unless memory runs out.
    ensures refused { (line : ℕ) (reason : SolutionReason) → RefusedSolution bytes.now line reason
        → (result ≡ Err (Fault (record { line = line; reason = reason }))) ⊎ (result ≡ Err NoMemory) }
{
    let whole = whole_in(alloc, bytes)?;
    let claimed = Claimed::of(whole)?;
    Ok(claimed)
}

/// What a claimed tree costs in an instance, in units of its scale, or the first thing that is wrong with the claim.
pub fn verify(
    alloc: Global,
    instance: &Instance,
    scale: Scale,
    claimed: &Claimed,
) -> Result<u64, VerifyFault>
    // The claim is a tree of the instance, the cost is the tree's, and a primal that is stated is this cost.
    ensures tree { IfOk result (IsStated instance.now scale claimed.now) }
    // A fault is the first thing that is wrong with the claim.
    ensures fault { IfErr result (IsVerifyFault instance.now scale claimed.now) }
    // A claim that is such a tree is answered with its cost, unless memory runs out.
    ensures ok { (c : ℕ) → IsStated instance.now scale claimed.now c
        → (result ≡ Ok c) ⊎ (result ≡ Err NoMemoryToJudge) }
    // A claim with a fault is answered with the first one, unless memory runs out.
    ensures only { (f : FaultFound) → IsVerifyFault instance.now scale claimed.now f → f ≢ NoMemoryToJudge
        → (result ≡ Err f) ⊎ (result ≡ Err NoMemoryToJudge) }
{
    judged(alloc, instance, scale, claimed)
}
