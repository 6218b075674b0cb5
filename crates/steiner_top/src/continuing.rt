ghost use Rattle.std.specs.Prelude.{◌≡◌, ◌⊎◌, ◌<◌, ◌^◌, ℕ, Err, IfOk};
ghost use Rattle.amounts.specs.declared.scale.Scale.{Scale as FileScale};
ghost use Rattle.st_model.specs.Network.{Network};
ghost use Rattle.stp_reader.specs.declared.reason.Reason.{Reason};
ghost use Rattle.stp_reader.specs.Reads.{Reads, Refused};
ghost use Rattle.log_format.specs.declared.kind.Kind.{Kind};
ghost use Rattle.log_format.specs.Accepts.{Accepts};
ghost use Rattle.log_format.specs.Text.{IsLog, log_text};
ghost use Rattle.cert_checker.specs.declared.fault.CheckFault.TheVariants.{Stp, Log as OfLog, NoMemory};
ghost use Rattle.cert_checker.specs.Checking.{IsWrongText};
ghost use Rattle.resuming.specs.Resumed.{expanded_by};
ghost use Rattle.steiner_top.specs.Resumed.{IsResumption, Resumes};

use crate::outcome::Outcome;
use crate::solving::shown;
use cert_checker::{CheckFault, check};
use log_format::{Claim, Log, read_log};
use resuming::{Resumed, resume};
use search_core::Searched;
use std::alloc::{AllocError, Global};
use std::sync::Wait;
use std::thread::Threads;
use stp_reader::{Reading, read_stp};
use worker_loop::{Gate, Limits};

/// Goes on from a log of an STP file, all of the bytes of both, expanding so many nodes at most: a tree
/// that is no dearer than the log's and a bound that is no lower, with their certificate; the bound is
/// the tree's cost unless the whole budget was spent. A log that claims that there is no tree is the
/// certificate of that. The faults are those of a check.
pub fn resume_bytes<R: Threads + Wait + Sync, G: Gate>(
    rt: &R,
    alloc: Global,
    stp: &[u8],
    log: &[u8],
    limits: Limits,
    gate: &G,
) -> Result<Outcome, CheckFault>
    // Each answer has its reason.
    ensures exact { Resumes limits.budget stp.now log.now result }
    // A file that is refused is answered with that line and reason, unless memory runs out.
    ensures refused { (line : ℕ) (reason : Reason) → Refused stp.now line reason
        → (result ≡ Err (Stp (record { line = line; reason = reason }))) ⊎ (result ≡ Err NoMemory) }
    // And so is a log that is wrong of it.
    ensures wrong { (I : Network) (scale : FileScale) (line : ℕ) (kind : Kind) → Reads stp.now I scale
        → IsWrongText I log.now line kind
        → (result ≡ Err (OfLog (record { line = line; kind = kind }))) ⊎ (result ≡ Err NoMemory) }
{
    log_format::one_spelling();
    stp_reader::refused_exactly();
    check(alloc, stp, log)?;
    let reading = read_again(alloc, stp)?;
    let log = read_log_again(alloc, log)?;
    let outcome = go_on(rt, alloc, &reading, log, limits, gate)?;
    Ok(outcome)
}

// What a file stands for that was read before.
fn read_again(alloc: Global, stp: &[u8]) -> Result<Reading, AllocError>
    ensures { IfOk result (λ reading. Reads stp.now reading.instance reading.scale) }
{
    read_stp(alloc, stp).map_err(|_| AllocError)
}

// The log whose text was read before.
fn read_log_again(alloc: Global, bytes: &[u8]) -> Result<Log, AllocError>
    ensures { IfOk result (λ log. IsLog log × (bytes.now ≡ log_text log)) }
{
    read_log(alloc, bytes).map_err(|_| AllocError)
}

// Goes on from a log that is accepted of an instance.
fn go_on<R: Threads + Wait + Sync, G: Gate>(
    rt: &R,
    alloc: Global,
    reading: &Reading,
    log: Log,
    limits: Limits,
    gate: &G,
) -> Result<Outcome, AllocError>
    requires log { IsLog log }
    requires accepted { Accepts reading.now.instance log }
    ensures { IfOk result (IsResumption limits.budget reading.now.instance reading.now.scale log) }
{
    log_format::accepted_holds();
    prove!(1 <= reading.instance.vertices());
    if let Claim::NoTree { .. } = log.claim {
        return Ok(Outcome::NoTree { certificate: log });
    }
    let resumed = resume(rt, alloc, &reading.instance, log, limits, gate)?;
    let expanded = expanded_by(&resumed.searches);
    let Resumed {
        searches,
        certificate,
    } = resumed;
    let outcome = shown(alloc, expanded, searches, certificate, reading.scale)?;
    Ok(outcome)
}

// How many nodes some searches worked on.
fn expanded_by(searches: &[Searched]) -> u64
    requires { expanded_by searches.now < 2 ^ 64 }
    ensures { result ≡ expanded_by searches.now }
{
    let mut expanded: u64 = 0;
    for search in searches {
        expanded += search.gathered.claimed;
    }
    expanded
}
