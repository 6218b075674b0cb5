ghost use Rattle.std.specs.Prelude.{◌≡◌, [], ◌+◌, ◌≤◌, length, IfOk, IfErr, MatchResult};
ghost use Rattle.log_format.specs.Text.{IsLog, Begins, log_text, whole_lines, unfinished};
ghost use Rattle.log_format.specs.Refused.{IsRefusedBy};

use crate::gathering::Gathering;
use crate::{Kind, LineError, Log, LogFault, ReadError};
use plain_text::cut_at;
use std::alloc::Global;

// What is wrong at a line.
fn fault(line: u64, kind: Kind) -> ReadError
    ensures { result ≡ ReadError.Fault (record { line = line; kind = kind }) }
{
    ReadError::Fault(LogFault { line, kind })
}

// Reads all the whole lines. Answers how many there are, and what stands after them.
fn read_lines<'a>(reader: &mut Gathering, bytes: &'a [u8]) -> Result<(u64, &'a [u8]), ReadError>
    requires { reader.old ≡ [] }
    ensures lines { IfOk result (λ x. reader.new ≡ whole_lines bytes.now) }
    ensures count { IfOk result (λ x. x.0 ≡ length (whole_lines bytes.now)) }
    ensures few { IfOk result (λ x. x.0 + length x.1.now ≤ length bytes.now) }
    ensures after { IfOk result (λ x. x.1.now ≡ unfinished bytes.now) }
    ensures begins { IfOk result (λ x. Begins (whole_lines bytes.now)) }
    ensures refused { IfErr result (IsRefusedBy bytes.now) }
{
    let mut rest = bytes;
    let mut lines: u64 = 0;
    while let Some((line, after)) = cut_at(rest, b'\n') {
        lines += 1;
        match reader.line(line) {
            Ok(()) => {}
            Err(LineError::BadLine) => return Err(fault(lines, Kind::BadLine)),
            Err(LineError::NoMemory) => return Err(ReadError::NoMemory),
        }
        rest = after;
    }
    Ok((lines, rest))
}

// Reads the text of a log, all of the bytes.
fn read(alloc: Global, bytes: &[u8]) -> Result<Log, ReadError>
    ensures found { IfOk result (λ log. IsLog log × (bytes.now ≡ log_text log)) }
    ensures fault { IfErr result (IsRefusedBy bytes.now) }
{
    let mut reader = Gathering::new(alloc);
    let (lines, after) = read_lines(&mut reader, bytes)?;
    let Some(log) = reader.finish() else {
        return Err(fault(lines + 1, Kind::EndsEarly));
    };
    if !after.is_empty() {
        return Err(fault(lines + 1, Kind::BadLine));
    }
    Ok(log)
}

/// Reads the text of a log, all of the bytes. Memory grows with the lines that were read.
pub fn read_log(alloc: Global, bytes: &[u8]) -> Result<Log, ReadError>
    // What is read is a log that has this text.
    ensures found { IfOk result (λ log. IsLog log × (bytes.now ≡ log_text log)) }
    // A log that has this text is what is read, unless memory runs out.
    ensures only { (log : Log) → IsLog log → bytes.now ≡ log_text log
        → MatchResult result (λ read. read ≡ log) (λ e. e ≡ ReadError.NoMemory) }
    // A fault is at the first line that is wrong, or after the last.
    ensures fault { IfErr result (IsRefusedBy bytes.now) }
{
    read(alloc, bytes)
}
