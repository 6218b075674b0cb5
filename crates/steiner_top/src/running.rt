ghost use Rattle.std.specs.Prelude.{◌≡◌, ◌≢◌, ◌≤◌, ◌⊎◌, ℕ, List, [], None, map, string_bytes};
ghost use Rattle.std.specs.Io.KnownBytes.{append_known};
ghost use Rattle.st_edge.specs.Faults.{HasCause, Rose};
ghost use Rattle.st_edge.specs.Shelf.{AsksForFront};
ghost use Rattle.st_edge.specs.Sink.{TakesFront};
ghost use Rattle.command_line.specs.Words.{command_of};
ghost use Rattle.steiner_top.specs.Headline.{Headline, NothingFails};
ghost use Rattle.steiner_top.specs.Checked.{ChecksBothWays};
ghost use Rattle.steiner_top.specs.Causes.{EndsWith, IsCutShort, IsSaved, KeepsTexts, StopsAtLoad, loads_of};
ghost use Rattle.steiner_top.specs.declared.status.Status.TheVariants.{ReadFault, WriteFault};

use crate::answering::answer;
use crate::{Outcome, Status};
use st_edge::{Failed, Shelf, Sink, send_all};
use std::alloc::Global;
use std::sync::Wait;
use std::thread::Threads;
use worker_loop::Gate;

/// How a run ended.
#[derive(Debug, Drop)]
pub struct Ended {
    pub status: Status,
    /// What solving gave, where a file or a drawn instance was solved and the answer was taken whole.
    pub outcome: Option<Outcome>,
}

/// Does what the words of the command line say, without the program's name.
///
/// `solve FILE` loads the file from the shelf, reads it as an STP file and solves it within the
/// budget of nodes, by a search of what reduction steps leave of it unless the words say `--plain`,
/// which splits nodes at vertices alone unless they say `--links`, saves the log if the words ask
/// for it, and then sends the solution to the sink.
/// `check FILE LOG` loads both, and sends what may be concluded of the file from the log.
/// `resume FILE LOG` loads both, goes on from the log where it is light, within a budget of nodes, and saves and sends as `solve` does.
/// `few FILE` sends a best tree of a file with at most twelve terminals in which no other vertex pays, without a search.
/// `verify FILE SOLUTION` loads both, and sends what the tree costs that the solution claims, or what is wrong with it.
/// `gen SEED N M T` draws an instance and sends its text. `trial SEED N M T` draws one and solves it within a budget of
/// 1,000,000 nodes, and sends the cost of its tree and a bound; where they are equal the words say which cost that is.
pub fn run<R: Threads + Wait + Sync, F: Shelf, K: Sink, G: Gate>(
    rt: &R,
    alloc: Global,
    words: &[String],
    shelf: &mut F,
    out: &mut K,
    gate: &G,
) -> Ended
    // Where no device and no memory fails, the words and the texts decide how it ends.
    ensures headline { Headline (command_of (map string_bytes words.now)) (F.text shelf.old) (F.text shelf.new)
        (record { reads = F.read_faults shelf.old; saves = F.write_faults shelf.old; writes = K.faults out.old })
        (record { reads = F.read_faults shelf.new; saves = F.write_faults shelf.new; writes = K.faults out.new })
        result.status result.outcome (K.taken out.old) (K.taken out.new) }
    ensures checks { NothingFails
        (record { reads = F.read_faults shelf.old; saves = F.write_faults shelf.old; writes = K.faults out.old })
        (record { reads = F.read_faults shelf.new; saves = F.write_faults shelf.new; writes = K.faults out.new })
        result.status
        → ChecksBothWays (command_of (map string_bytes words.now)) (F.text shelf.old) result.status
        (K.taken out.old) (K.taken out.new) }
    // Why each status came, and what was sent.
    ensures sent { result.status ≢ WriteFault → (sent : List ℕ)
        × EndsWith (command_of (map string_bytes words.now)) (F.text shelf.old) result.status result.outcome sent
        × (K.taken out.new ≡ append_known (K.taken out.old) sent) }
    ensures cut_short { result.status ≡ WriteFault
        → IsCutShort (command_of (map string_bytes words.now)) (F.text shelf.old) (F.text shelf.new)
        (Rose (F.write_faults shelf.old) (F.write_faults shelf.new)) (K.taken out.old) (K.taken out.new) }
    ensures no_outcome { result.status ≡ WriteFault → result.outcome ≡ None }
    // The file is loaded, and then the log that is to be checked, and no other text.
    ensures asked { AsksForFront (F.asked shelf.old) (F.asked shelf.new)
        (loads_of (command_of (map string_bytes words.now))) }
    // The first text that fails to load ends the run.
    ensures first { StopsAtLoad (loads_of (command_of (map string_bytes words.now))) (F.text shelf.old)
        (F.asked shelf.old) (F.asked shelf.new) result.status }
    // A log that was asked for stands where an outcome was sent, and nothing is sent where it doesn't.
    ensures saved { IsSaved (command_of (map string_bytes words.now)) (F.text shelf.new) result.outcome }
    ensures unsaved { result.status ≡ WriteFault → (Rose (K.faults out.old) (K.faults out.new) → ⊥)
        → K.taken out.new ≡ K.taken out.old }
    ensures texts { KeepsTexts (command_of (map string_bytes words.now)) result.status result.outcome
        (F.text shelf.old) (F.text shelf.new) }
    // Each fault was counted.
    ensures read_cause { HasCause (F.read_faults shelf.old) (F.read_faults shelf.new) (result.status ≡ ReadFault) }
    ensures write_cause { result.status ≡ WriteFault
        → Rose (F.write_faults shelf.old) (F.write_faults shelf.new) ⊎ Rose (K.faults out.old) (K.faults out.new) }
    ensures counts { (F.write_faults shelf.old ≤ F.write_faults shelf.new) × (K.faults out.old ≤ K.faults out.new) }
{
    stp_reader::refused_exactly();
    stp_reader::file_refused_exactly();
    stp_reader::reads_alike();
    solution_reader::solutions_refused_exactly();
    log_format::one_spelling();
    log_format::refused_exactly();
    log_format::rejected_exactly();
    match answer(rt, alloc, words, shelf, gate) {
        Ok(answer) => send(out, answer.status, answer.outcome, &answer.text),
        Err(status) => send(out, status, None, status.line().as_bytes()),
    }
}

// Sends the last bytes of a run that ends so, if they are taken.
fn send<K: Sink>(out: &mut K, status: Status, outcome: Option<Outcome>, bytes: &[u8]) -> Ended
    ensures sent { result.status ≢ WriteFault
        → (result.status ≡ status) × (result.outcome ≡ outcome)
        × (K.taken out.new ≡ append_known (K.taken out.old) bytes.now) }
    ensures outcome { (result.outcome ≡ outcome) ⊎ (result.outcome ≡ None) }
    ensures lost { result.status ≡ WriteFault → status ≢ WriteFault → result.outcome ≡ None }
    ensures cut_short { result.status ≡ WriteFault → status ≢ WriteFault
        → TakesFront (K.taken out.old) (K.taken out.new) bytes.now }
    ensures cause { HasCause (K.faults out.old) (K.faults out.new)
        ((result.status ≡ WriteFault) × (status ≢ WriteFault)) }
    ensures nothing { bytes.now ≡ [] → K.taken out.new ≡ K.taken out.old }
{
    match send_all(out, bytes) {
        Ok(()) => Ended { status, outcome },
        Err(Failed) => Ended {
            status: Status::WriteFault,
            outcome: None,
        },
    }
}
