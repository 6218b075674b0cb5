//! The program `spent_budgets`: solves each file that its words name with a budget of 0 nodes, of 1,
//! of 2 and so on, until the answer is optimal: by one worker and by three, each with reduction steps
//! and without, and with splits at links. Each log has to be accepted, with a bound below the cost where the answer isn't
//! optimal, and there the whole budget has to be spent. It writes the file's name and its cost, or the
//! first budget at which that fails. The files have no amounts with decimals.
#![tactic(auto)]

use st_edge::{DiskShelf, MemorySink, Shelf, Sink, StdSink, send_all};
use std::alloc::{AllocError, Global};
use std::env;
use std::process::ExitCode;
use std::sync::Wait;
use std::thread::Threads;
use steiner_top::{OpenGate, Outcome, Status, run};

/// More bytes than any of the solutions has.
const ROOM: u64 = 1_000_000;

/// The words that stand after the budget.
const REDUCED: &[&str] = &[];

const PLAIN: &[&str] = &["--plain"];

const REDUCED_BY_THREE: &[&str] = &["--workers", "3"];

const PLAIN_BY_THREE: &[&str] = &["--plain", "--workers", "3"];

const AT_LINKS: &[&str] = &["--links"];

const AT_LINKS_BY_THREE: &[&str] = &["--links", "--plain", "--workers", "3"];

/// All of these.
const WAYS: [&[&str]; 6] = [
    REDUCED,
    PLAIN,
    REDUCED_BY_THREE,
    PLAIN_BY_THREE,
    AT_LINKS,
    AT_LINKS_BY_THREE,
];

/// A budget that is enough for each of the program's files.
const ENOUGH: u64 = 200;

/// How solving and checking went.
enum Trial {
    /// The log shows that this cost is least.
    Optimal(u64),
    /// The log shows a bound below the cost, and the whole budget was spent.
    Spent,
    /// Neither.
    Wrong,
}

fn main(rt: HostRuntime) -> ExitCode {
    let Ok(names) = env::args(&rt) else {
        return ExitCode::from(Status::NoMemory.code());
    };
    let mut shelf = DiskShelf::new(&rt);
    let mut out = StdSink::new(&rt);
    for name in names.skip(1) {
        for way in WAYS {
            if tell(&rt, rt.alloc(), &name, way, &mut shelf, &mut out).is_err() {
                return ExitCode::from(Status::NoMemory.code());
            }
        }
    }
    ExitCode::SUCCESS
}

// Writes a line on a file.
fn tell<R: Threads + Wait + Sync, F: Shelf, K: Sink>(
    rt: &R,
    alloc: Global,
    name: &str,
    way: &[&str],
    shelf: &mut F,
    out: &mut K,
) -> Result<(), AllocError> {
    let line = line_on(rt, alloc, name, way, shelf)?;
    let _ = send_all(out, line.as_bytes());
    Ok(())
}

// What is to be written of a file.
fn line_on<R: Threads + Wait + Sync, F: Shelf>(
    rt: &R,
    alloc: Global,
    name: &str,
    way: &[&str],
    shelf: &mut F,
) -> Result<String, AllocError> {
    for budget in 0..ENOUGH {
        match try_budget(rt, alloc, name, way, budget, shelf)? {
            Trial::Spent => {}
            Trial::Optimal(cost) if budget == 0 => {
                return format!(in alloc; "{name} optimal {cost} without a budget\n");
            }
            Trial::Optimal(cost) => {
                return format!(in alloc; "{name} optimal {cost}, and less was spent whole\n");
            }
            Trial::Wrong => {
                return format!(in alloc; "{name} wrong with a budget of {budget}\n");
            }
        }
    }
    format!(in alloc; "{name} not optimal with a budget below {ENOUGH}\n")
}

// Solves a file within a budget, and checks the log.
fn try_budget<R: Threads + Wait + Sync, F: Shelf>(
    rt: &R,
    alloc: Global,
    name: &str,
    way: &[&str],
    budget: u64,
    shelf: &mut F,
) -> Result<Trial, AllocError> {
    let outcome = solve(rt, alloc, name, way, budget, shelf)?;
    let verdict = check(rt, alloc, name, shelf)?;
    judge(alloc, outcome, budget, verdict.bytes())
}

// What solving a file gives, whose log is saved.
fn solve<R: Threads + Wait + Sync, F: Shelf>(
    rt: &R,
    alloc: Global,
    name: &str,
    way: &[&str],
    budget: u64,
    shelf: &mut F,
) -> Result<Option<Outcome>, AllocError> {
    let mut words = words_of(alloc, &["solve", name, "--log", "log", "--nodes"])?;
    words.push(format!(in alloc; "{budget}")?)?;
    words.append(&mut words_of(alloc, way)?)?;
    let mut sent = MemorySink::of(alloc, ROOM, ROOM, Vec::new(alloc))?;
    Ok(run(rt, alloc, &words, shelf, &mut sent, &OpenGate).outcome)
}

// What is sent where the log is checked.
fn check<R: Threads + Wait + Sync, F: Shelf>(
    rt: &R,
    alloc: Global,
    name: &str,
    shelf: &mut F,
) -> Result<MemorySink, AllocError> {
    let words = words_of(alloc, &["check", name, "log"])?;
    let mut sent = MemorySink::of(alloc, ROOM, ROOM, Vec::new(alloc))?;
    let _ = run(rt, alloc, &words, shelf, &mut sent, &OpenGate);
    Ok(sent)
}

// What an outcome within a budget is, where checking its log sent this.
fn judge(
    alloc: Global,
    outcome: Option<Outcome>,
    budget: u64,
    verdict: &[u8],
) -> Result<Trial, AllocError> {
    let Some(
        Outcome::Found {
            primal,
            dual,
            expanded,
            ..
        },
    ) = outcome
    else {
        return Ok(Trial::Wrong);
    };
    let line = if dual == primal {
        format!(in alloc; "optimal {primal}\n")?
    } else {
        format!(in alloc; "bound {dual} {primal}\n")?
    };
    if verdict != line.as_bytes() {
        Ok(Trial::Wrong)
    } else if dual == primal {
        Ok(Trial::Optimal(primal))
    } else if expanded == budget {
        Ok(Trial::Spent)
    } else {
        Ok(Trial::Wrong)
    }
}

fn words_of(alloc: Global, words: &[&str]) -> Result<Vec<String>, AllocError> {
    let mut owned = Vec::new(alloc);
    for word in words {
        owned.push(String::from_str(alloc, word)?)?;
    }
    Ok(owned)
}
