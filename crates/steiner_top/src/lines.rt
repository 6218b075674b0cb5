ghost use Rattle.std.specs.Prelude.{◌≡◌, IfOk, string_bytes};
ghost use Rattle.dimacs_writer.specs.Solution.{remark};
ghost use Rattle.steiner_top.specs.Output.{infeasible_line, not_few_line, not_tree_line, refused_stp, refused_log, refused_solution, summary, tree_line, verdict_line};

use amounts::{Scale, amount_text};
use cert_checker::{Checked, Verdict};
use few_terminals::FewFault;
use log_format::LogFault;
use solution_reader::{SolFault, VerifyFault};
use std::alloc::{AllocError, Global};
use stp_reader::StpFault;

/// The line that the instance has no tree.
pub fn infeasible(alloc: Global) -> Result<String, AllocError>
    ensures { IfOk result (λ line. string_bytes line ≡ infeasible_line) }
{
    String::from_str(alloc, "infeasible\n")
}

/// The line that a file is refused.
pub fn refused_stp(alloc: Global, fault: StpFault) -> Result<String, AllocError>
    ensures { IfOk result (λ line. string_bytes line ≡ refused_stp fault.line fault.reason) }
{
    let (code, name) = (fault.reason.code(), fault.reason.name());
    format!(in alloc; "refused stp {} {} {}\n", fault.line, code, name)
}

/// The line that a log is refused.
pub fn refused_log(alloc: Global, fault: LogFault) -> Result<String, AllocError>
    ensures { IfOk result (λ line. string_bytes line ≡ refused_log fault.line fault.kind) }
{
    let (code, name) = (fault.kind.code(), fault.kind.name());
    format!(in alloc; "refused log {} {} {}\n", fault.line, code, name)
}

/// The line that an instance isn't one of few terminals.
pub fn not_few(alloc: Global, fault: FewFault) -> Result<String, AllocError>
    ensures { IfOk result (λ line. string_bytes line ≡ not_few_line fault) }
{
    let (code, name) = (fault.code(), fault.name());
    format!(in alloc; "not few {} {}\n", code, name)
}

/// The line of the cost of a tree that was claimed.
pub fn claimed_tree(alloc: Global, cost: u64, scale: Scale) -> Result<String, AllocError>
    ensures { IfOk result (λ line. string_bytes line ≡ tree_line cost scale) }
{
    let cost = amount_text(alloc, cost, scale)?;
    format!(in alloc; "tree {cost}\n")
}

/// The line that what was claimed isn't a tree.
pub fn not_tree(alloc: Global, fault: VerifyFault) -> Result<String, AllocError>
    ensures { IfOk result (λ line. string_bytes line ≡ not_tree_line fault) }
{
    let (number, name) = (fault.number(), fault.name());
    format!(in alloc; "not a tree {} {}\n", number, name)
}

/// The line that a solution is refused.
pub fn refused_claim(alloc: Global, fault: SolFault) -> Result<String, AllocError>
    ensures { IfOk result (λ line. string_bytes line ≡ refused_solution fault.line fault.reason) }
{
    let (code, name) = (fault.reason.code(), fault.reason.name());
    format!(in alloc; "refused solution {} {} {}\n", fault.line, code, name)
}

/// The line of a verdict.
pub fn verdict(alloc: Global, checked: Checked) -> Result<String, AllocError>
    ensures { IfOk result (λ line. string_bytes line ≡ verdict_line checked) }
{
    match checked.verdict {
        Verdict::Optimal(primal) => {
            let primal = amount_text(alloc, primal, checked.scale)?;
            format!(in alloc; "optimal {primal}\n")
        }
        Verdict::Bound { dual, primal } => {
            let dual = amount_text(alloc, dual, checked.scale)?;
            let primal = amount_text(alloc, primal, checked.scale)?;
            format!(in alloc; "bound {dual} {primal}\n")
        }
        Verdict::NoTree => String::from_str(alloc, "no tree\n"),
    }
}

// Whether a bound reaches the cost of a tree.
fn remark(dual: u64, primal: u64) -> &'static str
    ensures { result.now ≡ remark dual primal }
{
    if dual == primal { "optimal" } else { "budget" }
}

/// The lines of a tree's cost, of a bound, and of whether they are equal.
pub fn summary(alloc: Global, primal: u64, dual: u64) -> Result<String, AllocError>
    ensures { IfOk result (λ lines. string_bytes lines ≡ summary primal dual) }
{
    let verdict = remark(dual, primal);
    format!(in alloc; "primal {primal}\ndual {dual}\nverdict {verdict}\n")
}
