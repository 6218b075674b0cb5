ghost use Rattle.std.specs.Prelude.{◌≡◌, Some, IfOk, IfSome};
ghost use Rattle.st_model.specs.Network.{IsVertex};
ghost use Rattle.stp_reader.specs.Forms.{terminal_line, root_line};
ghost use Rattle.stp_reader.specs.Judging.{judge_root_count, judge_root_need, root_at_end};
ghost use Rattle.stp_reader.specs.Reached.{Says, Gives, form_seen, graph_of, place_of, after_terminals, IsGraphPart, AreTerminalsReached, IsReached};

use crate::Reason;
use crate::fault::LineError;
use crate::form::Form;
use crate::graph::misplaced;
use crate::numbers::{count, vertex};
use crate::stage::{GraphPart, Stage, TerminalsPart};
use crate::terminals::{MAX_TERMINALS, root_of};
use std::alloc::Global;

/// After a line of Terminals before it says how many there are, in a directed file.
pub fn root_count_line(
    alloc: Global,
    graph: GraphPart,
    root: Option<u32>,
    form: Form,
) -> Result<Stage, Reason>
    requires graph { IsGraphPart graph }
    requires root { IfSome root (IsVertex graph.vertices) }
    ensures place { Says place_of result (judge_root_count (graph_of graph) root (form_seen form.entry)) }
    ensures reached { IfOk result IsReached }
{
    match form {
        Form::Count(word) => {
            let count = count(word, MAX_TERMINALS)?;
            let terminals = Vec::new(alloc);
            Ok(Stage::AtRootNeeds(TerminalsPart {
                graph,
                count,
                terminals,
                root,
            }))
        }
        Form::Root(word) => {
            let root = root_of(graph.vertices, root, word)?;
            Ok(Stage::AtRootCount(graph, Some(root)))
        }
        _ => Err(misplaced(form)),
    }
}

// Takes a line `T v`.
fn add_vertex(part: &mut TerminalsPart, word: &[u8]) -> Result<(), LineError>
    requires { AreTerminalsReached part.old }
    ensures place { Gives (λ _. place_of (Stage.AtRootNeeds part.new)) result
        (judge_root_need (graph_of part.old.graph) part.old.count part.old.terminals.items part.old.root (terminal_line word.now)) }
    ensures reached { IfOk result (λ _. AreTerminalsReached part.new) }
{
    let vertex = vertex(word, part.graph.vertices)?;
    part.terminals.push(vertex)?;
    Ok(())
}

// Takes a line `Root r`.
fn set_root(part: &mut TerminalsPart, word: &[u8]) -> Result<(), Reason>
    requires { AreTerminalsReached part.old }
    ensures place { Says (λ _. place_of (Stage.AtRootNeeds part.new)) result
        (judge_root_need (graph_of part.old.graph) part.old.count part.old.terminals.items part.old.root (root_line word.now)) }
    ensures reached { IfOk result (λ _. AreTerminalsReached part.new) }
{
    let root = root_of(part.graph.vertices, part.root, word)?;
    part.root = Some(root);
    Ok(())
}

// The root, where the END of Terminals may stand here.
fn root_at_end(part: &TerminalsPart) -> Result<u32, Reason>
    ensures root { result ≡ root_at_end part.now.count part.now.terminals.items part.now.root }
    ensures stated { IfOk result (λ r. part.now.root ≡ Some r) }
{
    if part.terminals.len() as u64 != part.count {
        return Err(Reason::CountMismatch);
    }
    if part.terminals.is_empty() {
        return Err(Reason::NoTerminals);
    }
    part.root.ok_or(Reason::NoRoot)
}

/// Takes a further line of Terminals of a directed file, and answers the root where it ends the section.
pub fn root_need_line(part: &mut TerminalsPart, form: Form) -> Result<Option<u32>, LineError>
    requires { AreTerminalsReached part.old }
    ensures place { Gives (λ ended. place_of (after_terminals ended part.new)) result
        (judge_root_need (graph_of part.old.graph) part.old.count part.old.terminals.items part.old.root (form_seen form.entry)) }
    ensures reached { IfOk result (λ ended. IsReached (after_terminals ended part.new)) }
{
    match form {
        Form::Terminal(word) => add_vertex(part, word)?,
        Form::Root(word) => set_root(part, word)?,
        Form::End => return Ok(Some(root_at_end(part)?)),
        _ => return Err(LineError::Refused(misplaced(form))),
    }
    Ok(None)
}
