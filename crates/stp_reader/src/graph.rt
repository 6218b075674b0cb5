ghost use Rattle.std.specs.Prelude.{◌≡◌, ℕ, ◌≤◌, [], IfOk};
ghost use Rattle.stp_reader.specs.Judging.{reason_in_section, reason_in_graph, reason_in_digraph, early_reason, judge_nodes, judge_edges, judge_arcs_count, link_of, with_link, judge_link, judge_arc};
ghost use Rattle.stp_reader.specs.Reached.{Says, Gives, form_seen, place_of, after_list, IsStatedLink, IsCount, IsSeen, AreLinksReached, IsReached};
ghost use Rattle.stp_reader.specs.Unit.{amounts_of};

use crate::Reason;
use crate::fault::LineError;
use crate::form::Form;
use crate::mode::Mode;
use crate::numbers::{amount, count, nodes, vertex};
use crate::reason::both;
use crate::seen::Seen;
use crate::stage::{GraphPart, Stage};
use st_model::Link;
use std::alloc::Global;

/// The greatest number of links or arcs that a file may state.
const MAX_LINKS: u64 = 4_000_000;

/// What is wrong with a line that may not stand at its place in a section.
pub fn misplaced(form: Form) -> Reason
    ensures { result ≡ reason_in_section (form_seen form.entry) }
{
    match form {
        Form::Section(_) | Form::Nameless | Form::Eof => Reason::Unclosed,
        _ => Reason::BadLine,
    }
}

// What is wrong with a line that may not stand at its place in the Graph of a file of links.
fn misplaced_in_graph(form: Form) -> Reason
    ensures { result ≡ reason_in_graph (form_seen form.entry) }
{
    match form {
        Form::Arcs(_) | Form::Arc(..) | Form::BadArcs | Form::BadArc => Reason::Directed,
        _ => misplaced(form),
    }
}

// The same in that of a directed file.
fn misplaced_in_digraph(form: Form) -> Reason
    ensures { result ≡ reason_in_digraph (form_seen form.entry) }
{
    match form {
        Form::Edges(_) | Form::Edge(..) | Form::BadEdges => Reason::Directed,
        _ => misplaced(form),
    }
}

// The same before it is known of which kind the file is.
fn misplaced_early(mode: Mode, form: Form) -> Reason
    ensures { result ≡ early_reason mode (form_seen form.entry) }
{
    match (mode, form) {
        (Mode::Any, Form::Arcs(_) | Form::BadArcs) => Reason::BadLine,
        _ => misplaced_in_graph(form),
    }
}

/// After the first line of Graph.
pub fn nodes_line(mode: Mode, form: Form) -> Result<Stage, Reason>
    ensures place { Says place_of result (judge_nodes mode (form_seen form.entry)) }
    ensures reached { IfOk result IsReached }
{
    match form {
        Form::Nodes(word) => Ok(Stage::AtEdges(nodes(word)?)),
        _ => Err(misplaced_early(mode, form)),
    }
}

// A graph of which no link or arc has come.
fn empty_graph(alloc: Global, vertices: u32) -> GraphPart
    requires { IsCount vertices }
    ensures vertices { result.vertices ≡ vertices }
    ensures links { result.links.items ≡ [] }
    ensures reached { (m : ℕ) → m ≤ 4000000 → AreLinksReached result m }
{
    GraphPart {
        vertices,
        links: Vec::new(alloc),
        seen: Seen::nothing(),
    }
}

// After a line `Arcs m`.
fn arcs_count(alloc: Global, mode: Mode, vertices: u32, word: &[u8]) -> Result<Stage, Reason>
    requires { IsCount vertices }
    ensures place { Says place_of result (judge_arcs_count mode vertices word.now) }
    ensures reached { IfOk result IsReached }
{
    match mode {
        Mode::Plain => Err(Reason::Directed),
        Mode::Any => {
            let count = count(word, MAX_LINKS)?;
            Ok(Stage::AtArcs(empty_graph(alloc, vertices), count))
        }
    }
}

/// After the second line of Graph.
pub fn edges_line(alloc: Global, mode: Mode, vertices: u32, form: Form) -> Result<Stage, Reason>
    requires { IsCount vertices }
    ensures place { Says place_of result (judge_edges mode vertices (form_seen form.entry)) }
    ensures reached { IfOk result IsReached }
{
    match form {
        Form::Edges(word) => {
            let count = count(word, MAX_LINKS)?;
            Ok(Stage::AtLinks(empty_graph(alloc, vertices), count))
        }
        Form::Arcs(word) => arcs_count(alloc, mode, vertices, word),
        _ => Err(misplaced_early(mode, form)),
    }
}

// The link, or the arc, that three words say.
fn link_of(vertices: u32, first: &[u8], second: &[u8], cost: &[u8]) -> Result<Link, Reason>
    ensures link { result ≡ link_of vertices first.now second.now cost.now }
    ensures in_range { IfOk result (IsStatedLink vertices) }
{
    let ends = vertex(second, vertices);
    let (a, (b, cost)) = both(vertex(first, vertices), both(ends, amount(cost)))?;
    Ok(Link { a, b, cost })
}

// Takes the link, or the arc, of one more line.
fn add_link(
    graph: &mut GraphPart,
    first: &[u8],
    second: &[u8],
    cost: &[u8],
) -> Result<(), LineError>
    requires { IsSeen graph.old.seen (amounts_of graph.old.links.items []) }
    ensures links { Gives (λ _. graph.new.links.items) result
        (with_link graph.old.vertices graph.old.links.items first.now second.now cost.now) }
    ensures vertices { graph.new.vertices ≡ graph.old.vertices }
    ensures reached { IfOk result (λ _. (m : ℕ) → AreLinksReached graph.old m → AreLinksReached graph.new m) }
{
    let link = link_of(graph.vertices, first, second, cost)?;
    graph.seen = graph.seen.with(link.cost)?;
    graph.links.push(link)?;
    Ok(())
}

/// Takes a further line of Graph, and answers whether it ends the section.
pub fn link_line(graph: &mut GraphPart, count: u64, form: Form) -> Result<bool, LineError>
    requires { AreLinksReached graph.old count }
    ensures place { Gives (λ ends. place_of (after_list ends (Stage.AtLinks graph.new count))) result
        (judge_link graph.old.vertices count graph.old.links.items (form_seen form.entry)) }
    ensures reached { IfOk result (λ ends. IsReached (after_list ends (Stage.AtLinks graph.new count))) }
{
    match form {
        Form::Edge(first, second, cost) => {
            add_link(graph, first, second, cost)?;
            Ok(false)
        }
        Form::End if graph.links.len() as u64 == count => Ok(true),
        Form::End => Err(LineError::Refused(Reason::CountMismatch)),
        _ => Err(LineError::Refused(misplaced_in_graph(form))),
    }
}

/// Takes a further line of the Graph of a directed file, and answers whether it ends the section.
pub fn arc_line(graph: &mut GraphPart, count: u64, form: Form) -> Result<bool, LineError>
    requires { AreLinksReached graph.old count }
    ensures place { Gives (λ ends. place_of (after_list ends (Stage.AtArcs graph.new count))) result
        (judge_arc graph.old.vertices count graph.old.links.items (form_seen form.entry)) }
    ensures reached { IfOk result (λ ends. IsReached (after_list ends (Stage.AtArcs graph.new count))) }
{
    match form {
        Form::Arc(tail, head, cost) => {
            add_link(graph, tail, head, cost)?;
            Ok(false)
        }
        Form::End if graph.links.len() as u64 == count => Ok(true),
        Form::End => Err(LineError::Refused(Reason::CountMismatch)),
        _ => Err(LineError::Refused(misplaced_in_digraph(form))),
    }
}
