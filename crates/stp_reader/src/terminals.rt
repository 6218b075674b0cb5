ghost use Rattle.std.specs.Prelude.{◌≡◌, ◌≤◌, ◌++◌, true, false, IfOk, OnOk};
ghost use Rattle.st_model.specs.Lists.{has};
ghost use Rattle.st_model.specs.Network.{IsVertex};
ghost use Rattle.st_model.specs.declared.need.Need.TheVariants.{Pays};
ghost use Rattle.stp_reader.specs.Forms.{count_line, terminal_line, prize_line, root_line, pinned_line};
ghost use Rattle.stp_reader.specs.Place.{pinned_need};
ghost use Rattle.stp_reader.specs.Reasons.{has_terminal, is_pinned, is_count, is_stray};
ghost use Rattle.stp_reader.specs.Judging.{root_of, judge_count, prize_of, end_fault, terminals_end, judge_need};
ghost use Rattle.stp_reader.specs.Reached.{Says, Gives, form_seen, graph_of, roots_of, place_of, after_list, IsGraphPart, AreRoots, AreNeedsReached, IsReached};

use crate::Reason;
use crate::fault::LineError;
use crate::form::Form;
use crate::graph::misplaced;
use crate::numbers::{amount, count, vertex};
use crate::reason::both;
use crate::stage::{GraphPart, NeedsPart, RootsPart, Stage};
use st_model::{Need, VertexSet};
use std::alloc::{AllocError, Global};

/// The greatest number of terminals that a file may state.
pub const MAX_TERMINALS: u64 = 2_000_000;

/// The vertex of a line `Root r` or `RootP v`, where no such line stood before.
pub fn root_of(vertices: u32, root: Option<u32>, word: &[u8]) -> Result<u32, Reason>
    ensures vertex { result ≡ root_of vertices root word.now }
    ensures in_range { IfOk result (IsVertex vertices) }
{
    match root {
        Some(_) => Err(Reason::BadLine),
        None => vertex(word, vertices),
    }
}

// After the line that says how many terminals there are.
fn with_count(
    alloc: Global,
    graph: GraphPart,
    roots: RootsPart,
    word: &[u8],
) -> Result<Stage, LineError>
    requires graph { IsGraphPart graph }
    requires roots { AreRoots graph.vertices roots }
    ensures place { Gives place_of result
        (judge_count (graph_of graph) (roots_of roots) (count_line word.now)) }
    ensures reached { IfOk result IsReached }
{
    let count = count(word, MAX_TERMINALS)?;
    let paid = VertexSet::new(alloc, graph.vertices as usize + 1)?;
    Ok(Stage::AtNeeds(NeedsPart {
        graph,
        count,
        needs: Vec::new(alloc),
        paid,
        roots,
    }))
}

/// After a line of Terminals before it says how many there are.
pub fn count_line(
    alloc: Global,
    graph: GraphPart,
    roots: RootsPart,
    form: Form,
) -> Result<Stage, LineError>
    requires graph { IsGraphPart graph }
    requires roots { AreRoots graph.vertices roots }
    ensures place { Gives place_of result
        (judge_count (graph_of graph) (roots_of roots) (form_seen form.entry)) }
    ensures reached { IfOk result IsReached }
{
    match form {
        Form::Count(word) => with_count(alloc, graph, roots, word),
        Form::Root(word) => {
            let root = Some(root_of(graph.vertices, roots.root, word)?);
            Ok(Stage::AtCount(graph, RootsPart { root, ..roots }))
        }
        Form::Pinned(word) => {
            let pinned = Some(root_of(graph.vertices, roots.pinned, word)?);
            Ok(Stage::AtCount(graph, RootsPart { pinned, ..roots }))
        }
        _ => Err(LineError::Refused(misplaced(form))),
    }
}

// Whether a line says that a vertex is required.
fn has_terminal(needs: &[(u32, Need)], vertex: u32) -> bool
    ensures { result ≡ has_terminal needs.now vertex }
{
    needs
        .iter()
        .any(|(v, need)| *need == Need::Required && *v == vertex)
}

// Whether the line `RootP`, if there is one, says this vertex.
fn is_pinned(pinned: Option<u32>, vertex: u32) -> bool
    ensures { result ≡ is_pinned pinned vertex }
{
    match pinned {
        Some(other) => other == vertex,
        None => false,
    }
}

// Whether the root, if there is one, has no line that says that it is required.
fn is_stray(needs: &[(u32, Need)], roots: RootsPart) -> bool
    ensures { result ≡ is_stray needs.now roots.pinned roots.root }
{
    match roots.root {
        Some(vertex) => !(has_terminal(needs, vertex) || is_pinned(roots.pinned, vertex)),
        None => false,
    }
}

// Whether as many lines say needs as were to be; the line `RootP` may be counted, too.
fn is_count(count: u64, needs: &[(u32, Need)], pinned: Option<u32>) -> bool
    ensures { result ≡ is_count count needs.now pinned }
{
    let lines = needs.len() as u64;
    lines == count || pinned.is_some() && lines < count && count - lines == 1
}

// All needs, with that of the line `RootP`.
fn with_pinned(needs: &mut Vec<(u32, Need)>, pinned: Option<u32>) -> Result<(), AllocError>
    ensures { OnOk result (needs.new.items ≡ needs.old.items ++ pinned_need pinned) }
{
    if let Some(vertex) = pinned {
        needs.push((vertex, Need::Required))?;
    }
    Ok(())
}

// Why the END of Terminals may not stand here, if it may not.
fn end_fault(part: &NeedsPart) -> Option<Reason>
    ensures { result ≡ end_fault part.now.count part.now.needs.items (roots_of part.now.roots) }
{
    let roots = part.roots;
    if !is_count(part.count, &part.needs, roots.pinned) {
        return Some(Reason::CountMismatch);
    }
    if is_stray(&part.needs, roots) {
        return Some(Reason::RootNotTerminal);
    }
    if part.needs.is_empty() && roots.pinned.is_none() {
        return Some(Reason::NoTerminals);
    }
    None
}

// Takes a line `T v`.
fn add_terminal(part: &mut NeedsPart, word: &[u8]) -> Result<(), LineError>
    requires { AreNeedsReached part.old }
    ensures place { Gives (λ _. place_of (Stage.AtNeeds part.new)) result
        (judge_need (graph_of part.old.graph) part.old.count part.old.needs.items (roots_of part.old.roots) (terminal_line word.now)) }
    ensures reached { IfOk result (λ _. AreNeedsReached part.new) }
{
    let vertex = vertex(word, part.graph.vertices)?;
    part.needs.push((vertex, Need::Required))?;
    Ok(())
}

// What two words say of a vertex and its first prize.
fn prize_of(part: &NeedsPart, name: &[u8], prize: &[u8]) -> Result<(u32, u64), Reason>
    requires { AreNeedsReached part.now }
    ensures prize { Says (λ e. (e.0, Pays e.1)) result
        (prize_of part.now.graph.vertices part.now.needs.items name.now prize.now) }
    ensures in_range { IfOk result
        (λ e. IsVertex part.now.graph.vertices e.0 × (e.1 ≤ 1000000000000999999)) }
    ensures fresh { IfOk result (λ e. has part.now.paid.members e.0 ≡ false) }
{
    let (vertex, prize) = both(vertex(name, part.graph.vertices), amount(prize))?;
    if part.paid.contains(vertex) {
        return Err(Reason::RepeatedPrize);
    }
    Ok((vertex, prize))
}

// Takes a line `TP v p`.
fn add_prize(part: &mut NeedsPart, name: &[u8], prize: &[u8]) -> Result<(), LineError>
    requires { AreNeedsReached part.old }
    ensures place { Gives (λ _. place_of (Stage.AtNeeds part.new)) result
        (judge_need (graph_of part.old.graph) part.old.count part.old.needs.items (roots_of part.old.roots) (prize_line name.now prize.now)) }
    ensures reached { IfOk result (λ _. AreNeedsReached part.new) }
{
    let (vertex, prize) = prize_of(part, name, prize)?;
    part.graph.seen = part.graph.seen.with(prize)?;
    part.paid.insert(vertex)?;
    part.needs.push((vertex, Need::Pays(prize)))?;
    Ok(())
}

// Takes a line `Root r`.
fn add_root(part: &mut NeedsPart, word: &[u8]) -> Result<(), Reason>
    requires { AreNeedsReached part.old }
    ensures place { Says (λ _. place_of (Stage.AtNeeds part.new)) result
        (judge_need (graph_of part.old.graph) part.old.count part.old.needs.items (roots_of part.old.roots) (root_line word.now)) }
    ensures reached { IfOk result (λ _. AreNeedsReached part.new) }
{
    let root = root_of(part.graph.vertices, part.roots.root, word)?;
    part.roots.root = Some(root);
    Ok(())
}

// Takes a line `RootP v`.
fn add_pinned(part: &mut NeedsPart, word: &[u8]) -> Result<(), Reason>
    requires { AreNeedsReached part.old }
    ensures place { Says (λ _. place_of (Stage.AtNeeds part.new)) result
        (judge_need (graph_of part.old.graph) part.old.count part.old.needs.items (roots_of part.old.roots) (pinned_line word.now)) }
    ensures reached { IfOk result (λ _. AreNeedsReached part.new) }
{
    let vertex = root_of(part.graph.vertices, part.roots.pinned, word)?;
    part.roots.pinned = Some(vertex);
    Ok(())
}

// Takes the END of Terminals.
fn end_terminals(part: &mut NeedsPart) -> Result<(), LineError>
    requires { AreNeedsReached part.old }
    ensures place { Gives (λ _. place_of (after_list true (Stage.AtNeeds part.new))) result
        (terminals_end (graph_of part.old.graph) part.old.count part.old.needs.items (roots_of part.old.roots)) }
    ensures reached { IfOk result (λ _. IsReached (after_list true (Stage.AtNeeds part.new))) }
{
    if let Some(reason) = end_fault(part) {
        return Err(LineError::Refused(reason));
    }
    with_pinned(&mut part.needs, part.roots.pinned)?;
    Ok(())
}

/// Takes a further line of Terminals, and answers whether it ends the section.
pub fn need_line(part: &mut NeedsPart, form: Form) -> Result<bool, LineError>
    requires { AreNeedsReached part.old }
    ensures place { Gives (λ ends. place_of (after_list ends (Stage.AtNeeds part.new))) result
        (judge_need (graph_of part.old.graph) part.old.count part.old.needs.items (roots_of part.old.roots) (form_seen form.entry)) }
    ensures reached { IfOk result (λ ends. IsReached (after_list ends (Stage.AtNeeds part.new))) }
{
    match form {
        Form::Terminal(word) => add_terminal(part, word)?,
        Form::Prize(name, prize) => add_prize(part, name, prize)?,
        Form::Root(word) => add_root(part, word)?,
        Form::Pinned(word) => add_pinned(part, word)?,
        Form::End => {
            end_terminals(part)?;
            return Ok(true);
        }
        _ => return Err(LineError::Refused(misplaced(form))),
    }
    Ok(false)
}
