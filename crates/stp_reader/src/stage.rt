ghost use Rattle.std.specs.Prelude.{◌≡◌, ◌∷◌, true, IfOk};
ghost use Rattle.stp_reader.specs.Lines.{words};
ghost use Rattle.stp_reader.specs.Words.{keyword_of};
ghost use Rattle.stp_reader.specs.Forms.{form_of, form as form_said};
ghost use Rattle.stp_reader.specs.Judging.{judge_opening, judge_outside, judge_no_header, judge_passed, contents_of, judge, judge_line, at_end};
ghost use Rattle.stp_reader.specs.Reached.{Says, Gives, form_seen, stated_of, place_of, file_part, di_file_part, after_list, after_terminals, ListsNothing, contents_from, IsEnded, AreContents, IsReached};

use crate::Reason;
use crate::fault::LineError;
use crate::form::{Form, form_of};
use crate::graph::{arc_line, edges_line, link_line, nodes_line};
use crate::keyword::{SectionName, section_of};
use crate::mode::Mode;
use crate::rooted::{root_count_line, root_need_line};
use crate::seen::Seen;
use crate::terminals::{count_line, need_line};
use crate::words::{has_magic, is_remark, next_word};
use st_model::{Link, Need, VertexSet};
use std::alloc::Global;
use std::mem;

/// What a section Graph states, or has stated so far, costs in millionths. In a directed file each
/// link stands for the arc from its first end to its second.
#[derive(Drop)]
pub struct GraphPart {
    pub vertices: u32,
    pub links: Vec<Link>,
    /// Of the costs, and later of the prizes.
    pub seen: Seen,
}

/// The vertices of the lines `Root` and `RootP` of a file of links, as far as they have come.
#[derive(Clone, Copy)]
pub struct RootsPart {
    pub root: Option<u32>,
    pub pinned: Option<u32>,
}

/// Neither of them has come.
const NO_ROOTS: RootsPart = RootsPart {
    root: None,
    pinned: None,
};

/// What a section Terminals of a file of links has stated so far, and the graph before it.
#[derive(Drop)]
pub struct NeedsPart {
    pub graph: GraphPart,
    /// How many terminals there are to be.
    pub count: u64,
    pub needs: Vec<(u32, Need)>,
    /// The vertices that have a prize.
    pub paid: VertexSet,
    pub roots: RootsPart,
}

/// What a section Terminals of a directed file has stated so far, and the graph before it.
#[derive(Drop)]
pub struct TerminalsPart {
    pub graph: GraphPart,
    /// How many terminals there are to be.
    pub count: u64,
    pub terminals: Vec<u32>,
    /// The vertex of the line `Root`, if it has come.
    pub root: Option<u32>,
}

/// What a whole file of links states, costs and prizes in millionths.
#[derive(Drop)]
pub struct FilePart {
    pub vertices: u32,
    pub links: Vec<Link>,
    pub needs: Vec<(u32, Need)>,
    /// Of the costs and prizes.
    pub seen: Seen,
}

/// What a whole directed file states, costs in millionths.
#[derive(Drop)]
pub struct DiFilePart {
    pub vertices: u32,
    pub arcs: Vec<Link>,
    pub root: u32,
    pub terminals: Vec<u32>,
    /// Of the costs.
    pub seen: Seen,
}

/// What a whole file states, of one kind or the other.
#[derive(Drop)]
pub enum ContentsPart {
    Undirected(FilePart),
    Directed(DiFilePart),
}

/// What the sections that have ended state.
#[derive(Drop)]
pub enum Ended {
    Nothing,
    OneGraph(GraphPart),
    OneDigraph(GraphPart),
    Whole(ContentsPart),
}

/// What has been read, and so what may stand on the next line.
#[derive(Drop)]
pub enum Stage {
    AtHeader,
    Outside(Ended),
    PassedOver(Ended),
    AtNodes,
    AtEdges(u32),
    AtLinks(GraphPart, u64),
    AtArcs(GraphPart, u64),
    AtCount(GraphPart, RootsPart),
    AtNeeds(NeedsPart),
    AtRootCount(GraphPart, Option<u32>),
    AtRootNeeds(TerminalsPart),
    AfterEnd(ContentsPart),
}

// After the line that opens a section.
fn opened(ended: Ended, name: SectionName) -> Result<Stage, Reason>
    requires { IsEnded ended }
    ensures place { Says place_of result (judge_opening (stated_of ended) name) }
    ensures reached { IfOk result IsReached }
{
    match name {
        SectionName::Passed => Ok(Stage::PassedOver(ended)),
        SectionName::Unknown => Err(Reason::UnknownSection),
        SectionName::Graph => match ended {
            Ended::Nothing => Ok(Stage::AtNodes),
            _ => Err(Reason::RepeatedSection),
        },
        SectionName::Terminals => match ended {
            Ended::Nothing => Err(Reason::GraphFirst),
            Ended::OneGraph(graph) => Ok(Stage::AtCount(graph, NO_ROOTS)),
            Ended::OneDigraph(graph) => Ok(Stage::AtRootCount(graph, None)),
            Ended::Whole(_) => Err(Reason::RepeatedSection),
        },
    }
}

// All that is stated, where both sections have stood.
fn contents_of(ended: Ended) -> Result<ContentsPart, Reason>
    requires { IsEnded ended }
    ensures contents { Says contents_from result (contents_of (stated_of ended)) }
    ensures reached { IfOk result AreContents }
{
    match ended {
        Ended::Nothing => Err(Reason::NoGraph),
        Ended::OneGraph(_) | Ended::OneDigraph(_) => Err(Reason::NoTerminals),
        Ended::Whole(contents) => Ok(contents),
    }
}

// After a line between sections.
fn outside_line(ended: Ended, form: Form) -> Result<Stage, Reason>
    requires { IsEnded ended }
    ensures place { Says place_of result (judge_outside (stated_of ended) (form_seen form.entry)) }
    ensures reached { IfOk result IsReached }
{
    match form {
        Form::Section(name) => opened(ended, section_of(name)),
        Form::Eof => Ok(Stage::AfterEnd(contents_of(ended)?)),
        _ => Err(Reason::BadLine),
    }
}

// After the first line that says something, where it is no header.
fn no_header(form: Form) -> Result<Stage, Reason>
    ensures place { Says place_of result (judge_no_header (form_seen form.entry)) }
    ensures reached { IfOk result IsReached }
{
    match form {
        Form::Section(name) => opened(Ended::Nothing, section_of(name)),
        Form::Nameless => Err(Reason::BadLine),
        _ => Err(Reason::NoHeader),
    }
}

// After a line of a section that is passed over.
fn passed_line(ended: Ended, form: Form) -> Stage
    requires { IsEnded ended }
    ensures place { place_of result ≡ judge_passed (stated_of ended) (form_seen form.entry) }
    ensures reached { IsReached result }
{
    match form {
        Form::End => Stage::Outside(ended),
        _ => Stage::PassedOver(ended),
    }
}

// After a line that isn't skipped, where no links or needs are listed.
#[tactic(auto, unfolding(crate::specs::Judging::judge_line))]
fn next_stage(
    alloc: Global,
    mode: Mode,
    stage: Stage,
    line: &[u8],
    form: Form,
) -> Result<Stage, LineError>
    requires reached { IsReached stage }
    requires apart { ListsNothing stage }
    requires form { form_seen form ≡ form_said (words line.now) }
    ensures place { Gives place_of result (judge_line mode (place_of stage) (words line.now)) }
    ensures reached { IfOk result IsReached }
{
    match stage {
        Stage::AtHeader if has_magic(line) => Ok(Stage::Outside(Ended::Nothing)),
        Stage::AtHeader => Ok(no_header(form)?),
        Stage::Outside(ended) => Ok(outside_line(ended, form)?),
        Stage::PassedOver(ended) => Ok(passed_line(ended, form)),
        Stage::AtNodes => Ok(nodes_line(mode, form)?),
        Stage::AtEdges(vertices) => Ok(edges_line(alloc, mode, vertices, form)?),
        Stage::AtCount(graph, roots) => count_line(alloc, graph, roots, form),
        Stage::AtRootCount(graph, root) => Ok(root_count_line(alloc, graph, root, form)?),
        Stage::AtLinks(..)
        | Stage::AtArcs(..)
        | Stage::AtNeeds(_)
        | Stage::AtRootNeeds(_)
        | Stage::AfterEnd(_) => Ok(stage),
    }
}

// All that a file of links states whose section Terminals ends.
fn file_part(part: NeedsPart) -> FilePart
    ensures { result ≡ file_part part }
{
    let NeedsPart { graph, needs, .. } = part;
    let GraphPart {
        vertices,
        links,
        seen,
    } = graph;
    FilePart {
        vertices,
        links,
        needs,
        seen,
    }
}

// All that a directed file states with this root, whose section Terminals ends.
fn di_file_part(root: u32, part: TerminalsPart) -> DiFilePart
    ensures { result ≡ di_file_part root part }
{
    let TerminalsPart {
        graph,
        terminals,
        ..
    } = part;
    let GraphPart {
        vertices,
        links,
        seen,
    } = graph;
    DiFilePart {
        vertices,
        arcs: links,
        root,
        terminals,
        seen,
    }
}

// Ends the section whose links, arcs or needs are listed.
fn end_section(stage: &mut Stage)
    ensures { stage.new ≡ after_list true stage.old }
{
    match mem::replace(stage, Stage::AtHeader) {
        Stage::AtLinks(graph, _) => *stage = Stage::Outside(Ended::OneGraph(graph)),
        Stage::AtArcs(graph, _) => *stage = Stage::Outside(Ended::OneDigraph(graph)),
        Stage::AtNeeds(needs) => {
            let file = file_part(needs);
            *stage = Stage::Outside(Ended::Whole(ContentsPart::Undirected(file)));
        }
        other => *stage = other,
    }
}

// Ends the section whose terminals are listed, in a directed file with this root.
fn end_terminals(stage: &mut Stage, root: u32)
    ensures { (part : TerminalsPart) → stage.old ≡ Stage.AtRootNeeds part → stage.new ≡ after_terminals (Some root) part }
{
    match mem::replace(stage, Stage::AtHeader) {
        Stage::AtRootNeeds(part) => {
            let file = di_file_part(root, part);
            *stage = Stage::Outside(Ended::Whole(ContentsPart::Directed(file)));
        }
        other => *stage = other,
    }
}

// Takes a line that isn't skipped. Nearly all lines of a large file list a link or a need, and move nothing.
#[tactic(auto, unfolding(crate::specs::Judging::judge_line))]
fn take_said(
    alloc: Global,
    mode: Mode,
    stage: &mut Stage,
    line: &[u8],
    word: &[u8],
    args: &[u8],
) -> Result<(), LineError>
    requires reached { IsReached stage.old }
    requires words { words line.now ≡ word.now ∷ words args.now }
    ensures place { Gives (λ _. place_of stage.new) result (judge_line mode (place_of stage.old) (words line.now)) }
    ensures reached { IfOk result (λ _. IsReached stage.new) }
{
    let form = form_of(word, args);
    match stage {
        Stage::AtLinks(graph, count) => {
            if link_line(graph, *count, form)? {
                end_section(stage);
            }
            Ok(())
        }
        Stage::AtArcs(graph, count) => {
            if arc_line(graph, *count, form)? {
                end_section(stage);
            }
            Ok(())
        }
        Stage::AtNeeds(needs) => {
            if need_line(needs, form)? {
                end_section(stage);
            }
            Ok(())
        }
        Stage::AtRootNeeds(part) => {
            if let Some(root) = root_need_line(part, form)? {
                end_terminals(stage, root);
            }
            Ok(())
        }
        _ => {
            let before = mem::replace(stage, Stage::AtHeader);
            *stage = next_stage(alloc, mode, before, line, form)?;
            Ok(())
        }
    }
}

/// Takes one more line.
#[tactic(auto, unfolding(crate::specs::Judging::judge))]
pub fn take_line(alloc: Global, mode: Mode, stage: &mut Stage, line: &[u8]) -> Result<(), LineError>
    requires { IsReached stage.old }
    ensures place { Gives (λ _. place_of stage.new) result (judge mode (place_of stage.old) (words line.now)) }
    ensures reached { IfOk result (λ _. IsReached stage.new) }
{
    let Some((word, args)) = next_word(line) else {
        return Ok(());
    };
    if is_remark(word) {
        return Ok(());
    }
    take_said(alloc, mode, stage, line, word, args)
}

/// All that is stated, after the last line.
pub fn at_end(stage: Stage) -> Result<ContentsPart, Reason>
    requires { IsReached stage }
    ensures contents { Says contents_from result (at_end (place_of stage)) }
    ensures reached { IfOk result AreContents }
{
    match stage {
        Stage::AtHeader => Err(Reason::NoHeader),
        Stage::Outside(ended) => contents_of(ended),
        Stage::AfterEnd(contents) => Ok(contents),
        _ => Err(Reason::Unclosed),
    }
}
