ghost use Rattle.std.specs.Prelude.{◌≡◌, ◌||◌, length};
ghost use Rattle.solution_reader.specs.Place.{no_lines};
ghost use Rattle.solution_reader.specs.Forms.{count_line, vertex_line, edge_count_line, edge_line};
ghost use Rattle.solution_reader.specs.Reasons.{differs};
ghost use Rattle.solution_reader.specs.Judging.{number, count, edge, judge_lines};
ghost use Rattle.solution_reader.specs.Seen.{Says, Gives, form_seen, final_of};

use crate::SolReason;
use crate::fault::LineError;
use crate::form::Form;
use crate::numbers::number;
use std::alloc::Global;

/// The greatest number of a vertex, and of vertices.
const MAX_VERTEX: u64 = 1_000_000;

/// The greatest number of edges that a text may state.
const MAX_EDGES: u64 = 4_000_000;

/// What a section Finalsolution has stated so far.
#[derive(Drop)]
pub struct TreePart {
    /// How many lines V there are to be.
    pub count: Option<u64>,
    pub vertices: Vec<u32>,
    /// How many lines E there are to be.
    pub edge_count: Option<u64>,
    pub edges: Vec<(u32, u32)>,
}

// The vertex that a word says.
fn vertex(word: &[u8]) -> Result<u32, SolReason>
    ensures { result ≡ number 1000000 word.now }
{
    Ok(number(word, MAX_VERTEX)? as u32)
}

// The count that a word says, where none stood before.
fn count(stated: Option<u64>, word: &[u8], limit: u64) -> Result<u64, SolReason>
    ensures { result ≡ count stated limit word.now }
{
    match stated {
        Some(_) => Err(SolReason::BadLine),
        None => number(word, limit),
    }
}

// The edge that two words say.
fn edge(first: &[u8], second: &[u8]) -> Result<(u32, u32), SolReason>
    ensures { result ≡ edge first.now second.now }
{
    let a = vertex(first)?;
    let b = vertex(second)?;
    Ok((a, b))
}

// Whether a stated count isn't that of the lines.
fn differs(stated: Option<u64>, lines: u64) -> bool
    ensures { result ≡ differs stated lines }
{
    match stated {
        Some(count) => lines != count,
        None => false,
    }
}

impl TreePart {
    /// Before any line.
    pub fn new(alloc: Global) -> Self
        ensures { final_of result ≡ no_lines }
    {
        TreePart {
            count: None,
            vertices: Vec::new(alloc),
            edge_count: None,
            edges: Vec::new(alloc),
        }
    }

    /// Whether a stated count isn't that of the lines.
    pub fn differs(&self) -> bool
        ensures { result ≡ (differs self.now.count (length self.now.vertices.items)
            || differs self.now.edge_count (length self.now.edges.items)) }
    {
        differs(self.count, self.vertices.len() as u64)
            || differs(self.edge_count, self.edges.len() as u64)
    }

    // With a line `Vertices k`.
    fn with_count(mut self, word: &[u8]) -> Result<TreePart, SolReason>
        ensures { Says final_of result (judge_lines (final_of self) (count_line word.now)) }
    {
        self.count = Some(count(self.count, word, MAX_VERTEX)?);
        Ok(self)
    }

    // With a line `V v`.
    fn with_vertex(mut self, word: &[u8]) -> Result<TreePart, LineError>
        ensures { Gives final_of result (judge_lines (final_of self) (vertex_line word.now)) }
    {
        let vertex = vertex(word)?;
        self.vertices.push(vertex)?;
        Ok(self)
    }

    // With a line `Edges k`.
    fn with_edge_count(mut self, word: &[u8]) -> Result<TreePart, SolReason>
        ensures { Says final_of result (judge_lines (final_of self) (edge_count_line word.now)) }
    {
        self.edge_count = Some(count(self.edge_count, word, MAX_EDGES)?);
        Ok(self)
    }

    // With a line `E u v`.
    fn with_edge(mut self, first: &[u8], second: &[u8]) -> Result<TreePart, LineError>
        ensures { Gives final_of result (judge_lines (final_of self) (edge_line first.now second.now)) }
    {
        let edge = edge(first, second)?;
        self.edges.push(edge)?;
        Ok(self)
    }

    /// With one more line, which isn't its END.
    pub fn with_line(self, form: Form) -> Result<TreePart, LineError>
        ensures { Gives final_of result (judge_lines (final_of self) (form_seen form.entry)) }
    {
        match form {
            Form::Count(word) => Ok(self.with_count(word)?),
            Form::Vertex(word) => self.with_vertex(word),
            Form::EdgeCount(word) => Ok(self.with_edge_count(word)?),
            Form::Edge(first, second) => self.with_edge(first, second),
            _ => Err(LineError::Refused(SolReason::BadLine)),
        }
    }
}
