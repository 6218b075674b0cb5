ghost use Rattle.std.specs.Prelude.{◌≡◌, ◌+◌, ◌^◌, ◌≤◌, ◌<◌, ◌==◌, List, IfSome, length, take, drop, option_map, position};
ghost use Rattle.log_format.specs.Reading.{Gives, after, word_at, number_at, only, number_of, pair_of, vertices_at, counted_at, ascends, set_at, cut_head_of, cut_of, wall_of};

use crate::fault::LineError;
use cut_packing::{Cut, SharedSet};
use plain_text::number;
use st_model::Listed;
use std::alloc::Global;

/// The greatest number of a vertex.
pub const MAX_VERTEX: u64 = 1_000_000;

/// What stands after a keyword.
pub fn after<'a>(keyword: &[u8], bytes: &'a [u8]) -> Option<&'a [u8]>
    ensures { option_map (λ rest. rest.now) result ≡ after keyword.now bytes.now }
{
    bytes.strip_prefix(keyword)
}

/// The index of the first space.
fn space_index(bytes: &[u8]) -> Option<usize>
    ensures value { result ≡ position (λ b. b == 32) bytes.now }
    ensures in_range { IfSome result (λ i. i < length bytes.now) }
{
    bytes.iter().position(|byte| *byte == b' ')
}

/// The number of bytes before the first space.
fn word_length(bytes: &[u8]) -> usize
    ensures word { (take result bytes.now, drop result bytes.now) ≡ word_at bytes.now }
    ensures in_range { result ≤ length bytes.now }
{
    space_index(bytes).unwrap_or(bytes.len())
}

/// The number on a line from low to high that stands after a space, and what stands after it.
#[tactic(auto, unfolding(crate::specs::Reading::number_at))]
pub fn number_at(bytes: &[u8], low: u64, high: u64) -> Option<(u64, &[u8])>
    ensures value { option_map (λ x. (x.0, x.1.now)) result ≡ number_at low high bytes.now }
    ensures in_range { IfSome result (λ x. (low ≤ x.0) × (x.0 ≤ high)) }
{
    let rest = after(b" ", bytes)?;
    let (word, rest) = rest.split_at(word_length(rest));
    let value = number(word, low, high)?;
    Some((value, rest))
}

/// The number on a line of a keyword and a number.
#[tactic(auto, unfolding(crate::specs::Reading::number_of))]
pub fn number_of(line: &[u8], keyword: &[u8], low: u64, high: u64) -> Option<u64>
    ensures value { result ≡ number_of keyword.now low high line.now }
    ensures in_range { IfSome result (λ n. (low ≤ n) × (n ≤ high)) }
{
    let (value, rest) = number_at(after(keyword, line)?, low, high)?;
    if !rest.is_empty() {
        return None;
    }
    Some(value)
}

/// The numbers on a line of a keyword and two numbers, each with its limits.
#[tactic(auto, unfolding(crate::specs::Reading::pair_of))]
pub fn pair_of(
    line: &[u8],
    keyword: &[u8],
    low: u64,
    high: u64,
    next_low: u64,
    next_high: u64,
) -> Option<(u64, u64)>
    ensures value { result ≡ pair_of keyword.now low high next_low next_high line.now }
    ensures in_range { IfSome result
        (λ p. (low ≤ p.0) × (p.0 ≤ high) × (next_low ≤ p.1) × (p.1 ≤ next_high)) }
{
    let (first, rest) = number_at(after(keyword, line)?, low, high)?;
    let (second, rest) = number_at(rest, next_low, next_high)?;
    if !rest.is_empty() {
        return None;
    }
    Some((first, second))
}

/// The vertex that stands after a space, and what stands after it.
fn vertex_at(bytes: &[u8]) -> Result<(u32, &[u8]), LineError>
    ensures { Gives (λ x. (x.0, x.1.now)) result (number_at 1 1000000 bytes.now) }
{
    let (vertex, rest) = number_at(bytes, 1, MAX_VERTEX).ok_or(LineError::BadLine)?;
    Ok((vertex as u32, rest))
}

/// This many vertices, and nothing after them.
fn vertices_at(alloc: Global, bytes: &[u8], count: u64) -> Result<Vec<u32>, LineError>
    ensures { Gives (λ vertices. vertices.items) result (vertices_at count bytes.now) }
{
    let mut vertices = Vec::new(alloc);
    let mut rest = bytes;
    for _ in 0..count {
        let (vertex, others) = vertex_at(rest)?;
        vertices.push(vertex)?;
        rest = others;
    }
    if !rest.is_empty() {
        return Err(LineError::BadLine);
    }
    Ok(vertices)
}

/// How many vertices there are, some at least, and these.
#[tactic(auto, unfolding(crate::specs::Reading::counted_at))]
pub fn counted_at(alloc: Global, bytes: &[u8]) -> Result<Vec<u32>, LineError>
    ensures { Gives (λ vertices. vertices.items) result (counted_at bytes.now) }
{
    let (count, rest) = number_at(bytes, 1, u64::MAX).ok_or(LineError::BadLine)?;
    vertices_at(alloc, rest, count)
}

/// Whether each vertex is above the one before it.
fn ascends(vertices: &[u32]) -> bool
    ensures { result ≡ ascends 0 vertices.now }
{
    let mut last = 0;
    for vertex in vertices {
        if *vertex <= last {
            return false;
        }
        last = *vertex;
    }
    true
}

/// How many vertices there are, and these, ascending.
#[tactic(auto, unfolding(crate::specs::Reading::set_at))]
fn set_at(alloc: Global, bytes: &[u8]) -> Result<Vec<u32>, LineError>
    ensures { Gives (λ set. set.items) result (set_at bytes.now) }
{
    let set = counted_at(alloc, bytes)?;
    if !ascends(&set) {
        return Err(LineError::BadLine);
    }
    Ok(set)
}

/// The vertex and the value of a cut, and what stands after them.
#[tactic(auto, unfolding(crate::specs::Reading::cut_head_of))]
fn cut_head_of(line: &[u8]) -> Option<(u32, u64, &[u8])>
    ensures { option_map (λ x. (x.0, x.1, x.2.now)) result ≡ cut_head_of line.now }
{
    let (q, rest) = number_at(after(b"U", line)?, 1, MAX_VERTEX)?;
    let (y, rest) = number_at(rest, 0, u64::MAX)?;
    Some((q as u32, y, rest))
}

/// The cut that a line says.
#[tactic(auto, unfolding(crate::specs::Reading::cut_of))]
pub fn cut_of(alloc: Global, line: &[u8]) -> Result<Cut, LineError>
    ensures { Gives (λ c. c) result (cut_of line.now) }
{
    let (q, y, rest) = cut_head_of(line).ok_or(LineError::BadLine)?;
    let set = set_at(alloc, rest)?;
    Ok(Cut {
        set: SharedSet::of(set)?,
        q,
        y,
    })
}

/// The wall that a line says.
#[tactic(auto, unfolding(crate::specs::Reading::wall_of))]
pub fn wall_of(alloc: Global, line: &[u8]) -> Result<Listed<u32>, LineError>
    ensures { Gives (λ set. set) result (wall_of line.now) }
{
    let rest = after(b"WALL", line).ok_or(LineError::BadLine)?;
    let set = set_at(alloc, rest)?;
    Ok(Listed::of(set))
}
