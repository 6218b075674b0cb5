//! Writes the text of a solution, in the manner of the 11th DIMACS Challenge's solution files.
//!
//! The text is the definition `solution_text_of` at the tree's vertices and edges, each once and
//! in ascending order. A caller may rely on every byte: trees that reach the same vertices along
//! the same links, or the same arcs where the instance is directed, have one text, whatever the order of
//! their arcs, and where it isn't directed whatever their directions, and the text
//! tells all that stands in it but the bytes of the name that are written as `_` and the unit that
//! its costs count.
#![tactic(auto)]

ghost use Rattle.std.specs.Prelude.{IfOk, string_bytes};
ghost use Rattle.dimacs_writer.specs.Solution.{IsSolutionTextIn};
ghost use Rattle.dimacs_writer.specs.Writing.{AreSections};

mod law;
mod lines;
mod sections;
mod tree_lists;

use amounts::Scale;
pub use law::{text_tells_solution, tree_has_one_text};
use lines::{first_lines, put_name};
use sections::{put_remark, put_run, put_solutions, put_tree};
use st_model::Tree;
use std::alloc::{AllocError, Global};
use tree_lists::{edges_of, vertices_of};

/// The solution text of a tree that was found by a number of workers, with its cost, the primal,
/// and a bound that no tree's cost is below, the dual. Both are numbers of the scale's unit, and are
/// written in wholes. The tree's arcs may stand in any order. Where the instance is directed, each arc is
/// written as it goes, else with its lower end first.
pub fn solution_text(
    alloc: Global,
    name: &str,
    workers: u32,
    tree: &Tree,
    dual: u64,
    primal: u64,
    scale: Scale,
    directed: bool,
) -> Result<Vec<u8>, AllocError>
    ensures { IfOk result
        (λ out. IsSolutionTextIn directed name.now workers tree.now dual primal scale out.items) }
{
    let mut out = first_lines(alloc)?;
    put_name(&mut out, name)?;
    let text = sections_of(alloc, workers, tree, dual, primal, scale, directed)?;
    out.extend_from_slice(text.as_bytes())?;
    Ok(out)
}

// All that stands after the name.
fn sections_of(
    alloc: Global,
    workers: u32,
    tree: &Tree,
    dual: u64,
    primal: u64,
    scale: Scale,
    directed: bool,
) -> Result<String, AllocError>
    ensures { IfOk result (λ text. AreSections directed workers tree.now dual primal scale (string_bytes text)) }
{
    let vertices = vertices_of(alloc, tree)?;
    let edges = edges_of(alloc, tree, directed)?;
    let mut text = String::new(alloc);
    put_remark(&mut text, dual, primal)?;
    put_solutions(alloc, &mut text, primal, scale)?;
    put_run(alloc, &mut text, workers, dual, primal, scale)?;
    put_tree(&mut text, &vertices, &edges)?;
    Ok(text)
}
