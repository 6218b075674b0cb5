ghost use Rattle.std.specs.Prelude.{◌≡◌, ◌++◌, ◌∷◌, [], OnOk, string_bytes, codes};
ghost use Rattle.dimacs_writer.specs.Solution;
ghost use Rattle.dimacs_writer.specs.Solution.{quoted_line, remark_lines, run_lines, solutions_lines, tree_lines};
ghost use Rattle.dimacs_writer.specs.Writing.{IsWritten};

use crate::lines::{put_amount, put_edges, put_line, put_number, put_vertices};
use amounts::Scale;
use std::alloc::{AllocError, Global};

/// Puts what follows the name in its section after the text.
pub fn put_remark(text: &mut String, dual: u64, primal: u64) -> Result<(), AllocError>
    ensures { OnOk result (IsWritten (string_bytes text.old) (string_bytes text.new) (remark_lines dual primal)) }
{
    put_line(text, "Program \"steiner\"")?;
    put_line(text, remark_line(dual, primal))?;
    put_line(text, "END")?;
    Ok(())
}

fn remark_line(dual: u64, primal: u64) -> &'static str
    ensures { result.now ≡ quoted_line (codes "Remark") (Solution.remark dual primal) }
{
    if dual == primal {
        "Remark \"optimal\""
    } else {
        "Remark \"budget\""
    }
}

/// Puts the section of the primal after the text.
pub fn put_solutions(
    alloc: Global,
    text: &mut String,
    primal: u64,
    scale: Scale,
) -> Result<(), AllocError>
    ensures { OnOk result (IsWritten (string_bytes text.old) (string_bytes text.new) (solutions_lines primal scale)) }
{
    put_line(text, "SECTION Solutions")?;
    put_amount(alloc, text, "Solution 0", primal, scale)?;
    put_line(text, "END")?;
    Ok(())
}

/// Puts the section of the run after the text.
pub fn put_run(
    alloc: Global,
    text: &mut String,
    workers: u32,
    dual: u64,
    primal: u64,
    scale: Scale,
) -> Result<(), AllocError>
    ensures { OnOk result (IsWritten (string_bytes text.old) (string_bytes text.new)
        (run_lines workers dual primal scale)) }
{
    put_line(text, "SECTION Run")?;
    put_number(text, "Threads", u64::from(workers))?;
    put_line(text, "Time 0")?;
    put_amount(alloc, text, "Dual", dual, scale)?;
    put_amount(alloc, text, "Primal", primal, scale)?;
    put_line(text, "END")?;
    Ok(())
}

/// Puts the section of the tree and the last line after the text.
pub fn put_tree(text: &mut String, vertices: &[u32], edges: &[(u32, u32)]) -> Result<(), AllocError>
    ensures { OnOk result (IsWritten (string_bytes text.old) (string_bytes text.new)
        (tree_lines vertices.now edges.now ++ codes "EOF" ∷ [])) }
{
    put_line(text, "SECTION Finalsolution")?;
    put_number(text, "Vertices", vertices.len() as u64)?;
    put_vertices(text, vertices)?;
    put_number(text, "Edges", edges.len() as u64)?;
    put_edges(text, edges)?;
    put_line(text, "END")?;
    put_line(text, "EOF")?;
    Ok(())
}
