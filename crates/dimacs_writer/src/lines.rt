ghost use Rattle.std.specs.Prelude.{◌≡◌, ◌++◌, ◌∷◌, [], IfOk, OnOk, map, string_bytes, codes};
ghost use Rattle.dimacs_writer.specs.Solution;
ghost use Rattle.dimacs_writer.specs.Solution.{header, amount_line, number_line, quoted_line, edge_line, vertex_line};
ghost use Rattle.dimacs_writer.specs.Writing.{IsWritten};

use amounts::{Scale, amount_text};
use std::alloc::{AllocError, Global};

/// The first two lines.
pub fn first_lines(alloc: Global) -> Result<Vec<u8>, AllocError>
    ensures { IfOk result (λ out. IsWritten [] out.items (header ∷ codes "SECTION Comment" ∷ [])) }
{
    let lines = "33D32945 STP File, STP Format Version 1.0\nSECTION Comment\n";
    Vec::from_slice(alloc, lines.as_bytes())
}

/// Puts the line of the name after the text.
pub fn put_name(out: &mut Vec<u8>, name: &str) -> Result<(), AllocError>
    ensures { OnOk result (IsWritten out.old.items out.new.items
        (quoted_line (codes "Name") (map Solution.name_byte name.now) ∷ [])) }
{
    out.extend_from_slice("Name \"".as_bytes())?;
    put_name_bytes(out, name)?;
    out.extend_from_slice("\"\n".as_bytes())?;
    Ok(())
}

// The bytes of the name, with `_` for each quote and control byte.
fn put_name_bytes(out: &mut Vec<u8>, name: &str) -> Result<(), AllocError>
    ensures { OnOk result (out.new.items ≡ out.old.items ++ map Solution.name_byte name.now) }
{
    for byte in name.as_bytes() {
        out.push(name_byte(*byte))?;
    }
    Ok(())
}

fn name_byte(byte: u8) -> u8
    ensures { result ≡ Solution.name_byte byte }
{
    if byte == b'"' || byte < b' ' {
        b'_'
    } else {
        byte
    }
}

/// Puts a line after the text.
pub fn put_line(text: &mut String, line: &str) -> Result<(), AllocError>
    ensures { OnOk result (IsWritten (string_bytes text.old) (string_bytes text.new) (line.now ∷ [])) }
{
    writeln!(text, "{line}")
}

/// Puts a keyword and a number after the text.
pub fn put_number(text: &mut String, keyword: &str, number: u64) -> Result<(), AllocError>
    ensures { OnOk result (IsWritten (string_bytes text.old) (string_bytes text.new)
        (number_line keyword.now number ∷ [])) }
{
    writeln!(text, "{keyword} {number}")
}

/// Puts a keyword and an amount, a number of the scale's unit, after the text.
pub fn put_amount(
    alloc: Global,
    text: &mut String,
    keyword: &str,
    amount: u64,
    scale: Scale,
) -> Result<(), AllocError>
    ensures { OnOk result (IsWritten (string_bytes text.old) (string_bytes text.new)
        (amount_line keyword.now amount scale ∷ [])) }
{
    let amount = amount_text(alloc, amount, scale)?;
    writeln!(text, "{keyword} {amount}")
}

/// Puts a line for each vertex after the text.
pub fn put_vertices(text: &mut String, vertices: &[u32]) -> Result<(), AllocError>
    ensures { OnOk result (IsWritten (string_bytes text.old) (string_bytes text.new) (map vertex_line vertices.now)) }
{
    for vertex in vertices {
        put_number(text, "V", u64::from(*vertex))?;
    }
    Ok(())
}

/// Puts a line for each edge after the text.
pub fn put_edges(text: &mut String, edges: &[(u32, u32)]) -> Result<(), AllocError>
    ensures { OnOk result (IsWritten (string_bytes text.old) (string_bytes text.new) (map edge_line edges.now)) }
{
    for edge in edges {
        put_edge(text, *edge)?;
    }
    Ok(())
}

fn put_edge(text: &mut String, edge: (u32, u32)) -> Result<(), AllocError>
    ensures { OnOk result (IsWritten (string_bytes text.old) (string_bytes text.new) (edge_line edge ∷ [])) }
{
    let (low, high) = edge;
    writeln!(text, "E {low} {high}")
}
