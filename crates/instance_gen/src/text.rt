ghost use Rattle.std.specs.Prelude.{◌++◌, ◌∷◌, [], OnOk, map, string_bytes, codes};
ghost use Rattle.instance_gen.specs.Text.{header, number_line, link_line, need_line, graph_lines, terminal_lines};
ghost use Rattle.instance_gen.specs.Writing.{IsWritten};

use amounts::{Scale, put_amount};
use st_model::{Instance, Link, Need};
use std::alloc::AllocError;

// Puts the first line and the section of the graph after the text.
pub fn put_graph(text: &mut String, instance: &Instance, scale: Scale) -> Result<(), AllocError>
    ensures { OnOk result
        (IsWritten (string_bytes text.old) (string_bytes text.new)
        (header ∷ graph_lines instance.now.n instance.now.links scale)) }
{
    let links = instance.links();
    put_header(text)?;
    put_pair(text, "SECTION", "Graph")?;
    put_number(text, "Nodes", u64::from(instance.vertices()))?;
    put_number(text, "Edges", links.len() as u64)?;
    put_links(text, links, scale)?;
    put_word(text, "END")?;
    Ok(())
}

// Puts the section of the needs and the last line after the text.
pub fn put_terminals(
    text: &mut String,
    needs: &[(u32, Need)],
    scale: Scale,
) -> Result<(), AllocError>
    ensures { OnOk result
        (IsWritten (string_bytes text.old) (string_bytes text.new)
        (terminal_lines needs.now scale ++ (codes "EOF" ∷ []) ∷ [])) }
{
    put_pair(text, "SECTION", "Terminals")?;
    put_number(text, "Terminals", needs.len() as u64)?;
    put_needs(text, needs, scale)?;
    put_word(text, "END")?;
    put_word(text, "EOF")?;
    Ok(())
}

fn put_header(text: &mut String) -> Result<(), AllocError>
    ensures { OnOk result (IsWritten (string_bytes text.old) (string_bytes text.new) (header ∷ [])) }
{
    text.push_str("33D32945 STP File, STP Format Version 1.0\n")
}

// Puts a line of one word after the text.
fn put_word(text: &mut String, word: &str) -> Result<(), AllocError>
    ensures { OnOk result (IsWritten (string_bytes text.old) (string_bytes text.new) ((word.now ∷ []) ∷ [])) }
{
    writeln!(text, "{word}")
}

// Puts a line of two words after the text.
fn put_pair(text: &mut String, first: &str, second: &str) -> Result<(), AllocError>
    ensures { OnOk result
        (IsWritten (string_bytes text.old) (string_bytes text.new) ((first.now ∷ second.now ∷ []) ∷ [])) }
{
    writeln!(text, "{first} {second}")
}

// Puts a keyword and a number after the text.
fn put_number(text: &mut String, keyword: &str, number: u64) -> Result<(), AllocError>
    ensures { OnOk result
        (IsWritten (string_bytes text.old) (string_bytes text.new) (number_line keyword.now number ∷ [])) }
{
    writeln!(text, "{keyword} {number}")
}

// Puts a line for each link after the text.
fn put_links(text: &mut String, links: &[Link], scale: Scale) -> Result<(), AllocError>
    ensures { OnOk result (IsWritten (string_bytes text.old) (string_bytes text.new)
        (map (λ l. link_line l scale) links.now)) }
{
    for link in links {
        put_link(text, *link, scale)?;
    }
    Ok(())
}

fn put_link(text: &mut String, link: Link, scale: Scale) -> Result<(), AllocError>
    ensures { OnOk result (IsWritten (string_bytes text.old) (string_bytes text.new) (link_line link scale ∷ [])) }
{
    write!(text, "E {} {} ", link.a, link.b)?;
    put_amount(text, link.cost, scale)?;
    text.push_str("\n")
}

// Puts a line for each need after the text.
fn put_needs(text: &mut String, needs: &[(u32, Need)], scale: Scale) -> Result<(), AllocError>
    ensures { OnOk result (IsWritten (string_bytes text.old) (string_bytes text.new)
        (map (λ entry. need_line entry scale) needs.now)) }
{
    for entry in needs {
        put_need(text, *entry, scale)?;
    }
    Ok(())
}

fn put_need(text: &mut String, entry: (u32, Need), scale: Scale) -> Result<(), AllocError>
    ensures { OnOk result (IsWritten (string_bytes text.old) (string_bytes text.new) (need_line entry scale ∷ [])) }
{
    let (vertex, need) = entry;
    match need {
        Need::Required => writeln!(text, "T {vertex}"),
        Need::Pays(prize) => {
            write!(text, "TP {vertex} ")?;
            put_amount(text, prize, scale)?;
            text.push_str("\n")
        }
    }
}
