use super::HEADER;
use super::drawn::{at_scale, draw, drawn_links, drawn_vertex, is_fraction, shifted};
use amounts::Scale;
use arborescence::DiInstance;
use std::alloc::{AllocError, Global};
use std::test::Fail;
use stp_reader::{File, read_file};

/// A directed file of five vertices, before its costs are divided. Of several arcs some may lead alike, and some be loops.
#[derive(Drop)]
struct DrawnArcs {
    arcs: Vec<(u32, u32, u64)>,
    root: u32,
    /// Two vertices, maybe twice the same one.
    terminals: (u32, u32),
}

/// A drawn directed file.
fn drawn_arcs(alloc: Global, state: &mut u64) -> Result<DrawnArcs, AllocError> {
    let zeros = draw(state, 4);
    let root = drawn_vertex(state);
    let terminals = (drawn_vertex(state), drawn_vertex(state));
    let arcs = drawn_links(alloc, state, zeros)?;
    Ok(DrawnArcs {
        arcs,
        root,
        terminals,
    })
}

/// The lines of the arcs, their costs divided by so many tens.
fn arc_lines(alloc: Global, drawn: &DrawnArcs, places: usize) -> Result<String, AllocError> {
    let mut text = String::new(alloc);
    for arc in &drawn.arcs {
        let (tail, head, cost) = *arc;
        let cost = shifted(alloc, cost, places)?;
        writeln!(&mut text, "A {tail} {head} {cost}")?;
    }
    Ok(text)
}

/// The text of a drawn directed file.
fn text_of(alloc: Global, drawn: &DrawnArcs, places: usize) -> Result<String, AllocError> {
    let lines = arc_lines(alloc, drawn, places)?;
    let count = drawn.arcs.len();
    let root = drawn.root;
    let (first, second) = drawn.terminals;
    format!(in alloc;
        "{HEADER}\nSECTION Graph\nNodes 5\nArcs {count}\n{lines}END\n\
        SECTION Terminals\nTerminals 2\nT {first}\nRoot {root}\nT {second}\nEND\nEOF\n"
    )
}

/// What the costs of a drawn file count in such units.
fn scale_of(drawn: &DrawnArcs, unit: u64) -> Scale {
    for arc in &drawn.arcs {
        if is_fraction(arc.2, unit) {
            return Scale::Millionths;
        }
    }
    Scale::Whole
}

/// The least amount at which an arc leads from one vertex to another.
fn least_from(drawn: &DrawnArcs, tail: u32, head: u32) -> Option<u64> {
    let mut least = None;
    for arc in &drawn.arcs {
        let (a, b, cost) = *arc;
        if (a, b) == (tail, head) && a != b {
            least = Some(cost.min(least.unwrap_or(cost)));
        }
    }
    least
}

/// Whether an arc leads from one vertex to another where it does in the drawn file, and at that cost.
fn leads(
    instance: &DiInstance,
    drawn: &DrawnArcs,
    ends: (u32, u32),
    unit: u64,
    scale: Scale,
) -> bool {
    let (tail, head) = ends;
    let wanted = match least_from(drawn, tail, head) {
        Some(cost) => Some(at_scale(cost, unit, scale)),
        None => None,
    };
    instance.arc_cost(tail, head) == wanted
}

/// Whether all arcs are as in the drawn file.
fn has_costs(instance: &DiInstance, drawn: &DrawnArcs, unit: u64, scale: Scale) -> bool {
    for tail in 1..6 {
        for head in 1..6 {
            if !leads(instance, drawn, (tail, head), unit, scale) {
                return false;
            }
        }
    }
    true
}

/// Whether the instance has the root and the terminals of the drawn file.
fn has_ends(instance: &DiInstance, drawn: &DrawnArcs) -> bool {
    let (first, second) = drawn.terminals;
    let terminals = instance.terminals();
    instance.vertices() == 5
        && instance.root() == drawn.root
        && terminals.contains(&first)
        && terminals.contains(&second)
        && terminals.len() == 1 + usize::from(first != second)
}

/// Whether the text of a drawn file is read as that file.
fn is_read(alloc: Global, drawn: &DrawnArcs, places: usize, unit: u64) -> Result<bool, Fail> {
    let text = text_of(alloc, drawn, places)?;
    match read_file(alloc, text.as_bytes())? {
        File::Directed { instance, scale } => Ok(
            scale == scale_of(drawn, unit)
                && has_costs(&instance, drawn, unit, scale)
                && has_ends(&instance, drawn),
        ),
        File::Plain(_) => Ok(false),
    }
}

/// Whether a further drawn file is read so.
fn next_is_read(alloc: Global, state: &mut u64, places: usize, unit: u64) -> Result<bool, Fail> {
    let drawn = drawn_arcs(alloc, state)?;
    is_read(alloc, &drawn, places, unit)
}

/// By how many tens costs are divided, and how many millionths are left of one.
const DIVIDED: &[(usize, u64)] = &[(0, 1_000_000), (1, 100_000), (3, 1_000), (6, 1)];

#[test]
fn reads_drawn_directed_files(rt: HostRuntime) -> Result<(), Fail> {
    let mut state = 5;
    for row in DIVIDED {
        let (places, unit) = *row;
        for _file in 0..100 {
            assert!(rt;
                next_is_read(rt.alloc(), &mut state, places, unit)?,
                "by {places}"
            );
        }
    }
    Ok(())
}
