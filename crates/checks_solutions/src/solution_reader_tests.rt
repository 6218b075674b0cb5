use amounts::Scale;
use dimacs_writer::solution_text;
use solution_reader::{
    Claimed, SolError, SolReason, VerifyFault, read_solution, solutions_refused_exactly,
    stated_has_no_fault, verify, written_pairs_are_read, written_solutions_are_read,
};
use st_model::{Instance, Listed, Need, Tree};
use std::alloc::{AllocError, Global};
use std::test::Fail;
use test_instances::{link, links_of_triangle, pair, triangle_with_centre};

mod drawn;

// A triangle of required vertices with sides of 4 and its centre at 2 from each, and beside it a fifth vertex
// that pays 10 where it is left out.
fn star(alloc: Global) -> Result<Instance, AllocError> {
    let needs = [
        (1, Need::Required),
        (2, Need::Required),
        (3, Need::Required),
        (5, Need::Pays(10)),
    ];
    Instance::build(alloc, 5, &links_of_triangle(4), &needs)
}

// Three required vertices round a centre, to which they are linked at 1.5, 2 and 2, all counted in millionths.
fn fine_star(alloc: Global) -> Result<Instance, AllocError> {
    let links = [
        link(1, 4, 1_500_000),
        link(2, 4, 2_000_000),
        link(3, 4, 2_000_000),
    ];
    let needs = [
        (1, Need::Required),
        (2, Need::Required),
        (3, Need::Required),
    ];
    Instance::build(alloc, 4, &links, &needs)
}

// What `verify` answers of a text that reads.
pub fn answer(
    alloc: Global,
    instance: &Instance,
    scale: Scale,
    text: &[u8],
) -> Result<u64, VerifyFault> {
    match read_solution(alloc, text) {
        Ok(claimed) => verify(alloc, instance, scale, &claimed),
        Err(_) => Err(VerifyFault::NoMemory),
    }
}

// Whether a text is a tree that costs this in wholes.
fn costs(alloc: Global, instance: &Instance, text: &[u8], cost: u64) -> bool {
    answer(alloc, instance, Scale::Whole, text) == Ok(cost)
}

// Whether a text is no tree, for this fault first.
fn is_no_tree(alloc: Global, instance: &Instance, text: &[u8], fault: VerifyFault) -> bool {
    answer(alloc, instance, Scale::Whole, text) == Err(fault)
}

// Whether a text is refused at a line for a reason.
fn is_refused(alloc: Global, text: &str, line: u64, reason: SolReason) -> bool {
    match read_solution(alloc, text.as_bytes()) {
        Err(SolError::Fault(fault)) => fault.line == line && fault.reason == reason,
        _ => false,
    }
}

// Whether a text makes a claim of these vertices and edges and this primal.
fn claims(alloc: Global, text: &str, row: &Row) -> bool {
    match read_solution(alloc, text.as_bytes()) {
        Ok(claimed) => is_claim(&claimed, row),
        Err(_) => false,
    }
}

fn is_claim(claimed: &Claimed, row: &Row) -> bool {
    claimed.vertices() == row.vertices
        && claimed.edges() == row.edges
        && claimed.primal() == row.primal
}

/// A text and the claim that it makes.
#[derive(Clone, Copy)]
struct Row {
    text: &'static str,
    vertices: &'static [u32],
    edges: &'static [(u32, u32)],
    primal: Option<u128>,
}

const CLAIMS: &[Row] = &[
    // Lines in any order, ends of edges as vertices, a vertex twice, and no counts.
    Row {
        text: "33D32945\nSECTION Finalsolution\nE 7 3\nV 3\nE 3 5\nV 3\nEND\n",
        vertices: &[3, 5, 7],
        edges: &[(7, 3), (3, 5)],
        primal: None,
    },
    // Run after Finalsolution, lower case, CR LF, tabs, remarks and blank lines, and what follows EOF.
    Row {
        text: "# a remark\r\n\r\n33d32945\r\nsection\tfinalsolution\r\n  vertices 1 \r\nv 0001\r\n# V 2\r\nend\r\n\
            section run\r\nprimal\t6.25\r\nSECTION x\r\nEOF\r\nPrimal 6.0000001\r\nPrimal 1 2\r\nend\r\neof\r\nE 1\r\n",
        vertices: &[1],
        edges: &[],
        primal: Some(6_250_000),
    },
    // The last primal that can be read counts.
    Row {
        text: "SECTION Run\nPrimal 5\nPrimal 6.\nPrimal x\nPrimal 18446744073709551616\nEND\n\
            SECTION Finalsolution\nV 0\nEND",
        vertices: &[0],
        edges: &[],
        primal: Some(6_000_000),
    },
    Row {
        text: "SECTION Comment\nName \"END\"\nSECTION Run\nEOF\nEND\nSECTION Run\n\
            Primal 18446744073709551615.9999990\nEND\nSECTION Finalsolution\nE 1 1\nEND\nEOF",
        vertices: &[1],
        edges: &[(1, 1)],
        primal: Some(18_446_744_073_709_551_615_999_999),
    },
    // Nothing at all may stand there.
    Row {
        text: "33D32945\nSECTION Finalsolution\nVertices 0\nEdges 0\nEND\n",
        vertices: &[],
        edges: &[],
        primal: None,
    },
];

#[test]
fn reads_claims(rt: HostRuntime) -> Result<(), Fail> {
    for row in CLAIMS {
        assert!(rt; claims(rt.alloc(), row.text, row));
    }
    Ok(())
}

const REFUSED: &[(&str, u64, SolReason)] = &[
    ("", 1, SolReason::NoHeader),
    ("\n# a remark\n", 3, SolReason::NoHeader),
    ("V 1\n", 1, SolReason::NoHeader),
    ("SECTION Run x\n", 1, SolReason::BadLine),
    ("33D32945\nEND\n", 2, SolReason::BadLine),
    ("33D32945\nEOF x\n", 2, SolReason::BadLine),
    (
        "SECTION Run\nEND\nSECTION RUN\n",
        3,
        SolReason::RepeatedSection,
    ),
    (
        "SECTION Finalsolution\nEND\nSECTION Finalsolution\n",
        3,
        SolReason::RepeatedSection,
    ),
    ("SECTION Finalsolution\nV 1 2\n", 2, SolReason::BadLine),
    (
        "SECTION Finalsolution\nSECTION Run\n",
        2,
        SolReason::BadLine,
    ),
    (
        "SECTION Finalsolution\nVertices 1\nVertices x\n",
        3,
        SolReason::BadLine,
    ),
    (
        "SECTION Finalsolution\nEdges 1\nEdges 1\n",
        3,
        SolReason::BadLine,
    ),
    (
        "SECTION Finalsolution\nV 1000001\n",
        2,
        SolReason::BadNumber,
    ),
    ("SECTION Finalsolution\nE 1 x\n", 2, SolReason::BadNumber),
    ("SECTION Finalsolution\nV -1\n", 2, SolReason::BadNumber),
    (
        "SECTION Finalsolution\nVertices 1000001\n",
        2,
        SolReason::BadNumber,
    ),
    (
        "SECTION Finalsolution\nEdges 4000001\n",
        2,
        SolReason::BadNumber,
    ),
    (
        "SECTION Finalsolution\nVertices 2\nE 1 2\nV 1\nEND\n",
        5,
        SolReason::CountMismatch,
    ),
    (
        "SECTION Finalsolution\nEdges 0\nE 1 2\nEND\n",
        4,
        SolReason::CountMismatch,
    ),
    ("SECTION Finalsolution\nV 1\nEOF\n", 3, SolReason::BadLine),
    ("SECTION Finalsolution\nV 1\n", 3, SolReason::Unclosed),
    ("SECTION Comment\nEOF\n", 3, SolReason::Unclosed),
    ("SECTION Run\nEND\nEOF\n", 3, SolReason::NoFinal),
    ("33D32945\n", 2, SolReason::NoFinal),
];

#[test]
fn refuses_texts(rt: HostRuntime) -> Result<(), Fail> {
    for row in REFUSED {
        let (text, line, reason) = *row;
        assert!(rt; is_refused(rt.alloc(), text, line, reason));
    }
    Ok(())
}

#[test]
fn reasons_have_numbers_and_names(rt: HostRuntime) -> Result<(), Fail> {
    assert!(rt; SolReason::NoHeader.code() == 1 && SolReason::NoFinal.code() == 7);
    assert!(rt; SolReason::BadNumber.name() == "BadNumber");
    assert!(rt; VerifyFault::Empty.number() == 1 && VerifyFault::CostDiffers.number() == 8);
    assert!(rt; VerifyFault::NotConnected.name() == "NotConnected");
    solutions_refused_exactly();
    stated_has_no_fault();
    written_solutions_are_read();
    written_pairs_are_read();
    Ok(())
}

// The star's centre and its three links, with what stands in Run before and in Finalsolution after them.
fn star_text(alloc: Global, run: &str, more: &str) -> Result<String, AllocError> {
    format!(in alloc;
        "33D32945\nSECTION Run\n{run}\nEND\nSECTION Finalsolution\nV 2\nE 1 4\nE 4 2\n{more}\nEND\nEOF\n"
    )
}

/// What stands in Run, what follows two edges of the star, and what is answered.
const JUDGED: &[(&str, &str, Result<u64, VerifyFault>)] = &[
    ("Primal 16", "E 3 4", Ok(16)),
    ("Primal 16.000000", "E 4 3", Ok(16)),
    ("", "E 3 4", Ok(16)),
    ("Primal 6", "E 3 4", Err(VerifyFault::CostDiffers)),
    ("Primal 16.5", "E 3 4", Err(VerifyFault::CostDiffers)),
    ("", "E 3 6", Err(VerifyFault::OutOfRange)),
    ("", "E 3 0", Err(VerifyFault::OutOfRange)),
    ("", "E 3 5", Err(VerifyFault::NoLink)),
    ("", "E 3 3", Err(VerifyFault::NoLink)),
    ("", "E 2 4", Err(VerifyFault::Repeated)),
    ("", "E 1 4", Err(VerifyFault::Repeated)),
    ("", "V 3", Err(VerifyFault::NotConnected)),
    ("", "V 5", Err(VerifyFault::NotConnected)),
    ("", "E 1 2", Err(VerifyFault::Cycle)),
    ("", "E 3 4\nE 3 1", Err(VerifyFault::Cycle)),
    ("Primal 7", "V 1", Err(VerifyFault::Missing)),
];

#[test]
fn judges_the_star(rt: HostRuntime) -> Result<(), Fail> {
    let instance = star(rt.alloc())?;
    for row in JUDGED {
        let (run, more, wanted) = *row;
        assert!(rt;
            answer(
                rt.alloc(),
                &instance,
                Scale::Whole,
                star_text(rt.alloc(), run, more)?.as_bytes()
            ) == wanted
        );
    }
    Ok(())
}

/// What stands in Run beside the star that costs 5.5, counted in millionths, and what is answered.
const FINE: &[(&str, Result<u64, VerifyFault>)] = &[
    ("Primal 5.5", Ok(5_500_000)),
    ("Primal 5.500000", Ok(5_500_000)),
    ("Primal 5", Err(VerifyFault::CostDiffers)),
    ("Primal 5.500001", Err(VerifyFault::CostDiffers)),
    ("Primal 5500000", Err(VerifyFault::CostDiffers)),
    // What is finer than millionths is passed over.
    ("Primal 5.5000001", Ok(5_500_000)),
    ("Primal 5.5\nPrimal 5.0000001", Ok(5_500_000)),
    ("Primal 5\nPrimal 5.5000001", Err(VerifyFault::CostDiffers)),
];

/// The same beside the star that costs 6, counted in wholes.
const WHOLE: &[(&str, Result<u64, VerifyFault>)] = &[
    ("Primal 6", Ok(6)),
    ("Primal 6.000000", Ok(6)),
    ("Primal 6.5", Err(VerifyFault::CostDiffers)),
    ("Primal 0.000006", Err(VerifyFault::CostDiffers)),
];

// Whether each row is answered so of the star's three links at this scale.
fn are_answered(
    alloc: Global,
    instance: &Instance,
    scale: Scale,
    rows: &[(&str, Result<u64, VerifyFault>)],
) -> Result<bool, AllocError> {
    for row in rows {
        let (run, wanted) = *row;
        let text = star_text(alloc, run, "E 3 4")?;
        if answer(alloc, instance, scale, text.as_bytes()) != wanted {
            return Ok(false);
        }
    }
    Ok(true)
}

#[test]
fn judges_primals_at_both_scales(rt: HostRuntime) -> Result<(), Fail> {
    let fine = fine_star(rt.alloc())?;
    let whole = triangle_with_centre(rt.alloc(), 4)?;
    assert!(rt; are_answered(rt.alloc(), &fine, Scale::Millionths, FINE)?);
    assert!(rt; are_answered(rt.alloc(), &whole, Scale::Whole, WHOLE)?);
    Ok(())
}

#[test]
fn judges_vertices_alone(rt: HostRuntime) -> Result<(), Fail> {
    let instance = pair(rt.alloc(), Need::Pays(0), Need::Pays(4))?;
    let lone = "SECTION Finalsolution\nV 1\nEND\n";
    assert!(rt; costs(rt.alloc(), &instance, lone.as_bytes(), 4));
    let both = "SECTION Finalsolution\nV 1\nV 2\nEND\n";
    assert!(rt;
        is_no_tree(
            rt.alloc(),
            &instance,
            both.as_bytes(),
            VerifyFault::NotConnected
        )
    );
    let none = "SECTION Finalsolution\nEND\n";
    assert!(rt; is_no_tree(rt.alloc(), &instance, none.as_bytes(), VerifyFault::Empty));
    Ok(())
}

fn tree_of(alloc: Global, start: u32, arcs: &[(u32, u32)]) -> Result<Tree, AllocError> {
    let arcs = Vec::from_slice(alloc, arcs)?;
    Ok(Tree {
        start,
        arcs: Listed::of(arcs),
    })
}

// Whether what is written of a star's tree is read and judged as this tree, and differs in its cost at the other
// scale.
fn comes_back(
    alloc: Global,
    instance: &Instance,
    cost: u64,
    scale: Scale,
    other: Scale,
) -> Result<bool, AllocError> {
    let tree = tree_of(alloc, 4, &[(4, 1), (4, 2), (4, 3)])?;
    let text = solution_text(alloc, "row1.stp", 1, &tree, cost, cost, scale, false)?;
    Ok(
        answer(alloc, instance, scale, &text) == Ok(cost)
            && answer(alloc, instance, other, &text) == Err(VerifyFault::CostDiffers),
    )
}

#[test]
fn judges_what_is_written(rt: HostRuntime) -> Result<(), Fail> {
    let whole = star(rt.alloc())?;
    let fine = fine_star(rt.alloc())?;
    assert!(rt; comes_back(rt.alloc(), &whole, 16, Scale::Whole, Scale::Millionths)?);
    assert!(rt;
        comes_back(
            rt.alloc(),
            &fine,
            5_500_000,
            Scale::Millionths,
            Scale::Whole
        )?
    );
    Ok(())
}

/// A tree and whether its arcs are written as they go, and the claim that is read of what is written.
#[derive(Clone, Copy)]
struct Written {
    directed: bool,
    start: u32,
    arcs: &'static [(u32, u32)],
    vertices: &'static [u32],
    edges: &'static [(u32, u32)],
}

const WRITTEN: &[Written] = &[
    Written {
        directed: true,
        start: 2,
        arcs: &[(2, 1), (1, 30), (30, 4)],
        vertices: &[1, 2, 4, 30],
        edges: &[(1, 30), (2, 1), (30, 4)],
    },
    Written {
        directed: false,
        start: 2,
        arcs: &[(2, 1), (1, 30), (30, 4)],
        vertices: &[1, 2, 4, 30],
        edges: &[(1, 2), (1, 30), (4, 30)],
    },
    // Two arcs between two vertices, one each way.
    Written {
        directed: true,
        start: 3,
        arcs: &[(3, 1), (1, 3)],
        vertices: &[1, 3],
        edges: &[(1, 3), (3, 1)],
    },
    Written {
        directed: false,
        start: 3,
        arcs: &[(3, 1), (1, 3)],
        vertices: &[1, 3],
        edges: &[(1, 3)],
    },
    // One vertex.
    Written {
        directed: true,
        start: 1_000_000,
        arcs: &[],
        vertices: &[1_000_000],
        edges: &[],
    },
];

// Whether what is written of this tree at a cost of 5.5 is read as that claim.
fn is_read(alloc: Global, row: &Written) -> Result<bool, AllocError> {
    let tree = tree_of(alloc, row.start, row.arcs)?;
    let cost = 5_500_000;
    let text = solution_text(
        alloc,
        "a.stp",
        2,
        &tree,
        4,
        cost,
        Scale::Millionths,
        row.directed,
    )?;
    match read_solution(alloc, &text) {
        Ok(claimed) => Ok(
            claimed.vertices() == row.vertices
                && claimed.edges() == row.edges
                && claimed.primal() == Some(u128::from(cost)),
        ),
        Err(_) => Ok(false),
    }
}

#[test]
fn reads_arcs_as_they_were_written(rt: HostRuntime) -> Result<(), Fail> {
    for row in WRITTEN {
        assert!(rt; is_read(rt.alloc(), row)?);
    }
    Ok(())
}
