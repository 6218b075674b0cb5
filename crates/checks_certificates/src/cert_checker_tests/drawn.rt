use super::is_answered;
use super::plain::{Certificate, Left, Move, VERTICES, judged};
use st_model::{Link, Need, SplitAt};
use std::alloc::{AllocError, Global};
use std::test::Fail;
use test_instances::Draws;

// One of the vertices.
fn drawn_vertex(draws: &mut Draws) -> u32 {
    draws.below(6) as u32 + 1
}

// Required or with a prize in two of four cases, else nothing.
fn drawn_need(draws: &mut Draws) -> Need {
    match draws.below(4) {
        0 => Need::Required,
        1 => Need::Pays(draws.below(5)),
        _ => Need::Pays(0),
    }
}

// A path over all vertices.
fn push_path(links: &mut Vec<Link>, draws: &mut Draws) -> Result<(), AllocError> {
    for a in [1, 2, 3, 4, 5] {
        let cost = draws.below(6);
        links.push(Link { a, b: a + 1, cost })?;
    }
    Ok(())
}

// Six links, some of which are parallel to others or loops.
fn push_links(links: &mut Vec<Link>, draws: &mut Draws) -> Result<(), AllocError> {
    for _turn in 0..6 {
        let (a, b) = (drawn_vertex(draws), drawn_vertex(draws));
        let cost = draws.below(6);
        links.push(Link { a, b, cost })?;
    }
    Ok(())
}

// A path over all vertices, and six links more.
fn drawn_links(alloc: Global, draws: &mut Draws) -> Result<Vec<Link>, AllocError> {
    let mut links = Vec::new(alloc);
    push_path(&mut links, draws)?;
    push_links(&mut links, draws)?;
    Ok(links)
}

fn drawn_instance(alloc: Global, draws: &mut Draws) -> Result<Left, AllocError> {
    let links = drawn_links(alloc, draws)?;
    let needs = [
        drawn_need(draws),
        drawn_need(draws),
        drawn_need(draws),
        drawn_need(draws),
        drawn_need(draws),
        drawn_need(draws),
    ];
    Ok(Left {
        links,
        needs,
        gone: [false; 6],
        offset: 0,
    })
}

// Any step; its numbers are mostly those of vertices.
fn drawn_step(draws: &mut Draws) -> Move {
    let vertex = draws.below(8) as u32 + 1;
    match draws.below(6) {
        0 => Move::Pendant(vertex),
        1 => Move::Through(vertex),
        2 => Move::Forced(vertex),
        _ => Move::Detour {
            a: vertex,
            b: drawn_vertex(draws),
            inner: drawn_vertex(draws),
        },
    }
}

fn write_link(text: &mut String, link: &Link) -> Result<(), AllocError> {
    writeln!(text, "E {} {} {}", link.a, link.b, link.cost)
}

fn write_need(text: &mut String, vertex: u32, need: Need) -> Result<(), AllocError> {
    match need {
        Need::Required => writeln!(text, "T {vertex}"),
        Need::Pays(prize) => writeln!(text, "TP {vertex} {prize}"),
    }
}

fn write_instance(text: &mut String, first: &Left) -> Result<(), AllocError> {
    text.push_str("33D32945\nSECTION Graph\nNodes 6\nEdges 11\n")?;
    for link in &first.links {
        write_link(text, link)?;
    }
    text.push_str("END\nSECTION Terminals\nTerminals 6\n")?;
    for (vertex, need) in VERTICES.iter().zip(&first.needs) {
        write_need(text, *vertex, *need)?;
    }
    text.push_str("END\nEOF\n")
}

// The text of the instance.
fn stp_text(alloc: Global, first: &Left) -> Result<String, AllocError> {
    let mut text = String::new(alloc);
    write_instance(&mut text, first)?;
    Ok(text)
}

fn write_step(text: &mut String, step: Move) -> Result<(), AllocError> {
    match step {
        Move::Pendant(vertex) => writeln!(text, "P {vertex}"),
        Move::Through(vertex) => writeln!(text, "H {vertex}"),
        Move::Forced(vertex) => writeln!(text, "F {vertex}"),
        Move::Detour { a, b, inner } => writeln!(text, "D {a} {b} 1 {inner}"),
    }
}

fn write_claim(text: &mut String, certificate: &Certificate) -> Result<(), AllocError> {
    let (primal, dual) = (certificate.primal, certificate.dual);
    writeln!(text, "STEINERLOG 2\nCLAIM TREE {primal} {dual}")?;
    text.push_str("TREE 1 5\nA 1 2\nA 2 3\nA 3 4\nA 4 5\nA 5 6\n")
}

fn write_steps(text: &mut String, steps: &[Move]) -> Result<(), AllocError> {
    writeln!(text, "STEPS {}", steps.len())?;
    for step in steps {
        write_step(text, *step)?;
    }
    Ok(())
}

fn write_split(text: &mut String, at: SplitAt) -> Result<(), AllocError> {
    match at {
        SplitAt::Vertex(vertex) => writeln!(text, "S {vertex}\nC 0 0"),
        SplitAt::Link(low, high) => writeln!(text, "L {low} {high}\nC 0 0"),
    }
}

fn write_proof(text: &mut String, split: Option<SplitAt>) -> Result<(), AllocError> {
    text.push_str("PROOF\n")?;
    if let Some(at) = split {
        write_split(text, at)?;
    }
    text.push_str("C 0 0\nEND\n")
}

// The text of a certificate.
fn log_text(alloc: Global, certificate: &Certificate) -> Result<String, AllocError> {
    let mut text = String::new(alloc);
    write_claim(&mut text, certificate)?;
    write_steps(&mut text, &certificate.steps)?;
    write_proof(&mut text, certificate.split)?;
    Ok(text)
}

// Whether the checker answers to a certificate what the plain program does.
fn agrees(alloc: Global, first: &Left, certificate: &Certificate) -> Result<bool, AllocError> {
    let wanted = judged(alloc, first, certificate)?;
    let stp = stp_text(alloc, first)?;
    let log = log_text(alloc, certificate)?;
    Ok(is_answered(alloc, stp.as_str(), log.as_str(), wanted))
}

// What the path over all vertices costs.
fn path_cost(first: &Left) -> u64 {
    let mut cost: u64 = 0;
    for (a, b) in [(1, 2), (2, 3), (3, 4), (4, 5), (5, 6)] {
        cost = cost.saturating_add(first.cost(a, b).unwrap_or(0));
    }
    cost
}

// Takes drawn steps that may be taken, and notes them.
fn take_drawn(draws: &mut Draws, left: &mut Left, steps: &mut Vec<Move>) -> Result<(), AllocError> {
    for _turn in 0..80 {
        let step = drawn_step(draws);
        if left.take(step)? {
            steps.push(step)?;
        }
    }
    Ok(())
}

// The same, which answers them.
fn drawn_steps(alloc: Global, draws: &mut Draws, left: &mut Left) -> Result<Vec<Move>, AllocError> {
    let mut steps = Vec::new(alloc);
    take_drawn(draws, left, &mut steps)?;
    Ok(steps)
}

// The path, with drawn steps that may be taken, and the bound that they prove.
fn drawn_certificate(
    alloc: Global,
    draws: &mut Draws,
    first: &Left,
) -> Result<Certificate, AllocError> {
    let mut left = first.copied(alloc)?;
    let steps = drawn_steps(alloc, draws, &mut left)?;
    Ok(Certificate {
        primal: path_cost(first),
        dual: left.offset,
        steps,
        split: None,
    })
}

// Two vertices, the lower first; the higher one may be too high.
fn drawn_pair(draws: &mut Draws) -> SplitAt {
    let low = draws.below(6) as u32 + 1;
    SplitAt::Link(low, low + 1 + draws.below(3) as u32)
}

// Changes a step, a number or the proof.
fn change(draws: &mut Draws, certificate: &mut Certificate) {
    match draws.below(10) {
        0 => certificate.dual = certificate.dual.saturating_add(1),
        1 => certificate.dual = certificate.dual.saturating_sub(1),
        2 => certificate.split = Some(SplitAt::Vertex(draws.below(7) as u32 + 1)),
        3 => certificate.split = Some(drawn_pair(draws)),
        4 => {
            certificate.split = Some(drawn_pair(draws));
            certificate.dual = certificate.dual.saturating_add(1);
        }
        _ => {
            let count = certificate.steps.len() as u64;
            if count > 0 {
                let place = draws.below(count) as usize;
                certificate.steps[place] = drawn_step(draws);
            }
        }
    }
}

// Whether all agree on a log with one change.
fn agrees_on_change(
    alloc: Global,
    draws: &mut Draws,
    first: &Left,
    certificate: &Certificate,
) -> Result<bool, AllocError> {
    let mut changed = Certificate {
        primal: certificate.primal,
        dual: certificate.dual,
        steps: Vec::from_slice(alloc, &certificate.steps)?,
        split: None,
    };
    change(draws, &mut changed);
    agrees(alloc, first, &changed)
}

// Whether all agree that a log is right.
fn agrees_on_right(
    alloc: Global,
    first: &Left,
    certificate: &Certificate,
) -> Result<bool, AllocError> {
    Ok(judged(alloc, first, certificate)?.is_ok() && agrees(alloc, first, certificate)?)
}

// Whether all agree on a log with one change or another.
fn agrees_on_changes(
    alloc: Global,
    draws: &mut Draws,
    first: &Left,
    certificate: &Certificate,
) -> Result<bool, AllocError> {
    for _turn in 0..20 {
        if !agrees_on_change(alloc, draws, first, certificate)? {
            return Ok(false);
        }
    }
    Ok(true)
}

// The same of a drawn log that is right, and of the log itself.
fn agrees_on_log(alloc: Global, draws: &mut Draws, first: &Left) -> Result<bool, AllocError> {
    let certificate = drawn_certificate(alloc, draws, first)?;
    Ok(
        agrees_on_right(alloc, first, &certificate)?
            && agrees_on_changes(alloc, draws, first, &certificate)?,
    )
}

// The same of a log of a drawn instance.
fn agrees_on_drawn(alloc: Global, seed: u64) -> Result<bool, AllocError> {
    let mut draws = Draws { state: seed };
    let first = drawn_instance(alloc, &mut draws)?;
    agrees_on_log(alloc, &mut draws, &first)
}

#[test]
fn judges_as_the_plain_program(rt: HostRuntime) -> Result<(), Fail> {
    for seed in 1..31u64 {
        assert!(rt; agrees_on_drawn(rt.alloc(), seed)?, "with seed {seed}");
    }
    Ok(())
}
