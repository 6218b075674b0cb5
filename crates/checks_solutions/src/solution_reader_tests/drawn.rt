use crate::solution_reader_tests::answer;
use amounts::Scale;
use solution_reader::VerifyFault;
use st_model::{Instance, Need};
use std::alloc::{AllocError, Global};
use std::test::Fail;
use test_instances::Draws;

// A drawn claim: a mark for each vertex from 0 to 7 that stands on a line of its own, edges, and a primal.
#[derive(Drop)]
struct Claim {
    named: [bool; 8],
    edges: Vec<(u32, u32)>,
    primal: Option<u64>,
}

// Mostly a link of the instance, one way round or the other, and now and then any two vertices from 0 to 7.
fn drawn_edge(draws: &mut Draws, instance: &Instance) -> (u32, u32) {
    if draws.below(20) == 0 {
        return (draws.below(8) as u32, draws.below(8) as u32);
    }
    let place = draws.below(10) as usize;
    match instance.links().get(place) {
        Some(link) if draws.below(2) == 0 => (link.a, link.b),
        Some(link) => (link.b, link.a),
        None => (1, 2),
    }
}

// Up to six edges.
fn drawn_edges(
    alloc: Global,
    draws: &mut Draws,
    instance: &Instance,
) -> Result<Vec<(u32, u32)>, AllocError> {
    let mut edges = Vec::new(alloc);
    for _edge in 0..draws.below(7) {
        edges.push(drawn_edge(draws, instance))?;
    }
    Ok(edges)
}

// Each vertex from 1 to 6 stands there in one of ten cases, and 0 or 7 in one of a hundred.
fn drawn_names(draws: &mut Draws) -> [bool; 8] {
    let mut named = [false; 8];
    for vertex in 0..8usize {
        let most = if vertex == 0 || vertex == 7 { 100 } else { 10 };
        if let Some(mark) = named.get_mut(vertex) {
            *mark = draws.below(most) == 0;
        }
    }
    named
}

// The claim in words.
fn text_of(alloc: Global, claim: &Claim) -> Result<String, AllocError> {
    let mut text = String::from_str(alloc, "SECTION Finalsolution\n")?;
    for vertex in 0..8usize {
        if claim.named.get(vertex) == Some(&true) {
            text.push_str(&format!(in alloc; "V {vertex}\n")?)?;
        }
    }
    for edge in &claim.edges {
        let (a, b) = *edge;
        text.push_str(&format!(in alloc; "E {a} {b}\n")?)?;
    }
    text.push_str("END\n")?;
    if let Some(primal) = claim.primal {
        text.push_str(&format!(in alloc; "SECTION Run\nPrimal {primal}\nEND\n")?)?;
    }
    Ok(text)
}

// A mark for each vertex that stands there, alone or as the end of an edge.
fn vertices_of(claim: &Claim) -> [bool; 8] {
    let mut marks = claim.named;
    for edge in &claim.edges {
        for end in [edge.0, edge.1] {
            if let Some(mark) = marks.get_mut(end as usize) {
                *mark = true;
            }
        }
    }
    marks
}

// How many are marked.
fn count(marks: &[bool; 8]) -> usize {
    let mut count: usize = 0;
    for mark in marks {
        count = count.saturating_add(usize::from(*mark));
    }
    count
}

// Whether an edge stands before the place with the same ends.
fn stands_before(edges: &[(u32, u32)], place: usize, edge: (u32, u32)) -> bool {
    for other in edges.iter().take(place) {
        if *other == edge || *other == (edge.1, edge.0) {
            return true;
        }
    }
    false
}

fn is_any_repeated(edges: &[(u32, u32)]) -> bool {
    let mut place: usize = 0;
    for edge in edges {
        if stands_before(edges, place, *edge) {
            return true;
        }
        place = place.saturating_add(1);
    }
    false
}

fn is_any_no_link(instance: &Instance, edges: &[(u32, u32)]) -> bool {
    for edge in edges {
        if instance.link_cost(edge.0, edge.1).is_none() {
            return true;
        }
    }
    false
}

// What is joined to the first that is marked: marks spread along edges until they would have reached the last.
fn spread(edges: &[(u32, u32)], marks: &[bool; 8]) -> [bool; 8] {
    let mut joined = [false; 8];
    if let Some(first) = marks.iter().position(|mark| *mark) {
        if let Some(mark) = joined.get_mut(first) {
            *mark = true;
        }
    }
    for _round in 0..8 {
        for edge in edges {
            let (a, b) = (edge.0 as usize, edge.1 as usize);
            let is_joined = joined.get(a) == Some(&true) || joined.get(b) == Some(&true);
            for end in [a, b] {
                if let Some(mark) = joined.get_mut(end) {
                    *mark = *mark || is_joined;
                }
            }
        }
    }
    joined
}

// Whether some required vertex from 1 to 6 isn't marked.
fn is_any_missing(instance: &Instance, marks: &[bool; 8]) -> bool {
    for before in 0..instance.vertices() {
        let is_there = marks.get(before as usize + 1) == Some(&true);
        if instance.need(before + 1) == Need::Required && !is_there {
            return true;
        }
    }
    false
}

// What the edges cost, and the prizes of those that aren't marked.
fn cost_of(instance: &Instance, edges: &[(u32, u32)], marks: &[bool; 8]) -> u64 {
    let mut cost: u64 = 0;
    for edge in edges {
        cost = cost.saturating_add(instance.link_cost(edge.0, edge.1).unwrap_or(0));
    }
    for before in 0..instance.vertices() {
        if marks.get(before as usize + 1) != Some(&true) {
            cost = cost.saturating_add(instance.prize(before + 1));
        }
    }
    cost
}

// What is answered of a claim, by looking for one fault after another.
fn judged(instance: &Instance, claim: &Claim) -> Result<u64, VerifyFault> {
    let marks = vertices_of(claim);
    let edges = claim.edges.as_slice();
    if count(&marks) == 0 {
        return Err(VerifyFault::Empty);
    }
    if marks.first() == Some(&true) || marks.last() == Some(&true) {
        return Err(VerifyFault::OutOfRange);
    }
    if is_any_no_link(instance, edges) {
        return Err(VerifyFault::NoLink);
    }
    if is_any_repeated(edges) {
        return Err(VerifyFault::Repeated);
    }
    if count(&spread(edges, &marks)) != count(&marks) {
        return Err(VerifyFault::NotConnected);
    }
    if edges.len() >= count(&marks) {
        return Err(VerifyFault::Cycle);
    }
    if is_any_missing(instance, &marks) {
        return Err(VerifyFault::Missing);
    }
    let cost = cost_of(instance, edges, &marks);
    match claim.primal {
        Some(primal) if primal != cost => Err(VerifyFault::CostDiffers),
        _ => Ok(cost),
    }
}

// A claim, which states its cost in half of the cases, and in one of four of those another one.
fn drawn(alloc: Global, draws: &mut Draws, instance: &Instance) -> Result<Claim, AllocError> {
    let named = drawn_names(draws);
    let edges = drawn_edges(alloc, draws, instance)?;
    let mut claim = Claim {
        named,
        edges,
        primal: None,
    };
    if draws.below(2) == 0 {
        let cost = cost_of(instance, claim.edges.as_slice(), &vertices_of(&claim));
        claim.primal = Some(cost.saturating_add(u64::from(draws.below(4) == 0)));
    }
    Ok(claim)
}

// Whether a drawn claim of a drawn instance is answered as it is judged here, and by which number: 0 for a tree.
fn agrees(alloc: Global, draws: &mut Draws) -> Result<Option<usize>, AllocError> {
    let instance = draws.instance(alloc)?;
    let claim = drawn(alloc, draws, &instance)?;
    let text = text_of(alloc, &claim)?;
    let wanted = judged(&instance, &claim);
    if answer(alloc, &instance, Scale::Whole, text.as_bytes()) != wanted {
        return Ok(None);
    }
    match wanted {
        Ok(_) => Ok(Some(0)),
        Err(fault) => Ok(Some(fault.number() as usize)),
    }
}

// Of each answer how many of the drawn claims have it; none where some answer is another one.
fn answers(alloc: Global, claims: u64) -> Result<[u64; 9], AllocError> {
    let mut draws = Draws { state: 7 };
    let mut counts = [0u64; 9];
    for _claim in 0..claims {
        let Some(number) = agrees(alloc, &mut draws)? else {
            return Ok([0; 9]);
        };
        if let Some(count) = counts.get_mut(number) {
            *count = count.saturating_add(1);
        }
    }
    Ok(counts)
}

// Of 3,000 drawn claims each answer is that of a judge apart, and there are some with each.
#[test]
fn judges_drawn_claims(rt: HostRuntime) -> Result<(), Fail> {
    for count in answers(rt.alloc(), 3_000)? {
        assert!(rt; count > 0);
    }
    Ok(())
}
