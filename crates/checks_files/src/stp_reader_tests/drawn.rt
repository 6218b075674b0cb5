ghost use Rattle.std.specs.Prelude.{◌<◌};

use super::HEADER;
use amounts::Scale;
use st_model::{Instance, Need};
use std::alloc::{AllocError, Global};
use std::test::Fail;
use stp_reader::{File, Reading, read_file, read_stp};

/// The next of some numbers that look random, below a limit.
pub fn draw(state: &mut u64, below: u64) -> u64
    requires { 0 < below }
    ensures { result < below }
{
    *state = state.wrapping_mul(48_271) % 2_147_483_647;
    *state % below
}

/// An amount below 1000 with at least so many zeros at its end, or in one of ten cases with one less.
fn drawn_amount(state: &mut u64, zeros: u64) -> u64 {
    match zeros.saturating_sub(draw(state, 10) / 9) {
        0 => draw(state, 1000),
        1 => 10 * draw(state, 100),
        2 => 100 * draw(state, 10),
        _ => 0,
    }
}

/// A vertex from 1 to 5.
pub fn drawn_vertex(state: &mut u64) -> u32 {
    1 + draw(state, 5) as u32
}

/// What the lines of a file say of a vertex.
#[derive(Clone, Copy)]
struct Said {
    vertex: u32,
    required: bool,
    prize: Option<u64>,
}

/// A file of five vertices, before its amounts are divided. A link may be a loop, or join what another one joins.
#[derive(Drop)]
struct Drawn {
    links: Vec<(u32, u32, u64)>,
    needs: Vec<Said>,
}

/// One to six links.
pub fn drawn_links(
    alloc: Global,
    state: &mut u64,
    zeros: u64,
) -> Result<Vec<(u32, u32, u64)>, AllocError> {
    let mut links = Vec::new(alloc);
    for _link in 0..1 + draw(state, 6) {
        let (a, b) = (drawn_vertex(state), drawn_vertex(state));
        links.push((a, b, drawn_amount(state, zeros)))?;
    }
    Ok(links)
}

/// The first vertex is required, and of the others one in three; half of them all have a prize.
fn drawn_needs(alloc: Global, state: &mut u64, zeros: u64) -> Result<Vec<Said>, AllocError> {
    let mut needs = Vec::new(alloc);
    for vertex in 1..6 {
        let required = vertex == 1 || draw(state, 3) == 0;
        let prize = if draw(state, 2) == 0 {
            Some(drawn_amount(state, zeros))
        } else {
            None
        };
        needs.push(Said {
            vertex,
            required,
            prize,
        })?;
    }
    Ok(needs)
}

/// A drawn file; in one of four all amounts are 0, or nearly all.
fn drawn_file(alloc: Global, state: &mut u64) -> Result<Drawn, AllocError> {
    let zeros = draw(state, 4);
    let links = drawn_links(alloc, state, zeros)?;
    let needs = drawn_needs(alloc, state, zeros)?;
    Ok(Drawn { links, needs })
}

/// An amount of at most seven digits with a point before so many of the last, or without one.
pub fn shifted(alloc: Global, amount: u64, places: usize) -> Result<String, AllocError> {
    if places == 0 {
        return format!(in alloc; "{amount}");
    }
    let digits = format!(in alloc; "{amount:07}")?;
    let mut text = String::new(alloc);
    let mut left = digits.len();
    for digit in digits.chars() {
        if left == places {
            text.push('.')?;
        }
        text.push(digit)?;
        left = left.saturating_sub(1);
    }
    Ok(text)
}

/// Puts the section Graph after a text, the costs divided.
fn put_graph(
    alloc: Global,
    text: &mut String,
    drawn: &Drawn,
    places: usize,
) -> Result<(), AllocError> {
    let count = drawn.links.len();
    writeln!(text, "SECTION Graph\nNodes 5\nEdges {count}")?;
    for link in &drawn.links {
        let (a, b, cost) = *link;
        let cost = shifted(alloc, cost, places)?;
        writeln!(text, "E {a} {b} {cost}")?;
    }
    writeln!(text, "END")
}

/// Puts what is said of a vertex after a text, its prize divided, and answers how many lines that takes.
fn put_need(
    alloc: Global,
    text: &mut String,
    said: Said,
    places: usize,
) -> Result<u64, AllocError> {
    let vertex = said.vertex;
    if said.required {
        writeln!(text, "T {vertex}")?;
    }
    let mut lines = u64::from(said.required);
    if let Some(prize) = said.prize {
        let prize = shifted(alloc, prize, places)?;
        writeln!(text, "TP {vertex} {prize}")?;
        lines += 1;
    }
    Ok(lines)
}

/// The lines that say needs, and how many they are.
fn need_lines(alloc: Global, drawn: &Drawn, places: usize) -> Result<(String, u64), AllocError> {
    let mut text = String::new(alloc);
    let mut count: u64 = 0;
    for said in &drawn.needs {
        count = count.saturating_add(put_need(alloc, &mut text, *said, places)?);
    }
    Ok((text, count))
}

/// The text of a drawn file, its amounts divided by so many tens.
fn text_of(alloc: Global, drawn: &Drawn, places: usize) -> Result<String, AllocError> {
    let mut text = format!(in alloc; "{HEADER}\n")?;
    put_graph(alloc, &mut text, drawn, places)?;
    let (lines, count) = need_lines(alloc, drawn, places)?;
    writeln!(
        &mut text,
        "SECTION Terminals\nTerminals {count}\n{lines}END\nEOF"
    )?;
    Ok(text)
}

/// Whether so many units are no whole, where a unit is so many millionths.
pub fn is_fraction(amount: u64, unit: u64) -> bool {
    amount.saturating_mul(unit) % 1_000_000 != 0
}

/// What the amounts of a drawn file count in such units.
fn scale_of(drawn: &Drawn, unit: u64) -> Scale {
    for link in &drawn.links {
        if is_fraction(link.2, unit) {
            return Scale::Millionths;
        }
    }
    for said in &drawn.needs {
        if is_fraction(said.prize.unwrap_or(0), unit) {
            return Scale::Millionths;
        }
    }
    Scale::Whole
}

/// So many units at a scale.
pub fn at_scale(amount: u64, unit: u64, scale: Scale) -> u64 {
    let millionths = amount.saturating_mul(unit);
    match scale {
        Scale::Whole => millionths / 1_000_000,
        Scale::Millionths => millionths,
    }
}

/// The least amount that joins two vertices.
fn least_between(drawn: &Drawn, one: u32, other: u32) -> Option<u64> {
    let mut least = None;
    for link in &drawn.links {
        let (a, b, cost) = *link;
        if (a, b) == (one, other) || (a, b) == (other, one) {
            least = Some(cost.min(least.unwrap_or(cost)));
        }
    }
    least
}

/// Any two of five vertices.
const PAIRS: &[(u32, u32)] = &[
    (1, 2),
    (1, 3),
    (1, 4),
    (1, 5),
    (2, 3),
    (2, 4),
    (2, 5),
    (3, 4),
    (3, 5),
    (4, 5),
];

/// Whether an instance joins two vertices at such units where the drawn file does, and nowhere else.
fn has_costs(instance: &Instance, drawn: &Drawn, unit: u64, scale: Scale) -> bool {
    for pair in PAIRS {
        let (a, b) = *pair;
        let wanted = match least_between(drawn, a, b) {
            Some(cost) => Some(at_scale(cost, unit, scale)),
            None => None,
        };
        if instance.link_cost(a, b) != wanted {
            return false;
        }
    }
    true
}

/// Whether an instance has the needs that the drawn file says, prizes in such units.
fn has_needs(instance: &Instance, drawn: &Drawn, unit: u64, scale: Scale) -> bool {
    for said in &drawn.needs {
        let wanted = if said.required {
            Need::Required
        } else {
            Need::Pays(at_scale(said.prize.unwrap_or(0), unit, scale))
        };
        let place = said.vertex.saturating_sub(1) as usize;
        if instance.needs().get(place) != Some(&wanted) {
            return false;
        }
    }
    instance.vertices() == 5
}

/// Whether what was read is the drawn file in such units, at the scale that it has then.
fn is_drawn(read: &Reading, drawn: &Drawn, unit: u64) -> bool {
    let scale = scale_of(drawn, unit);
    read.scale == scale
        && has_costs(&read.instance, drawn, unit, scale)
        && has_needs(&read.instance, drawn, unit, scale)
}

/// The scale of the text of a drawn file, if it is read as that file.
fn read_scale(
    alloc: Global,
    drawn: &Drawn,
    places: usize,
    unit: u64,
) -> Result<Option<Scale>, Fail> {
    let text = text_of(alloc, drawn, places)?;
    let read = read_stp(alloc, text.as_bytes())?;
    if is_drawn(&read, drawn, unit) {
        Ok(Some(read.scale))
    } else {
        Ok(None)
    }
}

/// Whether the text of a drawn file is read as that file where directed files are read, too.
fn is_read_alike(alloc: Global, drawn: &Drawn, places: usize, unit: u64) -> Result<bool, Fail> {
    let text = text_of(alloc, drawn, places)?;
    match read_file(alloc, text.as_bytes())? {
        File::Plain(read) => Ok(is_drawn(&read, drawn, unit)),
        File::Directed { .. } => Ok(false),
    }
}

/// Whether a further drawn file is read so.
fn next_is_read_alike(
    alloc: Global,
    state: &mut u64,
    places: usize,
    unit: u64,
) -> Result<bool, Fail> {
    let drawn = drawn_file(alloc, state)?;
    is_read_alike(alloc, &drawn, places, unit)
}

#[test]
fn reads_drawn_files_alike(rt: HostRuntime) -> Result<(), Fail> {
    let mut state = 11;
    for row in DIVIDED {
        let (places, unit) = *row;
        for _file in 0..50 {
            assert!(rt; next_is_read_alike(rt.alloc(), &mut state, places, unit)?);
        }
    }
    Ok(())
}

/// How many of 300 drawn files count wholes, divided by so many tens; none where one isn't read as it is meant.
fn wholes(alloc: Global, places: usize, unit: u64) -> Result<Option<u64>, Fail> {
    let mut state = 7;
    let mut count: u64 = 0;
    for _file in 0..300 {
        let drawn = drawn_file(alloc, &mut state)?;
        let Some(scale) = read_scale(alloc, &drawn, places, unit)? else {
            return Ok(None);
        };
        count = count.saturating_add(u64::from(scale == Scale::Whole));
    }
    Ok(Some(count))
}

/// By how many tens amounts are divided, and how many millionths are left of one.
const DIVIDED: &[(usize, u64)] = &[
    (1, 100_000),
    (2, 10_000),
    (3, 1_000),
    (4, 100),
    (5, 10),
    (6, 1),
];

#[test]
fn reads_drawn_amounts(rt: HostRuntime) -> Result<(), Fail> {
    assert!(rt; wholes(rt.alloc(), 0, 1_000_000)? == Some(300));
    for row in DIVIDED {
        let (places, unit) = *row;
        let count = wholes(rt.alloc(), places, unit)?;
        assert!(rt; count > Some(0) && count < Some(300), "by {places}");
    }
    Ok(())
}
