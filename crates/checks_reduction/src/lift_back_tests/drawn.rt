ghost use Rattle.std.specs.Prelude.{◌≤◌, IfOk, ◌≡◌};
ghost use Rattle.st_model.specs.Network.{IsVertex, prize};

use super::judging::lifted_cost;
use super::plain::may_take;
use lift_back::{Reduced, Step};
use st_model::{Instance, Link, Listed, Need, Tree};
use std::alloc::{AllocError, Global};
use std::test::Fail;
use test_instances::Draws;

// One of the vertices 1 to 7.
fn drawn_vertex(draws: &mut Draws) -> u32
    ensures { IsVertex 7 result }
{
    draws.below(7) as u32 + 1
}

// A link of cost 0 to 4 between any two vertices, or none where they are the same.
fn drawn_link(draws: &mut Draws) -> Link
    ensures ends { IsVertex 7 result.a × IsVertex 7 result.b }
    ensures cost { result.cost ≤ 4 }
{
    Link {
        a: drawn_vertex(draws),
        b: drawn_vertex(draws),
        cost: draws.below(5),
    }
}

// Required or with a prize in two of five cases, else nothing.
fn drawn_need(draws: &mut Draws) -> Need
    ensures { prize result ≤ 4 }
{
    match draws.below(5) {
        0 => Need::Required,
        1 => Need::Pays(draws.below(5)),
        _ => Need::Pays(0),
    }
}

// Seven vertices with up to ten links, some of which are parallel.
fn drawn_instance(alloc: Global, draws: &mut Draws) -> Result<Instance, AllocError> {
    let links = [
        drawn_link(draws),
        drawn_link(draws),
        drawn_link(draws),
        drawn_link(draws),
        drawn_link(draws),
        drawn_link(draws),
        drawn_link(draws),
        drawn_link(draws),
        drawn_link(draws),
        drawn_link(draws),
    ];
    let needs = [
        (1, drawn_need(draws)),
        (2, drawn_need(draws)),
        (3, drawn_need(draws)),
        (4, drawn_need(draws)),
        (5, drawn_need(draws)),
        (6, drawn_need(draws)),
        (7, drawn_need(draws)),
    ];
    Instance::build(alloc, 7, &links, &needs)
}

// A number that is mostly that of a vertex.
fn drawn_number(draws: &mut Draws) -> u32 {
    draws.below(9) as u32
}

// A detour over one vertex or two.
fn drawn_detour(alloc: Global, draws: &mut Draws) -> Result<Step, AllocError> {
    let a = drawn_number(draws);
    let b = drawn_number(draws);
    let inner = [drawn_number(draws), drawn_number(draws)];
    let count = draws.below(2) as usize + 1;
    Ok(Step::Detour {
        a,
        b,
        inner: Listed::of(Vec::from_slice(alloc, &inner[..count])?),
    })
}

// Any step, which may seldom be taken.
fn drawn_step(alloc: Global, draws: &mut Draws) -> Result<Step, AllocError> {
    match draws.below(12) {
        0 => Ok(Step::Pendant(drawn_number(draws))),
        1 => Ok(Step::Through(drawn_number(draws))),
        2 => Ok(Step::Forced(drawn_number(draws))),
        _ => drawn_detour(alloc, draws),
    }
}

fn bit(number: u32) -> u32 {
    1u32.wrapping_shl(number)
}

// Some vertices as bits, and the arcs that reach them.
#[derive(Drop)]
struct Grown {
    reached: u32,
    arcs: Vec<(u32, u32)>,
}

impl Grown {
    fn is_reached(&self, vertex: u32) -> bool {
        self.reached & bit(vertex) != 0
    }

    fn push(&mut self, tail: u32, head: u32) -> Result<(), AllocError> {
        self.reached = self.reached | bit(head);
        self.arcs.push((tail, head))?;
        Ok(())
    }

    // Takes a link that leads on.
    fn take(&mut self, link: &Link) -> Result<(), AllocError> {
        match (self.is_reached(link.a), self.is_reached(link.b)) {
            (true, false) => self.push(link.a, link.b),
            (false, true) => self.push(link.b, link.a),
            _ => Ok(()),
        }
    }

    // Takes those links of a set, given as bits, that lead on.
    fn take_all(&mut self, links: &[Link], set: u32) -> Result<(), AllocError> {
        let mut place = 1u32;
        for link in links {
            if set & place != 0 {
                self.take(link)?;
            }
            place = place.wrapping_shl(1);
        }
        Ok(())
    }
}

// The tree from a start that has all links of a set, if there is one: at most six, each of which
// leads on once those before it do.
fn tree_of(
    alloc: Global,
    links: &[Link],
    set: u32,
    start: u32,
) -> Result<Option<Tree>, AllocError> {
    let mut grown = Grown {
        reached: bit(start),
        arcs: Vec::new(alloc),
    };
    for _turn in 0..6 {
        grown.take_all(links, set)?;
    }
    if grown.arcs.len() != set.count_ones() as usize {
        return Ok(None);
    }
    Ok(Some(Tree {
        start,
        arcs: Listed::of(grown.arcs),
    }))
}

fn least_of(one: Option<u64>, other: Option<u64>) -> Option<u64> {
    match (one, other) {
        (Some(a), Some(b)) => Some(a.min(b)),
        (Some(a), None) => Some(a),
        (None, rest) => rest,
    }
}

// The least that a tree costs to which one of these links from a start leads back.
fn least_over(
    alloc: Global,
    reduced: &Reduced,
    first: &Instance,
    links: &[Link],
    start: u32,
) -> Result<Option<u64>, Fail> {
    let mut least = None;
    for set in 0..1024 {
        if let Some(tree) = tree_of(alloc, links, set, start)? {
            least = least_of(least, lifted_cost(alloc, reduced, first, &tree)?);
        }
    }
    Ok(least)
}

// The same of all links that are left.
fn least_from(
    alloc: Global,
    reduced: &Reduced,
    first: &Instance,
    start: u32,
) -> Result<Option<u64>, Fail> {
    let left = reduced.instance(alloc)?;
    least_over(alloc, reduced, first, left.links(), start)
}

// The same from any start.
fn least_cost(alloc: Global, reduced: &Reduced, first: &Instance) -> Result<Option<u64>, Fail> {
    let mut least = None;
    for start in [1, 2, 3, 4, 5, 6, 7] {
        least = least_of(least, least_from(alloc, reduced, first, start)?);
    }
    Ok(least)
}

// Whether a step may be taken, by the plain program.
fn is_wanted(alloc: Global, reduced: &Reduced, step: &Step) -> Result<bool, AllocError> {
    let left = reduced.instance(alloc)?;
    let gone = reduced.gone(alloc)?;
    Ok(may_take(&left, &gone, step))
}

// Takes a step where it may be taken, and answers whether it was. Err comes where a plain program
// says otherwise, or where the least cost is another then.
fn is_taken(
    alloc: Global,
    reduced: &mut Reduced,
    first: &Instance,
    step: &Step,
    least: Option<u64>,
) -> Result<bool, Fail> {
    let wanted = is_wanted(alloc, reduced, step)?;
    let taken = reduced.apply(step).is_ok();
    if taken != wanted {
        return Err(Fail::new("another answer than the plain program's"));
    }
    if taken && least_cost(alloc, reduced, first)? != least {
        return Err(Fail::new("another least cost"));
    }
    Ok(taken)
}

// How many drawn steps are taken of an instance of which nothing is gone.
fn steps_from(
    alloc: Global,
    reduced: &mut Reduced,
    first: &Instance,
    draws: &mut Draws,
) -> Result<u32, Fail> {
    let least = least_cost(alloc, reduced, first)?;
    let mut taken: u32 = 0;
    for _turn in 0..400 {
        let step = drawn_step(alloc, draws)?;
        let more = is_taken(alloc, reduced, first, &step, least)?;
        taken = taken.saturating_add(u32::from(more));
    }
    Ok(taken)
}

// The same of a drawn instance.
fn steps_taken(alloc: Global, seed: u64) -> Result<u32, Fail> {
    let mut draws = Draws { state: seed };
    let first = drawn_instance(alloc, &mut draws)?;
    let mut reduced = Reduced::of(alloc, &first)?;
    steps_from(alloc, &mut reduced, &first, &mut draws)
}

#[test]
fn keeps_the_least_cost(rt: HostRuntime) -> Result<(), Fail> {
    for seed in 1..13u64 {
        let taken = steps_taken(rt.alloc(), seed)?;
        assert!(rt; taken > 0, "with seed {seed}");
    }
    Ok(())
}
