use super::checks::is_accepted;
use super::solves::comes_to;
use super::{APART, PRIZES, TRIANGLE, WHEEL, ends, shelf_of, solved};
use instance_gen::generate;
use lift_back::Step;
use reductions::reduce;
use std::alloc::{AllocError, Global};
use std::sync::Wait;
use std::test::Fail;
use std::thread::Threads;
use steiner_top::{OpenGate, Status};

/// A path of three vertices that pay nothing.
const IDLE: &str =
    "H / SECTION Graph / Nodes 3 / Edges 2 / E 1 2 1 / E 2 3 1 / END / SECTION Terminals / Terminals 1 / TP 2 0 / END / EOF";

/// A required vertex alone.
const ALONE: &str =
    "H / SECTION Graph / Nodes 1 / Edges 0 / END / SECTION Terminals / Terminals 1 / T 1 / END / EOF";

/// Whether a file has a tree, and so many steps are taken of it.
fn takes_steps<R: Threads + Wait + Sync>(
    rt: &R,
    alloc: Global,
    lines: &str,
    plain: bool,
    count: usize,
) -> Result<bool, AllocError> {
    match solved(rt, alloc, lines, 16, plain, &OpenGate)? {
        Some(found) => Ok(found.steps == count),
        None => Ok(false),
    }
}

/// Files, and how many steps are taken of them.
const STEPS: &[(&str, usize)] = &[
    (TRIANGLE, 6),
    (WHEEL, 0),
    (PRIZES, 0),
    (IDLE, 2),
    (ALONE, 0),
];

/// Plain solving takes no step. Of the triangle, whose sides are no cheaper than the spokes, and of the
/// path a single vertex is left; of the wheel and of prizes that are linked nothing goes.
#[test]
fn takes_steps_unless_it_is_plain(rt: HostRuntime) -> Result<(), Fail> {
    for (lines, count) in STEPS {
        assert!(rt;
            takes_steps(&rt, rt.alloc(), lines, true, 0)?,
            "for {lines}"
        );
        assert!(rt;
            takes_steps(&rt, rt.alloc(), lines, false, *count)?,
            "for {lines}"
        );
    }
    Ok(())
}

/// Where a single vertex is left, what was paid is the cost, with no node at all.
#[test]
fn needs_no_node_where_all_is_gone(rt: HostRuntime) -> Result<(), Fail> {
    for (lines, cost) in [(TRIANGLE, 6), (IDLE, 0), (ALONE, 0)] {
        assert!(rt;
            comes_to(&rt, rt.alloc(), lines, 0, false, (cost, cost))?,
            "for {lines}"
        );
    }
    Ok(())
}

/// Files, and how their logs are answered, whether they were to be plain or not.
const CHECKED: &[(&str, &str)] = &[
    (TRIANGLE, "optimal 6\n"),
    (WHEEL, "optimal 10\n"),
    (PRIZES, "optimal 3\n"),
    (IDLE, "optimal 0\n"),
    (ALONE, "optimal 0\n"),
];

#[test]
fn accepts_logs_with_steps_and_without(rt: HostRuntime) -> Result<(), Fail> {
    for (lines, line) in CHECKED {
        for words in ["solve a.stp --log b", "solve a.stp --log b --plain"] {
            let want = (Status::Optimal, 0, *line);
            assert!(rt;
                is_accepted(&rt, rt.alloc(), words, lines, want)?,
                "for {lines}"
            );
        }
    }
    Ok(())
}

/// Whether these words and the check of the log that they save find no tree.
fn finds_no_tree<R: Threads + Wait + Sync>(
    rt: &R,
    alloc: Global,
    words: &str,
) -> Result<bool, AllocError> {
    let mut shelf = shelf_of(alloc, APART, &[])?;
    let solved = (Status::Infeasible, 4, "infeasible\n");
    let checked = (Status::Infeasible, 4, "no tree\n");
    Ok(
        ends(rt, alloc, words, &mut shelf, solved)?
            && ends(rt, alloc, "check a.stp b", &mut shelf, checked)?,
    )
}

/// A file without a tree is answered by a wall of its own instance.
#[test]
fn reduces_nothing_without_a_tree(rt: HostRuntime) -> Result<(), Fail> {
    for words in ["solve a.stp --log b", "solve a.stp --log b --plain"] {
        assert!(rt; finds_no_tree(&rt, rt.alloc(), words)?, "after {words}");
    }
    Ok(())
}

/// How many detours are taken of a drawn instance with many links; None where it hasn't so many.
fn detours_of_many(alloc: Global) -> Result<Option<usize>, AllocError> {
    let instance = generate(alloc, 1, 120, 8_000, 10, false)?;
    if instance.links().len() <= 4096 {
        return Ok(None);
    }
    let (steps, _) = reduce(alloc, &instance)?;
    Ok(Some(count_detours(&steps)))
}

/// How many of the steps are detours.
fn count_detours(steps: &[Step]) -> usize {
    steps
        .iter()
        .filter(|step| matches!(step, Step::Detour { .. }))
        .count()
}

/// Where there are too many links for all detours to be found, most still are.
#[test]
fn takes_detours_of_many_links(rt: HostRuntime) -> Result<(), Fail> {
    let count = detours_of_many(rt.alloc())?.ok_or("few links")?;
    assert!(rt; count > 4_000, "detours: {count}");
    Ok(())
}
