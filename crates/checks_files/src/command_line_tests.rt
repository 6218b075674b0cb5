use command_line::{
    CheckWords, Cmd, DrawWords, FewWords, SolveWords, VerifyWords, WordFault, read_words,
};
use std::alloc::{AllocError, Global};
use std::test::Fail;

// The words of a line, which stand apart by single spaces.
fn words_of(alloc: Global, line: &str) -> Result<Vec<String>, AllocError> {
    let mut words = Vec::new(alloc);
    for word in line.split(' ') {
        words.push(String::from_str(alloc, word)?)?;
    }
    Ok(words)
}

fn is_usage(alloc: Global, line: &str) -> Result<bool, AllocError> {
    let words = words_of(alloc, line)?;
    Ok(read_words(alloc, &words) == Err(WordFault::Usage))
}

fn means(alloc: Global, line: &str, expected: Cmd<'_>) -> Result<bool, AllocError> {
    let words = words_of(alloc, line)?;
    Ok(read_words(alloc, &words) == Ok(expected))
}

const PLAIN: SolveWords<'static> = SolveWords {
    file: "a.stp",
    workers: 1,
    nodes: 1_000_000,
    log_name: None,
    plain: false,
    links: false,
};

// Lines that mean to solve a file.
const SOLVED: [(&str, SolveWords<'static>); 8] = [
    ("solve a.stp", PLAIN),
    (
        "solve --workers 64 a.stp",
        SolveWords {
            workers: 64,
            ..PLAIN
        },
    ),
    ("solve a.stp --nodes 0", SolveWords { nodes: 0, ..PLAIN }),
    ("solve a.stp --nodes=17", SolveWords { nodes: 17, ..PLAIN }),
    (
        "solve a.stp --log a.log",
        SolveWords {
            log_name: Some("a.log"),
            ..PLAIN
        },
    ),
    (
        "solve --plain a.stp",
        SolveWords {
            plain: true,
            ..PLAIN
        },
    ),
    (
        "solve a.stp --links",
        SolveWords {
            links: true,
            ..PLAIN
        },
    ),
    (
        "solve --links --plain a.stp --nodes 3",
        SolveWords {
            nodes: 3,
            plain: true,
            links: true,
            ..PLAIN
        },
    ),
];

// The numbers that say which instance is drawn, in the order of the words.
fn numbers_of(drawn: &DrawWords) -> [u32; 4] {
    [drawn.seed, drawn.n, drawn.m, drawn.t]
}

// Lines that mean to draw an instance, with the numbers that say which, and whether there are prizes.
const DRAWN: [(&str, [u32; 4], bool); 6] = [
    ("gen 1 3 3 2", [1, 3, 3, 2], false),
    ("gen 1 3 3 2 --prizes", [1, 3, 3, 2], true),
    ("gen --prizes 1 3 2 3", [1, 3, 2, 3], true),
    ("gen 1 1 0 1", [1, 1, 0, 1], false),
    ("gen 1 1000000 999999 1", [1, 1_000_000, 999_999, 1], false),
    (
        "gen 2147483646 1000000 4000000 1000000",
        [2_147_483_646, 1_000_000, 4_000_000, 1_000_000],
        false,
    ),
];

// Lines that mean to draw an instance and to solve it, with the numbers that say which, and how many workers search.
const TRIED: [(&str, [u32; 4], u32); 4] = [
    ("trial 1 3 3 2", [1, 3, 3, 2], 1),
    ("trial 1 3 3 2 --workers 8", [1, 3, 3, 2], 8),
    ("trial --workers=64 20 300 600 12", [20, 300, 600, 12], 64),
    (
        "trial 2147483646 1000000 4000000 1000000",
        [2_147_483_646, 1_000_000, 4_000_000, 1_000_000],
        1,
    ),
];

// Lines that mean no command.
const REFUSED: [&str; 54] = [
    "",
    "solve",
    "solve a.stp b.stp",
    "solve a.stp --workers 65",
    "solve a.stp --workers 0",
    "solve a.stp --workers 01",
    "solve a.stp --workers +1",
    "solve a.stp --nodes 1000001",
    "solve a.stp --nodes -1",
    "solve a.stp --nodes",
    "solve a.stp --plain --plain",
    "solve a.stp --links --links",
    "solve a.stp --links=1",
    "solve a.stp --links 1",
    "solve a.stp --nodes 1 --nodes 1",
    "solve -a.stp",
    "solve -- -a.stp",
    "solve a.stp --log=-b",
    "solve --help",
    "help",
    "--version",
    "check a.stp",
    "gen",
    "gen 1 3 3",
    "gen 1 3 3 2 2",
    "gen 0 3 3 2",
    "gen 2147483647 3 3 2",
    "gen 01 3 3 2",
    "gen 1 0 0 0",
    "gen 1 1000001 1000001 2",
    "gen 1 3 1 2",
    "gen 1 1000000 999998 1",
    "gen 1 3 4000001 2",
    "gen 1 3 3 0",
    "gen 1 3 3 4",
    "gen 1 3 3 2 --prizes --prizes",
    "gen 1 3 3 2 --workers 2",
    "gen 1 3 3 2 --links",
    "trial 1 3 3",
    "trial 1 3 1 2",
    "trial 1 3 3 4",
    "trial 1 3 3 2 --prizes",
    "trial 1 3 3 2 --links",
    "trial 1 3 3 2 --workers 0",
    "trial 1 3 3 2 --workers 65",
    "trial 1 3 3 2 --workers 2 --workers 2",
    "few",
    "few a.stp b.stp",
    "few a.stp --nodes 1",
    "few a.stp --links",
    "few -a.stp",
    "verify a.stp",
    "verify a.stp b.sol c.sol",
    "verify a.stp -b.sol",
];

#[test]
fn reads_what_is_to_be_solved(rt: HostRuntime) -> Result<(), Fail> {
    for (line, expected) in &SOLVED {
        assert!(rt; means(rt.alloc(), line, Cmd::Solve(*expected))?);
    }
    Ok(())
}

#[test]
fn reads_what_is_to_be_checked(rt: HostRuntime) -> Result<(), Fail> {
    let expected = CheckWords {
        file: "a.stp",
        log_name: "a.log",
    };
    assert!(rt; means(rt.alloc(), "check a.stp a.log", Cmd::Check(expected))?);
    Ok(())
}

#[test]
fn reads_whose_best_tree_is_wanted(rt: HostRuntime) -> Result<(), Fail> {
    let expected = FewWords { file: "a.stp" };
    assert!(rt; means(rt.alloc(), "few a.stp", Cmd::Few(expected))?);
    Ok(())
}

#[test]
fn reads_what_is_to_be_verified(rt: HostRuntime) -> Result<(), Fail> {
    let expected = VerifyWords {
        file: "a.stp",
        solution: "a.sol",
    };
    assert!(rt; means(rt.alloc(), "verify a.stp a.sol", Cmd::Verify(expected))?);
    Ok(())
}

fn is_drawn(
    alloc: Global,
    line: &str,
    numbers: &[u32; 4],
    prizes: bool,
) -> Result<bool, AllocError> {
    let words = words_of(alloc, line)?;
    match read_words(alloc, &words) {
        Ok(Cmd::Gen(found)) => Ok(numbers_of(&found.drawn) == *numbers && found.prizes == prizes),
        _ => Ok(false),
    }
}

#[test]
fn reads_what_is_to_be_drawn(rt: HostRuntime) -> Result<(), Fail> {
    for (line, numbers, prizes) in &DRAWN {
        assert!(rt; is_drawn(rt.alloc(), line, numbers, *prizes)?, "{line}");
    }
    Ok(())
}

fn is_tried(
    alloc: Global,
    line: &str,
    numbers: &[u32; 4],
    workers: u32,
) -> Result<bool, AllocError> {
    let words = words_of(alloc, line)?;
    match read_words(alloc, &words) {
        Ok(Cmd::Trial(found)) => Ok(
            numbers_of(&found.drawn) == *numbers && found.workers == workers,
        ),
        _ => Ok(false),
    }
}

#[test]
fn reads_what_is_to_be_tried(rt: HostRuntime) -> Result<(), Fail> {
    for (line, numbers, workers) in &TRIED {
        assert!(rt; is_tried(rt.alloc(), line, numbers, *workers)?, "{line}");
    }
    Ok(())
}

#[test]
fn refuses_what_is_no_command(rt: HostRuntime) -> Result<(), Fail> {
    for line in &REFUSED {
        assert!(rt; is_usage(rt.alloc(), line)?);
    }
    Ok(())
}
