ghost use Rattle.std.specs.Prelude.{◌+◌, ◌≤◌};

/// A command, with its words.
#[derive(Clone, Copy, Debug, PartialEq, Eq)]
pub enum Cmd<'a> {
    Solve(SolveWords<'a>),
    Check(CheckWords<'a>),
    Gen(GenWords),
    Trial(TrialWords),
    Few(FewWords<'a>),
    Verify(VerifyWords<'a>),
    Resume(ResumeWords<'a>),
}

/// `solve FILE [--workers W] [--nodes N] [--log NAME] [--plain] [--links]`.
#[derive(Clone, Copy, Debug, PartialEq, Eq)]
pub struct SolveWords<'a> {
    /// The name of the STP file.
    pub file: &'a str,
    /// How many workers search, 1 to 64; 1 where the words don't say.
    pub workers: u32,
    /// How many nodes may be expanded, at most 1,000,000; all of these where the words don't say.
    pub nodes: u64,
    /// The name under which the log is saved, if it is.
    pub log_name: Option<&'a str>,
    /// Whether the graph is left as it is, without reductions.
    pub plain: bool,
    /// Whether nodes may be split at links.
    pub links: bool,
}

/// `check FILE LOG`.
#[derive(Clone, Copy, Debug, PartialEq, Eq)]
pub struct CheckWords<'a> {
    /// The name of the STP file.
    pub file: &'a str,
    /// The name of the log.
    pub log_name: &'a str,
}

/// `SEED N M T`, the numbers that say which instance is drawn.
#[derive(Clone, Copy, Debug, PartialEq, Eq)]
pub struct DrawWords {
    /// What the draws begin with, 1 to 2147483646.
    pub seed: u32,
    /// How many vertices there are, 1 to 1,000,000.
    pub n: u32,
    /// How many links are drawn, n - 1 to 4,000,000.
    pub m: u32,
    /// How many vertices are chosen, 1 to n.
    pub t: u32,
    ghost some_seed: { 1 ≤ seed },
    ghost small_seed: { seed ≤ 2147483646 },
    ghost some_vertex: { 1 ≤ n },
    ghost few_vertices: { n ≤ 1000000 },
    ghost enough_links: { n ≤ m + 1 },
    ghost few_links: { m ≤ 4000000 },
    ghost some_chosen: { 1 ≤ t },
    ghost chosen_are_vertices: { t ≤ n },
}

/// `gen SEED N M T [--prizes]`.
#[derive(Clone, Copy, Debug, PartialEq, Eq)]
pub struct GenWords {
    /// Which instance is drawn.
    pub drawn: DrawWords,
    /// Whether the chosen vertices pay where they are left out, and aren't required.
    pub prizes: bool,
}

/// `trial SEED N M T [--workers W]`.
#[derive(Clone, Copy, Debug, PartialEq, Eq)]
pub struct TrialWords {
    /// Which instance is drawn.
    pub drawn: DrawWords,
    /// How many workers search, 1 to 64; 1 where the words don't say.
    pub workers: u32,
}

/// `few FILE`.
#[derive(Clone, Copy, Debug, PartialEq, Eq)]
pub struct FewWords<'a> {
    /// The name of the STP file.
    pub file: &'a str,
}

/// `verify FILE SOLUTION`.
#[derive(Clone, Copy, Debug, PartialEq, Eq)]
pub struct VerifyWords<'a> {
    /// The name of the STP file.
    pub file: &'a str,
    /// The name of the solution.
    pub solution: &'a str,
}

/// `resume FILE LOG [--workers W] [--nodes N] [--log NAME]`.
#[derive(Clone, Copy, Debug, PartialEq, Eq)]
pub struct ResumeWords<'a> {
    /// The name of the STP file.
    pub file: &'a str,
    /// The name of the log that is gone on from.
    pub log_name: &'a str,
    /// How many workers search, 1 to 64; 1 where the words don't say.
    pub workers: u32,
    /// How many nodes may be expanded, at most 1,000,000; all of these where the words don't say.
    pub nodes: u64,
    /// The name under which the new log is saved, if it is.
    pub save_name: Option<&'a str>,
}
