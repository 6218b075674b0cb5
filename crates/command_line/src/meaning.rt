ghost use Rattle.std.specs.Prelude.{◌≡◌, ◌-◌, ◌^◌, ◌<◌, ◌≤◌, IfSome, option_map, option_copied};
ghost use Rattle.clap.specs.Matches.{found_of};
ghost use Rattle.clap.specs.Walk.{first_of, rows_of};
ghost use Rattle.command_line.specs.Seen.{solve_words, check_words, draw_words, gen_words, trial_words, few_words, verify_words, resume_words};
ghost use Rattle.command_line.specs.Words.{solve_of, check_of, draw_of, gen_of, trial_of, few_of, verify_of, resume_of};
ghost use Rattle.command_line.specs.Words.{name_of, optional_name_of, number_of, needed_number_of, is_set, is_hyphened};

use crate::{
    CheckWords, DrawWords, FewWords, GenWords, ResumeWords, SolveWords, TrialWords, VerifyWords,
};
use clap::ArgMatches;
use plain_text::number;

const MAX_WORKERS: u64 = 64;

const MAX_NODES: u64 = 1_000_000;

const MAX_SEED: u64 = 2_147_483_646;

const MAX_VERTICES: u64 = 1_000_000;

const MAX_LINKS: u64 = 4_000_000;

// Whether a hyphen stands in front.
fn is_hyphened(word: &str) -> bool
    ensures { result ≡ is_hyphened word.now }
{
    word.as_bytes().first() == Some(&b'-')
}

// The name that a word gives.
fn name<'a>(word: Option<&'a str>) -> Option<&'a str>
    ensures { option_copied result ≡ name_of (option_copied word.entry) }
{
    let text = word?;
    if is_hyphened(text) { None } else { Some(text) }
}

// The name that a word gives, which may be missing.
fn optional_name<'a>(word: Option<&'a str>) -> Option<Option<&'a str>>
    ensures { option_map option_copied result ≡ optional_name_of (option_copied word.entry) }
{
    match word {
        None => Some(None),
        Some(text) => {
            if is_hyphened(text) {
                None
            } else {
                Some(Some(text))
            }
        }
    }
}

// The number that a word gives, and `missing` without one.
fn number_or(word: Option<&str>, missing: u64, low: u64, high: u64) -> Option<u64>
    requires { missing ≤ high }
    ensures value { result ≡ number_of missing low high (option_copied word.entry) }
    ensures bounded { IfSome result (λ n. n ≤ high) }
{
    match word {
        None => Some(missing),
        Some(text) => number(text.as_bytes(), low, high),
    }
}

// The number that a word gives, which has to be there.
fn needed_number(word: Option<&str>, low: u64, high: u64) -> Option<u64>
    ensures value { result ≡ needed_number_of low high (option_copied word.entry) }
    ensures in_range { IfSome result (λ n. (low ≤ n) × (n ≤ high)) }
{
    number(word?.as_bytes(), low, high)
}

// Whether a flag was set.
fn is_set(word: Option<&str>) -> bool
    ensures { result ≡ is_set (option_copied word.entry) }
{
    match word {
        None => false,
        Some(text) => text == "true",
    }
}

// The word of an argument.
fn word<'a>(matches: &ArgMatches<'a>, id: &str) -> Option<&'a str>
    ensures { option_copied result ≡ first_of id.now (rows_of (found_of matches.now)) }
{
    matches.get_str(id)
}

// What the words after `solve` mean.
#[tactic(auto, unfolding(crate::specs::Words::solve_of))]
pub fn solve_words<'a>(matches: &ArgMatches<'a>) -> Option<SolveWords<'a>>
    ensures { option_map solve_words result ≡ solve_of (rows_of (found_of matches.now)) }
{
    let file = name(word(matches, "FILE"))?;
    let workers = number_or(word(matches, "workers"), 1, 1, MAX_WORKERS)?;
    let nodes = number_or(word(matches, "nodes"), MAX_NODES, 0, MAX_NODES)?;
    let log_name = optional_name(word(matches, "log"))?;
    Some(SolveWords {
        file,
        workers: workers as u32,
        nodes,
        log_name,
        plain: is_set(word(matches, "plain")),
        links: is_set(word(matches, "links")),
    })
}

// What the words after `check` mean.
#[tactic(auto, unfolding(crate::specs::Words::check_of))]
pub fn check_words<'a>(matches: &ArgMatches<'a>) -> Option<CheckWords<'a>>
    ensures { option_map check_words result ≡ check_of (rows_of (found_of matches.now)) }
{
    let file = name(word(matches, "FILE"))?;
    let log_name = name(word(matches, "LOG"))?;
    Some(CheckWords { file, log_name })
}

// Which instance the words say.
#[tactic(auto, unfolding(crate::specs::Words::draw_of))]
fn draw_words(matches: &ArgMatches<'_>) -> Option<DrawWords>
    ensures { option_map draw_words result ≡ draw_of (rows_of (found_of matches.now)) }
{
    let seed = needed_number(word(matches, "SEED"), 1, MAX_SEED)?;
    let n = needed_number(word(matches, "N"), 1, MAX_VERTICES)?;
    let m = needed_number(word(matches, "M"), n - 1, MAX_LINKS)?;
    let t = needed_number(word(matches, "T"), 1, n)?;
    Some(DrawWords {
        seed: seed as u32,
        n: n as u32,
        m: m as u32,
        t: t as u32,
    })
}

// What the words after `gen` mean.
#[tactic(auto, unfolding(crate::specs::Words::gen_of))]
pub fn gen_words(matches: &ArgMatches<'_>) -> Option<GenWords>
    ensures { option_map gen_words result ≡ gen_of (rows_of (found_of matches.now)) }
{
    let drawn = draw_words(matches)?;
    Some(GenWords {
        drawn,
        prizes: is_set(word(matches, "prizes")),
    })
}

// What the words after `trial` mean.
#[tactic(auto, unfolding(crate::specs::Words::trial_of))]
pub fn trial_words(matches: &ArgMatches<'_>) -> Option<TrialWords>
    ensures { option_map trial_words result ≡ trial_of (rows_of (found_of matches.now)) }
{
    let drawn = draw_words(matches)?;
    let workers = number_or(word(matches, "workers"), 1, 1, MAX_WORKERS)?;
    Some(TrialWords {
        drawn,
        workers: workers as u32,
    })
}

// What the words after `few` mean.
#[tactic(auto, unfolding(crate::specs::Words::few_of))]
pub fn few_words<'a>(matches: &ArgMatches<'a>) -> Option<FewWords<'a>>
    ensures { option_map few_words result ≡ few_of (rows_of (found_of matches.now)) }
{
    let file = name(word(matches, "FILE"))?;
    Some(FewWords { file })
}

// What the words after `verify` mean.
#[tactic(auto, unfolding(crate::specs::Words::verify_of))]
pub fn verify_words<'a>(matches: &ArgMatches<'a>) -> Option<VerifyWords<'a>>
    ensures { option_map verify_words result ≡ verify_of (rows_of (found_of matches.now)) }
{
    let file = name(word(matches, "FILE"))?;
    let solution = name(word(matches, "SOLUTION"))?;
    Some(VerifyWords { file, solution })
}

// What the words after `resume` mean.
#[tactic(auto, unfolding(crate::specs::Words::resume_of))]
pub fn resume_words<'a>(matches: &ArgMatches<'a>) -> Option<ResumeWords<'a>>
    ensures { option_map resume_words result ≡ resume_of (rows_of (found_of matches.now)) }
{
    let file = name(word(matches, "FILE"))?;
    let log_name = name(word(matches, "LOG"))?;
    let workers = number_or(word(matches, "workers"), 1, 1, MAX_WORKERS)?;
    let nodes = number_or(word(matches, "nodes"), MAX_NODES, 0, MAX_NODES)?;
    let save_name = optional_name(word(matches, "log"))?;
    Some(ResumeWords {
        file,
        log_name,
        workers: workers as u32,
        nodes,
        save_name,
    })
}
