ghost use Rattle.std.specs.Prelude.{◌≡◌, ◌≢◌, true, false, None, Some, IfOk, IsErrOf, map, string_bytes, option_map, option_and_then};
ghost use Rattle.clap.specs.Faults.{fault_of};
ghost use Rattle.clap.specs.Values.{kind_of};
ghost use Rattle.clap.specs.Walk.{is_empty};
ghost use Rattle.clap.specs.Simple.{subcommand_of, subcommand_rows_of};
ghost use Rattle.command_line.specs.Seen.{command};
ghost use Rattle.command_line.specs.Words.{program, command_of, meant};

use crate::Cmd;
use crate::meaning::{
    check_words, few_words, gen_words, resume_words, solve_words, trial_words, verify_words,
};
use crate::program::program;
use clap::error::ErrorKind;
use clap::{ArgMatches, Error};
use std::alloc::{AllocError, Global};

/// Why words are no command.
#[derive(Clone, Copy, Debug, PartialEq, Eq)]
pub enum WordFault {
    /// The words mean no command.
    Usage,
    /// Memory ran out.
    NoMemory,
}

impl From<AllocError> for WordFault {
    ghost use Rattle.command_line.specs.declared.parse.WordFault.TheVariants.{NoMemory};

    ghost from_gives = { λ _ fault. fault ≡ NoMemory };

    fn from(_: AllocError) -> Self {
        WordFault::NoMemory
    }
}

/// The command that the words after the program's name mean.
pub fn read_words<'a>(alloc: Global, words: &'a [String]) -> Result<Cmd<'a>, WordFault>
    ensures found { IfOk result (λ cmd. command_of (map string_bytes words.now) ≡ Some (command cmd)) }
    ensures usage { IsErrOf result WordFault.Usage → command_of (map string_bytes words.now) ≡ None }
{
    match matches(alloc, words) {
        Ok(matches) => meant(&matches).ok_or(WordFault::Usage),
        Err(fault) => Err(fault),
    }
}

// What clap finds in the words, where it takes them.
fn matches<'a>(alloc: Global, words: &'a [String]) -> Result<ArgMatches<'a>, WordFault>
    ensures taken { IfOk result (λ m. is_empty (fault_of program (map string_bytes words.now)) ≡ true) }
    ensures rows { IfOk result (λ m. subcommand_rows_of m ≡ subcommand_of program (map string_bytes words.now)) }
    ensures refused { IsErrOf result WordFault.Usage
        → is_empty (fault_of program (map string_bytes words.now)) ≡ false }
{
    let command = program(alloc)?;
    match command.try_get_matches_from(words) {
        Ok(matches) => Ok(matches),
        Err(error) => Err(fault(&error)),
    }
}

// Any error of clap's but want of memory is a refusal.
fn fault(error: &Error) -> WordFault
    ensures { result ≡ WordFault.Usage → kind_of error.now ≢ ErrorKind.OutOfMemory }
{
    match error.kind() {
        ErrorKind::OutOfMemory => WordFault::NoMemory,
        _ => WordFault::Usage,
    }
}

// The command that clap's matches mean.
fn meant<'a>(matches: &ArgMatches<'a>) -> Option<Cmd<'a>>
    ensures { option_map command result ≡ option_and_then meant (subcommand_rows_of matches.now) }
{
    let (name, inner) = matches.subcommand()?;
    match name {
        "solve" => Some(Cmd::Solve(solve_words(inner)?)),
        "check" => Some(Cmd::Check(check_words(inner)?)),
        "gen" => Some(Cmd::Gen(gen_words(inner)?)),
        "trial" => Some(Cmd::Trial(trial_words(inner)?)),
        "few" => Some(Cmd::Few(few_words(inner)?)),
        "verify" => Some(Cmd::Verify(verify_words(inner)?)),
        "resume" => Some(Cmd::Resume(resume_words(inner)?)),
        _ => None,
    }
}
