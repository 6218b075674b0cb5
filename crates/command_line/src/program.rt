ghost use Rattle.std.specs.Prelude.{◌≡◌, false, IfOk};
ghost use Rattle.clap.specs.Words.{app_of, rule_of, with_rule, with_subcommand};
ghost use Rattle.clap.specs.declared.builder.command.Command.TheViews.{out-Command};
ghost use Rattle.command_line.specs.Words.{program, solve_app, check_app, gen_app, trial_app, few_app, verify_app, resume_app, draw_app, place, option, flag};

use clap::{Arg, ArgAction, Command};
use std::alloc::{AllocError, Global};

// A word that has to stand in its place.
fn place<'a>(alloc: Global, id: &'a str) -> Arg<'a>
    ensures rule { rule_of result ≡ place id.entry.now }
    ensures local { result.global ≡ false }
{
    Arg::new(alloc, id).required(true)
}

// An option with a value after it.
fn option<'a>(alloc: Global, name: &'a str) -> Arg<'a>
    ensures rule { rule_of result ≡ option name.entry.now }
    ensures local { result.global ≡ false }
{
    Arg::new(alloc, name).long(name)
}

// An option with no value.
fn flag<'a>(alloc: Global, name: &'a str) -> Arg<'a>
    ensures rule { rule_of result ≡ flag name.entry.now }
    ensures local { result.global ≡ false }
{
    Arg::new(alloc, name).long(name).action(ArgAction::SetTrue)
}

// The command with one argument more.
fn with<'a>(command: Command<'a>, arg: Arg<'a>) -> Result<Command<'a>, AllocError>
    requires { arg.global ≡ false }
    ensures app { IfOk result (λ c. app_of c ≡ with_rule (app_of command.entry) (rule_of arg.entry)) }
    ensures local { IfOk result (λ c. (out-Command c).has_globals ≡ (out-Command command.entry).has_globals) }
{
    let command = command.arg(arg)?;
    Ok(command)
}

// `solve FILE [--workers W] [--nodes N] [--log NAME] [--plain] [--links]`
fn solve<'a>(alloc: Global) -> Result<Command<'a>, AllocError>
    ensures app { IfOk result (λ c. app_of c ≡ solve_app) }
    ensures local { IfOk result (λ c. (out-Command c).has_globals ≡ false) }
{
    let command = Command::new(alloc, "solve");
    let command = with(command, place(alloc, "FILE"))?;
    let command = with(command, option(alloc, "workers"))?;
    let command = with(command, option(alloc, "nodes"))?;
    let command = with(command, option(alloc, "log"))?;
    let command = with(command, flag(alloc, "plain"))?;
    let command = with(command, flag(alloc, "links"))?;
    Ok(command)
}

// `check FILE LOG`
fn check<'a>(alloc: Global) -> Result<Command<'a>, AllocError>
    ensures app { IfOk result (λ c. app_of c ≡ check_app) }
    ensures local { IfOk result (λ c. (out-Command c).has_globals ≡ false) }
{
    let command = Command::new(alloc, "check");
    let command = with(command, place(alloc, "FILE"))?;
    let command = with(command, place(alloc, "LOG"))?;
    Ok(command)
}

// The command with `SEED N M T` after it
fn draw<'a>(command: Command<'a>, alloc: Global) -> Result<Command<'a>, AllocError>
    ensures app { IfOk result (λ c. app_of c ≡ draw_app (app_of command.entry)) }
    ensures local { IfOk result (λ c. (out-Command c).has_globals ≡ (out-Command command.entry).has_globals) }
{
    let command = with(command, place(alloc, "SEED"))?;
    let command = with(command, place(alloc, "N"))?;
    let command = with(command, place(alloc, "M"))?;
    let command = with(command, place(alloc, "T"))?;
    Ok(command)
}

// `gen SEED N M T [--prizes]`
fn generate<'a>(alloc: Global) -> Result<Command<'a>, AllocError>
    ensures app { IfOk result (λ c. app_of c ≡ gen_app) }
    ensures local { IfOk result (λ c. (out-Command c).has_globals ≡ false) }
{
    let command = draw(Command::new(alloc, "gen"), alloc)?;
    let command = with(command, flag(alloc, "prizes"))?;
    Ok(command)
}

// `trial SEED N M T [--workers W]`
fn trial<'a>(alloc: Global) -> Result<Command<'a>, AllocError>
    ensures app { IfOk result (λ c. app_of c ≡ trial_app) }
    ensures local { IfOk result (λ c. (out-Command c).has_globals ≡ false) }
{
    let command = draw(Command::new(alloc, "trial"), alloc)?;
    let command = with(command, option(alloc, "workers"))?;
    Ok(command)
}

// `few FILE`
fn few<'a>(alloc: Global) -> Result<Command<'a>, AllocError>
    ensures app { IfOk result (λ c. app_of c ≡ few_app) }
    ensures local { IfOk result (λ c. (out-Command c).has_globals ≡ false) }
{
    let command = Command::new(alloc, "few");
    let command = with(command, place(alloc, "FILE"))?;
    Ok(command)
}

// `verify FILE SOLUTION`
fn verify<'a>(alloc: Global) -> Result<Command<'a>, AllocError>
    ensures app { IfOk result (λ c. app_of c ≡ verify_app) }
    ensures local { IfOk result (λ c. (out-Command c).has_globals ≡ false) }
{
    let command = Command::new(alloc, "verify");
    let command = with(command, place(alloc, "FILE"))?;
    let command = with(command, place(alloc, "SOLUTION"))?;
    Ok(command)
}

// `resume FILE LOG [--workers W] [--nodes N] [--log NAME]`
fn resume<'a>(alloc: Global) -> Result<Command<'a>, AllocError>
    ensures app { IfOk result (λ c. app_of c ≡ resume_app) }
    ensures local { IfOk result (λ c. (out-Command c).has_globals ≡ false) }
{
    let command = Command::new(alloc, "resume");
    let command = with(command, place(alloc, "FILE"))?;
    let command = with(command, place(alloc, "LOG"))?;
    let command = with(command, option(alloc, "workers"))?;
    let command = with(command, option(alloc, "nodes"))?;
    let command = with(command, option(alloc, "log"))?;
    Ok(command)
}

// The command with one subcommand more.
fn with_command<'a>(command: Command<'a>, inner: Command<'a>) -> Result<Command<'a>, AllocError>
    requires { (out-Command inner).has_globals ≡ false }
    ensures { IfOk result (λ c. app_of c ≡ with_subcommand (app_of command.entry) (app_of inner.entry).top) }
{
    let command = command.subcommand(inner)?;
    Ok(command)
}

// All that may stand after the program's name.
pub fn program<'a>(alloc: Global) -> Result<Command<'a>, AllocError>
    ensures app { IfOk result (λ c. app_of c ≡ program) }
{
    let command = Command::new(alloc, "steiner").no_binary_name(true);
    let command = with_command(command, solve(alloc)?)?;
    let command = with_command(command, check(alloc)?)?;
    let command = with_command(command, generate(alloc)?)?;
    let command = with_command(command, trial(alloc)?)?;
    let command = with_command(command, few(alloc)?)?;
    let command = with_command(command, verify(alloc)?)?;
    let command = with_command(command, resume(alloc)?)?;
    Ok(command)
}
