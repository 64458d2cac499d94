//! The table of commands and options, as `clap` takes it.

ghost use Rattle.std.specs.Prelude.{◌≡◌, [], false, IfOk};
ghost use Rattle.clap.specs.Words.{App, Rule, app_of, rule_of, with_rule, with_subcommand};
ghost use Rattle.clap.specs.declared.Command.TheViews.{out-Command};
ghost use Rattle.command_words.specs.Grammar.{bare_program, bound_option, cells_place, cert_flag, check_row, command_app, conflicts_option, counter_option, flag_rule, flat_row, frames_option, number_rule, option_rule, place_rule, program, recheck_row, ring_row, seed_place, together_flag, upgrade_flag, workers_option};

use clap::builder::ValueParser;
use clap::{Arg, ArgAction, Command};
use std::alloc::{AllocError, Global};

/// The word of the command that decides specifications.
pub const CHECK: &str = "check";

/// The word of the command that judges a report again.
pub const RECHECK: &str = "recheck";

/// The word of the command that lists slots and items.
pub const FLAT: &str = "flat";

/// The word of the command that makes a ring and decides its specifications.
pub const RING: &str = "self";

/// What the number of cells is called.
pub const CELLS: &str = "N";

/// What the number is called that picks the cell that begins with the token.
pub const SEED: &str = "SEED";

/// The word of the option that says how many workers explore frames together.
pub const WORKERS: &str = "workers";

/// The word of the option that says how many tickets a specification may cost.
pub const CONFLICTS: &str = "conflicts";

/// The word of the option that says how many steps lassos have at most.
pub const BOUND: &str = "bound";

/// The word of the option that says up to which level frames are looked at.
pub const FRAMES: &str = "frames";

/// The word of the option that says up to which number of signals formulas are proved.
pub const COUNTER: &str = "counter";

/// The word of the flag that has all invariants decided over one pool of lemmas.
pub const TOGETHER: &str = "together";

/// The word of the flag that has the certificate of what is true printed.
pub const CERT: &str = "cert";

/// The word of the flag that has certificates made anew in the form that is judged by hints.
pub const UPGRADE: &str = "upgrade";

// An option that takes a number from `least` to `greatest`.
fn number_option<'a>(
    alloc: Global,
    word: &'a str,
    least: u64,
    greatest: u64,
    default: &'a str,
) -> Arg<'a>
    ensures rule { rule_of result ≡ number_rule word.now least greatest default.now }
    ensures local { result.global ≡ false }
{
    Arg::new(alloc, word)
        .long(word)
        .value_parser(ValueParser::unsigned(least, greatest))
        .default_value(default)
}

fn workers_option<'a>(alloc: Global) -> Arg<'a>
    ensures rule { rule_of result ≡ option_rule workers_option }
    ensures local { result.global ≡ false }
{
    number_option(alloc, WORKERS, 1, 64, "1")
}

fn conflicts_option<'a>(alloc: Global) -> Arg<'a>
    ensures rule { rule_of result ≡ option_rule conflicts_option }
    ensures local { result.global ≡ false }
{
    number_option(alloc, CONFLICTS, 0, 1_099_511_627_776, "1000000")
}

fn bound_option<'a>(alloc: Global) -> Arg<'a>
    ensures rule { rule_of result ≡ option_rule bound_option }
    ensures local { result.global ≡ false }
{
    number_option(alloc, BOUND, 0, 10_000, "30")
}

fn frames_option<'a>(alloc: Global) -> Arg<'a>
    ensures rule { rule_of result ≡ option_rule frames_option }
    ensures local { result.global ≡ false }
{
    number_option(alloc, FRAMES, 0, 100_000, "1000")
}

fn counter_option<'a>(alloc: Global) -> Arg<'a>
    ensures rule { rule_of result ≡ option_rule counter_option }
    ensures local { result.global ≡ false }
{
    number_option(alloc, COUNTER, 0, 64, "16")
}

// The number of cells, in its place.
fn cells_place<'a>(alloc: Global) -> Arg<'a>
    ensures rule { rule_of result ≡ place_rule cells_place }
    ensures local { result.global ≡ false }
{
    Arg::new(alloc, CELLS)
        .value_parser(ValueParser::unsigned(2, 12))
        .required(true)
}

// The seed, in its place.
fn seed_place<'a>(alloc: Global) -> Arg<'a>
    ensures rule { rule_of result ≡ place_rule seed_place }
    ensures local { result.global ≡ false }
{
    Arg::new(alloc, SEED)
        .value_parser(ValueParser::unsigned(0, 4_294_967_295))
        .required(true)
}

// A word that is there or is not.
fn flag<'a>(alloc: Global, word: &'a str) -> Arg<'a>
    ensures rule { rule_of result ≡ flag_rule word.now }
    ensures local { result.global ≡ false }
{
    Arg::new(alloc, word).long(word).action(ArgAction::SetTrue)
}

// The command with one more option, flag or number in its place.
fn with_arg<'a>(
    command: Result<Command<'a>, AllocError>,
    arg: Arg<'a>,
) -> Result<Command<'a>, AllocError>
    requires { arg.global ≡ false }
    ensures app { (app : App) (rule : Rule) → IfOk command.entry (λ c. app_of c ≡ app) → rule_of arg.entry ≡ rule → IfOk result (λ c. app_of c ≡ with_rule app rule) }
    ensures local { IfOk command.entry (λ c. (out-Command c).has_globals ≡ false) → IfOk result (λ c. (out-Command c).has_globals ≡ false) }
{
    match command {
        Ok(command) => command.arg(arg),
        Err(error) => {
            drop(arg);
            Err(error)
        }
    }
}

// The command `check` with its options alone.
fn check_options<'a>(alloc: Global) -> Result<Command<'a>, AllocError>
    ensures app { IfOk result (λ c. app_of c ≡ command_app (record check_row { flags = [] })) }
    ensures local { IfOk result (λ c. (out-Command c).has_globals ≡ false) }
{
    let command = with_arg(Ok(Command::new(alloc, CHECK)), workers_option(alloc));
    let command = with_arg(command, conflicts_option(alloc));
    let command = with_arg(command, bound_option(alloc));
    let command = with_arg(command, frames_option(alloc));
    with_arg(command, counter_option(alloc))
}

fn check_command<'a>(alloc: Global) -> Result<Command<'a>, AllocError>
    ensures app { IfOk result (λ c. app_of c ≡ command_app check_row) }
    ensures local { IfOk result (λ c. (out-Command c).has_globals ≡ false) }
{
    let command = with_arg(check_options(alloc), flag(alloc, TOGETHER));
    with_arg(command, flag(alloc, CERT))
}

fn recheck_command<'a>(alloc: Global) -> Result<Command<'a>, AllocError>
    ensures app { IfOk result (λ c. app_of c ≡ command_app recheck_row) }
    ensures local { IfOk result (λ c. (out-Command c).has_globals ≡ false) }
{
    with_arg(Ok(Command::new(alloc, RECHECK)), flag(alloc, UPGRADE))
}

fn flat_command<'a>(alloc: Global) -> Command<'a>
    ensures app { app_of result ≡ command_app flat_row }
    ensures local { (out-Command result).has_globals ≡ false }
{
    Command::new(alloc, FLAT)
}

fn ring_command<'a>(alloc: Global) -> Result<Command<'a>, AllocError>
    ensures app { IfOk result (λ c. app_of c ≡ command_app ring_row) }
    ensures local { IfOk result (λ c. (out-Command c).has_globals ≡ false) }
{
    let command = with_arg(Ok(Command::new(alloc, RING)), cells_place(alloc));
    let command = with_arg(command, seed_place(alloc));
    with_arg(command, workers_option(alloc))
}

// The program without its commands: it wants one, and has no help of its own.
fn bare_program<'a>(alloc: Global) -> Command<'a>
    ensures app { app_of result ≡ bare_program }
    ensures local { (out-Command result).has_globals ≡ false }
{
    Command::new(alloc, "smvcheck")
        .no_binary_name(true)
        .subcommand_required(true)
        .disable_help_flag(true)
        .disable_help_subcommand(true)
}

// The program with one more command.
fn with_command<'a>(
    program: Result<Command<'a>, AllocError>,
    command: Result<Command<'a>, AllocError>,
) -> Result<Command<'a>, AllocError>
    requires { IfOk command (λ c. (out-Command c).has_globals ≡ false) }
    ensures { (app sub : App) → IfOk program.entry (λ p. app_of p ≡ app) → IfOk command.entry (λ c. app_of c ≡ sub) → IfOk result (λ p. app_of p ≡ with_subcommand app sub.top) }
{
    match (program, command) {
        (Ok(program), Ok(command)) => program.subcommand(command),
        (Err(error), command) => {
            drop(command);
            Err(error)
        }
        (Ok(program), Err(error)) => {
            drop(program);
            Err(error)
        }
    }
}

/// The whole table.
pub fn program<'a>(alloc: Global) -> Result<Command<'a>, AllocError>
    ensures { IfOk result (λ c. app_of c ≡ program) }
{
    let program = with_command(Ok(bare_program(alloc)), check_command(alloc));
    let program = with_command(program, recheck_command(alloc));
    let program = with_command(program, Ok(flat_command(alloc)));
    with_command(program, ring_command(alloc))
}
