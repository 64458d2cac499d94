//! Reads the words of a command line.

ghost use Rattle.std.specs.Prelude.{◌≡◌, ◌≤◌, ℕ, Bool, map, IfOk, IsErrOf};
ghost use Rattle.clap.specs.Words.{found_of, rows_of, subcommand_rows_of};
ghost use Rattle.command_words.specs.declared.command.Command.{Command as CommandOf};
ghost use Rattle.command_words.specs.declared.command.Effort.{Effort as EffortOf};
ghost use Rattle.command_words.specs.declared.command.Ring.{Ring as RingOf};
ghost use Rattle.command_words.specs.Grammar.{HasEffort, HasFlag, HasNumber, HasRing, IsCommandLine, Says, Tells, bound_option, cells_place, cert_flag, conflicts_option, counter_option, frames_option, seed_place, together_flag, upgrade_flag, workers_option};

use crate::command::{Command, Effort, Ring};
use crate::table::{
    BOUND, CELLS, CERT, CHECK, CONFLICTS, COUNTER, FLAT, FRAMES, RECHECK, SEED, TOGETHER, UPGRADE,
    WORKERS, program,
};
use clap::ArgMatches;
use clap::error::ErrorKind;
use std::alloc::Global;

/// Why words say no command.
#[derive(Clone, Copy, Debug, PartialEq, Eq)]
pub enum WordsStop {
    /// They are outside the grammar.
    Outside,
    /// Memory was refused.
    NoMemory,
}

// The number of an option, or in a place, that has one.
fn number_of(found: &ArgMatches<'_>, word: &str, least: u64, greatest: u64) -> u64
    requires { (n : ℕ) × HasNumber (rows_of (found_of found.now)) word.now least greatest n }
    ensures { HasNumber (rows_of (found_of found.now)) word.now least greatest result }
{
    let Some(text) = found.get_str(word) else {
        unreachable!()
    };
    match text.parse::<u64>() {
        Ok(number) if least <= number && number <= greatest => number,
        _ => unreachable!(),
    }
}

// Whether a flag is there.
fn flag_of(found: &ArgMatches<'_>, word: &str) -> bool
    requires { (is_there : Bool) × HasFlag (rows_of (found_of found.now)) word.now is_there }
    ensures { HasFlag (rows_of (found_of found.now)) word.now result }
{
    found.get_flag(word)
}

// The effort that the options and the flags of `check` give.
fn effort_of(found: &ArgMatches<'_>) -> Effort
    requires { (effort : EffortOf) × HasEffort (rows_of (found_of found.now)) effort }
    ensures { HasEffort (rows_of (found_of found.now)) result }
{
    let workers = number_of(found, WORKERS, 1, 64);
    let conflicts = number_of(found, CONFLICTS, 0, 1_099_511_627_776);
    let bound = number_of(found, BOUND, 0, 10_000);
    let frames = number_of(found, FRAMES, 0, 100_000);
    let counter = number_of(found, COUNTER, 0, 64);
    Effort {
        workers: workers as u32,
        conflicts,
        bound: bound as usize,
        frames: frames as u32,
        counter: counter as usize,
        together: flag_of(found, TOGETHER),
        cert: flag_of(found, CERT),
    }
}

// The ring that the numbers in the places of `self` give, and that of its option.
fn ring_of(found: &ArgMatches<'_>) -> Ring
    requires { (ring : RingOf) × HasRing (rows_of (found_of found.now)) ring }
    ensures { HasRing (rows_of (found_of found.now)) result }
{
    let cells = number_of(found, CELLS, 2, 12);
    let seed = number_of(found, SEED, 0, 4_294_967_295);
    let workers = number_of(found, WORKERS, 1, 64);
    Ring {
        cells: cells as usize,
        seed,
        workers: workers as u32,
    }
}

// The command that was found.
fn command_of(matches: &ArgMatches<'_>) -> Command
    requires { (command : CommandOf) × Tells (subcommand_rows_of matches.now) command }
    ensures { Tells (subcommand_rows_of matches.now) result }
{
    let Some((word, found)) = matches.subcommand() else {
        unreachable!()
    };
    if word == FLAT {
        Command::Flat
    } else if word == RECHECK {
        Command::Recheck {
            upgrade: flag_of(found, UPGRADE),
        }
    } else if word == CHECK {
        Command::Check(effort_of(found))
    } else {
        Command::Ring(ring_of(found))
    }
}

/// The command that the words after the program's name say.
///
/// `Outside`: they are no command line (`IsCommandLine`), those that ask for help or a version among them. Memory may
/// be refused at any time.
pub fn read_words<'a>(alloc: Global, words: &'a [&'a str]) -> Result<Command, WordsStop>
    ensures said { IfOk result (Says (map (λ w. w.now) words.entry.now)) }
    ensures outside { IsErrOf result WordsStop.Outside → IsCommandLine (map (λ w. w.now) words.entry.now) → ⊥ }
{
    let Ok(program) = program(alloc) else {
        return Err(WordsStop::NoMemory);
    };
    let matches = match program.try_get_matches_from(words) {
        Ok(matches) => matches,
        Err(error) => {
            return Err(match error.kind() {
                ErrorKind::OutOfMemory => WordsStop::NoMemory,
                _ => WordsStop::Outside,
            });
        }
    };
    Ok(command_of(&matches))
}
