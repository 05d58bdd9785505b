//! What the words of the command line are matched with.
ghost use Rattle.std.specs.Prelude.{◌≡◌, IfOk, None, Some, map, string_bytes, option_map, IsErrOf};
ghost use Rattle.clap.specs.Words.{found_of, kind_of, rows_of, subcommand_rows_of};
ghost use Rattle.clap.specs.declared.error.kind.ErrorKind.TheVariants as kinds;
ghost use Rattle.command_line.specs.declared.matching.WordsFault.TheVariants as faults;
ghost use Rattle.command_line.specs.Command.{argument_in, matched};

use crate::definition::{ARGUMENT, Subcommand, command, subcommand_named};
use clap::error::ErrorKind;
use clap::{ArgMatches, Error};
use std::alloc::{AllocError, Global};

/// Why words aren't matched.
#[derive(Clone, Copy, Debug, PartialEq, Eq)]
pub enum WordsFault {
    /// The command doesn't take them.
    Refused,
    /// Memory is out.
    Memory,
}

impl From<AllocError> for WordsFault {
    ghost from_gives = { λ _ fault. fault ≡ faults.Memory };

    fn from(_fault: AllocError) -> WordsFault {
        WordsFault::Memory
    }
}

/// The subcommand of this name, with the argument that its matches have.
fn argument_of<'a>(name: &str, matches: &ArgMatches<'a>) -> Option<(Subcommand, &'a str)>
    ensures { option_map (λ pair. (pair.0, pair.1.now)) result ≡ argument_in (Some (name.now, rows_of (found_of matches.now))) }
{
    let subcommand = subcommand_named(name)?;
    let argument = matches.get_str(ARGUMENT)?;
    Some((subcommand, argument))
}

/// The subcommand that was matched, with its argument.
fn argument_in<'a>(matches: &ArgMatches<'a>) -> Option<(Subcommand, &'a str)>
    ensures { option_map (λ pair. (pair.0, pair.1.now)) result ≡ argument_in (subcommand_rows_of matches.now) }
{
    match matches.subcommand() {
        None => None,
        Some((name, inner)) => argument_of(name, inner),
    }
}

/// Why the command doesn't match: it refuses the words, or memory is out.
fn cause_of(error: &Error) -> WordsFault
    ensures { result ≡ faults.Refused → ¬ (kind_of error.now ≡ kinds.OutOfMemory) }
{
    match error.kind() {
        ErrorKind::OutOfMemory => WordsFault::Memory,
        _ => WordsFault::Refused,
    }
}

/// The subcommand that the words name, with its argument, where the command takes them. The first word is the program's name.
pub fn matched<'a>(alloc: Global, words: &'a [String]) -> Result<(Subcommand, &'a str), WordsFault>
    ensures matched { IfOk result (λ pair. matched (map string_bytes words.entry.now) ≡ Some (pair.0, pair.1.now)) }
    ensures refused { IsErrOf result faults.Refused → matched (map string_bytes words.entry.now) ≡ None }
{
    let command = command(alloc)?;
    match command.try_get_matches_from(words) {
        Ok(matches) => match argument_in(&matches) {
            Some(found) => Ok(found),
            None => Err(WordsFault::Refused),
        },
        Err(error) => Err(cause_of(&error)),
    }
}
