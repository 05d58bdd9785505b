//! The command `gosync` and its subcommands.
ghost use Rattle.std.specs.Prelude.{◌≡◌, IfOk, false};
ghost use Rattle.clap.specs.Words.{app_of, shape_of, with_subcommand};
ghost use Rattle.clap.specs.declared.builder.command.Command.TheViews.{out-Command};
ghost use Rattle.command_line.specs.Command.{gosync_command, subcommand_named, with_argument};

use clap::{Arg, Command};
use std::alloc::{AllocError, Global};

/// What the program is asked to do.
#[derive(Clone, Copy, Debug, PartialEq, Eq)]
pub enum Subcommand {
    /// Run the workload of a file by its schedule: `step FILE`.
    Step,
    /// Run the workload of a file with a thread for each worker: `run FILE`.
    Run,
    /// Make a workload from a seed and run it with a thread for each worker: `make SEED`.
    Make,
    /// Run the workload of a file by its schedule, and tell the races of the run: `race FILE`.
    Race,
    /// Tell whether the record of a file explains its run: `check FILE`.
    Check,
    /// Run the workload of a file by its schedule, and write the record of the run: `trace FILE`.
    Trace,
}

/// The name of the one argument of each subcommand.
pub const ARGUMENT: &str = "argument";

/// The subcommand that a word names.
pub fn subcommand_named(word: &str) -> Option<Subcommand>
    ensures { result ≡ subcommand_named word.now }
{
    if word.as_bytes() == b"step".as_slice() {
        Some(Subcommand::Step)
    } else if word.as_bytes() == b"run".as_slice() {
        Some(Subcommand::Run)
    } else if word.as_bytes() == b"make".as_slice() {
        Some(Subcommand::Make)
    } else if word.as_bytes() == b"race".as_slice() {
        Some(Subcommand::Race)
    } else if word.as_bytes() == b"check".as_slice() {
        Some(Subcommand::Check)
    } else if word.as_bytes() == b"trace".as_slice() {
        Some(Subcommand::Trace)
    } else {
        None
    }
}

/// A subcommand with one required argument, which is any text.
fn with_argument<'a>(alloc: Global, name: &'a str) -> Result<Command<'a>, AllocError>
    ensures shape { IfOk result (λ made. shape_of made ≡ with_argument name.entry.now) }
    ensures local { IfOk result (λ made. (out-Command made).has_globals ≡ false) }
{
    Command::new(alloc, name).arg(Arg::new(alloc, ARGUMENT).required(true))
}

/// A command with one subcommand more, which has one required argument, any text.
fn adding<'a>(alloc: Global, command: Command<'a>, name: &'a str) -> Result<Command<'a>, AllocError>
    ensures { IfOk result (λ made. app_of made ≡ with_subcommand (app_of command.entry) (with_argument name.entry.now)) }
{
    let subcommand = with_argument(alloc, name)?;
    command.subcommand(subcommand)
}

/// The command line: the command `gosync` with a required subcommand, which is `step`, `run`, `make`, `race`, `check` or
/// `trace`, each with one required argument that is any text. Nothing else is set.
pub fn command<'a>(alloc: Global) -> Result<Command<'a>, AllocError>
    ensures { IfOk result (λ made. app_of made ≡ gosync_command) }
{
    let named = Command::new(alloc, "gosync").subcommand_required(true);
    let command = adding(alloc, named, "step")?;
    let command = adding(alloc, command, "run")?;
    let command = adding(alloc, command, "make")?;
    let command = adding(alloc, command, "race")?;
    let command = adding(alloc, command, "check")?;
    adding(alloc, command, "trace")
}
