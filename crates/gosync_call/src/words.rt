//! What the words of the command ask for.
ghost use Rattle.std.specs.Prelude.{◌≡◌, IfOk, IsErrOf, OnOk, map, string_bytes};
ghost use Rattle.command_line.specs.declared.matching.WordsFault.TheVariants as words_faults;
ghost use Rattle.gosync_call.specs.Command.{Asks, AreRefused};
ghost use Rattle.gosync_call.specs.Modes.{dialect_of};

use command_line::{Subcommand, WordsFault, matched, seed_of};
use std::alloc::Global;
use workload::keyword::Dialect;

/// How the workload of a file is run.
#[derive(Clone, Copy, PartialEq, Eq)]
pub enum Mode {
    /// By its schedule, on one thread.
    Step,
    /// With a thread for each worker.
    Run,
    /// By its schedule, on one thread, and its races are told.
    Race,
    /// By its schedule, on one thread, and its record is told.
    Trace,
}

impl Mode {
    /// Which words the text of the file may have.
    pub fn dialect(self) -> Dialect
        ensures { result ≡ dialect_of self }
    {
        match self {
            Mode::Step | Mode::Run => Dialect::Runs,
            Mode::Race => Dialect::Races,
            Mode::Trace => Dialect::Plain,
        }
    }
}

/// What the words ask for.
#[derive(Clone, Copy)]
pub enum Request<'a> {
    /// To run the workload of this file.
    File(Mode, &'a str),
    /// To make the workload of this seed, and run it with a thread for each worker.
    Make(u64),
    /// To judge the record of this file.
    Check(&'a str),
}

/// What the words ask for. They are refused where the command doesn't take them, or their SEED is no number of 64 bits.
pub fn asked<'a>(alloc: Global, words: &'a [String]) -> Result<Request<'a>, WordsFault>
    ensures asks { IfOk result (Asks (map string_bytes words.entry.now)) }
    ensures taken { OnOk result (¬ AreRefused (map string_bytes words.entry.now)) }
    ensures refused { IsErrOf result words_faults.Refused → AreRefused (map string_bytes words.entry.now) }
{
    match matched(alloc, words) {
        Ok((Subcommand::Step, file)) => Ok(Request::File(Mode::Step, file)),
        Ok((Subcommand::Run, file)) => Ok(Request::File(Mode::Run, file)),
        Ok((Subcommand::Make, seed)) => match seed_of(seed) {
            Some(seed) => Ok(Request::Make(seed)),
            None => Err(WordsFault::Refused),
        },
        Ok((Subcommand::Race, file)) => Ok(Request::File(Mode::Race, file)),
        Ok((Subcommand::Trace, file)) => Ok(Request::File(Mode::Trace, file)),
        Ok((Subcommand::Check, file)) => Ok(Request::Check(file)),
        Err(fault) => Err(fault),
    }
}
