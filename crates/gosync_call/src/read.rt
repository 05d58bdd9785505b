//! The workload of a file.
ghost use Rattle.std.specs.Prelude.{◌≡◌, ℕ, List, ◌+◌, ◌≤◌, true, false, IfErr, IfOk, MatchResult};
ghost use Rattle.workload.specs.declared.limits.TheConstants.{MAX_INPUT};
ghost use Rattle.workload.specs.Dialect.{has_variables, has_x_sync, has_unrecorded};
ghost use Rattle.workload.specs.Plan.{is_valid};
ghost use Rattle.workload.specs.Reads.{IsFaultIn, ReadsIn};
ghost use Rattle.gosync_call.specs.Front.{IsRefusal};
ghost use Rattle.gosync_call.specs.Input.{IsWhollyRead, ReadFailed};
ghost use Rattle.gosync_call.specs.ComesTo.{IsReadIn, IsUnreadIn};
ghost use Rattle.gosync_call.specs.declared.status.Unread.TheVariants as unreads;

use crate::input::{InputFault, read_input};
use crate::status::Unread;
use std::alloc::Global;
use sync_outside::Sources;
use workload::keyword::Dialect;
use workload::laws::{
    race_texts_are_read_or_refused, read_or_refused, run_texts_are_read_or_refused,
    texts_have_what_their_readers_know,
};
use workload::{MAX_INPUT, ParseFault, Workload};
use workload_text::{parse, parse_race, parse_run};

/// Each place and number in a workload is in range.
pub fn is_in_range(workload: &Workload)
    ensures { is_valid workload.now ≡ true }
{
    workload.workers();
}

/// Reads a text of a dialect.
fn parse_in(alloc: Global, dialect: Dialect, bytes: &[u8]) -> Result<Workload, ParseFault>
    ensures read { IfOk result (ReadsIn dialect bytes.now) }
    ensures refused { IfErr result (IsFaultIn dialect bytes.now) }
{
    match dialect {
        Dialect::Plain => parse(alloc, bytes),
        Dialect::Runs => parse_run(alloc, bytes),
        Dialect::Races => parse_race(alloc, bytes),
    }
}

/// The workload that a file is read as in a dialect. It has no objects whose words the dialect doesn't know.
pub fn read_workload<S: Sources>(
    alloc: Global,
    dialect: Dialect,
    file: &str,
    src: &mut S,
) -> Result<Workload, Unread>
    ensures read { MatchResult result (IsReadIn dialect (S.contents src.old file.now)) (IsUnreadIn dialect (S.contents src.old file.now)) }
    ensures whole { MatchResult result (λ _. IsWhollyRead (S.contents src.old file.now) (S.remaining src.new)) (λ why. IsRefusal why → IsWhollyRead (S.contents src.old file.now) (S.remaining src.new)) }
    ensures plain { IfOk result (λ workload. dialect ≡ Dialect.Plain → has_unrecorded workload ≡ false) }
    ensures runs { IfOk result (λ workload. dialect ≡ Dialect.Runs → has_variables workload ≡ false) }
    ensures races { IfOk result (λ workload. dialect ≡ Dialect.Races → has_x_sync workload ≡ false) }
    ensures cannot_read { IfErr result (λ why. why ≡ unreads.CannotRead → ReadFailed (S.open_faults src.old file.now) (S.open_faults src.new file.now) (S.read_faults src.old) (S.read_faults src.new)) }
    ensures reads { S.reads src.new ≤ S.reads src.old + (MAX_INPUT + 1) }
    ensures read_faults { S.read_faults src.old ≤ S.read_faults src.new }
    ensures open_faults { (name : List ℕ) → S.open_faults src.old name ≤ S.open_faults src.new name }
{
    read_or_refused();
    run_texts_are_read_or_refused();
    race_texts_are_read_or_refused();
    texts_have_what_their_readers_know();
    let bytes = match read_input(alloc, MAX_INPUT, file, src) {
        Ok(bytes) => bytes,
        Err(InputFault::Failed) => return Err(Unread::CannotRead),
        Err(InputFault::Memory) => return Err(Unread::Memory),
    };
    match parse_in(alloc, dialect, &bytes) {
        Ok(workload) => {
            is_in_range(&workload);
            Ok(workload)
        }
        Err(ParseFault::Refused { line, reason }) => Err(Unread::NotAccepted { line, reason }),
        Err(ParseFault::Memory) => Err(Unread::Memory),
    }
}
