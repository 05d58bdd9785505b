//! The run of a file on one thread.
ghost use Rattle.std.specs.Prelude.{◌≡◌, ◌≢◌, ℕ, List, ◌+◌, ◌≤◌, false, Err, IfErr, MatchResult};
ghost use Rattle.sync_outside.specs.Faults.{Rose};
ghost use Rattle.workload.specs.Dialect.{has_unrecorded};
ghost use Rattle.workload.specs.declared.limits.TheConstants.{MAX_INPUT};
ghost use Rattle.gosync_call.specs.Front.{IsOfAllBytes};
ghost use Rattle.gosync_call.specs.Input.{IsWhollyRead, ReadFailed};
ghost use Rattle.gosync_call.specs.Modes.{EndsBy, ModeComesTo, StopsBy};
ghost use Rattle.gosync_call.specs.declared.status.Status.TheVariants as statuses;
ghost use Rattle.gosync_call.specs.declared.status.Unread.TheVariants as unreads;
ghost use Rattle.gosync_call.specs.declared.status.Fault.TheVariants as faults;
ghost use Rattle.gosync_call.specs.declared.words.Mode.TheVariants as modes;

use crate::race::run_with_races;
use crate::read::read_workload;
use crate::status::{Ending, Fault, Status};
use crate::step::run_by_schedule;
use crate::trace::run_with_record;
use crate::words::Mode;
use std::alloc::Global;
use sync_outside::{Sink, Sources};
use workload::Workload;

/// Runs a workload by its schedule, and writes what its mode tells of the run.
fn run_in<O: Sink>(
    alloc: Global,
    mode: Mode,
    workload: &Workload,
    out: &mut O,
) -> Result<Ending, Fault>
    requires mode { mode ≢ modes.Run }
    requires plain { mode ≡ modes.Trace → has_unrecorded workload.now ≡ false }
    ensures ran { MatchResult result (EndsBy mode workload.now (O.contents out.old) (O.contents out.new)) (StopsBy mode workload.now (O.contents out.old) (O.contents out.new)) }
    ensures started { result ≡ Err faults.CannotStart → ⊥ }
    ensures cannot_write { IfErr result (λ fault. fault ≡ faults.CannotWrite → Rose (O.faults out.old) (O.faults out.new)) }
    ensures out_faults { O.faults out.old ≤ O.faults out.new }
{
    match mode {
        Mode::Step => run_by_schedule(alloc, workload, out),
        Mode::Race => run_with_races(alloc, workload, out),
        Mode::Trace => run_with_record(alloc, workload, out),
        Mode::Run => unreachable!(),
    }
}

/// Reads a file, runs its workload by its schedule, and writes what the mode tells of the run.
pub fn on_one_thread<S: Sources, O: Sink>(
    alloc: Global,
    mode: Mode,
    file: &str,
    src: &mut S,
    out: &mut O,
) -> Status
    requires { mode ≢ modes.Run }
    ensures comes_to { ModeComesTo mode (S.contents src.old file.now) (O.contents out.old) (O.contents out.new) result }
    ensures whole { IsOfAllBytes result → IsWhollyRead (S.contents src.old file.now) (S.remaining src.new) }
    ensures started { result ≡ statuses.Failed faults.CannotStart → ⊥ }
    ensures cannot_read { result ≡ statuses.Unread unreads.CannotRead → ReadFailed (S.open_faults src.old file.now) (S.open_faults src.new file.now) (S.read_faults src.old) (S.read_faults src.new) }
    ensures cannot_write { result ≡ statuses.Failed faults.CannotWrite → Rose (O.faults out.old) (O.faults out.new) }
    ensures reads { S.reads src.new ≤ S.reads src.old + (MAX_INPUT + 1) }
    ensures read_faults { S.read_faults src.old ≤ S.read_faults src.new }
    ensures open_faults { (name : List ℕ) → S.open_faults src.old name ≤ S.open_faults src.new name }
    ensures out_faults { O.faults out.old ≤ O.faults out.new }
{
    match read_workload(alloc, mode.dialect(), file, src) {
        Ok(workload) => match run_in(alloc, mode, &workload, out) {
            Ok(ending) => Status::Ended(ending),
            Err(fault) => Status::Failed(fault),
        },
        Err(why) => Status::Unread(why),
    }
}
