//! The run of a workload by its schedule whose record is told.
ghost use Rattle.std.specs.Prelude.{◌≡◌, ◌≤◌, false, Err, IfErr, MatchResult};
ghost use Rattle.sync_outside.specs.Faults.{Rose};
ghost use Rattle.workload.specs.Dialect.{has_unrecorded};
ghost use Rattle.gosync_call.specs.Traces.{EndsWithRecord, FailsWithRecord};
ghost use Rattle.gosync_call.specs.declared.status.Fault.TheVariants as faults;

use crate::status::{Ending, Fault};
use scheduled_record::{Recorded, recorded};
use std::alloc::Global;
use sync_outside::Sink;
use workload::Workload;

/// Runs a workload by its schedule, and writes the record of the run. The record is whole before the one write.
pub fn run_with_record<O: Sink>(
    alloc: Global,
    workload: &Workload,
    out: &mut O,
) -> Result<Ending, Fault>
    requires { has_unrecorded workload.now ≡ false }
    ensures ran { MatchResult result (EndsWithRecord workload.now (O.contents out.old) (O.contents out.new)) (FailsWithRecord workload.now (O.contents out.old) (O.contents out.new)) }
    ensures started { result ≡ Err faults.CannotStart → ⊥ }
    ensures cannot_write { IfErr result (λ fault. fault ≡ faults.CannotWrite → Rose (O.faults out.old) (O.faults out.new)) }
    ensures out_faults { O.faults out.old ≤ O.faults out.new }
{
    workload.workers();
    match recorded(alloc, workload) {
        Ok(Recorded::Text(text)) => match out.write(&text) {
            Ok(()) => Ok(Ending::Done),
            Err(_) => Err(Fault::CannotWrite),
        },
        Ok(Recorded::TooLong) => Err(Fault::TooLong),
        Ok(Recorded::Misused(misuse)) => Ok(Ending::Misused(misuse)),
        Ok(Recorded::Deadlocked) => Ok(Ending::Deadlocked),
        Err(_) => Err(Fault::Memory),
    }
}
