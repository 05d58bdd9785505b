//! The run of a workload by its schedule.
ghost use Rattle.std.specs.Prelude.{◌≡◌, ◌≤◌, Err, IfErr, MatchResult};
ghost use Rattle.sync_outside.specs.Faults.{Rose};
ghost use Rattle.step_runner.specs.Outcomes.{StepsTo};
ghost use Rattle.gosync_call.specs.ComesTo.{EndsWithReport, Fails};
ghost use Rattle.gosync_call.specs.declared.status.Fault.TheVariants as faults;

use crate::report::report_run;
use crate::status::{Ending, Fault};
use std::alloc::Global;
use step_runner::stepped;
use sync_outside::Sink;
use workload::Workload;
use workload_text::LINE_ROOM;

/// Runs a workload by its schedule and writes the report.
pub fn run_by_schedule<O: Sink>(
    alloc: Global,
    workload: &Workload,
    out: &mut O,
) -> Result<Ending, Fault>
    ensures ran { MatchResult result (EndsWithReport StepsTo workload.now (O.contents out.old) (O.contents out.new)) (Fails StepsTo workload.now (O.contents out.old) (O.contents out.new)) }
    ensures started { result ≡ Err faults.CannotStart → ⊥ }
    ensures cannot_write { IfErr result (λ fault. fault ≡ faults.CannotWrite → Rose (O.faults out.old) (O.faults out.new)) }
    ensures out_faults { O.faults out.old ≤ O.faults out.new }
{
    let Ok(mut line) = Vec::with_capacity(alloc, LINE_ROOM) else {
        return Err(Fault::Memory);
    };
    match stepped(alloc, workload) {
        Ok(outcome) => report_run(workload, &outcome, &mut line, out),
        Err(_) => Err(Fault::Memory),
    }
}
