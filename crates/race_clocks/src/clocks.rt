//! The races of a run by schedule.
ghost use Rattle.std.specs.Prelude.{◌≡◌, IfOk};
ghost use Rattle.step_runner.specs.Traces.{trace_of};
ghost use Rattle.race_clocks.specs.Races.{AreRaces};

use crate::race::Race;
use crate::steps::steps_of;
use crate::telling::races_by_steps;
use std::alloc::{AllocError, Global};
use step_runner::Trace;
use workload::Workload;

/// The races of the run that a workload makes by its schedule, by the run's trace: each once, in the order in which the second call was made,
/// and those of one second call in the order in which the first one was. Only want of memory is an `Err`.
pub fn races(alloc: Global, workload: &Workload, trace: &Trace) -> Result<Vec<Race>, AllocError>
    requires { trace.now ≡ trace_of workload.now }
    ensures { IfOk result (λ races. AreRaces workload.now trace.now races.items) }
{
    let (steps, channels) = steps_of(alloc, workload, trace)?;
    races_by_steps(alloc, workload, trace, &steps, channels)
}
