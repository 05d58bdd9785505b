//! What is before what in a run by schedule, row by row, and what isn't. Each law is the contract of a function that does nothing.
ghost use Rattle.std.specs.Prelude.{◌≡◌, ◌<◌, ℕ, true, false, List, [], Some, slice_get};
ghost use Rattle.workload.specs.Dialect.{has_variables};
ghost use Rattle.workload.specs.Plan.{Plan, is_valid};
ghost use Rattle.step_runner.specs.Traces.{trace_of};
ghost use Rattle.step_runner.specs.declared.trace.TraceItem.{TraceItem};
ghost use Rattle.race_clocks.specs.Races.{AreRaces};

use crate::race::Race;
use step_runner::laws::a_trace_tells_what_turns_made;

pub mod calls;
pub mod locks;
pub mod order;
pub mod pools;
pub mod quiet;
pub mod races;
pub mod seen;
pub mod shared;
pub mod waits;
pub mod whose;

/// A workload without variables has no races.
pub fn without_variables_nothing_races()
    ensures { (plan : Plan) (races : List Race) → is_valid plan ≡ true → has_variables plan ≡ false → AreRaces plan (trace_of plan) races → races ≡ [] }
{
    a_trace_tells_what_turns_made();
}

/// Each turn of a run is taken by one of its workers.
pub fn turns_are_of_workers()
    ensures { (plan : Plan) (n : ℕ) (turn : TraceItem) → is_valid plan ≡ true → slice_get (trace_of plan) n ≡ Some turn → turn.worker < plan.workers }
{
    a_trace_tells_what_turns_made();
}
