//! How the workers of a run end. Each law is the contract of a function that does nothing.
ghost use Rattle.std.specs.Prelude.{◌≡◌, ◌≢◌, ◌⊎◌, ℕ, ◌<◌, false, [], length, get_or, Some, slice_get};
ghost use Rattle.script_calls.specs.Outcome.{left_by};
ghost use Rattle.script_calls.specs.Runs.{have_tests, left_of};
ghost use Rattle.workload.specs.Plan.{Plan, is_dormant};
ghost use Rattle.run_record.specs.Explains.{Explains};
ghost use Rattle.run_record.specs.Lines.{Line, misused, halted, stayed, never, stopped};
ghost use Rattle.run_record.specs.Record.{Record};

use run_record::laws::runs::{
    replies_tell_which_calls_were_made, scripts_without_tests_are_spelt_call_by_call,
};
use run_record::laws::starts::{
    nobody_who_was_not_started_makes_a_call, who_does_not_wait_comes_to_its_script,
};
use script_calls::Outcome;
use sync_types::Misuse;

/// A worker that doesn't wait to be started, and of whose script something is left, has met a misuse, or a halt: it didn't stop by
/// itself. Where no call may pass others over, that is so of each such worker that has fewer replies than its script has calls. Of any
/// worker nothing is left of its script, or it met a misuse or a halt, in a call or before its script, or it was never started, and
/// has no reply.
pub fn each_worker_has_ended()
    ensures left { (plan : Plan) (outcome : Outcome) (r : Record) (explains : Explains plan outcome r) (worker : ℕ) (line : Line) → is_dormant plan worker ≡ false
        → slice_get explains.lines worker ≡ Some line → left_of (get_or plan.scripts worker []) (get_or (left_by outcome).replies worker []) ≢ []
        → (misuse : Misuse) × ((line.ending ≡ misused misuse) ⊎ (line.ending ≡ halted misuse)) }
    ensures fewer { (plan : Plan) (outcome : Outcome) (r : Record) → have_tests plan.scripts ≡ false → (explains : Explains plan outcome r) (worker : ℕ) (line : Line) → is_dormant plan worker ≡ false
        → slice_get explains.lines worker ≡ Some line → length (get_or (left_by outcome).replies worker []) < length (get_or plan.scripts worker [])
        → (misuse : Misuse) × ((line.ending ≡ misused misuse) ⊎ (line.ending ≡ halted misuse)) }
    ensures stayed { (plan : Plan) (outcome : Outcome) (r : Record) (explains : Explains plan outcome r) (worker : ℕ) (line : Line)
        → slice_get explains.lines worker ≡ Some line
        → (left_of (get_or plan.scripts worker []) (get_or (left_by outcome).replies worker []) ≡ [])
        ⊎ ((misuse : Misuse) × ((line.ending ≡ misused misuse) ⊎ (line.ending ≡ halted misuse) ⊎ (line.ending ≡ stayed (stopped misuse))))
        ⊎ ((line.ending ≡ stayed never) × (get_or (left_by outcome).replies worker [] ≡ [])) }
{
    replies_tell_which_calls_were_made();
    scripts_without_tests_are_spelt_call_by_call();
    who_does_not_wait_comes_to_its_script();
    nobody_who_was_not_started_makes_a_call();
}
