//! Calls that wait for what an atomic holds. Each law is the contract of a function that does nothing.
ghost use Rattle.std.specs.Prelude.{◌≡◌, ℕ, Some, slice_get};
ghost use Rattle.workload.specs.Plan.{Plan};
ghost use Rattle.run_record.specs.Explains.{Explains};
ghost use Rattle.run_record.specs.Lines.{SpeltCall, Line};
ghost use Rattle.run_record.specs.Objects.{atomic_number};
ghost use Rattle.run_record.specs.Record.{Record, object_number};
ghost use Rattle.run_record.specs.Rounds.{IsWaitFor};
ghost use Rattle.run_laws.specs.WaitedFor.{WaitedFor};

use run_record::laws::runs::a_call_that_was_passed_over_leaves_no_item;
use run_record::laws::spelling::a_waitfor_waits_until_a_load_finds_the_value;
use script_calls::Outcome;
use sync_types::Number;

/// A `waitfor` that was completed is loads of its atomic with a wait on its cond between any two of them, and nothing else. It answers
/// true exactly where the atomic of one thread holds the value at the place of the last load; at that of each load before it holds
/// another one. It makes one load more than waits, and no more waits than it may. It answers false exactly where it made all of these,
/// and the atomic held another value at last.
pub fn a_waitfor_hangs_on_what_its_atomic_holds()
    ensures { (plan : Plan) (r : Record) (outcome : Outcome) (explains : Explains plan outcome r) (worker i mutex atomic tries : ℕ) (line : Line) (spelt : SpeltCall) (value : Number)
        → slice_get explains.lines worker ≡ Some line → slice_get line.spelt i ≡ Some spelt → IsWaitFor plan spelt.call mutex atomic value tries
        → WaitedFor plan r (object_number spelt.call.object) (object_number mutex) (atomic_number plan.objects atomic) value tries spelt }
{
    a_waitfor_waits_until_a_load_finds_the_value();
    a_call_that_was_passed_over_leaves_no_item();
}
