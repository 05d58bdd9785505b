//! An int64 that is only added to. Each law is the contract of a function that does nothing.
ghost use Rattle.std.specs.Prelude.{◌≡◌, ℕ, ℤ, false, List, Some, slice_get, IsPermutation};
ghost use Rattle.sync_types.specs.SequentialAtomic.{zero_of};
ghost use Rattle.script_calls.specs.Runs.{have_tests};
ghost use Rattle.sync_model.specs.SharedHistory.{contents_after, number_at};
ghost use Rattle.workload.specs.Plan.{Plan, has_dormant};
ghost use Rattle.run_record.specs.Explains.{Explains};
ghost use Rattle.run_record.specs.Objects.{contents_of, atomic_number};
ghost use Rattle.run_record.specs.Record.{Record};
ghost use Rattle.run_laws.specs.Adds.{IsOnlyAddedTo, amounts_at, after_adds};

use run_record::laws::runs::scripts_without_tests_are_spelt_call_by_call;
use run_record::laws::starts::where_nobody_waits_to_be_started_lists_are_of_calls;
use script_calls::{Outcome, Report};
use sync_model::laws::shared::each_entry_is_a_call;
use sync_types::{AtomicKind, End};
use workload::{ObjectKind, ObjectLine};

/// An int64 that is only added to, by scripts none of whose calls may be passed over and whose workers don't wait to be started, holds,
/// after a run that is done, what the int64 of one thread holds after all adds of all scripts, and its end shows that: each amount was
/// added once, and the order of adds is all one, also where the sum wraps.
pub fn an_int64_holds_the_sum_of_all_adds()
    ensures holds { (plan : Plan) (place : ℕ) (object : ObjectLine) (left : Report) (r : Record)
        → IsOnlyAddedTo plan place → have_tests plan.scripts ≡ false → has_dormant plan ≡ false → slice_get plan.objects place ≡ Some object → object.kind ≡ ObjectKind.Atomic AtomicKind.Int64 → Explains plan (Outcome.Done left) r
        → number_at (contents_after (contents_of plan) r.history) (atomic_number plan.objects place) ≡ after_adds (zero_of AtomicKind.Int64) (amounts_at place plan.scripts) }
    ensures shown { (plan : Plan) (place : ℕ) (object : ObjectLine) (left : Report) (r : Record)
        → IsOnlyAddedTo plan place → have_tests plan.scripts ≡ false → has_dormant plan ≡ false → slice_get plan.objects place ≡ Some object → object.kind ≡ ObjectKind.Atomic AtomicKind.Int64 → Explains plan (Outcome.Done left) r
        → (i : ℕ) × (slice_get left.ends i ≡ Some (End.Number place (after_adds (zero_of AtomicKind.Int64) (amounts_at place plan.scripts)))) }
    ensures any_order { (amounts others : List ℤ) → IsPermutation amounts others
        → after_adds (zero_of AtomicKind.Int64) amounts ≡ after_adds (zero_of AtomicKind.Int64) others }
{
    each_entry_is_a_call();
    scripts_without_tests_are_spelt_call_by_call();
    where_nobody_waits_to_be_started_lists_are_of_calls();
}
