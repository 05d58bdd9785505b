//! What calls on maps and atomics can't come to where all of them are a workload's.
ghost use Rattle.std.specs.Prelude.{◌≡◌, ℕ, ℤ, ◌<◌, ◌≤◌, true, List, length, All, Some, slice_get};
ghost use Rattle.script_calls.specs.Outcome.{shows_to};
ghost use Rattle.sync_model.specs.SharedCalls.{Lawful};
ghost use Rattle.sync_model.specs.SharedHistory.{contents_after, value_at};
ghost use Rattle.workload.specs.Keys.{keys_in};
ghost use Rattle.workload.specs.Plan.{Plan};
ghost use Rattle.run_record.specs.Explains.{Explains};
ghost use Rattle.run_record.specs.Limits.{IsCallOf, HasShown};
ghost use Rattle.run_record.specs.Objects.{contents_of};
ghost use Rattle.run_record.specs.Record.{Record};

use script_calls::Outcome;
use sync_model::item::{Item, SharedCall, SharedEntry, SharedReply};
use sync_model::laws::shared::{a_range_shows_each_key_once_and_misses_none, each_entry_is_a_call};
use sync_types::laws::atomics::calls_keep_the_type;
use sync_types::laws::maps::{calls_leave_other_keys, only_a_clear_has_no_key};
use sync_types::{AtomicCall, AtomicReply, Number};
use workload::laws::keys_are_numbered_by_first_appearance;

/// A `range` shows no more pairs than the workload has keys: a map never has another key, and no key is shown twice.
pub fn a_range_shows_no_key_but_the_workloads()
    ensures { (plan : Plan) (history : List SharedEntry) (calls : ℕ → List Item) (caller : ℕ) (shown : List (ℕ × ℕ))
        → Lawful (contents_of plan) history calls → ((c : ℕ) → All (λ x. IsCallOf plan x.call) (calls c))
        → HasShown (calls caller) shown → length shown ≤ length (keys_in plan.scripts) }
{
    calls_leave_other_keys::<u32>();
    only_a_clear_has_no_key::<u32>();
    each_entry_is_a_call();
    a_range_shows_each_key_once_and_misses_none();
}

/// An `add` to an int64 is answered by an int64: an atomic never holds a number of another type.
pub fn an_int64_answers_an_int64()
    ensures { (plan : Plan) (history : List SharedEntry) (calls : ℕ → List Item) (caller i a : ℕ) (amount : ℤ) (x : Item)
        → Lawful (contents_of plan) history calls → ((c : ℕ) → All (λ x. IsCallOf plan x.call) (calls c))
        → slice_get (calls caller) i ≡ Some x → x.call ≡ SharedCall.Atomic a (AtomicCall.Add (Number.Int64 amount))
        → (sum : ℤ) × (x.reply ≡ SharedReply.Atomic (AtomicReply.Held (Number.Int64 sum))) }
{
    calls_keep_the_type();
    each_entry_is_a_call();
}

/// No reply of a run shows more pairs than its workload has keys: each pair that a `range` shows has another key, and each key is one
/// of the workload's.
pub fn a_range_shows_no_key_twice()
    ensures { (plan : Plan) (r : Record) (outcome : Outcome) (most : ℕ) → Explains plan outcome r → length (keys_in plan.scripts) ≤ most → shows_to most outcome ≡ true }
{
    calls_leave_other_keys::<u32>();
    only_a_clear_has_no_key::<u32>();
    each_entry_is_a_call();
    a_range_shows_each_key_once_and_misses_none();
    keys_are_numbered_by_first_appearance();
}

/// What the maps contain after a run has no key but the workload's.
pub fn maps_end_with_the_workloads_keys()
    ensures { (plan : Plan) (r : Record) (outcome : Outcome) (m key value : ℕ) → Explains plan outcome r
        → value_at (contents_after (contents_of plan) r.history) m key ≡ Some value → key < length (keys_in plan.scripts) }
{
    calls_leave_other_keys::<u32>();
    only_a_clear_has_no_key::<u32>();
    each_entry_is_a_call();
    keys_are_numbered_by_first_appearance();
}
