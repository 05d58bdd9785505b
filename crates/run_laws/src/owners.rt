//! A map whose keys each belong to one worker. Each law is the contract of a function that does nothing.
ghost use Rattle.std.specs.Prelude.{◌≡◌, ℕ, true, false, List, Some, slice_get};
ghost use Rattle.std.specs.List.{list_any};
ghost use Rattle.std.specs.Str.{bytes_eq};
ghost use Rattle.std.specs.FinMap.{get};
ghost use Rattle.script_calls.specs.declared.call.Call.{Call};
ghost use Rattle.script_calls.specs.Runs.{have_tests};
ghost use Rattle.sync_model.specs.SharedHistory.{contents_after, map_at, value_at};
ghost use Rattle.workload.specs.Draft.{all_keys};
ghost use Rattle.workload.specs.Keys.{keys_in, key_number};
ghost use Rattle.workload.specs.Plan.{Plan, has_dormant};
ghost use Rattle.run_record.specs.Explains.{Explains};
ghost use Rattle.run_record.specs.Objects.{contents_of, map_number, named};
ghost use Rattle.run_record.specs.Record.{Record};
ghost use Rattle.run_laws.specs.Locks.{has_plain_objects};
ghost use Rattle.workload.specs.OwnMaps.{map_of, union_of};
ghost use Rattle.run_laws.specs.Owners.{AreApart, IsOwnedBy};

use run_record::laws::runs::scripts_without_tests_are_spelt_call_by_call;
use run_record::laws::starts::where_nobody_waits_to_be_started_lists_are_of_calls;
use script_calls::{Outcome, Report};
use sync_model::laws::shared::{a_callers_calls_are_in_order, each_entry_is_a_call};
use sync_types::laws::maps::only_entries_change;
use workload::laws::keys_are_numbered_by_first_appearance;
use workload::{ObjectKind, ObjectLine};

/// A key that belongs to one worker has, where no call may be passed over and no worker waits to be started, after a run that is done,
/// what it has in the map that this worker makes alone: whatever the others do meanwhile.
pub fn a_key_has_what_its_worker_left()
    ensures { (plan : Plan) (place worker : ℕ) (object : ObjectLine) (script : List Call) (key : List ℕ) (left : Report) (r : Record)
        → has_plain_objects plan ≡ true → have_tests plan.scripts ≡ false → has_dormant plan ≡ false → slice_get plan.objects place ≡ Some object → object.kind ≡ ObjectKind.Map
        → slice_get plan.scripts worker ≡ Some script → IsOwnedBy plan place worker key → list_any (bytes_eq key) (all_keys plan.scripts) ≡ true
        → Explains plan (Outcome.Done left) r
        → value_at (contents_after (contents_of plan) r.history) (map_number plan.objects place) (key_number (keys_in plan.scripts) key) ≡ get (map_of place script) key }
{
    only_entries_change::<u32>();
    each_entry_is_a_call();
    a_callers_calls_are_in_order();
    keys_are_numbered_by_first_appearance();
    scripts_without_tests_are_spelt_call_by_call();
    where_nobody_waits_to_be_started_lists_are_of_calls();
}

/// Where no two workers use one key of a map, no call may be passed over and no worker waits to be started, the map is, after a run that
/// is done, what the workers' own maps are together.
pub fn a_map_is_the_union_of_its_workers_maps()
    ensures { (plan : Plan) (place : ℕ) (object : ObjectLine) (left : Report) (r : Record)
        → has_plain_objects plan ≡ true → have_tests plan.scripts ≡ false → has_dormant plan ≡ false → slice_get plan.objects place ≡ Some object → object.kind ≡ ObjectKind.Map → AreApart plan place
        → Explains plan (Outcome.Done left) r
        → named (keys_in plan.scripts) (map_at (contents_after (contents_of plan) r.history) (map_number plan.objects place)) ≡ union_of place plan.scripts }
{
    only_entries_change::<u32>();
    each_entry_is_a_call();
    a_callers_calls_are_in_order();
    keys_are_numbered_by_first_appearance();
    scripts_without_tests_are_spelt_call_by_call();
    where_nobody_waits_to_be_started_lists_are_of_calls();
}
