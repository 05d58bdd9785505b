//! The maps and atomics of a run. Each law is the contract of a function that does nothing.
ghost use Rattle.std.specs.Prelude.{◌≡◌, ℕ, List, length, Some, Contains, slice_get};
ghost use Rattle.sync_model.specs.SharedHistory.{Contents, contents_after, number_at, value_at};
ghost use Rattle.workload.specs.Plan.{Plan};
ghost use Rattle.run_record.specs.Explains.{Explains};
ghost use Rattle.run_record.specs.Objects.{contents_of, map_number, atomic_number};
ghost use Rattle.run_record.specs.Record.{Record};

use run_record::laws::limits::maps_end_with_the_workloads_keys;
use script_calls::{Outcome, Report};
use sync_model::SharedEntry;
use sync_model::laws::ends::maps_by_name_have_the_same_values;
use sync_types::{AtomicKind, End, Number};
use workload::laws::keys_are_numbered_by_first_appearance;
use workload::{ObjectKind, ObjectLine};

/// Calls leave as many maps and atomics as there were.
pub fn calls_leave_as_many_maps_and_atomics()
    ensures maps { (start : Contents) (history : List SharedEntry) → length (contents_after start history).maps ≡ length start.maps }
    ensures numbers { (start : Contents) (history : List SharedEntry) → length (contents_after start history).numbers ≡ length start.numbers }
{}

/// A run that is done shows at its end what its maps and atomics contain after the whole history, at the places of their
/// objects: the number of each atomic, and each key of each map with its value.
pub fn the_ends_show_what_is_there()
    ensures number { (plan : Plan) (place : ℕ) (object : ObjectLine) (type : AtomicKind) (left : Report) (r : Record)
        → slice_get plan.objects place ≡ Some object → object.kind ≡ ObjectKind.Atomic type → Explains plan (Outcome.Done left) r
        → Contains left.ends (End.Number place (number_at (contents_after (contents_of plan) r.history) (atomic_number plan.objects place))) }
    ensures pair { (plan : Plan) (place key value : ℕ) (object : ObjectLine) (left : Report) (r : Record)
        → slice_get plan.objects place ≡ Some object → object.kind ≡ ObjectKind.Map → Explains plan (Outcome.Done left) r
        → value_at (contents_after (contents_of plan) r.history) (map_number plan.objects place) key ≡ Some value → Contains left.ends (End.Pair place key value) }
{
    maps_end_with_the_workloads_keys();
    maps_by_name_have_the_same_values();
    keys_are_numbered_by_first_appearance();
}

/// It shows nothing else: each number is that of an atomic, and each pair is one of a map.
pub fn the_ends_show_nothing_else()
    ensures number { (plan : Plan) (place : ℕ) (number : Number) (left : Report) (r : Record)
        → Explains plan (Outcome.Done left) r → Contains left.ends (End.Number place number)
        → (object : ObjectLine) × (type : AtomicKind) × (slice_get plan.objects place ≡ Some object) × (object.kind ≡ ObjectKind.Atomic type)
        × (number ≡ number_at (contents_after (contents_of plan) r.history) (atomic_number plan.objects place)) }
    ensures pair { (plan : Plan) (place key value : ℕ) (left : Report) (r : Record)
        → Explains plan (Outcome.Done left) r → Contains left.ends (End.Pair place key value)
        → (object : ObjectLine) × (slice_get plan.objects place ≡ Some object) × (object.kind ≡ ObjectKind.Map)
        × (value_at (contents_after (contents_of plan) r.history) (map_number plan.objects place) key ≡ Some value) }
{
    maps_end_with_the_workloads_keys();
    maps_by_name_have_the_same_values();
    keys_are_numbered_by_first_appearance();
}
