//! What calls on maps and atomics reply. Each law is the contract of a function that does nothing.
ghost use Rattle.std.specs.Prelude.{◌≡◌, ◌≢◌, ℕ, List, [], ◌∷◌, ◌++◌, Some, None, Ok, slice_get, IsSortedByKey};
ghost use Rattle.std.specs.Cmp.Lexicographic.{slice_cmp};
ghost use Rattle.std.specs.Ordering.{nat_cmp};
ghost use Rattle.sync_types.specs.Renaming.{renamed_call};
ghost use Rattle.sync_types.specs.SequentialAtomic.{atomic_reply, is_same};
ghost use Rattle.sync_types.specs.SequentialMap.{map_reply};
ghost use Rattle.sync_model.specs.SharedHistory.{contents_at, map_at, number_at};
ghost use Rattle.workload.specs.Keys.{keys_in, key_name, key_number};
ghost use Rattle.workload.specs.Plan.{Plan};
ghost use Rattle.run_record.specs.Calls.{SpellsCall};
ghost use Rattle.run_record.specs.Explains.{IsRecordOf};
ghost use Rattle.run_record.specs.Objects.{contents_of, map_number, atomic_number};
ghost use Rattle.run_record.specs.OnceKind.{failure};
ghost use Rattle.run_record.specs.Record.{Record, list_of};

use run_record::Made;
use script_calls::{Call, ComposedCall, Operation, Reply};
use sync_model::{Answer, Item, SharedCall};
use sync_types::{AtomicCall, AtomicKind, AtomicReply, MapCall, Number};
use workload::{ObjectKind, ObjectLine};

/// A call on a map is one placed call, of its own map and by the number of its key, and replies what the map of one thread replies at
/// that place of the history. The same is so of a call on an atomic.
pub fn a_call_replies_what_one_thread_is_told()
    ensures map { (plan : Plan) (r : Record) (worker before : ℕ) (object : ObjectLine) (call : Call) (of : MapCall (List ℕ)) (earlier items later : List Made) (answer : Reply ℕ)
        → IsRecordOf plan r → slice_get plan.objects call.object ≡ Some object → object.kind ≡ ObjectKind.Map → call.operation ≡ Operation.Map of
        → list_of r worker ≡ earlier ++ (items ++ later) → SpellsCall plan worker before call items (Answer.Done (Ok answer))
        → (x : Item) × (items ≡ Made.Shared x ∷ []) × (x.call ≡ SharedCall.Map (map_number plan.objects call.object) (renamed_call (key_number (keys_in plan.scripts)) of))
        × (answer ≡ Reply.Map (map_reply (renamed_call (key_number (keys_in plan.scripts)) of) (map_at (contents_at (contents_of plan) r.history x.place) (map_number plan.objects call.object)))) }
    ensures atomic { (plan : Plan) (r : Record) (worker before : ℕ) (object : ObjectLine) (type : AtomicKind) (call : Call) (of : AtomicCall) (earlier items later : List Made) (answer : Reply ℕ)
        → IsRecordOf plan r → slice_get plan.objects call.object ≡ Some object → object.kind ≡ ObjectKind.Atomic type → call.operation ≡ Operation.Atomic of
        → list_of r worker ≡ earlier ++ (items ++ later) → SpellsCall plan worker before call items (Answer.Done (Ok answer))
        → (x : Item) × (items ≡ Made.Shared x ∷ []) × (x.call ≡ SharedCall.Atomic (atomic_number plan.objects call.object) of)
        × (answer ≡ Reply.Atomic (atomic_reply of (number_at (contents_at (contents_of plan) r.history x.place) (atomic_number plan.objects call.object)))) }
{}

/// An `ifeq` is one load, of its own atomic, and nothing else. It replies whether the atomic of one thread holds the value at that
/// place of the history.
pub fn an_ifeq_replies_whether_the_atomic_holds_the_value()
    ensures { (plan : Plan) (r : Record) (worker before passes : ℕ) (value : Number) (object : ObjectLine) (type : AtomicKind) (call : Call) (earlier items later : List Made) (answer : Reply ℕ)
        → IsRecordOf plan r → slice_get plan.objects call.object ≡ Some object → object.kind ≡ ObjectKind.Atomic type → call.operation ≡ Operation.Composed (ComposedCall.IfEqual value passes)
        → list_of r worker ≡ earlier ++ (items ++ later) → SpellsCall plan worker before call items (Answer.Done (Ok answer))
        → (x : Item) × (items ≡ Made.Shared x ∷ []) × (x.call ≡ SharedCall.Atomic (atomic_number plan.objects call.object) AtomicCall.Load)
        × (answer ≡ Reply.Atomic (AtomicReply.Compared (is_same (number_at (contents_at (contents_of plan) r.history x.place) (atomic_number plan.objects call.object)) value))) }
{}

/// A range replies its pairs in byte order of their keys.
pub fn a_range_replies_in_byte_order()
    ensures { (plan : Plan) (worker before : ℕ) (object : ObjectLine) (call : Call) (items : List Made) (pairs : List (ℕ × ℕ))
        → slice_get plan.objects call.object ≡ Some object → object.kind ≡ ObjectKind.Map → call.operation ≡ Operation.Range
        → SpellsCall plan worker before call items (Answer.Done (Ok (Reply.Pairs pairs)))
        → IsSortedByKey (λ pair. key_name (keys_in plan.scripts) pair.0) (slice_cmp nat_cmp) pairs }
{}

/// A function made by `OnceFunc` fails with any code but 0, and a call replies just that code.
pub fn only_0_is_no_failure()
    ensures none { failure 0 ≡ None }
    ensures some { (code : ℕ) → code ≢ 0 → failure code ≡ Some code }
{}
