//! What replies say of their calls, and what a run of a script is. Each law is the contract of a function that does nothing.
ghost use Rattle.std.specs.Prelude.{◌≡◌, ◌↔◌, ◌<◌, ◌≤◌, ℕ, ◌+◌, true, false, List, [], ◌∷◌, ◌++◌, map, length, take, drop, Some, None, slice_get};
ghost use Rattle.std.specs.declared.cmp.Ordering.{Ordering};
ghost use Rattle.std.specs.FinMap.{FinMap};
ghost use Rattle.script_calls.specs.Outcome.{with_keys_renamed};
ghost use Rattle.script_calls.specs.Replies.{is_reply_to};
ghost use Rattle.script_calls.specs.Runs.{passed_over, has_test, left_of, made_of, places_from, RunsAlong};
ghost use Rattle.script_calls.specs.Starts.{starts, start_count, group_of};
ghost use Rattle.sync_types.specs.Replies.{atomic_form, map_form};
ghost use Rattle.sync_types.specs.SequentialAtomic.{atomic_reply};
ghost use Rattle.sync_types.specs.SequentialMap.{map_reply};
ghost use Rattle.sync_types.specs.declared.atomic_object.Number.{Number};

use crate::call::{Call, ComposedCall, Operation, Reply};
use sync_types::atomic_object::{AtomicCall, AtomicReply};
use sync_types::map_object::MapCall;

/// What a map and an atomic answer has the form of their call's replies, and other names for keys leave each reply its form.
pub fn replies_have_their_form<K, L>()
    ensures map { (R : K → K → Ordering) (call : MapCall K) (m : FinMap R ℕ) → map_form call (map_reply call m) ≡ true }
    ensures atomic { (call : AtomicCall) (held : Number) → atomic_form call (atomic_reply call held) ≡ true }
    ensures renamed { (rename : K → L) (operation : Operation) (reply : Reply K) → is_reply_to operation (with_keys_renamed rename reply) ≡ is_reply_to operation reply }
{}

/// Only an `ifeq` that is answered false passes calls over, and just so many as it says.
pub fn only_an_ifeq_answered_false_passes_calls_over<K>()
    ensures passes { (call : Call) (value : Number) (passes : ℕ) (reply : Reply K) → call.operation ≡ Operation.Composed (ComposedCall.IfEqual value passes)
        → reply ≡ Reply.Atomic (AtomicReply.Compared false) → passed_over call reply ≡ passes }
    ensures only { (call : Call) (reply : Reply K) → 0 < passed_over call reply
        → ((value : Number) × (passes : ℕ) × (call.operation ≡ Operation.Composed (ComposedCall.IfEqual value passes))) × (reply ≡ Reply.Atomic (AtomicReply.Compared false)) }
{}

/// A script without a call that may pass others over is its own one run: its calls are made one after the other, and each has its
/// own number as its place.
pub fn a_script_without_tests_is_its_own_run<K>()
    ensures run { (script rest : List Call) (made : List (Call × Reply K)) → has_test script ≡ false → RunsAlong script made rest → script ≡ map (λ one. one.0) made ++ rest }
    ensures back { (made : List (Call × Reply K)) (rest : List Call) → has_test (map (λ one. one.0) made ++ rest) ≡ false → RunsAlong (map (λ one. one.0) made ++ rest) made rest }
    ensures left { (script : List Call) (given : List (Reply K)) → has_test script ≡ false → left_of script given ≡ drop (length given) script }
    ensures made { (script : List Call) (given : List (Reply K)) → has_test script ≡ false → made_of script given ≡ take (length given) script }
{}

/// The calls that were made along a script and what is left of it are told by their replies alone.
pub fn a_run_is_told_by_its_replies<K>()
    ensures told { (script rest : List Call) (made : List (Call × Reply K)) → RunsAlong script made rest
        → (map (λ one. one.0) made ≡ made_of script (map (λ one. one.1) made)) × (rest ≡ left_of script (map (λ one. one.1) made)) }
    ensures back { (script : List Call) (given : List (Reply K)) → length (made_of script given) ≡ length given
        → (made : List (Call × Reply K)) × (map (λ one. one.1) made ≡ given) × RunsAlong script made (left_of script given) }
{}

/// A call that was made keeps its place in the script. The next one that is made stands right behind it and those that it passes
/// over: these have no place among those that are made.
pub fn calls_keep_their_places<K>()
    ensures place { (script : List Call) (given : List (Reply K)) (i place : ℕ) → slice_get (places_from 0 script given) i ≡ Some place → slice_get script place ≡ slice_get (made_of script given) i }
    ensures next { (script : List Call) (given : List (Reply K)) (i place after : ℕ) (call : Call) (reply : Reply K)
        → slice_get (places_from 0 script given) i ≡ Some place → slice_get (places_from 0 script given) (i + 1) ≡ Some after
        → slice_get script place ≡ Some call → slice_get given i ≡ Some reply → after ≡ place + 1 + passed_over call reply }
{}

/// With one more reply the next call was made, and what is left is left behind it and those that it passes over. Made and left calls
/// are no more than the script has.
pub fn runs_go_on<K>()
    ensures left { (script : List Call) (given : List (Reply K)) (call : Call) (rest : List Call) (reply : Reply K) → left_of script given ≡ call ∷ rest
        → left_of script (given ++ reply ∷ []) ≡ drop (passed_over call reply) rest }
    ensures made { (script : List Call) (given : List (Reply K)) (call : Call) (rest : List Call) (reply : Reply K) → left_of script given ≡ call ∷ rest
        → made_of script (given ++ reply ∷ []) ≡ made_of script given ++ call ∷ [] }
    ensures along { (script : List Call) (made : List (Call × Reply K)) (call : Call) (rest : List Call) (reply : Reply K) → RunsAlong script made (call ∷ rest)
        → RunsAlong script (made ++ (call, reply) ∷ []) (drop (passed_over call reply) rest) }
    ensures few { (script : List Call) (given : List (Reply K)) → length (made_of script given) + length (left_of script given) ≤ length script }
{}

/// Where a call stands at a place of a script, what is left behind it and those that it passes over is the script from a later
/// place on.
pub fn a_run_goes_along_by_places()
    ensures at { (script : List Call) (place : ℕ) (call : Call) → slice_get script place ≡ Some call → drop place script ≡ call ∷ drop (place + 1) script }
    ensures over { (script : List Call) (place passes : ℕ) → drop passes (drop (place + 1) script) ≡ drop (place + 1 + passes) script }
    ensures past { (script : List Call) (place : ℕ) → length script ≤ place → drop place script ≡ [] }
{}

/// Other names for keys in replies change no run.
pub fn runs_do_not_hang_on_names<K, L>()
    ensures passed { (rename : K → L) (call : Call) (reply : Reply K) → passed_over call (with_keys_renamed rename reply) ≡ passed_over call reply }
    ensures left { (rename : K → L) (script : List Call) (given : List (Reply K)) → left_of script (map (with_keys_renamed rename) given) ≡ left_of script given }
    ensures made { (rename : K → L) (script : List Call) (given : List (Reply K)) → made_of script (map (with_keys_renamed rename) given) ≡ made_of script given }
{}

/// A worker is started by the `go`s of its number, and is under no group exactly where there is none. Where there is at most one,
/// its group is that of its `go`, wherever it stands.
pub fn who_starts_whom()
    ensures starts { (worker : ℕ) (call : Call) → starts worker call ≡ true ↔ call.operation ≡ Operation.Composed (ComposedCall.Go worker) }
    ensures nobody { (worker : ℕ) (scripts : List (List Call)) → group_of worker scripts ≡ None ↔ start_count worker scripts ≡ 0 }
    ensures found { (worker group : ℕ) (scripts : List (List Call)) → group_of worker scripts ≡ Some group
        → (at place : ℕ) × (script : List Call) × (call : Call) × (slice_get scripts at ≡ Some script) × (slice_get script place ≡ Some call) × (call.operation ≡ Operation.Composed (ComposedCall.Go worker)) × (call.object ≡ group) }
    ensures group { (worker at place : ℕ) (scripts : List (List Call)) (script : List Call) (call : Call) → start_count worker scripts ≤ 1
        → slice_get scripts at ≡ Some script → slice_get script place ≡ Some call → call.operation ≡ Operation.Composed (ComposedCall.Go worker) → group_of worker scripts ≡ Some call.object }
    ensures one { (worker at after place other : ℕ) (scripts : List (List Call)) (script later : List Call) (call another : Call) → start_count worker scripts ≤ 1
        → slice_get scripts at ≡ Some script → slice_get script place ≡ Some call → call.operation ≡ Operation.Composed (ComposedCall.Go worker)
        → slice_get scripts after ≡ Some later → slice_get later other ≡ Some another → another.operation ≡ Operation.Composed (ComposedCall.Go worker)
        → (at ≡ after) × (place ≡ other) }
{}
