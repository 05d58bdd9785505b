//! Laws of the grammar.
ghost use Rattle.std.specs.Prelude.{◌≡◌, ◌↔◌, ◌⊎◌, ◌<◌, ◌≤◌, ℕ, ℤ, ◌+◌, ◌-◌, ◌*◌, ◌^◌, [], ◌∷◌, ◌++◌, true, false, codes, List, Option, Some, None, count_by, length, slice_get, take, drop};
ghost use Rattle.std.specs.Option.{option_to_list};
ghost use Rattle.std.specs.List.{list_any, position_from};
ghost use Rattle.std.specs.Str.{bytes_eq};
ghost use Rattle.std.specs.Fmt.{decimal};
ghost use Rattle.sync_types.specs.Name.{is_name};
ghost use Rattle.sync_types.specs.declared.name.TheConstants.{MAX_NAME};
ghost use Rattle.workload.specs.Canonical.{canonical, eights};
ghost use Rattle.workload.specs.CallWords.{verb_of, operands_of, sema_weight};
ghost use Rattle.workload.specs.Checks.{Check, first_failing, call_form, form_words, keys_among, tries_among, ranges_in, accesses_in};
ghost use Rattle.workload.specs.Dialect.{knows, keyword_in, is_variable, has_variables, is_x_sync, has_x_sync, has_unrecorded};
ghost use Rattle.workload.specs.Dormant.{begins_dormant, names_dormant};
ghost use Rattle.workload.specs.Draft.{Draft, all_keys, declared, distinct_count, is_operation, is_range_operation, is_access_operation, may_start, names_second, operation_keys, tries_of};
ghost use Rattle.workload.specs.Keys.{keys_in, number_in, key_number, key_name};
ghost use Rattle.workload.specs.Readable.{IsReadable};
ghost use Rattle.workload.specs.KeywordWords.{keyword_at, keyword_word};
ghost use Rattle.workload.specs.NumberWords.{is_number, number_of};
ghost use Rattle.workload.specs.declared.keyword.Keyword.{Keyword};
ghost use Rattle.workload.specs.declared.object.Declared.{Declared};
ghost use Rattle.workload.specs.declared.reason.Reason.{Reason};
ghost use Rattle.workload.specs.declared.turn.Turn.{Turn};
ghost use Rattle.workload.specs.Lines.{lines_of, words_of};
ghost use Rattle.workload.specs.Plan.{Plan, has_among, is_dormant, has_dormant};
ghost use Rattle.workload.specs.Reads.{Reads, ReadsIn, IsRefused, IsRefusedIn};

use crate::keyword::Dialect;
use crate::limits::{
    MAX_ACCESSES, MAX_ALL_TRIES, MAX_AMOUNT, MAX_ATOMICS, MAX_CALLS, MAX_CODE, MAX_INPUT, MAX_KEYS,
    MAX_LINE, MAX_MAPS, MAX_OTHERS, MAX_PASSES, MAX_RANGES, MAX_SIZE, MAX_TRIES, MAX_TURNS,
    MAX_WORKERS,
};
use crate::object::{ObjectKind, ObjectLine};
use script_calls::laws::who_starts_whom;
use script_calls::{Call, ComposedCall, Operation};
use sync_types::{AtomicKind, MAX_VALUE, SemaCall};

/// No two workloads are read from the same bytes.
pub fn one_reading()
    ensures { (bytes : List ℕ) (p q : Plan) → Reads bytes p → Reads bytes q → p ≡ q }
{}

/// No text is both read and refused.
pub fn read_or_refused()
    ensures { (bytes : List ℕ) (plan : Plan) (line : ℕ) (reason : Reason) → Reads bytes plan → IsRefused bytes line reason → ⊥ }
{}

/// A text is refused at one line, and for one reason.
pub fn one_refusal()
    ensures { (bytes : List ℕ) (line other : ℕ) (reason why : Reason) → IsRefused bytes line reason → IsRefused bytes other why → (line ≡ other) × (reason ≡ why) }
{}

/// Each text is read or refused.
pub fn each_text()
    ensures { (bytes : List ℕ) → ((plan : Plan) × Reads bytes plan) ⊎ ((line : ℕ) × (reason : Reason) × IsRefused bytes line reason) }
{}

/// The canonical text of a workload without variables, semaphores and flights is read as it.
pub fn canonical_reads()
    ensures { (plan : Plan) → IsReadable plan → has_unrecorded plan ≡ false → Reads (canonical plan) plan }
{}

/// A text that `step` or `run` reads too is read as one workload, or is refused at one line and for one reason. The canonical text of a
/// workload without variables is such a text of it.
pub fn run_texts_are_read_or_refused()
    ensures one { (bytes : List ℕ) (p q : Plan) → ReadsIn Dialect.Runs bytes p → ReadsIn Dialect.Runs bytes q → p ≡ q }
    ensures apart { (bytes : List ℕ) (plan : Plan) (line : ℕ) (reason : Reason) → ReadsIn Dialect.Runs bytes plan → IsRefusedIn Dialect.Runs bytes line reason → ⊥ }
    ensures refusal { (bytes : List ℕ) (line other : ℕ) (reason why : Reason) → IsRefusedIn Dialect.Runs bytes line reason → IsRefusedIn Dialect.Runs bytes other why → (line ≡ other) × (reason ≡ why) }
    ensures each { (bytes : List ℕ) → ((plan : Plan) × ReadsIn Dialect.Runs bytes plan) ⊎ ((line : ℕ) × (reason : Reason) × IsRefusedIn Dialect.Runs bytes line reason) }
    ensures canonical { (plan : Plan) → IsReadable plan → has_variables plan ≡ false → ReadsIn Dialect.Runs (canonical plan) plan }
{}

/// A race text too is read as one workload, or is refused at one line and for one reason. The canonical text of a workload without
/// semaphores and flights is a race text of it.
pub fn race_texts_are_read_or_refused()
    ensures one { (bytes : List ℕ) (p q : Plan) → ReadsIn Dialect.Races bytes p → ReadsIn Dialect.Races bytes q → p ≡ q }
    ensures apart { (bytes : List ℕ) (plan : Plan) (line : ℕ) (reason : Reason) → ReadsIn Dialect.Races bytes plan → IsRefusedIn Dialect.Races bytes line reason → ⊥ }
    ensures refusal { (bytes : List ℕ) (line other : ℕ) (reason why : Reason) → IsRefusedIn Dialect.Races bytes line reason → IsRefusedIn Dialect.Races bytes other why → (line ≡ other) × (reason ≡ why) }
    ensures each { (bytes : List ℕ) → ((plan : Plan) × ReadsIn Dialect.Races bytes plan) ⊎ ((line : ℕ) × (reason : Reason) × IsRefusedIn Dialect.Races bytes line reason) }
    ensures canonical { (plan : Plan) → IsReadable plan → has_x_sync plan ≡ false → ReadsIn Dialect.Races (canonical plan) plan }
{}

/// What is read as a plain text has no variable, no semaphore and no flights. What `step` or `run` reads has no variable. What is read
/// as a race text has no semaphore and no flights.
pub fn texts_have_what_their_readers_know()
    ensures plain { (bytes : List ℕ) (plan : Plan) → Reads bytes plan → has_unrecorded plan ≡ false }
    ensures runs { (bytes : List ℕ) (plan : Plan) → ReadsIn Dialect.Runs bytes plan → has_variables plan ≡ false }
    ensures races { (bytes : List ℕ) (plan : Plan) → ReadsIn Dialect.Races bytes plan → has_x_sync plan ≡ false }
{}

/// A workload of which a record tells all objects has neither variables nor semaphores nor flights, and one that has none of them is
/// such a workload.
pub fn records_tell_of_all_but_variables_semaphores_and_flights()
    ensures { (plan : Plan) → has_unrecorded plan ≡ false ↔ (has_variables plan ≡ false) × (has_x_sync plan ≡ false) }
{}

/// What is read as a plain text has no variable, and is read as the same workload as a race text. What is read as a race text of a
/// workload without variables is a plain text of it.
pub fn plain_texts_are_race_texts_without_variables()
    ensures none { (bytes : List ℕ) (plan : Plan) → Reads bytes plan → has_variables plan ≡ false }
    ensures races { (bytes : List ℕ) (plan : Plan) → Reads bytes plan → ReadsIn Dialect.Races bytes plan }
    ensures plain { (bytes : List ℕ) (plan : Plan) → ReadsIn Dialect.Races bytes plan → has_variables plan ≡ false → Reads bytes plan }
{}

/// What is read as a plain text has no semaphore and no flights, and `step` and `run` read it as the same workload. What they read of a
/// workload without semaphores and flights is a plain text of it.
pub fn plain_texts_are_run_texts_without_semaphores_and_flights()
    ensures none { (bytes : List ℕ) (plan : Plan) → Reads bytes plan → has_x_sync plan ≡ false }
    ensures runs { (bytes : List ℕ) (plan : Plan) → Reads bytes plan → ReadsIn Dialect.Runs bytes plan }
    ensures plain { (bytes : List ℕ) (plan : Plan) → ReadsIn Dialect.Runs bytes plan → has_x_sync plan ≡ false → Reads bytes plan }
{}

/// A text that `step` or `run` reads doesn't know the words `var`, `read` and `write`, and a race text doesn't know those of semaphores
/// and flights. A plain text knows neither. Each has all other words.
pub fn dialects()
    ensures known { (dialect : Dialect) (word : List ℕ) (keyword : Keyword) → keyword_in dialect word ≡ Some keyword ↔ (keyword_at word ≡ Some keyword) × (knows dialect keyword ≡ true) }
    ensures plain { (word : List ℕ) → keyword_in Dialect.Plain word ≡ None ↔ (keyword_in Dialect.Runs word ≡ None) ⊎ (keyword_in Dialect.Races word ≡ None) }
    ensures runs { (keyword_in Dialect.Runs (codes "var") ≡ None) × (keyword_in Dialect.Runs (codes "read") ≡ None) × (keyword_in Dialect.Runs (codes "write") ≡ None) }
    ensures races { (keyword_in Dialect.Races (codes "sema") ≡ None) × (keyword_in Dialect.Races (codes "acquire") ≡ None) × (keyword_in Dialect.Races (codes "tryacquire") ≡ None) × (keyword_in Dialect.Races (codes "release") ≡ None)
        × (keyword_in Dialect.Races (codes "flight") ≡ None) × (keyword_in Dialect.Races (codes "fly") ≡ None) }
    ensures others_of_plain { (word : List ℕ) → (keyword_in Dialect.Plain word ≡ keyword_at word) ⊎ ((word ≡ codes "var") ⊎ (word ≡ codes "read") ⊎ (word ≡ codes "write") ⊎ (word ≡ codes "sema") ⊎ (word ≡ codes "acquire") ⊎ (word ≡ codes "tryacquire")
        ⊎ (word ≡ codes "release") ⊎ (word ≡ codes "flight") ⊎ (word ≡ codes "fly")) }
    ensures others_of_runs { (word : List ℕ) → (keyword_in Dialect.Runs word ≡ keyword_at word) ⊎ ((word ≡ codes "var") ⊎ (word ≡ codes "read") ⊎ (word ≡ codes "write")) }
    ensures others_of_races { (word : List ℕ) → (keyword_in Dialect.Races word ≡ keyword_at word) ⊎ ((word ≡ codes "sema") ⊎ (word ≡ codes "acquire") ⊎ (word ≡ codes "tryacquire") ⊎ (word ≡ codes "release") ⊎ (word ≡ codes "flight") ⊎ (word ≡ codes "fly")) }
{}

/// Only variables are read and written. So no object of a workload that has none has a read or a write.
pub fn only_variables_are_read_and_written()
    ensures variable { (objects : List ObjectLine) (kind : ObjectKind) (operation : Operation) → has_among objects kind operation ≡ true → is_access_operation operation ≡ is_variable kind }
    ensures none { (plan : Plan) (place : ℕ) (object : ObjectLine) (operation : Operation) → has_variables plan ≡ false → slice_get plan.objects place ≡ Some object → has_among plan.objects object.kind operation ≡ true → is_access_operation operation ≡ false }
{}

/// Two workloads with one canonical text are equal.
pub fn one_text()
    ensures { (p q : Plan) → IsReadable p → IsReadable q → canonical p ≡ canonical q → p ≡ q }
{}

/// The canonical lines of a schedule have eight items each, but for the last.
pub fn schedules_go_by_eights()
    ensures { (turns : List Turn) → 0 < length turns → eights 7 turns ≡ take 8 turns ∷ eights 7 (drop 8 turns) }
{}

/// Each keyword is read back from its word, and from no other word. No two keywords have one word.
pub fn keywords()
    ensures read { (keyword : Keyword) → keyword_at (keyword_word keyword) ≡ Some keyword }
    ensures spelled { (word : List ℕ) (keyword : Keyword) → keyword_at word ≡ Some keyword → word ≡ keyword_word keyword }
    ensures apart { (keyword other : Keyword) → keyword_word keyword ≡ keyword_word other → keyword ≡ other }
{}

/// The keys of a workload are those of its calls, and each has one number: its place among them. A key has a lower number
/// than another exactly where it appears before it, script by script from worker 0. There are as many numbers as different
/// keys.
pub fn keys_are_numbered_by_first_appearance()
    ensures keys { (scripts : List (List Call)) (name : List ℕ) → list_any (bytes_eq name) (keys_in scripts) ≡ list_any (bytes_eq name) (all_keys scripts) }
    ensures number { (scripts : List (List Call)) (name : List ℕ) (number : ℕ) → number_in (keys_in scripts) name ≡ Some number ↔ slice_get (keys_in scripts) number ≡ Some name }
    ensures named { (scripts : List (List Call)) (name : List ℕ) → list_any (bytes_eq name) (all_keys scripts) ≡ true → key_name (keys_in scripts) (key_number (keys_in scripts) name) ≡ name }
    ensures first { (scripts : List (List Call)) (name other : List ℕ) (at after number more : ℕ) → position_from (bytes_eq name) 0 (all_keys scripts) ≡ Some at → position_from (bytes_eq other) 0 (all_keys scripts) ≡ Some after → at < after
        → number_in (keys_in scripts) name ≡ Some number → number_in (keys_in scripts) other ≡ Some more → number < more }
    ensures count { (scripts : List (List Call)) → length (keys_in scripts) ≡ distinct_count (all_keys scripts) }
{}

/// A word that is a number below 2^64 is the decimal of what its digits stand for.
pub fn numbers()
    ensures { (word : List ℕ) → is_number word ≡ true → number_of word < 2 ^ 64 → decimal (number_of word) ≡ word }
{}

/// Of checks one behind the other the first that fails is the fault: where some fail, those behind them don't
/// count, and where all pass, those behind them do.
pub fn checks_go_in_order()
    ensures fails { (xs ys : List Check) (reason : Reason) → first_failing xs ≡ Some reason → first_failing (xs ++ ys) ≡ Some reason }
    ensures passes { (xs ys : List Check) → first_failing xs ≡ None → first_failing (xs ++ ys) ≡ first_failing ys }
{}

/// A name that is declared finds an object of this kind at this place.
pub fn names_find_their_objects()
    ensures { (draft : Draft) (name : List ℕ) (found : Declared) → declared draft name ≡ Some found → (object : ObjectLine) × (slice_get draft.plan.objects found.place ≡ Some object) × (object.kind ≡ found.kind) }
{}

/// A call that its object has among those of the draft, with its numbers in range, its second name, if it has one, that of
/// the second object, and the worker that it starts, if it starts one, a waiting one that no call starts yet: it passes the
/// checks of the words that it is printed as. The keys among these words and the number of waits that they say are its own,
/// and its word says whether it is a `range`, and whether it reads or writes a plain variable.
pub fn calls_pass_their_checks()
    ensures passes { (draft : Draft) (kind : ObjectKind) (second : Option (List ℕ)) (operation : Operation) → has_among draft.plan.objects kind operation ≡ true → names_second draft operation second ≡ true → may_start draft operation ≡ true → is_operation operation ≡ true
        → first_failing (form_words draft (call_form draft (verb_of operation) kind (option_to_list second ++ operands_of operation)) (option_to_list second ++ operands_of operation)) ≡ None }
    ensures keys { (draft : Draft) (kind : ObjectKind) (second : Option (List ℕ)) (operation : Operation) → has_among draft.plan.objects kind operation ≡ true → names_second draft operation second ≡ true → may_start draft operation ≡ true → is_operation operation ≡ true
        → keys_among (call_form draft (verb_of operation) kind (option_to_list second ++ operands_of operation)) (option_to_list second ++ operands_of operation) ≡ operation_keys operation }
    ensures tries { (draft : Draft) (kind : ObjectKind) (second : Option (List ℕ)) (operation : Operation) → has_among draft.plan.objects kind operation ≡ true → names_second draft operation second ≡ true → may_start draft operation ≡ true → is_operation operation ≡ true
        → tries_among (call_form draft (verb_of operation) kind (option_to_list second ++ operands_of operation)) (option_to_list second ++ operands_of operation) ≡ tries_of operation }
    ensures ranges { (operation : Operation) → count_by is_range_operation (operation ∷ []) ≡ ranges_in (verb_of operation) }
    ensures accesses { (operation : Operation) → count_by is_access_operation (operation ∷ []) ≡ accesses_in (verb_of operation) }
{}

/// The limits of a text by their numbers, of which the grammar speaks by name.
pub fn limits()
    ensures texts { (MAX_INPUT ≡ 8388608) × (MAX_LINE ≡ 200) × (MAX_NAME ≡ 32) }
    ensures workers { (MAX_WORKERS ≡ 32) × (MAX_CALLS ≡ 20000) × (MAX_RANGES ≡ 64) × (MAX_TURNS ≡ 100000) }
    ensures objects { (MAX_MAPS ≡ 16) × (MAX_ATOMICS ≡ 64) × (MAX_OTHERS ≡ 32) × (MAX_KEYS ≡ 4096) }
    ensures passes { MAX_PASSES ≡ 1000 }
    ensures sizes { MAX_SIZE ≡ 1000000 }
    ensures tries { (MAX_TRIES ≡ 1000) × (MAX_ALL_TRIES ≡ 20000) }
    ensures variables { MAX_ACCESSES ≡ 1000 }
    ensures numbers { (MAX_AMOUNT ≡ 10000) × (MAX_CODE ≡ 1000) × (MAX_VALUE ≡ 2 ^ 63 - 1) }
{}

/// A worker waits to be started exactly where a line of the text is `dormant` and its number. So nobody does in a text
/// without a line that begins with `dormant`.
pub fn dormant_lines_say_who_waits()
    ensures each { (dialect : Dialect) (bytes : List ℕ) (plan : Plan) (worker : ℕ) → ReadsIn dialect bytes plan → worker < plan.workers → is_dormant plan worker ≡ list_any (λ line. names_dormant worker (words_of line)) (lines_of bytes) }
    ensures any { (dialect : Dialect) (bytes : List ℕ) (plan : Plan) → ReadsIn dialect bytes plan → has_dormant plan ≡ list_any (λ line. begins_dormant (words_of line)) (lines_of bytes) }
    ensures nobody { (plan : Plan) → has_dormant plan ≡ false ↔ ((worker : ℕ) → is_dormant plan worker ≡ false) }
{}

/// A workload has at most 16 maps, 64 atomics, and 32 objects of each of the eleven other words.
pub fn a_workload_has_few_objects()
    ensures { (plan : Plan) → IsReadable plan → length plan.objects ≤ MAX_MAPS + (MAX_ATOMICS + 11 * MAX_OTHERS) }
{}

/// In a workload that has a text a semaphore has a size from 1 to 1,000,000. Each `acquire`, `tryacquire` and `release` is one of a
/// semaphore, with a weight from 1 to its size.
pub fn each_weight_is_at_most_its_semaphores_size()
    ensures sizes { (plan : Plan) (place size : ℕ) (object : ObjectLine) → IsReadable plan → slice_get plan.objects place ≡ Some object → object.kind ≡ ObjectKind.Sema size → (0 < size) × (size ≤ MAX_SIZE) }
    ensures weights { (plan : Plan) (at place : ℕ) (script : List Call) (call : Call) (sema : SemaCall) → IsReadable plan → slice_get plan.scripts at ≡ Some script → slice_get script place ≡ Some call
        → call.operation ≡ Operation.Sema sema → (size : ℕ) × (object : ObjectLine) × (slice_get plan.objects call.object ≡ Some object) × (object.kind ≡ ObjectKind.Sema size) × (0 < sema_weight sema) × (sema_weight sema ≤ size) }
{}

/// In a workload that has a text each `fly` is one of a group of flights, whose function adds to an int64, and its key is a name.
pub fn each_fly_is_on_a_group_of_flights()
    ensures { (plan : Plan) (at place : ℕ) (script : List Call) (call : Call) (key : List ℕ) → IsReadable plan → slice_get plan.scripts at ≡ Some script → slice_get script place ≡ Some call
        → call.operation ≡ Operation.Fly key → (atomic : ℕ) × (delta : ℤ) × (object : ObjectLine) × (number : ObjectLine) × (slice_get plan.objects call.object ≡ Some object) × (object.kind ≡ ObjectKind.Flight atomic delta)
        × (slice_get plan.objects atomic ≡ Some number) × (number.kind ≡ ObjectKind.Atomic AtomicKind.Int64) × (is_name key ≡ true) }
{}

/// In a workload that has a text each `go` is one of a wait group and starts a worker that waits to be started. No two start the
/// same worker.
pub fn each_go_starts_one_that_waits()
    ensures waits { (plan : Plan) (at place worker : ℕ) (script : List Call) (call : Call) → IsReadable plan → slice_get plan.scripts at ≡ Some script → slice_get script place ≡ Some call
        → call.operation ≡ Operation.Composed (ComposedCall.Go worker) → (worker < plan.workers) × (is_dormant plan worker ≡ true) }
    ensures group { (plan : Plan) (at place worker : ℕ) (script : List Call) (call : Call) → IsReadable plan → slice_get plan.scripts at ≡ Some script → slice_get script place ≡ Some call
        → call.operation ≡ Operation.Composed (ComposedCall.Go worker) → (start : ℕ) × (object : ObjectLine) × (slice_get plan.objects call.object ≡ Some object) × (object.kind ≡ ObjectKind.WaitGroup start) }
    ensures one { (plan : Plan) (at after place other worker : ℕ) (script later : List Call) (call another : Call) → IsReadable plan
        → slice_get plan.scripts at ≡ Some script → slice_get script place ≡ Some call → call.operation ≡ Operation.Composed (ComposedCall.Go worker)
        → slice_get plan.scripts after ≡ Some later → slice_get later other ≡ Some another → another.operation ≡ Operation.Composed (ComposedCall.Go worker)
        → (at ≡ after) × (place ≡ other) }
{
    who_starts_whom();
}
