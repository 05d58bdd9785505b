//! What the `dormant` lines of a workload say of a run. Each law is the contract of a function that does nothing.
ghost use Rattle.std.specs.Prelude.{◌≡◌, ◌≢◌, ◌↔◌, ℕ, ◌<◌, ◌≤◌, true, false, List, [], ◌∷◌, ◌++◌, Some, Ok, Err, slice_get, get_or};
ghost use Rattle.script_calls.specs.Starts.{start_count, group_of};
ghost use Rattle.starts_core.specs.declared.starts.StartEvent.TheVariants as starts;
ghost use Rattle.starts_core.specs.declared.starts.StartReply.TheVariants as answers;
ghost use Rattle.starts_core.specs.StartsLaws.{Log, StartInTurn};
ghost use Rattle.sync_model.specs.Front.{AtLeast};
ghost use Rattle.workload.specs.Plan.{Plan, is_dormant, has_dormant};
ghost use Rattle.run_record.specs.Calls.{SpellsCall};
ghost use Rattle.run_record.specs.Explains.{AreLines, IsRecordOf, IsAtEnd};
ghost use Rattle.run_record.specs.Lines.{Line, SpeltCall, Stay, whole, stayed, replies_of, IsLineOf};
ghost use Rattle.run_record.specs.Logs.{Shows};
ghost use Rattle.run_record.specs.Objects.{object_count, starts_number};
ghost use Rattle.run_record.specs.Plain.{plain_count, IsPlainLine};
ghost use Rattle.run_record.specs.Record.{Record, ObjectEntry, object_number, journal_of, list_of, calls_of, entries_in, front_of};
ghost use Rattle.run_record.specs.Starting.{IsGo, HasGone, HasMisused, HasMetHalt, IsOnStarts, EndsDone, IsDoneAt, ReturnsAt};

use crate::entered::{ObjectEvent, ObjectReply};
use crate::laws::returns::what_a_wait_group_call_has_done;
use crate::made::Made;
use script_calls::laws::who_starts_whom;
use script_calls::{Call, ComposedCall, Operation, Outcome, Reply};
use starts_core::StartsCore;
use starts_core::laws::{
    goes_when_started, synchronizes, workers_go_from_dormant_to_live_to_ended,
};
use sync_model::laws::journals::journal_is_log;
use sync_model::laws::logs::replies_are_the_machines;
use sync_model::{Answer, Deed};
use sync_types::{Misuse, WaitGroupCall};
use workload::{ObjectKind, ObjectLine};

/// In a workload none of whose workers waits to be started nothing stands before or behind a script: each list is the completed calls
/// and what stands behind them, the objects are Stop, the declared ones and the parts of pools, and a run that is done has come to the end
/// of each script.
pub fn where_nobody_waits_to_be_started_lists_are_of_calls()
    ensures lines { (plan : Plan) (worker : ℕ) (line : Line) → has_dormant plan ≡ false → IsLineOf plan worker line ↔ IsPlainLine plan worker line }
    ensures objects { (plan : Plan) → has_dormant plan ≡ false → object_count plan ≡ plain_count plan }
    ensures done { (plan : Plan) (worker : ℕ) (line : Line) → has_dormant plan ≡ false → IsLineOf plan worker line → IsAtEnd line.ending ↔ (line.ending ≡ whole) }
{}

/// A worker that doesn't wait to be started comes to its script at once.
pub fn who_does_not_wait_comes_to_its_script()
    ensures first { (plan : Plan) (worker : ℕ) (line : Line) → is_dormant plan worker ≡ false → IsLineOf plan worker line → line.first ≡ [] }
    ensures comes { (plan : Plan) (worker : ℕ) (line : Line) (stay : Stay) → is_dormant plan worker ≡ false → IsLineOf plan worker line → line.ending ≢ stayed stay }
{}

/// Nobody who wasn't started makes a call: a worker that didn't come to its script has no reply, no call on a map or an atomic, and no entry
/// in the journal of an object but Starts.
pub fn nobody_who_was_not_started_makes_a_call()
    ensures replies { (plan : Plan) (worker : ℕ) (line : Line) (stay : Stay) → IsLineOf plan worker line → line.ending ≡ stayed stay → replies_of line ≡ [] }
    ensures shared { (plan : Plan) (r : Record) (outcome : Outcome) (lines : List Line) (worker : ℕ) (line : Line) (stay : Stay)
        → AreLines plan r outcome lines → slice_get lines worker ≡ Some line → line.ending ≡ stayed stay → calls_of r worker ≡ [] }
    ensures entered { (plan : Plan) (r : Record) (outcome : Outcome) (lines : List Line) (worker object : ℕ) (line : Line) (stay : Stay)
        → AreLines plan r outcome lines → slice_get lines worker ≡ Some line → line.ending ≡ stayed stay → object ≢ starts_number plan → entries_in object (list_of r worker) ≡ [] }
{}

/// Whoever was started knows what its starter knew: where a worker that waits to be started comes to its script, another one has started it
/// before, in the journal of Starts, and all that that one knew then the worker knows from the last item before its script on.
pub fn who_was_started_knows_what_its_starter_knew()
    ensures { (plan : Plan) (r : Record) (outcome : Outcome) (lines : List Line) (worker : ℕ) (line : Line)
        → AreLines plan r outcome lines → IsRecordOf plan r → slice_get lines worker ≡ Some line → is_dormant plan worker ≡ true → ((stay : Stay) → line.ending ≢ stayed stay)
        → (m n : ℕ) × (start : ObjectEntry) × (leave : ObjectEntry) × (earlier : List Made) × (m < n) × (slice_get (journal_of r (starts_number plan)) m ≡ Some start) × (slice_get (journal_of r (starts_number plan)) n ≡ Some leave)
        × (start.deed ≡ Deed.Event (ObjectEvent.Starts (starts.Start worker)) (ObjectReply.Starts answers.Done)) × (start.caller ≢ worker) × (leave.deed ≡ Deed.Event (ObjectEvent.Starts starts.Leave) (ObjectReply.Starts answers.Go))
        × (line.first ≡ earlier ++ Made.Entered (starts_number plan) leave ∷ []) × AtLeast leave.front start.front }
{
    journal_is_log::<StartsCore>();
    goes_when_started();
    synchronizes();
}

/// A `go` that returned has added 1 to its group and then started its worker, and has done nothing else. One that is a misuse is the
/// addition alone, which was answered by it: nobody is started. One that met a halt met it at its group, or behind the addition at
/// Starts, and has started nobody either. Any such items are a `go`.
pub fn a_go_adds_and_then_starts()
    ensures returned { (plan : Plan) (worker before started : ℕ) (call : Call) (items : List Made) (reply : Reply ℕ)
        → IsGo plan call started → SpellsCall plan worker before call items (Answer.Done (Ok reply))
        → (reply ≡ Reply.Returned) × HasGone (object_number call.object) (starts_number plan) started items }
    ensures misused { (plan : Plan) (worker before started : ℕ) (call : Call) (items : List Made) (misuse : Misuse)
        → IsGo plan call started → SpellsCall plan worker before call items (Answer.Done (Err misuse)) → HasMisused (object_number call.object) misuse items }
    ensures halted { (plan : Plan) (worker before started : ℕ) (call : Call) (items : List Made) (misuse : Misuse)
        → IsGo plan call started → SpellsCall plan worker before call items (Answer.Halted misuse) → HasMetHalt (object_number call.object) (starts_number plan) started misuse items }
    ensures spells { (plan : Plan) (worker before started : ℕ) (call : Call) (items : List Made)
        → IsGo plan call started → HasGone (object_number call.object) (starts_number plan) started items → SpellsCall plan worker before call items (Answer.Done (Ok Reply.Returned)) }
    ensures spells_misuse { (plan : Plan) (worker before started : ℕ) (call : Call) (items : List Made) (misuse : Misuse)
        → IsGo plan call started → HasMisused (object_number call.object) misuse items → SpellsCall plan worker before call items (Answer.Done (Err misuse)) }
    ensures spells_halt { (plan : Plan) (worker before started : ℕ) (call : Call) (items : List Made) (misuse : Misuse)
        → IsGo plan call started → HasMetHalt (object_number call.object) (starts_number plan) started misuse items → SpellsCall plan worker before call items (Answer.Halted misuse) }
{}

/// Whoever was started is done on its group at last. A worker that waits to be started and has made a whole run was started by a `go`
/// of another worker's script, and its list ends with the `done` on a group, and its end on Starts. The group is that of the first
/// `go` of the text that starts it, so of the one that has, where the text has no other.
pub fn who_was_started_is_done_on_its_group()
    ensures started { (plan : Plan) (r : Record) (outcome : Outcome) (lines : List Line) (worker : ℕ) (line : Line)
        → AreLines plan r outcome lines → IsRecordOf plan r → slice_get lines worker ≡ Some line → is_dormant plan worker ≡ true → ((stay : Stay) → line.ending ≢ stayed stay)
        → (starter place group : ℕ) × (go : Call) × (starter ≢ worker) × (slice_get (get_or plan.scripts starter []) place ≡ Some go) × (go.operation ≡ Operation.Composed (ComposedCall.Go worker))
        × (group_of worker plan.scripts ≡ Some group) × (start_count worker plan.scripts ≤ 1 → group ≡ go.object) }
    ensures ends { (plan : Plan) (r : Record) (outcome : Outcome) (lines : List Line) (worker group : ℕ) (line : Line)
        → AreLines plan r outcome lines → slice_get lines worker ≡ Some line → is_dormant plan worker ≡ true → line.ending ≡ whole → group_of worker plan.scripts ≡ Some group
        → EndsDone (object_number group) (starts_number plan) (list_of r worker) }
{
    who_starts_whom();
    who_was_started_knows_what_its_starter_knew();
}

/// A wait knows what all that were started under its group had done. Each worker that was started, and has made a whole run, has its
/// `done` in the journal of its group, where it adds -1: of the group of a completed `go`, where the text has no other that starts it.
/// A `wait` on the group whose return stands behind it there knows from then on what the worker knew at its `done`, and so at all that
/// it made before.
pub fn a_wait_knows_what_all_that_were_started_under_it_had_done()
    ensures done { (plan : Plan) (r : Record) (outcome : Outcome) (lines : List Line) (worker group : ℕ) (line : Line)
        → AreLines plan r outcome lines → IsRecordOf plan r → slice_get lines worker ≡ Some line → is_dormant plan worker ≡ true → line.ending ≡ whole → group_of worker plan.scripts ≡ Some group
        → (place : ℕ) × IsDoneAt r (object_number group) (starts_number plan) worker place }
    ensures gone { (plan : Plan) (r : Record) (outcome : Outcome) (lines : List Line) (worker starter i : ℕ) (line before : Line) (go : SpeltCall)
        → AreLines plan r outcome lines → IsRecordOf plan r → slice_get lines worker ≡ Some line → is_dormant plan worker ≡ true → line.ending ≡ whole
        → slice_get lines starter ≡ Some before → slice_get before.spelt i ≡ Some go → IsGo plan go.call worker → start_count worker plan.scripts ≤ 1
        → (place : ℕ) × IsDoneAt r (object_number go.call.object) (starts_number plan) worker place }
    ensures returned { (plan : Plan) (r : Record) (outcome : Outcome) (lines : List Line) (worker i declared : ℕ) (line : Line) (wait : SpeltCall) (object : ObjectLine)
        → AreLines plan r outcome lines → IsRecordOf plan r → slice_get lines worker ≡ Some line → slice_get line.spelt i ≡ Some wait
        → slice_get plan.objects wait.call.object ≡ Some object → object.kind ≡ ObjectKind.WaitGroup declared → wait.call.operation ≡ Operation.WaitGroup WaitGroupCall.Wait
        → (place : ℕ) × ReturnsAt r (object_number wait.call.object) worker place wait.items }
    ensures knows { (plan : Plan) (r : Record) (worker waiter group starts m n : ℕ) (items : List Made) → IsRecordOf plan r
        → m < n → (gone : IsDoneAt r group starts worker m) → (back : ReturnsAt r group waiter n items)
        → AtLeast back.ends.last.front gone.ends.done.front × ((k : ℕ) (x : Made) → slice_get gone.ends.earlier k ≡ Some x → AtLeast back.ends.last.front (front_of x)) }
{
    who_starts_whom();
    what_a_wait_group_call_has_done();
    who_was_started_is_done_on_its_group();
}

/// Whoever is told that it is never started is told right: behind a `leave` answered `never`, in the journal of Starts, nobody goes any
/// more. For each worker starts others only between its going and its end, by its list, and so only while it is live.
pub fn never_is_for_good()
    ensures in_turn { (plan : Plan) (r : Record) (outcome : Outcome) (lines : List Line) → AreLines plan r outcome lines → IsRecordOf plan r
        → (log : Log) × Shows ObjectEvent.Starts ObjectReply.Starts (journal_of r (starts_number plan)) log × StartInTurn plan.dormant log }
    ensures nobody_goes { (plan : Plan) (r : Record) (outcome : Outcome) (lines : List Line) (m n : ℕ) (told going : ObjectEntry)
        → AreLines plan r outcome lines → IsRecordOf plan r → m < n → slice_get (journal_of r (starts_number plan)) m ≡ Some told → slice_get (journal_of r (starts_number plan)) n ≡ Some going
        → IsOnStarts starts.Leave answers.Never told → IsOnStarts starts.Leave answers.Go going → ⊥ }
{
    journal_is_log::<StartsCore>();
    replies_are_the_machines::<StartsCore>();
    workers_go_from_dormant_to_live_to_ended();
    starts_core::laws::never_is_for_good();
}
