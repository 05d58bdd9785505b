//! What the items of a turn spell of its call, of whose waits its worker has begun so many: what a turn at its objects spells, also where
//! a `waitfor` makes several of them, or none, in one, and where a `go` starts a worker behind it.
ghost use Rattle.std.specs.Prelude.{◌≡◌, ◌≢◌, ℕ, ◌+◌, ◌==◌, None, List, [], filter, map, length, false};
ghost use Rattle.script_calls.specs.declared.call.Call.{Call};
ghost use Rattle.script_calls.specs.declared.call.Reply.{Reply};
ghost use Rattle.protocols.specs.Spelling.{CallAnswer};
ghost use Rattle.workload.specs.Draft.{all_keys, is_access_operation};
ghost use Rattle.workload.specs.Plan.{Plan};
ghost use Rattle.run_record.specs.Calls.{SpellsCall};
ghost use Rattle.run_record.specs.Record.{shared_in};
ghost use Rattle.run_record.specs.declared.made.Made.{Made};
ghost use Rattle.step_runner.specs.declared.turns.object_state.ObjectState.{ObjectState};
ghost use Rattle.step_runner.specs.MapKeys.{HasObjectKeysIn};
ghost use Rattle.step_runner.specs.Objects.{kind_of, EachAt};
ghost use Rattle.step_runner.specs.Recorded.{recorded};
ghost use Rattle.step_runner.specs.Stands.{IsOutBut};
ghost use Rattle.step_runner.specs.StandsWithin.{IsReadyWithin, waits_within, IsWithinCall, StandsAfter, left_within};
ghost use Rattle.step_runner.specs.Tells.{Tells};
ghost use Rattle.step_runner.specs.TurnWithin.{turn_within, items_within};
ghost use Rattle.step_runner.specs.Within.{IsIdle};

use crate::turns::laws::spelling::{
    calls_are_entered_whole, items_are_their_workers, turns_spell_their_calls,
};
use crate::turns::laws::{
    machines_tell_where_callers_stand, maps_keep_to_the_keys_of_calls,
    turns_keep_kinds_and_machines, workers_stand_in_their_calls,
};

/// The items of a worker's turn spell what was left of its call, unless that reads or writes a plain variable, up to what is left behind the turn. So a turn that completes the
/// call spells all that was left, and its reply is read off the items. Another's turn leaves of the call what it was.
pub fn turns_spell_what_was_left()
    ensures own { (plan : Plan) (worker before moment begun : ℕ) (call : Call) (objects : List ObjectState) → IsReadyWithin plan.workers worker call objects → is_access_operation call.operation ≡ false
        → EachAt (λ place. HasObjectKeysIn (all_keys plan.scripts)) objects → IsOutBut (waits_within (map kind_of objects) call begun) worker objects → IsWithinCall worker call begun objects
        → Tells plan (left_within plan worker before call objects begun)
        (left_within plan worker (before + length (shared_in (recorded plan before (items_within call worker moment begun objects)))) call (turn_within call worker moment begun objects).0.0 (turn_within call worker moment begun objects).0.1)
        (recorded plan before (items_within call worker moment begun objects)) (turn_within call worker moment begun objects).1
        × StandsAfter worker call (turn_within call worker moment begun objects).1 (turn_within call worker moment begun objects).0.1 (turn_within call worker moment begun objects).0.0 }
    ensures others { (plan : Plan) (worker other before moment begun later : ℕ) (own call : Call) (objects : List ObjectState) → IsReadyWithin plan.workers worker own objects → IsReadyWithin plan.workers other call objects → worker ≢ other
        → (IsWithinCall worker own begun objects → IsWithinCall worker own begun (turn_within call other moment later objects).0.0)
        × ((items : List Made) (answer : CallAnswer (Reply ℕ)) → left_within plan worker before own (turn_within call other moment later objects).0.0 begun items answer → left_within plan worker before own objects begun items answer) }
    ensures idle { (workers worker other moment begun : ℕ) (call : Call) (objects : List ObjectState) → IsReadyWithin workers other call objects → worker ≢ other
        → EachAt (λ place. IsIdle worker) objects → EachAt (λ place. IsIdle worker) (turn_within call other moment begun objects).0.0 }
{
    turns_keep_kinds_and_machines();
    machines_tell_where_callers_stand();
    workers_stand_in_their_calls();
    maps_keep_to_the_keys_of_calls();
    turns_spell_their_calls();
}

/// A worker that stands nowhere enters its next call with all of it left: whatever items spell what is left, spell the call. What is
/// left of any other call than a read or a write of a plain variable can always be spelt.
pub fn calls_begin_whole()
    ensures enters { (plan : Plan) (worker before : ℕ) (call : Call) (objects : List ObjectState) → IsReadyWithin plan.workers worker call objects → map kind_of objects ≡ map (λ line. line.kind) plan.objects
        → EachAt (λ place. IsIdle worker) objects → IsOutBut None worker objects
        → IsWithinCall worker call 0 objects × ((items : List Made) (answer : CallAnswer (Reply ℕ)) → left_within plan worker before call objects 0 items answer → SpellsCall plan worker before call items answer) }
    ensures goes_on { (plan : Plan) (worker before begun : ℕ) (call : Call) (objects : List ObjectState) → IsReadyWithin plan.workers worker call objects → is_access_operation call.operation ≡ false
        → (later : List Made) × (answer : CallAnswer (Reply ℕ)) × left_within plan worker before call objects begun later answer }
{
    calls_are_entered_whole();
}

/// All items of a turn are its worker's.
pub fn items_are_of_their_workers()
    ensures own { (worker moment begun : ℕ) (call : Call) (objects : List ObjectState) → filter (λ item. item.caller == worker) (items_within call worker moment begun objects) ≡ items_within call worker moment begun objects }
    ensures others { (worker other moment begun : ℕ) (call : Call) (objects : List ObjectState) → worker ≢ other → filter (λ item. item.caller == other) (items_within call worker moment begun objects) ≡ [] }
{
    items_are_their_workers();
}
