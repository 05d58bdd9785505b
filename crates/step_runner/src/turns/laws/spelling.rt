//! What the items of a turn spell of its call, in the words of a record. It is said with what is left of the call to be spelt, by
//! where its worker stands.
ghost use Rattle.std.specs.Prelude.{◌≡◌, ◌≢◌, ℕ, ◌+◌, ◌==◌, None, List, [], filter, map, length, false};
ghost use Rattle.script_calls.specs.declared.call.Call.{Call};
ghost use Rattle.script_calls.specs.declared.call.Reply.{Reply};
ghost use Rattle.protocols.specs.Spelling.{CallAnswer};
ghost use Rattle.workload.specs.declared.object.ObjectKind.{ObjectKind};
ghost use Rattle.workload.specs.Draft.{all_keys, is_access_operation};
ghost use Rattle.workload.specs.Plan.{Plan};
ghost use Rattle.run_record.specs.Calls.{SpellsCall};
ghost use Rattle.run_record.specs.Record.{shared_in};
ghost use Rattle.run_record.specs.declared.made.Made.{Made};
ghost use Rattle.step_runner.specs.declared.turns.object_state.ObjectState.{ObjectState};
ghost use Rattle.step_runner.specs.Items.{items_at};
ghost use Rattle.step_runner.specs.MapKeys.{HasObjectKeysIn};
ghost use Rattle.step_runner.specs.Objects.{new_object, kind_of, EachAt};
ghost use Rattle.step_runner.specs.Ready.{IsReady};
ghost use Rattle.step_runner.specs.Stands.{IsOutBut, waits_at};
ghost use Rattle.step_runner.specs.TurnAtObjects.{turn_at};
ghost use Rattle.step_runner.specs.Left.{left_at};
ghost use Rattle.step_runner.specs.Recorded.{recorded};
ghost use Rattle.step_runner.specs.Tells.{Tells};
ghost use Rattle.step_runner.specs.Within.{IsIdle, IsWithin, StandsBehind};

use crate::turns::laws::{machines_tell_where_callers_stand, turns_keep_kinds_and_machines};
use workload::laws::keys_are_numbered_by_first_appearance;

/// The items of a worker's turn spell what was left of its call, unless that reads or writes a plain variable, up to what is left behind the turn. So a turn that completes the
/// call spells all that was left, and its reply is read off the items. Another's turn leaves of the call what it was.
pub fn turns_spell_their_calls()
    ensures own { (plan : Plan) (worker before moment : ℕ) (call : Call) (objects : List ObjectState) → IsReady plan.workers worker call objects → is_access_operation call.operation ≡ false
        → EachAt (λ place. HasObjectKeysIn (all_keys plan.scripts)) objects → IsOutBut (waits_at (map kind_of objects) call) worker objects → IsWithin worker call objects
        → Tells plan (left_at plan worker before call objects) (left_at plan worker (before + length (shared_in (recorded plan before (items_at call worker moment objects)))) call (turn_at call worker moment objects).0)
        (recorded plan before (items_at call worker moment objects)) (turn_at call worker moment objects).1
        × StandsBehind worker call (turn_at call worker moment objects).1 (turn_at call worker moment objects).0 }
    ensures others { (plan : Plan) (worker other before moment : ℕ) (own call : Call) (objects : List ObjectState) → IsReady plan.workers worker own objects → IsReady plan.workers other call objects → worker ≢ other
        → (IsWithin worker own objects → IsWithin worker own (turn_at call other moment objects).0)
        × ((later : List Made) (answer : CallAnswer (Reply ℕ)) → left_at plan worker before own (turn_at call other moment objects).0 later answer → left_at plan worker before own objects later answer) }
    ensures idle { (workers worker other moment : ℕ) (call : Call) (objects : List ObjectState) → IsReady workers other call objects → worker ≢ other
        → EachAt (λ place. IsIdle worker) objects → EachAt (λ place. IsIdle worker) (turn_at call other moment objects).0 }
{
    turns_keep_kinds_and_machines();
    machines_tell_where_callers_stand();
    pool_core::laws::keeps_its_parts();
    keys_are_numbered_by_first_appearance();
}

/// A worker stands nowhere when a run begins. One that stands nowhere enters its next call with all of it left: whatever items
/// spell what is left, spell the call. What is left of any other
/// call than a read or a write of a plain variable can always be spelt.
pub fn calls_are_entered_whole()
    ensures begins { (worker workers room : ℕ) (keys : List (List ℕ)) (kind : ObjectKind) → IsIdle worker (new_object workers room keys kind) }
    ensures enters { (plan : Plan) (worker before : ℕ) (call : Call) (objects : List ObjectState) → IsReady plan.workers worker call objects → map kind_of objects ≡ map (λ line. line.kind) plan.objects
        → EachAt (λ place. IsIdle worker) objects → IsOutBut None worker objects
        → IsWithin worker call objects × ((items : List Made) (answer : CallAnswer (Reply ℕ)) → left_at plan worker before call objects items answer → SpellsCall plan worker before call items answer) }
    ensures goes_on { (plan : Plan) (worker before : ℕ) (call : Call) (objects : List ObjectState) → IsReady plan.workers worker call objects → is_access_operation call.operation ≡ false
        → (later : List Made) × (answer : CallAnswer (Reply ℕ)) × left_at plan worker before call objects later answer }
{
    wait_cores::laws::notify::knows_where_it_stands();
    wait_cores::laws::group::knows_where_it_stands();
    wait_cores::laws::once::knows_where_it_stands::<i64>();
    wait_cores::laws::once::knows_where_it_stands::<u64>();
    sema_core::laws::knows_where_it_stands();
    flight_core::laws::knows_where_it_stands();
}

/// All items of a turn are its worker's.
pub fn items_are_their_workers()
    ensures own { (worker moment : ℕ) (call : Call) (objects : List ObjectState) → filter (λ item. item.caller == worker) (items_at call worker moment objects) ≡ items_at call worker moment objects }
    ensures others { (worker other moment : ℕ) (call : Call) (objects : List ObjectState) → worker ≢ other → filter (λ item. item.caller == other) (items_at call worker moment objects) ≡ [] }
{}
