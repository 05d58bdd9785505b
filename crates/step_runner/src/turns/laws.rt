//! What a turn keeps at the objects of a run, whatever the workload, and what it uses up.
ghost use Rattle.std.specs.Prelude.{◌≡◌, ◌≢◌, ℕ, ◌<◌, ◌≤◌, true, false, List, [], ◌++◌, Option, Some, map, slice_get, sum_by};
ghost use Rattle.sync_types.specs.declared.atomic_object.Number.{Number};
ghost use Rattle.script_calls.specs.declared.call.Call.{Call};
ghost use Rattle.script_calls.specs.declared.call.ComposedCall.{ComposedCall};
ghost use Rattle.script_calls.specs.declared.call.Operation.TheVariants as operations;
ghost use Rattle.pool_core.specs.PoolMachine as pool;
ghost use Rattle.pool_core.specs.declared.pool_event.PoolEvent.{PoolEvent};
ghost use Rattle.pool_core.specs.declared.pool_event.PoolReply.{PoolReply};
ghost use Rattle.workload.specs.declared.object.ObjectKind.{ObjectKind};
ghost use Rattle.workload.specs.Draft.{keys_of, distinct_count};
ghost use Rattle.workload.specs.Keys.{with_names};
ghost use Rattle.step_runner.specs.MachinesStand.{MachinesStand};
ghost use Rattle.step_runner.specs.declared.turns.object_state.ObjectState.{ObjectState};
ghost use Rattle.step_runner.specs.declared.turns.object_state.ObjectState.TheVariants as states;
ghost use Rattle.step_runner.specs.AtomicRange.{IsInRange};
ghost use Rattle.step_runner.specs.TurnsLeft.{turns_left, TakesBy, told_at, is_told, TellsOwn};
ghost use Rattle.step_runner.specs.LeadsTo.{on_object, LeadsTo};
ghost use Rattle.step_runner.specs.Completes.{takes_one_turn, IsCompleted};
ghost use Rattle.step_runner.specs.declared.turns.item.Item.{Item};
ghost use Rattle.step_runner.specs.Items.{items_at, goes_back, unlocks};
ghost use Rattle.step_runner.specs.MapKeys.{AreAmong, HasObjectKeysIn};
ghost use Rattle.step_runner.specs.ObjectLeft.{object_left, UsesBy};
ghost use Rattle.step_runner.specs.Objects.{new_object, kind_of, IsMachineOf, EachAt};
ghost use Rattle.step_runner.specs.Pairs.{ShowsTo};
ghost use Rattle.step_runner.specs.PlacedCalls.{is_placed, IsAnswered, IsTested};
ghost use Rattle.step_runner.specs.PoolRoom.{put_of, HasRoomFor, left_behind};
ghost use Rattle.step_runner.specs.Ready.{IsReady};
ghost use Rattle.step_runner.specs.ReplyForm.{HasForm};
ghost use Rattle.step_runner.specs.Stands.{IsOutAt, IsOutBut, waits_at, waits_behind};
ghost use Rattle.step_runner.specs.TurnAtObjects.{turn_at};

pub mod spelling;
pub mod spelling_within;
pub mod within;

use crate::turns::turn_kind::TurnKind;
use script_calls::laws::replies_have_their_form;
use sema_core::SemaCore;
use sync_types::Name;
use sync_types::laws::atomics::calls_keep_the_type;
use wait_cores::GroupCore;

/// An object begins as one of its kind, with a machine that is ready for the workers' turns. A turn keeps
/// the kind of each object, and leaves each machine ready; so whoever is ready for a call is ready behind it.
pub fn turns_keep_kinds_and_machines()
    ensures begins { (workers room : ℕ) (keys : List (List ℕ)) (kind : ObjectKind) → (kind_of (new_object workers room keys kind) ≡ kind) × IsMachineOf workers (new_object workers room keys kind) }
    ensures kinds { (workers worker moment : ℕ) (call : Call) (objects : List ObjectState) → IsReady workers worker call objects → map kind_of (turn_at call worker moment objects).0 ≡ map kind_of objects }
    ensures machines { (workers worker moment : ℕ) (call : Call) (objects : List ObjectState) → IsReady workers worker call objects → EachAt (λ place. IsMachineOf workers) objects
        → EachAt (λ place. IsMachineOf workers) (turn_at call worker moment objects).0 }
    ensures ready { (workers worker moment other : ℕ) (call own : Call) (objects : List ObjectState) → IsReady workers worker call objects → IsReady workers other own objects
        → IsReady workers other own (turn_at call worker moment objects).0 }
{
    mutex_core::laws::validity();
    rw_core::laws::validity();
    wait_cores::laws::notify::answers_its_callers();
    wait_cores::laws::group::knows_where_it_stands();
    wait_cores::laws::once::knows_where_it_stands::<i64>();
    wait_cores::laws::once::knows_where_it_stands::<u64>();
    sema_core::laws::knows_where_it_stands();
    flight_core::laws::knows_where_it_stands();
    pool_core::laws::keeps_its_parts();
}

/// What the laws of the machines say of where callers stand, what they are answered, and what the events of wait groups,
/// onces, semaphores and flights use up: `MachinesStand` has them together.
pub fn machines_tell_where_callers_stand()
    ensures { MachinesStand }
{
    mutex_core::laws::moves();
    mutex_core::laws::standing();
    rw_core::laws::moves();
    rw_core::laws::standing();
    rw_core::laws::still();
    wait_cores::laws::notify::answers_its_callers();
    wait_cores::laws::notify::knows_where_it_stands();
    wait_cores::laws::notify::still();
    GroupCore::turn_laws();
    wait_cores::laws::once::knows_where_it_stands::<i64>();
    wait_cores::laws::once::still::<i64>();
    wait_cores::laws::once::events_are_used_up::<i64>();
    wait_cores::laws::once::knows_where_it_stands::<u64>();
    wait_cores::laws::once::still::<u64>();
    wait_cores::laws::once::events_are_used_up::<u64>();
    SemaCore::turn_laws();
    flight_core::laws::knows_where_it_stands();
    flight_core::laws::still();
    flight_core::laws::events_are_used_up();
}

/// A turn without an event changes no object. One that completes its call raises what is left to do at the
/// objects by less than 4, and one after which the call has not returned lowers it. Of a misuse nothing is
/// said.
pub fn turns_use_something_up()
    ensures { (workers worker moment : ℕ) (call : Call) (objects : List ObjectState) → IsReady workers worker call objects
        → UsesBy (sum_by object_left objects) (sum_by object_left (turn_at call worker moment objects).0) ((turn_at call worker moment objects).0 ≡ objects) (turn_at call worker moment objects).1 }
{
    machines_tell_where_callers_stand();
    mutex_core::laws::events_are_used_up();
    rw_core::laws::events_are_used_up();
    wait_cores::laws::notify::events_are_used_up();
}

/// A turn on a map, an atomic or a pool that has the call completes it.
pub fn some_calls_take_one_turn()
    ensures { (workers worker moment : ℕ) (call : Call) (objects : List ObjectState) → takes_one_turn call.operation ≡ true → IsReady workers worker call objects → IsCompleted (turn_at call worker moment objects).1 }
{}

/// A worker is out at every mutex and reader/writer mutex but the one at which its call waits: so an object begins, and so
/// any turn leaves it, its own and another's. A call that is completed waits nowhere. And the reply by which a turn completes
/// its call has the form of that call's replies.
pub fn workers_stand_in_their_calls()
    ensures begins { (worker workers room : ℕ) (keys : List (List ℕ)) (kind : ObjectKind) → IsOutAt worker (new_object workers room keys kind) }
    ensures own { (workers worker moment : ℕ) (call : Call) (objects : List ObjectState) → IsReady workers worker call objects → IsOutBut (waits_at (map kind_of objects) call) worker objects
        → IsOutBut (waits_behind (turn_at call worker moment objects).1 (waits_at (map kind_of objects) call)) worker (turn_at call worker moment objects).0 }
    ensures others { (workers worker other moment : ℕ) (call : Call) (but : Option ℕ) (objects : List ObjectState) → IsReady workers other call objects → worker ≢ other → IsOutBut but worker objects
        → IsOutBut but worker (turn_at call other moment objects).0 }
    ensures forms { (workers worker moment : ℕ) (call : Call) (objects : List ObjectState) → IsReady workers worker call objects → IsOutBut (waits_at (map kind_of objects) call) worker objects
        → HasForm call.operation (turn_at call worker moment objects).1 }
{
    machines_tell_where_callers_stand();
    replies_have_their_form::<Name, u32>();
}

/// An atomic begins in the range of its type, and a turn leaves each atomic in it.
pub fn numbers_stay_in_range()
    ensures begins { (workers room : ℕ) (keys : List (List ℕ)) (kind : ObjectKind) → IsInRange (new_object workers room keys kind) }
    ensures goes_on { (workers worker moment : ℕ) (call : Call) (objects : List ObjectState) → IsReady workers worker call objects → EachAt (λ place. IsInRange) objects
        → EachAt (λ place. IsInRange) (turn_at call worker moment objects).0 }
{
    calls_keep_the_type();
}

/// A map begins with no key, and a group of flights with the numbers of some names. Where the keys of maps and of the call are among these names,
/// so they are behind the turn, and its reply shows no more pairs than there are different names; and each group keeps its numbers.
pub fn maps_keep_to_the_keys_of_calls()
    ensures begins { (names : List (List ℕ)) (workers room : ℕ) (kind : ObjectKind) → HasObjectKeysIn names (new_object workers room (with_names [] names) kind) }
    ensures goes_on { (names : List (List ℕ)) (most worker moment : ℕ) (call : Call) (objects : List ObjectState) → AreAmong names (keys_of call) → distinct_count names ≤ most
        → EachAt (λ place. HasObjectKeysIn names) objects → EachAt (λ place. HasObjectKeysIn names) (turn_at call worker moment objects).0 × ShowsTo most (turn_at call worker moment objects).1 }
{}

/// A pool begins with room for as many puts as its parts have. A turn leaves each pool room for the puts that
/// are left to make on it, and a put for which there is room is kept.
pub fn pools_have_room()
    ensures begins { (workers room : ℕ) (keys : List (List ℕ)) (kind : ObjectKind) → HasRoomFor room (new_object workers room keys kind) }
    ensures goes_on { (worker moment : ℕ) (left : ℕ → ℕ) (call : Call) (objects : List ObjectState) → put_of call.object call ≤ left call.object → EachAt (λ place. HasRoomFor (left place)) objects
        → EachAt (λ place. HasRoomFor (left_behind (turn_at call worker moment objects).1 (put_of place call) (left place))) (turn_at call worker moment objects).0 }
    ensures kept { (worker item left : ℕ) (p : pool.PoolState ℕ) → worker < pool.callers_of p → 1 ≤ left → HasRoomFor left (states.Pool p) → (pool.next p worker (PoolEvent.Put item)).1 ≡ PoolReply.Kept }
{}

/// Of a call's turns with an event at most four are left, but those with which its worker goes back to the queue of a mutex:
/// its own turn that completes no call takes one of them, unless the worker goes back, and another's gives none.
/// A worker goes back only where it was told to go on, and isn't told any more then. Only another's turn tells it that
/// unlocks, and nobody tells a worker that is out.
pub fn few_turns_are_left_of_a_call()
    ensures most { (worker : ℕ) (call : Call) (objects : List ObjectState) → turns_left (map kind_of objects) call worker objects ≤ 4 }
    ensures own { (workers worker moment : ℕ) (call : Call) (objects : List ObjectState) → IsReady workers worker call objects
        → TakesBy (goes_back (items_at call worker moment objects)) (turns_left (map kind_of objects) call worker objects) (turns_left (map kind_of objects) call worker (turn_at call worker moment objects).0) (turn_at call worker moment objects).1 }
    ensures others { (workers worker other moment : ℕ) (own call : Call) (objects : List ObjectState) → IsReady workers other call objects → worker ≢ other
        → turns_left (map kind_of objects) own worker (turn_at call other moment objects).0 ≤ turns_left (map kind_of objects) own worker objects }
    ensures told_before { (workers worker moment : ℕ) (call : Call) (objects : List ObjectState) → IsReady workers worker call objects
        → TellsOwn (goes_back (items_at call worker moment objects)) (is_told (map kind_of objects) call worker objects) (is_told (map kind_of objects) call worker (turn_at call worker moment objects).0) }
    ensures told_by_unlocks { (workers worker other moment : ℕ) (own call : Call) (objects : List ObjectState) → IsReady workers other call objects → worker ≢ other
        → is_told (map kind_of objects) own worker objects ≡ false → is_told (map kind_of objects) own worker (turn_at call other moment objects).0 ≡ true → unlocks (items_at call other moment objects) ≡ true }
    ensures untold { (worker : ℕ) (object : ObjectState) → IsOutAt worker object → told_at worker object ≡ false }
{
    machines_tell_where_callers_stand();
}

/// The items that a turn makes on an object lead from what it was to what it is behind the turn: a machine follows them, and a
/// call on a map or an atomic answers what the one-thread object answers. No items lead nowhere, and items lead on from where
/// earlier ones led to.
pub fn items_lead_from_turn_to_turn()
    ensures turn { (workers worker moment place : ℕ) (call : Call) (objects : List ObjectState) (old new : ObjectState) → IsReady workers worker call objects → slice_get objects place ≡ Some old
        → slice_get (turn_at call worker moment objects).0 place ≡ Some new → LeadsTo old (on_object place (items_at call worker moment objects)) new }
    ensures nowhere { (object : ObjectState) → LeadsTo object [] object }
    ensures on { (first middle last : ObjectState) (earlier later : List Item) → LeadsTo first earlier middle → LeadsTo middle later last → LeadsTo first (earlier ++ later) last }
{}

/// A turn before a call of a map or an atomic makes the call whole, by one item on the call's object: the call is placed there, and
/// the reply in the item is the one by which the turn completes the call.
pub fn a_placed_call_is_one_item()
    ensures { (workers worker moment : ℕ) (call : Call) (objects : List ObjectState) → IsReady workers worker call objects → is_placed call.operation ≡ true
        → IsAnswered call worker (items_at call worker moment objects) (turn_at call worker moment objects).1 }
{}

/// A turn before an `ifeq` makes one load of its atomic, of what the atomic holds, and completes the call: it answers whether that is
/// the value.
pub fn an_ifeq_is_one_load()
    ensures { (workers worker moment : ℕ) (call : Call) (objects : List ObjectState) (value : Number) (passes : ℕ) → IsReady workers worker call objects → call.operation ≡ operations.Composed (ComposedCall.IfEqual value passes)
        → IsTested call value worker objects (items_at call worker moment objects) (turn_at call worker moment objects).1 }
{}
