//! What a turn of a worker keeps and uses up that stands before a call or within it: what a turn at its objects does, also where a
//! `waitfor` makes several of them, or none, in one, and where a `go` starts a worker behind it.
ghost use Rattle.std.specs.Prelude.{◌≡◌, ◌≢◌, ℕ, ◌≤◌, true, false, List, Option, Some, map, slice_get, sum_by};
ghost use Rattle.script_calls.specs.declared.call.Call.{Call};
ghost use Rattle.script_calls.specs.declared.call.ComposedCall.{ComposedCall};
ghost use Rattle.script_calls.specs.declared.call.Operation.TheVariants as operations;
ghost use Rattle.workload.specs.Draft.{keys_of, distinct_count, tries_of};
ghost use Rattle.step_runner.specs.declared.turns.object_state.ObjectState.{ObjectState};
ghost use Rattle.step_runner.specs.AtomicRange.{IsInRange};
ghost use Rattle.step_runner.specs.Completes.{takes_one_turn, IsCompleted};
ghost use Rattle.step_runner.specs.Goes.{HasGone};
ghost use Rattle.step_runner.specs.Items.{goes_back, unlocks};
ghost use Rattle.step_runner.specs.LeadsTo.{on_object, LeadsTo};
ghost use Rattle.step_runner.specs.MapKeys.{AreAmong, HasObjectKeysIn};
ghost use Rattle.step_runner.specs.ObjectLeft.{object_left};
ghost use Rattle.step_runner.specs.Objects.{kind_of, IsMachineOf, EachAt};
ghost use Rattle.step_runner.specs.Pairs.{ShowsTo};
ghost use Rattle.step_runner.specs.PoolRoom.{put_of, HasRoomFor, left_behind};
ghost use Rattle.step_runner.specs.ReplyForm.{HasForm};
ghost use Rattle.step_runner.specs.Stands.{IsOutBut, waits_behind};
ghost use Rattle.step_runner.specs.StandsWithin.{IsReadyWithin, waits_within, most_turns, turns_within, UsesWithin};
ghost use Rattle.step_runner.specs.TurnWithin.{turn_within, items_within};
ghost use Rattle.step_runner.specs.TurnsLeft.{TakesBy, is_told, TellsOwn};

use crate::turns::laws::{
    few_turns_are_left_of_a_call, machines_tell_where_callers_stand,
    maps_keep_to_the_keys_of_calls, numbers_stay_in_range, pools_have_room,
    some_calls_take_one_turn, turns_keep_kinds_and_machines, turns_use_something_up,
    workers_stand_in_their_calls,
};

/// A turn keeps the kind of each object, and leaves each machine ready.
pub fn kinds_and_machines_are_kept()
    ensures kinds { (workers worker moment begun : ℕ) (call : Call) (objects : List ObjectState) → IsReadyWithin workers worker call objects → map kind_of (turn_within call worker moment begun objects).0.0 ≡ map kind_of objects }
    ensures machines { (workers worker moment begun : ℕ) (call : Call) (objects : List ObjectState) → IsReadyWithin workers worker call objects → EachAt (λ place. IsMachineOf workers) objects
        → EachAt (λ place. IsMachineOf workers) (turn_within call worker moment begun objects).0.0 }
{
    turns_keep_kinds_and_machines();
}

/// A turn without an event changes no object and begins no wait. One that completes its call raises what is left to do at the objects
/// by less than 4; one after which the call has not returned lowers it, or begins a wait and raises it by less than 4. No call begins
/// more waits than it may make.
pub fn something_is_used_up()
    ensures uses { (workers worker moment begun : ℕ) (call : Call) (objects : List ObjectState) → IsReadyWithin workers worker call objects
        → UsesWithin begun (turn_within call worker moment begun objects).0.1 (sum_by object_left objects) (sum_by object_left (turn_within call worker moment begun objects).0.0) ((turn_within call worker moment begun objects).0.0 ≡ objects)
        (turn_within call worker moment begun objects).1 }
    ensures few { (worker moment begun : ℕ) (call : Call) (objects : List ObjectState) → begun ≤ tries_of call.operation → (turn_within call worker moment begun objects).0.1 ≤ tries_of call.operation }
{
    machines_tell_where_callers_stand();
    turns_keep_kinds_and_machines();
    turns_use_something_up();
}

/// A turn on a map, an atomic or a pool that has the call completes it.
pub fn one_turn_completes_some_calls()
    ensures { (workers worker moment begun : ℕ) (call : Call) (objects : List ObjectState) → takes_one_turn call.operation ≡ true → IsReadyWithin workers worker call objects → IsCompleted (turn_within call worker moment begun objects).1 }
{
    some_calls_take_one_turn();
}

/// A worker is out at every mutex and reader/writer mutex but the one at which its call waits: so any turn leaves it, its own and
/// another's. A call that is completed waits nowhere, nor does one that has begun no wait. And the reply by which a turn completes its
/// call has the form of that call's replies.
pub fn workers_wait_where_their_calls_do()
    ensures own { (workers worker moment begun : ℕ) (call : Call) (objects : List ObjectState) → IsReadyWithin workers worker call objects → IsOutBut (waits_within (map kind_of objects) call begun) worker objects
        → IsOutBut (waits_behind (turn_within call worker moment begun objects).1 (waits_within (map kind_of objects) call (turn_within call worker moment begun objects).0.1)) worker (turn_within call worker moment begun objects).0.0 }
    ensures others { (workers worker other moment begun : ℕ) (call : Call) (but : Option ℕ) (objects : List ObjectState) → IsReadyWithin workers other call objects → worker ≢ other → IsOutBut but worker objects
        → IsOutBut but worker (turn_within call other moment begun objects).0.0 }
    ensures forms { (workers worker moment begun : ℕ) (call : Call) (objects : List ObjectState) → IsReadyWithin workers worker call objects → IsOutBut (waits_within (map kind_of objects) call begun) worker objects
        → HasForm call.operation (turn_within call worker moment begun objects).1 }
{
    turns_keep_kinds_and_machines();
    workers_stand_in_their_calls();
}

/// A turn leaves each atomic in the range of its type.
pub fn ranges_are_kept()
    ensures { (workers worker moment begun : ℕ) (call : Call) (objects : List ObjectState) → IsReadyWithin workers worker call objects → EachAt (λ place. IsInRange) objects
        → EachAt (λ place. IsInRange) (turn_within call worker moment begun objects).0.0 }
{
    turns_keep_kinds_and_machines();
    numbers_stay_in_range();
}

/// Where the keys of maps and of the call are among some names, so they are behind the turn; and its reply shows no more pairs than
/// there are different names.
pub fn keys_are_kept()
    ensures { (names : List (List ℕ)) (most worker moment begun : ℕ) (call : Call) (objects : List ObjectState) → AreAmong names (keys_of call) → distinct_count names ≤ most
        → EachAt (λ place. HasObjectKeysIn names) objects → EachAt (λ place. HasObjectKeysIn names) (turn_within call worker moment begun objects).0.0 × ShowsTo most (turn_within call worker moment begun objects).1 }
{
    maps_keep_to_the_keys_of_calls();
}

/// A turn leaves each pool room for the puts that are left to make on it.
pub fn room_is_kept()
    ensures { (worker moment begun : ℕ) (left : ℕ → ℕ) (call : Call) (objects : List ObjectState) → put_of call.object call ≤ left call.object → EachAt (λ place. HasRoomFor (left place)) objects
        → EachAt (λ place. HasRoomFor (left_behind (turn_within call worker moment begun objects).1 (put_of place call) (left place))) (turn_within call worker moment begun objects).0.0 }
{
    pools_have_room();
}

/// Of a call's turns with an event a few are left, but those with which its worker goes back to the queue of a mutex: of a `waitfor` at
/// most four for each wait and one more, of any other call four. Its own turn that completes no call takes one of them, unless the worker goes back, and another's
/// gives none. A worker goes back only where it was told to go on, and isn't told any more then. Only another's turn tells it that unlocks.
pub fn few_turns_are_left()
    ensures most { (worker begun : ℕ) (call : Call) (objects : List ObjectState) → begun ≤ tries_of call.operation → turns_within (map kind_of objects) call worker objects begun ≤ most_turns call.operation }
    ensures own { (workers worker moment begun : ℕ) (call : Call) (objects : List ObjectState) → IsReadyWithin workers worker call objects
        → TakesBy (goes_back (items_within call worker moment begun objects)) (turns_within (map kind_of objects) call worker objects begun)
        (turns_within (map kind_of objects) call worker (turn_within call worker moment begun objects).0.0 (turn_within call worker moment begun objects).0.1) (turn_within call worker moment begun objects).1 }
    ensures others { (workers worker other moment begun later : ℕ) (own call : Call) (objects : List ObjectState) → IsReadyWithin workers other call objects → worker ≢ other
        → turns_within (map kind_of objects) own worker (turn_within call other moment later objects).0.0 begun ≤ turns_within (map kind_of objects) own worker objects begun }
    ensures told_before { (workers worker moment begun : ℕ) (call : Call) (objects : List ObjectState) → IsReadyWithin workers worker call objects
        → TellsOwn (goes_back (items_within call worker moment begun objects)) (is_told (map kind_of objects) call worker objects) (is_told (map kind_of objects) call worker (turn_within call worker moment begun objects).0.0) }
    ensures told_by_unlocks { (workers worker other moment begun : ℕ) (own call : Call) (objects : List ObjectState) → IsReadyWithin workers other call objects → worker ≢ other
        → is_told (map kind_of objects) own worker objects ≡ false → is_told (map kind_of objects) own worker (turn_within call other moment begun objects).0.0 ≡ true → unlocks (items_within call other moment begun objects) ≡ true }
{
    turns_keep_kinds_and_machines();
    few_turns_are_left_of_a_call();
}

/// The items that a turn makes on an object lead from what it was to what it is behind the turn.
pub fn items_lead_on()
    ensures { (workers worker moment place begun : ℕ) (call : Call) (objects : List ObjectState) (old new : ObjectState) → IsReadyWithin workers worker call objects → slice_get objects place ≡ Some old
        → slice_get (turn_within call worker moment begun objects).0.0 place ≡ Some new → LeadsTo old (on_object place (items_within call worker moment begun objects)) new }
{
    turns_keep_kinds_and_machines();
}

/// A turn before a `go` completes the call, or the call is a misuse. It adds 1 to the group's counter, and then, in the same turn, starts
/// the worker. Where the sum may be no counter, the `add` is the misuse: nothing changes, and nobody is started.
pub fn a_go_adds_one_and_then_starts()
    ensures { (workers worker moment begun started : ℕ) (call : Call) (objects : List ObjectState) → IsReadyWithin workers worker call objects → call.operation ≡ operations.Composed (ComposedCall.Go started)
        → HasGone call worker started objects (turn_within call worker moment begun objects).0.0 (items_within call worker moment begun objects) (turn_within call worker moment begun objects).1 }
{}
