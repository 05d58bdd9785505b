//! What every run by schedule keeps.
ghost use Rattle.std.specs.Prelude.{◌≡◌, ◌≢◌, ◌↔◌, ◌<◌, ◌≤◌, ℕ, true, false, List, [], ◌++◌, ◌==◌, Some, None, map, filter, length, take, get_or, slice_get};
ghost use Rattle.std.specs.List.{list_all, list_any};
ghost use Rattle.std.specs.Str.{bytes_eq};
ghost use Rattle.std.specs.Ordering.{nat_cmp};
ghost use Rattle.std.specs.Cmp.Lexicographic.{slice_cmp};
ghost use Rattle.std.specs.FinMap.{FinMap, contains_key};
ghost use Rattle.sync_types.specs.declared.atomic_object.Number.{Number};
ghost use Rattle.script_calls.specs.declared.call.Call.{Call};
ghost use Rattle.script_calls.specs.declared.call.ComposedCall.{ComposedCall};
ghost use Rattle.script_calls.specs.declared.call.Operation.TheVariants as operations;
ghost use Rattle.sync_types.specs.declared.misuse.Misuse.{Misuse};
ghost use Rattle.sync_types.specs.declared.pool_call.PoolCall.{PoolCall};
ghost use Rattle.sync_types.specs.SequentialAtomic as atomics;
ghost use Rattle.sync_types.specs.SequentialAtomic.{is_of, is_same};
ghost use Rattle.mutex_core.specs.MutexMachine as mutex;
ghost use Rattle.rw_core.specs.RwMachine as rw;
ghost use Rattle.pool_core.specs.PoolMachine as pool;
ghost use Rattle.pool_core.specs.declared.pool_event.PoolEvent.{PoolEvent};
ghost use Rattle.pool_core.specs.declared.pool_event.PoolReply.{PoolReply};
ghost use Rattle.workload.specs.Draft.{all_keys, distinct_count, tries_of};
ghost use Rattle.workload.specs.Dialect.{has_variables};
ghost use Rattle.workload.specs.declared.turn.Turn.{Turn};
ghost use Rattle.workload.specs.Keys.{keys_in, key_number, key_name};
ghost use Rattle.workload.specs.Plan.{Plan, is_dormant, has_dormant, is_valid};
ghost use Rattle.run_record.specs.Explains.{AreLines};
ghost use Rattle.run_record.specs.Lines.{Line};
ghost use Rattle.run_record.specs.Record.{Record};
ghost use Rattle.step_runner.specs.declared.turns.object_state.ObjectState.{ObjectState};
ghost use Rattle.step_runner.specs.declared.turns.object_state.ObjectState.TheVariants as states;
ghost use Rattle.step_runner.specs.Completes.{takes_one_turn};
ghost use Rattle.step_runner.specs.PlacedCalls.{is_placed};
ghost use Rattle.step_runner.specs.Objects.{kind_of, IsMachineOf};
ghost use Rattle.script_calls.specs.Outcome.{has_pairs_to};
ghost use Rattle.script_calls.specs.Runs.{have_tests, left_of, made_of};
ghost use Rattle.script_calls.specs.Starts.{starts};
ghost use Rattle.step_runner.specs.declared.step.Step.TheVariants as steps;
ghost use Rattle.script_calls.specs.declared.outcome.Report.{Report};
ghost use Rattle.script_calls.specs.declared.outcome.Outcome.{Outcome};
ghost use Rattle.script_calls.specs.declared.outcome.Outcome.TheVariants as outcomes;
ghost use Rattle.step_runner.specs.CallTurns.{calls_met, most_turns_for, advances, requeues, wakes, count_turns};
ghost use Rattle.step_runner.specs.Closing.{IsLastDone, closes};
ghost use Rattle.step_runner.specs.Ends.{scheduled_ends};
ghost use Rattle.step_runner.specs.LastWrites.{last_written};
ghost use Rattle.step_runner.specs.LeftToDo.{left_to_do};
ghost use Rattle.step_runner.specs.MadeCalls.{made_calls, calls_of};
ghost use Rattle.step_runner.specs.Outcomes.{rounds, is_misused, StepsTo};
ghost use Rattle.step_runner.specs.RunItems.{all_made, IsAnswered, IsTested, IsMet, LeadTo};
ghost use Rattle.step_runner.specs.Spelt.{by_worker, lists_of, made_for, misuse_of, outcome_endings, EndAs, Falls};
ghost use Rattle.step_runner.specs.declared.state.Stand.TheVariants as stands;
ghost use Rattle.step_runner.specs.State.{State, IsStateOf, start, stand_of, with_moment};
ghost use Rattle.step_runner.specs.Turns.{begun_by, script_left, next_call, turn_of, items_of, after_items, has_ended};
ghost use Rattle.workload.specs.Forms.{all_have_forms, has_forms};
ghost use Rattle.step_runner.specs.Computed.{rounds_of, all_rounds, whole_run, turns, variables_left};
ghost use Rattle.step_runner.specs.Recorded.{recorded_reply};
ghost use Rattle.step_runner.specs.Traces.{traced_from, trace_of, replies_told, items_told, IsPlaced, replies_left};
ghost use Rattle.step_runner.specs.declared.trace.TraceItem.{TraceItem};

use crate::turns::laws::spelling::calls_are_entered_whole;
use crate::turns::laws::spelling_within::{
    calls_begin_whole, items_are_of_their_workers, turns_spell_what_was_left,
};
use crate::turns::laws::within::{
    few_turns_are_left, items_lead_on, keys_are_kept, kinds_and_machines_are_kept,
    one_turn_completes_some_calls, ranges_are_kept, room_is_kept, something_is_used_up,
    workers_wait_where_their_calls_do,
};
use crate::turns::laws::{
    a_placed_call_is_one_item, an_ifeq_is_one_load, few_turns_are_left_of_a_call,
    items_lead_from_turn_to_turn, maps_keep_to_the_keys_of_calls, numbers_stay_in_range,
    pools_have_room, turns_keep_kinds_and_machines, workers_stand_in_their_calls,
};
use script_calls::laws as scripts;
use sync_types::Name;
use workload::laws::keys_are_numbered_by_first_appearance;

/// What is true of the state in which a run begins stays true with each turn, and so at every moment:
/// each object is of the kind that the workload says, the state of each mutex and of each reader/writer
/// mutex is valid, the workers are the callers of each machine, and each reply of a worker is to a call
/// that it made of its script. A worker has begun no more waits than its next call may make.
pub fn validity()
    ensures begins { (plan : Plan) → is_valid plan ≡ true → IsStateOf plan (start plan) }
    ensures goes_on { (plan : Plan) (worker : ℕ) (state : State) → IsStateOf plan state → IsStateOf plan (turn_of plan worker state).0 }
    ensures always { (plan : Plan) (items : List Turn) → is_valid plan ≡ true → IsStateOf plan (after_items plan items (start plan)) }
{
    turns_keep_kinds_and_machines();
    kinds_and_machines_are_kept();
    something_is_used_up();
    scripts::runs_go_on::<Name>();
}

/// A turn without an event changes nothing, and each event lowers what is left to do. A misuse completes
/// no call.
pub fn events_use_something_up()
    ensures still { (plan : Plan) (worker : ℕ) (old new : State) → IsStateOf plan old → turn_of plan worker old ≡ (new, steps.Still) → new ≡ old }
    ensures made { (plan : Plan) (worker : ℕ) (old new : State) → IsStateOf plan old → turn_of plan worker old ≡ (new, steps.Made) → left_to_do plan new < left_to_do plan old }
    ensures misused { (plan : Plan) (worker : ℕ) (old new : State) (misuse : Misuse) → IsStateOf plan old → turn_of plan worker old ≡ (new, steps.Misused misuse) → new.replies ≡ old.replies }
{
    something_is_used_up();
    scripts::runs_go_on::<Name>();
}

/// A call takes at most four turns that make an event, and a `waitfor` four for each of its waits and one more, but those with which its
/// worker goes back to the queue of a mutex. For each of these another worker took a turn that unlocked, and told the worker to go on. The
/// number of the call counts from 0 among the calls that its worker makes. One that it hasn't met by then has taken none.
pub fn a_call_takes_few_turns()
    ensures few { (plan : Plan) (items : List Turn) (worker number : ℕ) → is_valid plan ≡ true → count_turns plan (advances plan worker number) items (start plan) ≤ most_turns_for plan worker number (after_items plan items (start plan)) }
    ensures plain { (plan : Plan) (items : List Turn) (worker number : ℕ) (call : Call) → is_valid plan ≡ true → slice_get (calls_met plan worker (after_items plan items (start plan))) number ≡ Some call → tries_of call.operation ≡ 0
        → count_turns plan (advances plan worker number) items (start plan) ≤ 4 }
    ensures woken { (plan : Plan) (items : List Turn) (worker number : ℕ) → is_valid plan ≡ true → count_turns plan (requeues plan worker number) items (start plan) ≤ count_turns plan (wakes plan worker number) items (start plan) }
{
    validity();
    events_use_something_up();
    workers_stand_in_their_calls();
    workers_wait_where_their_calls_do();
    few_turns_are_left_of_a_call();
    few_turns_are_left();
    scripts::runs_go_on::<Name>();
}

/// At every moment a worker that stands before a call though its script is at its end stands before the `done` on the group of its `go`. Its
/// next turn makes that call whole: behind it the worker is gone, or the turn is a misuse. The call has no reply. So a worker takes at
/// most one turn behind its script that makes an event.
pub fn a_done_behind_a_script_is_one_turn()
    ensures whole { (plan : Plan) (items : List Turn) (worker : ℕ) (call : Call) → is_valid plan ≡ true → next_call plan worker (after_items plan items (start plan)) ≡ Some call → script_left plan worker (after_items plan items (start plan)) ≡ []
        → IsLastDone plan worker call (after_items plan items (start plan)) }
    ensures once { (plan : Plan) (items : List Turn) (worker : ℕ) → is_valid plan ≡ true → count_turns plan (closes plan worker) items (start plan) ≤ 1 }
{
    validity();
}

/// Every run ends, in one of the three ways: one round more than is left to do is enough, and any more
/// rounds come to the same.
pub fn runs_come_to_rest()
    ensures { (plan : Plan) (state : State) (rounds : ℕ) → IsStateOf plan state → left_to_do plan state < rounds → rounds_of rounds plan state ≡ all_rounds plan state }
{
    validity();
    events_use_something_up();
}

/// A run by schedule comes to one outcome, which `turns` computes. It is Done exactly where its schedule and some whole
/// rounds bring every worker to its end that was live. Then nothing is left behind the replies of any script but of one whose
/// worker waits to be started and has made no call: where no worker waits and no call passes others over, each call has its reply. It is
/// Misused exactly where one of their turns is a misuse, and Deadlocked exactly where a whole round behind them makes no event
/// while a worker stands before a call.
pub fn each_run_has_one_outcome()
    ensures exact { (plan : Plan) (outcome : Outcome) → is_valid plan ≡ true → turns plan ≡ outcome ↔ StepsTo plan outcome }
    ensures one { (plan : Plan) (outcome other : Outcome) → is_valid plan ≡ true → StepsTo plan outcome → StepsTo plan other → outcome ≡ other }
    ensures some { (plan : Plan) → is_valid plan ≡ true → StepsTo plan (turns plan) }
    ensures complete { (plan : Plan) (report : Report) (worker : ℕ) → is_valid plan ≡ true → is_dormant plan worker ≡ false → StepsTo plan (outcomes.Done report) → left_of (get_or plan.scripts worker []) (get_or report.replies worker []) ≡ [] }
    ensures begun { (plan : Plan) (report : Report) (worker : ℕ) → is_valid plan ≡ true → StepsTo plan (outcomes.Done report) → get_or report.replies worker [] ≢ [] → left_of (get_or plan.scripts worker []) (get_or report.replies worker []) ≡ [] }
    ensures straight { (plan : Plan) (report : Report) → is_valid plan ≡ true → have_tests plan.scripts ≡ false → has_dormant plan ≡ false → StepsTo plan (outcomes.Done report) → map length report.replies ≡ map length plan.scripts }
{
    validity();
    events_use_something_up();
    scripts::a_script_without_tests_is_its_own_run::<Name>();
    scripts::runs_do_not_hang_on_names::<Name, u32>();
}

/// Where every call is on a map, an atomic, a pool or a plain variable the run is Done. Where no call passes others over, and no worker waits to be
/// started, each worker has as many replies as calls.
pub fn scripts_of_one_turn_calls_end()
    ensures { (plan : Plan) → is_valid plan ≡ true → list_all (list_all (λ call. takes_one_turn call.operation)) plan.scripts ≡ true
        → (report : Report) × StepsTo plan (outcomes.Done report) × (have_tests plan.scripts ≡ false → has_dormant plan ≡ false → map length report.replies ≡ map length plan.scripts) }
{
    validity();
    events_use_something_up();
    one_turn_completes_some_calls();
    scripts::a_script_without_tests_is_its_own_run::<Name>();
}

/// As long as a worker waits to be started it makes no call: it has no reply and makes no event, and a run doesn't wait for it. Where all
/// wait, the run is Done at once. Any other worker is live from the beginning.
pub fn who_waits_to_be_started_makes_no_call()
    ensures replies { (plan : Plan) (items : List Turn) (worker : ℕ) → is_valid plan ≡ true → worker < plan.workers → stand_of worker (after_items plan items (start plan)) ≡ stands.Waits → get_or (after_items plan items (start plan)).replies worker [] ≡ [] }
    ensures items { (plan : Plan) (items : List Turn) (worker : ℕ) → is_valid plan ≡ true → worker < plan.workers → stand_of worker (after_items plan items (start plan)) ≡ stands.Waits → by_worker worker (all_made plan items (start plan)) ≡ [] }
    ensures all { (plan : Plan) → is_valid plan ≡ true → list_all (λ waits. waits) plan.dormant ≡ true → has_ended plan (start plan) ≡ true }
    ensures live { (plan : Plan) (items : List Turn) (worker : ℕ) → is_valid plan ≡ true → worker < plan.workers → is_dormant plan worker ≡ false → stand_of worker (after_items plan items (start plan)) ≡ stands.Live }
{
    validity();
    items_are_of_their_workers();
}

/// Whoever waits to be started and doesn't any more was started by a `go` that was completed before.
pub fn whoever_comes_was_started()
    ensures { (plan : Plan) (items : List Turn) (worker : ℕ) → is_valid plan ≡ true → worker < plan.workers → is_dormant plan worker ≡ true → stand_of worker (after_items plan items (start plan)) ≢ stands.Waits
        → (by : ℕ) × (list_any (starts worker) (calls_of by (made_calls plan items (start plan))) ≡ true) }
{
    validity();
}

/// At no moment has a worker more replies than its script has calls.
pub fn replies_stay_within_scripts()
    ensures { (plan : Plan) (items : List Turn) (worker : ℕ) → is_valid plan ≡ true → length (get_or (after_items plan items (start plan)).replies worker []) ≤ length (get_or plan.scripts worker []) }
{
    validity();
}

/// At every moment the calls that a worker has completed are those of its script in order, but those that were passed over,
/// as many as it has replies. Where no call passes others over, they are the first of its script.
pub fn calls_are_made_in_order()
    ensures made { (plan : Plan) (items : List Turn) (worker : ℕ) → is_valid plan ≡ true → calls_of worker (made_calls plan items (start plan)) ≡ made_of (get_or plan.scripts worker []) (get_or (after_items plan items (start plan)).replies worker []) }
    ensures straight { (plan : Plan) (items : List Turn) (worker : ℕ) → is_valid plan ≡ true → have_tests plan.scripts ≡ false → calls_of worker (made_calls plan items (start plan)) ≡ take (length (get_or (after_items plan items (start plan)).replies worker [])) (get_or plan.scripts worker []) }
{
    validity();
    scripts::runs_go_on::<Name>();
    scripts::a_script_without_tests_is_its_own_run::<Name>();
}

/// At every moment each object is of the kind that the workload says, an atomic holds a number in the
/// range of its type, the state of each mutex and of each reader/writer mutex is valid, and the workers are
/// the callers of each machine.
pub fn objects_keep_their_kinds()
    ensures kinds { (plan : Plan) (items : List Turn) → is_valid plan ≡ true → map kind_of (after_items plan items (start plan)).objects ≡ map (λ line. line.kind) plan.objects }
    ensures ranges { (plan : Plan) (items : List Turn) (object : ℕ) (number : Number) → is_valid plan ≡ true → slice_get (after_items plan items (start plan)).objects object ≡ Some (states.Atomic number)
        → is_of (atomics.kind_of number) number ≡ true }
    ensures mutexes { (plan : Plan) (items : List Turn) (object : ℕ) (m : mutex.State) → is_valid plan ≡ true → slice_get (after_items plan items (start plan)).objects object ≡ Some (states.Mutex m)
        → mutex.IsValid m × (m.callers ≡ plan.workers) }
    ensures rw_mutexes { (plan : Plan) (items : List Turn) (object : ℕ) (m : rw.State) → is_valid plan ≡ true → slice_get (after_items plan items (start plan)).objects object ≡ Some (states.RwMutex m)
        → rw.IsValid m × (m.callers ≡ plan.workers) }
    ensures machines { (plan : Plan) (items : List Turn) (place : ℕ) (object : ObjectState) → is_valid plan ≡ true → slice_get (after_items plan items (start plan)).objects place ≡ Some object
        → IsMachineOf plan.workers object }
{
    validity();
    numbers_stay_in_range();
    ranges_are_kept();
}

/// At every moment, behind any turns up to the first misuse, the items that the run has made on an object lead from what it
/// began as to what it is. Those on a map, an atomic or a plain variable are a legal history: each is a call that answers what the one-thread object
/// answers behind the earlier ones. Those on any other object are its log: its machine gives these answers to these events of these workers, one after the other. So what the laws of `mutex_core`,
/// `rw_core`, `wait_cores`, `pool_core`, `sema_core` and `flight_core` say of the state behind a log is true of it, by the run's own log. A wait group
/// begins behind the one `Add` of its line's number, and a pool's parts have room for every put that the scripts make there.
/// The ends of a run that is Done show what stands after all items of its turns.
pub fn objects_come_by_the_items_of_the_run()
    ensures always { (plan : Plan) (items : List Turn) → is_valid plan ≡ true → LeadTo plan (all_made plan items (start plan)) (after_items plan items (start plan)).objects }
    ensures ends { (plan : Plan) (report : Report) → is_valid plan ≡ true → StepsTo plan (outcomes.Done report)
        → (count : ℕ) × (objects : List ObjectState) × LeadTo plan (all_made plan (plan.schedule ++ rounds count plan.workers) (start plan)) objects × (report.ends ≡ scheduled_ends plan objects) }
{
    validity();
    items_lead_from_turn_to_turn();
    items_lead_on();
}

/// At every moment the next turn of a worker that stands before a call of a map, an atomic or a plain variable makes the call whole, by one item on
/// its object, and the reply in that item is the call's.
pub fn placed_calls_are_answered_by_their_items()
    ensures { (plan : Plan) (items : List Turn) (worker : ℕ) (call : Call) → is_valid plan ≡ true → next_call plan worker (after_items plan items (start plan)) ≡ Some call → is_placed call.operation ≡ true
        → IsAnswered plan worker call (after_items plan items (start plan)) }
{
    validity();
    a_placed_call_is_one_item();
}

/// At every moment the next turn of a worker that stands before an `ifeq` makes one load of its atomic, of what the atomic holds, and
/// answers true exactly where that is the value.
pub fn an_ifeq_tells_what_its_load_found()
    ensures { (plan : Plan) (items : List Turn) (worker : ℕ) (call : Call) (value : Number) (passes : ℕ) → is_valid plan ≡ true → next_call plan worker (after_items plan items (start plan)) ≡ Some call
        → call.operation ≡ operations.Composed (ComposedCall.IfEqual value passes) → IsTested plan worker call value (after_items plan items (start plan)) }
{
    validity();
    an_ifeq_is_one_load();
}

/// At every moment the next turn of a worker that stands before a `waitfor`, and whose atomic holds the value, makes one load of the
/// atomic, and answers true. It changes no object: the cond and its mutex aren't looked at.
pub fn a_waitfor_that_is_met_is_one_load()
    ensures { (plan : Plan) (items : List Turn) (worker atomic tries : ℕ) (call : Call) (value found : Number) → is_valid plan ≡ true → next_call plan worker (after_items plan items (start plan)) ≡ Some call
        → call.operation ≡ operations.Composed (ComposedCall.WaitFor atomic value tries) → begun_by worker (after_items plan items (start plan)) ≡ 0
        → slice_get (after_items plan items (start plan)).objects atomic ≡ Some (states.Atomic found) → is_same found value ≡ true → IsMet plan worker atomic found (after_items plan items (start plan)) }
{
    validity();
}

/// Of a workload without plain variables: at every moment, behind any turns up to the first misuse, a worker's items fall into the calls of a run of its script, in order:
/// each completed call is spelt by the items of its own turns, as a record's are, and its reply is read off them. Behind them stand the
/// first items of at most one more call, or that call as a misuse: each list ends by the call before which its worker stands, and by the
/// misuse that it met. It has no halt. Where some workers wait to be started, whoever is started goes with the first turn that makes
/// something, and makes a `done` on its group behind its script, which may be a misuse as a call may; an `End` on Starts stands behind
/// each script that has ended, and behind that `done`; and a worker that was never started makes its `Leave` alone, once the run has
/// ended. So the lists of any record that has the run's items, and these, are lines of the outcome.
pub fn the_items_of_each_call_spell_it()
    ensures always { (plan : Plan) (items : List Turn) (worker : ℕ) → is_valid plan ≡ true → has_variables plan ≡ false → Falls plan (has_ended plan (after_items plan items (start plan))) worker (all_made plan items (start plan)) (λ number. made_for plan worker number items (start plan)) (get_or (after_items plan items (start plan)).replies worker []) (next_call plan worker (after_items plan items (start plan))) (misuse_of plan worker items (start plan)) }
    ensures outcomes { (plan : Plan) (outcome : Outcome) → is_valid plan ≡ true → has_variables plan ≡ false → StepsTo plan outcome
        → (count : ℕ) × ((r : Record) → r.lists ≡ lists_of plan (all_made plan (plan.schedule ++ rounds count plan.workers) (start plan)) (outcome_endings plan outcome (plan.schedule ++ rounds count plan.workers)) → (lines : List Line) × AreLines plan r outcome lines × EndAs (outcome_endings plan outcome (plan.schedule ++ rounds count plan.workers)) lines) }
{
    validity();
    something_is_used_up();
    workers_stand_in_their_calls();
    workers_wait_where_their_calls_do();
    maps_keep_to_the_keys_of_calls();
    keys_are_kept();
    turns_spell_what_was_left();
    calls_are_entered_whole();
    calls_begin_whole();
    items_are_of_their_workers();
    scripts::a_run_is_told_by_its_replies::<u32>();
    scripts::runs_go_on::<u32>();
    scripts::runs_do_not_hang_on_names::<Name, u32>();
}

/// Behind any turns, up to the first misuse, a trace tells turn by turn what they made, and the replies to a worker's calls, in order. What is
/// told of a turn was made by its worker. Each
/// call stands in its worker's script, at the place that is told; the `done` behind a script has no place and no reply. The trace of a
/// run tells so of the schedule and of some whole rounds, which lead to the run's end: so its replies are those of the outcome.
pub fn a_trace_tells_what_turns_made()
    ensures items { (plan : Plan) (items : List Turn) → items_told (traced_from plan items (start plan)) ≡ all_made plan items (start plan) }
    ensures replies { (plan : Plan) (items : List Turn) (worker : ℕ) → is_valid plan ≡ true → replies_told worker (traced_from plan items (start plan)) ≡ get_or (after_items plan items (start plan)).replies worker [] }
    ensures places { (plan : Plan) (items : List Turn) (number : ℕ) (one : TraceItem) → slice_get (traced_from plan items (start plan)) number ≡ Some one → IsPlaced (get_or plan.scripts one.worker []) one.call one.index one.reply }
    ensures callers { (plan : Plan) (items : List Turn) (number : ℕ) (one : TraceItem) → slice_get (traced_from plan items (start plan)) number ≡ Some one → filter (λ item. item.caller == one.worker) one.made ≡ one.made }
    ensures whole { (plan : Plan) → (count : ℕ) × (trace_of plan ≡ traced_from plan (plan.schedule ++ rounds count plan.workers) (start plan)) × ((whole_run plan).0 ≡ after_items plan (plan.schedule ++ rounds count plan.workers) (start plan)) }
    ensures outcome { (plan : Plan) (worker : ℕ) → is_valid plan ≡ true → map (recorded_reply plan) (replies_told worker (trace_of plan)) ≡ get_or (replies_left (turns plan)) worker [] }
{
    validity();
    items_are_of_their_workers();
}

/// Behind a run that is done each plain variable holds the value of the last write to it that the trace tells, or 0 where it tells none. A
/// report shows all of them, in order of declaration.
pub fn variables_end_with_their_last_writes()
    ensures done { (plan : Plan) (report : Report) → is_valid plan ≡ true → turns plan ≡ outcomes.Done report → variables_left plan ≡ last_written (items_told (trace_of plan)) plan.objects }
    ensures none { (plan : Plan) → is_valid plan ≡ true → has_variables plan ≡ false → variables_left plan ≡ [] }
{
    objects_keep_their_kinds();
    objects_come_by_the_items_of_the_run();
    a_trace_tells_what_turns_made();
}

/// Where no turn was a misuse, no worker met one; where one was, its worker met it.
pub fn a_misuse_is_met_by_its_worker()
    ensures none { (plan : Plan) (items : List Turn) (worker : ℕ) → is_misused (items_of plan items (start plan)).1 ≡ false → misuse_of plan worker items (start plan) ≡ None }
    ensures one { (plan : Plan) (items : List Turn) (misuse : Misuse) → (items_of plan items (start plan)).1 ≡ steps.Misused misuse → (worker : ℕ) × (misuse_of plan worker items (start plan) ≡ Some misuse) }
{}

/// At every moment each key that is there in a map is a key of the workload's calls, and its number leads back to it: so
/// what a `range` shows and what maps hold at the end is named by its own keys.
pub fn keys_are_those_of_calls()
    ensures keys { (plan : Plan) (items : List Turn) (object : ℕ) (m : FinMap (slice_cmp nat_cmp) ℕ) (key : List ℕ) → slice_get (after_items plan items (start plan)).objects object ≡ Some (states.Map m)
        → contains_key m key ≡ true → list_any (bytes_eq key) (all_keys plan.scripts) ≡ true }
    ensures named { (plan : Plan) (items : List Turn) (object : ℕ) (m : FinMap (slice_cmp nat_cmp) ℕ) (key : List ℕ) → slice_get (after_items plan items (start plan)).objects object ≡ Some (states.Map m)
        → contains_key m key ≡ true → key_name (keys_in plan.scripts) (key_number (keys_in plan.scripts) key) ≡ key }
{
    maps_keep_to_the_keys_of_calls();
    keys_are_kept();
    keys_are_numbered_by_first_appearance();
}

/// At every moment no reply shows more pairs than the workload's calls have different keys.
pub fn pairs_are_few()
    ensures { (plan : Plan) (items : List Turn) → list_all (list_all (has_pairs_to (distinct_count (all_keys plan.scripts)))) (after_items plan items (start plan)).replies ≡ true }
{
    maps_keep_to_the_keys_of_calls();
    keys_are_kept();
}

/// At every moment each reply has the form of its call's replies, by the table of `sync_model`: a `lock` never answers a
/// number. So what a report prints for a call is what the table says for it.
pub fn replies_have_their_form()
    ensures always { (plan : Plan) (items : List Turn) → is_valid plan ≡ true → all_have_forms plan.scripts (after_items plan items (start plan)).replies ≡ true }
    ensures left { (plan : Plan) → is_valid plan ≡ true → has_forms plan (turns plan) ≡ true }
{
    validity();
    workers_stand_in_their_calls();
    workers_wait_where_their_calls_do();
    scripts::replies_have_their_form::<Name, u32>();
    scripts::runs_do_not_hang_on_names::<Name, u32>();
}

/// At every moment a worker that stands before a put finds room for its item: by schedule no put is dropped.
pub fn no_put_is_dropped()
    ensures { (plan : Plan) (items : List Turn) (worker place item : ℕ) (p : pool.PoolState ℕ) → is_valid plan ≡ true
        → next_call plan worker (after_items plan items (start plan)) ≡ Some (record { object = place; operation = operations.Pool (PoolCall.Put item) })
        → slice_get (after_items plan items (start plan)).objects place ≡ Some (states.Pool p)
        → (pool.next p worker (PoolEvent.Put item)).1 ≡ PoolReply.Kept }
{
    validity();
    pools_have_room();
    room_is_kept();
    scripts::runs_go_on::<Name>();
}

/// Once every worker has ended that was live, nothing that is left of the schedule makes an event or has an effect, but
/// that the clock may be set.
pub fn nothing_follows_the_end()
    ensures { (plan : Plan) (state : State) (items : List Turn) → IsStateOf plan state → has_ended plan state ≡ true
        → (moment : ℕ) × (items_of plan items state ≡ (with_moment moment state, steps.Still)) }
{}
