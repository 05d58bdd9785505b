//! What is so of the record of a run by schedule that is done. Each law is the contract of a function that does nothing.
ghost use Rattle.std.specs.Prelude.{◌≡◌, ℕ, ◌+◌, ◌<◌, ◌≤◌, true, false, List, [], length, All, Some, slice_get, slice_index, map, get_or};
ghost use Rattle.std.specs.FinMap.{FinMap};
ghost use Rattle.std.specs.List.{flat_map, list_any};
ghost use Rattle.std.specs.Option.{option_to_list};
ghost use Rattle.std.specs.Ordering.{nat_cmp};
ghost use Rattle.std.specs.Cmp.Lexicographic.{slice_cmp};
ghost use Rattle.std.specs.Str.{bytes_eq};
ghost use Rattle.sync_types.specs.Renaming.{IsRenamed};
ghost use Rattle.sync_types.specs.declared.atomic_object.Number.{Number};
ghost use Rattle.script_calls.specs.declared.outcome.Outcome.TheVariants as outcomes;
ghost use Rattle.script_calls.specs.declared.outcome.Report.{Report};
ghost use Rattle.sync_model.specs.declared.item.Item.{Item};
ghost use Rattle.sync_model.specs.declared.item.SharedCall.TheVariants as calls;
ghost use Rattle.sync_model.specs.Front.{AtLeast};
ghost use Rattle.sync_model.specs.Journal.{by, KeepsEdges};
ghost use Rattle.sync_model.specs.SharedCalls.{Knows, KeepsRange};
ghost use Rattle.sync_model.specs.SharedHistory.{map_at, number_at, contents_after, contents_at, IsReply, is_entry, IsLegal, entries_by, marked_in};
ghost use Rattle.workload.specs.Dialect.{has_variables};
ghost use Rattle.workload.specs.declared.object.ObjectKind.TheVariants as kinds;
ghost use Rattle.workload.specs.declared.object.ObjectLine.{ObjectLine};
ghost use Rattle.workload.specs.declared.turn.Turn.{Turn};
ghost use Rattle.workload.specs.Draft.{all_keys};
ghost use Rattle.workload.specs.Keys.{keys_in, key_number};
ghost use Rattle.workload.specs.Plan.{Plan, has_dormant, is_valid};
ghost use Rattle.workload.specs.Puts.{puts_at};
ghost use Rattle.workload.specs.Readable.{IsReadable};
ghost use Rattle.run_record.specs.declared.made.Made.{Made};
ghost use Rattle.run_record.specs.Calls.{IsJournalOf};
ghost use Rattle.run_record.specs.Edges.{frees, takes};
ghost use Rattle.run_record.specs.Explains.{KeepsFronts, AreLines, IsAtEnd, IsRecordOf, Explains};
ghost use Rattle.run_record.specs.InOneOrder.{InOneOrder};
ghost use Rattle.run_record.specs.Journals.{IsStops};
ghost use Rattle.run_record.specs.Lines.{Line};
ghost use Rattle.run_record.specs.Objects.{object_count, contents_of, map_number, atomic_number, first_part, starts_number, ends_in};
ghost use Rattle.run_record.specs.PoolKind.{IsPartJournal};
ghost use Rattle.run_record.specs.Record.{Record, stop, object_number, journal_of, list_of, entries_in, calls_of, front_of};
ghost use Rattle.run_record.specs.StartsKind.{IsStartsJournal};
ghost use Rattle.step_runner.specs.declared.turns.object_state.ObjectState.TheVariants as states;
ghost use Rattle.step_runner.specs.Outcomes.{StepsTo};
ghost use Rattle.step_runner.specs.RunItems.{all_made};
ghost use Rattle.step_runner.specs.State.{start};
ghost use Rattle.step_runner.specs.Traces.{items_told, trace_of};
ghost use Rattle.step_runner.specs.Turns.{after_items};
ghost use Rattle.kept_record.specs.Acts.{AreActsOf, AreAnswered};
ghost use Rattle.kept_record.specs.Keeping.{record_of};
ghost use Rattle.kept_record.specs.SameItems.{HasSameItems};
ghost use Rattle.scheduled_record.specs.ItemsOf.{AreItemsOf};
ghost use Rattle.record_text.specs.ItemLines.{is_index};
ghost use Rattle.record_text.specs.LawfulItems.{IsNumbered};
ghost use Rattle.record_text.specs.Told.{items_of};
ghost use Rattle.record_text.specs.Written.{item_line};
ghost use Rattle.scheduled_record.specs.RunActs.{acts_of, run_acts, scheduled_record};
ghost use Rattle.scheduled_record.specs.ToldItems.{ToldAct, acts_in, told_run, told_of, number_of, line_in, told_items};

use kept_record::laws as kept;
use pool_core::laws::keeps_its_parts;
use pool_core::part_laws::a_pool_is_its_parts;
use run_record::laws::numbers::parts_have_numbers_of_their_own;
use step_runner::laws::{
    a_misuse_is_met_by_its_worker, a_trace_tells_what_turns_made, each_run_has_one_outcome,
    objects_come_by_the_items_of_the_run, the_items_of_each_call_spell_it, validity,
};
use step_runner::turns::laws::spelling_within::items_are_of_their_workers;
use sync_model::laws::ends::maps_by_name_have_the_same_values;
use sync_types::Name;
use sync_types::laws::atomics::only_entries_change;
use sync_types::laws::renaming::maps_with_renamed_keys_answer_the_same;
use workload::laws::keys_are_numbered_by_first_appearance;

/// All items of a run are of the workload's workers, on objects of the workload: an event on Starts only where some worker waits to be started, and a pool's on a pool.
pub fn the_items_of_a_run_are_the_workloads()
    ensures { (plan : Plan) → is_valid plan ≡ true → AreItemsOf plan (items_told (trace_of plan)) }
{
    validity();
    a_trace_tells_what_turns_made();
}

/// All acts of a run are of the workload's workers, on objects of the workload.
pub fn the_acts_of_a_run_are_the_workloads()
    ensures { (plan : Plan) → is_valid plan ≡ true → AreActsOf plan (run_acts plan (trace_of plan)) }
{
    validity();
    a_trace_tells_what_turns_made();
    parts_have_numbers_of_their_own();
}

/// The fronts of a run by schedule never fall: along no worker's list. Each counts all that its worker has called itself, and of another worker
/// no more than that one calls. Each has a number for each worker.
pub fn the_fronts_of_a_scheduled_run_never_fall()
    ensures fall { (plan : Plan) → is_valid plan ≡ true → KeepsFronts (scheduled_record plan) }
    ensures wide { (plan : Plan) (worker i : ℕ) (x : Made) → is_valid plan ≡ true → slice_get (list_of (scheduled_record plan) worker) i ≡ Some x → length (front_of x) ≡ plan.workers }
{
    the_acts_of_a_run_are_the_workloads();
    kept::no_front_falls();
    kept::a_front_has_a_number_for_each_worker();
}

/// Whoever acquires at an object in a run by schedule knows all that was known at each earlier event on it that released.
pub fn the_journals_of_a_scheduled_run_keep_the_edge_law()
    ensures { (plan : Plan) (object : ℕ) → is_valid plan ≡ true → KeepsEdges frees takes (journal_of (scheduled_record plan) object) }
{
    the_acts_of_a_run_are_the_workloads();
    kept::who_acquires_knows_what_was_released();
}

/// Each entry of a journal of a run by schedule stands in one list, that of its caller, in the order of the journal. All that was made stands
/// in one order, by numbers: the calls on maps and atomics too.
pub fn each_entry_of_a_scheduled_run_stands_in_one_list()
    ensures once { (plan : Plan) (worker object : ℕ) → is_valid plan ≡ true → entries_in object (list_of (scheduled_record plan) worker) ≡ by worker (journal_of (scheduled_record plan) object) }
    ensures ordered { (plan : Plan) → is_valid plan ≡ true → InOneOrder (scheduled_record plan) }
{
    the_acts_of_a_run_are_the_workloads();
    kept::each_entry_stands_in_one_list();
    kept::all_that_was_made_stands_in_one_order();
}

/// Each call on a map or an atomic in a run by schedule stands at a place of the history, behind all that its worker knew, and is an entry there
/// exactly where the one-thread object makes it one. Each entry of the history is one such call.
pub fn the_calls_of_a_scheduled_run_stand_at_their_places()
    ensures marked { (plan : Plan) (worker : ℕ) → is_valid plan ≡ true → marked_in worker (calls_of (scheduled_record plan) worker) ≡ entries_by worker (scheduled_record plan).history }
    ensures place { (plan : Plan) (worker j : ℕ) (x : Item) → is_valid plan ≡ true → slice_get (calls_of (scheduled_record plan) worker) j ≡ Some x → x.place ≤ length (scheduled_record plan).history }
    ensures entry { (plan : Plan) (worker j : ℕ) (x : Item) → is_valid plan ≡ true → slice_get (calls_of (scheduled_record plan) worker) j ≡ Some x
        → x.entry ≡ is_entry x.call (contents_at (contents_of plan) (scheduled_record plan).history x.place) }
    ensures knows { (plan : Plan) (worker j : ℕ) (x : Item) → is_valid plan ≡ true → slice_get (calls_of (scheduled_record plan) worker) j ≡ Some x → Knows (calls_of (scheduled_record plan)) x.front x.place }
    ensures own { (plan : Plan) (worker j : ℕ) (x : Item) → is_valid plan ≡ true → slice_get (calls_of (scheduled_record plan) worker) j ≡ Some x → slice_index x.front worker ≡ j }
    ensures rises { (plan : Plan) (worker i j : ℕ) (x y : Item) → is_valid plan ≡ true → i < j
        → slice_get (calls_of (scheduled_record plan) worker) i ≡ Some x → slice_get (calls_of (scheduled_record plan) worker) j ≡ Some y → AtLeast y.front x.front }
{
    the_acts_of_a_run_are_the_workloads();
    kept::each_entry_of_the_history_is_one_call();
    kept::a_call_lies_behind_what_its_worker_knew();
}

/// The lists of a run by schedule that is done are lines of its outcome: each falls into the calls of a run of its worker's script, with what stands before and
/// behind it where some workers wait to be started, and the replies are those of the outcome. Each script is at its end, but those of workers that were never started.
pub fn the_lists_of_a_scheduled_run_spell_its_calls()
    ensures { (plan : Plan) (report : Report) → is_valid plan ≡ true → has_variables plan ≡ false → StepsTo plan (outcomes.Done report)
        → (lines : List Line) × AreLines plan (scheduled_record plan) (outcomes.Done report) lines × All (λ line. IsAtEnd line.ending) lines }
{
    the_acts_of_a_run_are_the_workloads();
    validity();
    a_trace_tells_what_turns_made();
    each_run_has_one_outcome();
    the_items_of_each_call_spell_it();
    a_misuse_is_met_by_its_worker();
    kept::a_record_has_what_was_made();
    kept::a_list_spells_the_same_whatever_its_places_and_fronts();
}

/// The journal of each object of a run by schedule is one of its kind: it follows the kind's machine from what the object's line says, and keeps the edge law. That of a
/// map, an atomic, a plain variable or a pool is empty: a pool's parts have journals of their own, and each follows the machine of a part, with room for all items that the
/// scripts put into the pool.
pub fn the_journals_of_a_scheduled_run_follow_their_machines()
    ensures objects { (plan : Plan) (place : ℕ) (object : ObjectLine) → IsReadable plan → slice_get plan.objects place ≡ Some object → IsJournalOf plan place object.kind (journal_of (scheduled_record plan) (object_number place)) }
    ensures parts { (plan : Plan) (place part : ℕ) (object : ObjectLine) → is_valid plan ≡ true → slice_get plan.objects place ≡ Some object → object.kind ≡ kinds.Pool → part < plan.workers
        → IsPartJournal (puts_at place plan.scripts) (journal_of (scheduled_record plan) (first_part plan place + part)) }
{
    the_acts_of_a_run_are_the_workloads();
    the_journals_of_a_scheduled_run_keep_the_edge_law();
    validity();
    a_trace_tells_what_turns_made();
    objects_come_by_the_items_of_the_run();
    parts_have_numbers_of_their_own();
    keeps_its_parts();
    a_pool_is_its_parts();
    kept::a_record_has_what_was_made();
}

/// A run by schedule halts nothing: there is no entry on Stop. Its record has a journal for each object.
pub fn a_scheduled_run_halts_nothing()
    ensures stop { (plan : Plan) → is_valid plan ≡ true → journal_of (scheduled_record plan) stop ≡ [] }
    ensures stops { (plan : Plan) → is_valid plan ≡ true → IsStops (journal_of (scheduled_record plan) stop) }
    ensures objects { (plan : Plan) → length (scheduled_record plan).journals ≡ object_count plan }
{
    the_acts_of_a_run_are_the_workloads();
    kept::a_record_has_what_was_made();
}

/// Where some workers wait to be started, the journal of Starts is one of its machine. A completed `go` starts its worker. Whoever waited and was started goes right before
/// the first item that it makes, and so knows what the one knew that started it. At the end of the run each worker that came to its script ends, from worker 0 up, and behind
/// them leaves each that was never started: it is told `never`, since nobody is left who could start it.
pub fn the_starts_of_a_scheduled_run_follow_their_machine()
    ensures { (plan : Plan) (report : Report) → is_valid plan ≡ true → has_dormant plan ≡ true → StepsTo plan (outcomes.Done report) → IsStartsJournal plan.dormant (journal_of (scheduled_record plan) (starts_number plan)) }
{
    the_acts_of_a_run_are_the_workloads();
    the_journals_of_a_scheduled_run_keep_the_edge_law();
    validity();
    a_trace_tells_what_turns_made();
    each_run_has_one_outcome();
    items_are_of_their_workers();
    parts_have_numbers_of_their_own();
    kept::a_record_has_what_was_made();
}

/// Each call on a map or an atomic in a run by schedule is answered as the object for one thread answers it at the moment when it is made. So the history of the record
/// is legal, and each call is answered so at its place there. At every moment, behind any turns, what the history makes of the contents is what the objects of the run
/// hold: a map has at the numbers of keys what the object has at the keys, and an atomic holds the same number. The ends of a run that is done are what the maps and
/// atomics contain after the whole history.
pub fn the_calls_of_a_scheduled_run_are_a_legal_history()
    ensures answered { (plan : Plan) → is_valid plan ≡ true → AreAnswered (contents_of plan) (run_acts plan (trace_of plan)) }
    ensures legal { (plan : Plan) → is_valid plan ≡ true → IsLegal (contents_of plan) (scheduled_record plan).history }
    ensures replies { (plan : Plan) (worker j : ℕ) (x : Item) → is_valid plan ≡ true → slice_get (calls_of (scheduled_record plan) worker) j ≡ Some x
        → IsReply x.call x.reply (contents_at (contents_of plan) (scheduled_record plan).history x.place) }
    ensures maps { (plan : Plan) (turns : List Turn) (place : ℕ) (m : FinMap (slice_cmp nat_cmp) ℕ) → is_valid plan ≡ true → slice_get (after_items plan turns (start plan)).objects place ≡ Some (states.Map m)
        → IsRenamed (key_number (keys_in plan.scripts)) (λ key. list_any (bytes_eq key) (all_keys plan.scripts)) m
        (map_at (contents_after (contents_of plan) (record_of plan (acts_of plan (all_made plan turns (start plan)))).history) (map_number plan.objects place)) }
    ensures numbers { (plan : Plan) (turns : List Turn) (place : ℕ) (number : Number) → is_valid plan ≡ true → slice_get (after_items plan turns (start plan)).objects place ≡ Some (states.Atomic number)
        → number_at (contents_after (contents_of plan) (record_of plan (acts_of plan (all_made plan turns (start plan)))).history) (atomic_number plan.objects place) ≡ number }
    ensures ends { (plan : Plan) (report : Report) → is_valid plan ≡ true → StepsTo plan (outcomes.Done report) → report.ends ≡ ends_in plan (contents_after (contents_of plan) (scheduled_record plan).history) }
{
    the_acts_of_a_run_are_the_workloads();
    validity();
    a_trace_tells_what_turns_made();
    objects_come_by_the_items_of_the_run();
    keys_are_numbered_by_first_appearance();
    maps_with_renamed_keys_answer_the_same::<Name, u32>();
    only_entries_change();
    maps_by_name_have_the_same_values();
    each_run_has_one_outcome();
    kept::answered_calls_are_a_legal_history();
}

/// A step of a cursor in a run by schedule follows the call that began the cursor, in its worker's list.
pub fn a_step_of_a_scheduled_run_follows_its_begin()
    ensures { (plan : Plan) (worker j b : ℕ) (x : Item) → is_valid plan ≡ true → slice_get (calls_of (scheduled_record plan) worker) j ≡ Some x → x.call ≡ calls.Next b
        → (y : Item) × (m : ℕ) × (b < j) × (slice_get (calls_of (scheduled_record plan) worker) b ≡ Some y) × (y.call ≡ calls.Begin m) }
{
    the_acts_of_a_run_are_the_workloads();
    kept::a_record_has_what_was_made();
}

/// Each cursor of a run by schedule keeps the Range law. All its steps stand where it began, since nobody makes anything between them. They show just the pairs
/// that the map holds there, each once, and the last step shows none.
pub fn the_cursors_of_a_scheduled_run_keep_the_range_law()
    ensures { (plan : Plan) (worker b m : ℕ) (x : Item) → is_valid plan ≡ true → slice_get (calls_of (scheduled_record plan) worker) b ≡ Some x → x.call ≡ calls.Begin m
        → KeepsRange (contents_of plan) (scheduled_record plan).history (calls_of (scheduled_record plan)) worker b m x.front }
{
    the_acts_of_a_run_are_the_workloads();
    the_calls_of_a_scheduled_run_stand_at_their_places();
    validity();
    a_trace_tells_what_turns_made();
    objects_come_by_the_items_of_the_run();
    keys_are_numbered_by_first_appearance();
    maps_with_renamed_keys_answer_the_same::<Name, u32>();
    only_entries_change();
    kept::a_record_has_what_was_made();
}

/// The fronts of a run by schedule are the least: any record of the same items, whose fronts keep the front law and the edge law, knows at each item at
/// least what the record of the run knows there.
pub fn the_fronts_of_a_scheduled_run_are_the_least()
    ensures { (plan : Plan) (other : Record) (worker i : ℕ) (x y : Made) → is_valid plan ≡ true → HasSameItems (scheduled_record plan) other → KeepsFronts other → ((object : ℕ) → KeepsEdges frees takes (journal_of other object))
        → slice_get (list_of (scheduled_record plan) worker) i ≡ Some x → slice_get (list_of other worker) i ≡ Some y → AtLeast (front_of y) (front_of x) }
{
    the_acts_of_a_run_are_the_workloads();
    kept::the_fronts_of_a_kept_record_are_the_least();
}

/// The record of a run by schedule explains what the run comes to. Of a workload without variables, where the run is done, some record that is a lawful one of the workload's
/// objects explains the outcome: this one, which is a function of the trace.
pub fn a_record_explains_every_scheduled_run_that_is_done()
    ensures record { (plan : Plan) → IsReadable plan → (report : Report) → StepsTo plan (outcomes.Done report) → IsRecordOf plan (scheduled_record plan) }
    ensures explains { (plan : Plan) → IsReadable plan → has_variables plan ≡ false → (report : Report) → StepsTo plan (outcomes.Done report) → Explains plan (outcomes.Done report) (scheduled_record plan) }
{
    the_fronts_of_a_scheduled_run_never_fall();
    each_entry_of_a_scheduled_run_stands_in_one_list();
    the_calls_of_a_scheduled_run_stand_at_their_places();
    the_lists_of_a_scheduled_run_spell_its_calls();
    the_journals_of_a_scheduled_run_follow_their_machines();
    a_scheduled_run_halts_nothing();
    the_calls_of_a_scheduled_run_are_a_legal_history();
    a_step_of_a_scheduled_run_follows_its_begin();
    the_cursors_of_a_scheduled_run_keep_the_range_law();
    the_starts_of_a_scheduled_run_follow_their_machine();
}

/// The items of a run by schedule are told out of the acts of its record, in their order. Those of one worker are the lines of its list in the
/// record, one by one: each with the place of a call in the script, or with none, and with its number in its object's journal.
pub fn the_items_of_a_run_are_lines_of_its_record()
    ensures acts { (plan : Plan) → acts_in (told_run plan (trace_of plan)) ≡ run_acts plan (trace_of plan) }
    ensures lists { (plan : Plan) (worker : ℕ) → is_valid plan ≡ true → map (λ t. t.act.made) (told_of plan worker) ≡ list_of (scheduled_record plan) worker }
    ensures lines { (plan : Plan) (worker : ℕ) → items_of (told_items plan) worker ≡ flat_map line_in (told_of plan worker) }
    ensures own { (plan : Plan) (worker place : ℕ) (t : ToldAct) → slice_get (told_of plan worker) place ≡ Some t → line_in t ≡ option_to_list (item_line worker t.index (number_of t.act.made) t.act.made) }
    ensures numbers { (plan : Plan) (worker place : ℕ) (t : ToldAct) → is_valid plan ≡ true → slice_get (told_of plan worker) place ≡ Some t
        → IsNumbered (scheduled_record plan) (number_of t.act.made) t.act.made }
    ensures places { (plan : Plan) (worker place : ℕ) (t : ToldAct) → is_valid plan ≡ true → slice_get (told_of plan worker) place ≡ Some t
        → is_index (length (get_or plan.scripts worker [])) t.index ≡ true }
{
    the_acts_of_a_run_are_the_workloads();
    a_trace_tells_what_turns_made();
    kept::a_record_has_what_was_made();
}
