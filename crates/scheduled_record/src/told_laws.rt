//! What is so of what is told of a run's items: of which call each is, and which numbers its entries have. Each law is the contract of a function that does nothing.
ghost use Rattle.std.specs.Prelude.{◌≡◌, ℕ, ◌<◌, true, false, List, [], map, length, get_or, Some, slice_get};
ghost use Rattle.script_calls.specs.Runs.{RunsAlong};
ghost use Rattle.script_calls.specs.declared.outcome.Outcome.TheVariants as outcomes;
ghost use Rattle.script_calls.specs.declared.outcome.Report.{Report};
ghost use Rattle.workload.specs.Dialect.{has_unrecorded, has_variables};
ghost use Rattle.workload.specs.Plan.{Plan, is_valid};
ghost use Rattle.workload.specs.Readable.{IsReadable};
ghost use Rattle.run_cuts.specs.CallsAlong.{calls_along};
ghost use Rattle.run_record.specs.declared.made.Made.{Made};
ghost use Rattle.run_record.specs.declared.made.Made.TheVariants.{Entered};
ghost use Rattle.run_record.specs.Lines.{Line, IsLineOf, calls_made, items_of};
ghost use Rattle.run_record.specs.Record.{ObjectEntry, journal_of, list_of};
ghost use Rattle.record_clauses.specs.declared.clause.Clause.{Clause};
ghost use Rattle.record_clauses.specs.Account.{Account, ToldItem, record_of, outcome_of};
ghost use Rattle.record_clauses.specs.Clauses.{Holds};
ghost use Rattle.record_clauses.specs.Journals.{numbered_by};
ghost use Rattle.record_clauses.specs.Lists.{is_halt, without_halts, calls_told, numbered_in};
ghost use Rattle.record_text.specs.Told.{items_of as lines_of_worker};
ghost use Rattle.record_text.specs.Written.{item_line};
ghost use Rattle.step_runner.specs.Outcomes.{StepsTo};
ghost use Rattle.scheduled_record.specs.Recorded.{IsDoneWithin};
ghost use Rattle.scheduled_record.specs.RunActs.{scheduled_record};
ghost use Rattle.scheduled_record.specs.ToldItems.{ToldAct, told_of, number_of, told_items};
ghost use Rattle.scheduled_record.specs.ToldLists.{told_list, claim_of};

use crate::laws::{
    a_record_explains_every_scheduled_run_that_is_done,
    each_entry_of_a_scheduled_run_stands_in_one_list, the_acts_of_a_run_are_the_workloads,
    the_items_of_a_run_are_lines_of_its_record,
};
use crate::text_laws::each_item_of_a_run_has_a_line;
use kept_record::laws::a_record_has_what_was_made;
use record_clauses::laws::the_clauses_say_that_the_record_explains_the_outcome;
use run_cuts::laws::{a_list_tells_of_which_call_each_item_is, a_spelling_is_blind};
use script_calls::laws::runs_do_not_hang_on_names;
use step_runner::laws::{
    a_misuse_is_met_by_its_worker, a_trace_tells_what_turns_made, each_run_has_one_outcome,
    the_items_of_each_call_spell_it, validity,
};
use step_runner::turns::laws::spelling_within::items_are_of_their_workers;
use sync_types::Name;
use workload::laws::records_tell_of_all_but_variables_semaphores_and_flights;

/// Each item of a run that is done is told to be of the call of its script of which it is in its worker's list, or of none: however the list is read as
/// a line, whose completed calls run along the script.
pub fn each_item_of_a_run_is_told_its_call()
    ensures { (plan : Plan) (report : Report) (worker : ℕ) (line : Line) → IsReadable plan → has_variables plan ≡ false → StepsTo plan (outcomes.Done report) → worker < plan.workers
        → IsLineOf plan worker line → RunsAlong (get_or plan.scripts worker []) (calls_made line) line.rest → items_of line ≡ list_of (scheduled_record plan) worker
        → map (λ t. t.index) (told_of plan worker) ≡ calls_along line }
{
    the_acts_of_a_run_are_the_workloads();
    validity();
    a_trace_tells_what_turns_made();
    each_run_has_one_outcome();
    the_items_of_each_call_spell_it();
    a_misuse_is_met_by_its_worker();
    items_are_of_their_workers();
    runs_do_not_hang_on_names::<Name, u32>();
    a_spelling_is_blind();
    a_list_tells_of_which_call_each_item_is();
    a_record_has_what_was_made();
}

/// Along a worker's list the entries of one object are told rising numbers.
pub fn numbers_of_entries_rise()
    ensures { (plan : Plan) (worker place other object : ℕ) (t u : ToldAct) (x y : ObjectEntry) → is_valid plan ≡ true → place < other
        → slice_get (told_of plan worker) place ≡ Some t → slice_get (told_of plan worker) other ≡ Some u
        → t.act.made ≡ Entered object x → u.act.made ≡ Entered object y → number_of t.act.made < number_of u.act.made }
{
    the_items_of_a_run_are_lines_of_its_record();
    each_entry_of_a_scheduled_run_stands_in_one_list();
}

/// The entries in a worker's list are its own in the journal of each object, in their order, and each is told its number there.
pub fn entries_of_a_run_are_told_their_numbers()
    ensures { (plan : Plan) (worker object : ℕ) → is_valid plan ≡ true → numbered_in object (told_list plan worker) ≡ numbered_by worker (journal_of (scheduled_record plan) object) }
{
    the_acts_of_a_run_are_the_workloads();
    the_items_of_a_run_are_lines_of_its_record();
    each_entry_of_a_scheduled_run_stands_in_one_list();
    a_record_has_what_was_made();
}

/// No item of a run by schedule is a halt. So no list has one to set aside, and of each item it is told of which call it is.
pub fn no_item_of_a_run_is_a_halt()
    ensures each { (plan : Plan) (worker place : ℕ) (x : Made) → is_valid plan ≡ true → slice_get (list_of (scheduled_record plan) worker) place ≡ Some x → is_halt x ≡ false }
    ensures whole { (plan : Plan) (worker : ℕ) → is_valid plan ≡ true → without_halts (list_of (scheduled_record plan) worker) ≡ list_of (scheduled_record plan) worker }
    ensures told { (plan : Plan) (worker : ℕ) → is_valid plan ≡ true → calls_told (told_list plan worker) ≡ map (λ t. t.index) (told_of plan worker) }
{
    the_acts_of_a_run_are_the_workloads();
    the_items_of_a_run_are_lines_of_its_record();
    a_record_has_what_was_made();
}

/// All nine clauses of a checker of records hold of what is told of a run that is done, of a readable workload of which a record tells all objects: by an account
/// whose record is that of the run.
pub fn what_is_told_of_a_run_holds()
    ensures { (plan : Plan) (left : Report) → IsReadable plan → has_unrecorded plan ≡ false → StepsTo plan (outcomes.Done left)
        → (account : Account) × (record_of (claim_of plan left) account ≡ scheduled_record plan) × (outcome_of (claim_of plan left) account ≡ outcomes.Done left)
        × ((clause : Clause) → Holds (claim_of plan left) account clause) }
{
    records_tell_of_all_but_variables_semaphores_and_flights();
    the_items_of_a_run_are_lines_of_its_record();
    a_record_explains_every_scheduled_run_that_is_done();
    each_item_of_a_run_is_told_its_call();
    entries_of_a_run_are_told_their_numbers();
    no_item_of_a_run_is_a_halt();
    the_clauses_say_that_the_record_explains_the_outcome();
}

/// No item of a run whose record is within its limits is left out of the text: the lines of each worker are those of all that it made, one
/// by one.
pub fn each_item_of_a_run_has_its_line()
    ensures workers { (plan : Plan) (left : Report) → length (claim_of plan left).lists ≡ plan.workers }
    ensures lines { (plan : Plan) (left : Report) (worker : ℕ) (list : List ToldItem) → IsReadable plan → has_unrecorded plan ≡ false → IsDoneWithin plan true left → slice_get (claim_of plan left).lists worker ≡ Some list
        → map (λ (x : ToldItem). item_line worker x.call x.number x.made) list ≡ map Some (lines_of_worker (told_items plan) worker) }
{
    records_tell_of_all_but_variables_semaphores_and_flights();
    the_items_of_a_run_are_lines_of_its_record();
    each_item_of_a_run_has_a_line();
}
