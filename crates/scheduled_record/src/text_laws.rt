//! What is so of the text of a run's record. Each law is the contract of a function that does nothing.
ghost use Rattle.std.specs.Prelude.{◌≡◌, ◌==◌, ℕ, Bool, true, false, length, Some, slice_get};
ghost use Rattle.std.specs.List.{list_all};
ghost use Rattle.script_calls.specs.declared.outcome.Report.{Report};
ghost use Rattle.workload.specs.Dialect.{has_unrecorded, has_variables};
ghost use Rattle.workload.specs.Plan.{Plan, is_valid};
ghost use Rattle.workload.specs.Readable.{IsReadable};
ghost use Rattle.record_text.specs.declared.item_line.ItemLine.{ItemLine};
ghost use Rattle.record_text.specs.ItemLines.{is_item};
ghost use Rattle.record_text.specs.Told.{IsTold};
ghost use Rattle.record_text.specs.Written.{item_line};
ghost use Rattle.scheduled_record.specs.Recorded.{AreSame, IsDoneWithin, IsRecorded, done_text, told_done};
ghost use Rattle.scheduled_record.specs.ToldItems.{ToldAct, number_of, told_items, told_of};

use crate::laws::{
    a_record_explains_every_scheduled_run_that_is_done, the_acts_of_a_run_are_the_workloads,
    the_fronts_of_a_scheduled_run_never_fall, the_items_of_a_run_are_lines_of_its_record,
};
use crate::recorded_run::Recorded;
use kept_record::laws::{a_front_has_a_number_for_each_worker, a_record_has_what_was_made};
use record_text::laws::{a_written_text_tells_what_was_written, each_item_of_a_record_has_a_line};
use step_runner::laws::each_run_has_one_outcome;
use workload::laws::records_tell_of_all_but_variables_semaphores_and_flights;

/// Each item that is told of a run by schedule has a front with a number for each worker.
pub fn an_item_of_a_run_has_a_number_for_each_worker()
    ensures { (plan : Plan) → is_valid plan ≡ true → list_all (λ item. length item.front == plan.workers) (told_items plan) ≡ true }
{
    the_acts_of_a_run_are_the_workloads();
    the_items_of_a_run_are_lines_of_its_record();
    a_record_has_what_was_made();
    a_front_has_a_number_for_each_worker();
}

/// Each item of a run that is done has a line, so that none is left out where its items are told.
pub fn each_item_of_a_run_has_a_line()
    ensures { (plan : Plan) (within : Bool) (left : Report) (worker place : ℕ) (t : ToldAct) → IsReadable plan → has_variables plan ≡ false → IsDoneWithin plan within left
        → slice_get (told_of plan worker) place ≡ Some t → (line : ItemLine) × (item_line worker t.index (number_of t.act.made) t.act.made ≡ Some line) }
{
    the_items_of_a_run_are_lines_of_its_record();
    the_fronts_of_a_scheduled_run_never_fall();
    a_record_explains_every_scheduled_run_that_is_done();
    each_item_of_a_record_has_a_line();
}

/// Each item that is told of a run that is done is in range.
pub fn the_items_of_a_run_are_in_range()
    ensures { (plan : Plan) (within : Bool) (left : Report) → IsReadable plan → has_variables plan ≡ false → IsDoneWithin plan within left → list_all (is_item plan) (told_items plan) ≡ true }
{
    the_items_of_a_run_are_lines_of_its_record();
    the_fronts_of_a_scheduled_run_never_fall();
    a_record_explains_every_scheduled_run_that_is_done();
    each_item_of_a_record_has_a_line();
}

/// The text of the record of a run that is done tells the run: it is read back as the workload, the items, an outcome that is done, and the
/// lines of the report. It is a plain text, which has no variables, no semaphores and no flights.
pub fn the_text_of_a_run_tells_its_record()
    ensures { (plan : Plan) (left : Report) → IsReadable plan → has_unrecorded plan ≡ false → IsDoneWithin plan true left → IsTold (done_text plan left) (told_done plan left) }
{
    records_tell_of_all_but_variables_semaphores_and_flights();
    the_items_of_a_run_are_in_range();
    a_written_text_tells_what_was_written();
}

/// A workload has one record by its schedule: either a text, and one only, or none, and then for one reason.
pub fn a_run_has_one_record()
    ensures { (plan : Plan) (one other : Recorded) → is_valid plan ≡ true → IsRecorded plan one → IsRecorded plan other → AreSame one other }
{
    each_run_has_one_outcome();
}
