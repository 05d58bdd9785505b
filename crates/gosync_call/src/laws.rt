//! What it means that a run by schedule has one outcome, that one with threads is explained, and that a count rose.
pub mod checks;
pub mod races;
pub mod records;
pub mod report;
pub mod statuses;
pub mod words;

ghost use Rattle.std.specs.Prelude.{◌≡◌, ◌⊎◌, ◌<◌, ◌≤◌, ◌+◌, ◌-◌, ◌^◌, ℕ, List, Option, Some};
ghost use Rattle.sync_outside.specs.Bytes.{Appends, AppendsFront};
ghost use Rattle.sync_outside.specs.Faults.{Rose, RoseBy};
ghost use Rattle.workload.specs.Plan.{Plan};
ghost use Rattle.workload.specs.Reads.{ReadsIn};
ghost use Rattle.workload.specs.declared.keyword.Dialect.TheVariants.{Runs};
ghost use Rattle.step_runner.specs.Computed.{turns};
ghost use Rattle.step_runner.specs.Outcomes.{StepsTo};
ghost use Rattle.gosync_call.specs.Messages.{ending_of};
ghost use Rattle.run_report.specs.ReportText.{report_text};
ghost use Rattle.run_report.specs.Shown.{AreReplies};
ghost use Rattle.script_calls.specs.Outcome.{left_by};
ghost use Rattle.script_calls.specs.declared.outcome.Report.{Report};
ghost use Rattle.script_calls.specs.declared.outcome.Outcome.{Outcome};
ghost use Rattle.script_calls.specs.declared.outcome.Outcome.TheVariants as outcomes;
ghost use Rattle.sync_types.specs.declared.misuse.Misuse.{Misuse};
ghost use Rattle.run_record.specs.Explains.{Explains};
ghost use Rattle.run_record.specs.InOneOrder.{InOneOrder};
ghost use Rattle.run_record.specs.Record.{Record};
ghost use Rattle.gosync_call.specs.ComesTo.{ComesTo, EndsWithReport, IsReadFromFile};
ghost use Rattle.gosync_call.specs.Headline.{Headline, HasEnded, HasMet, RunsTo};
ghost use Rattle.gosync_call.specs.Input.{NoReadFailed, NoWriteFailed, ReadFailed};
ghost use Rattle.gosync_call.specs.declared.status.Ending.TheVariants as endings;
ghost use Rattle.gosync_call.specs.declared.status.Ending.{Ending};
ghost use Rattle.gosync_call.specs.declared.status.Status.TheVariants as statuses;
ghost use Rattle.gosync_call.specs.declared.status.Fault.TheVariants as faults;

use run_record::laws::endings::{
    a_run_is_done_unless_it_was_misused, a_run_that_is_done_answers_each_call,
};
use run_record::laws::runs::replies_tell_which_calls_were_made;
use run_record::laws::starts::nobody_who_was_not_started_makes_a_call;
use step_runner::laws::each_run_has_one_outcome;
use workload::laws::run_texts_are_read_or_refused;

/// What a file comes to by schedule is computed: the end, the report, and what a failed write leaves of it, are those of
/// `turns`. Where the bytes are told, this is so of the workload that they are read as.
pub fn a_run_by_schedule_is_computed()
    ensures ended { (told old new : Option (List ℕ)) (ending : Ending) → ComesTo StepsTo told old new (statuses.Ended ending)
        → (plan : Plan) × IsReadFromFile told plan × (ending ≡ ending_of (turns plan)) × Appends old new (report_text plan (turns plan)) }
    ensures failed { (told old new : Option (List ℕ)) → ComesTo StepsTo told old new (statuses.Failed faults.CannotWrite)
        → (plan : Plan) × IsReadFromFile told plan × AppendsFront old new (report_text plan (turns plan)) }
    ensures told { (bytes : List ℕ) (plan : Plan) (old new : Option (List ℕ)) (ending : Ending) → ReadsIn Runs bytes plan → ComesTo StepsTo (Some bytes) old new (statuses.Ended ending)
        → (ending ≡ ending_of (turns plan)) × Appends old new (report_text plan (turns plan)) }
{
    each_run_has_one_outcome();
    run_texts_are_read_or_refused();
}

/// What the headline says in short, where all is written. In a run with threads that ends done every worker that was live has ended:
/// nothing is left of any script but those of workers that were never started, which made no call, and each call that was made was
/// answered once. One that ends misused tells a misuse that some worker met. None is told to be deadlocked. All that was made in each
/// stands in one order, and each reply is of a call that was made. Where the bytes are told, all this is so of the workload that they are read as.
pub fn a_run_with_threads_is_explained()
    ensures done { (told old new : Option (List ℕ)) → Headline told old new (statuses.Ended endings.Done)
        → (plan : Plan) × (left : Report) × (r : Record) × IsReadFromFile told plan × Explains plan (outcomes.Done left) r × InOneOrder r × HasEnded plan left × Appends old new (report_text plan (outcomes.Done left)) }
    ensures misused { (told old new : Option (List ℕ)) (misuse : Misuse) → Headline told old new (statuses.Ended (endings.Misused misuse))
        → (plan : Plan) × (left : Report) × (r : Record) × IsReadFromFile told plan × HasMet plan (outcomes.Misused left misuse) r misuse × InOneOrder r × Appends old new (report_text plan (outcomes.Misused left misuse)) }
    ensures never_deadlocked { (told old new : Option (List ℕ)) → Headline told old new (statuses.Ended endings.Deadlocked) → ⊥ }
    ensures told { (bytes : List ℕ) (plan : Plan) (old new : Option (List ℕ)) (ending : Ending) → ReadsIn Runs bytes plan → Headline (Some bytes) old new (statuses.Ended ending)
        → EndsWithReport RunsTo plan old new ending }
    ensures replies { (plan : Plan) (outcome : Outcome) → RunsTo plan outcome → AreReplies plan.scripts (left_by outcome).replies }
    ensures failed { (bytes : List ℕ) (plan : Plan) (old new : Option (List ℕ)) → ReadsIn Runs bytes plan → Headline (Some bytes) old new (statuses.Failed faults.CannotWrite)
        → (outcome : Outcome) × (r : Record) × Explains plan outcome r × InOneOrder r × AppendsFront old new (report_text plan outcome) }
{
    a_run_is_done_unless_it_was_misused();
    a_run_that_is_done_answers_each_call();
    replies_tell_which_calls_were_made();
    nobody_who_was_not_started_makes_a_call();
    run_texts_are_read_or_refused();
}

/// A count that rose, by one or by some number, isn't where it was before, nor short of that number more: else it stands at its last value.
/// Where the counts of a source or of a sink stand where they were, short of their last values, none of its calls failed.
pub fn a_count_that_rose_is_higher()
    ensures once { (before now : ℕ) → Rose before now → now ≤ before → now ≡ 2 ^ 64 - 1 }
    ensures by { (number before now : ℕ) → RoseBy number before now → now < before + number → now ≡ 2 ^ 64 - 1 }
    ensures reading { (opens opens_now reads reads_now : ℕ) → ReadFailed opens opens_now reads reads_now → opens_now ≤ opens → reads_now ≤ reads
        → (opens_now ≡ 2 ^ 64 - 1) ⊎ (reads_now ≡ 2 ^ 64 - 1) }
    ensures unfailed { (opens reads writes : ℕ) → opens < 2 ^ 64 - 1 → reads < 2 ^ 64 - 1 → writes < 2 ^ 64 - 1 → NoReadFailed opens opens reads reads × NoWriteFailed writes writes }
{}
