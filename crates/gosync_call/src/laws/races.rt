//! What it means that the races of a run were asked for.
ghost use Rattle.std.specs.Prelude.{◌≡◌, ◌≢◌, ℕ, false, List, [], ◌∷◌, ◌++◌, codes, Option, Some};
ghost use Rattle.sync_outside.specs.Bytes.{Appends, AppendsFront};
ghost use Rattle.script_calls.specs.declared.outcome.Outcome.{Outcome};
ghost use Rattle.script_calls.specs.declared.outcome.Outcome.TheVariants as outcomes;
ghost use Rattle.script_calls.specs.declared.outcome.Report.{Report};
ghost use Rattle.sync_types.specs.declared.misuse.Misuse.{Misuse};
ghost use Rattle.workload.specs.Plan.{Plan};
ghost use Rattle.workload.specs.Reads.{Reads, ReadsIn};
ghost use Rattle.workload.specs.declared.keyword.Dialect.TheVariants.{Races};
ghost use Rattle.step_runner.specs.Computed.{turns};
ghost use Rattle.step_runner.specs.Outcomes.{StepsTo};
ghost use Rattle.step_runner.specs.Traces.{trace_of};
ghost use Rattle.race_clocks.specs.Races.{AreRaces};
ghost use Rattle.race_clocks.specs.RaceText.{races_text};
ghost use Rattle.run_report.specs.ReportText.{report_text};
ghost use Rattle.gosync_call.specs.ComesTo.{ComesTo, IsReadIn};
ghost use Rattle.gosync_call.specs.Headline.{Headline};
ghost use Rattle.gosync_call.specs.Made.{MakesTo};
ghost use Rattle.gosync_call.specs.Messages.{code_of, ending_of};
ghost use Rattle.gosync_call.specs.Races.{ending_with, race_text, HasRaces, RacesTo};
ghost use Rattle.gosync_call.specs.declared.status.Ending.{Ending};
ghost use Rattle.gosync_call.specs.declared.status.Ending.TheVariants as endings;
ghost use Rattle.gosync_call.specs.declared.status.Fault.TheVariants as faults;
ghost use Rattle.gosync_call.specs.declared.status.Status.{Status};
ghost use Rattle.gosync_call.specs.declared.status.Status.TheVariants as statuses;

use race_clocks::Race;
use race_clocks::laws::without_variables_nothing_races;
use race_clocks::report::laws::{races_stand_behind_the_report, variables_stand_behind_the_ends};
use step_runner::laws::{each_run_has_one_outcome, variables_end_with_their_last_writes};
use workload::laws::{
    plain_texts_are_race_texts_without_variables, race_texts_are_read_or_refused,
};

/// Status 6 says that every script has ended, that the run has a race at least, and that all was written; status 0 says the same of a run
/// without a race. Where the run is a misuse or a deadlock its races are written too, behind its replies. No other command ever comes to
/// status 6.
pub fn a_status_tells_whether_there_are_races()
    ensures raced { (told old new : Option (List ℕ)) (status : Status) → RacesTo told old new status → code_of status ≡ 6
        → (plan : Plan) × (left : Report) × (race : Race) × (others : List Race) × IsReadIn Races told plan × HasRaces plan (outcomes.Done left) (race ∷ others) × Appends old new (race_text plan (outcomes.Done left) (race ∷ others)) }
    ensures none { (told old new : Option (List ℕ)) (status : Status) → RacesTo told old new status → code_of status ≡ 0
        → (plan : Plan) × (left : Report) × IsReadIn Races told plan × HasRaces plan (outcomes.Done left) [] × Appends old new (race_text plan (outcomes.Done left) []) }
    ensures misused { (told old new : Option (List ℕ)) (misuse : Misuse) → RacesTo told old new (statuses.Ended (endings.Misused misuse))
        → (plan : Plan) × (left : Report) × (races : List Race) × IsReadIn Races told plan × HasRaces plan (outcomes.Misused left misuse) races × Appends old new (report_text plan (outcomes.Misused left misuse) ++ races_text plan races) }
    ensures deadlocked { (told old new : Option (List ℕ)) → RacesTo told old new (statuses.Ended endings.Deadlocked)
        → (plan : Plan) × (left : Report) × (races : List Race) × IsReadIn Races told plan × HasRaces plan (outcomes.Deadlocked left) races × Appends old new (report_text plan (outcomes.Deadlocked left) ++ races_text plan races) }
    ensures step { (told old new : Option (List ℕ)) (status : Status) → ComesTo StepsTo told old new status → code_of status ≢ 6 }
    ensures run { (told old new : Option (List ℕ)) (status : Status) → Headline told old new status → code_of status ≢ 6 }
    ensures make { (seed ran ran_now : ℕ) (old new : Option (List ℕ)) (status : Status) → MakesTo seed ran ran_now old new status → code_of status ≢ 6 }
{}

/// Where the bytes are told, all that is said is so of the workload that they are read as: the outcome is that of `turns`, and the races are
/// those of its trace.
pub fn races_are_those_of_the_scheduled_run()
    ensures ended { (bytes : List ℕ) (plan : Plan) (old new : Option (List ℕ)) (ending : Ending) → ReadsIn Races bytes plan → RacesTo (Some bytes) old new (statuses.Ended ending)
        → (races : List Race) × AreRaces plan (trace_of plan) races × (ending ≡ ending_with (turns plan) races) × Appends old new (race_text plan (turns plan) races) }
    ensures failed { (bytes : List ℕ) (plan : Plan) (old new : Option (List ℕ)) → ReadsIn Races bytes plan → RacesTo (Some bytes) old new (statuses.Failed faults.CannotWrite)
        → (races : List Race) × AreRaces plan (trace_of plan) races × AppendsFront old new (race_text plan (turns plan) races) }
{
    each_run_has_one_outcome();
    race_texts_are_read_or_refused();
}

/// A text without variables comes to what `step` makes of it, with one line more: `races 0`.
pub fn without_variables_there_are_no_races()
    ensures { (bytes : List ℕ) (plan : Plan) (old new : Option (List ℕ)) (ending : Ending) → Reads bytes plan → RacesTo (Some bytes) old new (statuses.Ended ending)
        → (outcome : Outcome) × StepsTo plan outcome × (ending ≡ ending_of outcome) × Appends old new (report_text plan outcome ++ codes "races 0\n") }
{
    plain_texts_are_race_texts_without_variables();
    race_texts_are_read_or_refused();
    variables_end_with_their_last_writes();
    without_variables_nothing_races();
    races_stand_behind_the_report();
    variables_stand_behind_the_ends();
}
