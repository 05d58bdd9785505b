//! What a report with races shows, in a user's words.
ghost use Rattle.std.specs.Prelude.{◌≡◌, List, [], ◌++◌, codes, length, slice_get};
ghost use Rattle.std.specs.Fmt.{decimal};
ghost use Rattle.std.specs.List.{flat_map};
ghost use Rattle.script_calls.specs.declared.outcome.Outcome.{Outcome};
ghost use Rattle.script_calls.specs.declared.outcome.Outcome.TheVariants as outcomes;
ghost use Rattle.script_calls.specs.declared.outcome.Report.{Report};
ghost use Rattle.sync_types.specs.declared.misuse.Misuse.{Misuse};
ghost use Rattle.workload.specs.Canonical.{name_of};
ghost use Rattle.workload.specs.Plan.{Plan};
ghost use Rattle.run_report.specs.ReportText.{report_text};
ghost use Rattle.step_runner.specs.declared.ends.VariableEnd.{VariableEnd};
ghost use Rattle.race_clocks.specs.RaceText.{report_with_races};
ghost use Rattle.race_clocks.specs.Variables.{with_variables};

use crate::race::Race;

/// Behind the report of a run stand its races, in order: for each a line `race X I.J K.L` with the variable's name and the worker and place
/// of both calls. A last line says how many there are. So where there are none, `races 0` stands there and nothing else.
pub fn races_stand_behind_the_report()
    ensures lines { (plan : Plan) (outcome : Outcome) (races : List Race) → report_with_races plan outcome races
        ≡ report_text plan outcome ++ (flat_map (λ race. codes "race " ++ name_of (slice_get plan.objects race.variable)
        ++ codes " " ++ decimal race.first.worker ++ codes "." ++ decimal race.first.index ++ codes " " ++ decimal race.second.worker ++ codes "." ++ decimal race.second.index ++ codes "\n") races
        ++ (codes "races " ++ decimal (length races) ++ codes "\n")) }
    ensures none { (plan : Plan) (outcome : Outcome) → report_with_races plan outcome [] ≡ report_text plan outcome ++ codes "races 0\n" }
{}

/// Where every script has ended, a line `end X V` for each variable stands behind all lines of the report. Elsewhere, and where there is
/// no variable, the report is as without them.
pub fn variables_stand_behind_the_ends()
    ensures done { (plan : Plan) (left : Report) (variables : List VariableEnd) → report_text plan (with_variables variables (outcomes.Done left))
        ≡ report_text plan (outcomes.Done left) ++ flat_map (λ variable. codes "end " ++ name_of (slice_get plan.objects variable.object) ++ codes " " ++ decimal variable.value ++ codes "\n") variables }
    ensures misused { (left : Report) (misuse : Misuse) (variables : List VariableEnd) → with_variables variables (outcomes.Misused left misuse) ≡ outcomes.Misused left misuse }
    ensures deadlocked { (left : Report) (variables : List VariableEnd) → with_variables variables (outcomes.Deadlocked left) ≡ outcomes.Deadlocked left }
    ensures none { (outcome : Outcome) → with_variables [] outcome ≡ outcome }
{}
