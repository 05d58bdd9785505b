//! What it means that a record was judged.
ghost use Rattle.std.specs.Prelude.{◌≡◌, ◌≢◌, ◌↔◌, ℕ, List, ◌++◌, codes, Option, Some};
ghost use Rattle.sync_outside.specs.Bytes.{Appends};
ghost use Rattle.script_calls.specs.declared.outcome.Report.{Report};
ghost use Rattle.workload.specs.Plan.{Plan};
ghost use Rattle.run_record.specs.Explains.{Explains};
ghost use Rattle.run_record.specs.Record.{Record};
ghost use Rattle.run_report.specs.ReportText.{report_text};
ghost use Rattle.record_clauses.specs.Account.{Account, Claim, outcome_by};
ghost use Rattle.record_clauses.specs.Clauses.{Holds};
ghost use Rattle.record_clauses.specs.declared.clause.Clause.{Clause};
ghost use Rattle.record_clauses.specs.declared.clause.Verdict.{Verdict};
ghost use Rattle.record_clauses.specs.declared.clause.Verdict.TheVariants as verdicts;
ghost use Rattle.record_text.specs.Told.{IsTold, Told, joined};
ghost use Rattle.run_check.specs.Completeness.{AreLinesOf, IsExplainingText};
ghost use Rattle.run_check.specs.Tells.{UpTo};
ghost use Rattle.step_runner.specs.Outcomes.{StepsTo};
ghost use Rattle.gosync_call.specs.Checks.{IsJudged, JudgesTo, clause_word};
ghost use Rattle.gosync_call.specs.ComesTo.{ComesTo};
ghost use Rattle.gosync_call.specs.Headline.{Headline};
ghost use Rattle.gosync_call.specs.Made.{MakesTo};
ghost use Rattle.gosync_call.specs.Messages.{code_of};
ghost use Rattle.gosync_call.specs.Races.{RacesTo};
ghost use Rattle.gosync_call.specs.declared.status.Status.{Status};
ghost use Rattle.gosync_call.specs.declared.status.Status.TheVariants as statuses;

use record_text::laws::a_text_tells_one_thing;
use run_check::completeness::{
    a_yes_is_exactly_that_a_record_explains, nothing_that_explains_is_lost,
};
use run_check::laws::yes_is_that_a_record_of_the_text_explains;

/// Status 0 says that the verdict is yes, and that it was written. Status 7 says the same of a no, with the first clause that fails. Status
/// 2 and status 6 never come, and no other command ever comes to status 7.
pub fn a_status_tells_the_verdict()
    ensures yes { (told old new : Option (List ℕ)) (status : Status) → JudgesTo told old new status → code_of status ≡ 0 → IsJudged told verdicts.Yes × Appends old new (codes "yes\n") }
    ensures no { (told old new : Option (List ℕ)) (status : Status) → JudgesTo told old new status → code_of status ≡ 7
        → (clause : Clause) × IsJudged told (verdicts.No clause) × Appends old new (codes "no " ++ clause_word clause ++ codes "\n") }
    ensures never { (told old new : Option (List ℕ)) (status : Status) → JudgesTo told old new status → (code_of status ≢ 2) × (code_of status ≢ 6) }
    ensures step { (told old new : Option (List ℕ)) (status : Status) → ComesTo StepsTo told old new status → code_of status ≢ 7 }
    ensures run { (told old new : Option (List ℕ)) (status : Status) → Headline told old new status → code_of status ≢ 7 }
    ensures race { (told old new : Option (List ℕ)) (status : Status) → RacesTo told old new status → code_of status ≢ 7 }
    ensures make { (seed ran ran_now : ℕ) (old new : Option (List ℕ)) (status : Status) → MakesTo seed ran ran_now old new status → code_of status ≢ 7 }
{}

/// Where the bytes are told, a yes says that some record explains an outcome of the workload that stands at their beginning, that it ends as
/// their outcome line says, and that the report behind it is that of the outcome. A no says that of nothing that the text
/// tells the clause holds with all before it. And no record explains in vain: the verdict is yes exactly where the text has the lines of a record
/// that explains its run, with its end and its report. So where all clauses hold of what is told of a run, the verdict on such a text is never a no.
pub fn a_verdict_is_on_the_record_of_the_text()
    ensures yes { (bytes : List ℕ) (text : Told) (old new : Option (List ℕ)) → IsTold bytes text → JudgesTo (Some bytes) old new (statuses.Judged verdicts.Yes)
        → (r : Record) × (left : Report) × Explains text.plan (outcome_by text.misused left) r × (joined text.report ≡ report_text text.plan (outcome_by text.misused left)) }
    ensures no { (bytes : List ℕ) (text : Told) (clause : Clause) (old new : Option (List ℕ)) → IsTold bytes text → JudgesTo (Some bytes) old new (statuses.Judged (verdicts.No clause)) → ¬ UpTo text clause }
    ensures exactly { (bytes : List ℕ) (verdict : Verdict) (old new : Option (List ℕ)) → JudgesTo (Some bytes) old new (statuses.Judged verdict) → (verdict ≡ verdicts.Yes ↔ IsExplainingText bytes) }
    ensures never_in_vain { (bytes : List ℕ) (text : Told) (claim : Claim) (account : Account) (clause : Clause) (old new : Option (List ℕ)) → IsTold bytes text → ((one : Clause) → Holds claim account one) → AreLinesOf text claim
        → ¬ JudgesTo (Some bytes) old new (statuses.Judged (verdicts.No clause)) }
{
    a_text_tells_one_thing();
    a_yes_is_exactly_that_a_record_explains();
    nothing_that_explains_is_lost();
    yes_is_that_a_record_of_the_text_explains();
}
