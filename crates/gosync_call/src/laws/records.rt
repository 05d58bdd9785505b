//! That the record of a run by schedule explains the run, in the words of `trace` and `check`.
ghost use Rattle.std.specs.Prelude.{◌≡◌, ℕ, true, false, List, [], Option, Some};
ghost use Rattle.script_calls.specs.declared.outcome.Report.{Report};
ghost use Rattle.workload.specs.Dialect.{has_unrecorded};
ghost use Rattle.workload.specs.Plan.{Plan};
ghost use Rattle.workload.specs.Readable.{IsReadable};
ghost use Rattle.record_clauses.specs.declared.clause.Verdict.{Verdict};
ghost use Rattle.record_clauses.specs.declared.clause.Verdict.TheVariants as verdicts;
ghost use Rattle.record_text.specs.declared.fault.CheckReason.{CheckReason};
ghost use Rattle.scheduled_record.specs.Recorded.{IsDoneWithin, done_text};
ghost use Rattle.gosync_call.specs.Checks.{IsJudged, IsNoRecord};
ghost use Rattle.gosync_call.specs.Traces.{TracesTo};
ghost use Rattle.gosync_call.specs.declared.status.Ending.TheVariants as endings;
ghost use Rattle.gosync_call.specs.declared.status.Status.TheVariants as statuses;
ghost use Rattle.gosync_call.specs.declared.status.Unread.TheVariants as unreads;

use run_check::completeness::nothing_that_explains_is_lost;
use run_check::laws::a_text_comes_to_one_verdict;
use scheduled_record::text_laws::the_text_of_a_run_tells_its_record;
use scheduled_record::told_laws::{each_item_of_a_run_has_its_line, what_is_told_of_a_run_holds};

/// `check` says yes to what `trace` writes of a workload whose run is done: that text is one of a record, it is never refused, and it is
/// never told to fail at a clause.
pub fn check_says_yes_to_what_trace_writes()
    ensures yes { (plan : Plan) (left : Report) → IsReadable plan → has_unrecorded plan ≡ false → IsDoneWithin plan true left → IsJudged (Some (done_text plan left)) verdicts.Yes }
    ensures one { (plan : Plan) (left : Report) (verdict : Verdict) → IsReadable plan → has_unrecorded plan ≡ false → IsDoneWithin plan true left → IsJudged (Some (done_text plan left)) verdict → verdict ≡ verdicts.Yes }
    ensures accepted { (plan : Plan) (left : Report) (line : ℕ) (reason : CheckReason) → IsReadable plan → has_unrecorded plan ≡ false → IsDoneWithin plan true left → IsNoRecord (Some (done_text plan left)) (unreads.NoRecord line reason) → ⊥ }
    ensures traced { (told : Option (List ℕ)) (bytes : List ℕ) → TracesTo told (Some []) (Some bytes) (statuses.Ended endings.Done) → IsJudged (Some bytes) verdicts.Yes }
{
    a_text_comes_to_one_verdict();
    nothing_that_explains_is_lost();
    what_is_told_of_a_run_holds();
    each_item_of_a_run_has_its_line();
    the_text_of_a_run_tells_its_record();
}
