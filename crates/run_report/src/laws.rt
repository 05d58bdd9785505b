//! What it means that a report was written, and what it tells.
ghost use Rattle.std.specs.Prelude.{◌≡◌, ◌≢◌, ◌↔◌, ◌≤◌, ◌+◌, ℕ, false, List, [], ◌++◌, codes, length, get_or, sum_by, Option, Some, slice_get};
ghost use Rattle.std.specs.Fmt.{decimal};
ghost use Rattle.sync_outside.specs.Bytes.{Appends, AppendsFront};
ghost use Rattle.sync_types.specs.declared.end.End.{End};
ghost use Rattle.sync_types.specs.declared.misuse.Misuse.{Misuse};
ghost use Rattle.script_calls.specs.Outcome.{left_by};
ghost use Rattle.script_calls.specs.Runs.{have_tests};
ghost use Rattle.script_calls.specs.declared.call.Call.{Call};
ghost use Rattle.script_calls.specs.declared.call.Reply.{Reply};
ghost use Rattle.script_calls.specs.declared.outcome.Outcome.{Outcome};
ghost use Rattle.script_calls.specs.declared.outcome.Outcome.TheVariants as outcomes;
ghost use Rattle.script_calls.specs.declared.outcome.Report.{Report};
ghost use Rattle.workload.specs.Plan.{Plan};
ghost use Rattle.workload.specs.Readable.{IsReadable};
ghost use Rattle.workload_text.specs.ReportLines.{completed_line};
ghost use Rattle.run_report.specs.ReportText.{outcome_ends, report_lines, report_text};
ghost use Rattle.run_report.specs.Shown.{completed_before, AreReplies, Shows};
ghost use Rattle.run_report.specs.Told.{ReportTellsWhatIsLeft};
ghost use Rattle.run_report.specs.Writes.{Wrote, WroteUpTo};

use script_calls::laws::{a_script_without_tests_is_its_own_run, calls_keep_their_places};
use workload::laws::keys_are_numbered_by_first_appearance;

/// A report has one line for each completed call, with the call's place in the script, and behind these, where every script has
/// ended, one for each end; and it has no others.
pub fn a_report_has_a_line_for_each_call_and_end()
    ensures done { (plan : Plan) (left : Report) → AreReplies plan.scripts left.replies → Shows plan left.replies left.ends (report_text plan (outcomes.Done left)) }
    ensures misused { (plan : Plan) (left : Report) (misuse : Misuse) → AreReplies plan.scripts left.replies → Shows plan left.replies [] (report_text plan (outcomes.Misused left misuse)) }
    ensures deadlocked { (plan : Plan) (left : Report) → AreReplies plan.scripts left.replies → Shows plan left.replies [] (report_text plan (outcomes.Deadlocked left)) }
    ensures count { (plan : Plan) (outcome : Outcome) → AreReplies plan.scripts (left_by outcome).replies → report_lines plan outcome ≡ sum_by length (left_by outcome).replies + length (outcome_ends outcome) }
{
    calls_keep_their_places::<u32>();
}

/// Who has no reply has no line: no line of the report begins with its number and a dot. So it is of a worker that waits to be started,
/// and never is.
pub fn who_has_no_reply_has_no_line()
    ensures { (plan : Plan) (replies : List (List (Reply ℕ))) (ends : List End) (text : List ℕ) (shown : Shows plan replies ends text) (worker position : ℕ) (tail : List ℕ)
        → IsReadable plan → length replies ≡ length plan.scripts → slice_get replies worker ≡ Some [] → slice_get shown.lines position ≢ Some (decimal worker ++ codes "." ++ tail) }
{}

/// Where no call may pass others over, each worker completes the first calls of its script, and the place in a line is how many calls
/// its worker completed before.
pub fn without_tests_a_place_counts_completed_calls()
    ensures replies { (scripts : List (List Call)) (replies : List (List (Reply ℕ))) → have_tests scripts ≡ false
        → AreReplies scripts replies ↔ ((worker : ℕ) → length (get_or replies worker []) ≤ length (get_or scripts worker [])) }
    ensures lines { (plan : Plan) (replies : List (List (Reply ℕ))) (ends : List End) (text : List ℕ) (shown : Shows plan replies ends text) (worker index : ℕ) (script : List Call) (completed : List (Reply ℕ)) (call : Call) (reply : Reply ℕ)
        → have_tests plan.scripts ≡ false → slice_get plan.scripts worker ≡ Some script → slice_get replies worker ≡ Some completed → slice_get script index ≡ Some call → slice_get completed index ≡ Some reply
        → slice_get shown.lines (completed_before worker replies + index) ≡ Some (completed_line plan worker index call reply) }
{
    a_script_without_tests_is_its_own_run::<u32>();
}

/// A report tells what the run left behind: of two outcomes of one workload that have one report, each worker's replies are the same,
/// and so are the ends. Which of the three endings it was isn't in the report.
pub fn a_report_tells_what_is_left()
    ensures { (plan : Plan) → IsReadable plan → ReportTellsWhatIsLeft plan }
{
    keys_are_numbered_by_first_appearance();
}

/// Texts that are written one behind the other are written as one. A first part of a text is one of the text and what is behind it, and
/// a text with a first part of what is behind it is one of both. The numbers of writes add up.
pub fn what_is_written_adds_up()
    ensures nothing { (old : Option (List ℕ)) → Appends old old [] }
    ensures both { (old mid new : Option (List ℕ)) (text behind : List ℕ) → Appends old mid text → Appends mid new behind → Appends old new (text ++ behind) }
    ensures part { (old new : Option (List ℕ)) (text behind : List ℕ) → AppendsFront old new text → AppendsFront old new (text ++ behind) }
    ensures further { (old mid new : Option (List ℕ)) (text behind : List ℕ) → Appends old mid text → AppendsFront mid new behind → AppendsFront old new (text ++ behind) }
    ensures writes { (before mid now times more : ℕ) → Wrote before mid times → Wrote mid now more → Wrote before now (times + more) }
    ensures some { (before now times more : ℕ) → WroteUpTo before now times → WroteUpTo before now (times + more) }
    ensures up_to { (before mid now times more : ℕ) → Wrote before mid times → WroteUpTo mid now more → WroteUpTo before now (times + more) }
{}
