//! Whether bytes are the report of an outcome.
ghost use Rattle.std.specs.Prelude.{◌≡◌, ◌↔◌, ◌≤◌, ◌<◌, true, List, [], get_or, IfOk, IsTrue, length, vec_capacity};
ghost use Rattle.std.specs.List.{list_all};
ghost use Rattle.script_calls.specs.Outcome.{has_pairs_to, left_by, shows_to};
ghost use Rattle.sync_model.specs.declared.item.Item.{Item};
ghost use Rattle.workload.specs.declared.limits.TheConstants.{MAX_KEYS};
ghost use Rattle.workload.specs.Lines.{lines_of};
ghost use Rattle.workload_text.specs.declared.line.TheConstants.{LINE_ROOM};
ghost use Rattle.run_report.specs.ReportText.{calls_text, ends_text, report_text, workers_text};
ghost use Rattle.record_text.specs.Reads.{told_by};
ghost use Rattle.record_text.specs.Told.{joined};
ghost use Rattle.record_clauses.specs.Account.{Claim};
ghost use Rattle.record_clauses.specs.Verdicts as claims;
ghost use Rattle.run_check.specs.Found.{IsStoppedOf};
ghost use Rattle.run_check.specs.Rest.{IsRest, is_ended};

use crate::outcome::{outcome_found, what_a_run_came_to_is_known};
use crate::spelling::Spelling;
use list_checks::spell::line::SpeltLine;
use record_clauses::Clause;
use record_text::RecordText;
use script_calls::laws::a_run_goes_along_by_places;
use script_calls::{Outcome, Reply};
use std::alloc::{AllocError, Global};
use sync_model::SharedEntry;
use sync_types::{End, Seq};
use workload::Workload;
use workload_text::{LINE_ROOM, set_completed_line, set_end_line};

/// Whether behind the clauses up to `stop` the clause `report` holds too, where the text's lists spell these lines, and its calls on maps
/// and atomics have this history. So all that a run came to is known: the report is compared with that of it.
pub fn report_holds(
    alloc: Global,
    text: &RecordText<'_>,
    lines: Seq<SpeltLine>,
    history: &[SharedEntry],
) -> Result<bool, AllocError>
    requires { (found : Spelling) × (marked : List (List Item)) × (claim : Claim) × (found.lines ≡ lines) × IsStoppedOf (told_by text.now) found marked history.now claim }
    ensures { IfOk result (λ holds. (found : Spelling) (marked : List (List Item)) (claim : Claim) → found.lines ≡ lines → IsStoppedOf (told_by text.now) found marked history.now claim
        → (IsTrue holds ↔ claims.UpTo claim Clause.Report)) }
{
    what_a_run_came_to_is_known();
    let outcome = outcome_found(alloc, &text.workload, text.misused, lines, history)?;
    are_lines_of_report(alloc, &text.workload, &outcome, text.report)
}

/// Whether the lines of a text are those of the report of what a run came to: behind the last one there may be no line feed.
fn are_lines_of_report(
    alloc: Global,
    workload: &Workload,
    outcome: &Outcome,
    text: &[u8],
) -> Result<bool, AllocError>
    requires pairs { shows_to MAX_KEYS outcome.now ≡ true }
    requires workers { length (left_by outcome.now).replies ≤ workload.now.workers }
    ensures { IfOk result (λ are. IsTrue are ↔ (joined (lines_of text.now) ≡ report_text workload.now outcome.now)) }
{
    if is_ended(text) {
        return is_report(alloc, workload, outcome, text);
    }
    let mut ended = Vec::new(alloc);
    ended.extend_from_slice(text)?;
    ended.push(b'\n')?;
    is_report(alloc, workload, outcome, &ended)
}

// Whether each line of a text has its line feed.
fn is_ended(text: &[u8]) -> bool
    ensures { result ≡ is_ended text.now }
{
    match text.last() {
        None => true,
        Some(byte) => *byte == b'\n',
    }
}

/// Whether bytes are the report of what a run of a workload came to. It makes one line of the report at a time, and compares it. No
/// reply may show more pairs than a workload has keys.
pub fn is_report(
    alloc: Global,
    workload: &Workload,
    outcome: &Outcome,
    bytes: &[u8],
) -> Result<bool, AllocError>
    requires pairs { shows_to MAX_KEYS outcome.now ≡ true }
    requires workers { length (left_by outcome.now).replies ≤ workload.now.workers }
    ensures { IfOk result (λ is. IsTrue is ↔ (bytes.now ≡ report_text workload.now outcome.now)) }
{
    let mut line = Vec::with_capacity(alloc, LINE_ROOM)?;
    match behind_report(workload, outcome, &mut line, bytes) {
        None => Ok(false),
        Some(rest) => Ok(rest.is_empty()),
    }
}

// What is left behind the report.
fn behind_report<'a>(
    workload: &Workload,
    outcome: &Outcome,
    line: &mut Vec<u8>,
    bytes: &'a [u8],
) -> Option<&'a [u8]>
    requires pairs { shows_to MAX_KEYS outcome.now ≡ true }
    requires workers { length (left_by outcome.now).replies ≤ workload.now.workers }
    requires room { LINE_ROOM ≤ vec_capacity line.old }
    ensures { IsRest bytes.now (report_text workload.now outcome.now) result }
{
    match outcome {
        Outcome::Done(left) => {
            match behind_workers(workload, left.replies.as_slice(), line, bytes) {
                None => None,
                Some(rest) => behind_ends(workload, left.ends.as_slice(), line, rest),
            }
        }
        Outcome::Misused(left, _) | Outcome::Deadlocked(left) => {
            behind_workers(workload, left.replies.as_slice(), line, bytes)
        }
    }
}

// What is left behind a beginning.
fn behind<'a>(bytes: &'a [u8], beginning: &[u8]) -> Option<&'a [u8]>
    ensures { IsRest bytes.now beginning.now result }
{
    bytes.strip_prefix(beginning)
}

// What is left behind the lines of a worker's completed calls.
fn behind_calls<'a>(
    workload: &Workload,
    worker: u32,
    replies: &[Reply<u32>],
    line: &mut Vec<u8>,
    bytes: &'a [u8],
) -> Option<&'a [u8]>
    requires worker { worker < workload.now.workers }
    requires pairs { list_all (has_pairs_to MAX_KEYS) replies.now ≡ true }
    requires room { LINE_ROOM ≤ vec_capacity line.old }
    ensures rest { IsRest bytes.now (calls_text workload.now worker 0 (get_or workload.now.scripts worker []) replies.now) result }
    ensures room { LINE_ROOM ≤ vec_capacity line.new }
{
    a_run_goes_along_by_places();
    let script = workload.script(worker);
    let mut place = 0;
    let mut rest = bytes;
    for reply in replies {
        let Some(call) = script.get(place) else {
            return Some(rest);
        };
        set_completed_line(line, workload, worker, place, call, reply);
        let Some(left) = behind(rest, line) else {
            return None;
        };
        rest = left;
        place += 1 + call.passed_over(reply);
    }
    Some(rest)
}

// What is left behind those of all workers.
fn behind_workers<'a>(
    workload: &Workload,
    replies: &[Seq<Reply<u32>>],
    line: &mut Vec<u8>,
    bytes: &'a [u8],
) -> Option<&'a [u8]>
    requires workers { length replies.now ≤ workload.now.workers }
    requires pairs { list_all (list_all (has_pairs_to MAX_KEYS)) replies.now ≡ true }
    requires room { LINE_ROOM ≤ vec_capacity line.old }
    ensures rest { IsRest bytes.now (workers_text workload.now 0 workload.now.scripts replies.now) result }
    ensures room { LINE_ROOM ≤ vec_capacity line.new }
{
    let _workers = workload.workers();
    let mut rest = bytes;
    let mut worker: u32 = 0;
    for completed in replies {
        let Some(left) = behind_calls(workload, worker, completed.as_slice(), line, rest) else {
            return None;
        };
        rest = left;
        worker += 1;
    }
    Some(rest)
}

// What is left behind the lines of the values that objects hold.
fn behind_ends<'a>(
    workload: &Workload,
    ends: &[End],
    line: &mut Vec<u8>,
    bytes: &'a [u8],
) -> Option<&'a [u8]>
    requires { LINE_ROOM ≤ vec_capacity line.old }
    ensures { IsRest bytes.now (ends_text workload.now ends.now) result }
{
    let mut rest = bytes;
    for end in ends {
        set_end_line(line, workload, end);
        let Some(left) = behind(rest, line) else {
            return None;
        };
        rest = left;
    }
    Some(rest)
}
