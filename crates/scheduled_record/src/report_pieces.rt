//! The report of a run as a piece of a record's text.
ghost use Rattle.std.specs.Prelude.{◌≡◌, ◌≤◌, ◌<◌, true, [], length, get_or, vec_capacity, IfOk};
ghost use Rattle.std.specs.List.{list_all};
ghost use Rattle.script_calls.specs.Outcome.{has_pairs_to, shows_to};
ghost use Rattle.workload.specs.declared.limits.TheConstants.{MAX_KEYS};
ghost use Rattle.workload_text.specs.declared.line.TheConstants.{LINE_ROOM};
ghost use Rattle.run_report.specs.ReportText.{calls_text, ends_text, report_text, workers_text};
ghost use Rattle.record_text.specs.declared.limits.TheConstants.{MAX_RECORD};
ghost use Rattle.scheduled_record.specs.Pushed.{Gains};

use crate::pieces::push_piece;
use script_calls::laws::a_run_goes_along_by_places;
use script_calls::{Outcome, Reply};
use std::alloc::AllocError;
use sync_types::{End, Seq};
use workload::Workload;
use workload_text::{set_completed_line, set_end_line};

/// Adds the lines of a worker's completed calls.
fn push_calls(
    text: &mut Vec<u8>,
    workload: &Workload,
    worker: u32,
    replies: &[Reply<u32>],
    line: &mut Vec<u8>,
) -> Result<bool, AllocError>
    requires text { length text.old.items ≤ MAX_RECORD }
    requires worker { worker < workload.now.workers }
    requires pairs { list_all (has_pairs_to MAX_KEYS) replies.now ≡ true }
    requires room { LINE_ROOM ≤ vec_capacity line.old }
    ensures gains { IfOk result (Gains text.old.items text.new.items (calls_text workload.now worker 0 (get_or workload.now.scripts worker []) replies.now) true) }
    ensures room { LINE_ROOM ≤ vec_capacity line.new }
{
    a_run_goes_along_by_places();
    let script = workload.script(worker);
    let mut place = 0;
    for reply in replies {
        let Some(call) = script.get(place) else {
            return Ok(true);
        };
        set_completed_line(line, workload, worker, place, call, reply);
        if !push_piece(text, line)? {
            return Ok(false);
        }
        place += 1 + call.passed_over(reply);
    }
    Ok(true)
}

/// Adds those of all workers.
fn push_workers(
    text: &mut Vec<u8>,
    workload: &Workload,
    replies: &[Seq<Reply<u32>>],
    line: &mut Vec<u8>,
) -> Result<bool, AllocError>
    requires text { length text.old.items ≤ MAX_RECORD }
    requires pairs { list_all (list_all (has_pairs_to MAX_KEYS)) replies.now ≡ true }
    requires room { LINE_ROOM ≤ vec_capacity line.old }
    ensures gains { IfOk result (Gains text.old.items text.new.items (workers_text workload.now 0 workload.now.scripts replies.now) true) }
    ensures room { LINE_ROOM ≤ vec_capacity line.new }
{
    for worker in 0..workload.workers() {
        let Some(completed) = replies.get(worker as usize) else {
            return Ok(true);
        };
        if !push_calls(text, workload, worker, completed.as_slice(), line)? {
            return Ok(false);
        }
    }
    Ok(true)
}

/// Adds the lines of the values that objects hold at the end.
fn push_ends(
    text: &mut Vec<u8>,
    workload: &Workload,
    ends: &[End],
    line: &mut Vec<u8>,
) -> Result<bool, AllocError>
    requires text { length text.old.items ≤ MAX_RECORD }
    requires room { LINE_ROOM ≤ vec_capacity line.old }
    ensures { IfOk result (Gains text.old.items text.new.items (ends_text workload.now ends.now) true) }
{
    for end in ends {
        set_end_line(line, workload, end);
        if !push_piece(text, line)? {
            return Ok(false);
        }
    }
    Ok(true)
}

/// Adds the report of what a run of a workload came to.
pub(crate) fn push_report(
    text: &mut Vec<u8>,
    workload: &Workload,
    outcome: &Outcome,
    line: &mut Vec<u8>,
) -> Result<bool, AllocError>
    requires text { length text.old.items ≤ MAX_RECORD }
    requires pairs { shows_to MAX_KEYS outcome.now ≡ true }
    requires room { LINE_ROOM ≤ vec_capacity line.old }
    ensures { IfOk result (Gains text.old.items text.new.items (report_text workload.now outcome.now) true) }
{
    match outcome {
        Outcome::Done(left) => {
            if !push_workers(text, workload, left.replies.as_slice(), line)? {
                return Ok(false);
            }
            push_ends(text, workload, left.ends.as_slice(), line)
        }
        Outcome::Misused(left, _) | Outcome::Deadlocked(left) => {
            push_workers(text, workload, left.replies.as_slice(), line)
        }
    }
}
