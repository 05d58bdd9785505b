//! The record of a run by schedule, as a text.
ghost use Rattle.std.specs.Prelude.{◌≡◌, ◌≤◌, ◌++◌, true, false, drop, length, vec_capacity, IfOk, None};
ghost use Rattle.std.specs.List.{list_all};
ghost use Rattle.script_calls.specs.Outcome.{shows_to};
ghost use Rattle.workload.specs.Lines.{lines_of};
ghost use Rattle.workload.specs.declared.limits.TheConstants.{MAX_KEYS};
ghost use Rattle.run_report.specs.ReportText.{report_text};
ghost use Rattle.record_text.specs.Told.{is_short_line, joined};
ghost use Rattle.record_text.specs.WrittenLines.{record_lines};
ghost use Rattle.step_runner.specs.Traces.{trace_of};
ghost use Rattle.scheduled_record.specs.Pushed.{Gains, IsWritten, have_few_numbers};
ghost use Rattle.scheduled_record.specs.Recorded.{IsRecorded, has_short_lines};
ghost use Rattle.scheduled_record.specs.ToldItems.{AreIn64Bits, told_items};

use crate::items::items_of_run;
use crate::pieces::push_record_lines;
use crate::recorded_run::Recorded;
use crate::report_pieces::push_report;
use crate::text_laws::an_item_of_a_run_has_a_number_for_each_worker;
use record_text::ItemLine;
use record_text::limits::{MAX_ITEMS, MAX_RECORD};
use record_text::text::first_long;
use script_calls::Outcome;
use std::alloc::{AllocError, Global};
use step_runner::laws::each_run_has_one_outcome;
use step_runner::{Trace, TracedRun, traced};
use workload::Workload;
use workload_text::{LINE_ROOM, print};

/// The text from an index on.
fn text_from(text: &[u8], start: usize) -> &[u8]
    requires { start ≤ length text.now }
    ensures text { result.now ≡ drop start text.now }
    ensures less { length result.now ≤ length text.now }
{
    &text[start..]
}

/// Whether the lines of a text from an index on have at most 400 bytes each.
fn has_short_lines_from(text: &[u8], start: usize) -> bool
    requires within { length text.now ≤ MAX_RECORD }
    requires start { start ≤ length text.now }
    ensures { result ≡ list_all is_short_line (lines_of (drop start text.now)) }
{
    let report = text_from(text, start);
    match first_long(report, 0) {
        None => true,
        Some(_) => false,
    }
}

/// Adds all that stands behind the workload's text, in the room of a line.
fn push_in_room(
    alloc: Global,
    text: &mut Vec<u8>,
    workload: &Workload,
    items: &[ItemLine],
    outcome: &Outcome,
    line: &mut Vec<u8>,
) -> Result<bool, AllocError>
    requires text { length text.old.items ≤ MAX_RECORD }
    requires few { have_few_numbers items.now ≡ true }
    requires pairs { shows_to MAX_KEYS outcome.now ≡ true }
    requires room { LINE_ROOM ≤ vec_capacity line.old }
    ensures { IfOk result (Gains text.old.items text.new.items (joined (record_lines workload.now items.now None) ++ report_text workload.now outcome.now) (has_short_lines workload.now items.now (report_text workload.now outcome.now))) }
{
    if !push_record_lines(alloc, text, workload, items, line)? {
        return Ok(false);
    }
    let start = text.len();
    if !push_report(text, workload, outcome, line)? {
        return Ok(false);
    }
    Ok(has_short_lines_from(text, start))
}

/// Adds all that stands behind the workload's text.
fn push_behind(
    alloc: Global,
    text: &mut Vec<u8>,
    workload: &Workload,
    items: &[ItemLine],
    outcome: &Outcome,
) -> Result<bool, AllocError>
    requires text { length text.old.items ≤ MAX_RECORD }
    requires few { have_few_numbers items.now ≡ true }
    requires pairs { shows_to MAX_KEYS outcome.now ≡ true }
    ensures { IfOk result (Gains text.old.items text.new.items (joined (record_lines workload.now items.now None) ++ report_text workload.now outcome.now) (has_short_lines workload.now items.now (report_text workload.now outcome.now))) }
{
    let mut line = Vec::with_capacity(alloc, LINE_ROOM)?;
    push_in_room(alloc, text, workload, items, outcome, &mut line)
}

/// The text of a record with these items and this report, where it is within the limits.
fn written(
    alloc: Global,
    workload: &Workload,
    items: &[ItemLine],
    outcome: &Outcome,
) -> Result<Option<Vec<u8>>, AllocError>
    requires few { have_few_numbers items.now ≡ true }
    requires pairs { shows_to MAX_KEYS outcome.now ≡ true }
    ensures { IfOk result (IsWritten workload.now items.now (report_text workload.now outcome.now)) }
{
    if items.len() > MAX_ITEMS {
        return Ok(None);
    }
    let mut text = print(alloc, workload)?;
    if text.len() > MAX_RECORD {
        return Ok(None);
    }
    if push_behind(alloc, &mut text, workload, items, outcome)? {
        Ok(Some(text))
    } else {
        Ok(None)
    }
}

/// The text of the record of a run that is done, from its trace, where it is within the limits. The numbers of its items have 64 bits.
fn text_of(
    alloc: Global,
    workload: &Workload,
    outcome: &Outcome,
    trace: &Trace,
) -> Result<Option<Vec<u8>>, AllocError>
    requires trace { trace.now ≡ trace_of workload.now }
    requires pairs { shows_to MAX_KEYS outcome.now ≡ true }
    ensures written { IfOk result (IsWritten workload.now (told_items workload.now) (report_text workload.now outcome.now)) }
    ensures numbers { IfOk result (λ text. AreIn64Bits workload.now) }
{
    an_item_of_a_run_has_a_number_for_each_worker();
    workload.workers();
    let items = items_of_run(alloc, workload, trace)?;
    written(alloc, workload, items.as_slice(), outcome)
}

/// Runs a workload by its schedule, as `stepped` does, and tells its record as a text.
///
/// A run that is done gives the text of its record, unless that passes a limit: the workload in its canonical form, the items in
/// the order of the turns, `outcome done`, and the report. Each of the other ways to end gives no text. Only want of memory is an `Err`.
pub fn recorded(alloc: Global, workload: &Workload) -> Result<Recorded, AllocError>
    ensures { IfOk result (IsRecorded workload.now) }
{
    each_run_has_one_outcome();
    workload.workers();
    let TracedRun { outcome, trace, .. } = traced(alloc, workload)?;
    match &outcome {
        Outcome::Done(_) => match text_of(alloc, workload, &outcome, &trace)? {
            None => Ok(Recorded::TooLong),
            Some(text) => Ok(Recorded::Text(text)),
        },
        Outcome::Misused(_, misuse) => Ok(Recorded::Misused(*misuse)),
        Outcome::Deadlocked(_) => Ok(Recorded::Deadlocked),
    }
}
