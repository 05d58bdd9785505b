//! How a run ended, once its report is written.
ghost use Rattle.std.specs.Prelude.{◌≡◌, ◌≤◌, true, vec_capacity, MatchResult, OnErr};
ghost use Rattle.sync_outside.specs.Bytes.{Appends, AppendsFront};
ghost use Rattle.sync_outside.specs.Faults.{Rose};
ghost use Rattle.workload.specs.declared.limits.TheConstants.{MAX_KEYS};
ghost use Rattle.script_calls.specs.Outcome.{shows_to};
ghost use Rattle.run_report.specs.ReportText.{report_text};
ghost use Rattle.gosync_call.specs.Messages.{ending_of};
ghost use Rattle.gosync_call.specs.declared.status.Fault.TheVariants as faults;

use crate::status::{Ending, Fault};
use run_report::report::report;
use script_calls::Outcome;
use sync_outside::Sink;
use workload::Workload;
use workload_text::LINE_ROOM;

/// How a run ended that came to this.
fn ending_of(outcome: &Outcome) -> Ending
    ensures { result ≡ ending_of outcome.now }
{
    match outcome {
        Outcome::Done(_) => Ending::Done,
        Outcome::Misused(_, misuse) => Ending::Misused(*misuse),
        Outcome::Deadlocked(_) => Ending::Deadlocked,
    }
}

/// Writes the report of what a run came to, and answers how the run ended.
pub fn report_run<O: Sink>(
    workload: &Workload,
    outcome: &Outcome,
    line: &mut Vec<u8>,
    out: &mut O,
) -> Result<Ending, Fault>
    requires pairs { shows_to MAX_KEYS outcome.now ≡ true }
    requires room { LINE_ROOM ≤ vec_capacity line.old }
    ensures written { MatchResult result
        (λ ending. (ending ≡ ending_of outcome.now) × Appends (O.contents out.old) (O.contents out.new) (report_text workload.now outcome.now))
        (λ fault. (fault ≡ faults.CannotWrite) × AppendsFront (O.contents out.old) (O.contents out.new) (report_text workload.now outcome.now)) }
    ensures cannot_write { OnErr result (Rose (O.faults out.old) (O.faults out.new)) }
    ensures out_faults { O.faults out.old ≤ O.faults out.new }
{
    match report(workload, outcome, line, out) {
        Ok(()) => Ok(ending_of(outcome)),
        Err(_) => Err(Fault::CannotWrite),
    }
}
