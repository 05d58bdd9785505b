//! The report of a run.
ghost use Rattle.std.specs.Prelude.{◌≡◌, ◌≤◌, ◌<◌, true, [], length, get_or, vec_capacity, OnOk, OnErr};
ghost use Rattle.std.specs.List.{list_all};
ghost use Rattle.sync_outside.specs.Bytes.{Appends, AppendsFront};
ghost use Rattle.sync_outside.specs.Faults.{Rose};
ghost use Rattle.workload.specs.declared.limits.TheConstants.{MAX_KEYS};
ghost use Rattle.script_calls.specs.Outcome.{has_pairs_to, shows_to};
ghost use Rattle.run_report.specs.ReportText.{calls_text, completed_in, workers_text, completed_in_all, ends_text, report_text, report_lines};
ghost use Rattle.run_report.specs.Writes.{Wrote, WroteUpTo};

use script_calls::laws::a_run_goes_along_by_places;
use script_calls::{Outcome, Reply};
use sync_outside::{Failed, Sink};
use sync_types::{End, Seq};
use workload::Workload;
use workload_text::{LINE_ROOM, set_completed_line, set_end_line};

/// Writes the completed calls of a worker: as many of its script as there are replies, each with its place in the script.
fn write_calls<O: Sink>(
    workload: &Workload,
    worker: u32,
    replies: &[Reply<u32>],
    line: &mut Vec<u8>,
    out: &mut O,
) -> Result<(), Failed>
    requires worker { worker < workload.now.workers }
    requires pairs { list_all (has_pairs_to MAX_KEYS) replies.now ≡ true }
    requires room { LINE_ROOM ≤ vec_capacity line.old }
    ensures ok { OnOk result (Appends (O.contents out.old) (O.contents out.new) (calls_text workload.now worker 0 (get_or workload.now.scripts worker []) replies.now)) }
    ensures err { OnErr result (AppendsFront (O.contents out.old) (O.contents out.new) (calls_text workload.now worker 0 (get_or workload.now.scripts worker []) replies.now)) }
    ensures writes { OnOk result (Wrote (O.writes out.old) (O.writes out.new) (completed_in (get_or workload.now.scripts worker []) replies.now)) }
    ensures cut { OnErr result (WroteUpTo (O.writes out.old) (O.writes out.new) (completed_in (get_or workload.now.scripts worker []) replies.now)) }
    ensures failed { OnErr result (Rose (O.faults out.old) (O.faults out.new)) }
    ensures faults { O.faults out.old ≤ O.faults out.new }
    ensures room { LINE_ROOM ≤ vec_capacity line.new }
{
    a_run_goes_along_by_places();
    let script = workload.script(worker);
    let mut place = 0;
    for reply in replies {
        let Some(call) = script.get(place) else {
            return Ok(());
        };
        set_completed_line(line, workload, worker, place, call, reply);
        out.write(line)?;
        place += 1 + call.passed_over(reply);
    }
    Ok(())
}

/// Writes the completed calls of all workers.
fn write_workers<O: Sink>(
    workload: &Workload,
    replies: &[Seq<Reply<u32>>],
    line: &mut Vec<u8>,
    out: &mut O,
) -> Result<(), Failed>
    requires pairs { list_all (list_all (has_pairs_to MAX_KEYS)) replies.now ≡ true }
    requires room { LINE_ROOM ≤ vec_capacity line.old }
    ensures ok { OnOk result (Appends (O.contents out.old) (O.contents out.new) (workers_text workload.now 0 workload.now.scripts replies.now)) }
    ensures err { OnErr result (AppendsFront (O.contents out.old) (O.contents out.new) (workers_text workload.now 0 workload.now.scripts replies.now)) }
    ensures writes { OnOk result (Wrote (O.writes out.old) (O.writes out.new) (completed_in_all workload.now.scripts replies.now)) }
    ensures cut { OnErr result (WroteUpTo (O.writes out.old) (O.writes out.new) (completed_in_all workload.now.scripts replies.now)) }
    ensures failed { OnErr result (Rose (O.faults out.old) (O.faults out.new)) }
    ensures faults { O.faults out.old ≤ O.faults out.new }
    ensures room { LINE_ROOM ≤ vec_capacity line.new }
{
    for worker in 0..workload.workers() {
        let Some(completed) = replies.get(worker as usize) else {
            return Ok(());
        };
        write_calls(workload, worker, completed.as_slice(), line, out)?;
    }
    Ok(())
}

/// Writes the values that the objects hold at the end.
fn write_ends<O: Sink>(
    workload: &Workload,
    ends: &[End],
    line: &mut Vec<u8>,
    out: &mut O,
) -> Result<(), Failed>
    requires room { LINE_ROOM ≤ vec_capacity line.old }
    ensures ok { OnOk result (Appends (O.contents out.old) (O.contents out.new) (ends_text workload.now ends.now)) }
    ensures err { OnErr result (AppendsFront (O.contents out.old) (O.contents out.new) (ends_text workload.now ends.now)) }
    ensures writes { OnOk result (Wrote (O.writes out.old) (O.writes out.new) (length ends.now)) }
    ensures cut { OnErr result (WroteUpTo (O.writes out.old) (O.writes out.new) (length ends.now)) }
    ensures failed { OnErr result (Rose (O.faults out.old) (O.faults out.new)) }
    ensures faults { O.faults out.old ≤ O.faults out.new }
    ensures room { LINE_ROOM ≤ vec_capacity line.new }
{
    for end in ends {
        set_end_line(line, workload, end);
        out.write(line)?;
    }
    Ok(())
}

/// Writes the report of what a run of a workload came to: first a line for each completed call,
/// worker by worker, and then, where every script has ended, a line for each value that an object
/// holds. Each line is one write. It takes no memory: a line is made in the buffer `line`, which has
/// room for 262,144 bytes. For that no reply may show more pairs than a workload has keys, which those
/// of a run don't.
pub fn report<O: Sink>(
    workload: &Workload,
    outcome: &Outcome,
    line: &mut Vec<u8>,
    out: &mut O,
) -> Result<(), Failed>
    requires pairs { shows_to MAX_KEYS outcome.now ≡ true }
    requires room { LINE_ROOM ≤ vec_capacity line.old }
    ensures ok { OnOk result (Appends (O.contents out.old) (O.contents out.new) (report_text workload.now outcome.now)) }
    ensures err { OnErr result (AppendsFront (O.contents out.old) (O.contents out.new) (report_text workload.now outcome.now)) }
    ensures writes { OnOk result (Wrote (O.writes out.old) (O.writes out.new) (report_lines workload.now outcome.now)) }
    ensures cut { OnErr result (WroteUpTo (O.writes out.old) (O.writes out.new) (report_lines workload.now outcome.now)) }
    ensures failed { OnErr result (Rose (O.faults out.old) (O.faults out.new)) }
    ensures faults { O.faults out.old ≤ O.faults out.new }
    ensures room { LINE_ROOM ≤ vec_capacity line.new }
{
    match outcome {
        Outcome::Done(left) => {
            write_workers(workload, left.replies.as_slice(), line, out)?;
            write_ends(workload, left.ends.as_slice(), line, out)
        }
        Outcome::Misused(left, _) | Outcome::Deadlocked(left) => {
            write_workers(workload, left.replies.as_slice(), line, out)
        }
    }
}
